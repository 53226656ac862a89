// Definitions of types.
ghost use Rattle.std.specs.Prelude.{◌≡◌, ◌∷◌, ◌++◌, [], IfOk, OnOk, not};
ghost use Rattle.std.specs.List.{filter};
ghost use Rattle.jr_items.specs.Items.{same_name};
ghost use Rattle.jr_items.specs.Names.{base_type};
ghost use Rattle.jr_cnd.specs.Grammar.{begins_item, child_more, item_more, read_items, kept_supertypes, where_lacking, lacks, primary_item_at, prop_more, supertypes_at, type_at, type_attribute_more, type_attributes_at, type_name_at, type_word_first, type_word_in, with_type_word};
ghost use Rattle.jr_cnd.specs.Reading.{Reads};

use crate::NoCnd;
use crate::cursor::Cursor;
use crate::words::{TypeWord, type_word};
use cnd_pieces::{Placed, Says, Sign};
use jr_items::OwnName;
use jr_path::{DeepCopy, List, Name};
use jr_types::{ChildDef, PropDef, TypeDef};
use std::alloc::{AllocError, Global};

/// The attributes of a type that were read.
#[derive(Drop)]
pub struct TypeAttributes {
    pub mixin: bool,
    pub is_abstract: bool,
    pub orderable: bool,
    pub primary_item: Option<Name>,
}

/// The items of a type that were read.
#[derive(Drop)]
pub struct Items {
    pub props: List<PropDef>,
    pub children: List<ChildDef>,
}

// Whether the attribute isn't among these.
fn lacks(attributes: &TypeAttributes, word: TypeWord) -> bool
    ensures { result ≡ lacks attributes.now word }
{
    match word {
        TypeWord::Mixin => !attributes.mixin,
        TypeWord::Abstract => !attributes.is_abstract,
        TypeWord::Orderable => !attributes.orderable,
        TypeWord::PrimaryItem => attributes.primary_item.is_none(),
    }
}

fn lacking(attributes: &TypeAttributes, word: Option<TypeWord>) -> Option<TypeWord>
    ensures { result ≡ where_lacking attributes.now word }
{
    match word {
        Some(word) => {
            if lacks(attributes, word) {
                Some(word)
            } else {
                None
            }
        }
        None => None,
    }
}

// The attribute that a token is.
fn type_word_in(says: &Says) -> Option<TypeWord>
    ensures { result ≡ type_word_in says.now }
{
    match says {
        Says::Name(word) => type_word(word.as_str()),
        Says::Sign(Sign::Bang) => Some(TypeWord::PrimaryItem),
        _ => None,
    }
}

// The attribute that comes next, where it may stand behind these.
fn type_word_first(attributes: &TypeAttributes, pieces: &[Placed]) -> Option<TypeWord>
    ensures { result ≡ type_word_first attributes.now pieces.now }
{
    match pieces {
        [piece, ..] => lacking(attributes, type_word_in(&piece.says)),
        [] => None,
    }
}

// The supertypes that a definition keeps: without `nt:base`, unless it is a mixin's.
fn kept_supertypes(alloc: Global, mixin: bool, names: List<Name>) -> Result<List<Name>, AllocError>
    ensures { IfOk result (λ kept. kept ≡ kept_supertypes mixin names) }
{
    if mixin {
        return Ok(names);
    }
    without_base(alloc, names.as_slice())
}

fn without_base(alloc: Global, names: &[Name]) -> Result<List<Name>, AllocError>
    ensures { IfOk result (λ kept. kept ≡ filter (λ n. not (same_name n base_type)) names.now) }
{
    let mut kept = List::new(alloc);
    for name in names {
        add_unless_base(&mut kept, name)?;
    }
    Ok(kept)
}

// Puts a name behind others, unless it is `nt:base`.
fn add_unless_base(list: &mut List<Name>, name: &Name) -> Result<(), AllocError>
    ensures { OnOk result (list.new ≡ list.old
        ++ filter (λ n. not (same_name n base_type)) (name.now ∷ [])) }
{
    if OwnName::BaseType.is(name) {
        return Ok(());
    }
    list.push(name.copy()?)
}

impl<'a> Cursor<'a> {
    fn primary_item(&mut self, attributes: TypeAttributes) -> Result<TypeAttributes, NoCnd>
        ensures { Reads result self.new (primary_item_at attributes self.old) }
    {
        let name = self.name()?;
        Ok(TypeAttributes {
            mixin: attributes.mixin,
            is_abstract: attributes.is_abstract,
            orderable: attributes.orderable,
            primary_item: Some(name),
        })
    }

    fn with_type_word(
        &mut self,
        attributes: TypeAttributes,
        word: TypeWord,
    ) -> Result<TypeAttributes, NoCnd>
        ensures { Reads result self.new (with_type_word attributes word self.old) }
    {
        let mut attributes = attributes;
        match word {
            TypeWord::Mixin => {
                attributes.mixin = true;
                Ok(attributes)
            }
            TypeWord::Abstract => {
                attributes.is_abstract = true;
                Ok(attributes)
            }
            TypeWord::Orderable => {
                attributes.orderable = true;
                Ok(attributes)
            }
            TypeWord::PrimaryItem => self.primary_item(attributes),
        }
    }

    // A further attribute, which may stand behind these.
    fn type_attribute(&mut self, attributes: TypeAttributes) -> Result<TypeAttributes, NoCnd>
        ensures { Reads result self.new (type_attribute_more attributes self.old) }
    {
        match type_word_first(&attributes, self.pieces) {
            Some(word) => {
                self.advance();
                self.with_type_word(attributes, word)
            }
            None => Err(self.fault()),
        }
    }

    // {tattr}
    fn type_attributes(&mut self) -> Result<TypeAttributes, NoCnd>
        ensures { Reads result self.new (type_attributes_at self.old) }
    {
        let mut attributes = TypeAttributes {
            mixin: false,
            is_abstract: false,
            orderable: false,
            primary_item: None,
        };
        let mut turns = self.pieces;
        while let [_, more @ ..] = turns {
            if type_word_first(&attributes, self.pieces).is_none() {
                break;
            }
            turns = more;
            attributes = self.type_attribute(attributes)?;
        }
        Ok(attributes)
    }

    // [ name ]
    fn type_name(&mut self) -> Result<Name, NoCnd>
        ensures { Reads result self.new (type_name_at self.old) }
    {
        self.sign(Sign::OpenSquare)?;
        let name = self.name()?;
        self.sign(Sign::CloseSquare)?;
        Ok(name)
    }

    // [> name {, name}]
    fn supertypes(&mut self) -> Result<List<Name>, NoCnd>
        ensures { Reads result self.new (supertypes_at self.old) }
    {
        if self.is_sign(Sign::Greater) {
            self.advance();
            return self.names();
        }
        Ok(List::new(self.alloc))
    }

    fn prop_more(&mut self, items: Items) -> Result<Items, NoCnd>
        ensures { Reads result self.new (prop_more items self.old) }
    {
        self.advance();
        let prop = self.prop()?;
        let mut items = items;
        items.props.push(prop)?;
        Ok(items)
    }

    fn child_more(&mut self, items: Items) -> Result<Items, NoCnd>
        ensures { Reads result self.new (child_more items self.old) }
    {
        self.advance();
        let child = self.child()?;
        let mut items = items;
        items.children.push(child)?;
        Ok(items)
    }

    // A further property or child.
    fn item_more(&mut self, items: Items) -> Result<Items, NoCnd>
        ensures { Reads result self.new (item_more items self.old) }
    {
        if self.is_sign(Sign::Minus) {
            return self.prop_more(items);
        }
        self.child_more(items)
    }

    fn begins_item(&self) -> bool
        ensures { result ≡ begins_item self.now.pieces }
    {
        self.is_sign(Sign::Minus) || self.is_sign(Sign::Plus)
    }

    // {prop | child}
    fn items(&mut self) -> Result<Items, NoCnd>
        ensures { Reads result self.new (read_items self.old) }
    {
        let mut items = Items {
            props: List::new(self.alloc),
            children: List::new(self.alloc),
        };
        let mut turns = self.pieces;
        while let [_, more @ ..] = turns {
            if !self.begins_item() {
                break;
            }
            turns = more;
            items = self.item_more(items)?;
        }
        Ok(items)
    }

    // type = [name] [> name {, name}] {tattr} {prop | child}
    pub(crate) fn definition(&mut self) -> Result<TypeDef, NoCnd>
        ensures { Reads result self.new (type_at self.old) }
    {
        let name = self.type_name()?;
        let names = self.supertypes()?;
        let attributes = self.type_attributes()?;
        let items = self.items()?;
        let supertypes = kept_supertypes(self.alloc, attributes.mixin, names)?;
        Ok(TypeDef {
            name,
            supertypes,
            is_abstract: attributes.is_abstract,
            mixin: attributes.mixin,
            orderable: attributes.orderable,
            primary_item: attributes.primary_item,
            props: items.props,
            children: items.children,
        })
    }
}
