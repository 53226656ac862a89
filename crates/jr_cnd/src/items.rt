// Definitions of properties and of children.
ghost use Rattle.std.specs.Prelude.{◌≡◌, ◌∷◌, [], IfOk};
ghost use Rattle.jr_items.specs.Names.{base_type};
ghost use Rattle.jr_cnd.specs.Grammar.{read_child, constraints_at, constraints_first, default_type_at, defaults_at, item_name_at, kind_at, kind_first, kind_in, kind_inside, prop_at, read_types, types_inside};
ghost use Rattle.jr_cnd.specs.Reading.{Reads};

use crate::NoCnd;
use crate::cursor::Cursor;
use cnd_pieces::{Placed, Says, Sign, kind_named};
use jr_items::OwnName;
use jr_path::{List, Name, Text};
use jr_types::{ChildDef, PropDef};
use jr_value::{Kind, Value};
use std::alloc::{AllocError, Global};

// The kind that a token is.
fn kind_in(says: &Says) -> Option<Option<Kind>>
    ensures { result ≡ kind_in says.now }
{
    match says {
        Says::Name(word) => kind_named(word.as_str()),
        Says::Sign(Sign::Star) => Some(None),
        _ => None,
    }
}

fn kind_first(pieces: &[Placed]) -> Option<Option<Kind>>
    ensures { result ≡ kind_first pieces.now }
{
    match pieces {
        [piece, ..] => kind_in(&piece.says),
        [] => None,
    }
}

fn base_alone(alloc: Global) -> Result<List<Name>, AllocError>
    ensures { IfOk result (λ types. types ≡ base_type ∷ []) }
{
    let mut types = List::new(alloc);
    types.push(OwnName::BaseType.name(alloc)?)?;
    Ok(types)
}

impl<'a> Cursor<'a> {
    // name, or `*` for any other
    fn item_name(&mut self) -> Result<Option<Name>, NoCnd>
        ensures { Reads result self.new (item_name_at self.old) }
    {
        if self.is_sign(Sign::Star) {
            self.advance();
            return Ok(None);
        }
        let name = self.name()?;
        Ok(Some(name))
    }

    // kind ), behind `(`
    fn kind_inside(&mut self) -> Result<Option<Kind>, NoCnd>
        ensures { Reads result self.new (kind_inside self.old) }
    {
        match kind_first(self.pieces) {
            Some(kind) => {
                self.advance();
                self.sign(Sign::Close)?;
                Ok(kind)
            }
            None => Err(self.fault()),
        }
    }

    // [(kind)]
    fn kind(&mut self) -> Result<Option<Kind>, NoCnd>
        ensures { Reads result self.new (kind_at self.old) }
    {
        if self.is_sign(Sign::Open) {
            self.advance();
            return self.kind_inside();
        }
        Ok(Some(Kind::Str))
    }

    // [= text {, text}]
    fn defaults(&mut self) -> Result<List<Value>, NoCnd>
        ensures { Reads result self.new (defaults_at self.old) }
    {
        if self.is_sign(Sign::Equal) {
            self.advance();
            return self.values();
        }
        Ok(List::new(self.alloc))
    }

    fn begins_constraints(&self) -> bool
        ensures { result ≡ constraints_first self.now.pieces }
    {
        self.is_sign(Sign::Less) && !self.is_bare_behind()
    }

    // [< text {, text}]
    fn constraints(&mut self) -> Result<List<Text>, NoCnd>
        ensures { Reads result self.new (constraints_at self.old) }
    {
        if self.begins_constraints() {
            self.advance();
            return self.texts();
        }
        Ok(List::new(self.alloc))
    }

    // prop = - name [(kind)] [= text {, text}] {pattr} [< text {, text}], behind `-`
    pub(crate) fn prop(&mut self) -> Result<PropDef, NoCnd>
        ensures { Reads result self.new (prop_at self.old) }
    {
        let name = self.item_name()?;
        let kind = self.kind()?;
        let defaults = self.defaults()?;
        let attributes = self.item_attributes(true)?;
        let constraints = self.constraints()?;
        Ok(PropDef {
            name,
            kind,
            mandatory: attributes.mandatory,
            autocreated: attributes.autocreated,
            protected: attributes.protected,
            multiple: attributes.multiple,
            defaults,
            constraints,
            opv: attributes.opv(),
        })
    }

    // name {, name} ), behind `(`
    fn types_inside(&mut self) -> Result<List<Name>, NoCnd>
        ensures { Reads result self.new (types_inside self.old) }
    {
        let names = self.names()?;
        self.sign(Sign::Close)?;
        Ok(names)
    }

    // [(name {, name})]
    fn types(&mut self) -> Result<List<Name>, NoCnd>
        ensures { Reads result self.new (read_types self.old) }
    {
        if self.is_sign(Sign::Open) {
            self.advance();
            return self.types_inside();
        }
        let types = base_alone(self.alloc)?;
        Ok(types)
    }

    // [= name]
    fn default_type(&mut self) -> Result<Option<Name>, NoCnd>
        ensures { Reads result self.new (default_type_at self.old) }
    {
        if self.is_sign(Sign::Equal) {
            self.advance();
            let name = self.name()?;
            return Ok(Some(name));
        }
        Ok(None)
    }

    // child = + name [(name {, name})] [= name] {cattr}, behind `+`
    pub(crate) fn child(&mut self) -> Result<ChildDef, NoCnd>
        ensures { Reads result self.new (read_child self.old) }
    {
        let name = self.item_name()?;
        let types = self.types()?;
        let default_type = self.default_type()?;
        let attributes = self.item_attributes(false)?;
        Ok(ChildDef {
            name,
            types,
            default_type,
            mandatory: attributes.mandatory,
            autocreated: attributes.autocreated,
            protected: attributes.protected,
            opv: attributes.opv(),
        })
    }
}
