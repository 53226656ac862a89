// A new type comes into the registry.
ghost use Rattle.std.specs.Prelude.{◌≡◌, ◌==◌, ◌&&◌, ◌∷◌, ◌++◌, [], IfErr, IfOk, OnErr, OnOk, None, false, fold, is_none, length, not};
ghost use Rattle.std.specs.List.{list_any};
ghost use Rattle.std.specs.Option.{option_map_or};
ghost use Rattle.jr_constraint.specs.Constraints.{is_constraint};
ghost use Rattle.jr_items.specs.Names.{child_order};
ghost use Rattle.jr_items.specs.Items.{same_name};
ghost use Rattle.jr_types.specs.Registered.{AreAbove, IsTypeFault, with_place};
ghost use Rattle.jr_types.specs.Rules.{defines_order, is_mixin, type_fault};
ghost use Rattle.jr_types.specs.Types.{supertypes_of, type_named};
ghost use Rattle.jr_types.specs.declared.adding.TypeFault.TheVariants.{Memory};

use crate::registry::{Registered, put};
use crate::{ChildDef, PropDef, Registry, TypeDef};
use jr_constraint::is_constraint;
use jr_items::OwnName;
use jr_path::{DeepCopy, List, Name, Text};
use jr_value::Kind;
use std::alloc::{AllocError, AllocFailed};
use thiserror::Error;

/// Why a type isn't registered.
#[derive(Clone, Copy, Debug, PartialEq, Eq, Drop, Error)]
pub enum TypeFault {
    /// The first of these rules that its definition breaks: 1 the name isn't registered, 2 each
    /// supertype is, 3 those of a mixin are mixins, 4 its properties may have their constraints, 5
    /// it doesn't define the order of children.
    #[error("the definition breaks rule {0}")]
    BadType(u8),
    /// Memory was refused.
    #[error("memory was refused")]
    Memory,
}

impl From<AllocError> for TypeFault {
    ghost from_gives = { λ _ e. e ≡ Memory };

    fn from(_: AllocError) -> TypeFault {
        TypeFault::Memory
    }
}

impl<T: Drop> From<AllocFailed<T>> for TypeFault {
    ghost from_gives = { λ _ e. e ≡ Memory };

    fn from(_: AllocFailed<T>) -> TypeFault {
        TypeFault::Memory
    }
}

impl Registry {
    /// Registers a type behind the others (JSR 283, 19 Node Type Management). After a refusal the
    /// registry is as it was.
    pub fn add(&mut self, definition: TypeDef) -> Result<(), TypeFault>
        ensures ok { OnOk result (self.new ≡ self.old ++ definition ∷ []) }
        ensures lawful { OnOk result (type_fault self.old definition ≡ None) }
        ensures err { OnErr result (self.new ≡ self.old) }
        ensures fault { IfErr result (IsTypeFault (type_fault self.old definition)) }
    {
        match self.key_of(&definition) {
            Ok((name, line)) => {
                let registered = Registered { definition, line };
                put(&mut self.types, &mut self.places, name, registered)?;
                Ok(())
            }
            Err(fault) => {
                drop(definition);
                Err(fault)
            }
        }
    }

    // The name under which a new type is registered, and its line, where it breaks no rule.
    fn key_of(&self, definition: &TypeDef) -> Result<(Name, List<usize>), TypeFault>
        ensures named { IfOk result (λ key. key.0 ≡ definition.now.name) }
        ensures line { IfOk result (λ key. (above : _) × (key.1 ≡ length self.now ∷ above)
            × AreAbove self.now (supertypes_of definition.now) above) }
        ensures lawful { OnOk result (type_fault self.now definition.now ≡ None) }
        ensures fault { IfErr result (IsTypeFault (type_fault self.now definition.now)) }
    {
        if let Some(rule) = self.type_fault(definition) {
            return Err(TypeFault::BadType(rule));
        }
        let line = self.line_of(definition)?;
        let name = definition.name.copy()?;
        Ok((name, line))
    }

    // The first rule that a new definition breaks.
    fn type_fault(&self, definition: &TypeDef) -> Option<u8>
        ensures { result ≡ type_fault self.now definition.now }
    {
        if self.get(&definition.name).is_some() {
            return Some(1);
        }
        if self.lacks(definition.supertypes.as_slice()) {
            return Some(2);
        }
        if self.is_misplaced(definition) {
            return Some(3);
        }
        if has_bad_constraint(definition.props.as_slice()) {
            return Some(4);
        }
        if defines_order(definition) {
            return Some(5);
        }
        None
    }

    // Whether one of the names is not registered.
    fn lacks(&self, names: &[Name]) -> bool
        ensures { result ≡ list_any (λ n. is_none (type_named self.now n)) names.now }
    {
        names.iter().any(|name| self.get(name).is_none())
    }

    // Whether a mixin has a supertype that is none.
    fn is_misplaced(&self, definition: &TypeDef) -> bool
        ensures { result ≡ (definition.now.mixin
            && list_any (λ n. not (is_mixin self.now n)) definition.now.supertypes) }
    {
        if !definition.mixin {
            return false;
        }
        self.has_primary(definition.supertypes.as_slice())
    }

    // Whether one of the names is of no mixin.
    fn has_primary(&self, names: &[Name]) -> bool
        ensures { result ≡ list_any (λ n. not (is_mixin self.now n)) names.now }
    {
        names.iter().any(|name| !self.is_mixin(name))
    }

    // The places of a new type and of all its supertypes, each once.
    fn line_of(&self, definition: &TypeDef) -> Result<List<usize>, AllocError>
        ensures { IfOk result (λ line. (above : _) × (line ≡ length self.now ∷ above)
            × AreAbove self.now (supertypes_of definition.now) above) }
    {
        let above = self.above(definition)?;
        let mut line = List::new(self.alloc);
        line.push(self.types.len())?;
        for place in above.as_slice() {
            line.push(*place)?;
        }
        Ok(line)
    }

    // The places of all supertypes of a new type, each once.
    fn above(&self, definition: &TypeDef) -> Result<List<usize>, AllocError>
        ensures { IfOk result (AreAbove self.now (supertypes_of definition.now)) }
    {
        let mut above = List::new(self.alloc);
        for name in definition.supertypes.as_slice() {
            self.add_places_of(&mut above, name)?;
        }
        if definition.mixin {
            return Ok(above);
        }
        let base = OwnName::BaseType.name(self.alloc)?;
        self.add_places_of(&mut above, &base)?;
        Ok(above)
    }

    // Puts the places of a type and its supertypes behind those that are there.
    fn add_places_of(&self, above: &mut List<usize>, name: &Name) -> Result<(), AllocError>
        ensures { OnOk result ((names : _) → AreAbove self.now names above.old
            → AreAbove self.now (names ++ name.now ∷ []) above.new) }
    {
        add_places(above, self.line(name))
    }
}

// Puts those places behind a line that it hasn't yet.
fn add_places(line: &mut List<usize>, places: &[usize]) -> Result<(), AllocError>
    ensures { OnOk result (line.new ≡ fold with_place line.old places.now) }
{
    for place in places {
        add_place(line, *place)?;
    }
    Ok(())
}

fn add_place(line: &mut List<usize>, place: usize) -> Result<(), AllocError>
    ensures { OnOk result (line.new ≡ with_place line.old place) }
{
    if has_place(line.as_slice(), place) {
        return Ok(());
    }
    line.push(place)
}

fn has_place(line: &[usize], place: usize) -> bool
    ensures { result ≡ list_any (λ k. k == place) line.now }
{
    line.iter().any(|other| *other == place)
}

// Whether a property may not have one of its constraints.
fn has_bad_constraint(props: &[PropDef]) -> bool
    ensures { result ≡ list_any (λ p.
        list_any (λ c. not (is_constraint p.kind c)) p.constraints) props.now }
{
    props.iter().any(|prop| is_badly_constrained(prop))
}

fn is_badly_constrained(prop: &PropDef) -> bool
    ensures { result ≡ list_any (λ c. not (is_constraint prop.now.kind c)) prop.now.constraints }
{
    has_none_of(prop.kind, prop.constraints.as_slice())
}

// Whether a definition of that kind may not have one of the constraints.
fn has_none_of(kind: Option<Kind>, constraints: &[Text]) -> bool
    ensures { result ≡ list_any (λ c. not (is_constraint kind c)) constraints.now }
{
    constraints
        .iter()
        .any(|constraint| !is_constraint(kind, constraint.as_str()))
}

// Whether the type defines a property or a child named as the order of children.
fn defines_order(definition: &TypeDef) -> bool
    ensures { result ≡ defines_order definition.now }
{
    if is_order_among(definition.props.as_slice()) {
        return true;
    }
    is_order_below(definition.children.as_slice())
}

fn is_order_among(props: &[PropDef]) -> bool
    ensures { result ≡ list_any (λ p.
        option_map_or (same_name child_order) p.name false) props.now }
{
    props.iter().any(|prop| is_order(&prop.name))
}

fn is_order_below(children: &[ChildDef]) -> bool
    ensures { result ≡ list_any (λ c. option_map_or (same_name child_order) c.name false)
        children.now }
{
    children.iter().any(|child| is_order(&child.name))
}

fn is_order(name: &Option<Name>) -> bool
    ensures { result ≡ option_map_or (same_name child_order) name.now false }
{
    match name {
        Some(name) => OwnName::ChildOrder.is(name),
        None => false,
    }
}
