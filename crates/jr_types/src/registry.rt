// The registry of node types: look-ups by name, and what types inherit.
ghost use Rattle.std.specs.Prelude.{◌≡◌, ◌∷◌, ◌++◌, [], false, length, slice_get, IfOk, MatchOption, OnErr, OnOk};
ghost use Rattle.std.specs.BTreeMap.{insert_entry};
ghost use Rattle.std.specs.Option.{option_copied, option_map_or};
ghost use Rattle.std.specs.List.{list_any};
ghost use Rattle.jr_path.specs.Names.{name_cmp};
ghost use Rattle.jr_items.specs.Names.{mixin_types, primary_type};
ghost use Rattle.jr_items.specs.Items.{same_name};
ghost use Rattle.jr_types.specs.Types.{is_a, order_def, subtypes, type_named, lineage};
ghost use Rattle.std.specs.Prelude.{None};
ghost use Rattle.jr_types.specs.Rules.{is_mixin};
ghost use Rattle.jr_types.specs.Registered.{AreWithin, IsAlike, IsRegisteredUnder, types_at};

use crate::copies::both;
use crate::{OnParentVersion, PropDef, TypeDef};
use jr_items::OwnName;
use jr_path::{DeepCopy, Keyed, List, Name};
use jr_value::Kind;
use std::alloc::{AllocError, Global};
use std::marker::Model;

/// A registered type: its definition, and the places of itself and of all its supertypes among the
/// registered ones, each once.
pub struct Registered {
    pub(crate) definition: TypeDef,
    pub(crate) line: List<usize>,
}

// By hand, so that its parts are let go in one call.
impl Drop for Registered {
    fn drop(self) {
        let Registered { definition, line } = self;
        drop(definition);
        drop(line);
    }
}

/// The registered node types (JSR 283, 3.7.7 Node Type Registry), seen as the list of their
/// definitions in order.
pub struct Registry {
    pub(crate) alloc: Global,
    // In the order in which they were added, and the place of each by its name.
    pub(crate) types: List<Registered>,
    pub(crate) places: Keyed<Name, u64>,
    // The names and the definition that each check asks for, made once.
    pub(crate) primary_type: Name,
    pub(crate) mixin_types: Name,
    pub(crate) order: PropDef,
}

// By hand, so that its parts are let go in one call.
impl Drop for Registry {
    fn drop(self) {
        let Registry {
            alloc: _,
            types,
            places,
            primary_type,
            mixin_types,
            order,
        } = self;
        drop(types);
        drop(places);
        drop(primary_type);
        drop(mixin_types);
        drop(order);
    }
}

impl Model for Registry {
    ghost use Rattle.std.specs.Prelude.{List};
    ghost use Rattle.jr_types.specs.declared.TypeDef.{TypeDef};
    ghost use Rattle.jr_types.specs.Registered.{definitions};

    ghost Value = { List TypeDef };

    ghost view = { λ a. definitions a.types };

    ghost use Rattle.jr_types.specs.Registered.{IsRegistryKept};

    ghost invariant = { λ a. IsRegistryKept a.types a.places a.primary_type a.mixin_types a.order };
}

impl Registry {
    /// A registry without a type.
    pub fn new(alloc: Global) -> Result<Registry, AllocError>
        ensures { IfOk result (λ registry. registry ≡ []) }
    {
        let (primary_type, mixin_types, order) = asked(alloc)?;
        Ok(Registry {
            alloc,
            types: List::new(alloc),
            places: Keyed::new(alloc),
            primary_type,
            mixin_types,
            order,
        })
    }

    /// Where the registry takes memory from.
    pub fn alloc(&self) -> Global {
        self.alloc
    }

    /// The name `jcr:primaryType`.
    pub fn primary_type(&self) -> &Name
        ensures { result.now ≡ primary_type }
    {
        &self.primary_type
    }

    /// The name `jcr:mixinTypes`.
    pub fn mixin_types(&self) -> &Name
        ensures { result.now ≡ mixin_types }
    {
        &self.mixin_types
    }

    /// The definition of the type of that name.
    pub fn get(&self, name: &Name) -> Option<&TypeDef>
        ensures { option_copied result ≡ type_named self.now name.now }
    {
        match self.registered(name) {
            Some(found) => Some(&found.definition),
            None => None,
        }
    }

    // What is registered under that name.
    fn registered(&self, name: &Name) -> Option<&Registered>
        ensures { MatchOption (option_copied result) (type_named self.now name.now ≡ None)
            (IsRegisteredUnder self.now name.now) }
    {
        match self.places.get(name) {
            Some(place) => self.types.as_slice().get(*place as usize),
            None => None,
        }
    }

    /// Whether the type is a registered mixin.
    pub fn is_mixin(&self, name: &Name) -> bool
        ensures { result ≡ is_mixin self.now name.now }
    {
        match self.get(name) {
            Some(definition) => definition.mixin,
            None => false,
        }
    }

    /// Whether the first type is the second or below it; an unregistered one is below none, not
    /// even itself.
    pub fn is_a(&self, name: &Name, of: &Name) -> bool
        ensures { result ≡ is_a self.now name.now of.now }
    {
        self.has_named(self.line(name), of)
    }

    // Whether a type at one of the places has the name.
    fn has_named(&self, places: &[usize], name: &Name) -> bool
        ensures { result ≡ list_any (λ k.
            option_map_or (λ d. same_name d.name name.now) (slice_get self.now k) false)
            places.now }
    {
        places.iter().any(|place| self.is_named(*place, name))
    }

    /// The type itself and those below it, in order of definition.
    pub fn subtypes(&self, name: &Name) -> Result<Vec<Name>, AllocError>
        ensures { IfOk result (λ names. names.items ≡ subtypes self.now name.now) }
    {
        let mut names = Vec::new(self.alloc);
        for registered in self.types.as_slice() {
            if self.is_a(&registered.definition.name, name) {
                names.push(registered.definition.name.copy()?)?;
            }
        }
        Ok(names)
    }

    /// A registry of the same types that shares nothing with this one.
    pub fn copy(&self) -> Result<Registry, AllocError>
        ensures { IfOk result (λ copy. copy ≡ self.now) }
    {
        let (types, places) = both(&self.types, &self.places)?;
        let (primary_type, mixin_types, order) = asked(self.alloc)?;
        Ok(Registry {
            alloc: self.alloc,
            types,
            places,
            primary_type,
            mixin_types,
            order,
        })
    }

    // The type at a place.
    pub(crate) fn at(&self, place: usize) -> Option<&TypeDef>
        ensures { option_copied result ≡ slice_get self.now place }
    {
        match self.types.as_slice().get(place) {
            Some(registered) => Some(&registered.definition),
            None => None,
        }
    }

    // Whether the type at a place has the name.
    fn is_named(&self, place: usize, name: &Name) -> bool
        ensures { result ≡ option_map_or (λ d. same_name d.name name.now)
            (slice_get self.now place) false }
    {
        match self.at(place) {
            Some(definition) => definition.name == *name,
            None => false,
        }
    }

    // The places of the type of that name and of all its supertypes; of an unregistered name none.
    pub(crate) fn line(&self, name: &Name) -> &[usize]
        ensures within { AreWithin self.now result.now }
        ensures line { IsAlike (types_at self.now result.now) (lineage self.now name.now) }
    {
        match self.registered(name) {
            Some(found) => found.line.as_slice(),
            None => &[],
        }
    }
}

// Puts a type behind the others, and its place under its name.
pub(crate) fn put(
    types: &mut List<Registered>,
    places: &mut Keyed<Name, u64>,
    name: Name,
    registered: Registered,
) -> Result<(), AllocError>
    ensures types { OnOk result (types.new ≡ types.old ++ registered ∷ []) }
    ensures places { OnOk result
        (places.new ≡ insert_entry name_cmp places.old name (length types.old)) }
    ensures err { OnErr result ((types.new ≡ types.old) × (places.new ≡ places.old)) }
{
    let place = types.len() as u64;
    types.push(registered)?;
    match places.put(name, place) {
        Ok(()) => Ok(()),
        Err(AllocError) => {
            types.inner_mut().pop();
            Err(AllocError)
        }
    }
}

// What each check asks for: the names of the two properties that tell types, and the order of
// children.
fn asked(alloc: Global) -> Result<(Name, Name, PropDef), AllocError>
    ensures { IfOk result (λ all. all ≡ (primary_type, mixin_types, order_def)) }
{
    let primary_type = OwnName::PrimaryType.name(alloc)?;
    let mixin_types = OwnName::MixinTypes.name(alloc)?;
    let order = order_def(alloc)?;
    Ok((primary_type, mixin_types, order))
}

// The order of children, as each orderable type tells it.
fn order_def(alloc: Global) -> Result<PropDef, AllocError>
    ensures { IfOk result (λ def. def ≡ order_def) }
{
    Ok(PropDef {
        name: Some(OwnName::ChildOrder.name(alloc)?),
        kind: Some(Kind::Name),
        mandatory: false,
        autocreated: false,
        protected: true,
        multiple: true,
        defaults: List::new(alloc),
        constraints: List::new(alloc),
        opv: OnParentVersion::Copy,
    })
}

impl DeepCopy for Registered {
    fn copy(&self) -> Result<Registered, AllocError> {
        let line = List::of(self.line.inner().clone()?);
        Ok(Registered {
            definition: self.definition.copy()?,
            line,
        })
    }
}
