// The words in which the built-in types are written.
ghost use Rattle.std.specs.Prelude.{◌≡◌, ◌++◌, ◌∷◌, [], IfOk, IfSome, None, OnOk, Some, option_to_list, true};
ghost use Rattle.std.specs.Option.{option_copied, option_map};
ghost use Rattle.jr_path.specs.Grammar.{IsName};
ghost use Rattle.jr_value.specs.declared.value.Kind.TheVariants as kind;
ghost use Rattle.jr_value.specs.declared.value.Value.TheVariants.{Boolean};
ghost use Rattle.jr_builtin.specs.Builtin as table;
ghost use Rattle.jr_builtin.specs.Tables.{builtin_child, prop_of};

use jr_path::{List, Name};
use jr_types::{ChildDef, OnParentVersion, PropDef, TypeDef};
use jr_value::{Kind, Value};
use std::alloc::{AllocError, Global};

pub type Made = Result<Sketch, AllocError>;

/// A type's definition, as far as it is written.
#[derive(Drop)]
pub struct Sketch {
    pub(crate) definition: TypeDef,
}

/// What a definition asks of an item.
#[derive(Clone, Copy)]
pub struct Flags {
    pub(crate) mandatory: bool,
    pub(crate) autocreated: bool,
    pub(crate) protected: bool,
    pub(crate) multiple: bool,
    pub(crate) opv: OnParentVersion,
}

// A type that nodes may have as primary type, with nothing in it yet.
pub(crate) fn primary(alloc: Global, name: &str) -> Made
    requires { IsName name.now }
    ensures { IfOk result (λ d. d.definition ≡ table.primary name.now [] [] []) }
{
    let definition = TypeDef {
        name: Name::of(alloc, name)?,
        supertypes: List::new(alloc),
        is_abstract: false,
        mixin: false,
        orderable: false,
        primary_item: None,
        props: List::new(alloc),
        children: List::new(alloc),
    };
    Ok(Sketch { definition })
}

// A type that nodes may have beside it, with nothing in it yet.
pub(crate) fn mixin(alloc: Global, name: &str) -> Made
    requires { IsName name.now }
    ensures { IfOk result (λ d. d.definition ≡ table.mixin name.now [] []) }
{
    let mut sketch = primary(alloc, name)?;
    sketch.definition.mixin = true;
    Ok(sketch)
}

impl Sketch {
    pub(crate) fn as_abstract(mut self) -> Sketch
        ensures { result.definition ≡ record self.definition { is_abstract = true } }
    {
        self.definition.is_abstract = true;
        self
    }

    pub(crate) fn ordered(mut self) -> Sketch
        ensures { result.definition ≡ record self.definition { orderable = true } }
    {
        self.definition.orderable = true;
        self
    }

    pub(crate) fn main_item(mut self, alloc: Global, item: &str) -> Made
        requires { IsName item.now }
        ensures { IfOk result (λ d. d.definition ≡ record self.definition { primary_item = Some item.now }) }
    {
        match Name::of(alloc, item) {
            Ok(item) => {
                self.definition.primary_item = Some(item);
                Ok(self)
            }
            Err(fault) => {
                drop(self);
                Err(fault)
            }
        }
    }

    pub(crate) fn above(mut self, alloc: Global, name: &str) -> Made
        requires { IsName name.now }
        ensures { IfOk result (λ d. d.definition
            ≡ record self.definition { supertypes = self.definition.supertypes ++ name.now ∷ [] }) }
    {
        match add_name(alloc, &mut self.definition.supertypes, name) {
            Ok(()) => Ok(self),
            Err(fault) => {
                drop(self);
                Err(fault)
            }
        }
    }

    pub(crate) fn prop(mut self, alloc: Global, name: &str, kind: Kind, flags: Flags) -> Made
        requires { IsName name.now }
        ensures { IfOk result (λ d. d.definition ≡ record self.definition {
          props = self.definition.props ++ prop_of (Some name.now) (Some kind) None flags ∷ [];
        }) }
    {
        match add_prop(
            alloc,
            &mut self.definition.props,
            Some(name),
            Some(kind),
            None,
            flags,
        ) {
            Ok(()) => Ok(self),
            Err(fault) => {
                drop(self);
                Err(fault)
            }
        }
    }

    // A truth value, true by default.
    pub(crate) fn switch(mut self, alloc: Global, name: &str, flags: Flags) -> Made
        requires { IsName name.now }
        ensures { IfOk result (λ d. d.definition ≡ record self.definition {
          props = self.definition.props
              ++ prop_of (Some name.now) (Some kind.Boolean) (Some true) flags ∷ [];
        }) }
    {
        let kind = Some(Kind::Boolean);
        match add_prop(
            alloc,
            &mut self.definition.props,
            Some(name),
            kind,
            Some(true),
            flags,
        ) {
            Ok(()) => Ok(self),
            Err(fault) => {
                drop(self);
                Err(fault)
            }
        }
    }

    pub(crate) fn any_prop(mut self, alloc: Global, kind: Option<Kind>, flags: Flags) -> Made
        ensures { IfOk result (λ d. d.definition ≡ record self.definition {
          props = self.definition.props ++ prop_of None kind None flags ∷ [];
        }) }
    {
        match add_prop(alloc, &mut self.definition.props, None, kind, None, flags) {
            Ok(()) => Ok(self),
            Err(fault) => {
                drop(self);
                Err(fault)
            }
        }
    }

    pub(crate) fn child(mut self, alloc: Global, name: &str, required: &str, flags: Flags) -> Made
        requires name { IsName name.now }
        requires required { IsName required.now }
        ensures { IfOk result (λ d. d.definition ≡ record self.definition {
          children = self.definition.children ++ builtin_child (Some name.now) required.now None flags ∷ [];
        }) }
    {
        match add_child(
            alloc,
            &mut self.definition.children,
            Some(name),
            required,
            None,
            flags,
        ) {
            Ok(()) => Ok(self),
            Err(fault) => {
                drop(self);
                Err(fault)
            }
        }
    }

    pub(crate) fn any_child(
        mut self,
        alloc: Global,
        of: &str,
        default: Option<&str>,
        flags: Flags,
    ) -> Made
        requires required { IsName of.now }
        requires default { IfSome (option_copied default) IsName }
        ensures { IfOk result (λ d. d.definition ≡ record self.definition {
          children = self.definition.children
              ++ builtin_child None of.now (option_copied default.entry) flags ∷ [];
        }) }
    {
        match add_child(
            alloc,
            &mut self.definition.children,
            None,
            of,
            default,
            flags,
        ) {
            Ok(()) => Ok(self),
            Err(fault) => {
                drop(self);
                Err(fault)
            }
        }
    }
}

// Puts a name behind others.
fn add_name(alloc: Global, names: &mut List<Name>, name: &str) -> Result<(), AllocError>
    requires { IsName name.now }
    ensures { OnOk result (names.new ≡ names.old ++ name.now ∷ []) }
{
    names.push(Name::of(alloc, name)?)
}

// Puts the definition of a property behind others; with no name it is of any other, with no kind of
// any kind.
fn add_prop(
    alloc: Global,
    props: &mut List<PropDef>,
    name: Option<&str>,
    kind: Option<Kind>,
    default: Option<bool>,
    flags: Flags,
) -> Result<(), AllocError>
    requires { IfSome (option_copied name) IsName }
    ensures { OnOk result (props.new
        ≡ props.old ++ prop_of (option_copied name.entry) kind default flags ∷ []) }
{
    let name = optional_name(alloc, name)?;
    let defaults = defaults_of(alloc, default)?;
    props.push(PropDef {
        name,
        kind,
        mandatory: flags.mandatory,
        autocreated: flags.autocreated,
        protected: flags.protected,
        multiple: flags.multiple,
        defaults,
        constraints: List::new(alloc),
        opv: flags.opv,
    })
}

fn defaults_of(alloc: Global, truth: Option<bool>) -> Result<List<Value>, AllocError>
    ensures { IfOk result (λ defaults. defaults ≡ option_to_list (option_map Boolean truth)) }
{
    let mut defaults = List::new(alloc);
    if let Some(truth) = truth {
        defaults.push(Value::Boolean(truth))?;
    }
    Ok(defaults)
}

// Puts the definition of a child behind others; with no name it is of any other.
fn add_child(
    alloc: Global,
    children: &mut List<ChildDef>,
    name: Option<&str>,
    required: &str,
    default_type: Option<&str>,
    flags: Flags,
) -> Result<(), AllocError>
    requires name { IfSome (option_copied name) IsName }
    requires required { IsName required.now }
    requires default { IfSome (option_copied default_type) IsName }
    ensures { OnOk result (children.new ≡ children.old
        ++ builtin_child (option_copied name.entry) required.now (option_copied default_type.entry) flags
        ∷ []) }
{
    let mut types = List::new(alloc);
    add_name(alloc, &mut types, required)?;
    let default_type = optional_name(alloc, default_type)?;
    let name = optional_name(alloc, name)?;
    children.push(ChildDef {
        name,
        types,
        default_type,
        mandatory: flags.mandatory,
        autocreated: flags.autocreated,
        protected: flags.protected,
        opv: flags.opv,
    })
}

fn optional_name(alloc: Global, text: Option<&str>) -> Result<Option<Name>, AllocError>
    requires { IfSome (option_copied text) IsName }
    ensures { IfOk result (λ name. name ≡ option_copied text.entry) }
{
    match text {
        Some(text) => Ok(Some(Name::of(alloc, text)?)),
        None => Ok(None),
    }
}
