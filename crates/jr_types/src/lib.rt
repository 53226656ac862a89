//! Node types: what the properties and children of a node may be (JSR 283, 3.7 Node Types).
#![tactic(auto)]

ghost use Rattle.std.specs.Prelude.{◌≡◌};
ghost use Rattle.jr_types.specs.Attributes.{opv_text};

mod adding;
mod copies;
mod counting;
mod items;
mod laws;
mod registry;
mod said;

pub use adding::TypeFault;
pub use counting::{children_of, counting_children, counting_props, fitting_props, is_of};
use jr_path::{List, Name, Text};
use jr_value::{Kind, Value};
pub use laws::added_types_keep_the_rules;
pub use registry::{Registered, Registry};
pub use said::{name_in, one_name};

/// What a check-in of the parent does with an item.
#[derive(Clone, Copy, PartialEq, Eq, PartialOrd, Ord)]
pub enum OnParentVersion {
    Copy,
    Version,
    Initialize,
    Compute,
    Ignore,
    Abort,
}

impl OnParentVersion {
    /// The attribute's word, in capitals.
    pub fn as_str(self) -> &'static str
        ensures { result.now ≡ opv_text self }
    {
        match self {
            OnParentVersion::Copy => "COPY",
            OnParentVersion::Version => "VERSION",
            OnParentVersion::Initialize => "INITIALIZE",
            OnParentVersion::Compute => "COMPUTE",
            OnParentVersion::Ignore => "IGNORE",
            OnParentVersion::Abort => "ABORT",
        }
    }
}

/// What a property of this name may be; with no name, a property of any other name.
pub struct PropDef {
    pub name: Option<Name>,
    pub kind: Option<Kind>,
    pub mandatory: bool,
    pub autocreated: bool,
    pub protected: bool,
    pub multiple: bool,
    pub defaults: List<Value>,
    pub constraints: List<Text>,
    pub opv: OnParentVersion,
}

// By hand, so that its parts are let go in one call.
impl Drop for PropDef {
    fn drop(self) {
        let PropDef {
            name,
            kind: _,
            mandatory: _,
            autocreated: _,
            protected: _,
            multiple: _,
            defaults,
            constraints,
            opv: _,
        } = self;
        drop(name);
        drop(defaults);
        drop(constraints);
    }
}

/// What a child of this name may be; with no name, a child of any other name.
pub struct ChildDef {
    pub name: Option<Name>,
    pub types: List<Name>,
    pub default_type: Option<Name>,
    pub mandatory: bool,
    pub autocreated: bool,
    pub protected: bool,
    pub opv: OnParentVersion,
}

// By hand, so that its parts are let go in one call.
impl Drop for ChildDef {
    fn drop(self) {
        let ChildDef {
            name,
            types,
            default_type,
            mandatory: _,
            autocreated: _,
            protected: _,
            opv: _,
        } = self;
        drop(name);
        drop(types);
        drop(default_type);
    }
}

/// A node type. One that is no mixin has `nt:base` as supertype besides those that it names, and an
/// orderable one keeps the order of its children in the property `rep:childOrder`.
pub struct TypeDef {
    pub name: Name,
    pub supertypes: List<Name>,
    pub is_abstract: bool,
    pub mixin: bool,
    pub orderable: bool,
    pub primary_item: Option<Name>,
    pub props: List<PropDef>,
    pub children: List<ChildDef>,
}

// By hand, so that its parts are let go in one call.
impl Drop for TypeDef {
    fn drop(self) {
        let TypeDef {
            name,
            supertypes,
            is_abstract: _,
            mixin: _,
            orderable: _,
            primary_item,
            props,
            children,
        } = self;
        drop(name);
        drop(supertypes);
        drop(primary_item);
        drop(props);
        drop(children);
    }
}
