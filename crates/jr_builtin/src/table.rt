// The built-in node types (JSR 283, 3.7.11 Standard Application Node Types), in their order.
ghost use Rattle.std.specs.Prelude.{◌≡◌, ◌++◌, ◌∷◌, ◌≤◌, ◌<◌, [], IfOk, None, OnOk, Some, slice_get};
ghost use Rattle.jr_types.specs.Rules.{type_fault};
ghost use Rattle.jr_builtin.specs.Builtin.{builtin};

use crate::sketch::{Flags, Made, Sketch, mixin, primary};
use jr_types::{OnParentVersion, Registry, TypeFault};
use jr_value::Kind;
use std::alloc::{AllocError, Global};

// Nothing is asked.
const PLAIN: Flags = Flags {
    mandatory: false,
    autocreated: false,
    protected: false,
    multiple: false,
    opv: OnParentVersion::Copy,
};

const LIST: Flags = Flags {
    multiple: true,
    ..PLAIN
};

const VERSIONED: Flags = Flags {
    opv: OnParentVersion::Version,
    ..PLAIN
};

const MANDATORY: Flags = Flags {
    mandatory: true,
    ..PLAIN
};

const AUTOCREATED: Flags = Flags {
    autocreated: true,
    ..PLAIN
};

const PROTECTED: Flags = Flags {
    protected: true,
    ..PLAIN
};

const PROTECTED_LIST: Flags = Flags {
    multiple: true,
    ..PROTECTED
};

const RECORDED: Flags = Flags {
    autocreated: true,
    ..PROTECTED
};

const FIXED: Flags = Flags {
    mandatory: true,
    ..PROTECTED
};

const IDENTIFIER: Flags = Flags {
    autocreated: true,
    opv: OnParentVersion::Initialize,
    ..FIXED
};

const COMPUTED: Flags = Flags {
    autocreated: true,
    opv: OnParentVersion::Compute,
    ..FIXED
};

const COMPUTED_LIST: Flags = Flags {
    opv: OnParentVersion::Compute,
    ..PROTECTED_LIST
};

// Of the lock or the state of a node, which a version leaves out.
const STATE: Flags = Flags {
    opv: OnParentVersion::Ignore,
    ..PROTECTED
};

const FIXED_STATE: Flags = Flags {
    mandatory: true,
    ..STATE
};

const FIRST_STATE: Flags = Flags {
    autocreated: true,
    ..FIXED_STATE
};

const FIXED_STATE_LIST: Flags = Flags {
    multiple: true,
    ..FIXED_STATE
};

/// The registry of the built-in types.
pub fn builtin(alloc: Global) -> Result<Registry, AllocError>
    ensures { IfOk result (λ registry. registry ≡ builtin) }
{
    let mut registry = Registry::new(alloc)?;
    match add_all(alloc, &mut registry) {
        Ok(()) => Ok(registry),
        Err(fault) => {
            drop(registry);
            Err(fault)
        }
    }
}

// Registers the built-in types in a registry without a type.
fn add_all(alloc: Global, registry: &mut Registry) -> Result<(), AllocError>
    requires { registry.old ≡ [] }
    ensures { OnOk result (registry.new ≡ builtin) }
{
    for place in 0..20 {
        add_next(registry, at(alloc, place)?)?;
    }
    Ok(())
}

// Registers a type that may be added.
fn add_next(registry: &mut Registry, sketch: Sketch) -> Result<(), AllocError>
    requires { type_fault registry.old sketch.definition ≡ None }
    ensures { OnOk result (registry.new ≡ registry.old ++ sketch.definition ∷ []) }
{
    match registry.add(sketch.definition) {
        Ok(()) => Ok(()),
        Err(TypeFault::Memory) => Err(AllocError),
        Err(TypeFault::BadType(_)) => unreachable!(),
    }
}

// A built-in type, by its place in their order.
fn at(alloc: Global, place: usize) -> Made
    requires { place < 20 }
    ensures { IfOk result (λ d. Some d.definition ≡ slice_get builtin place) }
{
    match place {
        0..=1 => of_nodes(alloc, place),
        2..=5 => of_contents(alloc, place),
        6..=9 => of_states(alloc, place),
        10..=13 => of_files(alloc, place),
        14..=16 => of_versions(alloc, place),
        _ => of_histories(alloc, place),
    }
}

fn of_nodes(alloc: Global, place: usize) -> Made
    requires before { place < 2 }
    ensures { IfOk result (λ d. Some d.definition ≡ slice_get builtin place) }
{
    match place {
        0 => base(alloc),
        1 => unstructured(alloc),
        _ => unreachable!(),
    }
}

fn of_contents(alloc: Global, place: usize) -> Made
    requires from { 2 ≤ place }
    requires before { place < 6 }
    ensures { IfOk result (λ d. Some d.definition ≡ slice_get builtin place) }
{
    match place {
        2 => created(alloc),
        3 => last_modified(alloc),
        4 => mime_type(alloc),
        5 => title(alloc),
        _ => unreachable!(),
    }
}

fn of_states(alloc: Global, place: usize) -> Made
    requires from { 6 ≤ place }
    requires before { place < 10 }
    ensures { IfOk result (λ d. Some d.definition ≡ slice_get builtin place) }
{
    match place {
        6 => referenceable(alloc),
        7 => lockable(alloc),
        8 => simple_versionable(alloc),
        9 => versionable(alloc),
        _ => unreachable!(),
    }
}

fn of_files(alloc: Global, place: usize) -> Made
    requires from { 10 ≤ place }
    requires before { place < 14 }
    ensures { IfOk result (λ d. Some d.definition ≡ slice_get builtin place) }
{
    match place {
        10 => hierarchy_node(alloc),
        11 => folder(alloc),
        12 => file(alloc),
        13 => resource(alloc),
        _ => unreachable!(),
    }
}

fn of_versions(alloc: Global, place: usize) -> Made
    requires from { 14 ≤ place }
    requires before { place < 17 }
    ensures { IfOk result (λ d. Some d.definition ≡ slice_get builtin place) }
{
    match place {
        14 => frozen_node(alloc),
        15 => version(alloc),
        16 => version_labels(alloc),
        _ => unreachable!(),
    }
}

fn of_histories(alloc: Global, place: usize) -> Made
    requires from { 17 ≤ place }
    requires before { place < 20 }
    ensures { IfOk result (λ d. Some d.definition ≡ slice_get builtin place) }
{
    match place {
        17 => version_history(alloc),
        18 => version_storage(alloc),
        19 => system(alloc),
        _ => unreachable!(),
    }
}

// `nt:base`.
fn base(alloc: Global) -> Made
    ensures { IfOk result (λ d. Some d.definition ≡ slice_get builtin 0) }
{
    primary(alloc, "nt:base")?
        .as_abstract()
        .prop(alloc, "jcr:primaryType", Kind::Name, COMPUTED)?
        .prop(alloc, "jcr:mixinTypes", Kind::Name, COMPUTED_LIST)
}

// `nt:unstructured`.
fn unstructured(alloc: Global) -> Made
    ensures { IfOk result (λ d. Some d.definition ≡ slice_get builtin 1) }
{
    primary(alloc, "nt:unstructured")?
        .ordered()
        .any_prop(alloc, None, LIST)?
        .any_prop(alloc, None, PLAIN)?
        .any_child(alloc, "nt:base", Some("nt:unstructured"), VERSIONED)
}

// `mix:created`.
fn created(alloc: Global) -> Made
    ensures { IfOk result (λ d. Some d.definition ≡ slice_get builtin 2) }
{
    mixin(alloc, "mix:created")?
        .prop(alloc, "jcr:created", Kind::Date, RECORDED)?
        .prop(alloc, "jcr:createdBy", Kind::Str, RECORDED)
}

// `mix:lastModified`.
fn last_modified(alloc: Global) -> Made
    ensures { IfOk result (λ d. Some d.definition ≡ slice_get builtin 3) }
{
    mixin(alloc, "mix:lastModified")?
        .prop(alloc, "jcr:lastModified", Kind::Date, AUTOCREATED)?
        .prop(alloc, "jcr:lastModifiedBy", Kind::Str, AUTOCREATED)
}

// `mix:mimeType`.
fn mime_type(alloc: Global) -> Made
    ensures { IfOk result (λ d. Some d.definition ≡ slice_get builtin 4) }
{
    mixin(alloc, "mix:mimeType")?
        .prop(alloc, "jcr:mimeType", Kind::Str, PLAIN)?
        .prop(alloc, "jcr:encoding", Kind::Str, PLAIN)
}

// `mix:title`.
fn title(alloc: Global) -> Made
    ensures { IfOk result (λ d. Some d.definition ≡ slice_get builtin 5) }
{
    mixin(alloc, "mix:title")?
        .prop(alloc, "jcr:title", Kind::Str, PLAIN)?
        .prop(alloc, "jcr:description", Kind::Str, PLAIN)
}

// `mix:referenceable`.
fn referenceable(alloc: Global) -> Made
    ensures { IfOk result (λ d. Some d.definition ≡ slice_get builtin 6) }
{
    mixin(alloc, "mix:referenceable")?.prop(alloc, "jcr:uuid", Kind::Str, IDENTIFIER)
}

// `mix:lockable`.
fn lockable(alloc: Global) -> Made
    ensures { IfOk result (λ d. Some d.definition ≡ slice_get builtin 7) }
{
    mixin(alloc, "mix:lockable")?
        .prop(alloc, "jcr:lockOwner", Kind::Str, STATE)?
        .prop(alloc, "jcr:lockIsDeep", Kind::Boolean, STATE)
}

// `mix:simpleVersionable`.
fn simple_versionable(alloc: Global) -> Made
    ensures { IfOk result (λ d. Some d.definition ≡ slice_get builtin 8) }
{
    mixin(alloc, "mix:simpleVersionable")?.switch(alloc, "jcr:isCheckedOut", FIRST_STATE)
}

// `mix:versionable`.
fn versionable(alloc: Global) -> Made
    ensures { IfOk result (λ d. Some d.definition ≡ slice_get builtin 9) }
{
    mixin(alloc, "mix:versionable")?
        .above(alloc, "mix:simpleVersionable")?
        .above(alloc, "mix:referenceable")?
        .prop(alloc, "jcr:versionHistory", Kind::Reference, FIXED_STATE)?
        .prop(alloc, "jcr:baseVersion", Kind::Reference, FIXED_STATE)?
        .prop(alloc, "jcr:predecessors", Kind::Reference, FIXED_STATE_LIST)
}

// `nt:hierarchyNode`.
fn hierarchy_node(alloc: Global) -> Made
    ensures { IfOk result (λ d. Some d.definition ≡ slice_get builtin 10) }
{
    primary(alloc, "nt:hierarchyNode")?
        .as_abstract()
        .above(alloc, "mix:created")
}

// `nt:folder`.
fn folder(alloc: Global) -> Made
    ensures { IfOk result (λ d. Some d.definition ≡ slice_get builtin 11) }
{
    primary(alloc, "nt:folder")?
        .above(alloc, "nt:hierarchyNode")?
        .any_child(alloc, "nt:hierarchyNode", None, VERSIONED)
}

// `nt:file`.
fn file(alloc: Global) -> Made
    ensures { IfOk result (λ d. Some d.definition ≡ slice_get builtin 12) }
{
    primary(alloc, "nt:file")?
        .above(alloc, "nt:hierarchyNode")?
        .child(alloc, "jcr:content", "nt:base", MANDATORY)?
        .main_item(alloc, "jcr:content")
}

// `nt:resource`.
fn resource(alloc: Global) -> Made
    ensures { IfOk result (λ d. Some d.definition ≡ slice_get builtin 13) }
{
    primary(alloc, "nt:resource")?
        .above(alloc, "mix:mimeType")?
        .above(alloc, "mix:lastModified")?
        .prop(alloc, "jcr:data", Kind::Binary, MANDATORY)?
        .main_item(alloc, "jcr:data")
}

// `nt:frozenNode`.
fn frozen_node(alloc: Global) -> Made
    ensures { IfOk result (λ d. Some d.definition ≡ slice_get builtin 14) }
{
    primary(alloc, "nt:frozenNode")?
        .prop(alloc, "jcr:frozenPrimaryType", Kind::Name, PROTECTED)?
        .prop(alloc, "jcr:frozenMixinTypes", Kind::Name, PROTECTED_LIST)?
        .prop(alloc, "jcr:frozenUuid", Kind::Str, PROTECTED)?
        .any_prop(alloc, None, PROTECTED_LIST)?
        .any_prop(alloc, None, PROTECTED)?
        .any_child(alloc, "nt:frozenNode", None, PROTECTED)
}

// `nt:version`.
fn version(alloc: Global) -> Made
    ensures { IfOk result (λ d. Some d.definition ≡ slice_get builtin 15) }
{
    primary(alloc, "nt:version")?
        .above(alloc, "mix:referenceable")?
        .prop(alloc, "jcr:created", Kind::Date, PROTECTED)?
        .prop(alloc, "jcr:predecessors", Kind::Reference, PROTECTED_LIST)?
        .prop(alloc, "jcr:successors", Kind::Reference, PROTECTED_LIST)?
        .child(alloc, "jcr:frozenNode", "nt:frozenNode", PROTECTED)
}

// `nt:versionLabels`.
fn version_labels(alloc: Global) -> Made
    ensures { IfOk result (λ d. Some d.definition ≡ slice_get builtin 16) }
{
    primary(alloc, "nt:versionLabels")?.any_prop(alloc, Some(Kind::Reference), PROTECTED)
}

// `nt:versionHistory`.
fn version_history(alloc: Global) -> Made
    ensures { IfOk result (λ d. Some d.definition ≡ slice_get builtin 17) }
{
    primary(alloc, "nt:versionHistory")?
        .above(alloc, "mix:referenceable")?
        .prop(alloc, "jcr:versionableUuid", Kind::Str, PROTECTED)?
        .child(alloc, "jcr:rootVersion", "nt:version", FIXED)?
        .child(alloc, "jcr:versionLabels", "nt:versionLabels", FIXED)?
        .any_child(alloc, "nt:version", None, PROTECTED)
}

// `rep:versionStorage`.
fn version_storage(alloc: Global) -> Made
    ensures { IfOk result (λ d. Some d.definition ≡ slice_get builtin 18) }
{
    let storage = primary(alloc, "rep:versionStorage")?;
    storage.any_child(alloc, "nt:versionHistory", None, PROTECTED)
}

// `rep:system`.
fn system(alloc: Global) -> Made
    ensures { IfOk result (λ d. Some d.definition ≡ slice_get builtin 19) }
{
    let system = primary(alloc, "rep:system")?;
    system.child(alloc, "jcr:versionStorage", "rep:versionStorage", FIXED)
}
