// Which edits may leave a REFERENCE that names no node, where each named one before.
ghost use Rattle.std.specs.Prelude.{◌≡◌, IfOk, is_some};
ghost use Rattle.std.specs.List.{list_any};
ghost use Rattle.jr_items.specs.Items.{is_of_type, one_text, reference_in};
ghost use Rattle.jr_items.specs.Names.{frozen_type, uuid};
ghost use Rattle.jr_tree.specs.Trees.{property_at};
ghost use Rattle.jcr_plan.specs.Checked.{has_reference, is_ever_frozen, is_identity, may_dangle, reference_names};

use jr_edited::Edited;
use jr_items::{OwnName, one_text};
use jr_path::{Name, Path};
use jr_tree::Write;
use jr_value::{Property, Value};
use std::alloc::{AllocError, Global};

// The names of the properties by which references go: the identifier of a node, and its primary type.
struct ReferenceNames {
    uuid: Name,
    primary: Name,
}

// By hand, so that its parts are let go in one call.
impl Drop for ReferenceNames {
    fn drop(self) {
        let ReferenceNames { uuid, primary } = self;
        drop(uuid);
        drop(primary);
    }
}

impl ReferenceNames {
    fn new(alloc: Global) -> Result<ReferenceNames, AllocError>
        ensures { IfOk result (λ names. names ≡ reference_names) }
    {
        Ok(ReferenceNames {
            uuid: OwnName::Uuid.name(alloc)?,
            primary: OwnName::PrimaryType.name(alloc)?,
        })
    }
}

// Whether one of the writes may leave a REFERENCE that names no node. It looks only at the nodes that are written.
pub(crate) fn may_dangle(
    alloc: Global,
    old: &Edited<'_>,
    new: &Edited<'_>,
    writes: &[Write],
) -> Result<bool, AllocError>
    ensures { IfOk result (λ answer. answer ≡ list_any (may_dangle old.now new.now) writes.now) }
{
    let names = ReferenceNames::new(alloc)?;
    Ok(one_may_dangle(old, new, &names, writes))
}

fn one_may_dangle(
    old: &Edited<'_>,
    new: &Edited<'_>,
    names: &ReferenceNames,
    writes: &[Write],
) -> bool
    requires { names.now ≡ reference_names }
    ensures { result ≡ list_any (may_dangle old.now new.now) writes.now }
{
    for write in writes {
        if leaves_dangling(old, new, names, write) {
            return true;
        }
    }
    false
}

fn leaves_dangling(
    old: &Edited<'_>,
    new: &Edited<'_>,
    names: &ReferenceNames,
    write: &Write,
) -> bool
    requires { names.now ≡ reference_names }
    ensures { result ≡ may_dangle old.now new.now write.now }
{
    match write {
        Write::Here(_) => false,
        Write::Gone(path) => has_identifier(old, names, path),
        Write::Put(path, name, property) => {
            has_reference(property) || is_identity(old, new, names, path, name)
        }
        Write::Unset(path, name) => is_identity(old, new, names, path, name),
    }
}

// Whether the node has a `jcr:uuid` that is one text.
fn has_identifier(tree: &Edited<'_>, names: &ReferenceNames, at: &Path) -> bool
    requires { names.now ≡ reference_names }
    ensures { result ≡ is_some (one_text (property_at tree.now at.now uuid)) }
{
    one_text(tree.property(at, &names.uuid)).is_some()
}

// Whether the property is an identifier, or the primary type of an `nt:frozenNode`.
fn is_identity(
    old: &Edited<'_>,
    new: &Edited<'_>,
    names: &ReferenceNames,
    at: &Path,
    name: &Name,
) -> bool
    requires { names.now ≡ reference_names }
    ensures { result ≡ is_identity old.now new.now at.now name.now }
{
    if OwnName::Uuid.is(name) {
        return true;
    }
    OwnName::PrimaryType.is(name) && is_ever_frozen(old, new, names, at)
}

fn is_ever_frozen(old: &Edited<'_>, new: &Edited<'_>, names: &ReferenceNames, at: &Path) -> bool
    requires { names.now ≡ reference_names }
    ensures { result ≡ is_ever_frozen old.now new.now at.now }
{
    is_frozen(old, names, at) || is_frozen(new, names, at)
}

// Whether the node is an `nt:frozenNode`.
fn is_frozen(tree: &Edited<'_>, names: &ReferenceNames, at: &Path) -> bool
    requires { names.now ≡ reference_names }
    ensures { result ≡ is_of_type tree.now frozen_type at.now }
{
    match tree.property(at, &names.primary) {
        Some(Property::Single(Value::Name(name))) => OwnName::FrozenType.is(name),
        _ => false,
    }
}

// Whether a value of the property is a REFERENCE.
fn has_reference(property: &Property) -> bool
    ensures { result ≡ has_reference property.now }
{
    match property {
        Property::Single(value) => is_reference(value),
        Property::Many(_, values) => one_is_reference(values.as_slice()),
    }
}

fn one_is_reference(values: &[Value]) -> bool
    ensures { result ≡ list_any (λ v. is_some (reference_in v)) values.now }
{
    for value in values {
        if is_reference(value) {
            return true;
        }
    }
    false
}

fn is_reference(value: &Value) -> bool
    ensures { result ≡ is_some (reference_in value.now) }
{
    match value {
        Value::Reference(_) => true,
        _ => false,
    }
}
