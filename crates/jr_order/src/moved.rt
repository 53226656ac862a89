// Names with one before another, and the property that lists them.
ghost use Rattle.std.specs.Prelude.{◌≡◌, ◌∷◌, ◌++◌, [], IfOk, OnOk, cond, is_none, map};
ghost use Rattle.std.specs.List.{flat_map};
ghost use Rattle.std.specs.Option.{option_copied};
ghost use Rattle.jr_types.specs.Types.{is_named};
ghost use Rattle.jr_order.specs.Order.{around, listing, moved_before};

use jr_path::{DeepCopy, List, Name};
use jr_value::{Kind, Property, Value};
use std::alloc::{AllocError, Global};

/// The names with one directly before another, or at the end (JSR 283, 23.3 Reordering of Child Nodes). A name goes
/// before itself by staying where it is. Only want of memory refuses it.
pub fn moved_before(
    alloc: Global,
    name: &Name,
    before: Option<&Name>,
    names: List<Name>,
) -> Result<List<Name>, AllocError>
    ensures { IfOk result (λ moved. moved
        ≡ moved_before name.now (option_copied before.entry) names) }
{
    if is_named(name, before) {
        Ok(names)
    } else {
        moved_apart(alloc, name, before, names.as_slice())
    }
}

// Whether that is the name.
fn is_named(name: &Name, other: Option<&Name>) -> bool
    ensures { result ≡ is_named name.now (option_copied other.entry) }
{
    match other {
        Some(other) => name == other,
        None => false,
    }
}

// The names with one directly before another name, or at the end.
fn moved_apart(
    alloc: Global,
    name: &Name,
    before: Option<&Name>,
    names: &[Name],
) -> Result<List<Name>, AllocError>
    ensures { IfOk result (λ moved. moved
        ≡ flat_map (around name.now (option_copied before.entry)) names.now
        ++ cond (is_none (option_copied before.entry)) (name.now ∷ []) []) }
{
    let mut moved = List::new(alloc);
    for other in names {
        push_around(&mut moved, name, before, other)?;
    }
    push_last(&mut moved, name, before)?;
    Ok(moved)
}

// What stands in the place of a name comes next.
fn push_around(
    moved: &mut List<Name>,
    name: &Name,
    before: Option<&Name>,
    other: &Name,
) -> Result<(), AllocError>
    ensures { OnOk result (moved.new
        ≡ moved.old ++ around name.now (option_copied before.entry) other.now) }
{
    if name == other {
        return Ok(());
    }
    if is_named(other, before) {
        moved.push(name.copy()?)?;
    }
    moved.push(other.copy()?)
}

// The name comes last, where it goes before none.
fn push_last(moved: &mut List<Name>, name: &Name, before: Option<&Name>) -> Result<(), AllocError>
    ensures { OnOk result (moved.new
        ≡ moved.old ++ cond (is_none (option_copied before.entry)) (name.now ∷ []) []) }
{
    match before {
        Some(_) => Ok(()),
        None => moved.push(name.copy()?),
    }
}

/// The names as the property `rep:childOrder` that lists them. Only want of memory refuses it.
pub fn listing(alloc: Global, names: &[Name]) -> Result<Property, AllocError>
    ensures { IfOk result (λ property. property ≡ listing names.now) }
{
    let mut values = List::new(alloc);
    for name in names {
        values.push(Value::Name(name.copy()?))?;
    }
    Ok(Property::Many(Kind::Name, values))
}
