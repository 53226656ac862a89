// Which nodes an edit brings under a lock or a checked-in node.
ghost use Rattle.std.specs.Prelude.{◌≡◌, ◌&&◌, not, IfOk};
ghost use Rattle.std.specs.List.{list_any};
ghost use Rattle.std.specs.Option.{option_copied};
ghost use Rattle.jr_tree.specs.Trees.{property_at};
ghost use Rattle.jr_items.specs.Names.{lock_owner};
ghost use Rattle.jr_items.specs.Items.{upward};
ghost use Rattle.jcr_lock.specs.Locks.{frozen_by, lock_covers};
ghost use Rattle.jcr_lock.specs.Names.{lock_names};
ghost use Rattle.jcr_marks.specs.Marks.{are_same, is_covered_anew, is_deepened, is_frozen_anew, is_this_path, locks_anew, stays};

use jcr_lock::{LockNames, frozen_by, is_deep_lock, lock_covers};
use jr_edited::Edited;
use jr_items::upward;
use jr_path::Path;
use jr_value::Property;
use std::alloc::{AllocError, Global};

// Whether the node stays, and gains a lock or a checked-in node over it, or another owner of a lock over it, or its own lock
// becomes deep. It looks only at the node and those above it.
pub(crate) fn is_newly_covered(
    alloc: Global,
    old: &Edited<'_>,
    new: &Edited<'_>,
    names: &LockNames,
    at: &Path,
) -> Result<bool, AllocError>
    requires { names.now ≡ lock_names }
    ensures { IfOk result (λ answer. answer
        ≡ (stays old.now new.now at.now && is_covered_anew old.now new.now at.now)) }
{
    if !stays(old, new, at) {
        return Ok(false);
    }
    is_covered_anew(alloc, old, new, names, at)
}

// Whether the node stands in both trees.
pub(crate) fn stays(old: &Edited<'_>, new: &Edited<'_>, at: &Path) -> bool
    ensures { result ≡ stays old.now new.now at.now }
{
    old.has(at) && new.has(at)
}

fn is_covered_anew(
    alloc: Global,
    old: &Edited<'_>,
    new: &Edited<'_>,
    names: &LockNames,
    at: &Path,
) -> Result<bool, AllocError>
    requires { names.now ≡ lock_names }
    ensures { IfOk result (λ answer. answer ≡ is_covered_anew old.now new.now at.now) }
{
    if gains_lock(alloc, old, new, names, at)? {
        return Ok(true);
    }
    if is_frozen_anew(alloc, old, new, at)? {
        return Ok(true);
    }
    Ok(is_deepened(old, new, names, at))
}

// Whether a lock covers the node that did not, or had another owner.
fn gains_lock(
    alloc: Global,
    old: &Edited<'_>,
    new: &Edited<'_>,
    names: &LockNames,
    at: &Path,
) -> Result<bool, AllocError>
    requires { names.now ≡ lock_names }
    ensures { IfOk result
        (λ answer. answer ≡ list_any (locks_anew old.now new.now at.now) (upward at.now)) }
{
    for above in &upward(alloc, at)? {
        if locks_anew(old, new, names, at, above) {
            return Ok(true);
        }
    }
    Ok(false)
}

fn locks_anew(
    old: &Edited<'_>,
    new: &Edited<'_>,
    names: &LockNames,
    at: &Path,
    above: &Path,
) -> bool
    requires { names.now ≡ lock_names }
    ensures { result ≡ locks_anew old.now new.now at.now above.now }
{
    lock_covers(new, names, above, at) && !locked_alike(old, new, names, at, above)
}

// Whether the lock covered the node before, with the same owner.
fn locked_alike(
    old: &Edited<'_>,
    new: &Edited<'_>,
    names: &LockNames,
    at: &Path,
    above: &Path,
) -> bool
    requires { names.now ≡ lock_names }
    ensures { result ≡ (lock_covers old.now above.now at.now
        && are_same (property_at old.now above.now lock_owner)
        (property_at new.now above.now lock_owner)) }
{
    lock_covers(old, names, above, at)
        && are_same(
            old.property(above, &names.owner),
            new.property(above, &names.owner),
        )
}

fn are_same(old: Option<&Property>, new: Option<&Property>) -> bool
    ensures { result ≡ are_same (option_copied old.entry) (option_copied new.entry) }
{
    match (old, new) {
        (Some(old), Some(new)) => old == new,
        _ => false,
    }
}

// Whether a checked-in node covers the node that did not.
fn is_frozen_anew(
    alloc: Global,
    old: &Edited<'_>,
    new: &Edited<'_>,
    at: &Path,
) -> Result<bool, AllocError>
    ensures { IfOk result (λ answer. answer ≡ is_frozen_anew old.now new.now at.now) }
{
    match frozen_by(alloc, new, at)? {
        Some(cover) => is_frozen_by_another(alloc, old, at, &cover),
        None => Ok(false),
    }
}

fn is_frozen_by_another(
    alloc: Global,
    tree: &Edited<'_>,
    at: &Path,
    cover: &Path,
) -> Result<bool, AllocError>
    ensures { IfOk result (λ answer. answer ≡ not (is_this_path (frozen_by tree.now at.now) cover.now)) }
{
    match frozen_by(alloc, tree, at)? {
        Some(before) => Ok(*cover != before),
        None => Ok(true),
    }
}

// Whether the lock of the node covers what is below it, and before did not.
fn is_deepened(old: &Edited<'_>, new: &Edited<'_>, names: &LockNames, at: &Path) -> bool
    requires { names.now ≡ lock_names }
    ensures { result ≡ is_deepened old.now new.now at.now }
{
    is_deep_lock(new, names, at) && !is_deep_lock(old, names, at)
}
