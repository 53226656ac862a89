// The edit that restores a node to one of its versions.
ghost use Rattle.std.specs.Prelude.{◌≡◌, IfErr, IfOk, None, OnOk, option_map};
ghost use Rattle.std.specs.List.{fold};
ghost use Rattle.jr_tree.specs.Edits.{changes, with_property_write};
ghost use Rattle.jcr_version.specs.Edits.{checked_in_writes};
ghost use Rattle.jcr_version.specs.Limits.{within_limits};
ghost use Rattle.jr_tree.specs.Trees.{subtree_of};
ghost use Rattle.jr_items.specs.Refusals.{IsTheRefusal, taken};
ghost use Rattle.jcr_lock.specs.Locks.{IsDue, IsDueRefusal};
ghost use Rattle.jcr_restore.specs.Edits.{after_restore, bringing_refusal, frozen_of, frozen_there, in_conflict, restore_edit, restore_own, restore_to, unfrozen};

use crate::restored::Bringing;
use jcr_frozen::{find_history, find_version, number_at, own_child};
use jcr_version::within_limits;
use jr_items::{OwnName, checked_in, is_same_text, taken};
use jr_path::{List, Path};
use jr_tree::{Edit, Refusal, Tree, changes};
use jr_types::Registry;
use jr_value::{Kind, Property, Value};
use std::alloc::{AllocError, Global};

/// The edit that restores a node to one of its versions (JSR 283, 15.7 Restore): the changes to the tree after it, in
/// which the node is brought to the version's frozen node, and is checked in with the version as its base. A node that is
/// brought to a frozen node has its type and mixins, the properties that it keeps, and of its own those that no version
/// keeps; its children that a version keeps, and that aren't versionable, are brought to theirs, go where they have none,
/// or are made with the identifier that was frozen; all others stay. Refused, in this order: the path, as every version
/// command; 12 where the node isn't versionable; 6 with the version's name where the history has no such version; 8 with
/// the version's path for the root version; 2 with the first node outside the restored one that has the identifier of a
/// node that would be made; 15 by the first path of a node to be made, in path order, that has more than 64 names or 1,024
/// bytes. That the node is checked out is no matter here. It looks at the two subtrees, and through the tree only where a
/// node with an identifier is made.
#[tactic(auto, using(crate::proofs::Free::own_due, crate::proofs::Free::own_refused, crate::proofs::Free::first_refused))]
pub fn restore_edit(
    alloc: Global,
    types: &Registry,
    tree: &Tree,
    path: &Path,
    version: &str,
) -> Result<Edit, Refusal>
    ensures ok { IfOk result (IsDue (restore_edit types.now tree.now path.now version.now)) }
    ensures err { IfErr result (IsDueRefusal (restore_edit types.now tree.now path.now version.now)) }
{
    match find_history(alloc, "restore", tree, path) {
        Ok(history) => restore_from(alloc, types, tree, path, &history, version),
        Err(refusal) => Err(refusal),
    }
}

#[tactic(auto, using(crate::proofs::Free::own_due, crate::proofs::Free::own_refused, crate::proofs::Free::first_refused))]
fn restore_from(
    alloc: Global,
    types: &Registry,
    tree: &Tree,
    path: &Path,
    history: &Path,
    version: &str,
) -> Result<Edit, Refusal>
    ensures ok { IfOk result (IsDue (restore_own types.now tree.now path.now history.now version.now)) }
    ensures err { IfErr result (IsDueRefusal (restore_own types.now tree.now path.now history.now version.now)) }
{
    match find_version(alloc, tree, history, version) {
        Ok(at) => restore_to(alloc, types, tree, path, &at, version),
        Err(refusal) => Err(refusal),
    }
}

#[tactic(auto, using(crate::proofs::Free::own_due, crate::proofs::Free::own_refused, crate::proofs::Free::first_refused))]
fn restore_to(
    alloc: Global,
    types: &Registry,
    tree: &Tree,
    path: &Path,
    at: &Path,
    version: &str,
) -> Result<Edit, Refusal>
    ensures ok { IfOk result (IsDue (restore_to types.now tree.now path.now at.now version.now)) }
    ensures err { IfErr result (IsDueRefusal (restore_to types.now tree.now path.now at.now version.now)) }
{
    match find_free(alloc, types, tree, path, at, version) {
        Ok(frozen) => bring(alloc, types, tree, path, at, &frozen),
        Err(refusal) => Err(refusal),
    }
}

// The frozen node of a version, where no node outside has the identifier of a node that is made.
#[tactic(auto, using(crate::proofs::Free::first_of_two, crate::proofs::Free::second_of_two, crate::proofs::Free::none_of_two))]
fn find_free(
    alloc: Global,
    types: &Registry,
    tree: &Tree,
    path: &Path,
    at: &Path,
    version: &str,
) -> Result<Path, Refusal>
    ensures frozen { IfOk result (λ frozen. frozen ≡ frozen_of at.now) }
    ensures ok { OnOk result (bringing_refusal types.now tree.now path.now at.now version.now ≡ None) }
    ensures err { IfErr result (IsTheRefusal (bringing_refusal types.now tree.now path.now at.now version.now)) }
{
    match find_frozen(alloc, tree, at, version) {
        Ok(frozen) => free_for(alloc, types, tree, path, frozen),
        Err(refusal) => Err(refusal),
    }
}

// The frozen node itself, where no node outside has the identifier of a node that is made.
fn free_for(
    alloc: Global,
    types: &Registry,
    tree: &Tree,
    path: &Path,
    frozen: Path,
) -> Result<Path, Refusal>
    ensures frozen { IfOk result (λ path. path ≡ frozen) }
    ensures ok { OnOk result (option_map taken (in_conflict types.now tree.now path.now frozen) ≡ None) }
    ensures err { IfErr result (IsTheRefusal (option_map taken (in_conflict types.now tree.now path.now frozen))) }
{
    match check_free(alloc, types, tree, path, &frozen) {
        Ok(()) => Ok(frozen),
        Err(refusal) => Err(refusal),
    }
}

fn check_free(
    alloc: Global,
    types: &Registry,
    tree: &Tree,
    path: &Path,
    frozen: &Path,
) -> Result<(), Refusal>
    ensures ok { OnOk result (option_map taken (in_conflict types.now tree.now path.now frozen.now) ≡ None) }
    ensures err { IfErr result (IsTheRefusal (option_map taken (in_conflict types.now tree.now path.now frozen.now))) }
{
    let bringing = Bringing {
        alloc,
        types,
        tree,
        path,
        frozen,
    };
    match bringing.in_conflict() {
        Ok(Some(at)) => Err(taken(alloc, &at)),
        Ok(None) => Ok(()),
        Err(AllocError) => Err(Refusal::memory(alloc)),
    }
}

// The edit that brings a node to the frozen node of a version.
fn bring(
    alloc: Global,
    types: &Registry,
    tree: &Tree,
    path: &Path,
    at: &Path,
    frozen: &Path,
) -> Result<Edit, Refusal>
    requires { frozen.now ≡ frozen_of at.now }
    ensures ok { IfOk result (IsDue (within_limits (changes (subtree_of tree.now path.now) (after_restore types.now tree.now path.now at.now)))) }
    ensures err { IfErr result (IsDueRefusal (within_limits (changes (subtree_of tree.now path.now) (after_restore types.now tree.now path.now at.now)))) }
{
    let bringing = Bringing {
        alloc,
        types,
        tree,
        path,
        frozen,
    };
    match restore_changes(&bringing, at) {
        Ok(edit) => within_limits(alloc, edit),
        Err(AllocError) => Err(Refusal::memory(alloc)),
    }
}

// The frozen node of a version; the root version has none.
#[tactic(auto, using(crate::proofs::Free::some_of, crate::proofs::Free::none_of))]
fn find_frozen(alloc: Global, tree: &Tree, at: &Path, version: &str) -> Result<Path, Refusal>
    ensures frozen { IfOk result (λ path. path ≡ frozen_of at.now) }
    ensures ok { OnOk result (unfrozen tree.now at.now version.now ≡ None) }
    ensures err { IfErr result (IsTheRefusal (unfrozen tree.now at.now version.now)) }
{
    match frozen_there(alloc, tree, at, version) {
        Ok(Some(frozen)) => Ok(frozen),
        Ok(None) => Err(checked_in(alloc, at)),
        Err(AllocError) => Err(Refusal::memory(alloc)),
    }
}

#[tactic(auto, unfolding(crate::specs::Edits::has_frozen))]
fn frozen_there(
    alloc: Global,
    tree: &Tree,
    at: &Path,
    version: &str,
) -> Result<Option<Path>, AllocError>
    ensures { IfOk result (λ found. found ≡ frozen_there tree.now at.now version.now) }
{
    if is_same_text(OwnName::RootVersion.as_str(), version) {
        return Ok(None);
    }
    let frozen = own_child(alloc, at, OwnName::FrozenNode)?;
    if tree.has(&frozen) {
        Ok(Some(frozen))
    } else {
        Ok(None)
    }
}

// The changes to the tree after the restore.
fn restore_changes(bringing: &Bringing, version: &Path) -> Result<Edit, AllocError>
    requires { bringing.now.frozen.now ≡ frozen_of version.now }
    ensures { IfOk result (λ edit. edit.writes ≡ changes (subtree_of bringing.now.tree.now bringing.now.path.now) (after_restore bringing.now.types.now bringing.now.tree.now bringing.now.path.now version.now)) }
{
    let old = bringing.tree.subtree(bringing.path)?;
    let new = after_restore(bringing, version)?;
    changes(&old, &new)
}

fn after_restore(bringing: &Bringing, version: &Path) -> Result<Tree, AllocError>
    requires { bringing.now.frozen.now ≡ frozen_of version.now }
    ensures { IfOk result (λ tree. tree ≡ after_restore bringing.now.types.now bringing.now.tree.now bringing.now.path.now version.now) }
{
    let mut tree = bringing.restored()?;
    let number = number_at(bringing.alloc, bringing.tree, version)?;
    put_checked_in(&mut tree, bringing.alloc, bringing.path, number)?;
    Ok(tree)
}

// The node is checked in, the version with that identifier is its base, and it has no predecessors.
fn put_checked_in(tree: &mut Tree, alloc: Global, path: &Path, id: u128) -> Result<(), AllocError>
    ensures { OnOk result (tree.new ≡ fold with_property_write tree.old (checked_in_writes path.now id)) }
{
    let flag = Property::Single(Value::Boolean(false));
    tree.put(path, OwnName::IsCheckedOut.name(alloc)?, flag)?;
    let base = Property::Single(Value::Reference(id));
    tree.put(path, OwnName::BaseVersion.name(alloc)?, base)?;
    let none = Property::Many(Kind::Reference, List::new(alloc));
    tree.put(path, OwnName::Predecessors.name(alloc)?, none)
}
