// The edits that lock and unlock a node.
ghost use Rattle.std.specs.Prelude.{◌≡◌, ◌++◌, ◌∷◌, [], IfErr, IfOk, IsTrue, None, OnOk, Ok, Err, filter, map, option_map};
ghost use Rattle.std.specs.String.{string_bytes};
ghost use Rattle.std.specs.FinMap.{is_sorted};
ghost use Rattle.jr_path.specs.Names.{path_cmp};
ghost use Rattle.jr_value.specs.declared.value.Property.TheVariants.{Single};
ghost use Rattle.jr_value.specs.declared.value.Value.TheVariants as value;
ghost use Rattle.jr_tree.specs.declared.edit.Write.TheVariants.{Put, Unset};
ghost use Rattle.jr_items.specs.Items.{has_mixin};
ghost use Rattle.jr_items.specs.Names.{lock_is_deep, lock_owner, lockable};
ghost use Rattle.jr_items.specs.Own.{own_name};
ghost use Rattle.jr_items.specs.Refusals.{IsOrMemory, IsTheRefusal, locked, no_item};
ghost use Rattle.jcr_lock.specs.Locks.{IsDue, IsDueRefusal, first_lock, lock_edit, lock_in_way, lock_refusal, lock_writes, owner_refusal, unlock_edit, unlock_refusal, unlock_writes, unlockable};
ghost use Rattle.jcr_lock.specs.Names.{lock_names};
ghost use Rattle.jcr_lock.specs.Needed.{are_names_in_order, has_this_property, is_needed};

use crate::covers::{LockNames, covering_lock, found_at, is_held, is_lock};
use jr_edited::Edited;
use jr_items::{OwnName, check_place, has_mixin, locked, no_item, unsupported};
use jr_path::{DeepCopy, List, Name, Path, Text};
use jr_tree::{Edit, Refusal, Tree, Write};
use jr_value::{Property, Value};
use std::alloc::{AllocError, Global};

/// The edit that locks a node (JSR 283, 17 Locking): it writes the owner, which is the lock's token, and whether the
/// lock is deep, the flag of a shallow one too; of these only what changes something. Refused, in this order: the
/// path, as every lock command; 12 without `mix:lockable`; 7 with the lock in the way, which is the nearest that
/// covers the node, or else, where the new one is deep, the first below it in path order.
pub fn lock_edit(
    alloc: Global,
    tree: &Tree,
    path: &Path,
    deep: bool,
    token: &str,
) -> Result<Edit, Refusal>
    ensures ok { IfOk result (IsDue (lock_edit tree.now path.now deep token.now)) }
    ensures err { IfErr result (IsDueRefusal (lock_edit tree.now path.now deep token.now)) }
{
    check_lock(alloc, tree, path, deep)?;
    know_order(tree, path);
    match lock_writes(alloc, tree, path, deep, token) {
        Ok(edit) => Ok(edit),
        Err(AllocError) => Err(Refusal::memory(alloc)),
    }
}

/// The edit that unlocks a node (JSR 283, 17 Locking). Refused, in this order: the path, as every lock command; 1 with
/// the path of `jcr:lockOwner` where the node holds no lock; 7 where none of the tokens is its owner.
pub fn unlock_edit(
    alloc: Global,
    tree: &Tree,
    path: &Path,
    tokens: &[String],
) -> Result<Edit, Refusal>
    ensures ok { IfOk result (IsDue (unlock_edit tree.now path.now (map string_bytes tokens.now))) }
    ensures err { IfErr result (IsDueRefusal (unlock_edit tree.now path.now (map string_bytes tokens.now))) }
{
    check_unlock(alloc, tree, path, tokens)?;
    know_order(tree, path);
    match unlock_writes(alloc, tree, path) {
        Ok(edit) => Ok(edit),
        Err(AllocError) => Err(Refusal::memory(alloc)),
    }
}

#[tactic(auto, using(crate::proofs::Refused::first_of_three, crate::proofs::Refused::second_of_three, crate::proofs::Refused::third_of_three, crate::proofs::Refused::none_of_three))]
fn check_lock(alloc: Global, tree: &Tree, path: &Path, deep: bool) -> Result<(), Refusal>
    ensures ok { OnOk result (lock_refusal tree.now path.now deep ≡ None) }
    ensures err { IfErr result (IsTheRefusal (lock_refusal tree.now path.now deep)) }
{
    check_place(alloc, tree, path)?;
    check_lockable(alloc, tree, path)?;
    check_free(alloc, tree, path, deep)
}

fn check_lockable(alloc: Global, tree: &Tree, path: &Path) -> Result<(), Refusal>
    ensures ok { OnOk result (unlockable tree.now path.now ≡ None) }
    ensures err { IfErr result (IsTheRefusal (unlockable tree.now path.now)) }
{
    match is_lockable(alloc, tree, path) {
        Ok(true) => Ok(()),
        Ok(false) => Err(unsupported(alloc, "lock")),
        Err(AllocError) => Err(Refusal::memory(alloc)),
    }
}

fn is_lockable(alloc: Global, tree: &Tree, path: &Path) -> Result<bool, AllocError>
    ensures { IfOk result (λ answer. answer ≡ has_mixin tree.now lockable path.now) }
{
    let types = OwnName::MixinTypes.name(alloc)?;
    let lockable = OwnName::Lockable.name(alloc)?;
    Ok(has_mixin(tree, &types, &lockable, path))
}

// Whether no lock is in the way of a new one.
fn check_free(alloc: Global, tree: &Tree, path: &Path, deep: bool) -> Result<(), Refusal>
    ensures ok { OnOk result (lock_in_way tree.now path.now deep ≡ None) }
    ensures err { IfErr result (IsTheRefusal (option_map locked (lock_in_way tree.now path.now deep))) }
{
    match lock_in_way(alloc, tree, path, deep) {
        Ok(Some(at)) => Err(locked(alloc, &at)),
        Ok(None) => Ok(()),
        Err(AllocError) => Err(Refusal::memory(alloc)),
    }
}

// The lock in the way of a new one.
fn lock_in_way(
    alloc: Global,
    tree: &Tree,
    path: &Path,
    deep: bool,
) -> Result<Option<Path>, AllocError>
    ensures { IfOk result (λ found. found ≡ lock_in_way tree.now path.now deep) }
{
    let names = LockNames::new(alloc)?;
    lock_seen_in_way(alloc, &Edited::unchanged(alloc, tree), &names, path, deep)
}

fn lock_seen_in_way(
    alloc: Global,
    tree: &Edited<'_>,
    names: &LockNames,
    path: &Path,
    deep: bool,
) -> Result<Option<Path>, AllocError>
    requires { names.now ≡ lock_names }
    ensures { IfOk result (λ found. found ≡ lock_in_way tree.now path.now deep) }
{
    match covering_lock(alloc, tree, names, path)? {
        Some(at) => Ok(Some(at)),
        None => {
            if deep {
                first_lock(tree, names, path)
            } else {
                Ok(None)
            }
        }
    }
}

// The first lock at or below a path.
fn first_lock(tree: &Edited<'_>, names: &LockNames, path: &Path) -> Result<Option<Path>, AllocError>
    requires { names.now ≡ lock_names }
    ensures { IfOk result (λ found. found ≡ first_lock tree.now path.now) }
{
    for (at, _) in &tree.under(path)? {
        if is_lock(tree, names, at) {
            return found_at(at);
        }
    }
    Ok(None)
}

// The writes of a new lock that change something.
fn lock_writes(
    alloc: Global,
    tree: &Tree,
    path: &Path,
    deep: bool,
    token: &str,
) -> Result<Edit, AllocError>
    ensures { IfOk result (λ edit. edit.writes ≡ filter (is_needed tree.now) (lock_writes path.now deep token.now)) }
{
    let flag = flag_write(alloc, path, deep)?;
    let owner = owner_write(alloc, path, token)?;
    needed(alloc, tree, flag, owner)
}

// The write of whether a lock is deep.
fn flag_write(alloc: Global, path: &Path, deep: bool) -> Result<Write, AllocError>
    ensures { IfOk result (λ write. write ≡ Put path.now lock_is_deep (Single (value.Boolean deep))) }
{
    let (path, name) = place_of(alloc, path, OwnName::LockIsDeep)?;
    Ok(Write::Put(path, name, Property::Single(Value::Boolean(deep))))
}

// The write of a lock's owner.
fn owner_write(alloc: Global, path: &Path, token: &str) -> Result<Write, AllocError>
    ensures { IfOk result (λ write. write ≡ Put path.now lock_owner (Single (value.Str token.now))) }
{
    let owner = Text::copy_of(alloc, token)?;
    let (path, name) = place_of(alloc, path, OwnName::LockOwner)?;
    Ok(Write::Put(path, name, Property::Single(Value::Str(owner))))
}

// A copy of a path, and a name of the repository's own.
fn place_of(alloc: Global, path: &Path, name: OwnName) -> Result<(Path, Name), AllocError>
    ensures { IfOk result (λ place. place ≡ (path.now, own_name name)) }
{
    Ok((path.copy()?, name.name(alloc)?))
}

// The writes of an unlocking that change something.
fn unlock_writes(alloc: Global, tree: &Tree, path: &Path) -> Result<Edit, AllocError>
    ensures { IfOk result (λ edit. edit.writes ≡ filter (is_needed tree.now) (unlock_writes path.now)) }
{
    let flag = unset(alloc, path, OwnName::LockIsDeep)?;
    let owner = unset(alloc, path, OwnName::LockOwner)?;
    needed(alloc, tree, flag, owner)
}

// The write that takes a property away.
fn unset(alloc: Global, path: &Path, name: OwnName) -> Result<Write, AllocError>
    ensures { IfOk result (λ write. write ≡ Unset path.now (own_name name)) }
{
    let (path, name) = place_of(alloc, path, name)?;
    Ok(Write::Unset(path, name))
}

// Those of two writes that are needed.
#[tactic(auto, using(crate::proofs::LockEdits::of_two))]
fn needed(alloc: Global, tree: &Tree, first: Write, second: Write) -> Result<Edit, AllocError>
    ensures { IfOk result (λ edit. edit.writes ≡ filter (is_needed tree.now) (first ∷ second ∷ [])) }
{
    let mut writes = List::new(alloc);
    push_needed(&mut writes, tree, first)?;
    push_needed(&mut writes, tree, second)?;
    Ok(Edit { writes })
}

fn push_needed(writes: &mut List<Write>, tree: &Tree, write: Write) -> Result<(), AllocError>
    ensures { OnOk result (writes.new ≡ writes.old ++ filter (is_needed tree.now) (write ∷ [])) }
{
    if is_needed(tree, &write) {
        writes.push(write)?;
    }
    Ok(())
}

// The nodes stand in the order of their paths, and the properties of this one by name. It does nothing: callers learn
// the facts.
fn know_order(tree: &Tree, path: &Path)
    ensures nodes { IsTrue (is_sorted path_cmp tree.now) }
    ensures names { IsTrue (are_names_in_order tree.now path.now) }
{
    let _ = tree.len();
    if let Some(node) = tree.get(path) {
        let _ = node.props.len();
    }
}

// Whether the write changes something.
fn is_needed(tree: &Tree, write: &Write) -> bool
    ensures { result ≡ is_needed tree.now write.now }
{
    match write {
        Write::Here(path) => !tree.has(path),
        Write::Gone(path) => tree.has(path),
        Write::Put(path, name, property) => !is_there(tree, path, name, property),
        Write::Unset(path, name) => tree.property(path, name).is_some(),
    }
}

// Whether the node has this property.
fn is_there(tree: &Tree, path: &Path, name: &Name, property: &Property) -> bool
    ensures { result ≡ has_this_property tree.now path.now name.now property.now }
{
    match tree.property(path, name) {
        Some(found) => property == found,
        None => false,
    }
}

#[tactic(auto, using(crate::proofs::Refused::first_of_two, crate::proofs::Refused::second_of_two, crate::proofs::Refused::none_of_two))]
fn check_unlock(alloc: Global, tree: &Tree, path: &Path, tokens: &[String]) -> Result<(), Refusal>
    ensures ok { OnOk result (unlock_refusal tree.now path.now (map string_bytes tokens.now) ≡ None) }
    ensures err { IfErr result (IsTheRefusal (unlock_refusal tree.now path.now (map string_bytes tokens.now))) }
{
    check_place(alloc, tree, path)?;
    match LockNames::new(alloc) {
        Ok(names) => check_owner(alloc, &Edited::unchanged(alloc, tree), &names, path, tokens),
        Err(AllocError) => Err(Refusal::memory(alloc)),
    }
}

fn check_owner(
    alloc: Global,
    tree: &Edited<'_>,
    names: &LockNames,
    path: &Path,
    tokens: &[String],
) -> Result<(), Refusal>
    requires { names.now ≡ lock_names }
    ensures ok { OnOk result (owner_refusal tree.now path.now (map string_bytes tokens.now) ≡ None) }
    ensures err { IfErr result (IsTheRefusal (owner_refusal tree.now path.now (map string_bytes tokens.now))) }
{
    if !is_lock(tree, names, path) {
        return Err(no_lock(alloc, names, path));
    }
    if !is_held(tree, names, tokens, path) {
        return Err(locked(alloc, path));
    }
    Ok(())
}

// The node holds no lock: the owner is missing.
fn no_lock(alloc: Global, names: &LockNames, path: &Path) -> Refusal
    requires { names.now ≡ lock_names }
    ensures { IsOrMemory (no_item (path.now ++ lock_owner ∷ [])) result }
{
    match path.child(&names.owner) {
        Ok(owner) => no_item(alloc, &owner),
        Err(AllocError) => Refusal::memory(alloc),
    }
}
