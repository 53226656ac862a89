// Which lock and which checked-in node cover a path.
ghost use Rattle.std.specs.Prelude.{◌≡◌, false, cond, IfOk, Some, None, map};
ghost use Rattle.std.specs.List.{filter_map, find, list_any};
ghost use Rattle.std.specs.Option.{option_map_or};
ghost use Rattle.std.specs.String.{string_bytes};
ghost use Rattle.jr_value.specs.Values.{same_bytes};
ghost use Rattle.jr_items.specs.Items.{has_mixin, is_flag, name_in, same_name, upward};
ghost use Rattle.jr_items.specs.Names.{is_checked_out, mixin_types};
ghost use Rattle.jr_tree.specs.Trees.{property_at};
ghost use Rattle.jcr_lock.specs.Locks.{bars, frozen_by, is_deep_lock, is_held, is_lock, lock_covers, locked_by};
ghost use Rattle.jcr_lock.specs.Names.{lock_names};

use jr_edited::Edited;
use jr_items::{OwnName, is_flag, is_same_text, one_text, upward};
use jr_path::{DeepCopy, Name, Path};
use jr_value::{Property, Value};
use std::alloc::{AllocError, Global};

/// The nearest node at or above a path with a lock that covers it and whose owner is not among the tokens (JSR 283,
/// 17 Locking): a shallow lock covers its node, a deep one the subtree. The path needs no node. It looks only at the
/// path and those above it.
pub fn locked_by(
    alloc: Global,
    tree: &Edited<'_>,
    path: &Path,
    tokens: &[String],
) -> Result<Option<Path>, AllocError>
    ensures { IfOk result (λ found. found ≡ locked_by tree.now path.now (map string_bytes tokens.now)) }
{
    let names = LockNames::new(alloc)?;
    for at in &upward(alloc, path)? {
        if bars(tree, &names, tokens, at, path) {
            return found_at(at);
        }
    }
    Ok(None)
}

// A copy of the path that was found.
pub(crate) fn found_at(at: &Path) -> Result<Option<Path>, AllocError>
    ensures { IfOk result (λ found. found ≡ Some at.now) }
{
    Ok(Some(at.copy()?))
}

/// The nearest versionable node at or above a path, where it is checked in (JSR 283, 15.2 Check-In): what is below it
/// is frozen with it, up to nodes that are versionable themselves. It looks only at the path and those above it.
pub fn frozen_by(alloc: Global, tree: &Edited<'_>, path: &Path) -> Result<Option<Path>, AllocError>
    ensures { IfOk result (λ found. found ≡ frozen_by tree.now path.now) }
{
    let types = OwnName::MixinTypes.name(alloc)?;
    let versionable = OwnName::Versionable.name(alloc)?;
    match nearest_with(alloc, tree, &types, &versionable, path)? {
        Some(at) => checked_in(alloc, tree, at),
        None => Ok(None),
    }
}

// The node itself, where it is checked in.
fn checked_in(alloc: Global, tree: &Edited<'_>, at: Path) -> Result<Option<Path>, AllocError>
    ensures { IfOk result (λ found. found ≡ cond (is_flag false (property_at tree.now at is_checked_out)) (Some at) None) }
{
    let checked_out = OwnName::IsCheckedOut.name(alloc)?;
    if is_flag(false, tree.property(&at, &checked_out)) {
        Ok(Some(at))
    } else {
        Ok(None)
    }
}

// The nearest node at or above a path that has the mixin.
fn nearest_with(
    alloc: Global,
    tree: &Edited<'_>,
    types: &Name,
    mixin: &Name,
    path: &Path,
) -> Result<Option<Path>, AllocError>
    requires { types.now ≡ mixin_types }
    ensures { IfOk result (λ found. found ≡ find (has_mixin tree.now mixin.now) (upward path.now)) }
{
    for at in &upward(alloc, path)? {
        if has_mixin(tree, types, mixin, at) {
            return found_at(at);
        }
    }
    Ok(None)
}

// Whether a name stands among the mixins of the node at a path.
fn has_mixin(tree: &Edited<'_>, types: &Name, mixin: &Name, at: &Path) -> bool
    requires { types.now ≡ mixin_types }
    ensures { result ≡ has_mixin tree.now mixin.now at.now }
{
    match tree.property(at, types) {
        Some(Property::Many(_, values)) => is_name_among(mixin, values.as_slice()),
        _ => false,
    }
}

// Whether the NAME is one of the values.
fn is_name_among(name: &Name, values: &[Value]) -> bool
    ensures { result ≡ list_any (same_name name.now) (filter_map name_in values.now) }
{
    for value in values {
        if is_named(name, value) {
            return true;
        }
    }
    false
}

// Whether the value is the NAME.
fn is_named(name: &Name, value: &Value) -> bool
    ensures { result ≡ option_map_or (same_name name.now) (name_in value.now) false }
{
    match value {
        Value::Name(other) => name == other,
        _ => false,
    }
}

// The nearest node at or above a path with a lock that covers it, whoever holds it.
pub(crate) fn covering_lock(
    alloc: Global,
    tree: &Edited<'_>,
    names: &LockNames,
    path: &Path,
) -> Result<Option<Path>, AllocError>
    requires { names.now ≡ lock_names }
    ensures { IfOk result (λ found. found ≡ find (λ q. lock_covers tree.now q path.now) (upward path.now)) }
{
    for at in &upward(alloc, path)? {
        if lock_covers(tree, names, at, path) {
            return found_at(at);
        }
    }
    Ok(None)
}

/// The names of a lock's two properties, which a caller makes once for many questions.
pub struct LockNames {
    pub owner: Name,
    pub is_deep: Name,
}

// By hand, so that its parts are let go in one call.
impl Drop for LockNames {
    fn drop(self) {
        let LockNames { owner, is_deep } = self;
        drop(owner);
        drop(is_deep);
    }
}

impl LockNames {
    pub fn new(alloc: Global) -> Result<LockNames, AllocError>
        ensures { IfOk result (λ names. names ≡ lock_names) }
    {
        Ok(LockNames {
            owner: OwnName::LockOwner.name(alloc)?,
            is_deep: OwnName::LockIsDeep.name(alloc)?,
        })
    }
}

// Whether the node holds a lock.
pub(crate) fn is_lock(tree: &Edited<'_>, names: &LockNames, at: &Path) -> bool
    requires { names.now ≡ lock_names }
    ensures { result ≡ is_lock tree.now at.now }
{
    tree.property(at, &names.owner).is_some()
}

/// Whether the node holds a lock that covers what is below it too.
pub fn is_deep_lock(tree: &Edited<'_>, names: &LockNames, at: &Path) -> bool
    requires { names.now ≡ lock_names }
    ensures { result ≡ is_deep_lock tree.now at.now }
{
    is_lock(tree, names, at) && is_flag(true, tree.property(at, &names.is_deep))
}

/// Whether the first node holds a lock that covers the second: a shallow lock covers its node, a deep one the subtree.
pub fn lock_covers(tree: &Edited<'_>, names: &LockNames, at: &Path, path: &Path) -> bool
    requires { names.now ≡ lock_names }
    ensures { result ≡ lock_covers tree.now at.now path.now }
{
    if !is_lock(tree, names, at) {
        return false;
    }
    if at == path {
        return true;
    }
    if !is_flag(true, tree.property(at, &names.is_deep)) {
        return false;
    }
    path.is_under(at)
}

// Whether one of the tokens is the lock's owner.
pub(crate) fn is_held(tree: &Edited<'_>, names: &LockNames, tokens: &[String], at: &Path) -> bool
    requires { names.now ≡ lock_names }
    ensures { result ≡ is_held tree.now (map string_bytes tokens.now) at.now }
{
    match one_text(tree.property(at, &names.owner)) {
        Some(owner) => is_among(owner, tokens),
        None => false,
    }
}

fn is_among(owner: &str, tokens: &[String]) -> bool
    ensures { result ≡ list_any (same_bytes owner.now) (map string_bytes tokens.now) }
{
    for token in tokens {
        if is_same_text(owner, token.as_str()) {
            return true;
        }
    }
    false
}

// Whether the lock of the one node covers the other, and no token is its owner.
fn bars(tree: &Edited<'_>, names: &LockNames, tokens: &[String], at: &Path, path: &Path) -> bool
    requires { names.now ≡ lock_names }
    ensures { result ≡ bars tree.now path.now (map string_bytes tokens.now) at.now }
{
    lock_covers(tree, names, at, path) && !is_held(tree, names, tokens, at)
}
