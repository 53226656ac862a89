// What commands ask of the path that they name.
ghost use Rattle.std.specs.Prelude.{◌≡◌, ◌+◌, ◌∷◌, [], IfErr, None, OnOk, length, nat_lt, sum_by};
ghost use Rattle.jr_path.specs.Names.{is_under};
ghost use Rattle.jr_items.specs.Names.{system};
ghost use Rattle.jr_items.specs.Items.{first_some};
ghost use Rattle.jr_items.specs.Refusals.{IsTheRefusal, in_system, limit_refusal, no_node, place_refusal, too_deep, too_long};

use crate::OwnName;
use crate::refusals::{no_item, over_limit, own_rule};
use jr_path::{MAX_PATH_BYTES, MAX_PATH_NAMES, Name, Path};
use jr_tree::{Refusal, Tree};
use std::alloc::Global;

/// A path has at most 64 names, and its text at most 1,024 bytes.
pub fn check_limits(alloc: Global, path: &Path) -> Result<(), Refusal>
    ensures ok { OnOk result (limit_refusal path.now ≡ None) }
    ensures err { IfErr result (IsTheRefusal (limit_refusal path.now)) }
{
    if path.depth() > MAX_PATH_NAMES {
        return Err(over_limit(alloc, "depth", 64));
    }
    if is_longer(path.names(), MAX_PATH_BYTES) {
        return Err(over_limit(alloc, "path", 1024));
    }
    Ok(())
}

// Whether the names, each after a `/`, have more bytes than these.
fn is_longer(names: &[Name], most: usize) -> bool
    ensures { result ≡ nat_lt most (sum_by (λ n. length n + 1) names.now) }
{
    match names {
        [] => false,
        [first, rest @ ..] => {
            let bytes = first.as_str().len();
            if bytes >= most {
                true
            } else {
                is_longer(rest, most - bytes - 1)
            }
        }
    }
}

/// The repository's own nodes are changed by no such command (JSR 283, 3.11 System Node).
pub fn check_not_system(alloc: Global, path: &Path) -> Result<(), Refusal>
    ensures ok { OnOk result (in_system path.now ≡ None) }
    ensures err { IfErr result (IsTheRefusal (in_system path.now)) }
{
    if is_in_system(path.names()) {
        return Err(own_rule(alloc, path));
    }
    Ok(())
}

// Whether the names are those of a path at or below `/jcr:system`.
fn is_in_system(names: &[Name]) -> bool
    ensures { result ≡ is_under names.now system }
{
    match names {
        [] => false,
        [first, ..] => OwnName::System.is(first),
    }
}

/// There is a node at the path.
pub fn check_node(alloc: Global, tree: &Tree, path: &Path) -> Result<(), Refusal>
    ensures ok { OnOk result (no_node tree.now path.now ≡ None) }
    ensures err { IfErr result (IsTheRefusal (no_node tree.now path.now)) }
{
    if !tree.has(path) {
        return Err(no_item(alloc, path));
    }
    Ok(())
}

/// What a lock or version command asks of its path: within the limits, not the repository's own, with a node.
pub fn check_place(alloc: Global, tree: &Tree, path: &Path) -> Result<(), Refusal>
    ensures ok { OnOk result (place_refusal tree.now path.now ≡ None) }
    ensures err { IfErr result (IsTheRefusal (place_refusal tree.now path.now)) }
{
    match check_open(alloc, path) {
        Ok(()) => check_node(alloc, tree, path),
        Err(refusal) => Err(refusal),
    }
}

// The path is within the limits, and not the repository's own.
fn check_open(alloc: Global, path: &Path) -> Result<(), Refusal>
    ensures ok { OnOk result (first_some (too_deep path.now ∷ too_long path.now ∷ in_system path.now ∷ []) ≡ None) }
    ensures err { IfErr result (IsTheRefusal (first_some (too_deep path.now ∷ too_long path.now ∷ in_system path.now ∷ []))) }
{
    match check_limits(alloc, path) {
        Ok(()) => check_not_system(alloc, path),
        Err(refusal) => Err(refusal),
    }
}
