// The places that commands name, and copies of nodes with one property more or less.
ghost use Rattle.std.specs.Prelude.{◌≡◌, ◌∷◌, ◌++◌, [], IfErr, IfOk, None, Ok, OnOk, Some};
ghost use Rattle.std.specs.Option.{option_copied};
ghost use Rattle.jr_overlay.specs.Drafts.{with_step};
ghost use Rattle.jr_overlay.specs.Overlays.{sighted};
ghost use Rattle.jr_items.specs.Refusals.{IsOrMemory, IsTheRefusal, no_item, out_of_memory};
ghost use Rattle.jcr_write.specs.Places.{IsDueRefusal, above, of_node, path_refusal, node_placed, with_property, without_property};

use jr_items::{check_limits, check_not_system, no_item};
use jr_overlay::Draft;
use jr_path::{DeepCopy, Name, Path};
use jr_tree::{Node, Refusal};
use jr_value::Property;
use std::alloc::{AllocError, Global};

/// The node at the place that a command names (JSR 283, 10.1 Types of Write Methods). Refused, in this order: 15 where
/// the path is too deep, 15 where it is too long, 4 where it is the repository's own, 1 where there is no node.
#[tactic(auto, using(crate::proofs::Due::refused_due, crate::proofs::Due::passed_ok, crate::proofs::Due::passed_err))]
pub fn check_place<'a>(
    alloc: Global,
    draft: &'a Draft<'_>,
    path: &Path,
) -> Result<&'a Node, Refusal>
    ensures ok { IfOk result (λ node. node_placed (sighted draft.now.sight) draft.now.steps path.now
        ≡ Ok node.now) }
    ensures err { IfErr result (IsDueRefusal
        (node_placed (sighted draft.now.sight) draft.now.steps path.now)) }
{
    match check_path(alloc, path) {
        Ok(()) => node_or_refusal(alloc, draft.node(path), path),
        Err(refusal) => Err(refusal),
    }
}

// The node, or that there is none at the path.
fn node_or_refusal<'a>(
    alloc: Global,
    node: Option<&'a Node>,
    path: &Path,
) -> Result<&'a Node, Refusal>
    ensures ok { IfOk result (λ found. option_copied node.entry ≡ Some found.now) }
    ensures err { IfErr result (IsDueRefusal (of_node path.now (option_copied node.entry) Ok)) }
{
    match node {
        Some(node) => Ok(node),
        None => Err(no_item(alloc, path)),
    }
}

/// What every command that writes asks of its path alone. Refused, in this order: 15 where the path is too deep, 15 where
/// it is too long, 4 where it is the repository's own.
#[tactic(auto, using(crate::proofs::Due::first_here, crate::proofs::Due::last_result, crate::proofs::Due::first_none))]
pub fn check_path(alloc: Global, path: &Path) -> Result<(), Refusal>
    ensures ok { OnOk result (path_refusal path.now ≡ None) }
    ensures err { IfErr result (IsTheRefusal (path_refusal path.now)) }
{
    match check_limits(alloc, path) {
        Ok(()) => check_not_system(alloc, path),
        Err(refusal) => Err(refusal),
    }
}

/// Puts a node at a path of a draft. Refused only where memory is.
pub fn put_node(
    alloc: Global,
    draft: &mut Draft<'_>,
    path: &Path,
    node: Node,
) -> Result<(), Refusal>
    ensures sight { draft.new.sight ≡ draft.old.sight }
    ensures ok { OnOk result (draft.new.steps ≡ with_step draft.old.steps path.now (Some node)) }
    ensures err { IfErr result (λ refusal. refusal ≡ out_of_memory) }
{
    match draft.put(path, Some(node)) {
        Ok(()) => Ok(()),
        Err(AllocError) => Err(Refusal::memory(alloc)),
    }
}

// There is no such item below a node.
pub(crate) fn no_item_named(alloc: Global, path: &Path, name: &Name) -> Refusal
    ensures { IsOrMemory (no_item (path.now ++ name.now ∷ [])) result }
{
    match path.child(name) {
        Ok(item) => no_item(alloc, &item),
        Err(AllocError) => Refusal::memory(alloc),
    }
}

// What was made, or want of memory.
pub(crate) fn or_memory<T>(alloc: Global, made: Result<T, AllocError>) -> Result<T, Refusal>
    ensures ok { IfOk result (λ x. made ≡ Ok x) }
    ensures err { IfErr result (λ refusal. refusal ≡ out_of_memory) }
{
    match made {
        Ok(made) => Ok(made),
        Err(AllocError) => Err(Refusal::memory(alloc)),
    }
}

/// The path of the node above; the root's is its own.
pub fn above(alloc: Global, path: &Path) -> Result<Path, AllocError>
    ensures { IfOk result (λ found. found ≡ above path.now) }
{
    match path.parent()? {
        Some(parent) => Ok(parent),
        None => Ok(Path::root(alloc)),
    }
}

/// A copy of a node with a property, in the place of one of that name. When the node was added stays.
pub fn with_property(node: &Node, name: &Name, property: Property) -> Result<Node, AllocError>
    ensures { IfOk result (λ made. made ≡ with_property node.now name.now property) }
{
    let name = name.copy()?;
    let mut made = node.copy()?;
    made.props.put(name, property)?;
    Ok(made)
}

/// A copy of a node without the property of that name.
pub fn without_property(node: &Node, name: &Name) -> Result<Node, AllocError>
    ensures { IfOk result (λ made. made ≡ without_property node.now name.now) }
{
    let mut made = node.copy()?;
    made.props.remove(name);
    Ok(made)
}
