// Whether the tree after an edit is one.
ghost use Rattle.std.specs.Prelude.{◌≡◌, IfOk, IsTrue, None, true};
ghost use Rattle.std.specs.FinMap.{is_sorted};
ghost use Rattle.std.specs.List.{list_all};
ghost use Rattle.jr_path.specs.Names.{path_cmp};
ghost use Rattle.jr_tree.specs.Edits.{applied, item_of};
ghost use Rattle.jr_tree.specs.Trees.{IsTree, Nodes, has_names_in_order, has_parent};
ghost use Rattle.jcr_law.specs.Proper.{is_tree};
ghost use Rattle.jcr_call.specs.Rooted.{is_rooted};

use jr_edited::Edited;
use jr_path::Path;
use jr_tree::{Tree, Write};
use std::alloc::{AllocError, Global};

// Whether the tree after writes is one. Where the tree before is known to be one, it looks only at
// what is written.
pub(crate) fn leaves_tree(
    alloc: Global,
    known: bool,
    tree: &Edited<'_>,
    writes: &[Write],
) -> Result<bool, AllocError>
    ensures { (t : Nodes) → tree.now ≡ applied None t writes.now → (IsTrue known → IsTree t)
        → IfOk result (λ b. b ≡ is_tree tree.now) }
{
    if !known {
        return is_tree(alloc, tree);
    }
    keeps_tree(alloc, tree, writes)
}

// Whether the root stays, and what is written leaves no node without its parent.
fn keeps_tree(alloc: Global, tree: &Edited<'_>, writes: &[Write]) -> Result<bool, AllocError>
    ensures { (t : Nodes) → tree.now ≡ applied None t writes.now → IsTree t
        → IfOk result (λ b. b ≡ is_tree tree.now) }
{
    if !tree.has(&Path::root(alloc)) {
        return Ok(false);
    }
    are_rooted(tree, writes)
}

fn are_rooted(tree: &Edited<'_>, writes: &[Write]) -> Result<bool, AllocError>
    ensures { IfOk result (λ b. b
        ≡ list_all (λ w. is_rooted tree.now (item_of w).path) writes.now) }
{
    for write in writes {
        if !is_rooted(tree, write.path())? {
            return Ok(false);
        }
    }
    Ok(true)
}

// Whether the node at a path stands with its parent, or doesn't stand, and none right below it
// does.
fn is_rooted(tree: &Edited<'_>, path: &Path) -> Result<bool, AllocError>
    ensures { IfOk result (λ b. b ≡ is_rooted tree.now path.now) }
{
    if tree.has(path) {
        return has_parent(tree, path);
    }
    let names = tree.children(path)?;
    Ok(names.is_empty())
}

// Whether the root is there, and the parent of each node; paths and names stand in order by
// themselves.
fn is_tree(alloc: Global, tree: &Edited<'_>) -> Result<bool, AllocError>
    ensures { IfOk result (λ b. b ≡ is_tree tree.now) }
{
    if !tree.has(&Path::root(alloc)) {
        return Ok(false);
    }
    let whole = tree.tree()?;
    know_order(&whole);
    let rooted = have_parents(tree, &whole);
    drop(whole);
    rooted
}

// A tree's paths stand in order, and so do the names of each node's properties. The call does
// nothing: callers learn the facts.
fn know_order(tree: &Tree)
    ensures paths { is_sorted path_cmp tree.now ≡ true }
    ensures names { has_names_in_order tree.now ≡ true }
{
    let _ = tree.len();
    for (_, node) in tree.iter() {
        let _ = node.props.len();
    }
}

// Whether the parent of each node is there.
fn have_parents(tree: &Edited<'_>, whole: &Tree) -> Result<bool, AllocError>
    requires { whole.now ≡ tree.now }
    ensures { IfOk result (λ b. b ≡ list_all (λ e. has_parent tree.now e.0) tree.now) }
{
    for (path, _) in whole.iter() {
        if !has_parent(tree, path)? {
            return Ok(false);
        }
    }
    Ok(true)
}

// Whether the node above a path is there; the root needs none.
fn has_parent(tree: &Edited<'_>, path: &Path) -> Result<bool, AllocError>
    ensures { IfOk result (λ b. b ≡ has_parent tree.now path.now) }
{
    match path.parent()? {
        Some(parent) => Ok(tree.has(&parent)),
        None => Ok(true),
    }
}
