// The nodes that an edit writes, as they stand before it and after it.
ghost use Rattle.std.specs.Prelude.{◌≡◌, IfOk, OnOk};
ghost use Rattle.std.specs.Option.{option_copied};
ghost use Rattle.jr_tree.specs.Edits.{applied};
ghost use Rattle.jr_tree.specs.Merging.{with_node_of, written_nodes};
ghost use Rattle.jr_edited.specs.Edited.{change_between, changed_between, with_change_of};

use jr_overlay::Change;
use jr_path::{DeepCopy, Keyed, Path};
use jr_tree::{Edit, Node, Tree, Write};
use std::alloc::{AllocError, Global};

type Changes = Keyed<Path, Change>;

// Copies of the nodes that are written or of which a property is.
pub(crate) fn written_nodes(
    alloc: Global,
    tree: &Tree,
    writes: &[Write],
) -> Result<Tree, AllocError>
    ensures { IfOk result (λ part. part ≡ written_nodes tree.now writes.now) }
{
    let mut part = Tree::new(alloc);
    for write in writes {
        copy_node(&mut part, tree, write.path())?;
    }
    Ok(part)
}

fn copy_node(part: &mut Tree, tree: &Tree, path: &Path) -> Result<(), AllocError>
    ensures { OnOk result (part.new ≡ with_node_of tree.now part.old path.now) }
{
    if part.has(path) {
        return Ok(());
    }
    match tree.get(path) {
        Some(node) => part.insert(path.copy()?, node.copy()?),
        None => Ok(()),
    }
}

// The tree after an edit, which is copied: for the few nodes that are written.
pub(crate) fn tree_after(tree: &Tree, edit: &Edit) -> Result<Tree, AllocError>
    ensures { IfOk result (λ after. after ≡ applied None tree.now edit.now.writes) }
{
    let mut after = tree.copy()?;
    after.apply(edit, None)?;
    Ok(after)
}

// What two trees have at each written path.
pub(crate) fn changes_between(
    alloc: Global,
    old: &Tree,
    new: &Tree,
    writes: &[Write],
) -> Result<Changes, AllocError>
    ensures { IfOk result (λ changes. changes ≡ changed_between old.now new.now writes.now) }
{
    let mut changes = Keyed::new(alloc);
    for write in writes {
        note_change(&mut changes, old, new, write.path())?;
    }
    Ok(changes)
}

fn note_change(changes: &mut Changes, old: &Tree, new: &Tree, path: &Path) -> Result<(), AllocError>
    ensures { OnOk result (changes.new ≡ with_change_of old.now new.now changes.old path.now) }
{
    if changes.contains(path) {
        return Ok(());
    }
    changes.put(path.copy()?, change_between(old, new, path)?)
}

// What two trees have at a path.
fn change_between(old: &Tree, new: &Tree, path: &Path) -> Result<Change, AllocError>
    ensures { IfOk result (λ change. change ≡ change_between old.now new.now path.now) }
{
    Ok(Change {
        old: copied(old.get(path))?,
        new: copied(new.get(path))?,
    })
}

fn copied(node: Option<&Node>) -> Result<Option<Node>, AllocError>
    ensures { IfOk result (λ copy. copy ≡ option_copied node.entry) }
{
    match node {
        Some(node) => Ok(Some(node.copy()?)),
        None => Ok(None),
    }
}
