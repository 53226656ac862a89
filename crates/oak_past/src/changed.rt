// What the commits between two vectors change.
ghost use Rattle.std.specs.Prelude.{◌≡◌, ◌&&◌, IfOk, OnOk, is_some, map, reverse};
ghost use Rattle.std.specs.BTreeMap.{insert_entry};
ghost use Rattle.std.specs.List.{filter, fold};
ghost use Rattle.std.specs.Map.{values_of};
ghost use Rattle.jr_rev.specs.Revisions.{is_before};
ghost use Rattle.jr_rev.specs.Vectors.{sees};
ghost use Rattle.jr_tree.specs.Edits.{item_cmp, item_of};
ghost use Rattle.oak_machine.specs.Changed.{changes_between, has_item, item_change, item_changes, leaves_item, tree_below};
ghost use Rattle.oak_machine.specs.Commits.{applied_all, committed_edits};
ghost use Rattle.oak_machine.specs.History.{begin_tree};

use crate::tree::{begin_tree, committed_edits};
use jr_path::{Item, Keyed, List};
use jr_rev::{RevVec, Revision};
use jr_tree::{CommitChanges, Edit, ItemChange, Tree, Write};
use oak_machine::{Event, Start};
use std::alloc::{AllocError, Global};

/// The commits that the second vector sees and the first doesn't, in ascending order, each with its item changes: the
/// items that it wrote, in their order, and whether they were there before and are after (Oak, DocumentNodeStore:
/// Revisions). It goes over all the events again for each.
pub fn changes_between(
    alloc: Global,
    start: &Option<Start>,
    events: &[Event],
    from: &RevVec,
    to: &RevVec,
) -> Result<Vec<CommitChanges>, AllocError>
    ensures { IfOk result (λ changes. changes.items
        ≡ changes_between start.now (reverse events.now) from.now to.now) }
{
    let edits = committed_edits(alloc, events)?;
    let mut changes = Vec::new(alloc);
    for (r, writes) in edits.inner() {
        if to.sees(*r) && !from.sees(*r) {
            let change = changes_of(alloc, start, events, to, *r, writes.as_slice())?;
            changes.push(change)?;
        }
    }
    Ok(changes)
}

// What a commit changes on the tree of the commits below it that a vector sees.
fn changes_of(
    alloc: Global,
    start: &Option<Start>,
    events: &[Event],
    v: &RevVec,
    r: Revision,
    writes: &[Write],
) -> Result<CommitChanges, AllocError>
    ensures { IfOk result (λ change. change ≡ record {
      revision = r;
      changes = item_changes (tree_below start.now (reverse events.now) v.now r) writes.now;
    }) }
{
    let tree = tree_below(alloc, start, events, v, r)?;
    let changes = item_changes(alloc, &tree, writes)?;
    Ok(CommitChanges {
        revision: r,
        changes,
    })
}

// The tree of the commits below a revision that a vector sees.
fn tree_below(
    alloc: Global,
    start: &Option<Start>,
    events: &[Event],
    v: &RevVec,
    r: Revision,
) -> Result<Tree, AllocError>
    ensures { IfOk result (λ tree. tree ≡ tree_below start.now (reverse events.now) v.now r) }
{
    let mut tree = begin_tree(alloc, start)?;
    put_below(alloc, &mut tree, events, v, r)?;
    Ok(tree)
}

// Puts the edits of the committed revisions below another that a vector sees.
fn put_below(
    alloc: Global,
    tree: &mut Tree,
    events: &[Event],
    v: &RevVec,
    below: Revision,
) -> Result<(), AllocError>
    ensures { OnOk result (tree.new ≡ applied_all tree.old (filter
        (λ e. sees v.now e.0 && is_before e.0 below) (committed_edits (reverse events.now)))) }
{
    let edits = committed_edits(alloc, events)?;
    for (r, writes) in edits.into_inner() {
        if v.sees(r) && r < below {
            tree.apply(&Edit { writes }, Some(r))?;
        }
    }
    Ok(())
}

// The item changes of some writes on a tree, in the order of the items.
fn item_changes(
    alloc: Global,
    tree: &Tree,
    writes: &[Write],
) -> Result<List<ItemChange>, AllocError>
    ensures { IfOk result (λ changes. changes ≡ item_changes tree.now writes.now) }
{
    let mut changes = Keyed::new(alloc);
    put_changes(&mut changes, tree, writes)?;
    list_of(alloc, changes)
}

// The item changes, in the order of the items.
fn list_of(alloc: Global, changes: Keyed<Item, ItemChange>) -> Result<List<ItemChange>, AllocError>
    ensures { IfOk result (λ list. list ≡ values_of changes) }
{
    let mut list = List::new(alloc);
    for (_, change) in changes.into_inner() {
        list.push(change)?;
    }
    Ok(list)
}

// Puts the changes of some writes, each in the place of an earlier one of its item.
fn put_changes(
    changes: &mut Keyed<Item, ItemChange>,
    tree: &Tree,
    writes: &[Write],
) -> Result<(), AllocError>
    ensures { OnOk result (changes.new ≡ fold
        (λ es w. insert_entry item_cmp es (item_of w) (item_change tree.now w))
        changes.old writes.now) }
{
    for write in writes {
        put_change(changes, tree, write)?;
    }
    Ok(())
}

// Puts the change of a write in the place of an earlier one of its item.
fn put_change(
    changes: &mut Keyed<Item, ItemChange>,
    tree: &Tree,
    write: &Write,
) -> Result<(), AllocError>
    ensures { OnOk result (changes.new
        ≡ insert_entry item_cmp changes.old (item_of write.now) (item_change tree.now write.now)) }
{
    let item = write.item()?;
    let change = item_change(tree, write)?;
    changes.put(item, change)
}

// The change of the item of a write.
fn item_change(tree: &Tree, write: &Write) -> Result<ItemChange, AllocError>
    ensures { IfOk result (λ change. change ≡ item_change tree.now write.now) }
{
    Ok(ItemChange {
        item: write.item()?,
        before: has_item(tree, write),
        after: leaves_item(write),
    })
}

fn has_item(tree: &Tree, write: &Write) -> bool
    ensures { result ≡ has_item tree.now write.now }
{
    match write {
        Write::Here(path) | Write::Gone(path) => tree.has(path),
        Write::Put(path, name, _) | Write::Unset(path, name) => tree.property(path, name).is_some(),
    }
}

fn leaves_item(write: &Write) -> bool
    ensures { result ≡ leaves_item write.now }
{
    match write {
        Write::Here(_) | Write::Put(_, _, _) => true,
        Write::Gone(_) | Write::Unset(_, _) => false,
    }
}
