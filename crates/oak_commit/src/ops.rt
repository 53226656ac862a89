// The updates of a commit.
ghost use Rattle.std.specs.Prelude.{◌≡◌, ◌++◌, [], IfOk, OnOk, slice_get};
ghost use Rattle.std.specs.List.{flat_map};
ghost use Rattle.std.specs.Option.{option_map_or};
ghost use Rattle.oak_clash.specs.Clashes.{commit_root};
ghost use Rattle.oak_commit.specs.Clashing.{mark_op};
ghost use Rattle.oak_commit.specs.Places.{items_at, places_of};
ghost use Rattle.oak_commit.specs.Writing as writing;

use crate::places::Places;
use jr_path::{DeepCopy, DocId, Item, Keyed, List, Path};
use jr_rev::Revision;
use jr_tree::Write;
use oak_clash::{Mark, MarkAt};
use oak_doc::{Change, Cond, UpdateOp};
use std::alloc::{AllocError, Global};

// Puts the entries of those writes of an edit that stand at the places of a path.
pub(crate) fn put_entries_at(
    changes: &mut List<Change>,
    r: Revision,
    path: &Path,
    writes: &[Write],
    places: &Places,
) -> Result<(), AllocError>
    ensures { OnOk result (changes.new ≡ changes.old
        ++ writing.entries_at r path.now (items_at writes.now (places_of places.now path.now))) }
{
    let Some(places) = places.get(path) else {
        return Ok(());
    };
    for at in places.inner() {
        put_entry_at(changes, r, path, writes, *at)?;
    }
    Ok(())
}

// Puts the entry of the write at a place of an edit.
fn put_entry_at(
    changes: &mut List<Change>,
    r: Revision,
    path: &Path,
    writes: &[Write],
    at: usize,
) -> Result<(), AllocError>
    ensures { OnOk result (changes.new ≡ changes.old
        ++ option_map_or (writing.entry_of r path.now) (slice_get writes.now at) []) }
{
    match writes.get(at) {
        Some(write) => put_entry(changes, r, path, write),
        None => Ok(()),
    }
}

// Puts the entry that a write makes in the document of a node.
fn put_entry(
    changes: &mut List<Change>,
    r: Revision,
    path: &Path,
    write: &Write,
) -> Result<(), AllocError>
    ensures { OnOk result (changes.new ≡ changes.old ++ writing.entry_of r path.now write.now) }
{
    match write {
        Write::Here(at) => {
            if path == at {
                changes.push(Change::Deleted(r, false))?;
            }
            Ok(())
        }
        Write::Gone(at) => {
            if path == at {
                changes.push(Change::Deleted(r, true))?;
            }
            Ok(())
        }
        Write::Put(at, name, value) => {
            if path == at {
                changes.push(Change::Prop(name.copy()?, r, Some(value.copy()?)))?;
            }
            Ok(())
        }
        Write::Unset(at, name) => {
            if path == at {
                changes.push(Change::Prop(name.copy()?, r, None))?;
            }
            Ok(())
        }
    }
}

// Puts the note of the commit root; the commit root itself has none.
pub(crate) fn put_rooting(
    changes: &mut List<Change>,
    r: Revision,
    path: &Path,
    root: &Path,
) -> Result<(), AllocError>
    ensures { OnOk result (changes.new ≡ changes.old ++ writing.rooting r path.now root.now) }
{
    if path == root {
        return Ok(());
    }
    let Ok(depth) = u32::try_from(root.depth()) else {
        return Err(AllocError);
    };
    changes.push(Change::CommitRoot(r, depth))
}

// Puts the notes of Touch and Guard among the marks of a node.
pub(crate) fn put_markings_of(
    changes: &mut List<Change>,
    r: Revision,
    marks: &[Mark],
) -> Result<(), AllocError>
    ensures { OnOk result (changes.new ≡ changes.old ++ flat_map (writing.marking_of r) marks.now) }
{
    for mark in marks {
        put_marking(changes, r, mark)?;
    }
    Ok(())
}

// Puts the note of a mark that is no item's.
fn put_marking(changes: &mut List<Change>, r: Revision, mark: &Mark) -> Result<(), AllocError>
    ensures { OnOk result (changes.new ≡ changes.old ++ writing.marking_of r mark.now) }
{
    match mark {
        Mark::Touch => changes.push(Change::Touched(r)),
        Mark::Guard => changes.push(Change::Guard(r)),
        Mark::Exists | Mark::Prop(_) => Ok(()),
    }
}

// The last write, which is the commit point: on the commit root, where no collision with the revision is noted.
pub(crate) fn last_op(
    alloc: Global,
    r: Revision,
    marks: &[MarkAt],
    root: &Path,
) -> Result<UpdateOp, AllocError>
    requires { root.now ≡ commit_root marks.now }
    ensures { IfOk result (λ op. op ≡ writing.last_op r marks.now) }
{
    let mut changes = List::new(alloc);
    changes.push(Change::Revisions(r))?;
    Ok(UpdateOp {
        id: DocId::Node(root.copy()?),
        create: true,
        cond: Some(Cond::NoCollision(r)),
        changes,
    })
}

// The mark of a collision with a revision in an item, on the commit root of the other revision, where that isn't
// committed.
pub(crate) fn mark_op(
    alloc: Global,
    root: &Path,
    other: Revision,
    r: Revision,
    item: &Item,
) -> Result<UpdateOp, AllocError>
    ensures { IfOk result (λ op. op ≡ mark_op root.now other r item.now) }
{
    let mut changes = List::new(alloc);
    changes.push(Change::Collision(other, r, item.copy()?))?;
    Ok(UpdateOp {
        id: DocId::Node(root.copy()?),
        create: true,
        cond: Some(Cond::NotCommitted(other)),
        changes,
    })
}

// The ids of the marked nodes' documents, each once, in store order.
pub(crate) fn written_ids(alloc: Global, marks: &[MarkAt]) -> Result<List<DocId>, AllocError>
    ensures { IfOk result (λ ids. ids ≡ writing.written_ids marks.now) }
{
    let mut marked = Keyed::new(alloc);
    for mark in marks {
        marked.put(DocId::Node(mark.path.copy()?), true)?;
    }
    let mut ids = List::new(alloc);
    for (id, _) in marked.into_inner() {
        ids.push(id)?;
    }
    Ok(ids)
}
