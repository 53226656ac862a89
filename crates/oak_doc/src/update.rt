// What is asked of one document, and why it is refused.
ghost use Rattle.std.specs.Prelude.{◌≡◌};
ghost use Rattle.oak_doc.specs.declared.update.OpFault.TheVariants.{Memory};

use crate::PrevEntry;
use jr_path::{DocId, Item, List, Name, Text};
use jr_rev::{Pin, Revision};
use jr_value::Property;
use std::alloc::{AllocError, AllocFailed};

/// One update of one document: its changes are made together, where the condition holds.
pub struct UpdateOp {
    pub id: DocId,
    /// Whether the document is made where there is none.
    pub create: bool,
    pub cond: Option<Cond>,
    pub changes: List<Change>,
}

// By hand, so that its parts are let go in one call.
impl Drop for UpdateOp {
    fn drop(self) {
        let UpdateOp {
            id,
            create: _,
            cond: _,
            changes,
        } = self;
        drop(id);
        drop(changes);
    }
}

/// A condition on the document before the update.
#[derive(Clone, Copy)]
pub enum Cond {
    /// `_collisions` has no entry of the revision.
    NoCollision(Revision),
    /// `_revisions` has no entry of the revision.
    NotCommitted(Revision),
    /// There is a document with this `_modCount`; never true of 2^64 - 1.
    Unchanged(u64),
    /// There is a document.
    Exists,
    /// There is no document.
    Missing,
}

/// One change of a document.
pub enum Change {
    /// Sets `_deleted` of the revision.
    Deleted(Revision, bool),
    /// Sets `_commitRoot` of the revision to a depth.
    CommitRoot(Revision, u32),
    /// Commits the revision here.
    Revisions(Revision),
    /// Notes for the first revision that the second clashes with it in the item, unless one is noted.
    Collision(Revision, Revision, Item),
    /// Notes a Touch of the node by the revision.
    Touched(Revision),
    /// Notes a Guard of the node by the revision.
    Guard(Revision),
    /// Sets the property's value of the revision; None removes the property.
    Prop(Name, Revision, Option<Property>),
    /// Drops every entry of the revision but those in `_collisions`.
    Undo(Revision),
    /// Drops entries one by one.
    Prune(List<EntryKey>),
    /// Lists a previous document before those that are listed.
    List(PrevEntry),
    /// Takes the previous document of a number from the list.
    Unlist(u64),
    /// Raises the `_lastRev` entry of the revision's cluster node, 1 to 8, to it.
    LastRev(Revision),
    /// Raises the `_sweepRev` entry of the revision's cluster node, 1 to 8, to it.
    SweepRev(Revision),
    /// Keeps a checkpoint under an id, in the place of one that is there.
    Checkpoint(Text, Pin),
    /// Drops the checkpoint of an id.
    Release(Text),
    /// Copies the checkpoint of an id, where there is one, under a session's number.
    Attach(u32, Text),
    /// Drops what is kept under a session's number.
    Detach(u32),
}

// By hand, so that its parts are let go in one call.
impl Drop for Change {
    fn drop(self) {
        match self {
            Change::Deleted(_, _) => {}
            Change::CommitRoot(_, _) => {}
            Change::Revisions(_) => {}
            Change::Collision(_, _, item) => drop(item),
            Change::Touched(_) => {}
            Change::Guard(_) => {}
            Change::Prop(name, _, property) => {
                drop(name);
                drop(property);
            }
            Change::Undo(_) => {}
            Change::Prune(entry_keys) => drop(entry_keys),
            Change::List(_) => {}
            Change::Unlist(_) => {}
            Change::LastRev(_) => {}
            Change::SweepRev(_) => {}
            Change::Checkpoint(text, _) => drop(text),
            Change::Release(text) => drop(text),
            Change::Attach(_, text) => drop(text),
            Change::Detach(_) => {}
        }
    }
}

/// One entry of a document.
pub struct EntryKey {
    pub field: Field,
    pub revision: Revision,
}

// By hand, so that its parts are let go in one call.
impl Drop for EntryKey {
    fn drop(self) {
        let EntryKey { field, revision: _ } = self;
        drop(field);
    }
}

/// A field that is kept by revision.
pub enum Field {
    Deleted,
    CommitRoot,
    Revisions,
    Collisions,
    Touched,
    Guard,
    Prop(Name),
}

// By hand, so that its parts are let go in one call.
impl Drop for Field {
    fn drop(self) {
        match self {
            Field::Deleted => {}
            Field::CommitRoot => {}
            Field::Revisions => {}
            Field::Collisions => {}
            Field::Touched => {}
            Field::Guard => {}
            Field::Prop(name) => drop(name),
        }
    }
}

/// What stands against a condition: for NoCollision the entry, for Unchanged the `_modCount` found.
#[derive(Drop)]
pub enum Kept {
    Entry(Revision, Item),
    Number(u64),
    Nothing,
}

/// Why an update is refused.
#[derive(Drop)]
pub enum OpFault {
    /// The condition is false.
    Unmet(Cond, Kept),
    /// There is no document, and none is to be made.
    Absent,
    /// Memory was refused.
    Memory,
}

impl From<AllocError> for OpFault {
    ghost from_gives = { λ _ e. e ≡ Memory };

    fn from(_: AllocError) -> OpFault {
        OpFault::Memory
    }
}

impl<T: Drop> From<AllocFailed<T>> for OpFault {
    ghost from_gives = { λ _ e. e ≡ Memory };

    fn from(_: AllocFailed<T>) -> OpFault {
        OpFault::Memory
    }
}
