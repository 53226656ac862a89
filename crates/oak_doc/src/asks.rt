// What a reader, a committer and the background work ask of the store and of a cluster node's memory, and
// what they are answered.
use crate::{Cond, Document, Kept, UpdateOp};
use jr_path::{DocId, List};
use jr_rev::{Pin, RevVec, Revision};

/// The one operation that is due.
#[derive(Drop)]
pub enum Ask {
    /// The document of an id.
    Find(DocId),
    /// The first document after an id in store order; of all, where none is named.
    NextAfter(Option<DocId>),
    Update(UpdateOp),
    /// To drop the entries of a revision from the document that the asker lends.
    Undo(Revision),
    /// To remove the document of an id, where its `_modCount` is the number.
    RemoveIf(DocId, u64),
    Memory(MemoryAsk),
    /// Nothing more is due.
    Done,
}

/// What is asked of a cluster node's memory.
#[derive(Clone, Copy)]
pub enum MemoryAsk {
    /// To end a revision that was drawn.
    Finish(Revision),
    /// To raise the entries of the other cluster nodes: of the head, and of the sweep vector.
    Learn(RevVec, RevVec),
    /// The head, the sweep vector and the pins of a cluster node.
    Pins(u32),
    /// To end all that a stopped cluster node has drawn, and to drop its pins.
    Recover(u32),
}

/// The answer to an ask.
#[derive(Drop)]
pub enum Reply {
    /// To Find and NextAfter.
    Found(Option<Document>),
    /// To Update: the document before.
    Updated(Option<Document>),
    /// To Update: the condition was false.
    Unmet(Cond, Kept),
    /// To Update: there was no document.
    Absent,
    /// To Update: memory was refused.
    NoMemory,
    /// To Undo.
    Undone,
    /// To RemoveIf.
    Removed(RemoveOut),
    /// To Finish.
    Finished,
    /// To Learn.
    Learnt,
    /// To Pins.
    Pins {
        head: RevVec,
        sweep: RevVec,
        pins: List<Pin>,
    },
    /// To Pins: the cluster node is recovered, and keeps none.
    Gone,
    /// To Recover.
    Recovered,
}

/// How a removal ended.
#[derive(Clone, Copy)]
pub enum RemoveOut {
    Removed,
    /// The document has another `_modCount`, or the last number.
    Changed(u64),
    Absent,
}

/// How a split ended: the count of entries moved, or the numbers read and found.
#[derive(Clone, Copy)]
pub enum SplitEnd {
    Split(u64),
    Skipped(u64, u64),
}

/// What a collection did: entries pruned, documents removed, and for each document skipped its id with
/// the numbers read and found.
pub struct Collected {
    pub entries: u64,
    pub documents: u64,
    pub skipped: List<(DocId, u64, u64)>,
}

// By hand, so that its parts are let go in one call.
impl Drop for Collected {
    fn drop(self) {
        let Collected {
            entries: _,
            documents: _,
            skipped,
        } = self;
        drop(skipped);
    }
}

/// What the recovery of a stopped cluster node did (Oak, DocumentNodeStore: "Background operations", recovery).
#[derive(Clone, Copy)]
pub struct Recovered {
    /// The revision up to which the commits of the cluster node are published.
    pub upto: Revision,
    /// How many times a revision that never was committed was undone in a document.
    pub undone: u64,
}
