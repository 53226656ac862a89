// Documents.
ghost use Rattle.std.specs.Prelude.{◌≡◌, None};
ghost use Rattle.oak_doc.specs.Updates.{document_of};

use jr_path::{DocId, Item, Keyed, List, Name, Text};
use jr_rev::{Pin, RevVec, Revision};
use jr_value::Property;
use std::alloc::Global;

/// A document: of a node, a previous document of a node, or that of the settings (Oak, DocumentNodeStore:
/// "Node Document"). A field that a kind of document doesn't have is empty or 0.
pub struct Document {
    pub id: DocId,
    /// `_modCount`: the store's number at the last update.
    pub mod_count: u64,
    /// `_deleted`: whether the node is absent as of a revision.
    pub deleted: Keyed<Revision, bool>,
    /// `_commitRoot`: the depth of a revision's commit root; without an entry it is this document.
    pub commit_root: Keyed<Revision, u32>,
    /// `_revisions`: the revisions committed here.
    pub revisions: Keyed<Revision, ()>,
    /// `_collisions`: for a revision, that of a commit that clashes with it, and the item that they meet in.
    pub collisions: Keyed<Revision, (Revision, Item)>,
    /// `_touched`: the revisions with a Touch of the node.
    pub touched: Keyed<Revision, ()>,
    /// `_guard`: the revisions with a Guard of the node.
    pub guard: Keyed<Revision, ()>,
    /// `_lastRev`: for each cluster node, a revision up to which its changes are published.
    pub last_rev: RevVec,
    /// `_sweepRev`, of the root: for each cluster node, a revision up to which what is found is committed.
    pub sweep_rev: RevVec,
    /// `_prev`: the previous documents, newest first.
    pub prev: List<PrevEntry>,
    /// For each property its values by revision; None where it is removed.
    pub props: Keyed<Name, Keyed<Revision, Option<Property>>>,
    /// Of the settings: how many sessions there have been.
    pub sessions: u32,
    /// Of the settings: the checkpoints by id.
    pub checkpoints: Keyed<Text, Pin>,
    /// Of the settings: the attached readers by the number of their session.
    pub readers: Keyed<u32, Pin>,
}

// By hand, so that its parts are let go in one call.
impl Drop for Document {
    fn drop(self) {
        let Document {
            id,
            mod_count: _,
            deleted,
            commit_root,
            revisions,
            collisions,
            touched,
            guard,
            last_rev: _,
            sweep_rev: _,
            prev,
            props,
            sessions: _,
            checkpoints,
            readers,
        } = self;
        drop(id);
        drop(deleted);
        drop(commit_root);
        drop(revisions);
        drop(collisions);
        drop(touched);
        drop(guard);
        drop(prev);
        drop(props);
        drop(checkpoints);
        drop(readers);
    }
}

/// A previous document that a document lists: its number, and the greatest and least revision in it.
#[derive(Clone, Copy)]
pub struct PrevEntry {
    pub number: u64,
    pub high: Revision,
    pub low: Revision,
}

impl Document {
    /// A document with nothing in it. It takes no memory.
    pub fn empty(alloc: Global, id: DocId) -> Document
        ensures { result ≡ document_of None id }
    {
        Document {
            id,
            mod_count: 0,
            deleted: Keyed::new(alloc),
            commit_root: Keyed::new(alloc),
            revisions: Keyed::new(alloc),
            collisions: Keyed::new(alloc),
            touched: Keyed::new(alloc),
            guard: Keyed::new(alloc),
            last_rev: RevVec::none(),
            sweep_rev: RevVec::none(),
            prev: List::new(alloc),
            props: Keyed::new(alloc),
            sessions: 0,
            checkpoints: Keyed::new(alloc),
            readers: Keyed::new(alloc),
        }
    }
}
