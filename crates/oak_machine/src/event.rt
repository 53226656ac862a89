// Events and the journal of them.
use crate::Events;
use jr_path::{Item, List, Path, Text};
use jr_rev::{RevVec, Revision};
use jr_tree::{Edit, Tree};
use oak_clash::MarkAt;
use oak_doc::{Collected, SplitEnd};

/// The kinds of atomic step: one operation on one document, or on the memory of one cluster node, or one
/// reply said.
#[derive(Clone, Copy, PartialEq, Eq)]
pub enum StepKind {
    /// A session logs in.
    Login,
    /// A session's base moves to the head.
    Pin,
    /// A document is read.
    Read,
    /// A commit draws its revision.
    Draw,
    /// A commit writes a marked document.
    Write,
    /// A commit notes a collision in another's commit root.
    Mark,
    /// A commit's last write, on its commit root.
    Last,
    /// A refused commit's entries are dropped from a document.
    Undo,
    /// A revision ends.
    Finish,
    /// A background write of one document.
    Back,
    /// A cluster node learns what others published.
    Learn,
    /// A split changes a document.
    Split,
    /// A sweep changes a document.
    Sweep,
    /// The bound of a collection is taken.
    Bound,
    /// A collection changes a document.
    Collect,
    /// The document of the settings is changed.
    Settings,
    /// A reply is said.
    Say,
    /// A session ends.
    End,
    /// A cluster node is stopped.
    Stop,
    /// A stopped cluster node is recovered: a document is read, or its memory or the settings changed.
    Recover,
}

/// A commit draws its revision: its session, the base on which its edit was made, the edit and its marks.
pub struct Draw {
    pub revision: Revision,
    pub session: u32,
    pub base: RevVec,
    pub edit: Edit,
    pub marks: List<MarkAt>,
}

// By hand, so that its parts are let go in one call.
impl Drop for Draw {
    fn drop(self) {
        let Draw {
            revision: _,
            session: _,
            base: _,
            edit,
            marks,
        } = self;
        drop(edit);
        drop(marks);
    }
}

/// What a step appends to the journal. A session is named by its number from 0, a cluster node by its
/// number from 1.
pub enum Event {
    /// A session logs in at its node's head.
    Login(u32, RevVec),
    /// A session's base moves to its node's head.
    Refresh(u32, RevVec),
    /// A commit draws its revision.
    Draw(Draw),
    /// A revision is committed, by its last write.
    Commit(Revision),
    /// A revision is refused, with its own item and the revision that it meets.
    Refuse(Revision, Item, Revision),
    /// A revision that was drawn is no longer in flight.
    End(Revision),
    /// The head of a cluster node moved.
    Head(u32, RevVec),
    /// A cluster node published its revisions up to this one.
    Out(u32, Revision),
    /// A cluster node learned what others published.
    In(u32, RevVec),
    /// A cluster node swept up to this revision.
    Sweep(u32, Revision),
    /// The bound of a collection: a vector and a sweep vector.
    Bound(RevVec, RevVec),
    /// A checkpoint of this id is made at a vector.
    Checkpoint(Text, RevVec),
    /// A reader of a session is attached to the checkpoint of an id.
    Attach(u32, Text),
    /// The reader of a session is detached.
    Detach(u32),
    /// The checkpoint of an id is released.
    Release(Text),
    /// How a split that a session asked for ended.
    Split(u32, Path, SplitEnd),
    /// What a collection that a session asked for did.
    Collected(u32, Collected),
    /// A step of a session that has no event of its own.
    Went(u32, StepKind),
    /// A session's reply to its command of that index.
    Said(u32, u32, Text),
    /// A cluster node is stopped, and takes no further part.
    Stop(u32),
    /// A stopped cluster node is recovered: nothing of it is in flight any more.
    Recover(u32),
}

// By hand, so that its parts are let go in one call.
impl Drop for Event {
    fn drop(self) {
        match self {
            Event::Login(_, _) => {}
            Event::Refresh(_, _) => {}
            Event::Draw(draw) => drop(draw),
            Event::Commit(_) => {}
            Event::Refuse(_, item, _) => drop(item),
            Event::End(_) => {}
            Event::Head(_, _) => {}
            Event::Out(_, _) => {}
            Event::In(_, _) => {}
            Event::Sweep(_, _) => {}
            Event::Bound(_, _) => {}
            Event::Checkpoint(text, _) => drop(text),
            Event::Attach(_, text) => drop(text),
            Event::Detach(_) => {}
            Event::Release(text) => drop(text),
            Event::Split(_, path, _) => drop(path),
            Event::Collected(_, collected) => drop(collected),
            Event::Went(_, _) => {}
            Event::Said(_, _, text) => drop(text),
            Event::Stop(_) => {}
            Event::Recover(_) => {}
        }
    }
}

/// What a journal begins with that doesn't begin before any commit: the tree, and the vector that each
/// head has then.
pub struct Start {
    pub tree: Tree,
    pub at: RevVec,
}

// By hand, so that its parts are let go in one call.
impl Drop for Start {
    fn drop(self) {
        let Start { tree, at: _ } = self;
        drop(tree);
    }
}

/// The events in their order, with the number of cluster nodes, the cluster node of each session, and the
/// start: None means the initial tree, and that each head has the start of each cluster node.
pub struct Journal {
    pub clusters: u32,
    pub sessions: List<u32>,
    pub events: Events,
    pub start: Option<Start>,
}

// By hand, so that its parts are let go in one call.
impl Drop for Journal {
    fn drop(self) {
        let Journal {
            clusters: _,
            sessions,
            events,
            start,
        } = self;
        drop(sessions);
        drop(events);
        drop(start);
    }
}
