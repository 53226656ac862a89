// The tasks of a session, and what their steps answer.
use jr_path::{List, Name, Path, Text};
use jr_rev::{Pin, RevVec, Revision};
use jr_tree::{CommitChanges, Edit, Node};
use oak_clash::MarkAt;
use oak_commit::CommitEnd;
use oak_doc::{Collected, Recovered, SplitEnd};
use oak_machine::StepKind;

/// What a world is asked to do for a session, one step after another.
#[derive(Drop)]
pub enum Task {
    /// The session logs in.
    Login,
    /// The session leaves.
    End,
    /// The session's base moves to the head.
    Refresh,
    /// The node at a path is read at its base.
    Load(Path),
    /// The names of the children of a path are read at its base, with the revisions that added
    /// them.
    List(Path),
    /// An edit with its marks is committed.
    Commit(Edit, List<MarkAt>),
    /// What the session's cluster node changed is told to the documents, and last to the root,
    /// which says then that it is published (Oak, DocumentNodeStore: "Background operations").
    BackWrite,
    /// The session's cluster node learns what the root says is published.
    BackRead,
    /// Of each property of a node's document the committed entries that the session's base sees,
    /// but the latest of them, move to a previous document (Oak, DocumentNodeStore: "Previous
    /// documents").
    Split(Path),
    /// What is found in the documents of the changes of the session's cluster node, up to what it
    /// has published, is committed from then on (Oak, DocumentNodeStore: "Sweep revision").
    Sweep,
    /// What is garbage of the bound of all that is held is dropped (Oak, DocumentNodeStore:
    /// "Revision garbage collection").
    Collect,
    /// A checkpoint of that name is made at the session's base (Oak, DocumentNodeStore:
    /// "Checkpoints").
    Checkpoint(Text),
    /// The session's base moves to the checkpoint of that name, and stays there until it detaches.
    Attach(Text),
    /// The session, which is attached, leaves its checkpoint, and its base moves to the head.
    Detach,
    /// The checkpoint of that name is released.
    Release(Text),
    /// What the session observes begins at its base (JSR 283, section 12).
    Observe,
    /// The commits are read that the session's base sees and this vector, that of its cursor,
    /// doesn't, with their changes (JSR 283, 12 Observation).
    Changes(RevVec),
    /// The cluster node of that number is stopped: it takes no further part.
    Stop(u32),
    /// What the stopped cluster node of that number left is undone or published.
    Recover(u32),
}

/// How a task ends.
#[derive(Drop)]
pub enum TaskEnd {
    /// The node that was read; None where there is none.
    Node(Option<Node>),
    /// The names of the children, in ascending order, each with the revision that added the child.
    Children(List<(Name, Option<Revision>)>),
    /// The pin that the session has from a login, a refresh, an observing or a detaching on.
    Pinned(Pin),
    /// A commit has ended.
    Commit(CommitEnd),
    /// The revision up to which the cluster node's commits are published.
    Published(Revision),
    /// The head of the cluster node, which has learned.
    Learnt(RevVec),
    /// A split has ended.
    Split(SplitEnd),
    /// The revision up to which the cluster node has swept.
    Swept(Revision),
    /// What a collection did.
    Collected(Collected),
    /// The settings are changed; of a session that attached, with the pin of the checkpoint.
    Set(Option<Pin>),
    /// The settings have no checkpoint of that name.
    NoCheckpoint,
    /// The commits, in the order in which they were made, each with its changes.
    Changes(List<CommitChanges>),
    /// The cluster node is stopped.
    StopMade,
    /// The stopped cluster node is recovered.
    Recovered(Recovered),
    /// The cluster node was stopped before, by the event at this position of the journal, from 0.
    AlreadyStopped(u64),
    /// The session has left.
    Ended,
}

/// What a step answers.
#[derive(Drop)]
pub enum StepOut {
    /// The step was made, and its task goes on.
    Went(StepKind),
    /// The step was made, and its task has ended.
    Ready(TaskEnd),
    /// The session waits for the head to see what the session committed, named by an earlier
    /// revision in flight.
    Wait(Revision),
    /// Memory was refused, and it had no effect. The task has ended; a commit that has drawn turns
    /// to undoing instead.
    Memory,
    /// The session's cluster node is stopped, by the event at this position of the journal, from 0,
    /// and no step was made.
    Stopped(u64),
}
