// What kind of operation a committer has due.

/// The kind of operation that is due.
#[derive(Clone, Copy, PartialEq, Eq)]
pub enum Stage {
    /// A mark of a collision, on another's commit root.
    Mark,
    /// The write of a marked node's document.
    Write,
    /// The reading of a previous document of the one that was written; this isn't counted.
    Look,
    /// The last write, which is the commit point.
    Last,
    /// The undoing of a document.
    Undo,
    /// The end in the node's memory.
    Finish,
    /// Nothing more.
    Done,
}
