// What kind of operation a sweep has due.

/// The kind of operation that is due.
#[derive(Clone, Copy, PartialEq, Eq)]
pub enum Stage {
    /// The read of the root's document, which has the target.
    Root,
    /// The read of the next node's document, if there is one.
    Document,
    /// The write of the root's document, which tells how far the sweep went.
    Publish,
    /// The learning, in the node's memory.
    Learn,
    /// Nothing more.
    Done,
}
