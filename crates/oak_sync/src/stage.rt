// What kind of operation a background write or read has due.

/// The kind of operation that is due.
#[derive(Clone, Copy, PartialEq, Eq)]
pub enum Stage {
    /// The write of a document below the root.
    Write,
    /// The write of the root's document, which publishes.
    Publish,
    /// The read of the root's document.
    Read,
    /// The learning, in the node's memory.
    Learn,
    /// Nothing more.
    Done,
}
