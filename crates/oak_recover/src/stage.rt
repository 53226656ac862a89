// What kind of step a recovery has due.

/// The kind of step that is due.
#[derive(Clone, Copy, PartialEq, Eq)]
pub enum Stage {
    /// The root, or the next node document.
    Document,
    /// A commit root of what may be dead: a reading step, which isn't counted.
    Read,
    /// A dead revision is undone in the document that was read.
    Undo,
    /// The stopped node's memory.
    Memory,
    /// A document below the root is told what is published.
    Write,
    /// The root is told, which publishes.
    Publish,
    /// The settings.
    Settings,
    /// Nothing more.
    Done,
}
