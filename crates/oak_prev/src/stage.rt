// What kind of step a splitter has due.

/// The kind of step that is due.
#[derive(Clone, Copy, PartialEq, Eq)]
pub enum Stage {
    /// The document; the previous document's write; the document's update; the previous document's removal.
    Split,
    /// A commit root, or the previous document: a reading step, which isn't counted.
    Read,
    /// Nothing more.
    Done,
}
