// What kind of step a collector has due.

/// The kind of step that is due.
#[derive(Clone, Copy, PartialEq, Eq)]
pub enum Stage {
    /// The root, a cluster node or the settings, for the bound.
    Bound,
    /// The next node document; its update or its removal; the removal of a previous document.
    Collect,
    /// A previous document that the node document lists: a reading step, which isn't counted.
    Read,
    /// Nothing more.
    Done,
}
