// What a turn of a session came to.
use jr_rev::Revision;
use oak_machine::StepKind;

/// What a turn of a session came to.
#[derive(Clone, Copy, PartialEq, Eq)]
pub enum Turn {
    /// A step of reading the tree at the base was made, which isn't counted.
    Read,
    /// A counted step of this kind was made.
    Stepped(StepKind),
    /// The reply of this index was said.
    Said(u32),
    /// No step was made: the head doesn't see yet what the session committed, for an earlier
    /// revision in flight.
    Waiting(Revision),
    /// No step was made: the session has ended.
    Ended,
    /// Memory was refused for a reply or a login: the run ends here.
    Memory,
}
