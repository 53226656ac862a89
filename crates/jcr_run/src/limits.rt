// The limits of a session.

/// The greatest number of commands of a session.
pub const MOST_COMMANDS: usize = 10_000;
