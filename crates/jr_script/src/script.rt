// Scripts, and why an input is none.
ghost use Rattle.std.specs.Prelude.{◌≡◌};
ghost use Rattle.jr_script.specs.declared.script.ScriptFault.TheVariants.{Memory};

use jcr_trans::SessionScript;
use jr_path::{List, Text};
use jr_types::Registry;
use std::alloc::AllocError;

/// What is run: a number of cluster nodes, 1 to 8; the node types, which are the built-in ones and then the script's own, in
/// order; the sessions, by number from 0 on, at most 64; and whose turn it is when, at most 1,000,000 entries, empty where
/// the sessions just run one after another.
#[derive(Drop)]
pub struct Script {
    pub clusters: u32,
    pub types: Registry,
    pub sessions: List<SessionScript>,
    pub schedule: List<Entry>,
}

/// An entry of a schedule: turns of the session that is named first, until what the entry waits for has come. A turn makes
/// one step that counts, where the session can make one. A count, the second number, is 1 to 1,000,000.
#[derive(Clone, Copy, PartialEq, Eq)]
pub enum Entry {
    /// One turn.
    Turn(u32),
    /// Turns until so many more replies are said.
    Say(u32, u32),
    /// Turns until the session's commit has drawn its revision.
    Draw(u32),
    /// Turns until the session's commit has written so many documents.
    Write(u32, u32),
    /// Turns until only the last write of the session's commit is left.
    Last(u32),
    /// One reading step, where one is due.
    Read(u32),
}

/// Why an input isn't read as a script.
#[derive(Drop)]
pub enum ScriptFault {
    /// The input breaks a rule, and no earlier one, at the place that a JSON Pointer (RFC 6901)
    /// names, and where a text stands there that breaks it, at the offset of that byte of the text.
    Bad {
        rule: u8,
        pointer: Text,
        offset: Option<usize>,
    },
    /// Memory was refused.
    Memory,
}

// The offset at which a text of types fails.
#[derive(Clone, Copy)]
pub struct TextFault {
    pub offset: usize,
}

impl From<AllocError> for ScriptFault {
    ghost from_gives = { λ _ e. e ≡ Memory };

    fn from(_: AllocError) -> ScriptFault {
        ScriptFault::Memory
    }
}
