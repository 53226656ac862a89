// How a run ends.
ghost use Rattle.std.specs.Prelude.{◌≡◌, IfOk, string_bytes};
ghost use Rattle.serde_json.specs.Data.{string};
ghost use Rattle.serde_json.specs.Written.{compact_text};
ghost use Rattle.repo_top.specs.Statuses.{code_of, offset_text, script_line, types_line, unread_source, unscripted};
ghost use Rattle.repo_top.specs.declared.status.Unrun.TheVariants.{Memory};

use jr_io::ReadAll;
use jr_path::Text;
use jr_script::ScriptFault;
use serde_json::Value as Json;
use std::alloc::{AllocError, Global};

/// How a run ends; the number is the program's exit status.
#[derive(Clone, Copy, PartialEq, Eq)]
pub enum Status {
    /// All sessions ran to their end, or the node types are printed, and all that was written is
    /// passed on.
    Done,
    /// The words have no meaning.
    Words,
    /// The input is no script, or no text of node types.
    Script,
    /// The source failed.
    ReadFault,
    /// The sink failed.
    WriteFault,
    /// Memory was refused.
    Memory,
    /// The input is longer than 16,777,216 bytes.
    TooLong,
}

impl Status {
    /// 0 to 6, in the order of the variants.
    pub fn code(self) -> u8
        ensures { result ≡ code_of self }
    {
        match self {
            Status::Done => 0,
            Status::Words => 1,
            Status::Script => 2,
            Status::ReadFault => 3,
            Status::WriteFault => 4,
            Status::Memory => 5,
            Status::TooLong => 6,
        }
    }
}

/// Why no script is run, and no node types are printed.
#[derive(Drop)]
pub enum Unrun {
    /// The words have no meaning.
    Words,
    /// The input breaks a rule of scripts, at the place that a JSON Pointer (RFC 6901) names, and
    /// within a text that stands there at this offset.
    Script {
        rule: u8,
        pointer: Text,
        offset: Option<usize>,
    },
    /// The input is no text of node types, by its fault at this offset.
    Types(usize),
    /// The source failed.
    ReadFault,
    /// The input is longer than 16,777,216 bytes.
    TooLong,
    /// Memory was refused.
    Memory,
}

// The line of a broken script: the rule, the pointer as JSON text, and the offset, if any.
pub(crate) fn script_line(
    alloc: Global,
    rule: u8,
    pointer: &Text,
    offset: Option<usize>,
) -> Result<String, AllocError>
    ensures { IfOk result (λ line. string_bytes line ≡ script_line rule pointer.now offset) }
{
    let pointer = pointer_json(alloc, pointer)?;
    let offset = offset_text(alloc, offset)?;
    Ok(format!(in alloc; "bad script {rule} {pointer}{offset}\n")?)
}

// The line of a text of node types that has a fault at the offset.
pub(crate) fn types_line(alloc: Global, offset: usize) -> Result<String, AllocError>
    ensures { IfOk result (λ line. string_bytes line ≡ types_line offset) }
{
    Ok(format!(in alloc; "bad types {offset}\n")?)
}

// A space and the offset, where there is one.
fn offset_text(alloc: Global, offset: Option<usize>) -> Result<String, AllocError>
    ensures { IfOk result (λ text. string_bytes text ≡ offset_text offset) }
{
    match offset {
        None => Ok(String::new(alloc)),
        Some(offset) => Ok(format!(in alloc; " {offset}")?),
    }
}

fn pointer_json(alloc: Global, pointer: &Text) -> Result<String, AllocError>
    ensures { IfOk result (λ text. string_bytes text ≡ compact_text (string pointer.now)) }
{
    let json = Json::try_from_str(alloc, pointer.as_str())?;
    let text = json.to_string(alloc);
    drop(json);
    Ok(text?)
}

impl From<AllocError> for Unrun {
    ghost from_gives = { λ _ why. why ≡ Memory };

    fn from(_: AllocError) -> Unrun {
        Unrun::Memory
    }
}

impl From<ReadAll> for Unrun {
    ghost from_gives = { λ fault why. why ≡ unread_source fault };

    fn from(fault: ReadAll) -> Unrun {
        match fault {
            ReadAll::ReadFault => Unrun::ReadFault,
            ReadAll::TooLong => Unrun::TooLong,
            ReadAll::Memory => Unrun::Memory,
        }
    }
}

impl From<ScriptFault> for Unrun {
    ghost from_gives = { λ fault why. why ≡ unscripted fault };

    fn from(fault: ScriptFault) -> Unrun {
        match fault {
            ScriptFault::Bad {
                rule,
                pointer,
                offset,
            } => Unrun::Script {
                rule,
                pointer,
                offset,
            },
            ScriptFault::Memory => Unrun::Memory,
        }
    }
}
