// What the commands that move the base of a session may be answered with.
ghost use Rattle.std.specs.Prelude.{◌≡◌, ◌↔◌, IfOk, IsTrue, Some, option_map, string_bytes};
ghost use Rattle.oak_machine.specs.History.{history_of};
ghost use Rattle.jcr_eval.specs.Moves.{AttachCause, DetachCause, MoveCause, half_detached_reply, is_half_detached, vector_reply};

use crate::replies::{is_reply, refusal_reply};
use jcr_past::{detached_since, has_attached};
use jcr_trans::{Command, vector_reply};
use jr_path::Text;
use jr_rev::RevVec;
use jr_tree::Refusal;
use oak_machine::Journal;
use oak_past::{base_of, is_drawing, refreshed_since};
use std::alloc::{AllocError, Global};

// Whether a text is a reply to such a command behind the move of the base.
pub(crate) fn move_says(
    alloc: Global,
    journal: &Journal,
    session: u32,
    command: &Command,
    text: &str,
) -> Result<bool, AllocError>
    ensures { IfOk result (λ b. IsTrue b
        ↔ MoveCause (history_of journal.now) session command.now text.now) }
{
    match command {
        Command::Refresh(_) => {
            let events = journal.events.as_slice();
            vector_says(alloc, refreshed_since(events, session), text)
        }
        Command::Attach(id) => attach_says(alloc, journal, session, id, text),
        Command::Detach => detach_says(alloc, journal, session, text),
        _ => Ok(false),
    }
}

fn attach_says(
    alloc: Global,
    journal: &Journal,
    session: u32,
    id: &Text,
    text: &str,
) -> Result<bool, AllocError>
    ensures { IfOk result (λ b. IsTrue b
        ↔ AttachCause (history_of journal.now) session id.now text.now) }
{
    let events = journal.events.as_slice();
    if has_attached(events, session, id) {
        vector_says(alloc, base_of(events, session), text)
    } else {
        Ok(false)
    }
}

fn detach_says(
    alloc: Global,
    journal: &Journal,
    session: u32,
    text: &str,
) -> Result<bool, AllocError>
    ensures { IfOk result (λ b. IsTrue b
        ↔ DetachCause (history_of journal.now) session text.now) }
{
    let detached = detached_since(journal.events.as_slice(), session);
    if vector_says(alloc, detached, text)? {
        return Ok(true);
    }
    let half = half_detached_reply(alloc, journal, session)?;
    Ok(is_reply(half, text))
}

// The reply of a `detach` where memory was wanted behind the move of the base.
fn half_detached_reply(
    alloc: Global,
    journal: &Journal,
    session: u32,
) -> Result<Option<String>, AllocError>
    ensures { IfOk result (λ reply. option_map string_bytes reply
        ≡ half_detached_reply (history_of journal.now) session) }
{
    if is_half_detached(journal, session) {
        refusal_reply(alloc, &Refusal::memory(alloc))
    } else {
        Ok(None)
    }
}

// Whether the base of a session moved, but its checkpoint isn't left, and nothing of it is in
// flight.
fn is_half_detached(journal: &Journal, session: u32) -> bool
    ensures { result ≡ is_half_detached (history_of journal.now) session }
{
    let events = journal.events.as_slice();
    if is_drawing(events, session) {
        return false;
    }
    refreshed_since(events, session).is_some() && detached_since(events, session).is_none()
}

// Whether a text shows a vector, where there is one.
pub(crate) fn vector_says(
    alloc: Global,
    vector: Option<RevVec>,
    text: &str,
) -> Result<bool, AllocError>
    ensures { IfOk result (λ b. IsTrue b ↔ (option_map vector_reply vector ≡ Some text.now)) }
{
    match vector {
        Some(v) => shows_vector(alloc, &v, text),
        None => Ok(false),
    }
}

fn shows_vector(alloc: Global, v: &RevVec, text: &str) -> Result<bool, AllocError>
    ensures { IfOk result (λ b. IsTrue b ↔ (text.now ≡ vector_reply v.now)) }
{
    let shown = vector_reply(alloc, v)?;
    Ok(shown.as_str() == text)
}
