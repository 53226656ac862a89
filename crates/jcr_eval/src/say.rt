// Whether the law lets a text be said.
ghost use Rattle.std.specs.Prelude.{◌≡◌, ◌↔◌, cond, IfOk, IsTrue, Some, option_and_then, option_map, slice_get, string_bytes};
ghost use Rattle.oak_machine.specs.History.{history_of};
ghost use Rattle.oak_machine.specs.Sessions.{is_attached};
ghost use Rattle.jcr_view.specs.Outcomes.{is_viewed};
ghost use Rattle.jcr_law.specs.Built.{Allowed, Unsupported};
ghost use Rattle.jcr_law.specs.Law.{IsUnmoved, MaySay, SaysBy, asked_by, no_support, no_text};
ghost use Rattle.jcr_law.specs.Since.{before_turn, stop_position};
ghost use Rattle.jcr_law.specs.Tasks.{stopped_at};
ghost use Rattle.jcr_eval.specs.Causes.{AllowedCause, AnyCause, MovedCause, OwnCause, StillCause, has_committed_nothing, may_want_memory, memory_reply, stopped_reply, ViewCause};

use crate::commits::{committed_says, uncommitted_says};
use crate::moves::{move_says, vector_says};
use crate::replies::{cause_reply, is_reply, refusal_reply};
use crate::tasks::task_says;
use crate::view::view_says;
use jcr_call::is_allowed;
use jcr_law::JcrLaw;
use jcr_past::{before_turn, command_at, is_unmoved, is_unpinned, stop_position};
use jcr_trans::Command;
use jcr_view::is_viewed;
use jr_items::unsupported;
use jr_path::List;
use jr_tree::{Datum, Refusal};
use oak_machine::Journal;
use oak_past::{base_of, drawn_since, is_attached, is_committed, is_drawing};
use std::alloc::{AllocError, Global};

/// Whether the law lets a text be said as the reply of that index of a session at a journal. The
/// whole journal is gone over for each of its events.
#[tactic(auto, using(crate::proofs::Causes::says_by_command, crate::proofs::Causes::says_nothing))]
pub fn eval(
    alloc: Global,
    law: &JcrLaw,
    journal: &Journal,
    session: u32,
    index: u32,
    text: &str,
) -> Result<bool, AllocError>
    ensures { IfOk result (λ answer. IsTrue answer
        ↔ SaysBy law.now (history_of journal.now) session index text.now) }
{
    match command_at(law, session, index as usize) {
        Some(command) => may_say(alloc, law, journal, session, command, text),
        None => Ok(false),
    }
}

// Whether the law lets a text be said as a reply of a session to a command.
fn may_say(
    alloc: Global,
    law: &JcrLaw,
    journal: &Journal,
    session: u32,
    command: &Command,
    text: &str,
) -> Result<bool, AllocError>
    ensures { let h = history_of journal.now in IfOk result (λ b. IsTrue b
        ↔ MaySay law.now h session (asked_by h session command.now) text.now) }
{
    if any_says(alloc, journal, session, text)? {
        return Ok(true);
    }
    if is_asked(journal, session, command) {
        allowed_says(alloc, law, journal, session, command, text)
    } else {
        barred_says(alloc, journal, session, command, text)
    }
}

// Whether a session may run a command, as it was attached or not when the command began.
fn is_asked(journal: &Journal, session: u32, command: &Command) -> bool
    ensures { asked_by (history_of journal.now) session command.now
        ≡ cond result (Allowed command.now) (Unsupported command.now) }
{
    let before = before_turn(journal.events.as_slice(), session);
    is_allowed(is_attached(before, session), command)
}

// Whether a text is a reply that every command may have.
fn any_says(alloc: Global, journal: &Journal, session: u32, text: &str) -> Result<bool, AllocError>
    ensures { IfOk result (λ b. IsTrue b ↔ AnyCause (history_of journal.now) session text.now) }
{
    let stopped = stopped_reply(alloc, journal, session)?;
    if is_reply(stopped, text) {
        return Ok(true);
    }
    let memory = memory_reply(alloc, journal, session)?;
    Ok(is_reply(memory, text))
}

// The reply where the cluster node of a session was stopped.
fn stopped_reply(
    alloc: Global,
    journal: &Journal,
    session: u32,
) -> Result<Option<String>, AllocError>
    ensures { IfOk result (λ reply. option_map string_bytes reply
        ≡ stopped_reply (history_of journal.now) session) }
{
    match stop_of(journal, session) {
        Some(position) => stopped_text(alloc, position),
        None => Ok(None),
    }
}

// The position at which the cluster node of a session was stopped.
fn stop_of(journal: &Journal, session: u32) -> Option<usize>
    ensures { let h = history_of journal.now in result
        ≡ option_and_then (stop_position h.past) (slice_get h.sessions session) }
{
    match journal.sessions.as_slice().get(session as usize) {
        Some(cluster) => stop_position(journal.events.as_slice(), *cluster),
        None => None,
    }
}

fn stopped_text(alloc: Global, position: usize) -> Result<Option<String>, AllocError>
    ensures { IfOk result (λ reply. option_map string_bytes reply
        ≡ Some (no_text (stopped_at position))) }
{
    let refusal = stopped_at(alloc, position)?;
    refusal_reply(alloc, &refusal)
}

// The refusal where a cluster node was stopped at that position.
fn stopped_at(alloc: Global, position: usize) -> Result<Refusal, AllocError>
    ensures { IfOk result (λ refusal. refusal ≡ stopped_at position) }
{
    let mut parts = List::new(alloc);
    parts.push(Datum::Number(position as u64))?;
    Ok(Refusal { number: 14, parts })
}

// The reply where memory was wanted.
fn memory_reply(
    alloc: Global,
    journal: &Journal,
    session: u32,
) -> Result<Option<String>, AllocError>
    ensures { IfOk result (λ reply. option_map string_bytes reply
        ≡ memory_reply (history_of journal.now) session) }
{
    if may_want_memory(journal, session) {
        refusal_reply(alloc, &Refusal::memory(alloc))
    } else {
        Ok(None)
    }
}

// Whether neither the base of a session nor its cursor has moved, and nothing was committed for its
// command.
fn may_want_memory(journal: &Journal, session: u32) -> bool
    ensures { result ≡ may_want_memory (history_of journal.now) session }
{
    let events = journal.events.as_slice();
    if !is_unmoved(events, session) {
        return false;
    }
    if !is_unpinned(events, session) {
        return false;
    }
    has_committed_nothing(journal, session)
}

// Whether nothing of a session is in flight, and nothing was committed for its command.
fn has_committed_nothing(journal: &Journal, session: u32) -> bool
    ensures { result ≡ has_committed_nothing (history_of journal.now) session }
{
    let events = journal.events.as_slice();
    if is_drawing(events, session) {
        return false;
    }
    match drawn_since(events, session) {
        Some(r) => !is_committed(events, r),
        None => true,
    }
}

// Whether the base of a session hasn't moved, and a text refuses a command that isn't built or that
// the session may not run.
fn barred_says(
    alloc: Global,
    journal: &Journal,
    session: u32,
    command: &Command,
    text: &str,
) -> Result<bool, AllocError>
    ensures { IfOk result (λ b. IsTrue b ↔ (IsUnmoved (history_of journal.now) session
        × (text.now ≡ no_support command.now))) }
{
    if !is_unmoved(journal.events.as_slice(), session) {
        return Ok(false);
    }
    let reply = cause_reply(alloc, &unsupported(alloc, command.word()))?;
    Ok(is_reply(reply, text))
}

// Whether a text is a reply to a command that the session may run, beside those that every command
// may have.
fn allowed_says(
    alloc: Global,
    law: &JcrLaw,
    journal: &Journal,
    session: u32,
    command: &Command,
    text: &str,
) -> Result<bool, AllocError>
    ensures { IfOk result (λ b. IsTrue b
        ↔ AllowedCause law.now (history_of journal.now) session command.now text.now) }
{
    if moved_says(alloc, law, journal, session, command, text)? {
        return Ok(true);
    }
    unmoved_says(alloc, law, journal, session, command, text)
}

// Whether a text is a reply to a command behind the move of the base.
fn moved_says(
    alloc: Global,
    law: &JcrLaw,
    journal: &Journal,
    session: u32,
    command: &Command,
    text: &str,
) -> Result<bool, AllocError>
    ensures { IfOk result (λ b. IsTrue b
        ↔ MovedCause law.now (history_of journal.now) session command.now text.now) }
{
    if committed_says(alloc, law, journal, session, command, text)? {
        return Ok(true);
    }
    move_says(alloc, journal, session, command, text)
}

// Whether the base hasn't moved, and a text is a reply that a command may have then.
fn unmoved_says(
    alloc: Global,
    law: &JcrLaw,
    journal: &Journal,
    session: u32,
    command: &Command,
    text: &str,
) -> Result<bool, AllocError>
    ensures { let h = history_of journal.now in IfOk result (λ b. IsTrue b
        ↔ (IsUnmoved h session × StillCause law.now h session command.now text.now)) }
{
    if is_unmoved(journal.events.as_slice(), session) {
        still_says(alloc, law, journal, session, command, text)
    } else {
        Ok(false)
    }
}

// Whether a text is a reply to a command for which the base stays.
fn still_says(
    alloc: Global,
    law: &JcrLaw,
    journal: &Journal,
    session: u32,
    command: &Command,
    text: &str,
) -> Result<bool, AllocError>
    ensures { IfOk result (λ b. IsTrue b
        ↔ StillCause law.now (history_of journal.now) session command.now text.now) }
{
    if viewed_says(alloc, law, journal, session, command, text)? {
        return Ok(true);
    }
    if uncommitted_says(alloc, law, journal, session, command, text)? {
        return Ok(true);
    }
    own_says(alloc, law, journal, session, command, text)
}

// Whether the command is answered by the view, and a text is its answer.
fn viewed_says(
    alloc: Global,
    law: &JcrLaw,
    journal: &Journal,
    session: u32,
    command: &Command,
    text: &str,
) -> Result<bool, AllocError>
    ensures { IfOk result (λ b. IsTrue b ↔ (IsTrue (is_viewed command.now)
        × ViewCause law.now (history_of journal.now) session command.now text.now)) }
{
    if is_viewed(command) {
        view_says(alloc, law, journal, session, command, text)
    } else {
        Ok(false)
    }
}

// Whether a text is a reply of a command's own, beside the view's, those of commits and those
// behind the move of the base.
fn own_says(
    alloc: Global,
    law: &JcrLaw,
    journal: &Journal,
    session: u32,
    command: &Command,
    text: &str,
) -> Result<bool, AllocError>
    ensures { IfOk result (λ b. IsTrue b
        ↔ OwnCause law.now (history_of journal.now) session command.now text.now) }
{
    match command {
        Command::Head => vector_says(alloc, base_of(journal.events.as_slice(), session), text),
        _ => task_says(alloc, law, journal, session, command, text),
    }
}
