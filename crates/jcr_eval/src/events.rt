// What `events` answers: the events since the session's cursor (JSR 283, 12 Observation).
ghost use Rattle.std.specs.Prelude.{◌≡◌, IfOk, bytes_eq};
ghost use Rattle.oak_machine.specs.Changed.{changes_between};
ghost use Rattle.oak_machine.specs.History.{history_of};
ghost use Rattle.jcr_observe.specs.Observed.{observed_events};
ghost use Rattle.jcr_law.specs.Queries.{events_reply, events_since};
ghost use Rattle.jcr_eval.specs.Said.{says_events, shows_events};

use jcr_call::events_reply;
use jcr_law::{Cursor, JcrLaw};
use jcr_observe::{JcrEvent, events};
use jcr_past::{call_of, has_pin};
use jr_rev::RevVec;
use oak_machine::Journal;
use oak_past::changes_between;
use std::alloc::{AllocError, Global};

pub(crate) fn events_says(
    alloc: Global,
    law: &JcrLaw,
    journal: &Journal,
    session: u32,
    text: &str,
) -> Result<bool, AllocError>
    ensures { IfOk result (λ b. b ≡ says_events law.now (history_of journal.now) session text.now) }
{
    match call_of(
        alloc,
        law,
        &journal.start,
        journal.events.as_slice(),
        session,
    )? {
        Some(call) => {
            shows_events(
                alloc,
                journal,
                session,
                text,
                &call.who.base,
                &call.state.cursor,
            )
        }
        None => Ok(false),
    }
}

// Whether the text shows the events since a cursor, with a pin moved if there is one.
fn shows_events(
    alloc: Global,
    journal: &Journal,
    session: u32,
    text: &str,
    base: &RevVec,
    cursor: &Option<Cursor>,
) -> Result<bool, AllocError>
    ensures { IfOk result (λ b. b
        ≡ shows_events (history_of journal.now) session text.now base.now cursor.now) }
{
    let is = is_events_text(alloc, journal, text, base, cursor)?;
    Ok((cursor.is_none() || has_pin(journal.events.as_slice(), session)) && is)
}

fn is_events_text(
    alloc: Global,
    journal: &Journal,
    text: &str,
    base: &RevVec,
    cursor: &Option<Cursor>,
) -> Result<bool, AllocError>
    ensures { let h = history_of journal.now in IfOk result (λ b. b
        ≡ bytes_eq text.now (events_reply (events_since h.begin h.past base.now cursor.now))) }
{
    let shown = events_since(alloc, journal, base, cursor)?;
    is_reply(alloc, text, shown.as_slice())
}

// Whether the text is `ok` with the events.
fn is_reply(alloc: Global, text: &str, shown: &[JcrEvent]) -> Result<bool, AllocError>
    ensures { IfOk result (λ b. b ≡ bytes_eq text.now (events_reply shown.now)) }
{
    let reply = events_reply(alloc, shown)?;
    Ok(text == reply.as_str())
}

// The events since a cursor that pass, up to the base; none without a cursor.
fn events_since(
    alloc: Global,
    journal: &Journal,
    base: &RevVec,
    cursor: &Option<Cursor>,
) -> Result<Vec<JcrEvent>, AllocError>
    ensures { let h = history_of journal.now in IfOk result (λ shown. shown.items
        ≡ events_since h.begin h.past base.now cursor.now) }
{
    match cursor {
        Some(cursor) => events_after(alloc, journal, base, cursor),
        None => Ok(Vec::new(alloc)),
    }
}

fn events_after(
    alloc: Global,
    journal: &Journal,
    base: &RevVec,
    cursor: &Cursor,
) -> Result<Vec<JcrEvent>, AllocError>
    ensures { let h = history_of journal.now in IfOk result (λ shown. shown.items
        ≡ observed_events cursor.now.filter
        (changes_between h.begin h.past cursor.now.at base.now)) }
{
    let past = journal.events.as_slice();
    let changes = changes_between(alloc, &journal.start, past, &cursor.at, base)?;
    events(alloc, changes.as_slice(), &cursor.filter)
}
