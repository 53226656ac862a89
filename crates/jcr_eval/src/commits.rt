// What commands that commit may be answered with.
ghost use Rattle.std.specs.Prelude.{◌≡◌, ◌↔◌, cond, IfOk, IsTrue, None, Ok, Some, option_map, string_bytes};
ghost use Rattle.jr_tree.specs.Edits.{changes};
ghost use Rattle.jr_items.specs.Refusals.{clash_refusal};
ghost use Rattle.oak_machine.specs.Commits.{is_ended, refusal_of, tree_at};
ghost use Rattle.oak_machine.specs.History.{history_of};
ghost use Rattle.jcr_trans.specs.Answers.{ShowsRevision, ShowsText};
ghost use Rattle.jcr_trans.specs.Texts.{answer_text};
ghost use Rattle.jcr_version.specs.Edits.{checked_in_version};
ghost use Rattle.jcr_law.specs.Commits.{committed_answer, edit_due, version_answer};
ghost use Rattle.jcr_law.specs.Law.{no_text};
ghost use Rattle.jcr_law.specs.State.{next_id};
ghost use Rattle.jcr_call.specs.Comings.{reply_to_due};
ghost use Rattle.jcr_call.specs.Dues.{writes_due};
ghost use Rattle.jcr_call.specs.Footings.{IsAsKnown, IsOn};
ghost use Rattle.jcr_past.specs.Calls.{called};
ghost use Rattle.jcr_eval.specs.Causes.{UncommittedCause, clash_reply, committed_reply, due_reply, is_begun_there, is_seen_commit, reply_to_draw, uncommitted_reply};

use crate::replies::{cause_reply, is_reply};
use jcr_call::{Coming, Due, Footing, come, next_id, version_reply};
use jcr_law::JcrLaw;
use jcr_past::{Call, before_turn, call_of, draw_since};
use jcr_plan::Assured;
use jcr_trans::{Command, revision_reply, text_reply};
use jr_items::clash;
use jr_path::Path;
use jr_rev::Revision;
use jr_tree::changes;
use jr_types::Registry;
use oak_machine::{Draw, Journal};
use oak_past::{
    base_of, drawn_since, is_committed, is_ended, refreshed_since, refusal_of, tree_at,
};
use std::alloc::{AllocError, Global};

// Whether a text is what a command is answered with by its commit.
pub(crate) fn committed_says(
    alloc: Global,
    law: &JcrLaw,
    journal: &Journal,
    session: u32,
    command: &Command,
    text: &str,
) -> Result<bool, AllocError>
    ensures { IfOk result (λ b. IsTrue b
        ↔ (committed_reply law.now (history_of journal.now) session command.now
        ≡ Some text.now)) }
{
    let committed = committed_reply(alloc, law, journal, session, command)?;
    Ok(is_reply(committed, text))
}

// Whether a text is what a command that commits is answered with where nothing is committed.
pub(crate) fn uncommitted_says(
    alloc: Global,
    law: &JcrLaw,
    journal: &Journal,
    session: u32,
    command: &Command,
    text: &str,
) -> Result<bool, AllocError>
    ensures { IfOk result (λ b. IsTrue b
        ↔ UncommittedCause law.now (history_of journal.now) session command.now text.now) }
{
    let due = due_reply(alloc, law, journal, session, command)?;
    if is_reply(due, text) {
        return Ok(true);
    }
    let clash = clash_reply(alloc, journal, session)?;
    Ok(is_reply(clash, text))
}

// The reply where nothing was drawn for the command.
fn due_reply(
    alloc: Global,
    law: &JcrLaw,
    journal: &Journal,
    session: u32,
    command: &Command,
) -> Result<Option<String>, AllocError>
    ensures { IfOk result (λ reply. option_map string_bytes reply
        ≡ due_reply law.now (history_of journal.now) session command.now) }
{
    let events = journal.events.as_slice();
    if drawn_since(events, session).is_some() {
        return Ok(None);
    }
    match call_of(alloc, law, &journal.start, events, session)? {
        Some(call) => uncommitted_reply(alloc, &law.types, &call, command),
        None => Ok(None),
    }
}

// The reply where nothing is committed for the command.
fn uncommitted_reply(
    alloc: Global,
    types: &Registry,
    call: &Call,
    command: &Command,
) -> Result<Option<String>, AllocError>
    ensures { IfOk result (λ reply. option_map string_bytes reply
        ≡ uncommitted_reply (called types.now call.now) command.now) }
{
    match edit_due(alloc, types, call, command)? {
        Some(due) => reply_to_due(alloc, types, call, command, due),
        None => Ok(None),
    }
}

// The edit that is due for a command, or its refusal; only commands that commit have one.
fn edit_due(
    alloc: Global,
    types: &Registry,
    call: &Call,
    command: &Command,
) -> Result<Option<Due>, AllocError>
    ensures { IfOk result (λ due. option_map writes_due due
        ≡ edit_due (called types.now call.now) command.now) }
{
    match command {
        Command::Save => pending_due(call),
        _ => jcr_call::edit_due(alloc, &footing(types, call), command),
    }
}

// What a command is run on. The journal may be any, so that nothing is assured of the tree.
fn footing<'a>(types: &'a Registry, call: &'a Call) -> Footing<'a>
    ensures on { IsOn result (called types.now call.now) }
    ensures assured { IsAsKnown result (called types.now call.now) }
{
    Footing {
        types,
        who: &call.who,
        base: &call.base,
        tokens: call.state.tokens.as_slice(),
        is_tree: false,
        assured: Assured {
            typed: false,
            referring: false,
        },
    }
}

// The pending edits.
fn pending_due(call: &Call) -> Result<Option<Due>, AllocError>
    ensures { IfOk result (λ found. option_map writes_due found
        ≡ Some (Ok (changes call.now.base call.now.state.view))) }
{
    Ok(Some(Due::Edited(changes(&call.base, &call.state.view)?)))
}

// The reply by what is due.
fn reply_to_due(
    alloc: Global,
    types: &Registry,
    call: &Call,
    command: &Command,
    due: Due,
) -> Result<Option<String>, AllocError>
    ensures { IfOk result (λ reply. option_map string_bytes reply
        ≡ reply_to_due (called types.now call.now) command.now (writes_due due)) }
{
    match come(alloc, &footing(types, call), command, due)? {
        Coming::Said(text) => Ok(Some(text)),
        Coming::Planned(_, _) => Ok(None),
    }
}

// The reply where the edit is committed.
fn committed_reply(
    alloc: Global,
    law: &JcrLaw,
    journal: &Journal,
    session: u32,
    command: &Command,
) -> Result<Option<String>, AllocError>
    ensures { IfOk result (λ reply. option_map string_bytes reply
        ≡ committed_reply law.now (history_of journal.now) session command.now) }
{
    match draw_since(journal.events.as_slice(), session) {
        Some(draw) => reply_to_draw(alloc, law, journal, session, command, draw),
        None => Ok(None),
    }
}

// The reply by a draw for the command.
fn reply_to_draw(
    alloc: Global,
    law: &JcrLaw,
    journal: &Journal,
    session: u32,
    command: &Command,
    draw: &Draw,
) -> Result<Option<String>, AllocError>
    ensures { IfOk result (λ reply. option_map string_bytes reply
        ≡ reply_to_draw law.now (history_of journal.now) session command.now draw.now) }
{
    let events = journal.events.as_slice();
    if !is_seen_commit(journal, session, draw) {
        return Ok(None);
    }
    match call_of(alloc, law, &journal.start, events, session)? {
        Some(call) => answer_to_draw(alloc, &law.types, &call, journal, command, draw),
        None => Ok(None),
    }
}

// Whether a draw was made at the base at which the command of a session began.
fn is_begun_there(journal: &Journal, session: u32, draw: &Draw) -> bool
    ensures { result ≡ is_begun_there (history_of journal.now) session draw.now }
{
    let before = before_turn(journal.events.as_slice(), session);
    match base_of(before, session) {
        Some(v) => v == draw.base,
        None => false,
    }
}

// Whether a draw at the base at which the command began is committed, and the base sees it.
fn is_seen_commit(journal: &Journal, session: u32, draw: &Draw) -> bool
    ensures { result ≡ is_seen_commit (history_of journal.now) session draw.now }
{
    if !is_begun_there(journal, session, draw) {
        return false;
    }
    let events = journal.events.as_slice();
    if !is_ended(events, draw.revision) || !is_committed(events, draw.revision) {
        return false;
    }
    match refreshed_since(events, session) {
        Some(v) => v.sees(draw.revision),
        None => false,
    }
}

// What a command is answered with by its commit.
fn answer_to_draw(
    alloc: Global,
    types: &Registry,
    call: &Call,
    journal: &Journal,
    command: &Command,
    draw: &Draw,
) -> Result<Option<String>, AllocError>
    ensures { let h = history_of journal.now in IfOk result (λ reply. option_map string_bytes reply
        ≡ Some (answer_text
        (committed_answer (called types.now call.now)
        (tree_at h.begin h.past draw.now.base) draw.now.revision command.now))) }
{
    match command {
        Command::Lock(_, _) => token_reply(alloc, call),
        Command::Checkin(path) => made_reply(alloc, journal, draw, path),
        _ => made_at(alloc, &draw.revision),
    }
}

// The reply that shows the token of a lock.
fn token_reply(alloc: Global, call: &Call) -> Result<Option<String>, AllocError>
    ensures { IfOk result (λ reply. option_map string_bytes reply
        ≡ Some (answer_text (ShowsText (next_id call.now.who)))) }
{
    let token = next_id(alloc, &call.who)?;
    Ok(Some(text_reply(alloc, token.as_str())?))
}

// The reply that shows the version that a check-in made.
fn made_reply(
    alloc: Global,
    journal: &Journal,
    draw: &Draw,
    path: &Path,
) -> Result<Option<String>, AllocError>
    ensures { let h = history_of journal.now in IfOk result (λ reply. option_map string_bytes reply
        ≡ Some (answer_text
        (version_answer (checked_in_version (tree_at h.begin h.past draw.now.base) path.now)))) }
{
    let tree = tree_at(journal, &draw.base)?;
    Ok(Some(version_reply(alloc, &tree, path)?))
}

// The reply that shows a revision.
fn made_at(alloc: Global, revision: &Revision) -> Result<Option<String>, AllocError>
    ensures { IfOk result (λ reply. option_map string_bytes reply
        ≡ Some (answer_text (ShowsRevision revision.now))) }
{
    let text = revision_reply(revision);
    Ok(Some(String::from_str(alloc, text.as_str())?))
}

// The reply where the commit was refused for a clash.
fn clash_reply(alloc: Global, journal: &Journal, session: u32) -> Result<Option<String>, AllocError>
    ensures { IfOk result (λ reply. option_map string_bytes reply
        ≡ clash_reply (history_of journal.now) session) }
{
    let events = journal.events.as_slice();
    match drawn_since(events, session) {
        Some(r) => ended_clash(alloc, journal, r),
        None => Ok(None),
    }
}

// The reply that tells of the clash, by the revision that was drawn.
fn ended_clash(alloc: Global, journal: &Journal, r: Revision) -> Result<Option<String>, AllocError>
    ensures { let h = history_of journal.now in IfOk result (λ reply. option_map string_bytes reply
        ≡ cond (is_ended h.past r)
        (option_map (λ x. no_text (clash_refusal x.0 x.1)) (refusal_of h.past r)) None) }
{
    let events = journal.events.as_slice();
    if !is_ended(events, r) {
        return Ok(None);
    }
    match refusal_of(events, r) {
        Some((item, other)) => cause_reply(alloc, &clash(alloc, item, *other)),
        None => Ok(None),
    }
}
