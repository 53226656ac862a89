// What the commands of the cluster, queries and those of observation may be answered with, where
// the base hasn't moved.
ghost use Rattle.std.specs.Prelude.{◌≡◌, ◌↔◌, ◌+◌, ◌||◌, IfErr, IfOk, IsTrue, None, OnOk, false, reverse, slice_get};
ghost use Rattle.std.specs.Option.{option_map_or};
ghost use Rattle.jr_items.specs.Refusals.{IsTheRefusal, no_checkpoint, unsupported};
ghost use Rattle.jcr_ref.specs.Drawn.{too_many_ids};
ghost use Rattle.jcr_law.specs.State.{call_of};
ghost use Rattle.jcr_law.specs.Tasks.{split_refusal};
ghost use Rattle.jcr_past.specs.Shown.{is_refusal};
ghost use Rattle.oak_machine.specs.History.{history_of};
ghost use Rattle.jcr_eval.specs.Said.{has_in, has_out, has_sweep, is_own_node, refuses_checkpoint, refuses_id, refuses_split, says_checkpoint, says_collect, says_in, says_observe, says_out, says_recover, says_release, says_split, says_stop, says_sweep, shows_checkpoint, shows_kept};
ghost use Rattle.jcr_eval.specs.TaskCauses.{TaskCause};

use crate::events::events_says;
use crate::queries::query_says;
use jcr_call::next_id;
use jcr_law::JcrLaw;
use jcr_past::{
    before_turn, call_of, has_collection, has_found_stopped, has_in, has_kept, has_missed, has_out,
    has_pin, has_recovery, has_released, has_split, has_stop, has_sweep, is_done, is_refusal,
    is_text,
};
use jcr_ref::MAX_IDS;
use jcr_trans::Command;
use jr_items::{check_limits, check_node, no_checkpoint, over_limit, unsupported};
use jr_path::{Path, Text};
use jr_rev::RevVec;
use jr_tree::{Refusal, Tree, Who};
use oak_machine::{Event, Journal};
use oak_past::{local, published, was_stopped};
use std::alloc::{AllocError, Global};

// Whether a text is a reply to such a command, whose causes are its own.
pub(crate) fn task_says(
    alloc: Global,
    law: &JcrLaw,
    journal: &Journal,
    session: u32,
    command: &Command,
    text: &str,
) -> Result<bool, AllocError>
    ensures { IfOk result (λ b. IsTrue b
        ↔ TaskCause law.now (history_of journal.now) session command.now text.now) }
{
    match command {
        Command::BackWrite => Ok(out_says(journal, session, text)),
        Command::BackRead => in_says(alloc, journal, session, text),
        Command::Sweep => Ok(sweep_says(journal, session, text)),
        Command::Checkpoint => checkpoint_says(alloc, law, journal, session, text),
        Command::Attach(id) => refuses_checkpoint(alloc, journal, session, id, text),
        Command::Release(id) => release_says(alloc, journal, session, id, text),
        Command::Split(path) => split_says(alloc, law, journal, session, path, text),
        Command::Collect => collect_says(alloc, journal, session, text),
        Command::Stop(cluster) => any_stop_says(alloc, journal, session, *cluster, text),
        Command::Recover(cluster) => any_recover_says(alloc, journal, session, *cluster, text),
        Command::Observe(path, _, _) => observe_says(alloc, journal, session, path, text),
        Command::Events => events_says(alloc, law, journal, session, text),
        Command::Query(query, vars) => query_says(alloc, law, journal, session, query, vars, text),
        _ => Ok(false),
    }
}

// The cluster node of a session.
fn cluster_of(journal: &Journal, session: u32) -> Option<u32>
    ensures { result ≡ slice_get journal.now.sessions session }
{
    match journal.sessions.as_slice().get(session as usize) {
        Some(cluster) => Some(*cluster),
        None => None,
    }
}

fn out_says(journal: &Journal, session: u32, text: &str) -> bool
    ensures { result ≡ says_out (history_of journal.now) session text.now }
{
    match cluster_of(journal, session) {
        Some(cluster) => has_own_out(journal, session, cluster, text),
        None => false,
    }
}

// Whether the cluster node published what is shown, and at least what was its own when the command
// began.
fn has_own_out(journal: &Journal, session: u32, cluster: u32, text: &str) -> bool
    ensures { result ≡ has_out (history_of journal.now) session text.now cluster }
{
    let events = journal.events.as_slice();
    let least = local(journal, before_turn(events, session), cluster);
    has_out(events, session, cluster, least, text)
}

fn in_says(alloc: Global, journal: &Journal, session: u32, text: &str) -> Result<bool, AllocError>
    ensures { IfOk result (λ b. b ≡ says_in (history_of journal.now) session text.now) }
{
    match cluster_of(journal, session) {
        Some(cluster) => has_in(alloc, journal, session, cluster, text),
        None => Ok(false),
    }
}

fn sweep_says(journal: &Journal, session: u32, text: &str) -> bool
    ensures { result ≡ says_sweep (history_of journal.now) session text.now }
{
    match cluster_of(journal, session) {
        Some(cluster) => has_own_sweep(journal, session, cluster, text),
        None => false,
    }
}

// Whether the cluster node swept up to what is shown, and at least what it had published when the
// command began.
fn has_own_sweep(journal: &Journal, session: u32, cluster: u32, text: &str) -> bool
    ensures { result ≡ has_sweep (history_of journal.now) session text.now cluster }
{
    let events = journal.events.as_slice();
    let least = published(journal, before_turn(events, session), cluster);
    has_sweep(events, session, cluster, least, text)
}

fn checkpoint_says(
    alloc: Global,
    law: &JcrLaw,
    journal: &Journal,
    session: u32,
    text: &str,
) -> Result<bool, AllocError>
    ensures { IfOk result (λ b. b
        ≡ says_checkpoint law.now (history_of journal.now) session text.now) }
{
    let events = journal.events.as_slice();
    match call_of(alloc, law, &journal.start, events, session)? {
        Some(call) => is_checkpoint_text(alloc, events, session, &call.who, text),
        None => Ok(false),
    }
}

fn is_checkpoint_text(
    alloc: Global,
    events: &[Event],
    session: u32,
    who: &Who,
    text: &str,
) -> Result<bool, AllocError>
    ensures { IfOk result (λ b. b ≡ (shows_checkpoint (reverse events.now) session text.now who.now
        || refuses_id text.now who.now)) }
{
    let shown = shows_checkpoint(alloc, events, session, who, text)?;
    let refused = refuses_id(alloc, who, text)?;
    Ok(shown || refused)
}

fn shows_checkpoint(
    alloc: Global,
    events: &[Event],
    session: u32,
    who: &Who,
    text: &str,
) -> Result<bool, AllocError>
    ensures { IfOk result (λ b. b
        ≡ shows_checkpoint (reverse events.now) session text.now who.now) }
{
    let id = next_id(alloc, who)?;
    shows_kept(alloc, events, session, &id, &who.base, text)
}

// Whether the text shows the id of a checkpoint that was made since at the vector.
fn shows_kept(
    alloc: Global,
    events: &[Event],
    session: u32,
    id: &Text,
    v: &RevVec,
    text: &str,
) -> Result<bool, AllocError>
    ensures { IfOk result (λ b. b ≡ shows_kept (reverse events.now) session text.now id.now v.now) }
{
    let is = is_text(alloc, text, id.as_str())?;
    Ok(has_kept(events, session, id, v) && is)
}

fn refuses_id(alloc: Global, who: &Who, text: &str) -> Result<bool, AllocError>
    ensures { IfOk result (λ b. b ≡ refuses_id text.now who.now) }
{
    match check_id(alloc, who) {
        Ok(()) => Ok(false),
        Err(refusal) => is_refusal(alloc, text, &refusal),
    }
}

// A session draws one identifier more, where it hasn't drawn all.
fn check_id(alloc: Global, who: &Who) -> Result<(), Refusal>
    ensures ok { OnOk result (too_many_ids (who.now.ids + 1) ≡ None) }
    ensures err { IfErr result (IsTheRefusal (too_many_ids (who.now.ids + 1))) }
{
    if who.ids >= MAX_IDS {
        return Err(over_limit(alloc, "ids", 16_777_215));
    }
    Ok(())
}

fn refuses_checkpoint(
    alloc: Global,
    journal: &Journal,
    session: u32,
    id: &Text,
    text: &str,
) -> Result<bool, AllocError>
    ensures { IfOk result (λ b. b
        ≡ refuses_checkpoint (history_of journal.now) session id.now text.now) }
{
    let is = is_no_checkpoint(alloc, id, text)?;
    Ok(has_missed(journal.events.as_slice(), session, id) && is)
}

// Whether the text is that there is no checkpoint of that id.
fn is_no_checkpoint(alloc: Global, id: &Text, text: &str) -> Result<bool, AllocError>
    ensures { IfOk result (λ b. b ≡ is_refusal text.now (no_checkpoint id.now)) }
{
    let refusal = no_checkpoint(alloc, id.as_str());
    is_refusal(alloc, text, &refusal)
}

fn release_says(
    alloc: Global,
    journal: &Journal,
    session: u32,
    id: &Text,
    text: &str,
) -> Result<bool, AllocError>
    ensures { IfOk result (λ b. b ≡ says_release (history_of journal.now) session id.now text.now) }
{
    let events = journal.events.as_slice();
    let refused = refuses_checkpoint(alloc, journal, session, id, text)?;
    Ok((has_released(events, session, id) && is_done(text)) || refused)
}

fn split_says(
    alloc: Global,
    law: &JcrLaw,
    journal: &Journal,
    session: u32,
    path: &Path,
    text: &str,
) -> Result<bool, AllocError>
    ensures { IfOk result (λ b. b
        ≡ says_split law.now (history_of journal.now) session path.now text.now) }
{
    let shown = has_split(alloc, journal.events.as_slice(), session, path, text)?;
    let refused = refuses_split_of(alloc, law, journal, session, path, text)?;
    Ok(shown || refused)
}

// Whether the text says why the document can't be split, of the tree at the session's base.
fn refuses_split_of(
    alloc: Global,
    law: &JcrLaw,
    journal: &Journal,
    session: u32,
    path: &Path,
    text: &str,
) -> Result<bool, AllocError>
    ensures { let h = history_of journal.now in IfOk result (λ b. b ≡ option_map_or
        (λ c. refuses_split path.now text.now c.base)
        (call_of law.now h.begin h.past session) false) }
{
    match call_of(
        alloc,
        law,
        &journal.start,
        journal.events.as_slice(),
        session,
    )? {
        Some(call) => refuses_split(alloc, &call.base, path, text),
        None => Ok(false),
    }
}

fn refuses_split(alloc: Global, tree: &Tree, path: &Path, text: &str) -> Result<bool, AllocError>
    ensures { IfOk result (λ b. b ≡ refuses_split path.now text.now tree.now) }
{
    match check_split(alloc, tree, path) {
        Ok(()) => Ok(false),
        Err(refusal) => is_refusal(alloc, text, &refusal),
    }
}

// A document is split where its path is within the limits, and has a node.
fn check_split(alloc: Global, tree: &Tree, path: &Path) -> Result<(), Refusal>
    ensures ok { OnOk result (split_refusal tree.now path.now ≡ None) }
    ensures err { IfErr result (IsTheRefusal (split_refusal tree.now path.now)) }
{
    check_limits(alloc, path)?;
    check_node(alloc, tree, path)
}

fn collect_says(
    alloc: Global,
    journal: &Journal,
    session: u32,
    text: &str,
) -> Result<bool, AllocError>
    ensures { IfOk result (λ b. b ≡ says_collect (history_of journal.now) session text.now) }
{
    has_collection(alloc, journal.events.as_slice(), session, text)
}

fn any_stop_says(
    alloc: Global,
    journal: &Journal,
    session: u32,
    cluster: Option<u64>,
    text: &str,
) -> Result<bool, AllocError>
    ensures { let h = history_of journal.now in IfOk result (λ b. b
        ≡ option_map_or (λ k. says_stop h session k text.now) cluster false) }
{
    match cluster {
        Some(cluster) => stop_says(alloc, journal, session, cluster, text),
        None => Ok(false),
    }
}

fn stop_says(
    alloc: Global,
    journal: &Journal,
    session: u32,
    cluster: u64,
    text: &str,
) -> Result<bool, AllocError>
    ensures { IfOk result (λ b. b ≡ says_stop (history_of journal.now) session cluster text.now) }
{
    let events = journal.events.as_slice();
    let lacking = is_unsupported(alloc, text, "stop")?;
    let refused = is_own(journal, session, cluster) || has_found_stopped(events, session, cluster);
    Ok((has_stop(events, session, cluster) && is_done(text)) || (refused && lacking))
}

// Whether the cluster node is that of the session.
fn is_own(journal: &Journal, session: u32, cluster: u64) -> bool
    ensures { result ≡ is_own_node (history_of journal.now) session cluster }
{
    match cluster_of(journal, session) {
        Some(own) => u64::from(own) == cluster,
        None => false,
    }
}

// Whether the text is that a command of that name lacks what it needs.
fn is_unsupported(alloc: Global, text: &str, word: &str) -> Result<bool, AllocError>
    ensures { IfOk result (λ b. b ≡ is_refusal text.now (unsupported word.now)) }
{
    let refusal = unsupported(alloc, word);
    is_refusal(alloc, text, &refusal)
}

fn any_recover_says(
    alloc: Global,
    journal: &Journal,
    session: u32,
    cluster: Option<u64>,
    text: &str,
) -> Result<bool, AllocError>
    ensures { let h = history_of journal.now in IfOk result (λ b. b
        ≡ option_map_or (λ k. says_recover h session k text.now) cluster false) }
{
    match cluster {
        Some(cluster) => recover_says(alloc, journal, session, cluster, text),
        None => Ok(false),
    }
}

fn recover_says(
    alloc: Global,
    journal: &Journal,
    session: u32,
    cluster: u64,
    text: &str,
) -> Result<bool, AllocError>
    ensures { IfOk result (λ b. b
        ≡ says_recover (history_of journal.now) session cluster text.now) }
{
    let events = journal.events.as_slice();
    let lacking = is_unsupported(alloc, text, "recover")?;
    let refused = !was_stopped(before_turn(events, session), cluster) && lacking;
    Ok(has_recovery(events, session, cluster, text) || refused)
}

fn observe_says(
    alloc: Global,
    journal: &Journal,
    session: u32,
    path: &Path,
    text: &str,
) -> Result<bool, AllocError>
    ensures { IfOk result (λ b. b
        ≡ says_observe (history_of journal.now) session path.now text.now) }
{
    match check_limits(alloc, path) {
        Ok(()) => Ok(has_pin(journal.events.as_slice(), session) && is_done(text)),
        Err(refusal) => is_refusal(alloc, text, &refusal),
    }
}
