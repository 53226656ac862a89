// The one line that counts what came of a run.
ghost use Rattle.std.specs.Prelude.{◌≡◌, IfOk, string_bytes};
ghost use Rattle.std.specs.List.{count_by};
ghost use Rattle.jcr_law.specs.State.{is_ok_text};
ghost use Rattle.jr_gen.specs.Sizes.{commands_in};
ghost use Rattle.jr_work.specs.Places.{is_commit};
ghost use Rattle.jr_script.specs.Bounds.{IsWithin};
ghost use Rattle.repo_top.specs.Summary.{counts_of, is_ok_reply, is_no_text, is_no_reply, summary_line};

use jr_path::Text;
use jr_script::Script;
use oak_machine::Event;
use std::alloc::{AllocError, Global};

// How many events of a run are of a kind.
#[derive(Clone, Copy)]
pub(crate) struct Counts {
    // Replies that say `ok`.
    pub(crate) accepted: usize,
    // Replies that say `no`.
    pub(crate) refused: usize,
    // Commits that are made.
    pub(crate) commits: usize,
}

// How many of the events are of each kind.
pub(crate) fn counts_of(events: &[Event]) -> Counts
    ensures { result ≡ counts_of events.now }
{
    Counts {
        accepted: accepted_in(events),
        refused: refused_in(events),
        commits: commits_in(events),
    }
}

fn accepted_in(events: &[Event]) -> usize
    ensures { result ≡ count_by is_ok_reply events.now }
{
    events.iter().filter(|event| is_ok_reply(event)).count()
}

fn refused_in(events: &[Event]) -> usize
    ensures { result ≡ count_by is_no_reply events.now }
{
    events.iter().filter(|event| is_no_reply(event)).count()
}

fn commits_in(events: &[Event]) -> usize
    ensures { result ≡ count_by is_commit events.now }
{
    events.iter().filter(|event| is_commit(event)).count()
}

// The line of these counts, of a script with so many sessions and commands.
pub(crate) fn summary_line(
    alloc: Global,
    sessions: u32,
    commands: u64,
    counts: Counts,
) -> Result<String, AllocError>
    ensures { IfOk result (λ line.
        string_bytes line ≡ summary_line sessions commands counts) }
{
    let Counts {
        accepted,
        refused,
        commits,
    } = counts;
    let front = format!(in alloc; "sessions {sessions} commands {commands} ok {accepted}")?;
    Ok(format!(in alloc; "{front} refused {refused} commits {commits}\n")?)
}

// An event is a reply that accepts.
#[tactic(auto, unfolding(crate::specs::Summary::is_ok_reply))]
fn is_ok_reply(event: &Event) -> bool
    ensures { result ≡ is_ok_reply event.now }
{
    match event {
        Event::Said(_, _, text) => is_ok_text(text),
        _ => false,
    }
}

// An event is a reply that refuses.
#[tactic(auto, unfolding(crate::specs::Summary::is_no_reply))]
fn is_no_reply(event: &Event) -> bool
    ensures { result ≡ is_no_reply event.now }
{
    match event {
        Event::Said(_, _, text) => is_no_text(text),
        _ => false,
    }
}

// An event is a commit that is made.
fn is_commit(event: &Event) -> bool
    ensures { result ≡ is_commit event.now }
{
    matches!(event, Event::Commit(_))
}

// A reply says `ok`.
fn is_ok_text(text: &Text) -> bool
    ensures { result ≡ is_ok_text text.now }
{
    text.as_str().starts_with("ok")
}

// A reply says `no`.
fn is_no_text(text: &Text) -> bool
    ensures { result ≡ is_no_text text.now }
{
    text.as_str().starts_with("no")
}

// How many commands the sessions of a script have in all.
pub(crate) fn commands_of(script: &Script) -> u64
    requires { IsWithin script.now }
    ensures { result ≡ commands_in script.now.sessions }
{
    let mut commands = 0;
    for session in script.sessions.as_slice() {
        commands += session.commands.len() as u64;
    }
    commands
}
