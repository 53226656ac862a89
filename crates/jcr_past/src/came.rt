// Which events came since a command began that is not answered yet.
ghost use Rattle.std.specs.Prelude.{◌≡◌, ◌==◌, ◌||◌, false, IfOk, reverse};
ghost use Rattle.std.specs.Option.{option_map_or};
ghost use Rattle.jr_rev.specs.Revisions.{is_at_most};
ghost use Rattle.jr_rev.specs.Vectors.{entry};
ghost use Rattle.oak_machine.specs.Heads.{published};
ghost use Rattle.oak_machine.specs.History.{history_of};
ghost use Rattle.oak_machine.specs.Sessions.{is_stop_of, since};
ghost use Rattle.jcr_law.specs.Since.{before_turn, came, detached_among, is_pinning};
ghost use Rattle.jcr_law.specs.Tasks.{finds_stopped, knows_published, misses};
ghost use Rattle.jcr_past.specs.Shown.{attaches, keeps, releases, shows_collection, shows_in, shows_out, shows_recovery, shows_split, shows_sweep};

use crate::shown::{is_collected, is_revision, is_split_end, is_vector};
use crate::turn::{before_turn, is_beginning};
use jr_path::{Path, Text};
use jr_rev::{RevVec, Revision};
use oak_machine::{Event, Journal, StepKind};
use oak_past::{is_recovered, kept_checkpoint, published, was_stopped};
use std::alloc::{AllocError, Global};

/// Whether the session moved its pin since its last reply (Oak, Observation).
#[tactic(auto, using(oak_machine::proofs::Forward::past_more))]
pub fn has_pin(events: &[Event], session: u32) -> bool
    ensures { result ≡ came session (λ earlier e. is_pinning session e) (reverse events.now) }
{
    let mut pinned = false;
    for at in 0..events.len() {
        pinned = !is_beginning(&events[at], session)
            && (is_pinning(&events[at], session) || pinned);
    }
    pinned
}

fn is_pinning(event: &Event, session: u32) -> bool
    ensures { result ≡ is_pinning session event.now }
{
    match event {
        Event::Went(of, StepKind::Pin) => *of == session,
        _ => false,
    }
}

/// Whether a step of the session on the settings found no checkpoint of that id since its last
/// reply (Oak, Checkpoints).
#[tactic(auto, using(oak_machine::proofs::Forward::past_more))]
pub fn has_missed(events: &[Event], session: u32, id: &Text) -> bool
    ensures { result ≡ came session (misses session id.now) (reverse events.now) }
{
    let mut missed = false;
    for at in 0..events.len() {
        missed = !is_beginning(&events[at], session)
            && (misses(&events[..at], &events[at], session, id) || missed);
    }
    missed
}

fn misses(earlier: &[Event], event: &Event, session: u32, id: &Text) -> bool
    ensures { result ≡ misses session id.now (reverse earlier.now) event.now }
{
    match event {
        Event::Went(of, StepKind::Settings) => {
            *of == session && kept_checkpoint(earlier, id).is_none()
        }
        _ => false,
    }
}

/// Whether a step of a stop that the session asked for found since its last reply that the cluster
/// node was stopped; its number may be one that no cluster node has.
#[tactic(auto, using(oak_machine::proofs::Forward::past_more))]
pub fn has_found_stopped(events: &[Event], session: u32, cluster: u64) -> bool
    ensures { result ≡ came session (finds_stopped session cluster) (reverse events.now) }
{
    let mut found = false;
    for at in 0..events.len() {
        found = !is_beginning(&events[at], session)
            && (finds_stopped(&events[..at], &events[at], session, cluster) || found);
    }
    found
}

fn finds_stopped(earlier: &[Event], event: &Event, session: u32, cluster: u64) -> bool
    ensures { result ≡ finds_stopped session cluster (reverse earlier.now) event.now }
{
    match event {
        Event::Went(of, StepKind::Stop) => *of == session && was_stopped(earlier, cluster),
        _ => false,
    }
}

/// Whether the cluster node was stopped since the last reply of the session; its number may be one
/// that no cluster node has.
#[tactic(auto, using(oak_machine::proofs::Forward::past_more))]
pub fn has_stop(events: &[Event], session: u32, cluster: u64) -> bool
    ensures { result ≡ came session (λ earlier e. is_stop_of cluster e) (reverse events.now) }
{
    let mut stopped = false;
    for at in 0..events.len() {
        stopped = !is_beginning(&events[at], session)
            && (is_stop_of(&events[at], cluster) || stopped);
    }
    stopped
}

fn is_stop_of(event: &Event, cluster: u64) -> bool
    ensures { result ≡ is_stop_of cluster event.now }
{
    match event {
        Event::Stop(of) => u64::from(*of) == cluster,
        _ => false,
    }
}

/// Whether the cluster node published since the last reply of the session what the text shows, and
/// at least a revision (Oak, Background Operations).
#[tactic(auto, using(oak_machine::proofs::Forward::past_more))]
pub fn has_out(events: &[Event], session: u32, cluster: u32, least: Revision, text: &str) -> bool
    ensures { result
        ≡ came session (λ earlier e. shows_out cluster least text.now e) (reverse events.now) }
{
    let mut shown = false;
    for at in 0..events.len() {
        shown = !is_beginning(&events[at], session)
            && (shows_out(&events[at], cluster, least, text) || shown);
    }
    shown
}

fn shows_out(event: &Event, cluster: u32, least: Revision, text: &str) -> bool
    ensures { result ≡ shows_out cluster least text.now event.now }
{
    match event {
        Event::Out(of, r) => *of == cluster && least <= *r && is_revision(text, r),
        _ => false,
    }
}

/// Whether the cluster node swept since the last reply of the session up to what the text shows,
/// and at least to a revision (Oak, Background Operations).
#[tactic(auto, using(oak_machine::proofs::Forward::past_more))]
pub fn has_sweep(events: &[Event], session: u32, cluster: u32, least: Revision, text: &str) -> bool
    ensures { result
        ≡ came session (λ earlier e. shows_sweep cluster least text.now e) (reverse events.now) }
{
    let mut shown = false;
    for at in 0..events.len() {
        shown = !is_beginning(&events[at], session)
            && (shows_sweep(&events[at], cluster, least, text) || shown);
    }
    shown
}

fn shows_sweep(event: &Event, cluster: u32, least: Revision, text: &str) -> bool
    ensures { result ≡ shows_sweep cluster least text.now event.now }
{
    match event {
        Event::Sweep(of, r) => *of == cluster && least <= *r && is_revision(text, r),
        _ => false,
    }
}

/// Whether the cluster node was recovered, and published since the last reply of the session what
/// the text shows; its number may be one that no cluster node has (Oak, Background Operations).
#[tactic(auto, using(oak_machine::proofs::Forward::past_more))]
pub fn has_recovery(events: &[Event], session: u32, cluster: u64, text: &str) -> bool
    ensures { result ≡ came session (shows_recovery cluster text.now) (reverse events.now) }
{
    let mut shown = false;
    for at in 0..events.len() {
        shown = !is_beginning(&events[at], session)
            && (shows_recovery(&events[..at], &events[at], cluster, text) || shown);
    }
    shown
}

fn shows_recovery(earlier: &[Event], event: &Event, cluster: u64, text: &str) -> bool
    ensures { result ≡ shows_recovery cluster text.now (reverse earlier.now) event.now }
{
    match event {
        Event::Out(of, r) => {
            u64::from(*of) == cluster && is_recovered(earlier, *of) && is_revision(text, r)
        }
        _ => false,
    }
}

/// Whether the session was attached since its last reply to the checkpoint of that id (Oak,
/// Checkpoints).
#[tactic(auto, using(oak_machine::proofs::Forward::past_more))]
pub fn has_attached(events: &[Event], session: u32, id: &Text) -> bool
    ensures { result ≡ came session (λ earlier e. attaches session id.now e) (reverse events.now) }
{
    let mut attached = false;
    for at in 0..events.len() {
        attached = !is_beginning(&events[at], session)
            && (attaches(&events[at], session, id) || attached);
    }
    attached
}

fn attaches(event: &Event, session: u32, id: &Text) -> bool
    ensures { result ≡ attaches session id.now event.now }
{
    match event {
        Event::Attach(of, other) => *of == session && other == id,
        _ => false,
    }
}

/// Whether the checkpoint of that id was released since the last reply of the session (Oak,
/// Checkpoints).
#[tactic(auto, using(oak_machine::proofs::Forward::past_more))]
pub fn has_released(events: &[Event], session: u32, id: &Text) -> bool
    ensures { result ≡ came session (λ earlier e. releases id.now e) (reverse events.now) }
{
    let mut released = false;
    for at in 0..events.len() {
        released = !is_beginning(&events[at], session) && (releases(&events[at], id) || released);
    }
    released
}

fn releases(event: &Event, id: &Text) -> bool
    ensures { result ≡ releases id.now event.now }
{
    match event {
        Event::Release(other) => other == id,
        _ => false,
    }
}

/// Whether a checkpoint of that id was made at the vector since the last reply of the session (Oak,
/// Checkpoints).
#[tactic(auto, using(oak_machine::proofs::Forward::past_more))]
pub fn has_kept(events: &[Event], session: u32, id: &Text, v: &RevVec) -> bool
    ensures { result ≡ came session (λ earlier e. keeps id.now v.now e) (reverse events.now) }
{
    let mut kept = false;
    for at in 0..events.len() {
        kept = !is_beginning(&events[at], session) && (keeps(&events[at], id, v) || kept);
    }
    kept
}

fn keeps(event: &Event, id: &Text, v: &RevVec) -> bool
    ensures { result ≡ keeps id.now v.now event.now }
{
    match event {
        Event::Checkpoint(other, w) => other == id && w == v,
        _ => false,
    }
}

/// Where the base of the session stood when it was detached since its last reply, after its base
/// moved (Oak, Checkpoints).
#[tactic(auto, using(oak_machine::proofs::Forward::past_more))]
pub fn detached_since(events: &[Event], session: u32) -> Option<RevVec>
    ensures { result ≡ detached_among (since (reverse events.now) session) session }
{
    let mut refreshed = None;
    let mut detached = None;
    for event in events {
        match event {
            Event::Said(of, _, _) | Event::Login(of, _) => {
                if *of == session {
                    refreshed = None;
                    detached = None;
                }
            }
            Event::Refresh(of, v) => {
                if *of == session {
                    refreshed = Some(*v);
                }
            }
            Event::Detach(of) => {
                if *of == session {
                    detached = refreshed;
                }
            }
            _ => {}
        }
    }
    detached
}

/// Whether the cluster node learned since the last reply of the session a vector that the text
/// shows, with what the others had published when the command began (Oak, Background Operations).
/// Memory is taken.
#[tactic(auto, using(oak_machine::proofs::Forward::past_more))]
pub fn has_in(
    alloc: Global,
    journal: &Journal,
    session: u32,
    cluster: u32,
    text: &str,
) -> Result<bool, AllocError>
    ensures { let h = history_of journal.now in IfOk result (λ shown. shown ≡ came session
        (λ earlier e. shows_in h.clusters h.begin (before_turn h.past session) cluster text.now e)
        h.past) }
{
    let events = journal.events.as_slice();
    let before = before_turn(events, session);
    let mut shown = false;
    for at in 0..events.len() {
        let here = shows_in(alloc, journal, before, &events[at], cluster, text)?;
        shown = !is_beginning(&events[at], session) && (here || shown);
    }
    Ok(shown)
}

fn shows_in(
    alloc: Global,
    journal: &Journal,
    before: &[Event],
    event: &Event,
    cluster: u32,
    text: &str,
) -> Result<bool, AllocError>
    ensures { let h = history_of journal.now in IfOk result (λ shown. shown
        ≡ shows_in h.clusters h.begin (reverse before.now) cluster text.now event.now) }
{
    match event {
        Event::In(of, v) => {
            let is = is_vector(alloc, text, v)?;
            Ok(*of == cluster && knows_published(journal, before, cluster, v) && is)
        }
        _ => Ok(false),
    }
}

// Whether a vector has of each other cluster node at least what it had published.
fn knows_published(journal: &Journal, before: &[Event], cluster: u32, v: &RevVec) -> bool
    ensures { let h = history_of journal.now in result
        ≡ knows_published h.clusters h.begin (reverse before.now) cluster v.now }
{
    let mut knows = true;
    for below in 0..journal.clusters {
        knows = knows && knows_one(journal, before, cluster, below + 1, v);
    }
    knows
}

// Whether a vector has of one other cluster node at least what it had published.
fn knows_one(journal: &Journal, before: &[Event], cluster: u32, other: u32, v: &RevVec) -> bool
    ensures { result ≡ ((other == cluster) || option_map_or
        (is_at_most (published journal.now.start (reverse before.now) other))
        (entry v.now other) false) }
{
    other == cluster || has_published(journal, before, other, v)
}

fn has_published(journal: &Journal, before: &[Event], other: u32, v: &RevVec) -> bool
    ensures { result ≡ option_map_or
        (is_at_most (published journal.now.start (reverse before.now) other))
        (entry v.now other) false }
{
    match v.get(other) {
        Some(r) => published(journal, before, other) <= r,
        None => false,
    }
}

/// Whether a split that the session asked for at the path ended since its last reply as the text
/// shows (Oak, Previous Documents). Memory is taken.
#[tactic(auto, using(oak_machine::proofs::Forward::past_more))]
pub fn has_split(
    alloc: Global,
    events: &[Event],
    session: u32,
    path: &Path,
    text: &str,
) -> Result<bool, AllocError>
    ensures { IfOk result (λ shown. shown ≡ came session
        (λ earlier e. shows_split session path.now text.now e) (reverse events.now)) }
{
    let mut shown = false;
    for at in 0..events.len() {
        let here = shows_split(alloc, &events[at], session, path, text)?;
        shown = !is_beginning(&events[at], session) && (here || shown);
    }
    Ok(shown)
}

fn shows_split(
    alloc: Global,
    event: &Event,
    session: u32,
    path: &Path,
    text: &str,
) -> Result<bool, AllocError>
    ensures { IfOk result (λ shown. shown ≡ shows_split session path.now text.now event.now) }
{
    match event {
        Event::Split(of, at, end) => {
            let is = is_split_end(alloc, text, end)?;
            Ok(*of == session && at == path && is)
        }
        _ => Ok(false),
    }
}

/// Whether a collection that the session asked for did since its last reply what the text shows
/// (Oak, Revision Garbage Collection). Memory is taken.
#[tactic(auto, using(oak_machine::proofs::Forward::past_more))]
pub fn has_collection(
    alloc: Global,
    events: &[Event],
    session: u32,
    text: &str,
) -> Result<bool, AllocError>
    ensures { IfOk result (λ shown. shown ≡ came session
        (λ earlier e. shows_collection session text.now e) (reverse events.now)) }
{
    let mut shown = false;
    for at in 0..events.len() {
        let here = shows_collection(alloc, &events[at], session, text)?;
        shown = !is_beginning(&events[at], session) && (here || shown);
    }
    Ok(shown)
}

fn shows_collection(
    alloc: Global,
    event: &Event,
    session: u32,
    text: &str,
) -> Result<bool, AllocError>
    ensures { IfOk result (λ shown. shown ≡ shows_collection session text.now event.now) }
{
    match event {
        Event::Collected(of, done) => {
            let is = is_collected(alloc, text, done)?;
            Ok(*of == session && is)
        }
        _ => Ok(false),
    }
}
