// What the events of a journal say of revisions.
ghost use Rattle.std.specs.Prelude.{◌≡◌, ◌↔◌, ◌&&◌, ◌||◌, IsTrue, option_map, reverse};
ghost use Rattle.std.specs.Map.Iter.{deref_pair};
ghost use Rattle.std.specs.Option.{option_copied};
ghost use Rattle.oak_machine.specs.Commits.{draw_of, is_committed, is_drawn, is_ended, is_in_base, is_in_flight, is_refused, marks_of, refusal_of};
ghost use Rattle.oak_machine.specs.Runs.{IsOpen, was_live_beside};

use crate::sessions::is_stopped;
use jr_path::Item;
use jr_rev::Revision;
use oak_clash::MarkAt;
use oak_machine::{Draw, Event};

// The draw of a revision.
#[tactic(auto, using(oak_machine::proofs::Forward::past_more))]
pub(crate) fn draw_of(events: &[Event], r: Revision) -> Option<&Draw>
    ensures { option_copied result ≡ draw_of (reverse events.now) r }
{
    let mut draw = None;
    for event in events {
        if let Event::Draw(d) = event {
            if r == d.revision {
                draw = Some(d);
            }
        }
    }
    draw
}

/// Whether a revision has ended: it is in flight no longer (Oak, Commits).
#[tactic(auto, using(oak_machine::proofs::Forward::past_more))]
pub fn is_ended(events: &[Event], r: Revision) -> bool
    ensures { result ≡ is_ended (reverse events.now) r }
{
    let mut ended = false;
    for event in events {
        if let Event::End(q) = event {
            if r == *q {
                ended = true;
            }
        }
    }
    ended
}

// Whether a revision was drawn, and has not ended.
pub(crate) fn is_in_flight(events: &[Event], r: Revision) -> bool
    ensures { result ≡ is_in_flight (reverse events.now) r }
{
    draw_of(events, r).is_some() && !is_ended(events, r)
}

/// Whether a revision was committed (Oak, Commits).
#[tactic(auto, using(oak_machine::proofs::Forward::past_more))]
pub fn is_committed(events: &[Event], r: Revision) -> bool
    ensures { result ≡ is_committed (reverse events.now) r }
{
    let mut committed = false;
    for event in events {
        if let Event::Commit(q) = event {
            if r == *q {
                committed = true;
            }
        }
    }
    committed
}

#[tactic(auto, using(oak_machine::proofs::Forward::past_more))]
fn is_refused(events: &[Event], r: Revision) -> bool
    ensures { result ≡ is_refused (reverse events.now) r }
{
    let mut refused = false;
    for event in events {
        if let Event::Refuse(q, _, _) = event {
            if r == *q {
                refused = true;
            }
        }
    }
    refused
}

/// What a revision was refused for: its item and the other revision.
#[tactic(auto, using(oak_machine::proofs::Forward::past_more))]
pub fn refusal_of(events: &[Event], r: Revision) -> Option<(&Item, &Revision)>
    ensures { option_map deref_pair result ≡ refusal_of (reverse events.now) r }
{
    let mut refusal = None;
    for event in events {
        if let Event::Refuse(q, item, other) = event {
            if r == *q {
                refusal = Some((item, other));
            }
        }
    }
    refusal
}

// Whether a revision is in flight, neither committed nor refused, and of a cluster node that wasn't stopped.
pub(crate) fn is_open(events: &[Event], r: Revision) -> bool
    ensures { IsTrue result ↔ IsOpen (reverse events.now) r }
{
    if is_stopped(events, r.cluster) {
        return false;
    }
    is_in_flight(events, r) && !is_committed(events, r) && !is_refused(events, r)
}

// The marks of a draw.
pub(crate) fn marks_of(events: &[Event], r: Revision) -> &[MarkAt]
    ensures { result.now ≡ marks_of (reverse events.now) r }
{
    match draw_of(events, r) {
        Some(draw) => draw.marks.as_slice(),
        None => &[],
    }
}

// Whether the base of a revision sees another.
pub(crate) fn is_in_base(events: &[Event], r: Revision, other: Revision) -> bool
    ensures { result ≡ is_in_base (reverse events.now) r other }
{
    match draw_of(events, r) {
        Some(draw) => draw.base.sees(other),
        None => false,
    }
}

// Whether another was committed or in flight at some moment from the draw of a revision on.
#[tactic(auto, using(crate::proofs::Live::live_more))]
pub(crate) fn was_live_beside(events: &[Event], r: Revision, other: Revision) -> bool
    ensures { result ≡ was_live_beside (reverse events.now) r other }
{
    let mut live = false;
    for at in 0..events.len() {
        live = is_live_after(&events[..at + 1], r, other, live);
    }
    live
}

// The same, after one event more.
fn is_live_after(events: &[Event], r: Revision, other: Revision, before: bool) -> bool
    ensures { let past = reverse events.now in
        result ≡ (is_drawn past r && (is_committed past other || is_in_flight past other || before)) }
{
    draw_of(events, r).is_some()
        && (is_committed(events, other) || is_in_flight(events, other) || before)
}
