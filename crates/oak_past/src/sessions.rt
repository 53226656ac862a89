// What the events of a journal say of a session, and of checkpoints.
ghost use Rattle.std.specs.Prelude.{◌≡◌, reverse};
ghost use Rattle.std.specs.List.{list_any};
ghost use Rattle.oak_machine.specs.Runs.{is_bound};
ghost use Rattle.oak_machine.specs.Sessions.{base_of, has_left, has_login, has_reader, is_attached, is_drawing, is_recovered, is_stopped, kept_checkpoint, last_checkpoint, next_index, since};

use crate::past::is_ended;
use jr_path::Text;
use jr_rev::RevVec;
use oak_machine::{Event, StepKind};

#[tactic(auto, using(oak_machine::proofs::Forward::past_more))]
pub(crate) fn has_login(events: &[Event], session: u32) -> bool
    ensures { result ≡ has_login (reverse events.now) session }
{
    let mut login = false;
    for event in events {
        if let Event::Login(of, _) = event {
            if *of == session {
                login = true;
            }
        }
    }
    login
}

#[tactic(auto, using(oak_machine::proofs::Forward::past_more))]
pub(crate) fn has_left(events: &[Event], session: u32) -> bool
    ensures { result ≡ has_left (reverse events.now) session }
{
    let mut left = false;
    for event in events {
        if let Event::Went(of, StepKind::End) = event {
            if *of == session {
                left = true;
            }
        }
    }
    left
}

/// The vector of the checkpoint of that id that was made last (Oak, Checkpoints).
#[tactic(auto, using(oak_machine::proofs::Forward::past_more))]
pub fn last_checkpoint(events: &[Event], id: &Text) -> Option<RevVec>
    ensures { result ≡ last_checkpoint (reverse events.now) id.now }
{
    let mut last = None;
    for event in events {
        if let Event::Checkpoint(other, vector) = event {
            if other == id {
                last = Some(*vector);
            }
        }
    }
    last
}

/// The checkpoint of that id, where it was not released since (Oak, Checkpoints).
#[tactic(auto, using(oak_machine::proofs::Forward::past_more))]
pub fn kept_checkpoint(events: &[Event], id: &Text) -> Option<RevVec>
    ensures { result ≡ kept_checkpoint (reverse events.now) id.now }
{
    let mut kept = None;
    for event in events {
        match event {
            Event::Checkpoint(other, vector) => {
                if other == id {
                    kept = Some(*vector);
                }
            }
            Event::Release(other) => {
                if other == id {
                    kept = None;
                }
            }
            _ => {}
        }
    }
    kept
}

/// The base of a session: the vector of its latest login, refresh or attachment (JSR 283, 10.11.4 Refresh).
#[tactic(auto, using(oak_machine::proofs::Forward::past_more))]
pub fn base_of(events: &[Event], session: u32) -> Option<RevVec>
    ensures { result ≡ base_of (reverse events.now) session }
{
    let mut base = None;
    for at in 0..events.len() {
        match &events[at] {
            Event::Login(of, vector) | Event::Refresh(of, vector) => {
                if *of == session {
                    base = Some(*vector);
                }
            }
            Event::Attach(of, id) => {
                if *of == session {
                    base = last_checkpoint(&events[..at], id);
                }
            }
            _ => {}
        }
    }
    base
}

/// Whether a session is attached to a checkpoint: the latest of these events of a session is an attachment
/// (Oak, Checkpoints).
#[tactic(auto, using(oak_machine::proofs::Forward::past_more))]
pub fn is_attached(events: &[Event], session: u32) -> bool
    ensures { result ≡ is_attached (reverse events.now) session }
{
    let mut attached = false;
    for event in events {
        match event {
            Event::Login(of, _) | Event::Refresh(of, _) => {
                if *of == session {
                    attached = false;
                }
            }
            Event::Attach(of, _) => {
                if *of == session {
                    attached = true;
                }
            }
            _ => {}
        }
    }
    attached
}

// Whether a session has a reader that was not detached since.
#[tactic(auto, using(oak_machine::proofs::Forward::past_more))]
pub(crate) fn has_reader(events: &[Event], session: u32) -> bool
    ensures { result ≡ has_reader (reverse events.now) session }
{
    let mut reader = false;
    for event in events {
        match event {
            Event::Attach(of, _) => {
                if *of == session {
                    reader = true;
                }
            }
            Event::Detach(of) => {
                if *of == session {
                    reader = false;
                }
            }
            _ => {}
        }
    }
    reader
}

/// Whether a draw of a session is in flight.
#[tactic(auto, using(oak_machine::proofs::Forward::past_more))]
pub fn is_drawing(events: &[Event], session: u32) -> bool
    ensures { result ≡ is_drawing (reverse events.now) session }
{
    let mut drawing = false;
    for event in events {
        if let Event::Draw(draw) = event {
            if draw.session == session && !is_ended(events, draw.revision) {
                drawing = true;
            }
        }
    }
    drawing
}

// Whether a cluster node was stopped.
pub(crate) fn is_stopped(events: &[Event], cluster: u32) -> bool
    ensures { result ≡ is_stopped (reverse events.now) cluster }
{
    was_stopped(events, u64::from(cluster))
}

/// Whether a cluster node was stopped; its number may be one that no cluster node has.
#[tactic(auto, using(oak_machine::proofs::Forward::past_more))]
pub fn was_stopped(events: &[Event], cluster: u64) -> bool
    ensures { result ≡ is_stopped (reverse events.now) cluster }
{
    let mut stopped = false;
    for event in events {
        if let Event::Stop(of) = event {
            if u64::from(*of) == cluster {
                stopped = true;
            }
        }
    }
    stopped
}

/// Whether a cluster node was recovered.
#[tactic(auto, using(oak_machine::proofs::Forward::past_more))]
pub fn is_recovered(events: &[Event], cluster: u32) -> bool
    ensures { result ≡ is_recovered (reverse events.now) cluster }
{
    let mut recovered = false;
    for event in events {
        if let Event::Recover(of) = event {
            if *of == cluster {
                recovered = true;
            }
        }
    }
    recovered
}

/// The index of the next reply of a session, from 0.
#[tactic(auto, using(oak_machine::proofs::Forward::past_more))]
pub fn next_index(events: &[Event], session: u32) -> usize
    ensures { result ≡ next_index (reverse events.now) session }
{
    let mut count = 0;
    for event in events {
        if let Event::Said(of, _, _) = event {
            if *of == session {
                count += 1;
            }
        }
    }
    count
}

// Whether a bound was taken since the last reply of a session, or since its login.
#[tactic(auto, using(oak_machine::proofs::Forward::past_more))]
pub(crate) fn has_bound_since(events: &[Event], session: u32) -> bool
    ensures { result ≡ list_any is_bound (since (reverse events.now) session) }
{
    let mut bound = false;
    for event in events {
        match event {
            Event::Said(of, _, _) | Event::Login(of, _) => {
                if *of == session {
                    bound = false;
                }
            }
            Event::Bound(_, _) => bound = true,
            _ => {}
        }
    }
    bound
}
