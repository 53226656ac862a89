// What the events of a journal say of the draw of a command, of the moves of a base and a cursor,
// and of the stop of a cluster node.
ghost use Rattle.std.specs.Prelude.{◌≡◌, reverse};
ghost use Rattle.std.specs.Option.{option_copied};
ghost use Rattle.jcr_law.specs.Since.{draw_since, is_unmoved, is_unpinned, stop_position};

use crate::came::has_pin;
use oak_machine::{Draw, Event};

/// The draw that a session made for the command that it has not answered yet (Oak, Commits).
#[tactic(auto, using(oak_machine::proofs::Forward::past_more))]
pub fn draw_since(events: &[Event], session: u32) -> Option<&Draw>
    ensures { option_copied result ≡ draw_since (reverse events.now) session }
{
    let mut drawn = None;
    for event in events {
        match event {
            Event::Login(s, _) | Event::Said(s, _, _) => {
                if *s == session {
                    drawn = None;
                }
            }
            Event::Draw(draw) => {
                if draw.session == session {
                    drawn = Some(draw);
                }
            }
            _ => {}
        }
    }
    drawn
}

/// Whether the base of the session hasn't moved since its last reply (JSR 283, 10.11.4 Refresh).
#[tactic(auto, using(oak_machine::proofs::Forward::past_more))]
pub fn is_unmoved(events: &[Event], session: u32) -> bool
    ensures { result ≡ is_unmoved (reverse events.now) session }
{
    let mut moved = false;
    for event in events {
        match event {
            Event::Login(s, _) | Event::Said(s, _, _) => {
                if *s == session {
                    moved = false;
                }
            }
            Event::Refresh(s, _) | Event::Attach(s, _) | Event::Detach(s) => {
                if *s == session {
                    moved = true;
                }
            }
            _ => {}
        }
    }
    !moved
}

/// Whether the cursor of the session hasn't moved since its last reply (JSR 283, 12 Observation).
pub fn is_unpinned(events: &[Event], session: u32) -> bool
    ensures { result ≡ is_unpinned (reverse events.now) session }
{
    !has_pin(events, session)
}

/// The position in the journal, from 0 on, at which a cluster node was stopped.
#[tactic(auto, using(oak_machine::proofs::Forward::past_more))]
pub fn stop_position(events: &[Event], cluster: u32) -> Option<usize>
    ensures { result ≡ stop_position (reverse events.now) cluster }
{
    let mut position = None;
    for at in 0..events.len() {
        if let Event::Stop(of) = &events[at] {
            if *of == cluster {
                position = Some(at);
            }
        }
    }
    position
}
