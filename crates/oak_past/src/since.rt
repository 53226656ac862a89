// What the events of a journal say of the command that a session has not answered yet.
ghost use Rattle.std.specs.Prelude.{◌≡◌, reverse};
ghost use Rattle.oak_machine.specs.Sessions.{drawn_since, refreshed_since};

use jr_rev::{RevVec, Revision};
use oak_machine::Event;

/// The revision that a session drew for the command that it has not answered yet.
#[tactic(auto, using(oak_machine::proofs::Forward::past_more))]
pub fn drawn_since(events: &[Event], session: u32) -> Option<Revision>
    ensures { result ≡ drawn_since (reverse events.now) session }
{
    let mut drawn = None;
    for event in events {
        match event {
            Event::Login(s, _) => {
                if *s == session {
                    drawn = None;
                }
            }
            Event::Said(s, _, _) => {
                if *s == session {
                    drawn = None;
                }
            }
            Event::Draw(draw) => {
                if draw.session == session {
                    drawn = Some(draw.revision);
                }
            }
            _ => {}
        }
    }
    drawn
}

/// The vector to which the base of a session moved since its last reply.
#[tactic(auto, using(oak_machine::proofs::Forward::past_more))]
pub fn refreshed_since(events: &[Event], session: u32) -> Option<RevVec>
    ensures { result ≡ refreshed_since (reverse events.now) session }
{
    let mut refreshed = None;
    for event in events {
        match event {
            Event::Login(s, _) => {
                if *s == session {
                    refreshed = None;
                }
            }
            Event::Said(s, _, _) => {
                if *s == session {
                    refreshed = None;
                }
            }
            Event::Refresh(s, v) => {
                if *s == session {
                    refreshed = Some(*v);
                }
            }
            _ => {}
        }
    }
    refreshed
}
