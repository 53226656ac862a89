// What came since a command began that is not answered yet.
ghost use Rattle.std.specs.Prelude.{◌≡◌, reverse};
ghost use Rattle.jcr_law.specs.Since.{before_turn, is_beginning};

use oak_machine::Event;

// Whether a command of the session begins behind the event.
pub(crate) fn is_beginning(event: &Event, session: u32) -> bool
    ensures { result ≡ is_beginning session event.now }
{
    match event {
        Event::Said(of, _, _) | Event::Login(of, _) => *of == session,
        _ => false,
    }
}

/// The events that lay behind when the command began that the session has not answered yet.
#[tactic(auto, using(oak_machine::proofs::Forward::past_more))]
pub fn before_turn(events: &[Event], session: u32) -> &[Event]
    ensures { reverse result.now ≡ before_turn (reverse events.now) session }
{
    let mut turn = 0;
    for at in 0..events.len() {
        if is_beginning(&events[at], session) {
            turn = at + 1;
        }
    }
    &events[..turn]
}
