// What a round of a session does.
ghost use Rattle.std.specs.Prelude.{◌≡◌, ◌<◌};
ghost use Rattle.jr_gen.specs.Rounds.{after_round, round_at};

use crate::draws::Draws;

// A round: the one command that a session makes in it.
#[derive(Clone, Copy)]
pub(crate) enum Round {
    // Sets the property of that number of the session's node to that value.
    Set(u64, u64),
    Save,
    // Gets, of the node of that session, the property of that number.
    Get(u64, u64),
    // Moves the base to the head, and drops what is pending.
    Refresh,
}

// Draws the next round, in a script of so many sessions.
pub(crate) fn next_round(draws: &mut Draws, sessions: u64) -> Round
    requires { 0 < sessions }
    ensures round { result ≡ round_at sessions draws.old.state }
    ensures state { draws.new.state ≡ after_round draws.old.state }
{
    match draws.below(4) {
        0 => {
            let property = draws.below(8);
            Round::Set(property, draws.below(1000))
        }
        1 => Round::Save,
        2 => {
            let session = draws.below(sessions);
            Round::Get(session, draws.below(8))
        }
        _ => Round::Refresh,
    }
}
