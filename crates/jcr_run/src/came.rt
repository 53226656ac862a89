// Where a session stands behind a step of a split or a collection.
ghost use Rattle.std.specs.Prelude.{◌≡◌};
ghost use Rattle.jcr_steps.specs.declared.tidying.TidyCame.TheVariants as comes;
ghost use Rattle.jcr_run.specs.Came.{going_turn, last_turn, phase_told, split_turn, turn_told};
ghost use Rattle.jcr_run.specs.Standing.{IsGranted};

use crate::{Phase, SessionRun, Turn};
use jcr_steps::{Tidied, TidyCame};
use oak_machine::StepKind;

/// A session goes on behind a step of a split or a collection that wasn't refused memory, by what
/// it came to; the turn tells whether a reading step was due.
pub fn come_on(run: &mut SessionRun, came: TidyCame, reads: bool) -> Turn
    requires made { ¬ (came ≡ comes.Refused) }
    ensures turn { result ≡ turn_told reads came }
    ensures run { run.new ≡ record run.old { phase = phase_told came } }
    ensures granted { IsGranted result }
{
    match came {
        TidyCame::Going(kind) => {
            run.phase = Phase::Tidying;
            going_turn(kind)
        }
        TidyCame::Ended(ended) => {
            let turn = last_turn(reads, &ended);
            run.phase = Phase::Tidied(ended);
            turn
        }
        TidyCame::Refused => unreachable!(),
    }
}

// The turn in which a step of this kind was made.
fn going_turn(kind: StepKind) -> Turn
    ensures turn { result ≡ going_turn kind }
    ensures granted { IsGranted result }
{
    match kind {
        StepKind::Read => Turn::Read,
        kind => Turn::Stepped(kind),
    }
}

// The turn in which a split or a collection has ended so, by a reading step or another.
fn last_turn(reads: bool, ended: &Tidied) -> Turn
    ensures turn { result ≡ last_turn reads ended.now }
    ensures granted { IsGranted result }
{
    match ended {
        Tidied::Split(_) => split_turn(reads),
        Tidied::Collected(_) => Turn::Stepped(StepKind::Collect),
    }
}

// The turn in which a split has ended, by a reading step or by a change.
fn split_turn(reads: bool) -> Turn
    ensures turn { result ≡ split_turn reads }
    ensures granted { IsGranted result }
{
    if reads {
        Turn::Read
    } else {
        Turn::Stepped(StepKind::Split)
    }
}
