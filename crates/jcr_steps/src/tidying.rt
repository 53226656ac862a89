// What a session makes of a step of a split or of a collection.
ghost use Rattle.std.specs.Prelude.{◌≡◌};
ghost use Rattle.jcr_steps.specs.Tidied.{IsTidyAnswer, tidy_told};

use oak_doc::{Collected, SplitEnd};
use oak_machine::StepKind;
use oak_port::{StepOut, TaskEnd};

/// How a split or a collection has ended.
#[derive(Drop)]
pub enum Tidied {
    /// A split has moved so many entries, or was skipped.
    Split(SplitEnd),
    /// What a collection did.
    Collected(Collected),
}

/// What a step of a split or of a collection came to: it goes on, has ended so, or memory was
/// refused.
#[derive(Drop)]
pub enum TidyCame {
    Going(StepKind),
    Ended(Tidied),
    Refused,
}

/// What a step of a split or of a collection came to.
pub fn tidy_came(answer: StepOut) -> TidyCame
    requires { IsTidyAnswer answer }
    ensures { result ≡ tidy_told answer }
{
    match answer {
        StepOut::Went(kind) => TidyCame::Going(kind),
        StepOut::Ready(TaskEnd::Split(end)) => TidyCame::Ended(Tidied::Split(end)),
        StepOut::Ready(TaskEnd::Collected(done)) => TidyCame::Ended(Tidied::Collected(done)),
        StepOut::Memory => TidyCame::Refused,
        _ => unreachable!(),
    }
}
