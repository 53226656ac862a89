// The calls of a world for one session.
ghost use Rattle.std.specs.Prelude.{◌≡◌, ◌↔◌, ℕ, IfOk, IfSome, OnErr, OnOk, None, Some, IsSome, IsFalse, length};
ghost use Rattle.std.specs.Option.{option_map};
ghost use Rattle.oak_machine.specs.Sessions.{base_of, has_left, next_index};
ghost use Rattle.oak_machine.specs.Laws.{after};
ghost use Rattle.oak_port.specs.Ports.{Answers, HasRoom, Idle, IsAskedOf, IsAtRest, LastsLess, LastsOn, MayBegin, OthersAlone, Shown, Starting, StaysSo, Steps, TellsChanges, end_told};

use crate::task::{StepOut, Task};
use jr_path::{List, Path};
use jr_rev::{Pin, RevVec};
use oak_machine::{Law, StepKind};
use std::alloc::AllocError;

/// The calls of a world for one session. Between two calls, and during them, others may add events
/// of their own; a call of a world that nobody else steps adds none but its own.
pub trait Port {
    type L: Law;

    /// The law of the world.
    ghost law: { Self → Self.L };

    /// The history so far, the session, what is being done for it, the place of its next reply, the
    /// kind of its next step, and what stands beside it.
    ghost shown: { Self → Shown };

    /// How many steps are left of what is being done, where nobody else acts; only others' events
    /// may raise it.
    ghost left: { Self → ℕ };

    /// Begins a task, for whose events the session's next command asks. Memory may be refused, and
    /// then nothing is begun.
    fn start(&mut self, task: Task) -> Result<(), AllocError>
        requires idle { (shown self.old).work ≡ Idle }
        requires may { MayBegin (Self.L.may_start (law self.old)) (shown self.old).history
            (shown self.old).session task }
        requires asked { IsAskedOf (Self.L.asks (law self.old)) (shown self.old).history
            (shown self.old).session task }
        ensures law { law self.new ≡ law self.old }
        ensures ok { OnOk result (OthersAlone (Self.L.may_start (law self.old))
            (Self.L.may_say (law self.old)) (shown self.old) (shown self.new)
            (Starting task) (shown self.old).room) }
        ensures err { OnErr result (OthersAlone (Self.L.may_start (law self.old))
            (Self.L.may_say (law self.old)) (shown self.old) (shown self.new)
            Idle (shown self.old).room) };

    /// Makes one step of what is being done: one operation on one document or on one node's memory.
    /// Where nobody else acts meanwhile it lowers the number of steps that are left, or it waits.
    fn step(&mut self) -> StepOut
        requires busy { IsAtRest (shown self.old).work → ⊥ }
        ensures law { law self.new ≡ law self.old }
        ensures steps { Steps (Self.L.may_start (law self.old)) (Self.L.may_say (law self.old))
            (shown self.old) (shown self.new) result }
        ensures lowers { LastsLess (left self.old) (left self.new)
            (shown self.old) (shown self.new) result };

    /// The kind of the next step; None where nothing is left to be done but to tell how a task
    /// ended. Where no step is left nothing is.
    fn due(&mut self) -> Option<StepKind>
        ensures law { law self.new ≡ law self.old }
        ensures same { StaysSo (Self.L.may_start (law self.old)) (Self.L.may_say (law self.old))
            (shown self.old) (shown self.new) }
        ensures due { result ≡ (shown self.new).due }
        ensures busy { IsSome result ↔ (IsAtRest (shown self.old).work → ⊥) }
        ensures left { LastsOn (left self.old) (left self.new)
            (shown self.old) (shown self.new) }
        ensures over { left self.old ≡ 0 → IsAtRest (shown self.old).work };

    /// The session's pin; None before its login and once it has left.
    fn pin(&mut self) -> Option<Pin>
        ensures law { law self.new ≡ law self.old }
        ensures same { StaysSo (Self.L.may_start (law self.old)) (Self.L.may_say (law self.old))
            (shown self.old) (shown self.new) }
        ensures base { IsFalse (has_left (shown self.old).history.past (shown self.old).session)
            → option_map (λ pin. pin.base) result
            ≡ base_of (shown self.old).history.past (shown self.old).session }
        ensures left { LastsOn (left self.old) (left self.new)
            (shown self.old) (shown self.new) };

    /// What changed between a vector and the session's base: paths, and among them each at which
    /// the node at the base isn't the one at that vector. None where that isn't known: a cluster
    /// node knows it of its own commits, back to the oldest base that it pins, and of no commits of
    /// other nodes (Oak, DocumentNodeStore: its diff cache, which local commits fill). Asking is no
    /// step.
    fn changed(&mut self, since: &RevVec) -> Result<Option<List<Path>>, AllocError>
        ensures law { law self.new ≡ law self.old }
        ensures same { StaysSo (Self.L.may_start (law self.old)) (Self.L.may_say (law self.old))
            (shown self.old) (shown self.new) }
        ensures told { IfOk result (λ told. IfSome told
            (TellsChanges (shown self.new).history (shown self.new).session since.now)) }
        ensures left { LastsOn (left self.old) (left self.new)
            (shown self.old) (shown self.new) };

    /// The position in the journal, from 0, of the stop of the cluster node of that number; None
    /// where it isn't stopped. No world stops a cluster node yet.
    fn stopped(&mut self, cluster: u32) -> Option<u64>
        ensures law { law self.new ≡ law self.old }
        ensures same { StaysSo (Self.L.may_start (law self.old)) (Self.L.may_say (law self.old))
            (shown self.old) (shown self.new) }
        ensures none { result ≡ None }
        ensures left { LastsOn (left self.old) (left self.new)
            (shown self.old) (shown self.new) };

    /// Keeps a place for the session's next reply, of this many bytes. Where memory is refused, the
    /// place that it had stays.
    fn reserve_say(&mut self, bytes: usize) -> Result<(), AllocError>
        ensures law { law self.new ≡ law self.old }
        ensures ok { OnOk result (OthersAlone (Self.L.may_start (law self.old))
            (Self.L.may_say (law self.old)) (shown self.old) (shown self.new)
            (shown self.old).work (Some bytes)) }
        ensures err { OnErr result (StaysSo (Self.L.may_start (law self.old))
            (Self.L.may_say (law self.old)) (shown self.old) (shown self.new)) }
        ensures left { LastsOn (left self.old) (left self.new)
            (shown self.old) (shown self.new) };

    /// Says the session's next reply, and before it how a split or a collection ended, where that
    /// is to be told. The reply has a place, and so saying takes no memory.
    fn say(&mut self, index: u32, text: &str)
        requires idle { IsAtRest (shown self.old).work }
        requires place { HasRoom (shown self.old).room (length text.now) }
        requires next { index ≡ next_index (shown self.old).history.past (shown self.old).session }
        requires lawful { Self.L.may_say (law self.old)
            (after (end_told (shown self.old).work) (shown self.old).history)
            (shown self.old).session index text.now }
        ensures law { law self.new ≡ law self.old }
        ensures said { Answers (Self.L.may_start (law self.old)) (Self.L.may_say (law self.old))
            (shown self.old) (shown self.new) index text.now };
}
