// A gate: what is called before each step of a worker.
ghost use Rattle.std.specs.Prelude.{◌≡◌};
ghost use Rattle.oak_port.specs.Ports.{IsAtRest, LastsLess, Steps};

use oak_machine::StepKind;
use oak_port::{Port, StepOut};

/// What a worker calls before each step of a session, outside the lock of the world: tests hold
/// workers by it, and measure.
pub trait Gate {
    /// Called before a step of the session, reading steps among them, with the kind that is due, or
    /// with `Say` before a reply is said.
    fn before(&self, session: u32, kind: StepKind);
}

/// A gate that does nothing.
pub struct NoGate;

impl Gate for NoGate {
    fn before(&self, _session: u32, _kind: StepKind) {}
}

// A step of a port, and before it the gate with the kind that is due.
pub(crate) fn gated_step<P: Port, G: Gate>(port: &mut P, gate: &G, session: u32) -> StepOut
    requires busy { IsAtRest (P.shown port.old).work → ⊥ }
    ensures law { P.law port.new ≡ P.law port.old }
    ensures steps { Steps (P.L.may_start (P.law port.old)) (P.L.may_say (P.law port.old))
        (P.shown port.old) (P.shown port.new) result }
    ensures lowers { LastsLess (P.left port.old) (P.left port.new)
        (P.shown port.old) (P.shown port.new) result }
{
    match port.due() {
        Some(kind) => gate.before(session, kind),
        // What has begun and isn't over has a next step.
        None => unreachable!(),
    }
    port.step()
}
