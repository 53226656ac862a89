// A shared world as one session sees it through a pass.
ghost use Rattle.std.specs.Prelude.{◌≡◌, ◌≢◌, ℕ, IsTrue, is_some};
ghost use Rattle.std.proofs.Props.{props};
ghost use Rattle.seat_lock.specs.Passes.{IsAtRest, IsOf, view_of, weight_of};
ghost use Rattle.jr_shared.specs.Holds.{IsTold, has_seat, owned_by};
ghost use Rattle.jr_shared.specs.Seen.{law_by, left_by, shown_through};

use crate::locked::{LockedWorld, SessionPart, WorldFrame};
use crate::shared::SharedWorld;
use jr_path::{List, Path};
use jr_rev::{Pin, RevVec};
use oak_machine::{Event, Law, StepKind};
use oak_port::{Port, StepOut, Task};
use oak_world::World;
use seat_lock::{Counted, Pass};
use std::alloc::AllocError;
use std::marker::{Brand, PhantomData};
use std::sync::Wait;

/// The lock of a pass, and what the pass knew, as a port took it. The call that makes the port
/// picks them, so that what the port leaves of the pass can be told by them.
pub trait Taken<L: Law> {
    ghost use Rattle.atomic_table.specs.Seated.{TableId};
    ghost use Rattle.jr_shared.specs.Holds.{PassKnown};

    ghost table: { TableId };

    ghost view: { PassKnown L };
}

impl<L: Law> Taken<L> for Brand {
    ghost use Rattle.std.specs.Prelude.{[]};
    ghost use Rattle.seat_lock.specs.Views.{spent_view};

    ghost table = { record {
      words = 0;
      slots = 0;
      views_name = 0;
      atom = 0;
      block = 0;
      offset = 0;
      slot_names = [];
    } };

    ghost view = { spent_view };
}

/// The port of a session over a pass that has it. Each call holds the lock once; others may step
/// the world between two calls. Of the pass its other sessions and its weight stay as the port took
/// them.
#[derive(Drop)]
pub struct SharedPort<'a, R: Wait, L: Law + Drop, J: Taken<L>>
where
    LockedWorld<L>: Counted<
        Entry = Event,
        Part = SessionPart,
        Frame = WorldFrame<L>,
        Steady = World<L>,
    >,
{
    shared: &'a SharedWorld<L>,
    rt: &'a R,
    pass: &'a mut Pass<LockedWorld<L>>,
    actor: u32,
    of: PhantomData<J>,
    ghost own: { IsOf shared.now.lock pass.now },
    ghost table: { pass.now.seat.table_id ≡ J.table },
    ghost rest: { IsAtRest pass.now },
    ghost weight: { weight_of pass.now ≡ J.view.weight },
    ghost others: { (s : ℕ) → s ≢ actor
        → owned_by (view_of pass.now) s ≡ owned_by J.view s },
    ghost told: { IsTold (view_of pass.now) } by { Prim.hlevel props },
    ghost seat: { IsTrue (has_seat (view_of pass.now) actor) },
    ghost framed: { IsTrue (is_some (view_of pass.now).frame) },
}

impl<L: Law + Drop> SharedWorld<L> {
    /// The port of a session of the pass.
    pub fn port<'a, R: Wait, J: Taken<L>>(
        &'a self,
        rt: &'a R,
        pass: &'a mut Pass<LockedWorld<L>>,
        actor: u32,
    ) -> SharedPort<'a, R, L, J>
        requires own { IsOf self.now.lock pass.old }
        requires rest { IsAtRest pass.old }
        requires told { IsTold (view_of pass.old) }
        requires seat { IsTrue (has_seat (view_of pass.old) actor) }
        requires framed { IsTrue (is_some (view_of pass.old).frame) }
        requires table { pass.old.seat.table_id ≡ J.table }
        requires view { view_of pass.old ≡ J.view }
        ensures name { result.pass.ghost_name ≡ pass.entry.ghost_name }
        ensures pass { result.pass.now ≡ pass.old }
        ensures session { result.actor ≡ actor }
    {
        SharedPort {
            shared: self,
            rt,
            pass,
            actor,
            of: PhantomData,
        }
    }
}

impl<'a, R: Wait, L: Law + Drop, J: Taken<L>> Port for SharedPort<'a, R, L, J> {
    type L = L;

    ghost law = { λ p. law_by (view_of p.pass.now) p.framed };

    ghost shown = { λ p. shown_through p.pass.ghost_name (view_of p.pass.now) p.actor };

    ghost left = { λ p. left_by (view_of p.pass.now) p.actor };

    fn start(&mut self, task: Task) -> Result<(), AllocError> {
        self.shared.start(self.rt, self.pass, self.actor, task)
    }

    fn step(&mut self) -> StepOut {
        self.shared.step(self.rt, self.pass, self.actor)
    }

    fn due(&mut self) -> Option<StepKind> {
        self.shared.due(self.rt, self.pass, self.actor)
    }

    fn pin(&mut self) -> Option<Pin> {
        self.shared.pin(self.rt, self.pass, self.actor)
    }

    fn changed(&mut self, since: &RevVec) -> Result<Option<List<Path>>, AllocError> {
        self.shared.changed(self.rt, self.pass, self.actor, since)
    }

    // No task stops a cluster node yet.
    fn stopped(&mut self, cluster: u32) -> Option<u64> {
        self.shared.stopped(self.rt, self.pass, self.actor, cluster)
    }

    fn reserve_say(&mut self, bytes: usize) -> Result<(), AllocError> {
        self.shared
            .reserve_say(self.rt, self.pass, self.actor, bytes)
    }

    fn say(&mut self, index: u32, text: &str) {
        self.shared.say(self.rt, self.pass, self.actor, index, text);
    }
}
