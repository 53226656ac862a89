// The port of a session of a script, over a pass of the script's world.
use crate::gate::{Gate, gated_step};
use jcr_law::JcrLaw;
use jr_path::{List, Path};
use jr_rev::{Pin, RevVec};
use jr_shared::{SharedPort, Taken};
use oak_machine::StepKind;
use oak_port::{Port, StepOut, Task};
use std::alloc::AllocError;
use std::marker::{Brand, PhantomData};
use std::sync::Wait;

// The lock of a pass, and what the pass knew, as the port took it. The call that makes the port
// picks them.
pub(crate) trait Took {
    ghost use Rattle.atomic_table.specs.Seated.{TableId};
    ghost use Rattle.jcr_law.specs.declared.law.JcrLaw.{JcrLaw};
    ghost use Rattle.jr_shared.specs.Holds.{PassKnown};

    ghost table: { TableId };

    ghost view: { PassKnown JcrLaw };
}

impl Took for Brand {
    ghost use Rattle.std.specs.Prelude.{[]};
    ghost use Rattle.seat_lock.specs.Views.{spent_view};

    ghost table = { record {
      words = 0;
      slots = 0;
      views_name = 0;
      atom = 0;
      block = 0;
      offset = 0;
      slot_names = [];
    } };

    ghost view = { spent_view };
}

// What a port took that has this table and this view.
pub(crate) struct TakenBy<K> {
    of: PhantomData<K>,
}

impl<K: Took> Taken<JcrLaw> for TakenBy<K> {
    ghost table = { K.table };

    ghost view = { K.view };
}

// The shared port of a session at the law of the product. Each of its calls makes that of the port
// inside.
#[derive(Drop)]
pub(crate) struct ScriptPort<'a, R: Wait, K: Took>
where
    TakenBy<K>: Taken<JcrLaw>,
{
    pub port: SharedPort<'a, R, JcrLaw, TakenBy<K>>,
}

impl<'a, R: Wait, K: Took> Port for ScriptPort<'a, R, K> {
    type L = JcrLaw;

    ghost use Rattle.jr_shared.specs.Seen.{law_by, left_by, shown_through};
    ghost use Rattle.seat_lock.specs.Passes.{view_of};

    ghost law = { λ p. law_by (view_of p.port.pass.now) p.port.framed };

    ghost shown = { λ p. shown_through p.port.pass.ghost_name (view_of p.port.pass.now)
        p.port.actor };

    ghost left = { λ p. left_by (view_of p.port.pass.now) p.port.actor };

    fn start(&mut self, task: Task) -> Result<(), AllocError> {
        self.port.start(task)
    }

    fn step(&mut self) -> StepOut {
        self.port.step()
    }

    fn due(&mut self) -> Option<StepKind> {
        self.port.due()
    }

    fn pin(&mut self) -> Option<Pin> {
        self.port.pin()
    }

    fn changed(&mut self, since: &RevVec) -> Result<Option<List<Path>>, AllocError> {
        self.port.changed(since)
    }

    fn stopped(&mut self, cluster: u32) -> Option<u64> {
        self.port.stopped(cluster)
    }

    fn reserve_say(&mut self, bytes: usize) -> Result<(), AllocError> {
        self.port.reserve_say(bytes)
    }

    fn say(&mut self, index: u32, text: &str) {
        self.port.say(index, text);
    }
}

// The port of a session of a script with a gate before each of its steps.
#[derive(Drop)]
pub(crate) struct GatedPort<'a, R: Wait, G: Gate, K: Took>
where
    TakenBy<K>: Taken<JcrLaw>,
{
    pub port: ScriptPort<'a, R, K>,
    pub gate: &'a G,
    pub session: u32,
}

impl<'a, R: Wait, G: Gate, K: Took> Port for GatedPort<'a, R, G, K> {
    type L = JcrLaw;

    ghost use Rattle.jr_shared.specs.Seen.{law_by, left_by, shown_through};
    ghost use Rattle.seat_lock.specs.Passes.{view_of};

    ghost law = { λ p. law_by (view_of p.port.port.pass.now) p.port.port.framed };

    ghost shown = { λ p. shown_through p.port.port.pass.ghost_name
        (view_of p.port.port.pass.now) p.port.port.actor };

    ghost left = { λ p. left_by (view_of p.port.port.pass.now) p.port.port.actor };

    fn start(&mut self, task: Task) -> Result<(), AllocError> {
        self.port.start(task)
    }

    fn step(&mut self) -> StepOut {
        gated_step(&mut self.port, self.gate, self.session)
    }

    fn due(&mut self) -> Option<StepKind> {
        self.port.due()
    }

    fn pin(&mut self) -> Option<Pin> {
        self.port.pin()
    }

    fn changed(&mut self, since: &RevVec) -> Result<Option<List<Path>>, AllocError> {
        self.port.changed(since)
    }

    fn stopped(&mut self, cluster: u32) -> Option<u64> {
        self.port.stopped(cluster)
    }

    fn reserve_say(&mut self, bytes: usize) -> Result<(), AllocError> {
        self.port.reserve_say(bytes)
    }

    fn say(&mut self, index: u32, text: &str) {
        self.gate.before(self.session, StepKind::Say);
        self.port.say(index, text);
    }
}
