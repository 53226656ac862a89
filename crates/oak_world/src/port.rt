// A world as one session sees it.
ghost use Rattle.std.specs.Prelude.{◌≡◌, IsTrue, is_some, slice_get};
ghost use Rattle.oak_world.specs.Left.{left_in};
ghost use Rattle.oak_world.specs.Seen.{shown_at};

use crate::World;
use jr_path::{List, Path};
use jr_rev::{Pin, RevVec};
use oak_machine::{Law, StepKind};
use oak_port::{Port, StepOut, Task};
use std::alloc::AllocError;

/// The port of a world that no one else steps meanwhile.
#[derive(Drop)]
pub struct SoloPort<'a, L: Law> {
    world: &'a mut World<L>,
    actor: u32,
    ghost there: { IsTrue (is_some (slice_get world.now.history.sessions actor)) },
}

impl<'a, L: Law + Drop> SoloPort<'a, L> {
    /// The port of one of the world's sessions.
    pub fn new(world: &'a mut World<L>, actor: u32) -> SoloPort<'a, L>
        requires { IsTrue (is_some (slice_get world.old.history.sessions actor)) }
        ensures name { result.world.ghost_name ≡ world.entry.ghost_name }
        ensures world { result.world.now ≡ world.old }
        ensures session { result.actor ≡ actor }
    {
        SoloPort { world, actor }
    }
}

impl<'a, L: Law + Drop> Port for SoloPort<'a, L> {
    type L = L;

    ghost law = { λ p. p.world.now.law };

    ghost shown = { λ p. shown_at p.world.ghost_name p.world.now p.actor };

    ghost left = { λ p. left_in p.world.now p.actor };

    fn start(&mut self, task: Task) -> Result<(), AllocError> {
        self.world.is_kept();
        self.world.start(self.actor, task)
    }

    fn step(&mut self) -> StepOut {
        self.world.step(self.actor)
    }

    fn due(&mut self) -> Option<StepKind> {
        self.world.is_kept();
        self.world.due(self.actor)
    }

    fn pin(&mut self) -> Option<Pin> {
        self.world.is_kept();
        self.world.pin(self.actor)
    }

    fn changed(&mut self, since: &RevVec) -> Result<Option<List<Path>>, AllocError> {
        self.world.is_kept();
        self.world.changed(self.actor, since)
    }

    // No task stops a cluster node yet.
    fn stopped(&mut self, _cluster: u32) -> Option<u64> {
        self.world.is_kept();
        None
    }

    fn reserve_say(&mut self, bytes: usize) -> Result<(), AllocError> {
        self.world.is_kept();
        self.world.reserve_say(self.actor, bytes)
    }

    fn say(&mut self, index: u32, text: &str) {
        self.world.is_kept();
        self.world.say(self.actor, index, text);
        self.world.is_kept();
    }
}
