// A world under a lock, and its calls for one session, each under one hold.
ghost use Rattle.std.specs.Prelude.{◌≡◌, ◌<◌, ℕ, if◌then◌else◌, length, IfOk, IsTrue, None};
ghost use Rattle.oak_machine.specs.Laws.{after};
ghost use Rattle.oak_machine.specs.Sessions.{next_index};
ghost use Rattle.oak_port.specs.Ports.{HasRoom, IsAskedOf, MayBegin};
ghost use Rattle.oak_step.specs.declared.work.Work.TheVariants as work;
ghost use Rattle.oak_world.specs.Worlds.{IsAtRest as IsWorkAtRest, said_in, told_first};
ghost use Rattle.seat_lock.specs.Passes.{HasFrame, HasPart, IsAtRest, IsOf, seen_of, view_of, weight_of};
ghost use Rattle.seat_lock.specs.Views.{handed, is_one_of, joined, kept_back};
ghost use Rattle.jr_shared.specs.Meanings.{frame_of, journal_of, owned_of};
ghost use Rattle.jr_shared.specs.Holds.{Begun, ChangesAre, DueIs, HasLaw, IsTold, IsWhole, OneHold, PinIs, Reserved, Stepped, actor_by, first_known, has_seat, owned_by};
ghost use Rattle.jr_shared.specs.Seen.{history_by};

use crate::locked::{LockedWorld, is_whole};
use jr_path::{List, Path};
use jr_rev::{Pin, RevVec};
use oak_machine::{Law, StepKind};
use oak_port::{StepOut, Task};
use oak_world::World;
use seat_lock::{Pass, SeatLock};
use std::alloc::{AllocError, Global};
use std::sync::Wait;

/// A world that threads share. The world's passes are those of the lock round it: a pass has some
/// of the sessions, and the calls of the world for them.
#[derive(Drop)]
pub struct SharedWorld<L: Law + Drop> {
    pub(crate) lock: SeatLock<LockedWorld<L>>,
}

impl<L: Law + Drop> SharedWorld<L> {
    /// A shared world, and its first pass, which has every session and all the weight.
    pub fn new(
        alloc: Global,
        world: World<L>,
    ) -> Result<(SharedWorld<L>, Pass<LockedWorld<L>>), AllocError>
        ensures own { IfOk result (λ r. IsOf r.0.lock r.1) }
        ensures pass { IfOk result (λ r. view_of r.1 ≡ first_known world) }
        ensures told { IfOk result (λ r. IsTold (view_of r.1)) }
        ensures seats { IfOk result (λ r. (s : ℕ) → s < length world.history.sessions
            → IsTrue (has_seat (view_of r.1) s)) }
    {
        is_whole(&world);
        let (lock, pass) = SeatLock::new(alloc, LockedWorld { world })?;
        Ok((SharedWorld { lock }, pass))
    }

    /// Makes a pass that has seen as much, and hands to it 1 of the weight and those of the pass's
    /// sessions that are named.
    pub fn split(&self, pass: &mut Pass<LockedWorld<L>>, sessions: &[u32]) -> Pass<LockedWorld<L>>
        requires own { IsOf self.now.lock pass.old }
        requires weight { 1 < weight_of pass.old }
        ensures own { IsOf self.now.lock pass.new × IsOf self.now.lock result }
        ensures given { view_of result ≡ handed sessions.now (view_of pass.old) }
        ensures left { view_of pass.new ≡ kept_back sessions.now (view_of pass.old) }
        ensures told { IsTold (view_of pass.old)
            → IsTold (view_of pass.new) × IsTold (view_of result) }
        ensures owns { (s : ℕ) → owned_by (view_of result) s
            ≡ if is_one_of sessions.now s then owned_by (view_of pass.old) s else None }
        ensures owns_still { (s : ℕ) → owned_by (view_of pass.new) s
            ≡ if is_one_of sessions.now s then None else owned_by (view_of pass.old) s }
    {
        self.lock.split(pass, sessions)
    }

    /// Takes in another pass, by which no call is under way: its weight, its sessions, its places,
    /// and the longer of the journals seen.
    pub fn join(&self, pass: &mut Pass<LockedWorld<L>>, other: Pass<LockedWorld<L>>)
        requires own { IsOf self.now.lock pass.old × IsOf self.now.lock other }
        requires rest { IsAtRest other }
        ensures own { IsOf self.now.lock pass.new }
        ensures pass { view_of pass.new ≡ joined (view_of pass.old) (view_of other) }
    {
        self.lock.join(pass, other);
    }

    /// Gives the world back. The pass has all the weight, so it is the only one.
    pub fn close(self, pass: Pass<LockedWorld<L>>) -> World<L>
        requires own { IsOf self.lock pass }
        requires rest { IsAtRest pass }
        requires whole { weight_of pass ≡ 1024 }
        ensures whole { IsWhole L.Law result }
        ensures journal { journal_of result ≡ seen_of pass }
        ensures frame { HasFrame pass (frame_of result) }
        ensures parts { (s : ℕ) (part : _) → HasPart pass s part → owned_of result s ≡ part }
    {
        let SharedWorld { lock } = self;
        let LockedWorld { world } = lock.close(pass);
        is_whole(&world);
        world
    }

    /// Tells a session of the pass that does nothing what to do; its next command asks for the
    /// events of the task. Where memory is refused nothing changes.
    pub fn start<R: Wait>(
        &self,
        rt: &R,
        pass: &mut Pass<LockedWorld<L>>,
        actor: u32,
        task: Task,
    ) -> Result<(), AllocError>
        requires own { IsOf self.now.lock pass.old }
        requires seat { IsTrue (has_seat (view_of pass.old) actor) }
        requires told { IsTold (view_of pass.old) }
        requires idle { (actor_by (view_of pass.old) actor).work ≡ work.Rest }
        requires may { (law : L) → HasLaw (view_of pass.old) law
            → MayBegin (L.may_start law) (history_by (view_of pass.old)) actor task }
        requires asked { (law : L) → HasLaw (view_of pass.old) law
            → IsAskedOf (L.asks law) (history_by (view_of pass.old)) actor task }
        ensures own { IsOf self.now.lock pass.new }
        ensures hold { OneHold L.Law (view_of pass.old) (view_of pass.new) actor
            (λ got left. Begun got actor task result left) }
    {
        let mut hold = self.lock.acquire(rt, pass);
        is_whole(&hold.value.world);
        let result = hold.value.world.start(actor, task);
        is_whole(&hold.value.world);
        self.lock.release(pass, hold);
        result
    }

    /// Makes one step of what a session of the pass does.
    pub fn step<R: Wait>(&self, rt: &R, pass: &mut Pass<LockedWorld<L>>, actor: u32) -> StepOut
        requires own { IsOf self.now.lock pass.old }
        requires seat { IsTrue (has_seat (view_of pass.old) actor) }
        requires busy { IsWorkAtRest (actor_by (view_of pass.old) actor).work → ⊥ }
        ensures own { IsOf self.now.lock pass.new }
        ensures hold { OneHold L.Law (view_of pass.old) (view_of pass.new) actor
            (λ got left. Stepped L.Law got actor result left) }
    {
        let mut hold = self.lock.acquire(rt, pass);
        is_whole(&hold.value.world);
        let out = hold.value.world.step(actor);
        is_whole(&hold.value.world);
        self.lock.release(pass, hold);
        out
    }

    /// The kind of the next step of a session of the pass; None where nothing is left to be done
    /// but to tell how a task ended.
    pub fn due<R: Wait>(
        &self,
        rt: &R,
        pass: &mut Pass<LockedWorld<L>>,
        actor: u32,
    ) -> Option<StepKind>
        requires own { IsOf self.now.lock pass.old }
        requires seat { IsTrue (has_seat (view_of pass.old) actor) }
        ensures own { IsOf self.now.lock pass.new }
        ensures hold { OneHold L.Law (view_of pass.old) (view_of pass.new) actor
            (λ got left. DueIs got actor result left) }
    {
        let hold = self.lock.acquire(rt, pass);
        is_whole(&hold.value.world);
        let due = hold.value.world.due(actor);
        self.lock.release(pass, hold);
        due
    }

    /// The pin at which a session of the pass reads: while it is attached to a checkpoint that
    /// which the settings keep for it, else that of its node's memory, where it has come and not
    /// left.
    pub fn pin<R: Wait>(&self, rt: &R, pass: &mut Pass<LockedWorld<L>>, actor: u32) -> Option<Pin>
        requires own { IsOf self.now.lock pass.old }
        requires seat { IsTrue (has_seat (view_of pass.old) actor) }
        ensures own { IsOf self.now.lock pass.new }
        ensures hold { OneHold L.Law (view_of pass.old) (view_of pass.new) actor
            (λ got left. PinIs got actor result left) }
    {
        let hold = self.lock.acquire(rt, pass);
        is_whole(&hold.value.world);
        let pin = hold.value.world.pin(actor);
        self.lock.release(pass, hold);
        pin
    }

    /// What changed between a vector and the base of a session of the pass: paths, and among them
    /// each at which the node at the base isn't the one at that vector. None where that isn't
    /// known.
    pub fn changed<R: Wait>(
        &self,
        rt: &R,
        pass: &mut Pass<LockedWorld<L>>,
        actor: u32,
        since: &RevVec,
    ) -> Result<Option<List<Path>>, AllocError>
        requires own { IsOf self.now.lock pass.old }
        requires seat { IsTrue (has_seat (view_of pass.old) actor) }
        ensures own { IsOf self.now.lock pass.new }
        ensures hold { OneHold L.Law (view_of pass.old) (view_of pass.new) actor
            (λ got left. ChangesAre got actor since.now result left) }
    {
        let hold = self.lock.acquire(rt, pass);
        is_whole(&hold.value.world);
        let changed = hold.value.world.changed(actor, since);
        self.lock.release(pass, hold);
        changed
    }

    /// The position in the journal, from 0, of the stop of the cluster node of that number; None
    /// where it isn't stopped.
    pub fn stopped<R: Wait>(
        &self,
        rt: &R,
        pass: &mut Pass<LockedWorld<L>>,
        actor: u32,
        _cluster: u32,
    ) -> Option<u64>
        requires own { IsOf self.now.lock pass.old }
        ensures own { IsOf self.now.lock pass.new }
        ensures none { result ≡ None }
        ensures hold { OneHold L.Law (view_of pass.old) (view_of pass.new) actor
            (λ got left. left ≡ got) }
    {
        let hold = self.lock.acquire(rt, pass);
        is_whole(&hold.value.world);
        self.lock.release(pass, hold);
        None
    }

    /// Keeps a place for the next reply of a session of the pass, of this many bytes. Where memory
    /// is refused nothing changes.
    pub fn reserve_say<R: Wait>(
        &self,
        rt: &R,
        pass: &mut Pass<LockedWorld<L>>,
        actor: u32,
        bytes: usize,
    ) -> Result<(), AllocError>
        requires own { IsOf self.now.lock pass.old }
        requires seat { IsTrue (has_seat (view_of pass.old) actor) }
        ensures own { IsOf self.now.lock pass.new }
        ensures hold { OneHold L.Law (view_of pass.old) (view_of pass.new) actor
            (λ got left. Reserved got actor bytes result left) }
    {
        let mut hold = self.lock.acquire(rt, pass);
        is_whole(&hold.value.world);
        let result = hold.value.world.reserve_say(actor, bytes);
        is_whole(&hold.value.world);
        self.lock.release(pass, hold);
        result
    }

    /// Says the next reply of a session of the pass, and directly before it how its split or
    /// collection ended, where that is to be told. The reply has a place, and so saying takes no
    /// memory.
    pub fn say<R: Wait>(
        &self,
        rt: &R,
        pass: &mut Pass<LockedWorld<L>>,
        actor: u32,
        index: u32,
        text: &str,
    )
        requires own { IsOf self.now.lock pass.old }
        requires seat { IsTrue (has_seat (view_of pass.old) actor) }
        requires told { IsTold (view_of pass.old) }
        requires rest { IsWorkAtRest (actor_by (view_of pass.old) actor).work }
        requires place { HasRoom (actor_by (view_of pass.old) actor).reply (length text.now) }
        requires next { index ≡ next_index (history_by (view_of pass.old)).past actor }
        requires lawful { (law : L) → HasLaw (view_of pass.old) law
            → L.may_say law (after (told_first (actor_by (view_of pass.old) actor).work)
            (history_by (view_of pass.old))) actor index text.now }
        ensures own { IsOf self.now.lock pass.new }
        ensures hold { OneHold L.Law (view_of pass.old) (view_of pass.new) actor
            (λ got left. left ≡ said_in got actor index text.now) }
    {
        let mut hold = self.lock.acquire(rt, pass);
        is_whole(&hold.value.world);
        hold.value.world.say(actor, index, text);
        is_whole(&hold.value.world);
        self.lock.release(pass, hold);
    }
}
