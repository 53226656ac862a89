// A world as the lock has it.
ghost use Rattle.std.specs.Prelude.{length};
ghost use Rattle.jr_shared.specs.Holds.{IsWhole};

use oak_machine::{Event, Law};
use oak_world::World;
use seat_lock::Counted;
use std::collections::LinkedList;
use std::marker::{Model, PhantomData};

/// What never changes of a world: its law, its cluster nodes and the node of each session. No value
/// of it is made.
pub struct WorldFrame<L> {
    pub law: L,
    pub clusters: u32,
    pub sessions: LinkedList<u32>,
}

/// What a session owns of a world: what it does, what is kept for it, and its events. No value of
/// it is made.
pub struct SessionPart {
    of: PhantomData<u32>,
}

impl Model for SessionPart {
    ghost use Rattle.std.specs.Prelude.{[], None};
    ghost use Rattle.jr_shared.specs.Meanings.{Owned};

    ghost Value = { Owned };

    ghost view = { λ _. record { seat = None; events = [] } };
}

/// A world under the lock: its journal is the world's, and its authors are the sessions.
#[derive(Drop)]
pub struct LockedWorld<L: Law> {
    pub(crate) world: World<L>,
}

impl<L: Law + Drop> Counted for LockedWorld<L> {
    type Entry = Event;

    type Part = SessionPart;

    type Frame = WorldFrame<L>;

    type Steady = World<L>;

    ghost use Rattle.std.specs.Prelude.{length};
    ghost use Rattle.std.specs.List.{range_with_len};
    ghost use Rattle.jr_shared.specs.Meanings.{frame_of, journal_of, owned_of, steady_of};

    ghost journal = { λ w. journal_of w.world };

    ghost authors = { λ w. range_with_len 0 (length w.world.history.sessions) };

    ghost part = { λ w s. owned_of w.world s };

    ghost frame = { λ w. frame_of w.world };

    ghost steady = { λ w. steady_of w.world };

    fn count(&self) -> u64 {
        self.world.journal().events.len() as u64
    }
}

// A world is whole. The call does nothing: callers learn the fact.
pub(crate) fn is_whole<L: Law + Drop>(world: &World<L>)
    ensures { IsWhole L.Law world.now }
{
    world.is_kept();
    let _ = world.documents();
}
