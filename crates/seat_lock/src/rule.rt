// The rule over the lock's two words and its slot, and what each kind of step tells.
// Word 0 is the turn: 1 while a pass has it. Word 1 is the count of the events. The slot has the value.
ghost use Rattle.std.specs.Prelude.{ℕ, List, []};

use crate::counted::Counted;
use atomic_table::{Join, Play, Split, TableRule};
use std::collections::LinkedList;
use std::marker::{Brand, PhantomData};
use std::snapshot::Snapshot;

/// How far a pass is in its round: it has no turn, it has the turn, it has loaded the count and got this value, or it has added its events to the count.
pub enum Round<T> {
    Idle,
    Turn,
    Out(T),
    Added,
}

/// What a pass knows. No value of it is made.
pub struct View<T, E, P, F, S> {
    pub round: Round<T>,
    /// Its share of the 1,024 parts of the lock. A view that is spent has none.
    pub weight: u64,
    /// The frame of each value of the lock. A view that is spent has none.
    pub frame: Option<F>,
    /// What it last saw of the value that changes only where the journal grows. A view that is spent has none.
    pub steady: Option<S>,
    /// The journal that it has seen.
    pub seen: LinkedList<E>,
    /// The shorter of the two journals that the last join brought together. It begins what is seen.
    pub earlier: LinkedList<E>,
    /// Where its own events stand in the journal, in order.
    pub places: LinkedList<u64>,
    /// Its authors, each with its part.
    pub parts: LinkedList<(u32, P)>,
}

/// The rule of the lock.
pub struct LockRule<T> {
    of: PhantomData<T>,
}

impl<T: Counted> TableRule<Option<T>, View<T, T::Entry, T::Part, T::Frame, T::Steady>, Snapshot<T>>
    for LockRule<T> {
    ghost use Rattle.seat_lock.specs.Rule.{Kept};
    ghost use Rattle.seat_lock.specs.Views.{first_view};

    ghost holds = { λ _. Kept T.Counted };

    ghost first = { λ about. first_view T.Counted about.value };
}

/// The turn goes from 0 to 1, or the step changes nothing.
pub struct TakeTurn;

impl<T: Counted> Play<Option<T>, View<T, T::Entry, T::Part, T::Frame, T::Steady>> for TakeTurn {
    ghost use Rattle.seat_lock.specs.Rule.{TakesTurn};

    ghost then = { TakesTurn };
}

/// The count is loaded, and the slot with the value is out.
pub struct Load;

impl<T: Counted> Play<Option<T>, View<T, T::Entry, T::Part, T::Frame, T::Steady>> for Load {
    ghost use Rattle.seat_lock.specs.Rule.{Loads};

    ghost then = { Loads T.Counted };
}

/// The number of new events is added to the count, and the slot is home again.
pub struct Add;

impl<T: Counted> Play<Option<T>, View<T, T::Entry, T::Part, T::Frame, T::Steady>> for Add {
    ghost use Rattle.seat_lock.specs.Rule.{Adds};

    ghost then = { Adds T.Counted };
}

/// The turn is given up.
pub struct GiveTurn;

impl<T: Counted> Play<Option<T>, View<T, T::Entry, T::Part, T::Frame, T::Steady>> for GiveTurn {
    ghost use Rattle.seat_lock.specs.Rule.{GivesTurn};

    ghost then = { GivesTurn };
}

/// The turn is read and nothing changes. It tells what the rule says of the pass's own view.
pub struct Look;

impl<T: Counted> Play<Option<T>, View<T, T::Entry, T::Part, T::Frame, T::Steady>> for Look {
    ghost use Rattle.seat_lock.specs.Rule.{Looks};

    ghost then = { Looks };
}

/// The authors that a split hands over.
pub trait Handed {
    ghost authors: { List ℕ };
}

impl Handed for Brand {
    ghost authors = { [] };
}

/// A view is split in two.
pub struct SplitView<J> {
    of: PhantomData<J>,
}

impl<J: Handed, T: Counted> Split<View<T, T::Entry, T::Part, T::Frame, T::Steady>>
    for SplitView<J> {
    ghost use Rattle.seat_lock.specs.Views.{kept_back, handed};

    ghost left = { kept_back J.authors };

    ghost right = { handed J.authors };
}

/// Two views are joined.
pub struct JoinViews;

impl<T: Counted> Join<View<T, T::Entry, T::Part, T::Frame, T::Steady>> for JoinViews {
    ghost use Rattle.seat_lock.specs.Views.{joined, spent_view};

    ghost both = { joined };

    ghost spent = { spent_view };
}
