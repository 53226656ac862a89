// What a caller has in hand: a pass, and the value that a pass has out.
ghost use Rattle.std.specs.Prelude.{◌≡◌, ◌<◌, length};
ghost use Rattle.seat_lock.specs.Views.{InOrder, InOrder-prop, slots_of};

use crate::counted::Counted;
use crate::rule::View;
use atomic_table::Seat;
use std::snapshot::Snapshot;

/// The right to take a lock in turn with others. It has no bytes.
///
/// A pass has a weight of 1 or more, some of the authors of the value, each with the part that it last left, the journal that it has seen, and the places of its own events in it.
#[derive(Drop)]
pub struct Pass<T: Counted> {
    pub(crate) seat: Seat<Option<T>, View<T, T::Entry, T::Part, T::Frame, T::Steady>>,
    ghost has_weight: { 0 < seat.me.0.weight },
    ghost in_order: { InOrder 0 seat.me.0.places (length seat.me.0.seen) } by { InOrder-prop 0 seat.me.0.places (length seat.me.0.seen) },
    ghost slots_fit: { seat.me.1 ≡ slots_of seat.me.0.round },
}

/// A value that a pass has out of the lock. It can't be dropped: `release` takes it back.
pub struct Hold<T> {
    /// The value, for its holder to change.
    pub value: T,
    pub(crate) before: u64,
    pub(crate) taken: Snapshot<T>,
}
