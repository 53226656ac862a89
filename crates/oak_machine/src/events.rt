// Events in their order, with places kept for more.
ghost use Rattle.std.specs.Prelude.{◌≡◌, ◌<◌, ◌≤◌, ◌+◌, ◌∷◌, ◌++◌, [], IfOk, OnOk, OnErr, length};

use crate::Event;
use std::alloc::{AllocError, Global};
use std::marker::Model;

/// Events in their order, with places that are kept for some more: an event that takes a kept place needs no memory.
pub struct Events {
    items: Vec<Event>,
    // The vector has room for so many more.
    places: usize,
}

// By hand, so that its parts are let go in one call.
impl Drop for Events {
    fn drop(self) {
        let Events { items, places: _ } = self;
        drop(items);
    }
}

impl Model for Events {
    ghost use Rattle.std.specs.Prelude.{◌≤◌, ◌+◌, vec_capacity, vec_len};
    ghost use Rattle.oak_machine.specs.Recorded.{Recorded};

    ghost Value = { Recorded };

    ghost view = { λ e. record { list = e.items.items; places = e.places } };

    ghost invariant = { λ e. vec_len e.items + e.places ≤ vec_capacity e.items };
}

impl Events {
    /// No event, and no place. It takes no memory.
    pub fn new(alloc: Global) -> Events
        ensures { result ≡ record { list = []; places = 0 } }
    {
        Events {
            items: Vec::new(alloc),
            places: 0,
        }
    }

    pub fn as_slice(&self) -> &[Event]
        ensures { result.now ≡ self.now.list }
    {
        self.items.as_slice()
    }

    pub fn len(&self) -> usize
        ensures { result ≡ length self.now.list }
    {
        self.items.len()
    }

    /// How many places are kept.
    pub fn places(&self) -> usize
        ensures { result ≡ self.now.places }
    {
        self.places
    }

    pub fn allocator(&self) -> Global {
        *self.items.allocator()
    }

    /// Keeps places for so many events more.
    pub fn keep(&mut self, count: usize) -> Result<(), AllocError>
        ensures list { self.new.list ≡ self.old.list }
        ensures ok { OnOk result (self.new.places ≡ self.old.places + count) }
        ensures err { OnErr result (self.new.places ≡ self.old.places) }
    {
        let Some(places) = self.places.checked_add(count) else {
            return Err(AllocError);
        };
        self.items.reserve(places)?;
        self.places = places;
        Ok(())
    }

    /// Keeps so many places no longer.
    pub fn give_back(&mut self, count: usize)
        requires { count ≤ self.old.places }
        ensures list { self.new.list ≡ self.old.list }
        ensures places { self.new.places + count ≡ self.old.places }
    {
        self.places -= count;
    }

    /// Appends an event, which takes a kept place. It needs no memory.
    pub fn push_kept(&mut self, event: Event)
        requires { 0 < self.old.places }
        ensures list { self.new.list ≡ self.old.list ++ event ∷ [] }
        ensures places { self.new.places + 1 ≡ self.old.places }
    {
        self.items.push_reserved(event);
        self.places -= 1;
    }

    /// Appends an event. The kept places stay.
    pub fn push(&mut self, event: Event) -> Result<(), AllocError>
        ensures ok { OnOk result (self.new.list ≡ self.old.list ++ event ∷ []) }
        ensures err { OnErr result (self.new.list ≡ self.old.list) }
        ensures places { self.new.places ≡ self.old.places }
    {
        self.keep(1)?;
        self.push_kept(event);
        Ok(())
    }
}
