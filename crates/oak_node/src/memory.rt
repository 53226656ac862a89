// The memory of one cluster node.
ghost use Rattle.std.specs.Prelude.{◌≡◌, ◌-◌, ◌^◌, ◌<◌, ◌≤◌, ◌∷◌, ◌++◌, [], false, IfOk, OnOk, OnErr, IsOk, IsSome, IsSomeAnd, IsTrue, MatchOption, None, Some};
ghost use Rattle.std.specs.Bool.{OnFalse};
ghost use Rattle.jr_rev.specs.Revisions.{is_before};
ghost use Rattle.jr_rev.specs.Vectors.{entry};
ghost use Rattle.oak_node.specs.Changes.{changed_since, known_from, oldest_own};
ghost use Rattle.oak_node.specs.Memory.{IsMemory, begun, own_entry};
ghost use Rattle.oak_node.specs.Heads.{latest_time, known_time, next_draw, with_draw, finished, learned};
ghost use Rattle.oak_node.specs.Heads.{IsInFlight, HasEnded, IsAwaited};
ghost use Rattle.oak_node.specs.Pins.{pin_of, pin_now, with_pin, without_pin};
ghost use Rattle.oak_node.specs.Notes.{notes_of, with_notes, without_seen, IsPending};
ghost use Rattle.oak_node.specs.Stops.{with_stop, with_recovery};

use crate::drawn::{Drawn, last, put_in_flight, settle};
use crate::pending::{Note, Pending, due_paths, put_notes};
use crate::pins::{self, own_in, start_of};
use jr_path::{List, Path};
use jr_rev::{Pin, RevVec, Revision};
use std::alloc::{AllocError, Global};
use std::marker::Model;

/// Whether a cluster node's head sees a revision that has ended.
#[derive(Clone, Copy, PartialEq, Eq)]
pub enum Awaits {
    /// The head sees it.
    Ready,
    /// The head doesn't see it as long as this earlier revision is in flight.
    Pending(Revision),
}

/// What one cluster node keeps in memory (Oak, DocumentNodeStore: "Revisions", "Background
/// operations").
///
/// Its number, 1 to 8; its head, a revision vector; the sweep vector; the time of its last draw;
/// the revisions that it drew above its head's own entry; the pins, one for an owner; the paths
/// that it noted to be published; the paths that its draws after `since` noted, in their order;
/// whether the node was stopped, and its memory recovered.
pub struct NodeMem {
    cluster: u32,
    head: RevVec,
    sweep: RevVec,
    last_time: u64,
    above: Vec<Drawn>,
    pins: Vec<(u32, Pin)>,
    notes: Vec<Note>,
    since: Revision,
    changed: Vec<Note>,
    stopped: bool,
    recovered: bool,
}

// By hand, so that its parts are let go in one call.
impl Drop for NodeMem {
    fn drop(self) {
        let NodeMem {
            cluster: _,
            head: _,
            sweep: _,
            last_time: _,
            above,
            pins,
            notes,
            since: _,
            changed,
            stopped: _,
            recovered: _,
        } = self;
        drop(above);
        drop(pins);
        drop(notes);
        drop(changed);
    }
}

impl Model for NodeMem {
    ghost use Rattle.oak_node.specs.Memory.{NodeState, IsMemory};

    ghost Value = { NodeState };

    ghost use Rattle.oak_node.specs.Fields.{memory_state};

    ghost view = { memory_state };

    ghost invariant = { λ m. IsMemory (memory_state m) };
}

impl NodeMem {
    /// A cluster node's memory at its start: the vector is its head and its sweep vector, and it
    /// has drawn, noted and pinned nothing, and runs. The node's number is 1 to 8, and the vector
    /// has an entry for it. It takes no memory.
    pub fn new(alloc: Global, cluster: u32, start: RevVec) -> NodeMem
        requires node { 1 ≤ cluster × cluster ≤ 8 }
        requires entry { IsSomeAnd (entry start cluster) (λ own. own.cluster ≡ cluster) }
        ensures { result ≡ begun cluster start }
    {
        NodeMem {
            cluster,
            head: start,
            sweep: start,
            last_time: 0,
            above: Vec::new(alloc),
            pins: Vec::new(alloc),
            notes: Vec::new(alloc),
            since: own_in(cluster, &start),
            changed: Vec::new(alloc),
            stopped: false,
            recovered: false,
        }
    }

    /// The revision that this node draws next.
    pub fn next_draw(&self) -> Revision
        requires { known_time self.now < 2 ^ 64 - 1 }
        ensures { result ≡ next_draw self.now }
    {
        let cluster = self.cluster;
        Revision {
            time: greatest_time(&self.head).max(self.last_time) + 1,
            counter: 0,
            cluster,
        }
    }

    /// Draws a revision of this node, which is in flight from then on, and notes the paths with it.
    /// Its time is one more than the greatest that the node knows, of its head and of its last
    /// draw, and its counter is 0. Where memory is refused nothing changes.
    pub fn draw_noting(&mut self, paths: &[Path]) -> Result<Revision, AllocError>
        requires { known_time self.old < 2 ^ 64 - 1 }
        ensures drawn { IfOk result (λ r. r ≡ next_draw self.old) }
        ensures ok { OnOk result (self.new
            ≡ with_notes (next_draw self.old) (with_draw self.old (next_draw self.old)) paths.now) }
        ensures err { OnErr result (self.new ≡ self.old) }
    {
        let revision = self.next_draw();
        put_draw(
            &mut self.above,
            &mut self.notes,
            &mut self.changed,
            paths,
            revision,
        )?;
        self.last_time = revision.time;
        Ok(revision)
    }

    /// Ends a revision that is in flight, and moves the head's own entry to the greatest drawn
    /// revision below every one in flight. Tells whether the head moved. It takes no memory.
    pub fn finish(&mut self, r: Revision) -> bool
        requires { IsInFlight self.old r }
        ensures ended { self.new ≡ finished self.old r }
        ensures moved { result ≡ is_before (own_entry self.old) (own_entry self.new) }
        ensures still { OnFalse result (self.new.head ≡ self.old.head) }
    {
        let own = self.own();
        let local = settle(&mut self.above, own, r);
        self.head.set(local);
        own < local
    }

    /// The head: the revision vector that a session of this node gets as its base. The clause
    /// `memory` tells a caller what is true of each memory.
    pub fn head(&self) -> RevVec
        ensures head { result ≡ self.now.head }
        ensures memory { IsMemory self.now }
    {
        self.head
    }

    /// The sweep vector: all that it sees and that is still found in documents is committed.
    pub fn sweep(&self) -> RevVec
        ensures { result ≡ self.now.sweep }
    {
        self.sweep
    }

    /// Moves the owner's pin to the head with the sweep vector. It takes no memory where the owner
    /// has a pin.
    pub fn pin(&mut self, owner: u32) -> Result<Pin, AllocError>
        ensures pinned { IfOk result (λ pin. pin ≡ pin_now self.old) }
        ensures ok { OnOk result (self.new ≡ with_pin self.old owner (pin_now self.old)) }
        ensures err { OnErr result (self.new ≡ self.old) }
        ensures kept { IsSome (pin_of self.old owner) → IsOk result }
    {
        let pin = self.pin_now();
        pins::put(&mut self.pins, owner, &pin)?;
        Ok(pin)
    }

    /// Moves the pin of an owner that has one to the head with the sweep vector. It takes no
    /// memory.
    pub fn repin(&mut self, owner: u32) -> Pin
        requires { IsSome (pin_of self.old owner) }
        ensures pin { result ≡ pin_now self.old }
        ensures memory { self.new ≡ with_pin self.old owner (pin_now self.old) }
    {
        let pin = self.pin_now();
        pins::replace(&mut self.pins, owner, &pin);
        pin
    }

    /// Sets the owner's pin to that of the other, which has one. It takes no memory where the owner
    /// has a pin.
    pub fn pin_like(&mut self, owner: u32, other: u32) -> Result<Pin, AllocError>
        requires { IsSome (pin_of self.old other) }
        ensures pinned { IfOk result (λ pin. pin_of self.old other ≡ Some pin) }
        ensures ok { IfOk result (λ pin. self.new ≡ with_pin self.old owner pin) }
        ensures err { OnErr result (self.new ≡ self.old) }
        ensures kept { IsSome (pin_of self.old owner) → IsOk result }
    {
        let pin = pins::find(&self.pins, other).unwrap();
        pins::put(&mut self.pins, owner, &pin)?;
        Ok(pin)
    }

    /// Drops the owner's pin, where it has one. It takes no memory.
    pub fn unpin(&mut self, owner: u32)
        ensures { self.new ≡ without_pin self.old owner }
    {
        pins::remove(&mut self.pins, owner);
    }

    /// The pins with their owners, in the order of the owners.
    pub fn pins(&self) -> &[(u32, Pin)]
        ensures { result.now ≡ self.now.pins }
    {
        &self.pins
    }

    /// The owner's pin.
    pub fn pin_of(&self, owner: u32) -> Option<Pin>
        ensures { result ≡ pin_of self.now owner }
    {
        pins::find(&self.pins, owner)
    }

    /// Whether the head sees a revision that this node drew and that has ended. Where it doesn't,
    /// the earliest one of this node in flight, which is earlier, is named.
    pub fn awaits(&self, r: Revision) -> Awaits
        requires { HasEnded self.now r }
        ensures { IsAwaited self.now r result }
    {
        if self.head.sees(r) {
            return Awaits::Ready;
        }
        match self.above.first() {
            Some(first) => Awaits::Pending(first.revision),
            None => Awaits::Ready,
        }
    }

    /// What this node's draws changed since a vector (Oak, DocumentNodeStore: the diff cache, which
    /// local commits fill): the paths that they noted, with the draws that the vector doesn't see,
    /// in the order of the draws. None where the vector lacks what the head sees of other nodes, or
    /// is older than what is kept: then more may have changed.
    pub fn changed_since(&self, v: &RevVec) -> Option<&[Note]>
        ensures { MatchOption result (changed_since self.now v.now ≡ None)
            (λ notes. changed_since self.now v.now ≡ Some notes.now) }
    {
        if !self.known_from().is_below(v) {
            return None;
        }
        let seen = self.changed.partition_point(|note| v.sees(note.revision));
        Some(&self.changed[seen..])
    }

    /// Takes the noted paths whose revision the head sees, those of refused commits among them,
    /// each once and in path order, with the head's own entry. They are then no longer noted. What
    /// changed is dropped up to the oldest of the head and of the bases of the pins since which
    /// this node knows what changed.
    pub fn take_pending(&mut self) -> Result<Pending, AllocError>
        ensures pending { IfOk result (IsPending self.old) }
        ensures ok { OnOk result (self.new ≡ without_seen self.old) }
        ensures err { OnErr result (self.new ≡ self.old) }
    {
        let head = self.head;
        let oldest = self.oldest_own();
        let paths = due_paths(*self.notes.allocator(), &self.notes, &head)?;
        self.notes.retain(|note| !head.sees(note.revision));
        self.since = oldest;
        self.changed.retain(|note| oldest < note.revision);
        Ok(Pending {
            paths: List::of(paths),
            upto: self.own(),
        })
    }

    /// Raises the other nodes' entries of the head, and the entries of the sweep vector, to those
    /// that were read (the root's `_lastRev` and `_sweepRev`). None is lowered, and the head's
    /// entry of this node stays. It takes no memory.
    pub fn learn(&mut self, last_revisions: &RevVec, sweep: &RevVec)
        ensures { self.new ≡ learned self.old last_revisions.now sweep.now }
    {
        let own = self.own();
        self.head = self.head.max_with(last_revisions);
        self.head.set(own);
        self.sweep = self.sweep.max_with(sweep);
    }

    /// Stops the node: it takes no further part, and stays stopped. It takes no memory.
    pub fn stop(&mut self)
        ensures { self.new ≡ with_stop self.old }
    {
        self.stopped = true;
    }

    /// Whether the node was stopped.
    pub fn is_stopped(&self) -> bool
        ensures { result ≡ self.now.stopped }
    {
        self.stopped
    }

    /// What a recovery by another node does in the memory of a stopped one: it ends all that is in
    /// flight, in ascending order, and drops all pins (those of sessions and of cursors). It takes
    /// no memory.
    pub fn recover(&mut self)
        requires { IsTrue self.old.stopped }
        ensures { self.new ≡ with_recovery self.old }
    {
        let last = last(self.own(), &self.above);
        self.head.set(last);
        self.above.clear();
        self.pins.clear();
        self.recovered = true;
    }

    /// Whether the memory was recovered.
    pub fn is_recovered(&self) -> bool
        ensures { result ≡ self.now.recovered }
    {
        self.recovered
    }

    // The head with the sweep vector.
    fn pin_now(&self) -> Pin
        ensures { result ≡ pin_now self.now }
    {
        Pin {
            base: self.head,
            sweep: self.sweep,
        }
    }

    // The head's entry of this node.
    fn own(&self) -> Revision
        ensures { result ≡ own_entry self.now }
    {
        match self.head.get(self.cluster) {
            Some(own) => own,
            None => start_of(self.cluster),
        }
    }

    // The least vector since which this node knows what changed.
    fn known_from(&self) -> RevVec
        ensures { result ≡ known_from self.now }
    {
        let mut known = self.head;
        known.set(self.since);
        known
    }

    // The earliest own entry of the head, and of the bases of the pins since which this node knows
    // what changed.
    fn oldest_own(&self) -> Revision
        ensures { result ≡ oldest_own self.now }
    {
        let known = self.known_from();
        pins::oldest(&self.pins, &known, self.cluster, self.own())
    }
}

// Notes the paths with a revision, to be published and as changed, and puts it behind those drawn
// before, in flight. Where memory is refused nothing changes.
fn put_draw(
    above: &mut Vec<Drawn>,
    notes: &mut Vec<Note>,
    changed: &mut Vec<Note>,
    paths: &[Path],
    revision: Revision,
) -> Result<(), AllocError>
    ensures noted { OnOk result (notes.new.items ≡ notes.old.items ++ notes_of revision paths.now) }
    ensures more { OnOk result
        (changed.new.items ≡ changed.old.items ++ notes_of revision paths.now) }
    ensures drawn { OnOk result
        (above.new.items ≡ above.old.items ++ record { revision = revision; ended = false } ∷ []) }
    ensures notes { OnErr result (notes.new.items ≡ notes.old.items) }
    ensures changed { OnErr result (changed.new.items ≡ changed.old.items) }
    ensures above { OnErr result (above.new.items ≡ above.old.items) }
{
    let before = changed.len();
    put_notes(changed, paths, revision)?;
    match put_drawn(above, notes, paths, revision) {
        Ok(()) => Ok(()),
        Err(error) => {
            changed.truncate(before);
            Err(error)
        }
    }
}

// Notes the paths with a revision, and puts it behind those drawn before, in flight. Where memory
// is refused nothing changes.
fn put_drawn(
    above: &mut Vec<Drawn>,
    notes: &mut Vec<Note>,
    paths: &[Path],
    revision: Revision,
) -> Result<(), AllocError>
    ensures noted { OnOk result (notes.new.items ≡ notes.old.items ++ notes_of revision paths.now) }
    ensures drawn { OnOk result
        (above.new.items ≡ above.old.items ++ record { revision = revision; ended = false } ∷ []) }
    ensures notes { OnErr result (notes.new.items ≡ notes.old.items) }
    ensures above { OnErr result (above.new.items ≡ above.old.items) }
{
    let noted = notes.len();
    put_notes(notes, paths, revision)?;
    match put_in_flight(above, revision) {
        Ok(()) => Ok(()),
        Err(error) => {
            notes.truncate(noted);
            Err(error)
        }
    }
}

// The greatest time in a vector.
fn greatest_time(vector: &RevVec) -> u64
    ensures { result ≡ latest_time vector.now }
{
    let mut time = 0;
    for cluster in [1, 2, 3, 4, 5, 6, 7, 8] {
        if let Some(r) = vector.get(cluster) {
            time = time.max(r.time);
        }
    }
    time
}
