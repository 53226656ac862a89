// The lock: a table of two words and one slot under the rule.
ghost use Rattle.std.specs.Prelude.{◌≡◌};

use crate::counted::Counted;
use crate::pass::{Hold, Pass};
use crate::rule::{
    Add, GiveTurn, Handed, JoinViews, Load, LockRule, Look, SplitView, TakeTurn, View,
};
use atomic_table::Table;
use std::alloc::{AllocError, Global};
use std::marker::Brand;
use std::snapshot::Snapshot;
use std::sync::Wait;

/// A value with a journal, which passes take in turn.
///
/// Each call has the condition that the passes given to it are of this lock: they come from its `new` or `split`.
#[derive(Drop)]
pub struct SeatLock<T: Counted> {
    table: Table<
        Option<T>,
        View<T, T::Entry, T::Part, T::Frame, T::Steady>,
        Snapshot<T>,
        LockRule<T>,
        Global,
    >,
    ghost two_words: { table.shared.table_id.words ≡ 2 },
    ghost one_slot: { table.shared.table_id.slots ≡ 1 },
}

impl<T: Counted> SeatLock<T> {
    ghost use Rattle.std.specs.Prelude.{◌≡◌, ◌≢◌, ◌<◌, ◌∷◌, ◌++◌, [], ℕ, length, IfOk, Some, None, true, false};
    ghost use mathlib.Core.List.{IsPrefix};
    ghost use Rattle.seat_lock.specs.Views.{first_view, loaded, released, kept_back, handed, joined, merged_places, new_places, with_round};
    ghost use Rattle.seat_lock.specs.Passes.{IsOf, IsAtRest, IsHoldOf, GoesOn, HasAuthor, HasPart, HasFrame, HasSteady, view_of, seen_of, places_of, weight_of, got_of};
    ghost use Rattle.seat_lock.specs.declared.rule.Round.TheVariants.{Idle, Turn, Out};

    /// A lock round the value, and its first pass, which has every author and the weight 1,024.
    pub fn new(alloc: Global, value: T) -> Result<(SeatLock<T>, Pass<T>), AllocError>
    where
        T: Drop,
        ensures own { IfOk result (λ r. IsOf r.0 r.1) }
        ensures pass { IfOk result (λ r. view_of r.1 ≡ first_view T.Counted value) }
    {
        let about = Snapshot::of(&value);
        let count = value.count();
        let mut slots = Vec::new(alloc);
        match slots.push(Some(value)) {
            Ok(()) => {}
            Err(_) => return Err(AllocError),
        }
        match Table::new(alloc, &[0, count], slots, &about) {
            Ok((table, seat)) => Ok((SeatLock { table }, Pass { seat })),
            Err(_) => Err(AllocError),
        }
    }

    /// Waits until no pass has the turn, and takes the value out.
    ///
    /// It has the frame of the value given to `new`, a journal that begins with all that the pass has seen, and for each author of the pass the part that the pass last left. Where its journal is all that the pass has seen, nothing has changed that changes only where the journal grows. With a `Hold` of this pass out it waits for ever.
    pub fn acquire<R: Wait>(&self, rt: &R, pass: &mut Pass<T>) -> Hold<T>
        requires { IsOf self.now pass.old }
        ensures own { IsOf self.now pass.new }
        ensures rest { IsAtRest pass.old }
        ensures hold { IsHoldOf pass.new result }
        ensures got { got_of result ≡ result.value }
        ensures longer { IsPrefix (seen_of pass.old) (T.journal result.value) }
        ensures frame { HasFrame pass.old (T.frame result.value) }
        ensures steady { seen_of pass.old ≡ T.journal result.value → HasSteady pass.old (T.steady result.value) }
        ensures parts { (a : ℕ) (q : T.Part) → HasPart pass.old a q → T.part result.value a ≡ q }
        ensures pass { view_of pass.new ≡ loaded T.Counted result.value (view_of pass.old) }
    {
        'tries: for _ in rt.forever() {
            if self.try_turn(pass) {
                return self.load(pass);
            }
            self.table.shared.park(rt, 0, 1);
        }
        unreachable!()
    }

    // Takes the turn if no pass has it.
    fn try_turn(&self, pass: &mut Pass<T>) -> bool
        requires { IsOf self.now pass.old }
        ensures own { IsOf self.now pass.new }
        ensures got { result ≡ true → IsAtRest pass.old × (view_of pass.new ≡ with_round Turn (view_of pass.old)) }
        ensures missed { result ≡ false → view_of pass.new ≡ view_of pass.old }
    {
        let words = &self.table.shared;
        words.compare_exchange::<TakeTurn>(&mut pass.seat, 0, 0, 1) == 0
    }

    // Loads the count and takes the value out.
    fn load(&self, pass: &mut Pass<T>) -> Hold<T>
        requires own { IsOf self.now pass.old }
        requires turn { (view_of pass.old).round ≡ Turn }
        ensures own { IsOf self.now pass.new }
        ensures hold { IsHoldOf pass.new result }
        ensures got { got_of result ≡ result.value }
        ensures longer { IsPrefix (seen_of pass.old) (T.journal result.value) }
        ensures frame { HasFrame pass.old (T.frame result.value) }
        ensures steady { seen_of pass.old ≡ T.journal result.value → HasSteady pass.old (T.steady result.value) }
        ensures parts { (a : ℕ) (q : T.Part) → HasPart pass.old a q → T.part result.value a ≡ q }
        ensures pass { view_of pass.new ≡ loaded T.Counted result.value (view_of pass.old) }
    {
        let before = self.table.shared.load::<Load>(&mut pass.seat, 1);
        match self.table.shared.exchange(&mut pass.seat, 0, None) {
            Some(value) => {
                let taken = Snapshot::of(&value);
                Hold {
                    value,
                    before,
                    taken,
                }
            }
            None => unreachable!(),
        }
    }

    /// Puts the value back, counts its new events and gives up the turn.
    ///
    /// The hold is the one that this pass got, its frame is the one got, its journal extends the one got, the parts of authors that the pass hasn't are those got, and so is what changes only where the journal grows, if it hasn't grown. The pass has then seen the whole journal, has the places of the new events too, and has for each of its authors the part left.
    pub fn release(&self, pass: &mut Pass<T>, hold: Hold<T>)
        requires own { IsOf self.now pass.old }
        requires hold { IsHoldOf pass.old hold }
        requires goes_on { GoesOn pass.old hold }
        ensures own { IsOf self.now pass.new }
        ensures pass { view_of pass.new ≡ released T.Counted hold.value (view_of pass.old) }
        ensures places { places_of pass.new ≡ places_of pass.old ++ new_places (T.journal (got_of hold)) (T.journal hold.value) }
        ensures parts { (a : ℕ) → HasAuthor pass.old a → HasPart pass.new a (T.part hold.value a) }
    {
        let Hold {
            value,
            before,
            taken: _,
        } = hold;
        let more = value.count() - before;
        match self.table.shared.exchange(&mut pass.seat, 0, Some(value)) {
            None => {}
            Some(_) => unreachable!(),
        }
        self.table.shared.fetch_add::<Add>(&mut pass.seat, 1, more);
        self.table.shared.store::<GiveTurn>(&mut pass.seat, 0, 0);
        self.table.shared.wake_one(0);
    }

    /// Makes a pass that has seen as much, and hands to it 1 of the weight and those of the pass's authors that are named.
    pub fn split(&self, pass: &mut Pass<T>, authors: &[u32]) -> Pass<T>
        requires own { IsOf self.now pass.old }
        requires weight { 1 < weight_of pass.old }
        ensures own { IsOf self.now pass.new × IsOf self.now result }
        ensures given { view_of result ≡ handed authors.now (view_of pass.old) }
        ensures left { view_of pass.new ≡ kept_back authors.now (view_of pass.old) }
    {
        self.split_by::<Brand>(pass, authors)
    }

    fn split_by<J: Handed>(&self, pass: &mut Pass<T>, authors: &[u32]) -> Pass<T>
        requires own { IsOf self.now pass.old }
        requires weight { 1 < weight_of pass.old }
        requires named { J.authors ≡ authors.now }
        ensures own { IsOf self.now pass.new × IsOf self.now result }
        ensures given { view_of result ≡ handed authors.now (view_of pass.old) }
        ensures left { view_of pass.new ≡ kept_back authors.now (view_of pass.old) }
    {
        let _ = authors;
        let seat = self.table.shared.split_seat::<SplitView<J>>(&mut pass.seat);
        Pass { seat }
    }

    /// Takes in another pass, of which no `Hold` is out: its weight, its authors with their parts, its places, and the longer of the journals seen.
    pub fn join(&self, pass: &mut Pass<T>, other: Pass<T>)
        requires own { IsOf self.now pass.old × IsOf self.now other }
        requires rest { IsAtRest other }
        ensures own { IsOf self.now pass.new }
        ensures pass { view_of pass.new ≡ joined (view_of pass.old) (view_of other) }
        ensures places { places_of pass.new ≡ merged_places (places_of pass.old) (places_of other) }
        ensures longer { IsPrefix (seen_of pass.old) (seen_of pass.new) }
        ensures longer_too { IsPrefix (seen_of other) (seen_of pass.new) }
    {
        let Pass { seat } = other;
        self.table
            .shared
            .join_seat::<JoinViews>(&mut pass.seat, seat);
        self.table.shared.load::<Look>(&mut pass.seat, 0);
    }

    /// Gives back the value. The pass has the whole weight, so it is the only one, and no `Hold` is out.
    pub fn close(self, pass: Pass<T>) -> T
        requires own { IsOf self pass }
        requires rest { IsAtRest pass }
        requires whole { weight_of pass ≡ 1024 }
        ensures journal { T.journal result ≡ seen_of pass }
        ensures frame { HasFrame pass (T.frame result) }
        ensures parts { (a : ℕ) (q : T.Part) → HasPart pass a q → T.part result a ≡ q }
    {
        let SeatLock { table } = self;
        let Pass { seat } = pass;
        let mut closed = table.close_with(seat);
        let value = closed.take(0);
        closed.free();
        value.unwrap()
    }
}
