// What the rule of the lock gives.
ghost use Rattle.std.specs.Prelude.{◌≡◌, ◌↔◌, ◌⊎◌, ℕ, List, Contains};
ghost use Rattle.seat_lock.specs.declared.rule.View.{View};
ghost use Rattle.seat_lock.specs.Views.{OwnsPart, OwnsAuthor, merged_places, first_view, released, handed, kept_back, joined};
ghost use Rattle.seat_lock.specs.Rule.{Kept, LockState, LockMe};
ghost use Rattle.seat_lock.specs.Clauses.{Clauses, AddedMovesNoSlot, HasAdded};

use crate::counted::Counted;

/// In each state that the rule allows the twelve clauses of the lock hold, a pass that has added moves no slot until it has given up the turn, and the places of a joined view are those of both.
pub fn rule_gives_clauses<T: Counted>()
    ensures clauses { (s : LockState T T.Entry T.Part T.Frame T.Steady) → Kept T.Counted s → Clauses T.Counted s }
    ensures slots { (m : LockMe T T.Entry T.Part T.Frame T.Steady) → HasAdded m.0 → AddedMovesNoSlot T.Counted m }
    ensures places { (ps qs : List ℕ) (p : ℕ) → Contains (merged_places ps qs) p ↔ (Contains ps p ⊎ Contains qs p) }
{}

/// Which parts a view has after each call: of `new` the part of each author, of `release` that of each of its own authors in the value put back, of `split` those of the named authors, and the others, and of `join` those of both.
pub fn parts_after_calls<T: Counted>()
    ensures new { (x : T) (a : ℕ) (q : T.Part) → OwnsPart (first_view T.Counted x) a q ↔ (Contains (T.authors x) a × (q ≡ T.part x a)) }
    ensures release { (x : T) (v : View T T.Entry T.Part T.Frame T.Steady) (a : ℕ) (q : T.Part) → OwnsPart (released T.Counted x v) a q ↔ (OwnsAuthor v a × (q ≡ T.part x a)) }
    ensures split { (names : List ℕ) (v : View T T.Entry T.Part T.Frame T.Steady) (a : ℕ) (q : T.Part) → OwnsPart (handed names v) a q ↔ (Contains names a × OwnsPart v a q) }
    ensures left { (names : List ℕ) (v : View T T.Entry T.Part T.Frame T.Steady) (a : ℕ) (q : T.Part) → OwnsPart (kept_back names v) a q ↔ ((¬ Contains names a) × OwnsPart v a q) }
    ensures join { (v w : View T T.Entry T.Part T.Frame T.Steady) (a : ℕ) (q : T.Part) → OwnsPart (joined v w) a q ↔ (OwnsPart v a q ⊎ OwnsPart w a q) }
{}
