//! What splits and collections in a world rest on, and that each of their steps keeps the world.
#![tactic(auto)]

ghost use Rattle.std.specs.declared.alloc.Global.{Global};
ghost use Rattle.std.specs.FinMap.{is_sorted};
ghost use Rattle.std.specs.Prelude.{◌≡◌, ◌≤◌, ◌⊎◌, ◌++◌, ◌==◌, ℕ, List, Option, Some, None, IsTrue, IsFalse};
ghost use Rattle.jr_path.specs.Ids.{id_cmp};
ghost use Rattle.jr_path.specs.declared.path.DocId.{DocId};
ghost use Rattle.jr_path.specs.declared.path.DocId.TheVariants as id;
ghost use Rattle.jr_path.specs.declared.path.Path.{Path};
ghost use Rattle.jr_rev.specs.declared.revision.Revision.{Revision};
ghost use Rattle.jr_rev.specs.declared.vector.Pin.{Pin};
ghost use Rattle.oak_doc.specs.declared.document.Document.{Document};
ghost use Rattle.oak_doc.specs.declared.update.UpdateOp.{UpdateOp};
ghost use Rattle.oak_gc.specs.Collecting as collecting;
ghost use Rattle.oak_machine.specs.declared.event.Event.{Event};
ghost use Rattle.oak_machine.specs.History.{Past};
ghost use Rattle.oak_machine.specs.Laws.{AreOthers};
ghost use Rattle.oak_machine.specs.Runs.{MayFollow, is_task_end};
ghost use Rattle.oak_machine.specs.Sessions.{has_left, has_login, is_stopped_under};
ghost use Rattle.oak_prev.specs.Splitting as splitting;
ghost use Rattle.oak_read.specs.Meaning.{documents_in};
ghost use Rattle.oak_read.specs.Reading.{IsTable, node_reader};
ghost use Rattle.oak_store.specs.Tables.{Table, after_undo};
ghost use Rattle.oak_tidy.specs.declared.tidying.Tidying.{Tidying};
ghost use Rattle.oak_tidy.specs.declared.tidying.Tidying.TheVariants as tidying;
ghost use Rattle.oak_tidy.specs.Tidyings.{CanTidy};
ghost use Rattle.core_tidy.specs.Beside.{IsPlainStep, LetsTidy};
ghost use Rattle.core_tidy.specs.Ordered.{IsTableStep};
ghost use Rattle.core_tidy.specs.Steps.{IsTidyStep};
ghost use Rattle.core_tidy.specs.Tidying.{AreTidying};
ghost use Rattle.core_world.specs.Collecting.{without};
ghost use Rattle.core_world.specs.Kept.{IsKept};
ghost use Rattle.core_world.specs.Numbers.{last_number};
ghost use Rattle.core_world.specs.Start.{start_state};
ghost use Rattle.core_world.specs.States.{State, actor_pin, history_in, with_session};
ghost use Rattle.core_world.specs.Steps.{after_task_end, after_update, with_reader};

use oak_machine::Law;

/// Updates, undoings and removals leave the entries of each document in order, and their numbers
/// come once.
pub fn tables_stay_in_order()
    ensures update { (t : Table) (op : UpdateOp) → t.number ≤ last_number
        → IsTableStep t (after_update t op) }
    ensures undo { (t : Table) (p : Path) (r : Revision) → t.number ≤ last_number
        → IsTableStep t (after_undo t (id.Node p) r) }
    ensures removed { (t : Table) (i : DocId) → IsTrue (is_sorted id_cmp t.documents)
        → IsTableStep t (without t i) }
{}

/// In the world before any step nothing tidies. A split begins as a reader of its node at the pin
/// of its session, and a collection with nothing read. Either ends, also where memory is refused
/// for its step; then the world goes on without it, and how it ended is told.
pub fn tidying_begins_and_ends<L: Law>(law: &L)
    ensures start { (clusters : ℕ) (sessions : List ℕ)
        → AreTidying (start_state clusters sessions) (λ s. None) }
    ensures split { let kept = IsKept (L.may_start law.now) (L.may_say law.now) in
        (w : State) (does : ℕ → Option Tidying) (s : ℕ) (a : Global) (pin : Pin) (p : Path)
        → kept w → AreTidying w does → IsFalse (is_stopped_under w.sessions w.past s)
        → IsTrue (has_login w.past s) → IsFalse (has_left w.past s) → actor_pin w s ≡ Some pin
        → AreTidying (with_reader w s (Some (node_reader a pin p)))
        (with_session does s (Some (tidying.Split (splitting.begun a pin p)))) }
    ensures collection { let kept = IsKept (L.may_start law.now) (L.may_say law.now) in
        (w : State) (does : ℕ → Option Tidying) (s : ℕ) (a : Global) → kept w → AreTidying w does
        → IsTrue (has_login w.past s) → IsFalse (has_left w.past s)
        → AreTidying (with_reader w s None)
        (with_session does s (Some (tidying.Collect (collecting.begun a w.clusters)))) }
    ensures end { let kept = IsKept (L.may_start law.now) (L.may_say law.now) in
        (w : State) (does : ℕ → Option Tidying) (s : ℕ) → kept w → AreTidying w does
        → AreTidying (with_reader w s None) (with_session does s None) }
    ensures told { let kept = IsKept (L.may_start law.now) (L.may_say law.now) in
        (w : State) (does : ℕ → Option Tidying) (s : ℕ) (e : Event) → kept w → AreTidying w does
        → does s ≡ None → IsTrue (is_task_end s e)
        → MayFollow (L.may_start law.now) (L.may_say law.now) (history_in w) e
        → AreTidying (after_task_end w e) does }
{}

/// Each step of a split or a collection keeps the world, leaves what all the others have read and
/// written, and lets them go on; and once nothing more is due, how it ended may be told.
pub fn tidying_keeps_the_world<L: Law>(law: &L)
    ensures step { let kept = IsKept (L.may_start law.now) (L.may_say law.now) in
        (w : State) (does : ℕ → Option Tidying) (s : ℕ) (x : Tidying) → kept w → AreTidying w does
        → IsTable w.table.documents → does s ≡ Some x → CanTidy w.clusters x
        → IsTidyStep (L.may_start law.now) (L.may_say law.now) w does s x }
{}

/// A step of a session that tidies nothing leaves to all that tidies what it has read and written,
/// where previous documents and what is listed stay: it changes no node's document, or one, that
/// lists then what it listed before.
pub fn others_leave_what_tidies<L: Law>(law: &L)
    ensures plain { let kept = IsKept (L.may_start law.now) (L.may_say law.now) in
        (w u : State) (does : ℕ → Option Tidying) → kept w → kept u → AreTidying w does
        → IsPlainStep w u → LetsTidy w u (λ p k. ⊥) }
    ensures others { let kept = IsKept (L.may_start law.now) (L.may_say law.now) in
        (w u : State) (does : ℕ → Option Tidying) (s : ℕ) → kept w → kept u → AreTidying w does
        → (lets : LetsTidy w u (λ p k. ⊥)) → does s ≡ None
        → ((q : ℕ) → IsFalse (q == s)
        → AreOthers q lets.step.own w.past × (u.reading q ≡ w.reading q))
        → AreTidying u does }
{}
