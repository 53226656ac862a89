//! What a world of many sessions keeps, and that each of its steps keeps it.
#![tactic(auto)]

ghost use Rattle.std.specs.Prelude.{◌≡◌, ◌≢◌, ◌↔◌, ◌⊎◌, ◌∷◌, ◌++◌, ◌+◌, [], ℕ, ◌≤◌, ◌<◌, IsSome, List, Option, Some, None, length, slice_get, is_some, IsTrue, IsFalse, Bool};
ghost use Rattle.std.specs.List.{All};
ghost use Rattle.std.specs.List.{filter, list_any, list_all};
ghost use Rattle.std.specs.Option.{option_map_or};
ghost use Rattle.jr_path.specs.declared.name.Name.{Name};
ghost use Rattle.jr_rev.specs.Revisions.{is_before, is_same};
ghost use Rattle.jr_rev.specs.Vectors.{sees, start_of, greatest, no_entries};
ghost use Rattle.oak_clash.specs.Clashes.{marked_paths};
ghost use Rattle.oak_clash.specs.declared.mark.Mark.TheVariants as mark;
ghost use Rattle.oak_commit.specs.Clashing.{has_mark, marked, noted};
ghost use Rattle.oak_clash.specs.declared.mark.Mark.{Mark};
ghost use Rattle.oak_read.specs.Meaning as meaning;
ghost use Rattle.core_clash.specs.Sound.{has_moved};
ghost use Rattle.std.specs.declared.alloc.Global.{Global};
ghost use Rattle.jr_path.specs.Grammar.{IsName};
ghost use Rattle.jr_path.specs.declared.path.DocId.{DocId};
ghost use Rattle.jr_path.specs.declared.path.DocId.TheVariants as id;
ghost use Rattle.jr_path.specs.declared.path.Item.{Item};
ghost use Rattle.jr_path.specs.declared.path.Path.{Path};
ghost use Rattle.jr_path.specs.Lists.{Text};
ghost use Rattle.jr_rev.specs.declared.revision.Revision.{Revision};
ghost use Rattle.jr_rev.specs.declared.vector.Pin.{Pin};
ghost use Rattle.std.specs.Ordering.{eq_by_cmp};
ghost use Rattle.std.specs.BTreeMap.{is_at};
ghost use Rattle.std.specs.Map.{lookup};
ghost use Rattle.jr_path.specs.Names.{name_cmp, path_cmp};
ghost use Rattle.jr_rev.specs.declared.vector.RevVec.{RevVec};
ghost use Rattle.jr_rev.specs.Revisions.{is_at_most};
ghost use Rattle.jr_rev.specs.Vectors.{is_below, sees};
ghost use Rattle.oak_machine.specs.declared.event.Start.{Start};
ghost use Rattle.oak_machine.specs.History.{Begin, Past};
ghost use Rattle.core_keep.specs.Keeps.{is_done};
ghost use Rattle.oak_machine.specs.Heads.{local, published};
ghost use Rattle.oak_node.specs.Memory.{own_entry};
ghost use Rattle.jr_tree.specs.declared.edit.Edit.{Edit};
ghost use Rattle.jr_tree.specs.Trees.{node_at};
ghost use Rattle.oak_clash.specs.declared.mark.MarkAt.{MarkAt};
ghost use Rattle.oak_commit.specs.Clashing.{Met, found, mark_op};
ghost use Rattle.oak_commit.specs.Writing.{last_op, write_op};
ghost use Rattle.jr_tree.specs.declared.edit.Write.{Write};
ghost use Rattle.oak_doc.specs.declared.document.Document.{Document};
ghost use Rattle.oak_doc.specs.declared.update.Change.{Change};
ghost use Rattle.oak_doc.specs.declared.update.Change.TheVariants as change;
ghost use Rattle.oak_doc.specs.declared.update.UpdateOp.{UpdateOp};
ghost use Rattle.oak_machine.specs.declared.event.Event.{Event};
ghost use Rattle.oak_machine.specs.declared.event.StepKind.{StepKind};
ghost use Rattle.oak_machine.specs.declared.event.StepKind.TheVariants as kind;
ghost use Rattle.oak_machine.specs.Commits.{IsClosed, IsSettled, are_clashing, is_committed, is_drawn, is_ended, is_in_base, is_in_flight, is_refused, refusal_of, tree_at};
ghost use Rattle.oak_machine.specs.Runs.{AreNodes, IsNode, IsRunOf, MayFollow, is_task_end};
ghost use Rattle.oak_machine.specs.Sessions.{base_of, cursor_at, session_base, has_left, has_login, has_reader, is_attached, is_recovered, is_stopped, is_stopped_under, kept_checkpoint, next_index};
ghost use Rattle.oak_machine.specs.Steps.{is_kind};
ghost use Rattle.oak_node.specs.Heads.{IsInFlight, known_time, learned};
ghost use Rattle.oak_node.specs.Pins.{pin_of};
ghost use Rattle.oak_doc.specs.declared.document.PrevEntry.{PrevEntry};
ghost use Rattle.jr_tree.specs.declared.shared.CommitChanges.{CommitChanges};
ghost use Rattle.oak_changes.specs.Reading as changes;
ghost use Rattle.oak_changes.specs.Reading.{changes_reader};
ghost use Rattle.oak_changes.specs.declared.changes.ChangesReader.{ChangesReader};
ghost use Rattle.oak_changes.specs.declared.changes.Step.TheVariants as observed;
ghost use Rattle.oak_machine.specs.Changed.{changes_between};
ghost use Rattle.oak_read.specs.declared.reader.Reader.{Reader};
ghost use Rattle.oak_read.specs.declared.reader.ReadOut.{ReadOut};
ghost use Rattle.oak_read.specs.declared.reader.Step.TheVariants as step;
ghost use Rattle.oak_read.specs.Meaning.{Documents, documents_in, found_node, path_of};
ghost use Rattle.oak_read.specs.Reading.{IsTable, answer, children_reader, due, fed, node_reader};
ghost use Rattle.oak_store.specs.Tables.{Table, after_undo, next_number, with_document};
ghost use Rattle.core_clash.specs.Core.{IsDead, root_of};
ghost use Rattle.oak_machine.specs.declared.event.Draw.{Draw};
ghost use Rattle.oak_commit.specs.Looking.{whole};
ghost use Rattle.core_clash.specs.Sessions.{Running};
ghost use Rattle.core_clash.specs.Sound.{Cause, IsRooted};
ghost use Rattle.core_clash.specs.Views.{In};
ghost use Rattle.core_keep.specs.Formers.{AreFormers, Former, former_now, Formers, IsCopyOf, with_former};
ghost use Rattle.core_keep.specs.Keeps.{Course};
ghost use Rattle.core_keep.specs.Bounds.{root_pair};
ghost use Rattle.core_keep.specs.Splits.{previous_write, IsInOrder};
ghost use Rattle.core_keep.specs.Holding.{IsHoldingStep};
ghost use Rattle.core_keep.specs.Journal.{is_swept};
ghost use Rattle.core_read.specs.Told.{IsIn};
ghost use Rattle.core_read.specs.World.{Progress};
ghost use Rattle.std.specs.FinMap.{is_sorted};
ghost use Rattle.jr_path.specs.Ids.{id_cmp};
ghost use Rattle.oak_doc.specs.Updates.{after_changes};
ghost use Rattle.core_world.specs.Bounding.{CanAllBound, fed_node, fed_settings, IsBounding};
ghost use Rattle.core_world.specs.Copying.{IsCopied, IsFoundIn, LetsCopy};
ghost use Rattle.core_world.specs.Numbers.{last_number, AreNumbered, IsNumberStep, IsPassed, IsReadIn, IsSplitting};
ghost use Rattle.core_clash.specs.Collecting.{IsBoundOf};
ghost use Rattle.core_keep.specs.Dropping.{is_number_of};
ghost use Rattle.core_keep.specs.Garbage.{is_garbage_previous, pruning};
ghost use Rattle.core_read.specs.Writes.{IsOrderedDocument};
ghost use Rattle.core_keep.specs.Steps.{IsChangeAt, IsMainAt, IsPreviousAt, IsUnlisted};
ghost use Rattle.core_nodes.specs.Nodes.{IsPair, base_of_pin, begin_time, cursor_owner};
ghost use Rattle.core_watch.specs.Standing.{AreChildrenOf, IsNodeOf, path_read};
ghost use Rattle.core_world.specs.Collecting.{MayPrune, MayRemove, MayRemovePrevious, MaySplit, after_copied, after_pruned, after_removed, after_split, after_taken_back, without};
ghost use Rattle.core_world.specs.Freed.{HasNothing, brings_nothing};
ghost use Rattle.core_world.specs.Held.{after_bound, holding_in, MayTakeBound};
ghost use Rattle.core_world.specs.Kept.{IsClearedOf, IsFreeOf, IsKept, SeesStarts, WereOnRoot, has_written};
ghost use Rattle.core_world.specs.Start.{start_state, start_table};
ghost use Rattle.core_world.specs.States.{State, actor_pin, base_in, history_in, memory_at, memory_of, moved_in, node_of, nodes_in, origin};
ghost use Rattle.core_world.specs.Steps.{IsThrough, LeavesOthers, after_attach, after_back, after_checkpoint, after_clear, after_detach, after_drop_readers, after_publish, after_recover, after_stop, after_release, after_learn, after_learn_swept, after_out, after_pending, after_sweep, after_draw, after_finish, after_unfound, after_last, after_leave, after_login, after_mark, after_observe, after_refresh, after_said, after_task_end, after_undoing, after_update, after_want, after_went, after_write, after_write_in_want, with_observer, with_reader};
ghost use Rattle.core_world.specs.Sweeping.{swept_target};
ghost use Rattle.core_begun.specs.Told.{IsToldSince};
ghost use Rattle.core_begun.specs.Kept.{IsHeldSince, IsKeptSince};
ghost use Rattle.core_keep.specs.From.{course_from};

use oak_machine::Law;

/// The world before any step is kept, and so it is after each step of a session that is no
/// commit's: a login, a refresh, its leaving, a pin of its cursor at its own pin, a reply, how a
/// split or a collection ended, a step that changes neither documents nor memories; a reader that
/// is made at the session's pin, that is fed what the documents answer, or that is taken away.
pub fn sessions_keep_the_world<L: Law>(law: &L)
    ensures start { let kept = IsKept (L.may_start law.now) (L.may_say law.now) in
        (clusters : ℕ) (sessions : List ℕ) → AreNodes clusters sessions
        → kept (start_state clusters sessions) }
    ensures login { let kept = IsKept (L.may_start law.now) (L.may_say law.now) in
        (w : State) (s : ℕ) → kept w → IsFalse (is_stopped_under w.sessions w.past s)
        → IsTrue (is_some (slice_get w.sessions s)) → IsFalse (has_login w.past s)
        → kept (after_login w s) }
    ensures refresh { let kept = IsKept (L.may_start law.now) (L.may_say law.now) in
        (w : State) (s : ℕ) → kept w → IsFalse (is_stopped_under w.sessions w.past s)
        → IsTrue (has_login w.past s) → IsFalse (has_left w.past s) → w.running s ≡ None
        → w.reading s ≡ None → w.observing s ≡ None → kept (after_refresh w s) }
    ensures leave { let kept = IsKept (L.may_start law.now) (L.may_say law.now) in
        (w : State) (s : ℕ) → kept w → IsFalse (is_stopped_under w.sessions w.past s)
        → slice_get w.sessions (cursor_owner s) ≡ None → IsTrue (has_login w.past s)
        → IsFalse (has_left w.past s) → w.running s ≡ None → w.reading s ≡ None
        → w.observing s ≡ None → kept (after_leave w s) }
    ensures observe { let kept = IsKept (L.may_start law.now) (L.may_say law.now) in
        (w : State) (s : ℕ) (pin : Pin) → kept w → slice_get w.sessions (cursor_owner s) ≡ None
        → IsTrue (has_login w.past s) → IsFalse (has_left w.past s) → w.reading s ≡ None
        → w.observing s ≡ None → pin_of (memory_of w s) s ≡ Some pin
        → kept (after_observe w s pin) }
    ensures said { let kept = IsKept (L.may_start law.now) (L.may_say law.now) in
        (w : State) (s i : ℕ) (text : Text) → kept w → i ≡ next_index w.past s
        → L.may_say law.now (history_in w) s i text → kept (after_said w s i text) }
    ensures task_end { let kept = IsKept (L.may_start law.now) (L.may_say law.now) in
        (w : State) (s : ℕ) (e : Event) → kept w → IsTrue (is_task_end s e)
        → MayFollow (L.may_start law.now) (L.may_say law.now) (history_in w) e
        → kept (after_task_end w e) }
    ensures went { let kept = IsKept (L.may_start law.now) (L.may_say law.now) in
        (w : State) (s : ℕ) (k : StepKind) → kept w → IsFalse (is_kind k kind.End)
        → IsFalse (is_kind k kind.Pin) → IsTrue (has_login w.past s) → IsFalse (has_left w.past s)
        → kept (after_went w s k) }
    ensures load { let kept = IsKept (L.may_start law.now) (L.may_say law.now) in
        (w : State) (s : ℕ) (a : Global) (pin : Pin) (p : Path) → kept w
        → IsFalse (is_stopped_under w.sessions w.past s) → IsTrue (has_login w.past s)
        → IsFalse (has_left w.past s) → actor_pin w s ≡ Some pin
        → kept (with_reader w s (Some (node_reader a pin p))) }
    ensures list { let kept = IsKept (L.may_start law.now) (L.may_say law.now) in
        (w : State) (s : ℕ) (a : Global) (pin : Pin) (p : Path) → kept w
        → IsFalse (is_stopped_under w.sessions w.past s) → IsTrue (has_login w.past s)
        → IsFalse (has_left w.past s) → actor_pin w s ≡ Some pin
        → kept (with_reader w s (Some (children_reader a pin p))) }
    ensures read { let kept = IsKept (L.may_start law.now) (L.may_say law.now) in
        (w : State) (s : ℕ) (r : Reader) → kept w → w.reading s ≡ Some r → IsTable w.table.documents
        → kept (with_reader w s (Some (fed r (answer w.table.documents (due r))))) }
    ensures gone { let kept = IsKept (L.may_start law.now) (L.may_say law.now) in
        (w : State) (s : ℕ) → kept w → kept (with_reader w s None) }
{}

/// Each step of a commit keeps the world: the draw of an edit that the law lets start, with which
/// the paths that it marks are noted; the write of the next document, also where memory is then
/// refused for what is met there, and the mark of the next collision, of a committer that neither
/// has committed nor undoes; its last write, where nothing is left; its turn to undoing for want of
/// memory; the undoing of a document; and the end of its revision.
pub fn commits_keep_the_world<L: Law>(law: &L)
    ensures draw { let kept = IsKept (L.may_start law.now) (L.may_say law.now) in
        (w : State) (s : ℕ) (edit : Edit) (marks : List MarkAt) → kept w
        → IsFalse (is_stopped_under w.sessions w.past s) → IsTrue (has_login w.past s)
        → IsFalse (has_left w.past s) → IsFalse (is_attached w.past s) → w.running s ≡ None
        → L.may_start law.now (history_in w) s edit marks
        → kept (after_draw w s edit marks (marked_paths marks)) }
    ensures write { let kept = IsKept (L.may_start law.now) (L.may_say law.now) in
        (w : State) (s : ℕ) (x : Running) (p : Path) (rest : List Path) → kept w
        → w.running s ≡ Some x → IsFalse x.committed → IsFalse x.writer.undoing → x.writer.due ≡ []
        → x.writer.left ≡ p ∷ rest → kept (after_write w s x p rest) }
    ensures write_in_want { let kept = IsKept (L.may_start law.now) (L.may_say law.now) in
        (w : State) (s : ℕ) (x : Running) (p : Path) (rest : List Path) → kept w
        → w.running s ≡ Some x → IsFalse x.committed → IsFalse x.writer.undoing → x.writer.due ≡ []
        → x.writer.left ≡ p ∷ rest → kept (after_write_in_want w s x p rest) }
    ensures mark { let kept = IsKept (L.may_start law.now) (L.may_say law.now) in
        (w : State) (s : ℕ) (x : Running) (f : Met) (rest : List Met) → kept w
        → w.running s ≡ Some x → IsFalse x.committed → IsFalse x.writer.undoing
        → x.writer.due ≡ f ∷ rest → kept (after_mark w s x f rest) }
    ensures last { let kept = IsKept (L.may_start law.now) (L.may_say law.now) in
        (w : State) (s : ℕ) (x : Running) → kept w → w.running s ≡ Some x → IsFalse x.committed
        → IsFalse x.writer.undoing → x.writer.due ≡ [] → x.writer.left ≡ []
        → kept (after_last w s x) }
    ensures want { let kept = IsKept (L.may_start law.now) (L.may_say law.now) in
        (w : State) (s : ℕ) (x : Running) → kept w → w.running s ≡ Some x → IsFalse x.committed
        → IsFalse x.writer.undoing → kept (after_want w s x) }
    ensures undo { let kept = IsKept (L.may_start law.now) (L.may_say law.now) in
        (w : State) (s : ℕ) (x : Running) (p : Path) (rest : List Path) → kept w
        → w.running s ≡ Some x → IsFalse x.committed → IsTrue x.writer.undoing
        → x.writer.written ≡ p ∷ rest → kept (after_undoing w s x p rest) }
    ensures finish { let kept = IsKept (L.may_start law.now) (L.may_say law.now) in
        (w : State) (s : ℕ) (x : Running) → kept w → w.running s ≡ Some x → IsThrough x
        → kept (after_finish w s x) }
{}

/// What the calls of a committer ask for: its revision is in flight by the memory of its node, the
/// document in which it meets another, there or in a previous document that it lists, tells the
/// other's commit root; behind whom it would meet in a previous document there is a later one,
/// committed, whom it meets in the document in the same property, and what it is to mark was drawn.
/// The commit root of a drawn revision stays.
pub fn committers_find_what_they_need<L: Law>(law: &L)
    ensures flies { let kept = IsKept (L.may_start law.now) (L.may_say law.now) in
        (w : State) (s : ℕ) (x : Running) → kept w → w.running s ≡ Some x
        → IsInFlight (memory_of w s) x.draw.revision }
    ensures met { let kept = IsKept (L.may_start law.now) (L.may_say law.now) in
        (w : State) (s : ℕ) (x : Running) (p : Path) (f : Met) → kept w → w.running s ≡ Some x
        → In f (found x.draw.base x.draw.revision p x.draw.marks
        (whole p (nodes_in w.table p) (moved_in w.table p)))
        → IsRooted (nodes_in w.table p) f.other (root_of w.past f.other) }
    ensures shadowed { let kept = IsKept (L.may_start law.now) (L.may_say law.now) in
        (w : State) (s : ℕ) (x : Running) (p : Path) (o : Revision) (n : Name) → kept w
        → w.running s ≡ Some x → IsTrue (list_any (has_moved o (mark.Prop n)) (moved_in w.table p))
        → IsFalse (sees x.draw.base o)
        → (q : Revision) × IsTrue (is_before o q) × IsFalse (sees x.draw.base q)
        × (IsTrue (sees (origin w).at q) ⊎ IsTrue (is_committed w.past q))
        × IsTrue (marked (nodes_in w.table p) q (mark.Prop n)) }
    ensures due { let kept = IsKept (L.may_start law.now) (L.may_say law.now) in
        (w : State) (s : ℕ) (x : Running) (f : Met) → kept w → w.running s ≡ Some x
        → In f x.writer.due → IsTrue (is_drawn w.past f.other) }
    ensures roots { (w : State) (e : Event) (r : Revision) → AreNodes w.clusters w.sessions
        → IsRunOf (L.may_start law.now) (L.may_say law.now) w.clusters w.sessions w.begin (e
        ∷ w.past) → IsTrue (is_drawn w.past r) → root_of (e ∷ w.past) r ≡ root_of w.past r }
{}

/// A session that has logged in and hasn't left has a pin, at its base. The base of each session's
/// pin is settled and closed, and at it the documents show at each path the node of the tree that
/// the journal has there. A reader that is done gives that tree's node, or the names of its
/// children. No node knows a time that is greater than the number of events.
pub fn pins_show_the_tree<L: Law>(law: &L)
    ensures pinned { let kept = IsKept (L.may_start law.now) (L.may_say law.now) in
        (w : State) (s : ℕ) → kept w → IsFalse (is_stopped_under w.sessions w.past s)
        → IsTrue (has_login w.past s) → IsFalse (has_left w.past s)
        → (pin : Pin) × (pin_of (memory_of w s) s ≡ Some pin) × (pin.base ≡ base_in w s)
        × (IsFalse (is_attached w.past s) → base_of w.past s ≡ Some (base_in w s))
        × IsPair pin.base pin.sweep }
    ensures settled { let kept = IsKept (L.may_start law.now) (L.may_say law.now) in
        (w : State) (s : ℕ) (pin : Pin) → kept w → IsTrue (is_some (slice_get w.sessions s))
        → pin_of (memory_of w s) s ≡ Some pin → IsSettled w.past pin.base }
    ensures closed { let kept = IsKept (L.may_start law.now) (L.may_say law.now) in
        (w : State) (s : ℕ) (pin : Pin) → kept w → IsTrue (is_some (slice_get w.sessions s))
        → pin_of (memory_of w s) s ≡ Some pin → IsClosed w.past pin.base }
    ensures shown { let kept = IsKept (L.may_start law.now) (L.may_say law.now) in
        (w : State) (s : ℕ) (pin : Pin) (p : Path) → kept w
        → IsTrue (is_some (slice_get w.sessions s)) → pin_of (memory_of w s) s ≡ Some pin
        → found_node (documents_in w.table.documents) pin.sweep pin.base p
        ≡ node_at (tree_at w.begin w.past pin.base) p }
    ensures node { let kept = IsKept (L.may_start law.now) (L.may_say law.now) in
        (w : State) (s : ℕ) (r : Reader) (o : ReadOut) → kept w → w.reading s ≡ Some r
        → r.parent ≡ None → r.step ≡ step.Done o
        → IsNodeOf (tree_at w.begin w.past r.pin.base) (path_read r) o }
    ensures children { let kept = IsKept (L.may_start law.now) (L.may_say law.now) in
        (w : State) (s : ℕ) (r : Reader) (p : Path) (o : ReadOut) → kept w → w.reading s ≡ Some r
        → r.parent ≡ Some p → r.step ≡ step.Done o
        → AreChildrenOf (tree_at w.begin w.past r.pin.base) p o }
    ensures times { let kept = IsKept (L.may_start law.now) (L.may_say law.now) in
        (w : State) (k : ℕ) → kept w → IsNode w.clusters k
        → known_time (memory_at w.memories k) ≤ begin_time w.begin + length w.past }
{}

/// A reader of changes that is made from the cursor of a session up to the pin of its node's
/// memory, that is fed what the documents answer, or that is taken away, keeps the world; where it
/// is done it gives what the commits between the two changed, whatever came meanwhile. Its session
/// may be attached: it reads at its own pin, not at that of the checkpoint.
pub fn changes_are_observed<L: Law>(law: &L)
    ensures begins { let kept = IsKept (L.may_start law.now) (L.may_say law.now) in
        (w : State) (s : ℕ) (a : Global) (from : RevVec) (pin : Pin) → kept w
        → IsFalse (is_stopped_under w.sessions w.past s)
        → slice_get w.sessions (cursor_owner s) ≡ None → IsTrue (has_login w.past s)
        → IsFalse (has_left w.past s) → cursor_at w.past s ≡ Some from
        → pin_of (memory_of w s) s ≡ Some pin
        → kept (with_observer w s (Some (changes_reader a from pin))) }
    ensures feeds { let kept = IsKept (L.may_start law.now) (L.may_say law.now) in
        (w : State) (s : ℕ) (r : ChangesReader) → kept w → w.observing s ≡ Some r
        → IsTable w.table.documents
        → kept (with_observer w s
        (Some (changes.fed r (answer w.table.documents (changes.due r))))) }
    ensures gone { let kept = IsKept (L.may_start law.now) (L.may_say law.now) in
        (w : State) (s : ℕ) → kept w → kept (with_observer w s None) }
    ensures lies { let kept = IsKept (L.may_start law.now) (L.may_say law.now) in
        (w : State) (s : ℕ) (r : ChangesReader) → kept w → w.observing s ≡ Some r
        → (cursor_at w.past s ≡ Some r.from) × (session_base w.past s ≡ Some r.pin.base) }
    ensures gives { let kept = IsKept (L.may_start law.now) (L.may_say law.now) in
        (w : State) (s : ℕ) (r : ChangesReader) (o : List CommitChanges) → kept w
        → w.observing s ≡ Some r → r.step ≡ observed.Done o
        → o ≡ changes_between w.begin w.past r.from r.pin.base }
{}

/// Background work and sweeps keep the world: the taking of notes from memory, a document that is
/// told what is published, and last the root, of a revision that is at most the node's local one;
/// what a node learns of what the root told at some moment so far; and the root that is told how
/// far a sweep went, which is at most what was published, as its node learns then for itself alone.
/// What a task read of the root it may learn at any later moment. The head's own entry is the local
/// revision, and then sees what was public when the root was read.
pub fn background_work_keeps_the_world<L: Law>(law: &L)
    ensures pending { let kept = IsKept (L.may_start law.now) (L.may_say law.now) in
        (w : State) (s : ℕ) → kept w → IsTrue (has_login w.past s) → IsFalse (has_left w.past s)
        → kept (after_pending w s) }
    ensures back { let kept = IsKept (L.may_start law.now) (L.may_say law.now) in
        (w : State) (s : ℕ) (p : Path) (r : Revision) → kept w → IsTrue (has_login w.past s)
        → IsFalse (has_left w.past s) → IsFalse (eq_by_cmp path_cmp [] p)
        → kept (after_back w s p r) }
    ensures out { let kept = IsKept (L.may_start law.now) (L.may_say law.now) in
        (w : State) (s : ℕ) (r : Revision) → kept w → IsTrue (has_login w.past s)
        → r.cluster ≡ node_of w s → IsTrue (is_at_most r (local w.begin w.past (node_of w s)))
        → kept (after_out w s r) }
    ensures learn { let kept = IsKept (L.may_start law.now) (L.may_say law.now) in
        (w : State) (s : ℕ) (last sweep : RevVec) → kept w
        → IsFalse (is_stopped_under w.sessions w.past s) → IsTrue (has_login w.past s)
        → WereOnRoot w.begin w.clusters w.past last sweep → kept (after_learn w s last sweep) }
    ensures swept { let kept = IsKept (L.may_start law.now) (L.may_say law.now) in
        (w : State) (s : ℕ) (r : Revision) → kept w → IsTrue (has_login w.past s)
        → r.cluster ≡ node_of w s → IsTrue (is_at_most r (published w.begin w.past (node_of w s)))
        → kept (after_sweep w s r) }
    ensures learn_swept { let kept = IsKept (L.may_start law.now) (L.may_say law.now) in
        (w : State) (s : ℕ) (r : Revision) → kept w → IsTrue (has_login w.past s)
        → IsFalse (has_left w.past s) → r.cluster ≡ node_of w s
        → IsTrue (is_at_most r (local w.begin w.past (node_of w s)))
        → kept (after_learn_swept w s r) }
    ensures heard { let kept = IsKept (L.may_start law.now) (L.may_say law.now) in
        (w : State) (s : ℕ) (last sweep : RevVec) (r : Revision) → kept w
        → IsTrue (has_login w.past s) → WereOnRoot w.begin w.clusters w.past last sweep
        → IsTrue (sees last r) → IsTrue (sees (learned (memory_of w s) last sweep).head r) }
    ensures told { let kept = IsKept (L.may_start law.now) (L.may_say law.now) in
        (w : State) (d : Document) → kept w → nodes_in w.table [] ≡ Some d
        → WereOnRoot w.begin w.clusters w.past d.last_rev d.sweep_rev }
    ensures lasts { (begin : Begin) (clusters : ℕ) (e : Event) (past : Past) (last sweep : RevVec)
        → WereOnRoot begin clusters past last sweep
        → WereOnRoot begin clusters (e ∷ past) last sweep }
    ensures own { let kept = IsKept (L.may_start law.now) (L.may_say law.now) in
        (w : State) (s : ℕ) → kept w → IsTrue (has_login w.past s)
        → own_entry (memory_of w s) ≡ local w.begin w.past (node_of w s) }
    ensures published { let kept = IsKept (L.may_start law.now) (L.may_say law.now) in
        (w : State) (d : Document) (r : Revision) → kept w → nodes_in w.table [] ≡ Some d
        → IsTrue (sees d.last_rev r)
        ↔ (IsNode w.clusters r.cluster
        × IsTrue (is_at_most r (published w.begin w.past r.cluster))) }
{}

/// Checkpoints keep the world: one is made at the pin of a session, and one that is kept is
/// released; a session that reads nothing attaches to one that is kept, and a session that was
/// pinned again is detached; where there is none of the id, nothing is set. The settings have
/// exactly the last checkpoint of each id that wasn't released since. The pin at which a session
/// reads, which is that of the settings while it is attached, is at its base.
pub fn checkpoints_keep_the_world<L: Law>(law: &L)
    ensures checkpoint { let kept = IsKept (L.may_start law.now) (L.may_say law.now) in
        (w : State) (s : ℕ) (i : Text) (pin : Pin) → kept w
        → IsFalse (is_stopped_under w.sessions w.past s) → IsTrue (has_login w.past s)
        → IsFalse (has_left w.past s) → IsFalse (is_attached w.past s)
        → pin_of (memory_of w s) s ≡ Some pin → kept (after_checkpoint w s i pin) }
    ensures release { let kept = IsKept (L.may_start law.now) (L.may_say law.now) in
        (w : State) (i : Text) → kept w → IsSome (kept_checkpoint w.past i)
        → kept (after_release w i) }
    ensures attach { let kept = IsKept (L.may_start law.now) (L.may_say law.now) in
        (w : State) (s : ℕ) (i : Text) (v : RevVec) → kept w
        → IsFalse (is_stopped_under w.sessions w.past s) → IsTrue (has_login w.past s)
        → IsFalse (has_left w.past s) → IsFalse (is_attached w.past s) → w.reading s ≡ None
        → kept_checkpoint w.past i ≡ Some v → kept (after_attach w s i) }
    ensures detach { let kept = IsKept (L.may_start law.now) (L.may_say law.now) in
        (w : State) (s : ℕ) → kept w → IsTrue (has_login w.past s) → IsFalse (has_left w.past s)
        → IsFalse (is_attached w.past s) → IsTrue (has_reader w.past s) → kept (after_detach w s) }
    ensures attach_unfound { let kept = IsKept (L.may_start law.now) (L.may_say law.now) in
        (w : State) (s : ℕ) (i : Text) → kept w → IsTrue (has_login w.past s)
        → IsFalse (has_left w.past s) → kept_checkpoint w.past i ≡ None
        → kept (after_unfound w s (change.Attach s i)) }
    ensures release_unfound { let kept = IsKept (L.may_start law.now) (L.may_say law.now) in
        (w : State) (s : ℕ) (i : Text) → kept w → IsTrue (has_login w.past s)
        → IsFalse (has_left w.past s) → kept_checkpoint w.past i ≡ None
        → kept (after_unfound w s (change.Release i)) }
    ensures reads { let kept = IsKept (L.may_start law.now) (L.may_say law.now) in
        (w : State) (s : ℕ) (pin : Pin) → kept w → IsFalse (is_stopped_under w.sessions w.past s)
        → IsTrue (has_login w.past s) → IsFalse (has_left w.past s) → actor_pin w s ≡ Some pin
        → (base_of w.past s ≡ Some pin.base) × IsPair pin.base pin.sweep }
    ensures kept { (w : State) (i : Text) (kept : IsKept (L.may_start law.now)
        (L.may_say law.now) w)
        → base_of_pin (lookup (is_at (name_cmp i)) kept.settings.document.checkpoints)
        ≡ kept_checkpoint w.past i }
{}

/// What is held, the heads and the pins of the cluster nodes and what the settings keep, rises with
/// each step as a collection's bound wants it (`bounds_are_below`): heads and sweep vectors rise, a
/// pin is an old one or goes to the head, and the settings keep what they kept or a pin. So a bound
/// that was read node by node, the settings last, is at most all that is held then and later. Where
/// such a bound sees with an edit all that the edit saw, it may be taken, and the world is kept.
pub fn what_is_held_rises<L: Law>(law: &L)
    ensures login { let kept = IsKept (L.may_start law.now) (L.may_say law.now) in
        (w : State) (s : ℕ) → kept w → IsFalse (is_stopped_under w.sessions w.past s)
        → IsTrue (is_some (slice_get w.sessions s)) → IsFalse (has_login w.past s)
        → IsHoldingStep (holding_in w) (holding_in (after_login w s)) }
    ensures refresh { let kept = IsKept (L.may_start law.now) (L.may_say law.now) in
        (w : State) (s : ℕ) → kept w → IsFalse (is_stopped_under w.sessions w.past s)
        → IsTrue (has_login w.past s) → IsFalse (has_left w.past s) → w.running s ≡ None
        → w.reading s ≡ None → w.observing s ≡ None
        → IsHoldingStep (holding_in w) (holding_in (after_refresh w s)) }
    ensures leave { let kept = IsKept (L.may_start law.now) (L.may_say law.now) in
        (w : State) (s : ℕ) → kept w → IsFalse (is_stopped_under w.sessions w.past s)
        → slice_get w.sessions (cursor_owner s) ≡ None → IsTrue (has_login w.past s)
        → IsFalse (has_left w.past s) → w.running s ≡ None → w.reading s ≡ None
        → w.observing s ≡ None → IsHoldingStep (holding_in w) (holding_in (after_leave w s)) }
    ensures observe { let kept = IsKept (L.may_start law.now) (L.may_say law.now) in
        (w : State) (s : ℕ) (pin : Pin) → kept w → slice_get w.sessions (cursor_owner s) ≡ None
        → IsTrue (has_login w.past s) → IsFalse (has_left w.past s) → w.reading s ≡ None
        → w.observing s ≡ None → pin_of (memory_of w s) s ≡ Some pin
        → IsHoldingStep (holding_in w) (holding_in (after_observe w s pin)) }
    ensures said { let kept = IsKept (L.may_start law.now) (L.may_say law.now) in
        (w : State) (s i : ℕ) (text : Text) → kept w → i ≡ next_index w.past s
        → L.may_say law.now (history_in w) s i text
        → IsHoldingStep (holding_in w) (holding_in (after_said w s i text)) }
    ensures task_end { let kept = IsKept (L.may_start law.now) (L.may_say law.now) in
        (w : State) (s : ℕ) (e : Event) → kept w → IsTrue (is_task_end s e)
        → MayFollow (L.may_start law.now) (L.may_say law.now) (history_in w) e
        → IsHoldingStep (holding_in w) (holding_in (after_task_end w e)) }
    ensures went { let kept = IsKept (L.may_start law.now) (L.may_say law.now) in
        (w : State) (s : ℕ) (k : StepKind) → kept w → IsFalse (is_kind k kind.End)
        → IsFalse (is_kind k kind.Pin) → IsTrue (has_login w.past s) → IsFalse (has_left w.past s)
        → IsHoldingStep (holding_in w) (holding_in (after_went w s k)) }
    ensures reader { (w : State) (s : ℕ) (r : Option Reader)
        → IsHoldingStep (holding_in w) (holding_in (with_reader w s r)) }
    ensures draw { let kept = IsKept (L.may_start law.now) (L.may_say law.now) in
        (w : State) (s : ℕ) (edit : Edit) (marks : List MarkAt) → kept w
        → IsFalse (is_stopped_under w.sessions w.past s) → IsTrue (has_login w.past s)
        → IsFalse (has_left w.past s) → IsFalse (is_attached w.past s) → w.running s ≡ None
        → L.may_start law.now (history_in w) s edit marks
        → IsHoldingStep (holding_in w)
        (holding_in (after_draw w s edit marks (marked_paths marks))) }
    ensures write { let kept = IsKept (L.may_start law.now) (L.may_say law.now) in
        (w : State) (s : ℕ) (x : Running) (p : Path) (rest : List Path) → kept w
        → w.running s ≡ Some x → IsFalse x.committed → IsFalse x.writer.undoing → x.writer.due ≡ []
        → x.writer.left ≡ p ∷ rest
        → IsHoldingStep (holding_in w) (holding_in (after_write w s x p rest)) }
    ensures write_in_want { let kept = IsKept (L.may_start law.now) (L.may_say law.now) in
        (w : State) (s : ℕ) (x : Running) (p : Path) (rest : List Path) → kept w
        → w.running s ≡ Some x → IsFalse x.committed → IsFalse x.writer.undoing → x.writer.due ≡ []
        → x.writer.left ≡ p ∷ rest
        → IsHoldingStep (holding_in w) (holding_in (after_write_in_want w s x p rest)) }
    ensures mark { let kept = IsKept (L.may_start law.now) (L.may_say law.now) in
        (w : State) (s : ℕ) (x : Running) (f : Met) (rest : List Met) → kept w
        → w.running s ≡ Some x → IsFalse x.committed → IsFalse x.writer.undoing
        → x.writer.due ≡ f ∷ rest
        → IsHoldingStep (holding_in w) (holding_in (after_mark w s x f rest)) }
    ensures last { let kept = IsKept (L.may_start law.now) (L.may_say law.now) in
        (w : State) (s : ℕ) (x : Running) → kept w → w.running s ≡ Some x → IsFalse x.committed
        → IsFalse x.writer.undoing → x.writer.due ≡ [] → x.writer.left ≡ []
        → IsHoldingStep (holding_in w) (holding_in (after_last w s x)) }
    ensures want { (w : State) (s : ℕ) (x : Running)
        → IsHoldingStep (holding_in w) (holding_in (after_want w s x)) }
    ensures undo { let kept = IsKept (L.may_start law.now) (L.may_say law.now) in
        (w : State) (s : ℕ) (x : Running) (p : Path) (rest : List Path) → kept w
        → w.running s ≡ Some x → IsFalse x.committed → IsTrue x.writer.undoing
        → x.writer.written ≡ p ∷ rest
        → IsHoldingStep (holding_in w) (holding_in (after_undoing w s x p rest)) }
    ensures finish { let kept = IsKept (L.may_start law.now) (L.may_say law.now) in
        (w : State) (s : ℕ) (x : Running) → kept w → w.running s ≡ Some x → IsThrough x
        → IsHoldingStep (holding_in w) (holding_in (after_finish w s x)) }
    ensures pending { let kept = IsKept (L.may_start law.now) (L.may_say law.now) in
        (w : State) (s : ℕ) → kept w → IsTrue (has_login w.past s) → IsFalse (has_left w.past s)
        → IsHoldingStep (holding_in w) (holding_in (after_pending w s)) }
    ensures back { let kept = IsKept (L.may_start law.now) (L.may_say law.now) in
        (w : State) (s : ℕ) (p : Path) (r : Revision) → kept w → IsTrue (has_login w.past s)
        → IsFalse (has_left w.past s) → IsFalse (eq_by_cmp path_cmp [] p)
        → IsHoldingStep (holding_in w) (holding_in (after_back w s p r)) }
    ensures out { let kept = IsKept (L.may_start law.now) (L.may_say law.now) in
        (w : State) (s : ℕ) (r : Revision) → kept w → IsTrue (has_login w.past s)
        → r.cluster ≡ node_of w s → IsTrue (is_at_most r (local w.begin w.past (node_of w s)))
        → IsHoldingStep (holding_in w) (holding_in (after_out w s r)) }
    ensures learn { let kept = IsKept (L.may_start law.now) (L.may_say law.now) in
        (w : State) (s : ℕ) (last sweep : RevVec) → kept w
        → IsFalse (is_stopped_under w.sessions w.past s) → IsTrue (has_login w.past s)
        → WereOnRoot w.begin w.clusters w.past last sweep
        → IsHoldingStep (holding_in w) (holding_in (after_learn w s last sweep)) }
    ensures swept { let kept = IsKept (L.may_start law.now) (L.may_say law.now) in
        (w : State) (s : ℕ) (r : Revision) → kept w → IsTrue (has_login w.past s)
        → r.cluster ≡ node_of w s → IsTrue (is_at_most r (published w.begin w.past (node_of w s)))
        → IsHoldingStep (holding_in w) (holding_in (after_sweep w s r)) }
    ensures learn_swept { let kept = IsKept (L.may_start law.now) (L.may_say law.now) in
        (w : State) (s : ℕ) (r : Revision) → kept w → IsTrue (has_login w.past s)
        → IsFalse (has_left w.past s) → r.cluster ≡ node_of w s
        → IsTrue (is_at_most r (local w.begin w.past (node_of w s)))
        → IsHoldingStep (holding_in w) (holding_in (after_learn_swept w s r)) }
    ensures checkpoint { let kept = IsKept (L.may_start law.now) (L.may_say law.now) in
        (w : State) (s : ℕ) (i : Text) (pin : Pin) → kept w
        → IsFalse (is_stopped_under w.sessions w.past s) → IsTrue (has_login w.past s)
        → IsFalse (has_left w.past s) → IsFalse (is_attached w.past s)
        → pin_of (memory_of w s) s ≡ Some pin
        → IsHoldingStep (holding_in w) (holding_in (after_checkpoint w s i pin)) }
    ensures release { let kept = IsKept (L.may_start law.now) (L.may_say law.now) in
        (w : State) (i : Text) → kept w → IsSome (kept_checkpoint w.past i)
        → IsHoldingStep (holding_in w) (holding_in (after_release w i)) }
    ensures attach { let kept = IsKept (L.may_start law.now) (L.may_say law.now) in
        (w : State) (s : ℕ) (i : Text) (v : RevVec) → kept w
        → IsFalse (is_stopped_under w.sessions w.past s) → IsTrue (has_login w.past s)
        → IsFalse (has_left w.past s) → IsFalse (is_attached w.past s) → w.reading s ≡ None
        → kept_checkpoint w.past i ≡ Some v
        → IsHoldingStep (holding_in w) (holding_in (after_attach w s i)) }
    ensures detach { let kept = IsKept (L.may_start law.now) (L.may_say law.now) in
        (w : State) (s : ℕ) → kept w → IsTrue (has_login w.past s) → IsFalse (has_left w.past s)
        → IsFalse (is_attached w.past s) → IsTrue (has_reader w.past s)
        → IsHoldingStep (holding_in w) (holding_in (after_detach w s)) }
    ensures attach_unfound { let kept = IsKept (L.may_start law.now) (L.may_say law.now) in
        (w : State) (s : ℕ) (i : Text) → kept w → IsTrue (has_login w.past s)
        → IsFalse (has_left w.past s) → kept_checkpoint w.past i ≡ None
        → IsHoldingStep (holding_in w) (holding_in (after_unfound w s (change.Attach s i))) }
    ensures release_unfound { let kept = IsKept (L.may_start law.now) (L.may_say law.now) in
        (w : State) (s : ℕ) (i : Text) → kept w → IsTrue (has_login w.past s)
        → IsFalse (has_left w.past s) → kept_checkpoint w.past i ≡ None
        → IsHoldingStep (holding_in w) (holding_in (after_unfound w s (change.Release i))) }
    ensures bound { (w : State) (m t : RevVec)
        → IsHoldingStep (holding_in w) (holding_in (after_bound w m t)) }
    ensures bound_kept { let kept = IsKept (L.may_start law.now) (L.may_say law.now) in
        (w : State) (m t : RevVec) → kept w → MayTakeBound w m t → kept (after_bound w m t) }
{}

/// Cluster nodes may be stopped between any two steps of their sessions, and recovered by others.
/// The world is kept by a stop; by an undoing of what is dead in a document, whoever does it, and
/// also where it has ended already, as by the slower of two recoveries; by the end of all that a
/// stopped node's memory has in flight, once no document has anything of what isn't committed; by
/// the update that tells the root what is published and swept; and by that by which the settings
/// drop the readers of sessions of stopped nodes. Once a node is recovered, nothing of it is in
/// flight, and no document has anything of a draw of it that isn't committed. What is held rises
/// meanwhile, though the pins of a recovered node go. And in every such world a commit root tells
/// of what no bound has swept whether it is committed; so of a revision with a mark in a document,
/// a session's sweep vector and the commit root that stands there tell together what the journal
/// tells: what a recovery finds dead is dead.
pub fn stops_and_recoveries_keep_the_world<L: Law>(law: &L)
    ensures stop { let kept = IsKept (L.may_start law.now) (L.may_say law.now) in
        (w : State) (k : ℕ) → kept w → IsNode w.clusters k → IsFalse (is_stopped w.past k)
        → kept (after_stop w k) }
    ensures clear { let kept = IsKept (L.may_start law.now) (L.may_say law.now) in
        (w : State) (s : ℕ) (d : Draw) (p : Path) → kept w → IsTrue (has_login w.past s)
        → IsFalse (has_left w.past s) → IsDead w.past d → kept (after_clear w s p d.revision) }
    ensures recover { let kept = IsKept (L.may_start law.now) (L.may_say law.now) in
        (w : State) (k : ℕ) → kept w → IsNode w.clusters k → IsTrue (is_stopped w.past k)
        → IsClearedOf w k → kept (after_recover w k) }
    ensures publish { let kept = IsKept (L.may_start law.now) (L.may_say law.now) in
        (w : State) (k : ℕ) (r : Revision) → kept w → IsNode w.clusters k → r.cluster ≡ k
        → IsTrue (is_at_most r (local w.begin w.past k)) → kept (after_publish w k r) }
    ensures drop { let kept = IsKept (L.may_start law.now) (L.may_say law.now) in
        (w : State) (s : ℕ) (sessions : List ℕ) → kept w → IsTrue (has_login w.past s)
        → IsFalse (has_left w.past s)
        → ((q : ℕ) → IsIn q sessions → IsTrue (is_stopped_under w.sessions w.past q))
        → kept (after_drop_readers w s sessions) }
    ensures ended { let kept = IsKept (L.may_start law.now) (L.may_say law.now) in
        (w : State) (k : ℕ) (r : Revision) → kept w → IsTrue (is_recovered w.past k) → r.cluster ≡ k
        → IsFalse (is_in_flight w.past r) }
    ensures left { let kept = IsKept (L.may_start law.now) (L.may_say law.now) in
        (w : State) (k : ℕ) (r : Revision) (p : Path) (d : Document) → kept w
        → IsTrue (is_recovered w.past k) → r.cluster ≡ k → IsTrue (is_drawn w.past r)
        → IsFalse (is_committed w.past r) → nodes_in w.table p ≡ Some d → IsFreeOf r d }
    ensures stop_holds { let kept = IsKept (L.may_start law.now) (L.may_say law.now) in
        (w : State) (k : ℕ) → kept w → IsNode w.clusters k → IsFalse (is_stopped w.past k)
        → IsHoldingStep (holding_in w) (holding_in (after_stop w k)) }
    ensures clear_holds { let kept = IsKept (L.may_start law.now) (L.may_say law.now) in
        (w : State) (s : ℕ) (d : Draw) (p : Path) → kept w → IsTrue (has_login w.past s)
        → IsFalse (has_left w.past s) → IsDead w.past d
        → IsHoldingStep (holding_in w) (holding_in (after_clear w s p d.revision)) }
    ensures recover_holds { let kept = IsKept (L.may_start law.now) (L.may_say law.now) in
        (w : State) (k : ℕ) → kept w → IsNode w.clusters k → IsTrue (is_stopped w.past k)
        → IsClearedOf w k → IsHoldingStep (holding_in w) (holding_in (after_recover w k)) }
    ensures publish_holds { let kept = IsKept (L.may_start law.now) (L.may_say law.now) in
        (w : State) (k : ℕ) (r : Revision) → kept w → IsNode w.clusters k → r.cluster ≡ k
        → IsTrue (is_at_most r (local w.begin w.past k))
        → IsHoldingStep (holding_in w) (holding_in (after_publish w k r)) }
    ensures drop_holds { let kept = IsKept (L.may_start law.now) (L.may_say law.now) in
        (w : State) (s : ℕ) (sessions : List ℕ) → kept w → IsTrue (has_login w.past s)
        → IsFalse (has_left w.past s)
        → ((q : ℕ) → IsIn q sessions → IsTrue (is_stopped_under w.sessions w.past q))
        → IsHoldingStep (holding_in w) (holding_in (after_drop_readers w s sessions)) }
    ensures decided { let kept = IsKept (L.may_start law.now) (L.may_say law.now) in
        (w : State) (s : ℕ) (pin : Pin) (p : Path) (d : Document) (r : Revision) (m : Mark) → kept w
        → IsTrue (is_some (slice_get w.sessions s)) → pin_of (memory_of w s) s ≡ Some pin
        → nodes_in w.table p ≡ Some d → IsTrue (is_drawn w.past r) → IsFalse (sees (origin w).at r)
        → IsTrue (has_mark d r m)
        → meaning.is_committed (documents_in w.table.documents) pin.sweep d r
        ≡ is_committed w.past r }
    ensures status { let kept = IsKept (L.may_start law.now) (L.may_say law.now) in
        (w : State) (r : Revision) → kept w → IsFalse (is_swept w.past r)
        → IsFalse (sees (origin w).at r)
        → noted (nodes_in w.table (root_of w.past r)) r ≡ is_committed w.past r }
{}

/// What a recovery undoes in a document is gone there, and stays gone: a document that has nothing
/// of a revision gets nothing of it by updates that have no entry of it, undo nothing and prune
/// nothing, nor by an undoing; nor by what a collection prunes, by either write of a split, or
/// where a document goes. What is dead stays so, whatever follows; and once no document has
/// anything of what is dead of a stopped cluster node, the memory of that node may be recovered. A
/// document that a committer at work hasn't written has nothing of its draw, and so it is where its
/// cluster node was stopped: what is dead has entries in no document but those that its committer
/// had written and nobody has undone since.
pub fn what_is_undone_stays_undone<L: Law>(law: &L)
    ensures undone { let kept = IsKept (L.may_start law.now) (L.may_say law.now) in
        (w : State) (p : Path) (r : Revision) → kept w
        → HasNothing (nodes_in (after_undo w.table (id.Node p) r) p) r }
    ensures by_undo { let kept = IsKept (L.may_start law.now) (L.may_say law.now) in
        (w : State) (q p : Path) (o r : Revision) → kept w → HasNothing (nodes_in w.table p) r
        → HasNothing (nodes_in (after_undo w.table (id.Node q) o) p) r }
    ensures by_write { (q r : Revision) (writes : List Write) (marks : List MarkAt) (p : Path)
        → IsFalse (is_same r q)
        → IsTrue (list_all (brings_nothing r) (write_op q writes marks p).changes) }
    ensures by_update { (t : Table) (op : UpdateOp) (p : Path) (r : Revision)
        → IsTrue (list_all (brings_nothing r) op.changes) → HasNothing (nodes_in t p) r
        → HasNothing (nodes_in (after_update t op) p) r }
    ensures by_prune { (w : State) (s : ℕ) (m t : RevVec) (q p : Path) (old : Document)
        (op : UpdateOp) (r : Revision) → MayPrune w m t q old op → HasNothing (nodes_in w.table p) r
        → HasNothing (nodes_in (after_pruned w s q old op).table p) r }
    ensures by_split { (w : State) (s : ℕ) (read : Documents) (pin : Pin) (q p : Path)
        (old : Document) (e : PrevEntry) (r : Revision) → MaySplit w read pin q old e
        → HasNothing (nodes_in w.table p) r
        → HasNothing (nodes_in (after_split w s read pin q old e).table p) r }
    ensures by_copy { (w : State) (s : ℕ) (q p : Path) (k : ℕ) (x : Document) (r : Revision)
        → HasNothing (nodes_in w.table p) r
        → HasNothing (nodes_in (after_copied w s q k x).table p) r }
    ensures by_removal { (w : State) (s : ℕ) (i : DocId) (p : Path) (r : Revision)
        → IsTrue (is_sorted id_cmp w.table.documents) → HasNothing (nodes_in w.table p) r
        → HasNothing (nodes_in (after_removed w s i).table p) r }
    ensures dead { let kept = IsKept (L.may_start law.now) (L.may_say law.now) in
        (u : State) (e : Event) (past : Past) (d : Draw) → kept u → u.past ≡ e ∷ past
        → IsDead past d → IsDead u.past d }
    ensures clears { let kept = IsKept (L.may_start law.now) (L.may_say law.now) in
        (w : State) (k : ℕ) → kept w → IsTrue (is_stopped w.past k)
        → ((d : Draw) (p : Path) → IsDead w.past d → d.revision.cluster ≡ k
        → HasNothing (nodes_in w.table p) d.revision) → IsClearedOf w k }
    ensures at_work { let kept = IsKept (L.may_start law.now) (L.may_say law.now) in
        (w : State) (s : ℕ) (x : Running) (p : Path) → kept w → w.running s ≡ Some x
        → IsFalse (has_written x.writer p) → HasNothing (nodes_in w.table p) x.draw.revision }
    ensures written { (w : State) (d : Draw) (p : Path) (kept : IsKept (L.may_start law.now)
        (L.may_say law.now) w) → IsDead w.past d
        → IsFalse (has_written (kept.sessions.committing.writers d.revision) p)
        → HasNothing (nodes_in w.table p) d.revision }
{}

/// No step of a world that changes documents brings back what is dead: the write of a committer
/// brings nothing of it, as none at work is that of a stopped cluster node, and the others bring
/// nothing of any revision. Those of splits and collections are clauses of
/// `what_is_undone_stays_undone`.
pub fn no_step_brings_back_what_is_dead<L: Law>(law: &L)
    ensures write { let kept = IsKept (L.may_start law.now) (L.may_say law.now) in
        (w : State) (s : ℕ) (x : Running) (q p : Path) (rest : List Path) (d : Draw) → kept w
        → w.running s ≡ Some x → IsDead w.past d → HasNothing (nodes_in w.table p) d.revision
        → HasNothing (nodes_in (after_write w s x q rest).table p) d.revision
        × HasNothing (nodes_in (after_write_in_want w s x q rest).table p) d.revision }
    ensures mark { (w : State) (s : ℕ) (x : Running) (f : Met) (rest : List Met) (p : Path)
        (r : Revision) → HasNothing (nodes_in w.table p) r
        → HasNothing (nodes_in (after_mark w s x f rest).table p) r }
    ensures last { (w : State) (s : ℕ) (x : Running) (p : Path) (r : Revision)
        → HasNothing (nodes_in w.table p) r → HasNothing (nodes_in (after_last w s x).table p) r }
    ensures undo { let kept = IsKept (L.may_start law.now) (L.may_say law.now) in
        (w : State) (s : ℕ) (x : Running) (q p : Path) (rest : List Path) (r : Revision) → kept w
        → HasNothing (nodes_in w.table p) r
        → HasNothing (nodes_in (after_undoing w s x q rest).table p) r }
    ensures clear { let kept = IsKept (L.may_start law.now) (L.may_say law.now) in
        (w : State) (s : ℕ) (q p : Path) (o r : Revision) → kept w
        → HasNothing (nodes_in w.table p) r
        → HasNothing (nodes_in (after_clear w s q o).table p) r }
    ensures back { (w : State) (s : ℕ) (q p : Path) (o r : Revision)
        → HasNothing (nodes_in w.table p) r
        → HasNothing (nodes_in (after_back w s q o).table p) r
        × HasNothing (nodes_in (after_out w s o).table p) r
        × HasNothing (nodes_in (after_sweep w s o).table p) r }
    ensures publish { (w : State) (k : ℕ) (o : Revision) (p : Path) (r : Revision)
        → HasNothing (nodes_in w.table p) r
        → HasNothing (nodes_in (after_publish w k o).table p) r }
    ensures settings { (w : State) (s : ℕ) (i : Text) (pin : Pin) (p : Path) (r : Revision)
        → HasNothing (nodes_in w.table p) r
        → HasNothing (nodes_in (after_checkpoint w s i pin).table p) r
        × HasNothing (nodes_in (after_release w i).table p) r
        × HasNothing (nodes_in (after_attach w s i).table p) r
        × HasNothing (nodes_in (after_detach w s).table p) r }
    ensures unfound { (w : State) (s : ℕ) (c : Change) (p : Path) (r : Revision)
        → HasNothing (nodes_in w.table p) r
        → HasNothing (nodes_in (after_unfound w s c).table p) r }
    ensures drop { (w : State) (s : ℕ) (sessions : List ℕ) (p : Path) (r : Revision)
        → HasNothing (nodes_in w.table p) r
        → HasNothing (nodes_in (after_drop_readers w s sessions).table p) r }
{}

/// Splits keep the world: the write of a previous document, which is a copy of what the former
/// document of its number had, where one of that number was listed; and then the update of the
/// document with the number that was read, by which what moved goes and the previous document is
/// listed, the first of its number; or the removal of the previous document, which no node lists,
/// where another number is found. What is held stays.
pub fn splits_keep_the_world<L: Law>(law: &L)
    ensures copied { let kept = IsKept (L.may_start law.now) (L.may_say law.now) in
        (w : State) (s : ℕ) (p : Path) (k : ℕ) (x : Document) → kept w → IsTrue (has_login w.past s)
        → IsFalse (has_left w.past s) → documents_in w.table.documents (id.Prev k p) ≡ None
        → ((f : Former) → w.formers p k ≡ Some f → IsCopyOf p k f x)
        → kept (after_copied w s p k x) }
    ensures listed { let kept = IsKept (L.may_start law.now) (L.may_say law.now) in
        (w : State) (s : ℕ) (read : Documents) (pin : Pin) (p : Path) (old : Document)
        (e : PrevEntry) → kept w → IsTrue (has_login w.past s) → IsFalse (has_left w.past s)
        → MaySplit w read pin p old e → w.formers p e.number ≡ None
        → kept (after_split w s read pin p old e) }
    ensures undone { let kept = IsKept (L.may_start law.now) (L.may_say law.now) in
        (w : State) (s : ℕ) (p : Path) (k : ℕ) → kept w → IsTrue (has_login w.past s)
        → IsFalse (has_left w.past s) → MayRemovePrevious w p k
        → kept (after_taken_back w s (id.Prev k p)) }
    ensures copied_holds { let kept = IsKept (L.may_start law.now) (L.may_say law.now) in
        (w : State) (s : ℕ) (p : Path) (k : ℕ) (x : Document) → kept w → IsTrue (has_login w.past s)
        → IsFalse (has_left w.past s) → documents_in w.table.documents (id.Prev k p) ≡ None
        → ((f : Former) → w.formers p k ≡ Some f → IsCopyOf p k f x)
        → IsHoldingStep (holding_in w) (holding_in (after_copied w s p k x)) }
    ensures listed_holds { let kept = IsKept (L.may_start law.now) (L.may_say law.now) in
        (w : State) (s : ℕ) (read : Documents) (pin : Pin) (p : Path) (old : Document)
        (e : PrevEntry) → kept w → IsTrue (has_login w.past s) → IsFalse (has_left w.past s)
        → MaySplit w read pin p old e → w.formers p e.number ≡ None
        → IsHoldingStep (holding_in w) (holding_in (after_split w s read pin p old e)) }
    ensures undone_holds { let kept = IsKept (L.may_start law.now) (L.may_say law.now) in
        (w : State) (s : ℕ) (p : Path) (k : ℕ) → kept w → IsTrue (has_login w.past s)
        → IsFalse (has_left w.past s) → MayRemovePrevious w p k
        → IsHoldingStep (holding_in w) (holding_in (after_taken_back w s (id.Prev k p))) }
{}

/// Collections keep the world: an update that drops any garbage of a bound so far and unlists
/// previous documents that are, the removal of a previous document that isn't listed, and that of
/// an absent node's document that is garbage. What is held stays.
pub fn collections_keep_the_world<L: Law>(law: &L)
    ensures pruned { let kept = IsKept (L.may_start law.now) (L.may_say law.now) in
        (w : State) (s : ℕ) (m t : RevVec) (p : Path) (old : Document) (op : UpdateOp) → kept w
        → IsTrue (has_login w.past s) → IsFalse (has_left w.past s) → MayPrune w m t p old op
        → kept (after_pruned w s p old op) }
    ensures removed { let kept = IsKept (L.may_start law.now) (L.may_say law.now) in
        (w : State) (s : ℕ) (m t : RevVec) (p : Path) (old : Document) → kept w
        → IsTrue (has_login w.past s) → IsFalse (has_left w.past s) → MayRemove w m t p old
        → kept (after_removed w s (id.Node p)) }
    ensures unlisted { let kept = IsKept (L.may_start law.now) (L.may_say law.now) in
        (w : State) (s : ℕ) (p : Path) (k : ℕ) → kept w → IsTrue (has_login w.past s)
        → IsFalse (has_left w.past s) → MayRemovePrevious w p k
        → kept (after_removed w s (id.Prev k p)) }
    ensures pruned_holds { let kept = IsKept (L.may_start law.now) (L.may_say law.now) in
        (w : State) (s : ℕ) (m t : RevVec) (p : Path) (old : Document) (op : UpdateOp) → kept w
        → IsTrue (has_login w.past s) → IsFalse (has_left w.past s) → MayPrune w m t p old op
        → IsHoldingStep (holding_in w) (holding_in (after_pruned w s p old op)) }
    ensures removed_holds { let kept = IsKept (L.may_start law.now) (L.may_say law.now) in
        (w : State) (s : ℕ) (m t : RevVec) (p : Path) (old : Document) → kept w
        → IsTrue (has_login w.past s) → IsFalse (has_left w.past s) → MayRemove w m t p old
        → IsHoldingStep (holding_in w) (holding_in (after_removed w s (id.Node p))) }
    ensures unlisted_holds { let kept = IsKept (L.may_start law.now) (L.may_say law.now) in
        (w : State) (s : ℕ) (p : Path) (k : ℕ) → kept w → IsTrue (has_login w.past s)
        → IsFalse (has_left w.past s) → MayRemovePrevious w p k
        → IsHoldingStep (holding_in w) (holding_in (after_removed w s (id.Prev k p))) }
{}

/// The documents, the journal and the committers of a kept world are such that reading stays right
/// through splits, sweeps and collections.
pub fn worlds_are_kept<L: Law>(law: &L)
    ensures { (w : State) (kept : IsKept (L.may_start law.now) (L.may_say law.now) w)
        → IsKeptSince (origin w) (documents_in w.table.documents) w.past
        (λ r. has_written (kept.sessions.committing.writers r)) }
{}

/// Of two commits that clash, the base of one sees the other. What a refusal names is its cause.
/// What ended and clashes with no other draw outside its base is committed, or wanted memory and
/// wasn't refused. What ended without a commit has left nothing in the nodes' documents but
/// collisions.
pub fn no_commits_clash_unseen<L: Law>(law: &L)
    ensures apart { let kept = IsKept (L.may_start law.now) (L.may_say law.now) in
        (w : State) (r o : Revision) → kept w → (r ≡ o → ⊥) → IsTrue (is_committed w.past r)
        → IsTrue (is_committed w.past o) → IsTrue (are_clashing w.past r o)
        → IsTrue (is_in_base w.past r o) ⊎ IsTrue (is_in_base w.past o r) }
    ensures causes { let kept = IsKept (L.may_start law.now) (L.may_say law.now) in
        (w : State) (r : Revision) (item : Item) (o : Revision) → kept w
        → refusal_of w.past r ≡ Some (item, o) → Cause w.past r item o }
    ensures through { (w : State) (r : Revision) (kept : IsKept (L.may_start law.now)
        (L.may_say law.now) w) → IsTrue (is_ended w.past r)
        → ((o : Revision) → (r ≡ o → ⊥) → IsTrue (is_drawn w.past o)
        → IsFalse (is_in_base w.past r o) → IsFalse (are_clashing w.past r o))
        → IsTrue (is_committed w.past r)
        ⊎ (IsTrue (kept.sessions.committing.writers r).wants × IsFalse (is_refused w.past r))
        ⊎ IsTrue (is_stopped w.past r.cluster) }
    ensures undone { let kept = IsKept (L.may_start law.now) (L.may_say law.now) in
        (w : State) (r : Revision) (p : Path) (d : Document) → kept w → IsTrue (is_ended w.past r)
        → IsFalse (is_committed w.past r) → nodes_in w.table p ≡ Some d → IsFreeOf r d }
{}

/// The documents of the start are in store order, each under its id, with names by the grammar; an
/// update at a path of such names leaves them so, and so does an undoing. A mark is one update, and
/// so is a last write.
pub fn documents_stay_in_order()
    ensures start { (clusters sessions : ℕ) → IsTable (start_table clusters sessions).documents }
    ensures update { (t : Table) (op : UpdateOp) → IsTable t.documents → All IsName (path_of op.id)
        → IsTable (after_update t op).documents }
    ensures undo { (t : Table) (i : DocId) (r : Revision) → IsTable t.documents
        → IsTable (after_undo t i r).documents }
    ensures mark { (w : State) (s : ℕ) (x : Running) (f : Met) (rest : List Met)
        → (after_mark w s x f rest).table
        ≡ after_update w.table
        (mark_op (root_of w.past f.other) f.other x.draw.revision f.theirs) }
    ensures last { (w : State) (s : ℕ) (x : Running)
        → (after_last w s x).table ≡ after_update w.table (last_op x.draw.revision x.draw.marks) }
{}

/// The steps of a session leave the committers and the readers of the others as they are, those of
/// changes too.
pub fn sessions_leave_others()
    ensures login { (w : State) (s : ℕ) → LeavesOthers s w (after_login w s) }
    ensures refresh { (w : State) (s : ℕ) → LeavesOthers s w (after_refresh w s) }
    ensures leave { (w : State) (s : ℕ) → LeavesOthers s w (after_leave w s) }
    ensures observe { (w : State) (s : ℕ) (pin : Pin) → LeavesOthers s w (after_observe w s pin) }
    ensures said { (w : State) (s i : ℕ) (text : Text) → LeavesOthers s w (after_said w s i text) }
    ensures task_end { (w : State) (s : ℕ) (e : Event) → LeavesOthers s w (after_task_end w e) }
    ensures went { (w : State) (s : ℕ) (k : StepKind) → LeavesOthers s w (after_went w s k) }
    ensures reader { (w : State) (s : ℕ) (r : Option Reader)
        → LeavesOthers s w (with_reader w s r) }
    ensures observer { (w : State) (s : ℕ) (r : Option ChangesReader)
        → LeavesOthers s w (with_observer w s r) }
    ensures draw { (w : State) (s : ℕ) (edit : Edit) (marks : List MarkAt) (paths : List Path)
        → LeavesOthers s w (after_draw w s edit marks paths) }
    ensures write { (w : State) (s : ℕ) (x : Running) (p : Path) (rest : List Path)
        → LeavesOthers s w (after_write w s x p rest) }
    ensures write_in_want { (w : State) (s : ℕ) (x : Running) (p : Path) (rest : List Path)
        → LeavesOthers s w (after_write_in_want w s x p rest) }
    ensures mark { (w : State) (s : ℕ) (x : Running) (f : Met) (rest : List Met)
        → LeavesOthers s w (after_mark w s x f rest) }
    ensures last { (w : State) (s : ℕ) (x : Running) → LeavesOthers s w (after_last w s x) }
    ensures want { (w : State) (s : ℕ) (x : Running) → LeavesOthers s w (after_want w s x) }
    ensures undo { (w : State) (s : ℕ) (x : Running) (p : Path) (rest : List Path)
        → LeavesOthers s w (after_undoing w s x p rest) }
    ensures finish { (w : State) (s : ℕ) (x : Running) → LeavesOthers s w (after_finish w s x) }
    ensures pending { (w : State) (s : ℕ) → LeavesOthers s w (after_pending w s) }
    ensures back { (w : State) (s : ℕ) (p : Path) (r : Revision)
        → LeavesOthers s w (after_back w s p r) }
    ensures out { (w : State) (s : ℕ) (r : Revision) → LeavesOthers s w (after_out w s r) }
    ensures swept { (w : State) (s : ℕ) (r : Revision) → LeavesOthers s w (after_sweep w s r) }
    ensures attach { (w : State) (s : ℕ) (i : Text) → LeavesOthers s w (after_attach w s i) }
    ensures unfound { (w : State) (s : ℕ) (c : Change) → LeavesOthers s w (after_unfound w s c) }
    ensures detach { (w : State) (s : ℕ) → LeavesOthers s w (after_detach w s) }
    ensures checkpoint { (w : State) (s : ℕ) (i : Text) (pin : Pin)
        → LeavesOthers s w (after_checkpoint w s i pin) }
    ensures release { (w : State) (s : ℕ) (i : Text) → LeavesOthers s w (after_release w i) }
    ensures learn_swept { (w : State) (s : ℕ) (r : Revision)
        → LeavesOthers s w (after_learn_swept w s r) }
    ensures learn { (w : State) (s : ℕ) (last sweep : RevVec)
        → LeavesOthers s w (after_learn w s last sweep) }
{}

/// Numbers of documents come once below the last one: each change of a table is a step by which its
/// number doesn't fall and what is new has the next. So of the number that a node's document has no
/// previous document was listed, and once one is, that number is behind.
pub fn numbers_come_once()
    ensures put { (t : Table) (i : DocId) (d : Document) → t.number ≤ last_number
        → d.mod_count ≡ next_number t → IsNumberStep t (with_document t i d (next_number t)) }
    ensures update { (t : Table) (op : UpdateOp) → t.number ≤ last_number
        → IsNumberStep t (after_update t op) }
    ensures undo { (t : Table) (p : Path) (r : Revision) → t.number ≤ last_number
        → IsNumberStep t (after_undo t (id.Node p) r) }
    ensures removed { (t : Table) (i : DocId) → IsTrue (is_sorted id_cmp t.documents)
        → IsNumberStep t (without t i) }
    ensures numbered { (t u : Table) (formers : Formers) → IsNumberStep t u → u.number ≤ last_number
        → AreNumbered t formers → AreNumbered u formers }
    ensures first { (t : Table) (formers : Formers) (p : Path) (old : Document)
        → AreNumbered t formers → nodes_in t p ≡ Some old → formers p old.mod_count ≡ None }
    ensures listed { (t : Table) (formers : Formers) (p : Path) (old d : Document) (f : Former)
        → AreNumbered t formers → nodes_in t p ≡ Some old → old.mod_count < last_number
        → d.mod_count ≡ next_number t
        → AreNumbered (with_document t (id.Node p) d (next_number t))
        (with_former formers p old.mod_count f) }
{}

/// Each step of a world that changes documents is such a step, and the others leave them.
pub fn steps_number_documents()
    ensures write { (w : State) (s : ℕ) (x : Running) (p : Path) (rest : List Path)
        → w.table.number ≤ last_number
        → IsNumberStep w.table (after_write w s x p rest).table
        × IsNumberStep w.table (after_write_in_want w s x p rest).table }
    ensures mark { (w : State) (s : ℕ) (x : Running) (f : Met) (rest : List Met)
        → w.table.number ≤ last_number → IsNumberStep w.table (after_mark w s x f rest).table }
    ensures last { (w : State) (s : ℕ) (x : Running) → w.table.number ≤ last_number
        → IsNumberStep w.table (after_last w s x).table }
    ensures undo { (w : State) (s : ℕ) (x : Running) (p : Path) (rest : List Path)
        → w.table.number ≤ last_number → IsNumberStep w.table (after_undoing w s x p rest).table }
    ensures back { (w : State) (s : ℕ) (p : Path) (r : Revision) → w.table.number ≤ last_number
        → IsNumberStep w.table (after_back w s p r).table
        × IsNumberStep w.table (after_out w s r).table
        × IsNumberStep w.table (after_sweep w s r).table }
    ensures checkpoint { (w : State) (s : ℕ) (i : Text) (pin : Pin) → w.table.number ≤ last_number
        → IsNumberStep w.table (after_checkpoint w s i pin).table }
    ensures release { (w : State) (i : Text) → w.table.number ≤ last_number
        → IsNumberStep w.table (after_release w i).table }
    ensures attach { (w : State) (s : ℕ) (i : Text) → w.table.number ≤ last_number
        → IsNumberStep w.table (after_attach w s i).table }
    ensures unfound { (w : State) (s : ℕ) (c : Change) → w.table.number ≤ last_number
        → IsNumberStep w.table (after_unfound w s c).table }
    ensures detach { (w : State) (s : ℕ) → w.table.number ≤ last_number
        → IsNumberStep w.table (after_detach w s).table }
    ensures split { (w : State) (s : ℕ) (read : Documents) (pin : Pin) (p : Path) (old : Document)
        (e : PrevEntry) → w.table.number ≤ last_number
        → IsNumberStep w.table (after_split w s read pin p old e).table }
    ensures copied { (w : State) (s : ℕ) (p : Path) (k : ℕ) (x : Document)
        → w.table.number ≤ last_number → x.mod_count ≡ next_number w.table
        → IsNumberStep w.table (after_copied w s p k x).table }
    ensures pruned { (w : State) (s : ℕ) (p : Path) (old : Document) (op : UpdateOp)
        → w.table.number ≤ last_number → IsNumberStep w.table (after_pruned w s p old op).table }
    ensures gone { (w : State) (s : ℕ) (i : DocId) → IsTrue (is_sorted id_cmp w.table.documents)
        → IsNumberStep w.table (after_removed w s i).table }
    ensures clear { (w : State) (s : ℕ) (p : Path) (r : Revision) → w.table.number ≤ last_number
        → IsNumberStep w.table (after_clear w s p r).table }
    ensures publish { (w : State) (k : ℕ) (r : Revision) → w.table.number ≤ last_number
        → IsNumberStep w.table (after_publish w k r).table }
    ensures drop { (w : State) (s : ℕ) (sessions : List ℕ) → w.table.number ≤ last_number
        → IsNumberStep w.table (after_drop_readers w s sessions).table }
    ensures still { (t : Table) → IsNumberStep t t }
{}

/// A split that has read a document, however late it writes, writes a copy of what the former
/// document of its number had: it begins so; it comes to know commit roots; others go on, among
/// them splits that list previous documents; and what it writes then keeps the world, as does its
/// update of the document where that has the number still that it read.
pub fn late_splits_write_copies()
    ensures begins { (start : Start) (past : Past) (t : Table) (done : Progress)
        (formers : Formers) (known : Documents) (pin : Pin) (p : Path) (old : Document)
        → IsKeptSince start (documents_in t.documents) past done → AreNumbered t formers
        → IsHeldSince start past pin.base pin.sweep → nodes_in t p ≡ Some old → IsInOrder old
        → ((q : Path) (d : Document) → known (id.Node q) ≡ Some d → nodes_in t q ≡ Some d)
        → IsSplitting start past t formers known pin p old }
    ensures knows { (start : Start) (past : Past) (t : Table) (done : Progress)
        (formers : Formers) (known more : Documents) (pin : Pin) (p : Path) (old : Document)
        → IsKeptSince start (documents_in t.documents) past done
        → IsSplitting start past t formers known pin p old
        → ((q : Path) (d : Document) → more (id.Node q) ≡ Some d
        → (known (id.Node q) ≡ Some d) ⊎ (nodes_in t q ≡ Some d))
        → IsSplitting start past t formers more pin p old }
    ensures lasts { (start : Start) (t u : Table) (past later : Past) (formers : Formers)
        (known : Documents) (pin : Pin) (p : Path) (old : Document) → IsNumberStep t u
        → ((r : Revision) → IsTrue (is_done (course_from start past) r)
        → IsTrue (is_done (course_from start later) r))
        → ((r : Revision) → IsTrue (sees pin.base r)
        → IsTrue (is_done (course_from start later) r)
        → IsTrue (is_done (course_from start past) r))
        → IsSplitting start past t formers known pin p old
        → IsSplitting start later u formers known pin p old }
    ensures beside { (start : Start) (t u : Table) (past : Past) (formers : Formers)
        (known : Documents) (pin : Pin) (p q : Path) (old its : Document) → IsToldSince start past
        → IsNumberStep t u → nodes_in t q ≡ Some its → its.mod_count < last_number
        → IsSplitting start past t formers known pin p old
        → IsSplitting start past u
        (with_former formers q its.mod_count (former_now (course_from start past) its))
        known pin p old }
    ensures copies { (start : Start) (past : Past) (t : Table) (formers : Formers)
        (known : Documents) (pin : Pin) (p : Path) (old : Document) (number : ℕ) (f : Former)
        → IsSplitting start past t formers known pin p old → formers p old.mod_count ≡ Some f
        → IsCopyOf p old.mod_count f (after_changes None (previous_write known pin old) number) }
    ensures lists { (w : State) (formers : Formers) (known : Documents) (pin : Pin) (p : Path)
        (old d : Document) (e : PrevEntry) (first : ℕ)
        → IsSplitting (origin w) w.past w.table formers known pin p old
        → nodes_in w.table p ≡ Some d
        → d.mod_count ≡ old.mod_count → old.mod_count < last_number → e.number ≡ old.mod_count
        → documents_in w.table.documents (id.Prev e.number p)
        ≡ Some (after_changes None (previous_write known pin old) first)
        → MaySplit w known pin p old e }
{}

/// The bound of a collection that reads the root, then each cluster node at a moment of its own,
/// and the settings last, may be taken: it is the least of what it was fed, at most all that is
/// held then, settled and closed, whatever went on between. Its sweep vector sees the start of each
/// cluster node. A cluster node that was recovered it passes over.
pub fn bounds_may_be_taken<L: Law>(law: &L)
    ensures starts { (clusters : ℕ) (sessions : List ℕ)
        → CanAllBound (start_state clusters sessions) }
    ensures begins { let kept = IsKept (L.may_start law.now) (L.may_say law.now) in
        (w : State) (root : Document) → kept w → nodes_in w.table [] ≡ Some root
        → IsBounding w 1 (root_pair root) }
    ensures node { let kept = IsKept (L.may_start law.now) (L.may_say law.now) in
        (w : State) (k : ℕ) (x : Pin) → kept w → CanAllBound w → IsBounding w k x
        → IsNode w.clusters k → IsBounding w (k + 1) (fed_node w k x) }
    ensures skips { (w : State) (k : ℕ) (x : Pin) → IsTrue (is_recovered w.past k)
        → IsBounding w k x → IsBounding w (k + 1) x }
    ensures takes { let kept = IsKept (L.may_start law.now) (L.may_say law.now) in
        (w : State) (x : Pin) → kept w → CanAllBound w → IsBounding w (w.clusters + 1) x
        → MayTakeBound w (fed_settings w x).base (fed_settings w x).sweep }
    ensures begun { let kept = IsKept (L.may_start law.now) (L.may_say law.now) in
        (w : State) (x : Pin) → kept w → CanAllBound w → IsBounding w (w.clusters + 1) x
        → SeesStarts w.clusters (fed_settings w x).sweep }
    ensures lasts { let kept = IsKept (L.may_start law.now) (L.may_say law.now) in
        (w u : State) (added : Past) (k : ℕ) (x : Pin) → kept w → kept u → u.past ≡ added ++ w.past
        → u.clusters ≡ w.clusters → u.sessions ≡ w.sessions → u.begin ≡ w.begin
        → IsHoldingStep (holding_in w) (holding_in u) → IsBounding w k x → IsBounding u k x }
    ensures held { let kept = IsKept (L.may_start law.now) (L.may_say law.now) in
        (w u : State) (added : Past) → kept w → kept u → u.past ≡ added ++ w.past
        → u.clusters ≡ w.clusters → u.sessions ≡ w.sessions → u.begin ≡ w.begin
        → IsHoldingStep (holding_in w) (holding_in u) → CanAllBound w → CanAllBound u }
{}

/// What a sweep of a cluster node reads of the root it may tell at any later moment: it's of the
/// node, published then and later, and so at most the node's local revision, as the root that is
/// told of it and the memory that learns it ask.
pub fn sweeps_may_be_told<L: Law>(law: &L)
    ensures reads { let kept = IsKept (L.may_start law.now) (L.may_say law.now) in
        (w : State) (root : Document) (k : ℕ) → kept w → nodes_in w.table [] ≡ Some root
        → ((swept_target root k).cluster ≡ k)
        × IsTrue (is_at_most (swept_target root k) (published w.begin w.past k)) }
    ensures lasts { (begin : Begin) (e : Event) (past : Past) (k : ℕ) (r : Revision)
        → IsTrue (is_at_most r (published begin past k))
        → IsTrue (is_at_most r (published begin (e ∷ past) k)) }
    ensures local { let kept = IsKept (L.may_start law.now) (L.may_say law.now) in
        (w : State) (k : ℕ) (r : Revision) → kept w
        → IsTrue (is_at_most r (published w.begin w.past k))
        → IsTrue (is_at_most r (local w.begin w.past k)) }
    ensures learns { let kept = IsKept (L.may_start law.now) (L.may_say law.now) in
        (w : State) (k : ℕ) (v : RevVec) → kept w → IsNode w.clusters k
        → learned (memory_at w.memories k) no_entries v
        ≡ record (memory_at w.memories k) { sweep = greatest (memory_at w.memories k).sweep v } }
{}

/// Splits beside one another: each writes its previous document where there is none of its id, so
/// no two have written one of the number that the node's document has; whoever finds that number
/// lists what it wrote, as it wrote it. Who finds another number, or no document, has written one
/// that nobody lists, now and later, and may remove it. Steps of others let that be: a document
/// that changes, one that lists another number, garbage that goes, a document that goes, and
/// previous documents of other numbers, or of numbers behind the node.
pub fn splits_stay_apart()
    ensures begins { (t : Table) (c : Course) (formers : Formers) (p : Path) (k : ℕ) (x : Document)
        → AreFormers (documents_in t.documents) c formers
        → ((f : Former) → formers p k ≡ Some f → f.document.mod_count ≡ k)
        → documents_in t.documents (id.Prev k p) ≡ None → k < last_number → t.number ≤ last_number
        → k ≤ t.number → IsCopied (with_document t (id.Prev k p) x (next_number t)) p k x }
    ensures apart { (t : Table) (p : Path) (k : ℕ) (x : Document) → IsCopied t p k x
        → documents_in t.documents (id.Prev k p) ≡ None → IsPassed t p k }
    ensures passed { (t : Table) (p : Path) (k : ℕ) (x d : Document) → IsCopied t p k x
        → nodes_in t p ≡ Some d → d.mod_count ≢ k → IsPassed t p k }
    ensures absent { (t : Table) (p : Path) (k : ℕ) (x : Document) → IsCopied t p k x
        → nodes_in t p ≡ None → IsPassed t p k }
    ensures dropped { (t : Table) (p : Path) (k : ℕ) (x : Document) → IsPassed t p k
        → IsUnlisted (documents_in t.documents) p k → IsCopied t p k x }
    ensures behind { (t u : Table) (p : Path) (k : ℕ) → IsNumberStep t u → IsPassed t p k
        → IsPassed u p k }
    ensures lasts { (t u : Table) (p : Path) (k : ℕ) (x : Document) → IsNumberStep t u
        → LetsCopy t u p k → IsCopied t p k x → IsCopied u p k x }
    ensures changed { (t u : Table) (p at : Path) (k : ℕ) (d : Document)
        → IsMainAt (documents_in t.documents) (documents_in u.documents) at d
        → d.prev ≡ option_map_or (λ d. d.prev) (nodes_in t at) [] → LetsCopy t u p k }
    ensures moved { (t u : Table) (p at : Path) (k : ℕ) (old d : Document) (e : PrevEntry)
        → nodes_in t at ≡ Some old
        → IsMainAt (documents_in t.documents) (documents_in u.documents) at d
        → d.prev ≡ e ∷ old.prev → (at ≡ p → e.number ≢ k) → LetsCopy t u p k }
    ensures pruned { (t u : Table) (p at : Path) (k : ℕ) (old d : Document)
        (keep : PrevEntry → Bool) → nodes_in t at ≡ Some old
        → IsMainAt (documents_in t.documents) (documents_in u.documents) at d
        → d.prev ≡ filter keep old.prev → LetsCopy t u p k }
    ensures removed { (t u : Table) (p at : Path) (k : ℕ)
        → IsChangeAt (documents_in t.documents) (documents_in u.documents) at → nodes_in u at ≡ None
        → ((j : ℕ) (q : Path)
        → documents_in u.documents (id.Prev j q) ≡ documents_in t.documents (id.Prev j q))
        → LetsCopy t u p k }
    ensures previous { (t u : Table) (p at : Path) (k j : ℕ)
        → IsPreviousAt (documents_in t.documents) (documents_in u.documents) at j
        → (at ≡ p → j ≡ k → IsPassed t p k) → LetsCopy t u p k }
    ensures others { (t u : Table) (p : Path) (k : ℕ) → ((q : Path) → nodes_in u q ≡ nodes_in t q)
        → ((j : ℕ) (q : Path)
        → documents_in u.documents (id.Prev j q) ≡ documents_in t.documents (id.Prev j q))
        → LetsCopy t u p k }
{}

/// A collection that has read a document, and then asks for the previous documents that it lists,
/// one after another, finds what is there still when it drops garbage of that document on the
/// number read: listed previous documents don't change.
pub fn collections_find_what_is_there()
    ensures finds { (t : Table) (p : Path) (old : Document) (e : PrevEntry)
        → old.mod_count < last_number → IsReadIn t (id.Node p) old → IsIn e old.prev
        → IsFoundIn t p old e (documents_in t.documents (id.Prev e.number p)) }
    ensures lasts { (t u : Table) (p : Path) (old : Document) (e : PrevEntry)
        (found : Option Document) → IsFoundIn t p old e found → IsNumberStep t u
        → (documents_in u.documents (id.Prev e.number p)
        ≡ documents_in t.documents (id.Prev e.number p))
        ⊎ IsUnlisted (documents_in t.documents) p e.number → IsFoundIn u p old e found }
    ensures there { (t : Table) (p : Path) (old d : Document) (e : PrevEntry)
        (found : Option Document) → IsFoundIn t p old e found → nodes_in t p ≡ Some d
        → d.mod_count ≡ old.mod_count
        → (d ≡ old) × (documents_in t.documents (id.Prev e.number p) ≡ found) }
    ensures drops { (w : State) (m s : RevVec) (p : Path) (old d : Document) (ns : List ℕ)
        (found : ℕ → Option Document) → IsBoundOf w.past m s → IsOrderedDocument old
        → old.mod_count < last_number → IsReadIn w.table (id.Node p) old
        → ((e : PrevEntry) → IsIn e old.prev → IsTrue (is_number_of ns e)
        → IsFoundIn w.table p old e (found e.number)
        × ((x : Document) → found e.number ≡ Some x
        → IsTrue (is_garbage_previous m s old x))) → nodes_in w.table p ≡ Some d
        → d.mod_count ≡ old.mod_count → MayPrune w m s p old (pruning m s old ns) }
    ensures read { (t : Table) (formers : Formers) (i : DocId) (old : Document)
        → AreNumbered t formers → documents_in t.documents i ≡ Some old → IsReadIn t i old }
    ensures reads { (t u : Table) (i : DocId) (old : Document) → IsNumberStep t u → IsReadIn t i old
        → IsReadIn u i old }
{}

/// What a settled base sees, as that of a session's pin, is committed after an event only if it was
/// before.
pub fn what_is_seen_stays<L: Law>(law: &L)
    ensures { let kept = IsKept (L.may_start law.now) (L.may_say law.now) in
        (u : State) (e : Event) (past : Past) (v : RevVec) (r : Revision) → kept u
        → u.past ≡ e ∷ past → IsSettled past v → IsTrue (sees v r)
        → IsTrue (is_done (course_from (origin u) (e ∷ past)) r)
        → IsTrue (is_done (course_from (origin u) past) r) }
{}
