//! From every beginning the past of a run can be read: its edits are sound from the tree of its
//! start on, or from what there is before any commit.
#![tactic(auto)]

ghost use Rattle.std.specs.Prelude.{◌≡◌, ◌||◌, ◌&&◌, ◌≤◌, ℕ, Bool, Option, is_some, ◌∷◌, [], List, None, Some, false, not, IsTrue, IsFalse};
ghost use Rattle.std.specs.Ordering.{eq_by_cmp};
ghost use Rattle.jr_path.specs.Names.{path_cmp};
ghost use Rattle.std.specs.List.{list_all, list_any};
ghost use Rattle.jr_path.specs.declared.path.Path.{Path};
ghost use Rattle.jr_path.specs.declared.path.DocId.TheVariants as id;
ghost use Rattle.jr_rev.specs.declared.revision.Revision.{Revision};
ghost use Rattle.jr_rev.specs.declared.vector.RevVec.{RevVec};
ghost use Rattle.jr_rev.specs.Vectors.{is_below, sees};
ghost use Rattle.jr_tree.specs.Trees.{node_at};
ghost use Rattle.oak_clash.specs.Clashes.{commit_root};
ghost use Rattle.oak_doc.specs.declared.document.Document.{Document};
ghost use Rattle.oak_doc.specs.declared.document.PrevEntry.{PrevEntry};
ghost use Rattle.oak_doc.specs.declared.update.Change.{Change};
ghost use Rattle.oak_doc.specs.declared.update.Change.TheVariants as change;
ghost use Rattle.oak_doc.specs.declared.update.UpdateOp.{UpdateOp};
ghost use Rattle.oak_doc.specs.Updates.{after_changes, of_revision, values_of_property};
ghost use Rattle.oak_read.specs.Meaning.{Documents, found_node, is_committed};
ghost use Rattle.oak_machine.specs.declared.event.Draw.{Draw};
ghost use Rattle.oak_machine.specs.declared.event.Event.{Event};
ghost use Rattle.oak_machine.specs.declared.event.Event.TheVariants as event;
ghost use Rattle.oak_machine.specs.declared.event.Start.{Start};
ghost use Rattle.oak_machine.specs.History.{Begin, History, Past, begin_at};
ghost use Rattle.oak_machine.specs.Commits.{draw_of, is_in_base, is_in_flight, tree_at};
ghost use Rattle.oak_machine.specs.Runs.{MayCommit};
ghost use Rattle.core_read.specs.Commits.{Closed};
ghost use Rattle.core_read.specs.Committing.{is_marking, IsWriteOp};
ghost use Rattle.core_read.specs.Holds.{is_at_path};
ghost use Rattle.core_read.specs.Start.{start_documents};
ghost use Rattle.core_read.specs.Told.{IsIn};
ghost use Rattle.core_read.specs.World.{Progress};
ghost use Rattle.core_read.specs.Writes.{IsOrderedDocument};
ghost use Rattle.core_heads.specs.Sound.{IsInHand, IsNodesRun};
ghost use Rattle.core_keep.specs.Bounds.{bound_of, bounding_pairs, Told};
ghost use Rattle.core_keep.specs.Formers.{AreFormers, Former, Formers};
ghost use Rattle.core_keep.specs.From.{AreSoundFrom, course_from, falling_from, IsFirst};
ghost use Rattle.core_keep.specs.Journal.{is_idle, leaves_held, with_progress};
ghost use Rattle.core_keep.specs.Steps.{IsChangeAt, IsMainAt, IsMoved, IsPreviousAt, IsPruned, IsUnlisted, IsUnwanted};
ghost use Rattle.jr_path.specs.declared.name.Name.{Name};
ghost use Rattle.jr_rev.specs.declared.vector.Pin.{Pin};
ghost use Rattle.oak_doc.specs.declared.update.EntryKey.{EntryKey};
ghost use Rattle.core_keep.specs.Dropping.{DropsGarbage};
ghost use Rattle.core_keep.specs.Garbage.{garbage_listed, is_garbage_document, pruning};
ghost use Rattle.core_keep.specs.Keeps.{is_done};
ghost use Rattle.core_keep.specs.Readers.{Knows, Reads};
ghost use Rattle.core_keep.specs.Splits.{main_write, previous_write, IsInOrder};
ghost use Rattle.core_begun.specs.Kept.{bounded_since, swept_since, IsHeldSince, IsKeptSince, IsUsedSince, ShowsStart};
ghost use Rattle.core_begun.specs.Told.{edit_since, start_in, IsInUseSince, IsToldSince};

use oak_machine::Law;

/// What a run begins with is seen by each vector in hand: a base, a checkpoint, a head. So it is
/// seen by the base of each draw, and each draw is later than all of it.
pub fn vectors_in_hand_see_the_start<L: Law>(law: &L)
    ensures { (h : History) (v : RevVec) (o : Revision)
        → IsNodesRun (L.may_start law.now) (L.may_say law.now) h → IsInHand h v
        → IsTrue (sees (begin_at h.clusters h.begin) o) → IsTrue (sees v o) }
{}

/// The past of each run can be read from its start on: each committed edit is proper on the tree at
/// its base and apart from those that it doesn't see, and a vector in hand is settled, closed and
/// sees all of the start. The start of a run that begins before any commit is what there is then.
pub fn runs_can_be_read_from_their_start<L: Law>(law: &L)
    ensures told { (h : History) → IsNodesRun (L.may_start law.now) (L.may_say law.now) h
        → IsToldSince (start_in h.clusters h.begin) h.past }
    ensures used { (h : History) (v : RevVec)
        → IsNodesRun (L.may_start law.now) (L.may_say law.now) h → IsInHand h v
        → IsInUseSince (start_in h.clusters h.begin) h.past v }
{}

/// What is told since a start is what documents are read by.
pub fn what_is_told_is_sound()
    ensures sound { (s : Start) (past : Past) → IsToldSince s past
        → AreSoundFrom s.tree (is_in_base past) (falling_from past) }
    ensures closed { (s : Start) (past : Past) (v : RevVec) → IsInUseSince s past v
        → Closed (is_in_base past) (sees v) (falling_from past) }
{}

/// However far collections went, and whatever moved to previous documents: for a pair of vectors
/// that is held, the documents mean at each path the node of the tree that its base sees, with the
/// revision that added it.
pub fn documents_kept_since_a_start_mean_the_tree()
    ensures start { (start : Start) (ds : Documents) (past : Past) (done : Progress) (v t : RevVec)
        (p : Path) → IsKeptSince start ds past done → IsHeldSince start past v t
        → found_node ds t v p ≡ node_at (tree_at (Some start) past v) p }
    ensures history { (clusters : ℕ) (begin : Begin) (ds : Documents) (past : Past)
        (done : Progress) (v t : RevVec) (p : Path)
        → IsKeptSince (start_in clusters begin) ds past done
        → IsHeldSince (start_in clusters begin) past v t
        → found_node ds t v p ≡ node_at (tree_at begin past v) p }
{}

/// The steps on documents keep what they kept: writes and undos of one document, marks and notes,
/// documents of no node, previous documents that nobody lists, the document that lists what a split
/// moved, entries that are garbage of a bound, and a document of an absent node.
pub fn steps_keep_what_began_with_a_start()
    ensures write { (start : Start) (ds now : Documents) (past : Past) (done : Progress)
        (r : Revision) (drawn : Draw) (p : Path) (marks : List Change) (op : UpdateOp) (number : ℕ)
        → IsKeptSince start ds past done → draw_of past r ≡ Some drawn
        → IsTrue (is_in_flight past r) → edit_since past r ≡ None
        → IsWriteOp op r drawn.edit.writes (commit_root drawn.marks) p marks → IsFalse (done r p)
        → IsMainAt ds now p (after_changes (ds (id.Node p)) op number)
        → IsKeptSince start now past
        (with_progress done r (λ q. eq_by_cmp path_cmp q p || done r q)) }
    ensures undo { (start : Start) (ds now : Documents) (past : Past) (done : Progress)
        (r : Revision) (drawn : Draw) (p : Path) (d : Document) (op : UpdateOp) (number : ℕ)
        → IsKeptSince start ds past done → draw_of past r ≡ Some drawn
        → IsTrue (is_in_flight past r) → edit_since past r ≡ None → ds (id.Node p) ≡ Some d
        → IsOrderedDocument d → op.changes ≡ change.Undo r ∷ []
        → IsMainAt ds now p (after_changes (Some d) op number)
        → IsKeptSince start now past
        (with_progress done r (λ q. not (eq_by_cmp path_cmp q p) && done r q)) }
    ensures mark { (start : Start) (ds now : Documents) (past : Past) (done : Progress) (p : Path)
        (op : UpdateOp) (number : ℕ) → IsKeptSince start ds past done → op.id ≡ id.Node p
        → IsTrue (list_all is_marking op.changes)
        → IsMainAt ds now p (after_changes (ds (id.Node p)) op number)
        → IsKeptSince start now past done }
    ensures others { (start : Start) (ds now : Documents) (past : Past) (done : Progress)
        → IsKeptSince start ds past done → ((x : Path) → now (id.Node x) ≡ ds (id.Node x))
        → ((k : ℕ) (x : Path) → now (id.Prev k x) ≡ ds (id.Prev k x))
        → IsKeptSince start now past done }
    ensures previous { (start : Start) (ds now : Documents) (past : Past) (done : Progress)
        (p : Path) (k : ℕ) → IsKeptSince start ds past done → IsPreviousAt ds now p k
        → IsUnlisted ds p k → IsKeptSince start now past done }
    ensures moved { (start : Start) (ds now : Documents) (past : Past) (done : Progress) (p : Path)
        (old d : Document) (e : PrevEntry) (x : Document) → IsKeptSince start ds past done
        → ds (id.Node p) ≡ Some old → ds (id.Prev e.number p) ≡ Some x → IsMainAt ds now p d
        → IsMoved (course_from start past) p old d e x → IsKeptSince start now past done }
    ensures pruned { (start : Start) (ds now : Documents) (past : Past) (done : Progress) (p : Path)
        (old d : Document) → IsKeptSince start ds past done → ds (id.Node p) ≡ Some old
        → IsMainAt ds now p d → IsPruned ds (course_from start past) p old d
        → IsKeptSince start now past done }
    ensures removed { (start : Start) (ds now : Documents) (past : Past) (done : Progress)
        (p : Path) (old : Document) → IsKeptSince start ds past done → ds (id.Node p) ≡ Some old
        → IsChangeAt ds now p → now (id.Node p) ≡ None → IsUnwanted (course_from start past) p old
        → IsKeptSince start now past done }
{}

/// Events keep it too: the last write of a draw with its Commit, a Draw, an End of what is
/// committed or undone, a bound that is settled and closed, and each other event.
pub fn events_keep_what_began_with_a_start()
    ensures last { (start : Start) (ds now : Documents) (past : Past) (done : Progress)
        (r : Revision) (drawn : Draw) (op : UpdateOp) (number : ℕ) → IsKeptSince start ds past done
        → draw_of past r ≡ Some drawn → MayCommit past r
        → ((p : Path) → IsTrue (list_any (is_at_path p) drawn.edit.writes) → IsTrue (done r p))
        → op.id ≡ id.Node (commit_root drawn.marks) → op.changes ≡ change.Revisions r ∷ []
        → IsMainAt ds now (commit_root drawn.marks)
        (after_changes (ds (id.Node (commit_root drawn.marks))) op number)
        → IsKeptSince start now (event.Commit r ∷ past) done }
    ensures draw { (start : Start) (ds : Documents) (past : Past) (done : Progress) (d : Draw)
        → IsKeptSince start ds past done → draw_of past d.revision ≡ None
        → edit_since past d.revision ≡ None → IsToldSince start (event.Draw d ∷ past)
        → IsFalse (bounded_since start past d.revision)
        → IsFalse (swept_since start past d.revision)
        → IsKeptSince start ds (event.Draw d ∷ past) (with_progress done d.revision (λ p. false)) }
    ensures ending { (start : Start) (ds : Documents) (past : Past) (done : Progress) (r : Revision)
        (drawn : Draw) → IsKeptSince start ds past done → draw_of past r ≡ Some drawn
        → IsTrue (is_in_flight past r)
        → (edit_since past r ≡ None → (p : Path) → IsFalse (done r p))
        → IsKeptSince start ds (event.End r ∷ past) done }
    ensures bound { (start : Start) (ds : Documents) (past : Past) (done : Progress) (m t : RevVec)
        → IsKeptSince start ds past done → IsUsedSince past (sees m)
        → ((o : Revision) → IsTrue (is_in_flight past o) → IsFalse (sees t o))
        → IsKeptSince start ds (event.Bound m t ∷ past) done }
    ensures idle { (start : Start) (ds : Documents) (past : Past) (done : Progress) (e : Event)
        → IsTrue (is_idle e) → IsKeptSince start ds past done
        → IsKeptSince start ds (e ∷ past) done }
{}

/// What is held stays held, where a bound is at most what is held; and where what a collection
/// reads is settled and closed, so is its bound.
pub fn held_pairs_last_since_a_start()
    ensures commit { (start : Start) (past : Past) (r : Revision) (drawn : Draw) (v t : RevVec)
        → IsToldSince start past → MayCommit past r → draw_of past r ≡ Some drawn
        → IsHeldSince start past v t → IsHeldSince start (event.Commit r ∷ past) v t }
    ensures draw { (start : Start) (past : Past) (d : Draw) (v t : RevVec) → IsToldSince start past
        → draw_of past d.revision ≡ None → IsFalse (sees v d.revision) → IsFalse (sees t d.revision)
        → IsHeldSince start past v t → IsHeldSince start (event.Draw d ∷ past) v t }
    ensures bound { (start : Start) (past : Past) (m s v t : RevVec) → IsTrue (is_below m v)
        → IsTrue (is_below s t) → IsHeldSince start past v t
        → IsHeldSince start (event.Bound m s ∷ past) v t }
    ensures others { (start : Start) (past : Past) (e : Event) (v t : RevVec)
        → IsTrue (leaves_held e) → IsHeldSince start past v t → IsHeldSince start (e ∷ past) v t }
    ensures read { (past : Past) (root : Document) (nodes : List Told) (settings : Document)
        → IsUsedSince past (sees root.last_rev)
        → ((x : Pin) → IsIn x (bounding_pairs nodes settings) → IsUsedSince past (sees x.base))
        → IsUsedSince past (sees (bound_of root nodes settings).base) }
{}

/// What is garbage of a bound by the definition may go: any entries of it, previous documents that
/// are unlisted with them, and a document of an absent node.
pub fn garbage_since_a_start_may_go()
    ensures pruned { (start : Start) (ds now : Documents) (past : Past) (done : Progress)
        (m t : RevVec) (p : Path) (old : Document) (op : UpdateOp) (number : ℕ)
        (keys : List EntryKey) (ns : List ℕ) → IsKeptSince start ds past done
        → ((r : Revision) → IsTrue (sees m r) → IsTrue (bounded_since start past r))
        → ((r : Revision) → IsTrue (sees t r) → IsTrue (swept_since start past r))
        → ds (id.Node p) ≡ Some old → IsOrderedDocument old → DropsGarbage ds m t p old op keys ns
        → IsMainAt ds now p (after_changes (Some old) op number) → IsKeptSince start now past done }
    ensures whole { (start : Start) (ds now : Documents) (past : Past) (done : Progress)
        (m t : RevVec) (p : Path) (old : Document) (number : ℕ) → IsKeptSince start ds past done
        → ((r : Revision) → IsTrue (sees m r) → IsTrue (bounded_since start past r))
        → ((r : Revision) → IsTrue (sees t r) → IsTrue (swept_since start past r))
        → ds (id.Node p) ≡ Some old → IsOrderedDocument old
        → IsMainAt ds now p
        (after_changes (Some old) (pruning m t old (garbage_listed m t ds old)) number)
        → IsKeptSince start now past done }
    ensures removed { (start : Start) (ds now : Documents) (past : Past) (done : Progress)
        (m t : RevVec) (p : Path) (old : Document) → IsKeptSince start ds past done
        → ((r : Revision) → IsTrue (sees m r) → IsTrue (bounded_since start past r))
        → ((r : Revision) → IsTrue (sees t r) → IsTrue (swept_since start past r))
        → ds (id.Node p) ≡ Some old → IsTrue (is_garbage_document m t old) → IsChangeAt ds now p
        → now (id.Node p) ≡ None → IsKeptSince start now past done }
{}

/// A reader that goes document by document reads the tree at its base: it begins with a copy of the
/// node's document, and what it knows in the end means the tree.
pub fn readers_since_a_start_go_on()
    ensures begins { (start : Start) (ds : Documents) (past : Past) (done : Progress) (v t : RevVec)
        (p : Path) (copy : Document) → IsKeptSince start ds past done → IsHeldSince start past v t
        → ds (id.Node p) ≡ Some copy
        → Reads ds (course_from start past) (sees v) (sees t) p copy (λ k. false)
        (λ k. ds (id.Prev k p)) }
    ensures ends { (start : Start) (ds known : Documents) (past : Past) (v t : RevVec) (p : Path)
        (copy : Document) (asked : ℕ → Bool) (look : ℕ → Option Document) → IsFirst start.tree
        → IsToldSince start past → IsInUseSince start past v
        → Reads ds (course_from start past) (sees v) (sees t) p copy asked look
        → Knows known (sees v) (sees t) p copy look
        → found_node known t v p ≡ node_at (tree_at (Some start) past v) p }
{}

/// A split keeps what was kept: its write of a previous document where there is none of its id,
/// where each former document of that number had it, and then its update of the document with the
/// number that it read.
pub fn splits_since_a_start_move()
    ensures write { (start : Start) (ds now : Documents) (past : Past) (done : Progress)
        (formers : Formers) (p : Path) (k : ℕ) → IsKeptSince start ds past done
        → AreFormers ds (course_from start past) formers
        → ((f : Former) → formers p k ≡ Some f → f.document.mod_count ≡ k) → IsPreviousAt ds now p k
        → ds (id.Prev k p) ≡ None → IsKeptSince start now past done }
    ensures list { (start : Start) (read ds now : Documents) (past : Past) (done : Progress)
        (p : Path) (pin : Pin) (old : Document) (e : PrevEntry) (first second : ℕ)
        → IsKeptSince start ds past done → ds (id.Node p) ≡ Some old → IsInOrder old
        → e.number ≡ old.mod_count
        → ((n : Name) (r : Revision)
        → IsTrue (is_some (of_revision (values_of_property old.props n) r))
        → IsTrue (sees pin.base r && is_committed read pin.sweep old r)
        → IsTrue (is_done (course_from start past) r))
        → ds (id.Prev e.number p) ≡ Some (after_changes None (previous_write read pin old) first)
        → IsMainAt ds now p (after_changes (Some old) (main_write read pin old e) second)
        → IsKeptSince start now past done }
{}

/// Documents that show the tree of a start, and in which each entry, status and commit root is of
/// what it sees, are kept before any event: those of an opened repository have to be such.
pub fn documents_that_show_a_start_are_kept()
    ensures { (start : Start) (ds : Documents) (done : Progress) → ShowsStart start ds
        → IsKeptSince start ds [] done }
{}

/// The documents of a repository that begins before any commit show what there is then.
pub fn first_documents_show_their_start()
    ensures { (clusters : ℕ) (v : RevVec) → 1 ≤ clusters
        → ShowsStart (start_in clusters None) (start_documents v) }
{}
