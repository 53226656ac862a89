//! Readers of documents that change meanwhile: what comes between their steps changes nothing of
//! what they give.
#![tactic(auto)]

ghost use Rattle.std.specs.Prelude.{◌≡◌, ◌≤◌, ◌⊎◌, ℕ, List, [], ◌∷◌, Option, None, Some, IsTrue, IsFalse, is_some, length};
ghost use Rattle.std.specs.List.{list_all};
ghost use Rattle.std.specs.declared.alloc.Global.{Global};
ghost use Rattle.std.specs.declared.cmp.Ordering.TheVariants.{Less};
ghost use Rattle.jr_path.specs.Ids.{id_cmp};
ghost use Rattle.jr_path.specs.declared.path.Path.{Path};
ghost use Rattle.jr_path.specs.declared.path.DocId.{DocId};
ghost use Rattle.jr_path.specs.declared.path.DocId.TheVariants as id;
ghost use Rattle.jr_rev.specs.declared.revision.Revision.{Revision};
ghost use Rattle.jr_rev.specs.declared.vector.Pin.{Pin};
ghost use Rattle.jr_rev.specs.declared.vector.RevVec.{RevVec};
ghost use Rattle.oak_clash.specs.Clashes.{commit_root};
ghost use Rattle.oak_doc.specs.declared.document.Document.{Document};
ghost use Rattle.oak_doc.specs.declared.update.Change.{Change};
ghost use Rattle.oak_doc.specs.declared.update.Change.TheVariants as change;
ghost use Rattle.oak_doc.specs.declared.update.UpdateOp.{UpdateOp};
ghost use Rattle.oak_doc.specs.Updates.{after_changes};
ghost use Rattle.oak_doc.specs.declared.asks.Reply.{Reply};
ghost use Rattle.oak_read.specs.Meaning.{Documents, documents_in};
ghost use Rattle.oak_read.specs.Reading.{IsTable, answer, due, fed, node_reader, children_reader};
ghost use Rattle.oak_read.specs.declared.reader.Reader.{Reader};
ghost use Rattle.oak_read.specs.declared.reader.ReadOut.{ReadOut};
ghost use Rattle.oak_read.specs.declared.reader.Step.TheVariants as step;
ghost use Rattle.oak_machine.specs.declared.event.Draw.{Draw};
ghost use Rattle.oak_machine.specs.declared.event.Event.{Event};
ghost use Rattle.oak_machine.specs.declared.event.Event.TheVariants as event;
ghost use Rattle.oak_machine.specs.History.{Past};
ghost use Rattle.oak_machine.specs.Commits.{draw_of, is_commit_of, is_in_flight, tree_at};
ghost use Rattle.oak_machine.specs.Runs.{MayCommit};
ghost use Rattle.core_read.specs.Committing.{is_marking, IsWriteOp};
ghost use Rattle.core_read.specs.World.{Progress};
ghost use Rattle.core_begun.specs.Kept.{IsHeldSince, IsKeptSince};
ghost use Rattle.core_begun.specs.Told.{edit_since};
ghost use Rattle.core_keep.specs.From.{course_from};
ghost use Rattle.oak_machine.specs.declared.event.Start.{Start};
ghost use Rattle.core_keep.specs.Steps.{IsChangeAt, IsMainAt, IsMoved, IsPreviousAt, IsPruned, IsUnlisted, IsUnwanted};
ghost use Rattle.oak_doc.specs.declared.document.PrevEntry.{PrevEntry};
ghost use Rattle.core_read.specs.Writes.{IsOrderedDocument};
ghost use Rattle.core_watch.specs.Standing.{path_read, AreChildrenOf, IsNodeOf};
ghost use Rattle.core_keep.specs.Formers.{AreFormers, Former, former_now, Formers, FormersGrow, IsCopyOf, with_former};
ghost use Rattle.core_watch.specs.Reading.{ReadsTree, ReadsOn};
ghost use Rattle.core_watch.specs.Instants.{AreReadable, first_instants, Instant, moments_of};
ghost use Rattle.core_watch.specs.Moments.{after_moments, answered, ReaderEndsWith, first_moments, HasIdsAmong, IsReaderDone, IsReaderFor, Moment, roots_left};

/// Any reader ends, whatever comes between its steps, as long as the documents that come have
/// finitely many ids. One of a node is done after its first answer and one for each commit root
/// that is left then. One of children goes forward: the document that it takes next is there,
/// behind that of the child before, or it is done.
pub fn readers_end()
    ensures ends { (ids : List DocId) (f : ℕ → Moment) (r : Reader)
        → ((i : ℕ) → HasIdsAmong ids (f i)) → (n : ℕ)
        × IsReaderDone (after_moments (first_moments n f) r).step }
    ensures node { (a : Global) (pin : Pin) (p : Path) (k : Moment) (ms : List Moment)
        → ((d : Document) → documents_in k.table (id.Node p) ≡ Some d → d.prev ≡ [])
        → roots_left (answered (node_reader a pin p) k).step ≤ length ms
        → IsReaderDone (after_moments (k ∷ ms) (node_reader a pin p)).step }
    ensures rises { (m : Moment) (r : Reader) → IsTable m.table → r.step ≡ step.Next
        → IsReaderDone (answered r m).step ⊎ ((id_cmp (id.Node r.at) (id.Node (answered r m).at)
        ≡ Less) × IsTrue (is_some (documents_in m.table (id.Node (answered r m).at)))) }
{}

/// Whatever comes between its steps, splits and collections among it, a reader at a pin that is
/// held ends with the node, or the children, of the tree that the journal has at its base; where at
/// each step the documents keep what the journal tells, and from one step to the next others let
/// readers read on.
pub fn readers_read_the_tree()
    ensures node { (start : Start) (ids : List DocId) (a : Global) (pin : Pin) (p : Path)
        (i : Instant) (f : ℕ → Instant) → ((n : ℕ) → AreReadable start pin i (first_instants n f))
        → ((n : ℕ) → HasIdsAmong ids (f n).moment)
        → ReaderEndsWith (IsNodeOf (tree_at (Some start) i.moment.past pin.base) p)
        (λ n. (f n).moment)
        (node_reader a pin p) }
    ensures children { (start : Start) (ids : List DocId) (a : Global) (pin : Pin) (p : Path)
        (i : Instant) (f : ℕ → Instant) → ((n : ℕ) → AreReadable start pin i (first_instants n f))
        → ((n : ℕ) → HasIdsAmong ids (f n).moment)
        → ReaderEndsWith (AreChildrenOf (tree_at (Some start) i.moment.past pin.base) p)
        (λ n. (f n).moment) (children_reader a pin p) }
    ensures node_done { (start : Start) (a : Global) (pin : Pin) (p : Path) (i : Instant)
        (is : List Instant) (o : ReadOut) → AreReadable start pin i is
        → (after_moments (moments_of is) (node_reader a pin p)).step ≡ step.Done o
        → IsNodeOf (tree_at (Some start) i.moment.past pin.base) p o }
    ensures children_done { (start : Start) (a : Global) (pin : Pin) (p : Path) (i : Instant)
        (is : List Instant) (o : ReadOut) → AreReadable start pin i is
        → (after_moments (moments_of is) (children_reader a pin p)).step ≡ step.Done o
        → AreChildrenOf (tree_at (Some start) i.moment.past pin.base) p o }
{}

/// A step at a time: such a reader begins to read the tree, reads on over each answer of the
/// documents and over all that others do, and gives what the tree has. It keeps its pin, and what
/// it was made for.
pub fn readers_read_on()
    ensures begins { (start : Start) (ds : Documents) (past : Past) (formers : Formers) (a : Global)
        (pin : Pin) (p : Path) → ReadsTree start ds past formers (node_reader a pin p)
        × ReadsTree start ds past formers (children_reader a pin p) }
    ensures feeds { (start : Start) (table : List (DocId × Document)) (past : Past)
        (formers : Formers) (done : Progress) (r : Reader) → IsTable table
        → IsKeptSince start (documents_in table) past done
        → IsHeldSince start past r.pin.base r.pin.sweep → AreFormers (documents_in table)
        (course_from start past) formers → ReadsTree start (documents_in table) past formers r
        → ReadsTree start (documents_in table) past formers (fed r (answer table (due r))) }
    ensures lasts { (start : Start) (formers more : Formers) (ds now : Documents)
        (past later : Past) (r : Reader) → ReadsOn start r.pin ds now past later
        → FormersGrow formers more → ReadsTree start ds past formers r
        → ReadsTree start now later more r }
    ensures node { (start : Start) (ds : Documents) (past : Past) (formers : Formers) (r : Reader)
        (o : ReadOut) → ReadsTree start ds past formers r → r.parent ≡ None → r.step ≡ step.Done o
        → IsNodeOf (tree_at (Some start) past r.pin.base) (path_read r) o }
    ensures children { (start : Start) (ds : Documents) (past : Past) (formers : Formers)
        (r : Reader) (p : Path) (o : ReadOut) → ReadsTree start ds past formers r
        → r.parent ≡ Some p → r.step ≡ step.Done o
        → AreChildrenOf (tree_at (Some start) past r.pin.base) p o }
    ensures keeps { (r : Reader) (x : Reply) → IsReaderFor r.pin r.parent (path_read r) (fed r x) }
{}

/// What others do lets readers at a held pin read on: writes and undos, marks and notes, documents
/// of no node, the last write with its Commit and each other event; entries that go as garbage,
/// what a split lists, a document of an absent node that goes, and previous documents that nobody
/// lists and that go or come.
pub fn steps_let_readers_read_on()
    ensures event { (start : Start) (pin : Pin) (ds : Documents) (past : Past) (done : Progress)
        (e : Event) → IsKeptSince start ds past done → ((r : Revision) → IsFalse (is_commit_of r e))
        → ReadsOn start pin ds ds past (e ∷ past) }
    ensures write { (start : Start) (pin : Pin) (ds now : Documents) (past : Past) (done : Progress)
        (r : Revision) (drawn : Draw) (p : Path) (marks : List Change) (op : UpdateOp) (number : ℕ)
        → IsKeptSince start ds past done → IsHeldSince start past pin.base pin.sweep
        → draw_of past r ≡ Some drawn → IsTrue (is_in_flight past r) → edit_since past r ≡ None
        → IsWriteOp op r drawn.edit.writes (commit_root drawn.marks) p marks → IsFalse (done r p)
        → IsMainAt ds now p (after_changes (ds (id.Node p)) op number)
        → ReadsOn start pin ds now past past }
    ensures undo { (start : Start) (pin : Pin) (ds now : Documents) (past : Past) (done : Progress)
        (r : Revision) (drawn : Draw) (p : Path) (d : Document) (op : UpdateOp) (number : ℕ)
        → IsKeptSince start ds past done → IsHeldSince start past pin.base pin.sweep
        → draw_of past r ≡ Some drawn → IsTrue (is_in_flight past r) → edit_since past r ≡ None
        → ds (id.Node p) ≡ Some d → IsOrderedDocument d → op.changes ≡ change.Undo r ∷ []
        → IsMainAt ds now p (after_changes (Some d) op number)
        → ReadsOn start pin ds now past past }
    ensures mark { (start : Start) (pin : Pin) (ds now : Documents) (past : Past) (done : Progress)
        (p : Path) (op : UpdateOp) (number : ℕ) → IsKeptSince start ds past done
        → IsHeldSince start past pin.base pin.sweep → op.id ≡ id.Node p
        → IsTrue (list_all is_marking op.changes)
        → IsMainAt ds now p (after_changes (ds (id.Node p)) op number)
        → ReadsOn start pin ds now past past }
    ensures others { (start : Start) (pin : Pin) (ds now : Documents) (past : Past)
        (done : Progress) → IsKeptSince start ds past done
        → IsHeldSince start past pin.base pin.sweep
        → ((q : Path) → now (id.Node q) ≡ ds (id.Node q))
        → ((k : ℕ) (q : Path) → now (id.Prev k q) ≡ ds (id.Prev k q))
        → ReadsOn start pin ds now past past }
    ensures last { (start : Start) (pin : Pin) (ds now : Documents) (past : Past) (done : Progress)
        (r : Revision) (drawn : Draw) (op : UpdateOp) (number : ℕ) → IsKeptSince start ds past done
        → IsHeldSince start past pin.base pin.sweep → draw_of past r ≡ Some drawn → MayCommit past r
        → op.id ≡ id.Node (commit_root drawn.marks) → op.changes ≡ change.Revisions r ∷ []
        → IsMainAt ds now (commit_root drawn.marks)
        (after_changes (ds (id.Node (commit_root drawn.marks))) op number)
        → IsKeptSince start now (event.Commit r ∷ past) done
        → ReadsOn start pin ds now past (event.Commit r ∷ past) }
    ensures pruned { (start : Start) (pin : Pin) (ds now : Documents) (past : Past)
        (done : Progress) (p : Path) (old d : Document) → IsKeptSince start ds past done
        → IsHeldSince start past pin.base pin.sweep → ds (id.Node p) ≡ Some old
        → IsMainAt ds now p d → IsPruned ds (course_from start past) p old d
        → ReadsOn start pin ds now past past }
    ensures moved { (start : Start) (pin : Pin) (ds now : Documents) (past : Past) (done : Progress)
        (p : Path) (old d : Document) (e : PrevEntry) (x : Document)
        → IsKeptSince start ds past done → IsHeldSince start past pin.base pin.sweep
        → ds (id.Node p) ≡ Some old → ds (id.Prev e.number p) ≡ Some x → IsMainAt ds now p d
        → IsMoved (course_from start past) p old d e x → ReadsOn start pin ds now past past }
    ensures removed { (start : Start) (pin : Pin) (ds now : Documents) (past : Past)
        (done : Progress) (p : Path) (old : Document) → IsKeptSince start ds past done
        → IsHeldSince start past pin.base pin.sweep → ds (id.Node p) ≡ Some old
        → IsChangeAt ds now p → now (id.Node p) ≡ None
        → ((k : ℕ) → now (id.Prev k p) ≡ ds (id.Prev k p))
        → IsUnwanted (course_from start past) p old → ReadsOn start pin ds now past past }
    ensures previous { (start : Start) (pin : Pin) (ds now : Documents) (past : Past)
        (done : Progress) (p : Path) (k : ℕ) → IsKeptSince start ds past done
        → IsHeldSince start past pin.base pin.sweep → IsPreviousAt ds now p k → IsUnlisted ds p k
        → ReadsOn start pin ds now past past }
{}

/// What others do leaves former documents so, by which a reader reads the tree though a previous
/// document was written again under a number that was listed and dropped: each step that lets
/// readers read on keeps what is told of them; a document that lists a previous document of a
/// number that none did becomes a former one; and what a slow split writes must be a copy of what a
/// former document of its number had.
pub fn steps_keep_former_documents()
    ensures event { (start : Start) (ds : Documents) (past : Past) (done : Progress) (e : Event)
        (formers : Formers) → IsKeptSince start ds past done
        → ((r : Revision) → IsFalse (is_commit_of r e))
        → AreFormers ds (course_from start past) formers
        → AreFormers ds (course_from start (e ∷ past)) formers }
    ensures write { (start : Start) (ds now : Documents) (past : Past) (done : Progress)
        (r : Revision) (drawn : Draw) (p : Path) (marks : List Change) (op : UpdateOp) (number : ℕ)
        (formers : Formers) → IsKeptSince start ds past done → draw_of past r ≡ Some drawn
        → IsTrue (is_in_flight past r) → edit_since past r ≡ None
        → IsWriteOp op r drawn.edit.writes (commit_root drawn.marks) p marks → IsFalse (done r p)
        → IsMainAt ds now p (after_changes (ds (id.Node p)) op number)
        → AreFormers ds (course_from start past) formers
        → AreFormers now (course_from start past) formers }
    ensures undo { (start : Start) (ds now : Documents) (past : Past) (done : Progress)
        (r : Revision) (drawn : Draw) (p : Path) (d : Document) (op : UpdateOp) (number : ℕ)
        (formers : Formers) → IsKeptSince start ds past done → draw_of past r ≡ Some drawn
        → IsTrue (is_in_flight past r) → edit_since past r ≡ None → ds (id.Node p) ≡ Some d
        → IsOrderedDocument d → op.changes ≡ change.Undo r ∷ []
        → IsMainAt ds now p (after_changes (Some d) op number)
        → AreFormers ds (course_from start past) formers
        → AreFormers now (course_from start past) formers }
    ensures mark { (start : Start) (ds now : Documents) (past : Past) (done : Progress) (p : Path)
        (op : UpdateOp) (number : ℕ) (formers : Formers) → IsKeptSince start ds past done
        → op.id ≡ id.Node p → IsTrue (list_all is_marking op.changes)
        → IsMainAt ds now p (after_changes (ds (id.Node p)) op number)
        → AreFormers ds (course_from start past) formers
        → AreFormers now (course_from start past) formers }
    ensures others { (start : Start) (ds now : Documents) (past : Past) (done : Progress)
        (formers : Formers) → IsKeptSince start ds past done
        → ((q : Path) → now (id.Node q) ≡ ds (id.Node q))
        → ((k : ℕ) (q : Path) → now (id.Prev k q) ≡ ds (id.Prev k q))
        → AreFormers ds (course_from start past) formers
        → AreFormers now (course_from start past) formers }
    ensures last { (start : Start) (ds now : Documents) (past : Past) (done : Progress)
        (r : Revision) (drawn : Draw) (op : UpdateOp) (number : ℕ) (formers : Formers)
        → IsKeptSince start ds past done → draw_of past r ≡ Some drawn → MayCommit past r
        → op.id ≡ id.Node (commit_root drawn.marks) → op.changes ≡ change.Revisions r ∷ []
        → IsMainAt ds now (commit_root drawn.marks)
        (after_changes (ds (id.Node (commit_root drawn.marks))) op number)
        → IsKeptSince start now (event.Commit r ∷ past) done
        → AreFormers ds (course_from start past) formers
        → AreFormers now (course_from start (event.Commit r ∷ past)) formers }
    ensures pruned { (start : Start) (ds now : Documents) (past : Past) (done : Progress) (p : Path)
        (old d : Document) (formers : Formers) → IsKeptSince start ds past done
        → ds (id.Node p) ≡ Some old → IsMainAt ds now p d
        → IsPruned ds (course_from start past) p old d
        → AreFormers ds (course_from start past) formers
        → AreFormers now (course_from start past) formers }
    ensures moved { (start : Start) (ds now : Documents) (past : Past) (done : Progress) (p : Path)
        (old d : Document) (e : PrevEntry) (x : Document) (formers : Formers)
        → IsKeptSince start ds past done → ds (id.Node p) ≡ Some old
        → ds (id.Prev e.number p) ≡ Some x → IsMainAt ds now p d
        → IsMoved (course_from start past) p old d e x → e.number ≡ old.mod_count
        → formers p e.number ≡ None → AreFormers ds (course_from start past) formers
        → AreFormers now (course_from start past)
        (with_former formers p e.number (former_now (course_from start past) old)) }
    ensures removed { (start : Start) (ds now : Documents) (past : Past) (done : Progress)
        (p : Path) (old : Document) (formers : Formers) → IsKeptSince start ds past done
        → ds (id.Node p) ≡ Some old → IsChangeAt ds now p → now (id.Node p) ≡ None
        → ((k : ℕ) (q : Path) → now (id.Prev k q) ≡ ds (id.Prev k q))
        → IsUnwanted (course_from start past) p old → AreFormers ds (course_from start past) formers
        → AreFormers now (course_from start past) formers }
    ensures previous { (start : Start) (ds now : Documents) (past : Past) (done : Progress)
        (p : Path) (k : ℕ) (formers : Formers) → IsKeptSince start ds past done
        → IsPreviousAt ds now p k → IsUnlisted ds p k
        → ((f : Former) (x : Document) → formers p k ≡ Some f → now (id.Prev k p) ≡ Some x
        → IsCopyOf p k f x) → AreFormers ds (course_from start past) formers
        → AreFormers now (course_from start past) formers }
{}
