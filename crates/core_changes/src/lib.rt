//! Readers of changes whose documents change meanwhile: what comes between their steps changes
//! nothing of what they give.
#![tactic(auto)]

ghost use Rattle.std.specs.Prelude.{◌≡◌, ℕ, List, ◌∷◌, None, Some, IsFalse};
ghost use Rattle.std.specs.declared.alloc.Global.{Global};
ghost use Rattle.jr_path.specs.declared.path.DocId.{DocId};
ghost use Rattle.jr_rev.specs.declared.vector.RevVec.{RevVec};
ghost use Rattle.jr_rev.specs.declared.vector.Pin.{Pin};
ghost use Rattle.jr_tree.specs.declared.shared.CommitChanges.{CommitChanges};
ghost use Rattle.oak_changes.specs.Reading.{changes_reader, due, fed};
ghost use Rattle.oak_changes.specs.declared.changes.ChangesReader.{ChangesReader};
ghost use Rattle.oak_changes.specs.declared.changes.Step.TheVariants as step;
ghost use Rattle.oak_doc.specs.declared.asks.Reply.{Reply};
ghost use Rattle.oak_doc.specs.declared.document.Document.{Document};
ghost use Rattle.jr_rev.specs.declared.revision.Revision.{Revision};
ghost use Rattle.oak_machine.specs.declared.event.Draw.{Draw};
ghost use Rattle.oak_machine.specs.declared.event.Event.{Event};
ghost use Rattle.oak_machine.specs.declared.event.Event.TheVariants as event;
ghost use Rattle.oak_machine.specs.Changed.{changes_between};
ghost use Rattle.oak_machine.specs.Commits.{draw_of, is_commit_of};
ghost use Rattle.oak_machine.specs.Runs.{AreNodes, IsRunOf, MayCommit};
ghost use Rattle.oak_machine.specs.History.{Begin, Past};
ghost use Rattle.oak_read.specs.Meaning.{Documents, documents_in};
ghost use Rattle.oak_read.specs.Reading.{IsTable, answer};
ghost use Rattle.core_keep.specs.Formers.{AreFormers, Formers, FormersGrow};
ghost use Rattle.core_keep.specs.From.{course_from};
ghost use Rattle.core_begun.specs.Kept.{IsHeldSince, IsKeptSince};
ghost use Rattle.oak_machine.specs.declared.event.Start.{Start};
ghost use Rattle.core_begun.specs.Told.{edit_since};
ghost use Rattle.core_read.specs.World.{Progress};
ghost use Rattle.core_watch.specs.Instants.{first_instants, Instant};
ghost use Rattle.core_watch.specs.Moments.{HasIdsAmong};
ghost use Rattle.core_watch.specs.Reading.{ReadsOn};
ghost use Rattle.core_changes.specs.Instants.{AreHeld, AreObservable, AreWriting, ChangesEndWith, after_instants};
ghost use Rattle.core_changes.specs.Observing.{IsObserving, ObservesOn};

use oak_machine::Law;

/// Whatever comes between its steps, commits, splits and collections among it, a reader of changes
/// ends with each commit that its pin's base sees and the other vector doesn't, in ascending order,
/// with what it changes on the tree of the commits below it that the base sees: where at each step
/// the documents keep what the journal tells, the bounds so far see nothing that the other vector
/// doesn't, and from one step to the next others let readers between the two read on. That it ends
/// needs that the documents that come have finitely many ids; what it gives where it is done
/// doesn't.
pub fn observers_read_what_commits_change()
    ensures ends { (start : Start) (ids : List DocId) (a : Global) (from : RevVec) (pin : Pin)
        (i : Instant) (f : ℕ → Instant)
        → ((n : ℕ) → AreObservable start from pin i (first_instants n f))
        → ((n : ℕ) → HasIdsAmong ids (f n).moment)
        → ChangesEndWith (λ o. o ≡ changes_between (Some start) i.moment.past from pin.base) f
        (changes_reader a from pin) }
    ensures done { (start : Start) (a : Global) (from : RevVec) (pin : Pin) (i : Instant)
        (is : List Instant) (o : List CommitChanges) → AreObservable start from pin i is
        → (after_instants is (changes_reader a from pin)).step ≡ step.Done o
        → o ≡ changes_between (Some start) i.moment.past from pin.base }
{}

/// A step at a time, a reader of changes begins, reads on over each answer of the documents and
/// over all that others do, and gives what the commits change. It keeps its vectors.
pub fn observers_read_on()
    ensures begins { (start : Start) (ds : Documents) (past : Past) (formers : Formers) (a : Global)
        (from : RevVec) (pin : Pin)
        → IsObserving start ds past formers (changes_reader a from pin) }
    ensures feeds { (start : Start) (table : List (DocId × Document)) (past : Past)
        (formers : Formers) (done : Progress) (r : ChangesReader) → IsTable table
        → IsKeptSince start (documents_in table) past done → AreHeld start past r.from r.pin
        → AreFormers (documents_in table) (course_from start past) formers
        → AreWriting past r.from r.pin.base → IsObserving start (documents_in table) past formers r
        → IsObserving start (documents_in table) past formers (fed r (answer table (due r))) }
    ensures lasts { (start : Start) (formers more : Formers) (ds now : Documents)
        (past later : Past) (done : Progress) (r : ChangesReader) → IsKeptSince start now later done
        → AreHeld start later r.from r.pin → ObservesOn start r.from r.pin ds now past later
        → FormersGrow formers more → IsObserving start ds past formers r
        → IsObserving start now later more r }
    ensures gives { (start : Start) (ds : Documents) (past : Past) (formers : Formers)
        (r : ChangesReader) (o : List CommitChanges) → IsObserving start ds past formers r
        → r.step ≡ step.Done o → o ≡ changes_between (Some start) past r.from r.pin.base }
    ensures keeps { (r : ChangesReader) (x : Reply)
        → ((fed r x).from ≡ r.from) × ((fed r x).pin ≡ r.pin) }
{}

/// What lets readers at each held pin read on lets readers of changes do so: documents that change
/// while the journal stays, a Commit, and each other event, where a Draw is of a revision that
/// isn't committed.
pub fn steps_let_observers_read_on()
    ensures event { (start : Start) (from : RevVec) (pin : Pin) (ds : Documents) (past : Past)
        (done : Progress) (e : Event) → IsKeptSince start ds past done
        → ((r : Revision) → IsFalse (is_commit_of r e))
        → ((d : Draw) → e ≡ event.Draw d → edit_since past d.revision ≡ None)
        → ObservesOn start from pin ds ds past (e ∷ past) }
    ensures documents { (start : Start) (from : RevVec) (pin : Pin) (ds now : Documents)
        (past : Past) (done : Progress) → IsKeptSince start ds past done
        → AreHeld start past from pin
        → ((v : RevVec) → IsHeldSince start past v pin.sweep
        → ReadsOn start (record { base = v; sweep = pin.sweep }) ds now past past)
        → ObservesOn start from pin ds now past past }
    ensures commit { (start : Start) (from : RevVec) (pin : Pin) (ds now : Documents) (past : Past)
        (done : Progress) (r : Revision) (drawn : Draw) → IsKeptSince start ds past done
        → AreHeld start past from pin → draw_of past r ≡ Some drawn → MayCommit past r
        → ((v : RevVec) → IsHeldSince start past v pin.sweep
        → ReadsOn start (record { base = v; sweep = pin.sweep }) ds now past (event.Commit r
        ∷ past)) → ObservesOn start from pin ds now past (event.Commit r ∷ past) }
{}

/// In a run by a law each commit writes something, between whichever vectors: nothing may start
/// that writes nothing.
pub fn commits_write_something<L: Law>(law: &L)
    ensures { (clusters : ℕ) (sessions : List ℕ) (begin : Begin) (past : Past) (from to : RevVec)
        → AreNodes clusters sessions
        → IsRunOf (L.may_start law.now) (L.may_say law.now) clusters sessions begin past
        → AreWriting past from to }
{}
