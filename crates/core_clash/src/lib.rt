//! Many committers over one store, in every interleaving of their steps, of splits and collections,
//! and of stops and recoveries of their cluster nodes: no two commits clash unseen, and each
//! refusal has its cause.
#![tactic(auto)]

ghost use Rattle.std.specs.Prelude.{◌≡◌, ◌⊎◌, ℕ, List, ◌∷◌, true, false, None, is_some, ◌||◌, Bool, not, Option, Some, IsFalse};
ghost use Rattle.jr_rev.specs.Vectors.{sees};
ghost use Rattle.jr_path.specs.declared.path.Path.{Path};
ghost use Rattle.jr_rev.specs.declared.revision.Revision.{Revision};
ghost use Rattle.jr_rev.specs.declared.vector.RevVec.{RevVec};
ghost use Rattle.jr_rev.specs.Revisions.{is_same};
ghost use Rattle.oak_clash.specs.declared.mark.Mark.{Mark};
ghost use Rattle.oak_clash.specs.declared.mark.MarkAt.{MarkAt};
ghost use Rattle.oak_doc.specs.declared.document.Document.{Document};
ghost use Rattle.oak_read.specs.Meaning.{Documents};
ghost use Rattle.core_keep.specs.Formers.{Formers};
ghost use Rattle.core_keep.specs.Lookers.{Looks};
ghost use Rattle.oak_machine.specs.declared.event.Draw.{Draw};
ghost use Rattle.oak_machine.specs.declared.event.Event.{Event};
ghost use Rattle.oak_machine.specs.declared.event.Event.TheVariants as event;
ghost use Rattle.oak_machine.specs.Commits.{is_drawn, is_committed, is_ended, is_in_base, are_clashing};
ghost use Rattle.oak_machine.specs.History.{Begin, begin_at};
ghost use Rattle.oak_machine.specs.Runs.{IsRunOf, AreNodes};
ghost use Rattle.oak_machine.specs.Sessions.{is_stopped};
ghost use Rattle.oak_commit.specs.Clashing.{found, marked, noted};
ghost use Rattle.core_read.specs.Holds.{root_entry};
ghost use Rattle.std.specs.List.{list_any, filter_map};
ghost use Rattle.core_keep.specs.Journal.{is_swept};
ghost use Rattle.core_clash.specs.Views.{In, Once, mark_at};
ghost use Rattle.core_clash.specs.Core.{Core, IsDead, MayDrawAnew, MayWrite, core_cleared, root_of};
ghost use Rattle.oak_commit.specs.Looking.{whole};
ghost use Rattle.core_clash.specs.Sound.{IsRooted, has_moved, marked_in};
ghost use Rattle.core_clash.specs.Steps.{EndsWell, IsUndoneAt, Reached, Step};

use oak_machine::Law;

/// Each Commit, each Refuse and each End of a past that can be reached may follow the events before
/// it.
pub fn each_end_may_follow()
    ensures { (s : Core) → Reached s → EndsWell s.past }
{}

/// Of two commits that clash, the base of one sees the other.
pub fn no_two_commits_clash_unseen()
    ensures { (s : Core) (r o : _) → Reached s → (r ≡ o → ⊥) → is_committed s.past r ≡ true
        → is_committed s.past o ≡ true → are_clashing s.past r o ≡ true
        → (is_in_base s.past r o ≡ true) ⊎ (is_in_base s.past o r ≡ true) }
{}

/// What ended, of a cluster node that wasn't stopped, wanted no memory and clashes with no other
/// draw outside its base is committed.
pub fn what_meets_nothing_is_committed()
    ensures { (s : Core) (r : _) → Reached s → is_ended s.past r ≡ true
        → is_stopped s.past r.cluster ≡ false → (s.writers r).wants ≡ false
        → ((o : _) → (r ≡ o → ⊥) → is_drawn s.past o ≡ true → is_in_base s.past r o ≡ false
        → are_clashing s.past r o ≡ false) → is_committed s.past r ≡ true }
{}

/// What ended without a commit, by its own committer or by a recovery of its stopped cluster node,
/// has left no mark in any document, and nothing of it has moved to a previous one.
pub fn what_is_refused_leaves_no_mark()
    ensures marks { (s : Core) (r p m : _) → Reached s → s.old r ≡ false → is_ended s.past r ≡ true
        → is_committed s.past r ≡ false → marked (s.docs p) r m ≡ false }
    ensures moved { (s : Core) (r p m : _) → Reached s → s.old r ≡ false → is_ended s.past r ≡ true
        → is_committed s.past r ≡ false → list_any (has_moved r m) (s.moved p) ≡ false }
{}

/// The commit root of a revision that no bound has swept, and that wasn't there from the beginning,
/// tells whether it is committed, in every interleaving: whoever asks it may take the answer for
/// the journal's.
pub fn statuses_can_be_trusted()
    ensures { (s : Core) (r : _) → Reached s → is_swept s.past r ≡ false → s.old r ≡ false
        → noted (s.docs (root_of s.past r)) r ≡ is_committed s.past r }
{}

/// What a stopped cluster node hasn't committed it never commits. Where a recovery has undone it in
/// a document, nothing of it is there, nor comes there again, whatever others do.
pub fn what_is_undone_stays_undone()
    ensures dead { (s t : Core) (d : Draw) → Step s t → IsDead s.past d → IsDead t.past d }
    ensures begins { (s : Core) (e : Event) (d : Draw) (p : _)
        → IsUndoneAt (core_cleared s e d p) d.revision p }
    ensures stays { (s t : Core) (d : Draw) (p : _) → Step s t → IsDead s.past d
        → IsUndoneAt s d.revision p → IsUndoneAt t d.revision p }
    ensures marks { (s : Core) (d : Draw) (p m : _) → Reached s → IsDead s.past d
        → IsUndoneAt s d.revision p → marked (s.docs p) d.revision m ≡ false }
    ensures roots { (s : Core) (d : Draw) (p : _) → Reached s → IsDead s.past d
        → IsUndoneAt s d.revision p → is_some (root_entry (s.docs p) d.revision) ≡ false }
{}

/// A document that has a mark of a revision tells the commit root of its draw, until a bound has
/// swept it.
pub fn a_marked_document_tells_the_commit_root()
    ensures { (s : Core) (r p m : _) → Reached s → is_swept s.past r ≡ false → s.old r ≡ false
        → marked_in (s.docs p) (s.moved p) r m ≡ true → IsRooted (s.docs p) r (root_of s.past r) }
{}

/// The document that a committer writes next tells the commit root of each whom it meets there, so
/// it finds the root in the document alone.
pub fn who_is_met_is_told_with_its_commit_root()
    ensures { (s : Core) (d : Draw) (p : _) (rest : List _) (f : _) → Reached s
        → MayWrite s d p rest
        → In f (found d.base d.revision p d.marks (whole p (s.docs p) (s.moved p)))
        → IsRooted (s.docs p) f.other (root_of s.past f.other) }
{}

/// A draw that may follow a run may begin, with a list of all its marked documents, each once:
/// where what there was from the beginning is that of the run.
pub fn draws_may_begin<L: Law>(law: &L)
    ensures { (clusters : ℕ) (sessions : List ℕ) (begin : Begin) (s : Core) (d : Draw)
        (left : List _) → AreNodes clusters sessions
        → ((o : Revision) → s.old o ≡ true → sees (begin_at clusters begin) o ≡ true)
        → IsRunOf (L.may_start law.now) (L.may_say law.now) clusters sessions begin
        (event.Draw d ∷ s.past) → ((p m : _) → In (mark_at p m) d.marks → In p left) → Once left
        → MayDrawAnew s d left }
{}

/// What a committer finds depends on the marks alone that stand of what its base doesn't see, in
/// the document and in what moved from it. So one that looks at the previous documents one after
/// another, while others go on, finds just what it would have found at its write.
pub fn what_is_found_was_there()
    ensures marks { (base : RevVec) (r : Revision) (p : Path) (ms : List MarkAt)
        (d e : Option Document) (xs ys : List Document)
        → ((o : Revision) → IsFalse (is_same o r || sees base o) → (m : Mark)
        → marked_in d xs o m ≡ marked_in e ys o m)
        → found base r p ms (whole p d xs) ≡ found base r p ms (whole p e ys) }
    ensures looked { (ds : Documents) (formers : Formers) (base : RevVec) (r : Revision) (p : Path)
        (ms : List MarkAt) (copy : Document) (xs : List Document) (asked : ℕ → Bool)
        (look : ℕ → Option Document)
        → Looks ds formers (λ o. not (is_same o r || sees base o)) p (copy ∷ xs) copy asked look
        → found base r p ms (whole p (Some copy) (filter_map (λ e. look e.number) copy.prev))
        ≡ found base r p ms (whole p (Some copy) xs) }
{}
