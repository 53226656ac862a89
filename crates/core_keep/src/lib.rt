//! Reading stays right while entries move to previous documents, sweep vectors stand for statuses,
//! and garbage is dropped beside readers.
#![tactic(auto)]

ghost use Rattle.std.specs.Prelude.{◌≡◌, ◌⊎◌, ◌&&◌, ℕ, Bool, false, List, [], ◌∷◌, Option, None, Some, is_some, IsTrue, IsFalse};
ghost use Rattle.jr_path.specs.declared.name.Name.{Name};
ghost use Rattle.jr_path.specs.declared.path.Path.{Path};
ghost use Rattle.jr_path.specs.declared.path.DocId.TheVariants as id;
ghost use Rattle.jr_rev.specs.declared.revision.Revision.{Revision};
ghost use Rattle.jr_rev.specs.declared.vector.Pin.{Pin};
ghost use Rattle.jr_rev.specs.declared.vector.RevVec.{RevVec};
ghost use Rattle.jr_rev.specs.Vectors.{sees};
ghost use Rattle.jr_tree.specs.Trees.{node_at};
ghost use Rattle.oak_doc.specs.declared.document.Document.{Document};
ghost use Rattle.oak_doc.specs.declared.document.PrevEntry.{PrevEntry};
ghost use Rattle.oak_doc.specs.declared.update.EntryKey.{EntryKey};
ghost use Rattle.oak_doc.specs.declared.update.UpdateOp.{UpdateOp};
ghost use Rattle.oak_doc.specs.Updates.{after_changes, of_revision, values_of_property};
ghost use Rattle.oak_read.specs.Meaning.{Documents, found_node, is_committed};
ghost use Rattle.oak_machine.specs.declared.event.Start.{Start};
ghost use Rattle.oak_machine.specs.History.{Past};
ghost use Rattle.oak_machine.specs.Commits.{tree_at};
ghost use Rattle.core_read.specs.Told.{IsIn};
ghost use Rattle.core_read.specs.Commits.{Closed, Fall, Sight};
ghost use Rattle.core_read.specs.Writes.{IsOrderedDocument};
ghost use Rattle.core_keep.specs.Bounds.{Told, kept_pairs, bound_of};
ghost use Rattle.core_keep.specs.Dropping.{DropsGarbage, IsLeftAlone, IsWithout};
ghost use Rattle.core_keep.specs.From.{falling_from, course_from, AreSoundFrom, IsFirst};
ghost use Rattle.core_keep.specs.Garbage.{is_garbage_document};
ghost use Rattle.core_keep.specs.Holding.{Holding, IsBoundRead, IsBelowAll, IsPairBelow, Leads};
ghost use Rattle.core_keep.specs.Keeps.{edit_in, is_done, Course, IsCourse, IsDownward, IsHeldPair, Keeps};
ghost use Rattle.core_keep.specs.Readers.{gone_by, Reads, GoesOn, asked_too, look_on, look_too};
ghost use Rattle.core_keep.specs.Formers.{AreFormers, Former, Formers, FormersGrow, IsCopyOf, IsFollowed, IsFormer, IsShownIn};
ghost use Rattle.core_keep.specs.Lookers.{Looks, LooksOn};
ghost use Rattle.core_keep.specs.Standing.{all_at};
ghost use Rattle.std.specs.Option.{option_map_or};
ghost use Rattle.core_keep.specs.Splits.{previous_write, IsInOrder};
ghost use Rattle.core_keep.specs.Steps.{IsSameBesides, IsChangeAt, IsMainAt, IsPruned, IsMoved, IsUnwanted, IsPreviousAt, IsUnlisted};

/// The bound of a collection that reads each cluster node at a moment of its own, and then the
/// settings, is at most every pair that is held then and later, and each head.
pub fn bounds_are_below()
    ensures later { (bound : Pin) (last now : Holding) (way : List Holding) → IsBoundRead bound last
        → Leads way last now → IsBelowAll bound now }
    ensures told { (root : Document) (nodes : List Told) (settings : Document) (n : Told) (x : Pin)
        → IsIn n nodes → IsIn x (n.head ∷ n.pins) → IsPairBelow (bound_of root nodes settings) x }
    ensures kept { (root : Document) (nodes : List Told) (settings : Document) (x : Pin)
        → IsIn x (kept_pairs settings) → IsPairBelow (bound_of root nodes settings) x }
{}

/// A reader that goes document by document reads on while others go on: behind its copy of the
/// node's document it asks for the previous documents that this lists, and then for commit roots.
/// What it finds may be a previous document that a slow split wrote again after another of its
/// number was dropped: as long as it is a copy of what a former document had, and what the reader
/// goes by shows that one.
pub fn readers_go_on()
    ensures asks { (ds : Documents) (c : Course) (v t : Sight) (p : Path) (copy : Document)
        (asked : ℕ → Bool) (look : ℕ → Option Document) → Reads ds c v t p copy asked look → (k : ℕ)
        → Reads ds c v t p copy (asked_too asked k) look }
    ensures lasts { (ds now : Documents) (c later : Course) (v t : Sight) (p : Path)
        (copy : Document) (asked : ℕ → Bool) (look : ℕ → Option Document)
        → Reads ds c v t p copy asked look → (goes : GoesOn ds now c later v t p copy asked)
        → Reads now later v t p copy asked (look_on asked goes.stays look) }
    ensures finds { (ds : Documents) (c : Course) (v t : Sight) (p : Path) (copy : Document)
        (asked : ℕ → Bool) (look : ℕ → Option Document) (k : ℕ) (f : Former)
        → Reads ds c v t p copy asked look → IsHeldPair c v t → IsFormer ds c p f
        → ((x : Document) → ds (id.Prev k p) ≡ Some x → IsCopyOf p k f x)
        → IsShownIn v f (gone_by copy look) → (look k ≡ ds (id.Prev k p)) ⊎ (look k ≡ None)
        → Reads ds c v t p copy (asked_too asked k) (look_too look k (ds (id.Prev k p))) }
    ensures shows { (ds : Documents) (c : Course) (v t : Sight) (p : Path) (copy : Document)
        (f : Former) → IsHeldPair c v t → ds (id.Node p) ≡ Some copy → IsFollowed ds c p f
        → IsShownIn v f (gone_by copy (λ k. ds (id.Prev k p))) }
{}

/// A split writes a previous document where there is none of its id, so nobody lists it yet; and
/// what it writes is a copy of what the document had that it read, be that a former one meanwhile.
pub fn splits_move()
    ensures unlisted { (ds : Documents) (c : Course) (formers : Formers) (p : Path) (k : ℕ)
        → AreFormers ds c formers → ((f : Former) → formers p k ≡ Some f → f.document.mod_count ≡ k)
        → ds (id.Prev k p) ≡ None → IsUnlisted ds p k }
    ensures copies { (read : Documents) (pin : Pin) (old : Document) (number : ℕ) (p : Path)
        (f : Former) → IsInOrder old → old.id ≡ id.Node p → f.document ≡ old
        → ((n : Name) (r : Revision) → IsTrue (is_some (of_revision (values_of_property
        old.props n) r)) → IsTrue (sees pin.base r && is_committed read pin.sweep old r)
        → IsTrue (f.done r))
        → IsCopyOf p old.mod_count f (after_changes None (previous_write read pin old) number) }
{}

/// Of a revision that its bound doesn't see, a collection leaves all: entries, marks, collisions,
/// notes and statuses. So whom a committer's base doesn't see it meets as before.
pub fn collections_leave_marks()
    ensures pruned { (ds : Documents) (p : Path) (m t : RevVec) (old : Document) (op : UpdateOp)
        (number : ℕ) (keys : List EntryKey) (ns : List ℕ) (q : Revision)
        → ((r : Revision) → IsTrue (sees t r) → IsTrue (sees m r)) → IsOrderedDocument old
        → DropsGarbage ds m t p old op keys ns → IsFalse (sees m q)
        → IsLeftAlone q old (after_changes (Some old) op number) }
    ensures removed { (m t : RevVec) (old : Document) (q : Revision)
        → IsTrue (is_garbage_document m t old) → IsFalse (sees m q) → IsWithout q old }
{}

/// What others do between two steps of a reader lets it go on, where its pair is held: garbage that
/// goes, what a split lists, a document of an absent node that goes, previous documents that nobody
/// lists and that go or come, and what the journal tells more.
pub fn others_let_readers_go_on()
    ensures pruned { (ds now : Documents) (c : Course) (v t : Sight) (p : Path) (copy : Document)
        (asked : ℕ → Bool) (at : Path) (old d : Document) → Keeps ds c → IsCourse c
        → IsHeldPair c v t → ds (id.Node at) ≡ Some old → IsMainAt ds now at d
        → IsPruned ds c at old d → GoesOn ds now c c v t p copy asked }
    ensures moved { (ds now : Documents) (c : Course) (v t : Sight) (p : Path) (copy : Document)
        (asked : ℕ → Bool) (at : Path) (old d : Document) (e : PrevEntry) (x : Document)
        → Keeps ds c → IsCourse c → IsHeldPair c v t → ds (id.Node at) ≡ Some old
        → ds (id.Prev e.number at) ≡ Some x → IsMainAt ds now at d → IsMoved c at old d e x
        → GoesOn ds now c c v t p copy asked }
    ensures removed { (ds now : Documents) (c : Course) (v t : Sight) (p : Path) (copy : Document)
        (asked : ℕ → Bool) (at : Path) (old : Document) → Keeps ds c → IsCourse c → IsHeldPair c v t
        → ds (id.Node at) ≡ Some old → IsChangeAt ds now at → now (id.Node at) ≡ None
        → ((k : ℕ) → now (id.Prev k at) ≡ ds (id.Prev k at)) → IsUnwanted c at old
        → GoesOn ds now c c v t p copy asked }
    ensures previous { (ds now : Documents) (c : Course) (v t : Sight) (p : Path) (copy : Document)
        (asked : ℕ → Bool) (at : Path) (k : ℕ) → Keeps ds c → IsCourse c → IsHeldPair c v t
        → IsPreviousAt ds now at k → IsUnlisted ds at k → GoesOn ds now c c v t p copy asked }
    ensures besides { (ds now : Documents) (c : Course) (v t : Sight) (p : Path) (copy : Document)
        (asked : ℕ → Bool) (at : Path) (d : Document) (own : Sight) → Keeps ds c → IsCourse c
        → IsHeldPair c v t → IsMainAt ds now at d
        → ((q : Revision) → IsTrue (own q)
        → (edit_in c q ≡ None) × IsTrue (c.flying q) × IsFalse (c.bound q))
        → ((q : Revision) → IsTrue (own q) → IsFalse (v q))
        → IsSameBesides c own at (ds (id.Node at)) d → GoesOn ds now c c v t p copy asked }
    ensures told { (ds : Documents) (c later : Course) (v t : Sight) (p : Path) (copy : Document)
        (asked : ℕ → Bool) → Fall c.commits → Fall later.commits → later.tree ≡ c.tree
        → ((q : Revision) → IsTrue (v q) → edit_in later q ≡ edit_in c q)
        → ((r : Revision) → IsTrue (is_done c r) → IsTrue (is_done later r))
        → GoesOn ds ds c later v t p copy asked }
{}

/// Kept documents mean the tree of a journal that begins with a start, as of a repository opened
/// from documents: the tree of the start is what the bounds see first.
pub fn kept_documents_with_a_start_mean_the_tree()
    ensures { (start : Start) (past : Past) (base : Revision → Sight) (ds : Documents)
        (v t : RevVec) (p : Path) → IsFirst start.tree
        → AreSoundFrom start.tree base (falling_from past)
        → Closed base (sees v) (falling_from past) → Keeps ds (course_from start past)
        → IsCourse (course_from start past)
        → IsDownward (course_from start past) (course_from start past).bound
        → IsHeldPair (course_from start past) (sees v) (sees t)
        → found_node ds t v p ≡ node_at (tree_at (Some start) past v) p }
{}

/// A committer that looks at the document as it was before its write, and then at the previous
/// documents that this listed, one after another, while others go on, finds of what its base
/// doesn't see just what stood at its write: what was dropped meanwhile had nothing of that, and
/// what a slow split wrote had stood. A step of others lets it look on: a write, an undo, marks and
/// notes, the last write, what a split lists, garbage that goes, a document of an absent node, and
/// previous documents that nobody lists.
pub fn committers_look_on()
    ensures begins { (ds : Documents) (c : Course) (formers : Formers) (unseen : Sight) (p : Path)
        (copy : Document) → Keeps ds c → IsCourse c → AreFormers ds c formers
        → ((o : Revision) → IsTrue (unseen o) → IsFalse (c.bound o)) → ds (id.Node p) ≡ Some copy
        → Looks ds formers unseen p (all_at ds p) copy (λ k. false) (λ k. ds (id.Prev k p)) }
    ensures lasts { (ds now : Documents) (formers more : Formers) (unseen : Sight) (p : Path)
        (stood : List Document) (copy : Document) (asked : ℕ → Bool) (look : ℕ → Option Document)
        → FormersGrow formers more → Looks ds formers unseen p stood copy asked look
        → (goes : LooksOn ds now unseen p copy asked)
        → Looks now more unseen p stood copy asked (look_on asked goes.stays look) }
    ensures finds { (ds : Documents) (formers : Formers) (unseen : Sight) (p : Path)
        (stood : List Document) (copy : Document) (asked : ℕ → Bool) (look : ℕ → Option Document)
        (e : PrevEntry) → Looks ds formers unseen p stood copy asked look → IsIn e copy.prev
        → IsFalse (asked e.number)
        → ((f : Former) (x : Document) → formers p e.number ≡ Some f
        → ds (id.Prev e.number p) ≡ Some x → IsCopyOf p e.number f x)
        → Looks ds formers unseen p stood copy (asked_too asked e.number) (look_too look
        e.number (ds (id.Prev e.number p))) }
    ensures changed { (ds now : Documents) (unseen : Sight) (p : Path) (copy : Document)
        (asked : ℕ → Bool) (at : Path) (d : Document) → IsMainAt ds now at d
        → d.prev ≡ option_map_or (λ d. d.prev) (ds (id.Node at)) []
        → LooksOn ds now unseen p copy asked }
    ensures moved { (ds now : Documents) (unseen : Sight) (p : Path) (copy : Document)
        (asked : ℕ → Bool) (at : Path) (old d : Document) (e : PrevEntry)
        → ds (id.Node at) ≡ Some old → IsMainAt ds now at d → d.prev ≡ e ∷ old.prev
        → LooksOn ds now unseen p copy asked }
    ensures pruned { (ds now : Documents) (c : Course) (unseen : Sight) (p : Path) (copy : Document)
        (asked : ℕ → Bool) (at : Path) (old d : Document)
        → ((o : Revision) → IsTrue (unseen o) → IsFalse (c.bound o)) → ds (id.Node at) ≡ Some old
        → IsMainAt ds now at d → IsPruned ds c at old d → LooksOn ds now unseen p copy asked }
    ensures removed { (ds now : Documents) (c : Course) (unseen : Sight) (p : Path)
        (copy : Document) (asked : ℕ → Bool) (at : Path) (old : Document) → Keeps ds c → IsCourse c
        → IsDownward c c.bound → ((o : Revision) → IsTrue (unseen o) → IsFalse (c.bound o))
        → ds (id.Node at) ≡ Some old → IsChangeAt ds now at
        → ((k : ℕ) (q : Path) → now (id.Prev k q) ≡ ds (id.Prev k q)) → IsUnwanted c at old
        → LooksOn ds now unseen p copy asked }
    ensures previous { (ds now : Documents) (unseen : Sight) (p : Path) (copy : Document)
        (asked : ℕ → Bool) (at : Path) (k : ℕ) → IsPreviousAt ds now at k → IsUnlisted ds at k
        → LooksOn ds now unseen p copy asked }
    ensures others { (ds now : Documents) (unseen : Sight) (p : Path) (copy : Document)
        (asked : ℕ → Bool) → ((q : Path) → now (id.Node q) ≡ ds (id.Node q))
        → ((k : ℕ) (q : Path) → now (id.Prev k q) ≡ ds (id.Prev k q))
        → LooksOn ds now unseen p copy asked }
{}
