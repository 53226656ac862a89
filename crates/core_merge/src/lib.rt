//! Merging: whatever commits a reader sees together, it sees a tree, since commits of which neither
//! saw the other are independent.
#![tactic(auto)]

ghost use Rattle.std.specs.Prelude.{◌≡◌, ◌⊎◌, ℕ, Some, IsTrue, IsFalse};
ghost use Rattle.jr_path.specs.Lists.{Text};
ghost use Rattle.jr_rev.specs.declared.revision.Revision.{Revision};
ghost use Rattle.jr_rev.specs.declared.vector.RevVec.{RevVec};
ghost use Rattle.jr_rev.specs.Vectors.{sees};
ghost use Rattle.jr_tree.specs.Trees.{IsTree};
ghost use Rattle.jr_tree.specs.Edits.{IsProper};
ghost use Rattle.oak_machine.specs.declared.event.Draw.{Draw};
ghost use Rattle.oak_machine.specs.History.{History};
ghost use Rattle.oak_machine.specs.Changed.{tree_below};
ghost use Rattle.oak_machine.specs.Commits.{draw_of, is_committed, is_in_base, are_clashing, tree_at, IsClosed};
ghost use Rattle.oak_machine.specs.Heads.{head_of};
ghost use Rattle.oak_machine.specs.Runs.{IsNode, MayCommit};
ghost use Rattle.oak_machine.specs.Sessions.{base_of, last_checkpoint};
ghost use Rattle.core_heads.specs.Sound.{IsNodesRun};
ghost use Rattle.core_merge.specs.Independent.{AreIndependent, IsMergingRun, StartsMarkingParents};
ghost use Rattle.core_merge.specs.Orders.{tree_by_commits};

use oak_machine::Law;

/// In each run by a law whose edits mark the parents of the nodes that they add or remove, from
/// whatever it begins with, what a closed vector sees is a tree. So it is at each node's head, at
/// the base of each session and of each draw, and at each checkpoint. All commits, in the order in
/// which they were made, leave a tree too, and a closed vector that sees them all sees that tree:
/// their order doesn't matter.
pub fn merged_trees_are_trees<L: Law>(law: &L)
    ensures closed { (h : History) (v : RevVec)
        → IsMergingRun (L.may_start law.now) (L.may_say law.now) h
        → IsClosed h.past v → IsTree (tree_at h.begin h.past v) }
    ensures heads { (h : History) (k : ℕ)
        → IsMergingRun (L.may_start law.now) (L.may_say law.now) h → IsNode h.clusters k
        → IsTree (tree_at h.begin h.past (head_of h.clusters h.begin h.past k)) }
    ensures bases { (h : History) (s : ℕ) (v : RevVec)
        → IsMergingRun (L.may_start law.now) (L.may_say law.now) h
        → base_of h.past s ≡ Some v → IsTree (tree_at h.begin h.past v) }
    ensures kept { (h : History) (id : Text) (v : RevVec)
        → IsMergingRun (L.may_start law.now) (L.may_say law.now) h
        → last_checkpoint h.past id ≡ Some v → IsTree (tree_at h.begin h.past v) }
    ensures draws { (h : History) (r : Revision) (d : Draw)
        → IsMergingRun (L.may_start law.now) (L.may_say law.now) h
        → draw_of h.past r ≡ Some d → IsTree (tree_at h.begin h.past d.base) }
    ensures order { (h : History) → IsMergingRun (L.may_start law.now) (L.may_say law.now) h
        → IsTree (tree_by_commits h.begin h.past) }
    ensures same { (h : History) (v : RevVec)
        → IsMergingRun (L.may_start law.now) (L.may_say law.now) h
        → IsClosed h.past v → ((r : Revision) → IsTrue (is_committed h.past r) → IsTrue (sees v r))
        → tree_at h.begin h.past v ≡ tree_by_commits h.begin h.past }
{}

/// There each edit is proper wherever it is applied: on the tree at its base, on the tree of what a
/// closed vector that sees it sees below it, and, when it is committed, on the tree of all commits
/// so far.
pub fn merged_edits_stay_proper<L: Law>(law: &L)
    ensures base { (h : History) (r : Revision) (d : Draw)
        → IsMergingRun (L.may_start law.now) (L.may_say law.now) h
        → draw_of h.past r ≡ Some d → IsProper (tree_at h.begin h.past d.base) d.edit.writes }
    ensures below { (h : History) (v : RevVec) (r : Revision) (d : Draw)
        → IsMergingRun (L.may_start law.now) (L.may_say law.now) h
        → IsClosed h.past v → IsTrue (is_committed h.past r) → draw_of h.past r ≡ Some d
        → IsTrue (sees v r) → IsProper (tree_below h.begin h.past v r) d.edit.writes }
    ensures order { (h : History) (r : Revision) (d : Draw)
        → IsMergingRun (L.may_start law.now) (L.may_say law.now) h
        → draw_of h.past r ≡ Some d → MayCommit h.past r
        → IsProper (tree_by_commits h.begin h.past) d.edit.writes }
{}

/// Of two commits that clash, the base of one sees the other. So two commits of which neither base
/// sees the other are independent.
pub fn unseen_commits_are_independent<L: Law>(law: &L)
    ensures seen { (h : History) (r o : Revision)
        → IsNodesRun (L.may_start law.now) (L.may_say law.now) h
        → IsTrue (is_committed h.past r) → IsTrue (is_committed h.past o) → (r ≡ o → ⊥)
        → IsTrue (are_clashing h.past r o)
        → IsTrue (is_in_base h.past r o) ⊎ IsTrue (is_in_base h.past o r) }
    ensures independent { (h : History) (r o : Revision) (d e : Draw)
        → IsMergingRun (L.may_start law.now) (L.may_say law.now) h
        → IsTrue (is_committed h.past r) → IsTrue (is_committed h.past o) → (r ≡ o → ⊥)
        → draw_of h.past r ≡ Some d → draw_of h.past o ≡ Some e
        → IsFalse (is_in_base h.past r o) → IsFalse (is_in_base h.past o r)
        → AreIndependent d.edit.writes e.edit.writes }
{}
