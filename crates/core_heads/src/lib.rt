//! In each run of the machine the heads are good, and what is in hand stays as it is.
#![tactic(auto)]

ghost use Rattle.std.specs.Prelude.{◌≡◌, ℕ, [], ◌∷◌, ◌++◌, Some, IsTrue, IsFalse};
ghost use Rattle.jr_rev.specs.declared.vector.RevVec.{RevVec};
ghost use Rattle.jr_rev.specs.declared.revision.Revision.{Revision};
ghost use Rattle.jr_rev.specs.Vectors.{is_below, sees};
ghost use Rattle.oak_machine.specs.declared.event.Draw.{Draw};
ghost use Rattle.oak_machine.specs.declared.event.Event.TheVariants as event;
ghost use Rattle.oak_machine.specs.History.{History, Past};
ghost use Rattle.oak_machine.specs.Commits.{draw_of, tree_at, IsSettled, IsClosed};
ghost use Rattle.oak_machine.specs.Heads.{head_of};
ghost use Rattle.oak_machine.specs.Laws.{after};
ghost use Rattle.oak_machine.specs.Runs.{IsNode};
ghost use Rattle.core_read.specs.Told.{IsInUse, IsFreshDraw};
ghost use Rattle.core_heads.specs.Sound.{Begins, IsInHand, IsNodesRun};

use oak_machine::Law;

/// In each run from any beginning what is in hand is in use: it sees nothing that is in flight,
/// with each drawn revision all that its base sees, and the start. The base of each draw is at most
/// its node's head, heads grow, and a draw is fresh.
pub fn what_is_in_hand_is_in_use<L: Law>(law: &L)
    ensures used { (h : History) (v : RevVec)
        → IsNodesRun (L.may_start law.now) (L.may_say law.now) h
        → IsInHand h v → IsInUse h.past v }
    ensures draws { (h : History) (r : Revision) (d : Draw)
        → IsNodesRun (L.may_start law.now) (L.may_say law.now) h → draw_of h.past r ≡ Some d
        → IsTrue (is_below d.base (head_of h.clusters h.begin h.past r.cluster)) }
    ensures grow { (h : History) (added : Past) (k : ℕ)
        → IsNodesRun (L.may_start law.now) (L.may_say law.now) (after added h) → IsNode h.clusters k
        → IsTrue (is_below (head_of h.clusters h.begin h.past k)
        (head_of h.clusters h.begin (added ++ h.past) k)) }
    ensures fresh { (h : History) (d : Draw)
        → IsNodesRun (L.may_start law.now) (L.may_say law.now) (after (event.Draw d ∷ []) h)
        → IsFreshDraw h.past d × Begins h.past d }
{}

/// In each run from any beginning the base of each session, the last checkpoint of each id and the
/// head of each cluster node is settled and closed; none of them sees what is drawn after it, so
/// the tree that it sees stays as it is.
pub fn bases_are_settled<L: Law>(law: &L)
    ensures settled { (h : History) (v : RevVec)
        → IsNodesRun (L.may_start law.now) (L.may_say law.now) h
        → IsInHand h v → IsSettled h.past v × IsClosed h.past v }
    ensures unseen { (h : History) (d : Draw) (v : RevVec)
        → IsNodesRun (L.may_start law.now) (L.may_say law.now) (after (event.Draw d ∷ []) h)
        → IsInHand h v → IsFalse (sees v d.revision) }
    ensures stays { (h : History) (added : Past) (v : RevVec)
        → IsNodesRun (L.may_start law.now) (L.may_say law.now) (after added h)
        → IsInHand h v → tree_at h.begin (added ++ h.past) v ≡ tree_at h.begin h.past v }
{}
