// Commits of a session: what it drew, and what its own commit makes of the tree.
ghost use Rattle.std.specs.Prelude.{◌≡◌, ℕ, ◌+◌, ◌≤◌, ◌++◌, Some, option_map, IsTrue};
ghost use Rattle.jr_rev.specs.declared.revision.Revision.{Revision};
ghost use Rattle.jr_rev.specs.declared.vector.RevVec.{RevVec};
ghost use Rattle.jr_rev.specs.Vectors.{IsVector, entry, with_entry};
ghost use Rattle.jr_tree.specs.Edits.{applied};
ghost use Rattle.oak_machine.specs.declared.event.Draw.{Draw};
ghost use Rattle.oak_machine.specs.Commits.{draw_of, is_committed, tree_at};
ghost use Rattle.oak_machine.specs.History.{History, Past};
ghost use Rattle.oak_machine.specs.Laws.{after};
ghost use Rattle.oak_machine.specs.Runs.{IsRun};
ghost use Rattle.oak_machine.specs.Sessions.{base_of, drawn_since};
ghost use Rattle.core_heads.specs.Sound.{IsNodesRun};
ghost use Rattle.jcr_law.specs.declared.law.JcrLaw.{JcrLaw};
ghost use Rattle.jcr_law.specs.Lasting.{says_of, starts_of};
ghost use Rattle.jcr_law.specs.Since.{before_turn, draw_since};
ghost use Rattle.jr_rev.specs.Alone.{IsNextAlone};

/// What a session drew for the command that it has not answered yet is a draw of that session, the
/// one of its revision; it was drawn at the base at which the command began, and the tree there
/// stays as it is.
pub fn draws_are_known()
    ensures revision { (past : Past) (s : ℕ)
        → drawn_since past s ≡ option_map (λ d. d.revision) (draw_since past s) }
    ensures session { (law : JcrLaw) (h : History) (s : ℕ) (d : Draw)
        → IsNodesRun (starts_of law) (says_of law) h → draw_since h.past s ≡ Some d
        → d.session ≡ s }
    ensures known { (law : JcrLaw) (h : History) (s : ℕ) (d : Draw)
        → IsNodesRun (starts_of law) (says_of law) h → draw_since h.past s ≡ Some d
        → draw_of h.past d.revision ≡ Some d }
    ensures begun { (law : JcrLaw) (h : History) (s : ℕ) (d : Draw)
        → IsRun (starts_of law) (says_of law) h → draw_since h.past s ≡ Some d
        → base_of (before_turn h.past s) s ≡ Some d.base }
    ensures tree { (law : JcrLaw) (h : History) (added : Past) (s : ℕ) (d : Draw)
        → IsNodesRun (starts_of law) (says_of law) (after added h) → draw_since h.past s ≡ Some d
        → tree_at h.begin (added ++ h.past) d.base ≡ tree_at h.begin h.past d.base }
{}

/// A vector of which the entry of one cluster node is set to the next revision there has that one
/// alone more.
pub fn set_entries_are_alone()
    ensures { (v : RevVec) (r : Revision) → 1 ≤ r.cluster → r.cluster ≤ 8 → IsVector v
        → option_map (λ e. e.time + 1) (entry v r.cluster) ≡ Some r.time
        → IsNextAlone v (with_entry v r) r }
{}

/// Where a vector has the next revision of a cluster node alone more than the base on which that
/// revision was drawn, and the revision was committed, no other commit lies between them: the
/// vector sees the tree at that base with the edit applied.
pub fn own_commit_alone()
    ensures { (law : JcrLaw) (h : History) (v : RevVec) (r : Revision) (d : Draw)
        → IsNodesRun (starts_of law) (says_of law) h → draw_of h.past r ≡ Some d
        → IsTrue (is_committed h.past r) → IsNextAlone d.base v r
        → tree_at h.begin h.past v
        ≡ applied (Some r) (tree_at h.begin h.past d.base) d.edit.writes }
{}
