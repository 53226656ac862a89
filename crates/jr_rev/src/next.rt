// Whether one revision alone lies between two vectors.
ghost use Rattle.std.specs.Prelude.{◌≡◌, ◌≢◌, ◌≤◌, ◌↔◌, ℕ, ◌+◌, IsTrue, Some, option_map};
ghost use Rattle.jr_rev.specs.Vectors.{entry};
ghost use Rattle.jr_rev.specs.Alone.{IsNextAlone};

use crate::{RevVec, Revision};

/// Whether the new vector has the next revision of its cluster node, and else what the old one has: a revision that
/// is one later in time than the old entry. Then no other commit lies between the two (Oak, DocumentNodeStore: Revision
/// vectors).
pub fn is_next_alone(old: &RevVec, new: &RevVec, r: Revision) -> bool
    ensures { IsTrue result ↔ IsNextAlone old.now new.now r }
{
    is_next(old.get(r.cluster), new.get(r.cluster), r) && are_same_beside(old, new, r.cluster)
}

// Whether the revision is the new entry of its cluster node, and one later in time than the old.
fn is_next(old: Option<Revision>, new: Option<Revision>, r: Revision) -> bool
    ensures { IsTrue result ↔ ((new ≡ Some r) × (option_map (λ e. e.time + 1) old ≡ Some r.time)) }
{
    match (old, new) {
        (Some(e), Some(f)) => f == r && e.time < r.time && r.time - e.time == 1,
        _ => false,
    }
}

// Whether the entries of all other cluster nodes are the same.
fn are_same_beside(old: &RevVec, new: &RevVec, cluster: u32) -> bool
    ensures { IsTrue result ↔ ((k : ℕ) → 1 ≤ k → k ≤ 8 → k ≢ cluster
        → entry new.now k ≡ entry old.now k) }
{
    for k in 1..9 {
        if k != cluster && new.get(k) != old.get(k) {
            return false;
        }
    }
    true
}
