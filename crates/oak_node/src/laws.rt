// What the definitions of the calls mean, in the words of the protocol.
ghost use Rattle.std.specs.Prelude.{◌≡◌, ◌≢◌, ℕ, ◌≤◌, ◌↔◌, ◌∷◌, None, Some, Contains, IsTrue};
ghost use Rattle.jr_rev.specs.Revisions.{is_before};
ghost use Rattle.jr_rev.specs.declared.vector.Pin.{Pin};
ghost use Rattle.jr_rev.specs.Vectors.{Entries, entry, sees, is_below, greater_entry, IsVector};
ghost use Rattle.oak_node.specs.Changes.{changed_since, known_from};
ghost use Rattle.oak_node.specs.Memory.{NodeState, IsMemory, own_entry, revisions_in};
ghost use Rattle.oak_node.specs.Heads.{next_draw, IsInFlight, finished, IsLocal, learned};
ghost use Rattle.oak_node.specs.Notes.{without_seen};
ghost use Rattle.oak_node.specs.Pins.{pin_of};
ghost use Rattle.oak_node.specs.Stops.{with_recovery, IsGreatestDrawn};

/// The rule of heads: once a revision has ended, the head's own entry is the greatest revision that
/// the node drew (of its entry before and those above) below every one in flight. In flight are
/// those that were, but for the one that ended.
pub fn rule_of_heads()
    ensures own { (s : NodeState) (r : _) →
        IsMemory s → IsLocal (own_entry s ∷ revisions_in s.above) (finished s r) }
    ensures flying { (s : NodeState) (r q : _) →
        IsMemory s → IsInFlight (finished s r) q ↔ (IsInFlight s q × (q ≢ r)) }
{}

/// Draws rise: what the head sees, and what the node drew above the head's own entry, is before its
/// next draw.
pub fn draws_rise()
    ensures seen { (s : NodeState) (o : _) →
        o.cluster ≤ 8 → IsTrue (sees s.head o) → IsTrue (is_before o (next_draw s)) }
    ensures drawn { (s : NodeState) (o : _) →
        IsMemory s → Contains (revisions_in s.above) o → IsTrue (is_before o (next_draw s)) }
{}

/// What is learned raises the entries of the other nodes and of the sweep vector, and lowers none.
/// The head's entry of the node itself stays.
pub fn others_are_learned()
    ensures own { (s : NodeState) (v w : Entries) →
        IsMemory s → entry (learned s v w).head s.cluster ≡ entry s.head s.cluster }
    ensures others { (s : NodeState) (v w : Entries) (k : ℕ) →
        IsMemory s → k ≢ s.cluster →
        entry (learned s v w).head k ≡ greater_entry (entry s.head k) (entry v k) }
    ensures sweep { (s : NodeState) (v w : Entries) (k : ℕ) →
        entry (learned s v w).sweep k ≡ greater_entry (entry s.sweep k) (entry w k) }
    ensures rising { (s : NodeState) (v w : Entries) →
        IsMemory s → IsTrue (is_below s.head (learned s v w).head) }
{}

/// At its own head a node knows what changed. What a background write drops is missed at no pin: at
/// the base of each it tells what it told before.
pub fn changes_are_told()
    ensures head { (s : NodeState) → IsMemory s → IsTrue (is_below (known_from s) s.head) }
    ensures pins { (s : NodeState) (owner : ℕ) (pin : Pin) →
        IsMemory s → IsVector pin.base → pin_of s owner ≡ Some pin →
        changed_since (without_seen s) pin.base ≡ changed_since s pin.base }
{}

/// A recovered node has no pin and no draw in flight. Its head's own entry is the greatest revision
/// that it drew (of its entry before and those above); the other entries are as they were, and the
/// node stays stopped.
pub fn recovery_ends_all()
    ensures pins { (s : NodeState) (owner : ℕ) → pin_of (with_recovery s) owner ≡ None }
    ensures flying { (s : NodeState) (q : _) →
        IsMemory s → ¬ IsInFlight (with_recovery s) q }
    ensures own { (s : NodeState) → IsMemory s →
        IsGreatestDrawn (own_entry s ∷ revisions_in s.above) (own_entry (with_recovery s)) }
    ensures others { (s : NodeState) (k : ℕ) → IsMemory s → k ≢ s.cluster →
        entry (with_recovery s).head k ≡ entry s.head k }
    ensures stays { (s : NodeState) → IsMemory s → (with_recovery s).stopped ≡ s.stopped }
{}
