//! The memory of each cluster node can be kept as that of the journal, in each run of the machine.
#![tactic(auto)]

ghost use Rattle.std.specs.Prelude.{◌≡◌, ◌≢◌, ◌⊎◌, ℕ, ◌+◌, ◌≤◌, ◌↔◌, Bool, List, [], ◌∷◌, ◌==◌, drop, length, reverse, slice_get, Some, Contains, IsTrue, IsFalse, None};
ghost use Rattle.jr_rev.specs.declared.revision.Revision.{Revision};
ghost use Rattle.jr_rev.specs.declared.vector.Pin.{Pin};
ghost use Rattle.jr_rev.specs.declared.vector.RevVec.{RevVec};
ghost use Rattle.jr_rev.specs.Revisions.{is_before};
ghost use Rattle.jr_rev.specs.Vectors.{is_below, sees};
ghost use Rattle.jr_path.specs.declared.path.Path.{Path};
ghost use Rattle.jr_tree.specs.Trees.{node_at};
ghost use Rattle.core_begun.specs.Told.{start_in, IsToldSince};
ghost use Rattle.oak_machine.specs.declared.event.Draw.{Draw};
ghost use Rattle.oak_machine.specs.declared.event.Event.{Event};
ghost use Rattle.oak_machine.specs.declared.event.Event.TheVariants as event;
ghost use Rattle.oak_machine.specs.declared.event.StepKind.TheVariants as kind;
ghost use Rattle.oak_machine.specs.History.{Begin, IsBegun, Past, begin_at};
ghost use Rattle.oak_machine.specs.Commits.{is_ended, is_in_flight, tree_at};
ghost use Rattle.oak_machine.specs.Heads.{flying, head_of};
ghost use Rattle.oak_machine.specs.Runs.{AreNodes, IsNode, IsRunOf};
ghost use Rattle.oak_machine.specs.Sessions.{is_stopped, has_left};
ghost use Rattle.oak_node.specs.declared.memory.Awaits.{Awaits};
ghost use Rattle.oak_node.specs.Heads.{HasEnded, IsAwaited, IsInFlight, finished, flying_in, known_time, learned, next_draw, with_draw};
ghost use Rattle.oak_clash.specs.Clashes.{marked_paths};
ghost use Rattle.oak_node.specs.declared.pending.Note.{Note};
ghost use Rattle.oak_node.specs.Changes.{changed_since};
ghost use Rattle.oak_node.specs.Memory.{NodeState, IsMemory, begun, last_draw, own_entry};
ghost use Rattle.oak_node.specs.Notes.{with_note, with_notes, without_seen};
ghost use Rattle.oak_node.specs.Stops.{with_recovery, with_stop};
ghost use Rattle.oak_node.specs.Pins.{pin_now, pin_of, with_pin, without_pin};
ghost use Rattle.core_nodes.specs.Nodes.{ArePinsOf, IsAboveOf, IsAwaitedAt, IsCursorAt, IsMemoryOf, IsOnRoot, IsPair, IsPinnedAt, KeepsChanges, TellsSince, after_recovery, begin_time, cursor_owner, draws_made, draws_nothing, leaves_memory, leaves_pins, without_session};

use oak_machine::Law;

/// The memory of a cluster node is that of the past from its start on. A draw of the node and an
/// end of one of its revisions take it to `with_draw` and `finished`, and what it learns from the
/// root as this was at some moment to `learned`; a stop takes it to `with_stop`, and a recovery of
/// the stopped node, in which all that the memory has in flight ends in the order in which it was
/// drawn, to `with_recovery`; whatever else happens leaves it. A node draws what the machine lets
/// it draw, and its head moves where its own entry rises.
pub fn memories_follow_the_journal<L: Law>(law: &L)
    ensures begun { (begin : Begin) (clusters : ℕ) (sessions : List ℕ) (k : ℕ)
        → AreNodes clusters sessions → IsBegun clusters begin → IsNode clusters k
        → IsMemoryOf begin clusters [] k (begun k (begin_at clusters begin)) }
    ensures next { (begin : Begin) (clusters : ℕ) (past : Past) (k : ℕ) (s : NodeState)
        → IsMemoryOf begin clusters past k s
        → next_draw s ≡ Rattle.oak_machine.specs.Heads.drawn_next clusters begin past k }
    ensures drawn { let runs = IsRunOf (L.may_start law.now) (L.may_say law.now) in
        (begin : Begin) (clusters : ℕ) (sessions : List ℕ) (past : Past) (d : Draw)
        (s : NodeState) → AreNodes clusters sessions
        → runs clusters sessions begin
        (event.Draw d ∷ past) → IsMemoryOf begin clusters past d.revision.cluster s
        → IsMemoryOf begin clusters (event.Draw d ∷ past) d.revision.cluster
        (with_draw s (next_draw s)) }
    ensures flies { let runs = IsRunOf (L.may_start law.now) (L.may_say law.now) in
        (begin : Begin) (clusters : ℕ) (sessions : List ℕ) (past : Past) (r : Revision)
        (s : NodeState) → AreNodes clusters sessions
        → runs clusters sessions begin
        (event.End r ∷ past) → IsMemoryOf begin clusters past r.cluster s → IsInFlight s r }
    ensures ended { let runs = IsRunOf (L.may_start law.now) (L.may_say law.now) in
        (begin : Begin) (clusters : ℕ) (sessions : List ℕ) (past : Past) (r : Revision)
        (s : NodeState) → AreNodes clusters sessions
        → runs clusters sessions begin
        (event.End r ∷ past) → IsMemoryOf begin clusters past r.cluster s
        → IsMemoryOf begin clusters (event.End r ∷ past) r.cluster (finished s r) }
    ensures moved { let runs = IsRunOf (L.may_start law.now) (L.may_say law.now) in
        (begin : Begin) (clusters : ℕ) (sessions : List ℕ) (past : Past) (r : Revision)
        (s : NodeState) → AreNodes clusters sessions
        → runs clusters sessions begin
        (event.End r ∷ past) → IsMemoryOf begin clusters past r.cluster s
        → IsTrue (is_before (own_entry s) (own_entry (finished s r)))
        ↔ (head_of clusters begin past r.cluster
        ≢ head_of clusters begin (event.End r ∷ past) r.cluster) }
    ensures told { let runs = IsRunOf (L.may_start law.now) (L.may_say law.now) in
        (begin : Begin) (clusters : ℕ) (sessions : List ℕ) (past : Past) (k : ℕ)
        (s : NodeState) → runs clusters sessions begin past → IsFalse (is_stopped past k)
        → IsMemoryOf begin clusters past k s
        → runs clusters sessions begin
        (event.Head k s.head ∷ past) }
    ensures learned { let runs = IsRunOf (L.may_start law.now) (L.may_say law.now) in
        (begin : Begin) (clusters : ℕ) (sessions : List ℕ) (past : Past) (k n : ℕ)
        (s : NodeState) (last sweep : RevVec) → AreNodes clusters sessions
        → runs clusters sessions begin past
        → IsNode clusters k → IsFalse (is_stopped past k) → IsMemoryOf begin clusters past k s
        → IsOnRoot begin clusters (drop n past) last sweep
        → runs clusters sessions begin
        (event.In k (learned s last sweep).head ∷ past)
        × IsMemoryOf begin clusters (event.In k (learned s last sweep).head ∷ past) k
        (learned s last sweep) }
    ensures apart { let runs = IsRunOf (L.may_start law.now) (L.may_say law.now) in
        (begin : Begin) (clusters : ℕ) (sessions : List ℕ) (past : Past) (e : Event)
        (k : ℕ) (s : NodeState) → AreNodes clusters sessions
        → runs clusters sessions begin (e ∷ past)
        → IsTrue (leaves_memory k e) → IsMemoryOf begin clusters past k s
        → IsMemoryOf begin clusters (e ∷ past) k s }
    ensures stopped { (begin : Begin) (clusters : ℕ) (past : Past) (k : ℕ) (s : NodeState)
        → IsMemoryOf begin clusters past k s
        → IsMemoryOf begin clusters (event.Stop k ∷ past) k (with_stop s) }
    ensures in_flight { let runs = IsRunOf (L.may_start law.now) (L.may_say law.now) in
        (begin : Begin) (clusters : ℕ) (sessions : List ℕ) (past : Past) (k : ℕ)
        (s : NodeState) → AreNodes clusters sessions
        → runs clusters sessions begin past
        → IsNode clusters k → IsMemoryOf begin clusters past k s
        → flying_in s.above ≡ reverse (flying past k) }
    ensures recovered { let runs = IsRunOf (L.may_start law.now) (L.may_say law.now) in
        (begin : Begin) (clusters : ℕ) (sessions : List ℕ) (past : Past) (k : ℕ)
        (s : NodeState) → AreNodes clusters sessions
        → runs clusters sessions begin past
        → IsNode clusters k → IsTrue (is_stopped past k) → IsMemoryOf begin clusters past k s
        → runs clusters sessions begin
        (after_recovery past k) × IsMemoryOf begin clusters (after_recovery past k) k
        (with_recovery s) }
    ensures recovered_apart { let runs = IsRunOf (L.may_start law.now) (L.may_say law.now) in
        (begin : Begin) (clusters : ℕ) (sessions : List ℕ) (past : Past)
        (m k : ℕ) (s : NodeState) → AreNodes clusters sessions
        → runs clusters sessions begin
        (after_recovery past m) → IsFalse (m == k) → IsMemoryOf begin clusters past k s
        → IsMemoryOf begin clusters (after_recovery past m) k s }
    ensures noted { (begin : Begin) (clusters : ℕ) (past : Past) (k : ℕ) (s : NodeState)
        (path : List (List ℕ)) (r : Revision) → r ≡ last_draw s → IsMemoryOf begin clusters past k s
        → IsMemoryOf begin clusters past k (with_note s path r) }
    ensures published { (begin : Begin) (clusters : ℕ) (past : Past) (k : ℕ) (s : NodeState)
        → IsMemoryOf begin clusters past k s → IsMemoryOf begin clusters past k (without_seen s) }
    ensures pinned { (begin : Begin) (clusters : ℕ) (past : Past) (k : ℕ) (s : NodeState)
        (owner : ℕ) (pin : Pin) → IsMemoryOf begin clusters past k s
        → IsMemoryOf begin clusters past k (with_pin s owner pin) }
    ensures unpinned { (begin : Begin) (clusters : ℕ) (past : Past) (k : ℕ) (s : NodeState)
        (owner : ℕ) → IsMemoryOf begin clusters past k s
        → IsMemoryOf begin clusters past k (without_pin s owner) }
{}

/// A memory keeps what the draws of its node mark, through each step. Where it tells what changed
/// since a vector, whatever a vector up to the head sees that this one doesn't was drawn by the
/// node, and what it marks is told.
pub fn changes_follow_the_journal()
    ensures begun { (clusters : ℕ) (begin : Begin) (k : ℕ)
        → KeepsChanges [] k (begun k (begin_at clusters begin)) }
    ensures drawn { (past : Past) (d : Draw) (s : NodeState)
        → KeepsChanges past d.revision.cluster s
        → KeepsChanges (event.Draw d ∷ past) d.revision.cluster
        (with_notes d.revision (with_draw s d.revision) (marked_paths d.marks)) }
    ensures apart { (past : Past) (e : Event) (k : ℕ) (s : NodeState) → IsTrue (draws_nothing k e)
        → KeepsChanges past k s → KeepsChanges (e ∷ past) k s }
    ensures ended { (past : Past) (k : ℕ) (s : NodeState) (r : Revision) → KeepsChanges past k s
        → KeepsChanges past k (finished s r) }
    ensures learned { (past : Past) (k : ℕ) (s : NodeState) (last sweep : RevVec)
        → KeepsChanges past k s → KeepsChanges past k (learned s last sweep) }
    ensures published { (past : Past) (k : ℕ) (s : NodeState) → IsMemory s → KeepsChanges past k s
        → KeepsChanges past k (without_seen s) }
    ensures pinned { (past : Past) (k : ℕ) (s : NodeState) (owner : ℕ) (pin : Pin)
        → KeepsChanges past k s → KeepsChanges past k (with_pin s owner pin) }
    ensures unpinned { (past : Past) (k : ℕ) (s : NodeState) (owner : ℕ) → KeepsChanges past k s
        → KeepsChanges past k (without_pin s owner) }
    ensures stopped { (past : Past) (k : ℕ) (s : NodeState) → KeepsChanges past k s
        → KeepsChanges past k (with_stop s) }
    ensures recovered { (past : Past) (k : ℕ) (s : NodeState) → KeepsChanges past k s
        → KeepsChanges (after_recovery past k) k (with_recovery s) }
    ensures recovered_apart { (past : Past) (m k : ℕ) (s : NodeState) → KeepsChanges past k s
        → KeepsChanges (after_recovery past m) k s }
    ensures told { (past : Past) (k : ℕ) (s : NodeState) (old new : RevVec) (notes : List Note)
        → s.cluster ≡ k → IsMemory s → KeepsChanges past k s → changed_since s old ≡ Some notes
        → IsTrue (is_below new s.head) → TellsSince past k old new notes }
{}

/// The tree at such a vector up to the head is, at each path that isn't told, that of the vector
/// since which it's told, whatever the journal begins with.
pub fn untold_paths_stay()
    ensures { (clusters : ℕ) (begin : Begin) (past : Past) (k : ℕ) (old new : RevVec)
        (notes : List Note) (p : Path) → IsBegun clusters begin
        → IsToldSince (start_in clusters begin) past → IsTrue (is_below old new)
        → TellsSince past k old new notes → ((note : Note) → Contains notes note → note.path ≢ p)
        → node_at (tree_at begin past new) p ≡ node_at (tree_at begin past old) p }
{}

/// The pins of a cluster node are those of its sessions that have come and not left, each at the
/// vector of its latest Login or Refresh, and those of their cursors, each at the vector of the
/// session's own pin when it observed last; each with a sweep vector that goes with it. A login,
/// and a refresh of a session that hasn't left, pin the session at the head; a session that
/// observes pins its cursor at its own pin; and its end unpins both. A recovered node has no pin
/// any more. Events that move no pin of the node's sessions leave the pins; so do a stop, draws,
/// ends, notes, and what the node learns.
pub fn pins_follow_the_journal<L: Law>(law: &L)
    ensures begun { (begin : Begin) (clusters : ℕ) (sessions : List ℕ) (k : ℕ)
        → ArePinsOf sessions [] k (begun k (begin_at clusters begin)) }
    ensures pinned { (sessions : List ℕ) (past : Past) (k : ℕ) (s : NodeState) (owner : ℕ)
        (pin : Pin) → ArePinsOf sessions past k s → pin_of s owner ≡ Some pin
        → (IsPinnedAt sessions past k owner pin.base ⊎ IsCursorAt sessions past k owner pin.base)
        × IsPair pin.base pin.sweep }
    ensures there { (sessions : List ℕ) (past : Past) (k : ℕ) (s : NodeState) (owner : ℕ)
        (v : RevVec) → ArePinsOf sessions past k s → IsPinnedAt sessions past k owner v
        → (pin : Pin) × (pin_of s owner ≡ Some pin) × (pin.base ≡ v) }
    ensures cursor { (sessions : List ℕ) (past : Past) (k : ℕ) (s : NodeState) (owner : ℕ)
        (v : RevVec) → slice_get sessions owner ≡ None → ArePinsOf sessions past k s
        → IsCursorAt sessions past k owner v
        → (pin : Pin) × (pin_of s owner ≡ Some pin) × (pin.base ≡ v) }
    ensures login { let runs = IsRunOf (L.may_start law.now) (L.may_say law.now) in
        (begin : Begin) (clusters : ℕ) (sessions : List ℕ) (past : Past) (k : ℕ)
        (s : NodeState) (session : ℕ) (v : RevVec) → AreNodes clusters sessions
        → runs clusters sessions begin
        (event.Login session v ∷ past) → slice_get sessions session ≡ Some k
        → IsMemoryOf begin clusters past k s → ArePinsOf sessions past k s
        → ArePinsOf sessions (event.Login session v ∷ past) k (with_pin s session (pin_now s)) }
    ensures refresh { let runs = IsRunOf (L.may_start law.now) (L.may_say law.now) in
        (begin : Begin) (clusters : ℕ) (sessions : List ℕ) (past : Past) (k : ℕ)
        (s : NodeState) (session : ℕ) (v : RevVec) → AreNodes clusters sessions
        → runs clusters sessions begin
        (event.Refresh session v ∷ past) → slice_get sessions session ≡ Some k
        → IsFalse (has_left past session) → IsMemoryOf begin clusters past k s
        → ArePinsOf sessions past k s
        → ArePinsOf sessions (event.Refresh session v ∷ past) k (with_pin s session (pin_now s)) }
    ensures observed { (sessions : List ℕ) (past : Past) (k : ℕ) (s : NodeState) (session : ℕ)
        (pin : Pin) → slice_get sessions session ≡ Some k
        → slice_get sessions (cursor_owner session) ≡ None → pin_of s session ≡ Some pin
        → ArePinsOf sessions past k s
        → ArePinsOf sessions (event.Went session kind.Pin ∷ past) k
        (with_pin s (cursor_owner session) pin) }
    ensures left { (begin : Begin) (clusters : ℕ) (sessions : List ℕ) (past : Past) (k : ℕ)
        (s : NodeState) (session : ℕ) → slice_get sessions session ≡ Some k
        → slice_get sessions (cursor_owner session) ≡ None → IsMemoryOf begin clusters past k s
        → ArePinsOf sessions past k s
        → ArePinsOf sessions (event.Went session kind.End ∷ past) k (without_session s session) }
    ensures stopped { (sessions : List ℕ) (past : Past) (k : ℕ) (s : NodeState)
        → ArePinsOf sessions past k s → ArePinsOf sessions (event.Stop k ∷ past) k (with_stop s) }
    ensures recovered { (sessions : List ℕ) (past : Past) (k : ℕ) (s : NodeState)
        → ArePinsOf sessions (after_recovery past k) k (with_recovery s) }
    ensures recovered_apart { (sessions : List ℕ) (past : Past) (m k : ℕ) (s : NodeState)
        → IsFalse (m == k) → ArePinsOf sessions past k s
        → ArePinsOf sessions (after_recovery past m) k s }
    ensures apart { (sessions : List ℕ) (past : Past) (e : Event) (k : ℕ) (s : NodeState)
        → IsTrue (leaves_pins sessions k e) → ArePinsOf sessions past k s
        → ArePinsOf sessions (e ∷ past) k s }
    ensures drawn { (sessions : List ℕ) (past : Past) (k : ℕ) (s : NodeState) (r : Revision)
        → ArePinsOf sessions past k s → ArePinsOf sessions past k (with_draw s r) }
    ensures ended { (sessions : List ℕ) (past : Past) (k : ℕ) (s : NodeState) (r : Revision)
        → ArePinsOf sessions past k s → ArePinsOf sessions past k (finished s r) }
    ensures noted { (sessions : List ℕ) (past : Past) (k : ℕ) (s : NodeState) (path : List (List ℕ))
        (r : Revision) → ArePinsOf sessions past k s
        → ArePinsOf sessions past k (with_note s path r) }
    ensures published { (sessions : List ℕ) (past : Past) (k : ℕ) (s : NodeState)
        → ArePinsOf sessions past k s → ArePinsOf sessions past k (without_seen s) }
    ensures learned { (sessions : List ℕ) (past : Past) (k : ℕ) (s : NodeState)
        (last sweep : RevVec) → ArePinsOf sessions past k s
        → ArePinsOf sessions past k (learned s last sweep) }
{}

/// What a memory keeps above its own entry, what is in flight by it and what has ended is what the
/// past says. So is what is awaited: nothing where the head sees the revision, and else the
/// earliest one of the node in flight.
pub fn waiting_follows_the_journal<L: Law>(law: &L)
    ensures above { let runs = IsRunOf (L.may_start law.now) (L.may_say law.now) in
        (begin : Begin) (clusters : ℕ) (sessions : List ℕ) (past : Past) (k : ℕ)
        (s : NodeState) (r : Revision) (e : Bool) → AreNodes clusters sessions
        → runs clusters sessions begin past
        → IsNode clusters k → IsMemoryOf begin clusters past k s
        → Contains s.above (record { revision = r; ended = e }) ↔ IsAboveOf begin past k r e }
    ensures flying { let runs = IsRunOf (L.may_start law.now) (L.may_say law.now) in
        (begin : Begin) (clusters : ℕ) (sessions : List ℕ) (past : Past) (k : ℕ)
        (s : NodeState) (r : Revision) → AreNodes clusters sessions
        → runs clusters sessions begin past
        → IsNode clusters k → IsMemoryOf begin clusters past k s
        → IsInFlight s r ↔ ((r.cluster ≡ k) × IsTrue (is_in_flight past r)) }
    ensures ended { let runs = IsRunOf (L.may_start law.now) (L.may_say law.now) in
        (begin : Begin) (clusters : ℕ) (sessions : List ℕ) (past : Past) (r : Revision)
        (s : NodeState) → AreNodes clusters sessions
        → runs clusters sessions begin past
        → IsMemoryOf begin clusters past r.cluster s → IsTrue (is_ended past r) → HasEnded s r }
    ensures awaited { let runs = IsRunOf (L.may_start law.now) (L.may_say law.now) in
        (begin : Begin) (clusters : ℕ) (sessions : List ℕ) (past : Past) (k : ℕ)
        (s : NodeState) (r : Revision) (answer : Awaits) → AreNodes clusters sessions
        → runs clusters sessions begin past
        → IsNode clusters k → IsMemoryOf begin clusters past k s
        → IsAwaited s r answer ↔ IsAwaitedAt begin clusters past k r answer }
{}

/// No cluster node knows a time that is greater than the greatest at the beginning with the number
/// of draws so far, nor with that of events.
pub fn times_are_counted<L: Law>(law: &L)
    ensures draws { let runs = IsRunOf (L.may_start law.now) (L.may_say law.now) in
        (begin : Begin) (clusters : ℕ) (sessions : List ℕ) (past : Past) (k : ℕ)
        (s : NodeState) → AreNodes clusters sessions
        → runs clusters sessions begin past
        → IsNode clusters k → IsMemoryOf begin clusters past k s
        → known_time s ≤ begin_time begin + draws_made past }
    ensures events { let runs = IsRunOf (L.may_start law.now) (L.may_say law.now) in
        (begin : Begin) (clusters : ℕ) (sessions : List ℕ) (past : Past) (k : ℕ)
        (s : NodeState) → AreNodes clusters sessions
        → runs clusters sessions begin past
        → IsNode clusters k → IsMemoryOf begin clusters past k s
        → known_time s ≤ begin_time begin + length past }
{}
