// What each event makes of what a session's next command is run with.
ghost use Rattle.std.specs.Prelude.{◌≡◌, ℕ, List, [], ◌∷◌, ◌++◌, None, Some, is_some, IsFalse};
ghost use Rattle.std.specs.List.{list_any};
ghost use Rattle.jr_rev.specs.declared.vector.RevVec.{RevVec};
ghost use Rattle.jr_tree.specs.Trees.{IsTree};
ghost use Rattle.oak_machine.specs.declared.event.Event.TheVariants as event;
ghost use Rattle.oak_machine.specs.Commits.{tree_at};
ghost use Rattle.oak_machine.specs.History.{Begin, History, Past};
ghost use Rattle.oak_machine.specs.Laws.{AreOthers, after, is_event_of};
ghost use Rattle.oak_machine.specs.Runs.{IsRun};
ghost use Rattle.oak_machine.specs.Sessions.{base_of, drawn_since, has_login, last_checkpoint};
ghost use Rattle.core_heads.specs.Sound.{IsNodesRun};
ghost use Rattle.jcr_trans.specs.declared.command.Command.{Command};
ghost use Rattle.jcr_law.specs.declared.law.JcrLaw.{JcrLaw};
ghost use Rattle.jcr_law.specs.Growing.{HasAllOf};
ghost use Rattle.jcr_law.specs.Lasting.{says_of, starts_of};
ghost use Rattle.jcr_law.specs.State.{Call, call_at, call_of, command_at, is_ok_text, new_state, session_state};
ghost use Rattle.jcr_law.specs.Calls.{call_after, call_moved};
ghost use Rattle.core_calls.specs.Events.{is_attach_of, is_calling, state_at_login};
ghost use Rattle.core_calls.specs.Seeing.{SeesTrees};

/// A session is called where it has a base: on the tree there, with the state that the history
/// tells of.
pub fn calls_are_at_bases()
    ensures base { (law : JcrLaw) (begin : Begin) (past : Past) (s : ℕ) (c : Call)
        → call_of law begin past s ≡ Some c → base_of past s ≡ Some c.who.base }
    ensures call { (law : JcrLaw) (begin : Begin) (past : Past) (s : ℕ) (c : Call)
        → call_of law begin past s ≡ Some c
        → c ≡ call_at law begin past s c.who.base (session_state law begin past s) }
    ensures called { (law : JcrLaw) (begin : Begin) (past : Past) (s : ℕ) (v : RevVec)
        → base_of past s ≡ Some v
        → call_of law begin past s
        ≡ Some (call_at law begin past s v (session_state law begin past s)) }
{}

/// Where sessions see trees, a call is on a tree.
pub fn calls_are_on_trees()
    ensures { (law : JcrLaw) (h : History) (s : ℕ) (c : Call)
        → SeesTrees law h.clusters h.sessions h.begin → IsRun (starts_of law) (says_of law) h
        → call_of law h.begin h.past s ≡ Some c → IsTree c.base }
{}

/// A session has the state of a new one until its base is set for the first time. In a run that is
/// its login, where it is attached to no checkpoint before (JSR 283, 4 Connecting).
pub fn sessions_begin_new()
    ensures unbegun { (law : JcrLaw) (begin : Begin) (past : Past) (s : ℕ)
        → IsFalse (list_any (is_event_of past s) past)
        → session_state law begin past s ≡ new_state begin }
    ensures unbased { (law : JcrLaw) (h : History) (s : ℕ) → IsRun (starts_of law) (says_of law) h
        → base_of h.past s ≡ None → session_state law h.begin h.past s ≡ new_state h.begin }
    ensures outside { (law : JcrLaw) (h : History) (s : ℕ) → IsRun (starts_of law) (says_of law) h
        → IsFalse (has_login h.past s) → IsFalse (list_any (is_attach_of s) h.past)
        → base_of h.past s ≡ None }
{}

/// A login calls the session on the tree that it sees, with nothing pending, no lock tokens, no
/// cursor and no identifier drawn (JSR 283, 4 Connecting).
pub fn logins_begin_calls()
    ensures { (law : JcrLaw) (begin : Begin) (past : Past) (s : ℕ) (v : RevVec)
        → call_of law begin (event.Login s v ∷ past) s
        ≡ Some (call_at law begin past s v (state_at_login begin (tree_at begin past v))) }
{}

/// A refresh moves the call to the tree at the new base, with what was pending made again there
/// (JSR 283, 10.11.4 Refresh).
pub fn refreshes_move_calls()
    ensures { (law : JcrLaw) (begin : Begin) (past : Past) (s : ℕ) (v : RevVec) (c : Call)
        → call_of law begin past s ≡ Some c
        → call_of law begin (event.Refresh s v ∷ past) s
        ≡ Some (call_moved c v (tree_at begin past v)) }
{}

/// An attach moves the call to the tree of the checkpoint (Oak, DocumentNodeStore: "Checkpoints"),
/// with what was pending made again there, as a refresh does.
pub fn attaches_move_calls()
    ensures { (law : JcrLaw) (begin : Begin) (past : Past) (s : ℕ) (id : List ℕ) (v : RevVec)
        (c : Call) → last_checkpoint past id ≡ Some v → call_of law begin past s ≡ Some c
        → call_of law begin (event.Attach s id ∷ past) s
        ≡ Some (call_moved c v (tree_at begin past v)) }
{}

/// A reply leaves of the call what its command leaves, as it was accepted or refused, and drew a
/// revision or none.
pub fn replies_answer_calls()
    ensures { (law : JcrLaw) (begin : Begin) (past : Past) (s i : ℕ) (text : List ℕ) (c : Call)
        (m : Command) → call_of law begin past s ≡ Some c → command_at law s i ≡ Some m
        → call_of law begin (event.Said s i text ∷ past) s
        ≡ Some (call_after (is_ok_text text) (is_some (drawn_since past s)) c m) }
{}

/// Events among which is no login, refresh, attach or reply of a session leave its call as it was:
/// so do events of others, and the session's own steps of a commit, its draw, writes, commit or
/// refusal, end, and the head that moves behind them.
pub fn other_events_leave_calls()
    ensures { (law : JcrLaw) (h : History) (added : Past) (s : ℕ)
        → IsNodesRun (starts_of law) (says_of law) (after added h)
        → IsFalse (list_any (is_calling s) added)
        → call_of law h.begin (added ++ h.past) s ≡ call_of law h.begin h.past s }
{}

/// Events of others leave all that the law asks for of a session: what its next command is and is
/// run with, what it drew for it and where its base moved since its last reply; and what the law
/// let start or be said it lets still.
pub fn others_leave_what_is_asked()
    ensures all { (law : JcrLaw) (h : History) (added : Past) (s : ℕ)
        → IsNodesRun (starts_of law) (says_of law) (after added h) → AreOthers s added h.past
        → HasAllOf law h.begin s h.past (added ++ h.past) }
    ensures call { (law : JcrLaw) (h : History) (added : Past) (s : ℕ)
        → IsNodesRun (starts_of law) (says_of law) (after added h) → AreOthers s added h.past
        → call_of law h.begin (added ++ h.past) s ≡ call_of law h.begin h.past s }
{}
