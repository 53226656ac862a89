// When the command begins that a session has not answered yet.
ghost use Rattle.std.specs.Prelude.{◌≡◌, ℕ, ◌+◌, List, [], ◌∷◌, ◌++◌, false, None, Some, IsFalse, IsTrue};
ghost use Rattle.std.specs.List.{list_any};
ghost use Rattle.jr_rev.specs.declared.vector.RevVec.{RevVec};
ghost use Rattle.oak_machine.specs.declared.event.Draw.{Draw};
ghost use Rattle.oak_machine.specs.declared.event.Event.{Event};
ghost use Rattle.oak_machine.specs.declared.event.Event.TheVariants as event;
ghost use Rattle.oak_machine.specs.History.{History, Past};
ghost use Rattle.oak_machine.specs.Laws.{AreOthers};
ghost use Rattle.oak_machine.specs.Sessions.{base_of, cursor_at, is_attached, next_index, refreshed_since, since};
ghost use Rattle.core_heads.specs.Sound.{IsNodesRun};
ghost use Rattle.jcr_trans.specs.declared.command.Command.{Command};
ghost use Rattle.jcr_law.specs.Built.{asked};
ghost use Rattle.jcr_law.specs.declared.law.JcrLaw.{JcrLaw};
ghost use Rattle.jcr_law.specs.Lasting.{says_of, starts_of};
ghost use Rattle.jcr_law.specs.Law.{asked_by};
ghost use Rattle.jcr_law.specs.Since.{before_turn, detached_among, draw_since, is_beginning, is_move_of, is_pinning, is_unmoved, is_unpinned};
ghost use Rattle.jcr_law.specs.State.{call_of};

/// The command that a session has not answered yet began with its last reply, or with its login; no
/// other event begins one.
pub fn commands_begin_behind_replies()
    ensures reply { (past : Past) (s i : ℕ) (text : List ℕ)
        → before_turn (event.Said s i text ∷ past) s ≡ event.Said s i text ∷ past }
    ensures login { (past : Past) (s : ℕ) (v : RevVec)
        → before_turn (event.Login s v ∷ past) s ≡ event.Login s v ∷ past }
    ensures other { (e : Event) (past : Past) (s : ℕ) → IsFalse (is_beginning s e)
        → before_turn (e ∷ past) s ≡ before_turn past s }
{}

/// Behind a reply or a login nothing came for the next command yet, and a reply counts it on; a
/// draw and a refresh of the session are told from then on. The base hasn't moved behind a reply or
/// a login, has behind a refresh of the session, and else as before; so events of others leave it.
pub fn commands_tell_what_came()
    ensures reply { (past : Past) (s i : ℕ) (text : List ℕ)
        → since (event.Said s i text ∷ past) s ≡ [] }
    ensures login { (past : Past) (s : ℕ) (v : RevVec) → since (event.Login s v ∷ past) s ≡ [] }
    ensures next { (past : Past) (s i : ℕ) (text : List ℕ)
        → next_index (event.Said s i text ∷ past) s ≡ next_index past s + 1 }
    ensures draw { (past : Past) (d : Draw) → draw_since (event.Draw d ∷ past) d.session ≡ Some d }
    ensures refresh { (past : Past) (s : ℕ) (v : RevVec)
        → refreshed_since (event.Refresh s v ∷ past) s ≡ Some v }
    ensures unmoved_reply { (past : Past) (s i : ℕ) (text : List ℕ)
        → IsTrue (is_unmoved (event.Said s i text ∷ past) s) }
    ensures unmoved_login { (past : Past) (s : ℕ) (v : RevVec)
        → IsTrue (is_unmoved (event.Login s v ∷ past) s) }
    ensures moved { (past : Past) (s : ℕ) (v : RevVec)
        → IsFalse (is_unmoved (event.Refresh s v ∷ past) s) }
    ensures other { (e : Event) (past : Past) (s : ℕ) → IsFalse (is_move_of s e)
        → IsFalse (is_beginning s e) → is_unmoved (e ∷ past) s ≡ is_unmoved past s }
    ensures still { (added past : Past) (s : ℕ) → IsFalse (list_any (is_move_of s) added)
        → IsTrue (is_unmoved past s) → IsTrue (is_unmoved (added ++ past) s) }
    ensures others { (added past : Past) (s : ℕ) → AreOthers s added past
        → is_unmoved (added ++ past) s ≡ is_unmoved past s }
{}

/// Where the base of a session hasn't moved since its command began, it stands where it stood then,
/// and the command is run with what it would have been run with then: on the same tree, with the
/// same pending (JSR 283, 10.11 Saving). No refresh of the session came, nor a detaching.
pub fn bases_stand_until_they_move()
    ensures base { (past : Past) (s : ℕ) → IsTrue (is_unmoved past s)
        → base_of past s ≡ base_of (before_turn past s) s }
    ensures call { (law : JcrLaw) (h : History) (s : ℕ)
        → IsNodesRun (starts_of law) (says_of law) h → IsTrue (is_unmoved h.past s)
        → call_of law h.begin h.past s ≡ call_of law h.begin (before_turn h.past s) s }
    ensures unrefreshed { (past : Past) (s : ℕ) → IsTrue (is_unmoved past s)
        → refreshed_since past s ≡ None }
    ensures undetached { (past : Past) (s : ℕ) → IsTrue (is_unmoved past s)
        → detached_among (since past s) s ≡ None }
{}

/// The cursor of a session hasn't moved behind a reply or a login, and hasn't behind further events
/// among which is no move of it; events of others leave that, and where it is pinned.
pub fn cursors_stand_until_they_move()
    ensures reply { (past : Past) (s i : ℕ) (text : List ℕ)
        → IsTrue (is_unpinned (event.Said s i text ∷ past) s) }
    ensures login { (past : Past) (s : ℕ) (v : RevVec)
        → IsTrue (is_unpinned (event.Login s v ∷ past) s) }
    ensures still { (added past : Past) (s : ℕ) → IsFalse (list_any (is_pinning s) added)
        → IsTrue (is_unpinned past s) → IsTrue (is_unpinned (added ++ past) s) }
    ensures others { (added past : Past) (s : ℕ) → AreOthers s added past
        → is_unpinned (added ++ past) s ≡ is_unpinned past s }
    ensures pinned { (added past : Past) (s : ℕ) → AreOthers s added past
        → cursor_at (added ++ past) s ≡ cursor_at past s }
{}

/// A session is attached to a checkpoint behind an attach (Oak, DocumentNodeStore: "Checkpoints"),
/// and to none behind a refresh. Where its base hasn't moved since its command began, it is as it
/// was then, and its command is asked for so; events of others leave it.
pub fn attached_sessions_stay_so()
    ensures attach { (past : Past) (s : ℕ) (id : List ℕ)
        → IsTrue (is_attached (event.Attach s id ∷ past) s) }
    ensures refresh { (past : Past) (s : ℕ) (v : RevVec)
        → IsFalse (is_attached (event.Refresh s v ∷ past) s) }
    ensures still { (past : Past) (s : ℕ) → IsTrue (is_unmoved past s)
        → is_attached past s ≡ is_attached (before_turn past s) s }
    ensures asked { (h : History) (s : ℕ) (m : Command) → IsTrue (is_unmoved h.past s)
        → asked_by h s m ≡ asked (is_attached h.past s) m }
    ensures others { (added past : Past) (s : ℕ) → AreOthers s added past
        → is_attached (added ++ past) s ≡ is_attached past s }
{}
