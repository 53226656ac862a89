// Laws of the law.
ghost use Rattle.std.specs.Prelude.{◌≡◌, ℕ, List, Some};
ghost use Rattle.jr_tree.specs.declared.edit.Edit.{Edit};
ghost use Rattle.oak_clash.specs.declared.mark.MarkAt.{MarkAt};
ghost use Rattle.oak_machine.specs.declared.event.Draw.{Draw};
ghost use Rattle.oak_machine.specs.History.{History};
ghost use Rattle.oak_machine.specs.Laws.{StartsProper};
ghost use Rattle.oak_machine.specs.Runs.{IsRunOf};
ghost use Rattle.oak_machine.specs.Sessions.{next_index};
ghost use Rattle.jcr_plan.specs.Plans.{PlanOk};
ghost use Rattle.jcr_trans.specs.declared.command.Command.{Command};
ghost use Rattle.jcr_law.specs.AfterDraw.{AfterDraw};
ghost use Rattle.jcr_law.specs.Lasting.{says_of, starts_of};
ghost use Rattle.jcr_law.specs.declared.law.JcrLaw.{JcrLaw};
ghost use Rattle.jcr_law.specs.Law.{MayStart, SaysBy};
ghost use Rattle.jcr_law.specs.Since.{draw_since};
ghost use Rattle.jcr_law.specs.State.{base_tree, command_at, tokens_of};

/// What the law lets start is a plan on the tree at the base of its session, for the types of the
/// script and the lock tokens that the session holds. The plan is proper there, with the marks of
/// its writes.
pub fn starts_are_plans()
    ensures plan { (law : JcrLaw) (h : History) (s : ℕ) (edit : Edit) (marks : List MarkAt)
        → MayStart law h s edit marks → PlanOk law.types (base_tree h.begin h.past s)
        (tokens_of law h.begin h.past s) edit.writes marks }
    ensures proper { (law : JcrLaw) → StartsProper (λ h s edit marks. MayStart law h s edit marks) }
{}

/// In each run, once a commit was drawn for a session's command, the next reply of the session
/// accepts the commit that was made, tells of the clash for which it was refused, of the stop of
/// its cluster node, or, where nothing was committed, of want of memory.
pub fn drawn_commands_are_answered()
    ensures { (law : JcrLaw) (h : History) (s : ℕ) (m : Command) (d : Draw) (text : List ℕ)
        → IsRunOf (starts_of law) (says_of law) h.clusters h.sessions h.begin h.past
        → draw_since h.past s ≡ Some d → command_at law s (next_index h.past s) ≡ Some m
        → SaysBy law h s (next_index h.past s) text → AfterDraw law h s m d text }
{}
