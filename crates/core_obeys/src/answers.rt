// Each reply of the product has its reason.
ghost use Rattle.jcr_law.specs.declared.law.JcrLaw.{JcrLaw};
ghost use Rattle.jcr_law.specs.Lasting.{says_of, starts_of};
ghost use Rattle.oak_machine.specs.History.{History};
ghost use Rattle.core_heads.specs.Sound.{IsNodesRun};
ghost use Rattle.core_obeys.specs.Answering.{AnswersThroughout, NameOthers};

use jcr_plan::what_no_write_changes_dangles_not;

/// In each run by the law of the product each reply has a cause by that law, and the base of its
/// session hasn't moved since the command began, or moved for the command, and the reply tells of
/// that. A command for which a commit was drawn is accepted where it was made, or told of the clash
/// with another that its base doesn't see; one for which none was drawn is refused by the command,
/// or for why its edit is no plan (JSR 283, 10.11 Saving, 17 Locking, 15 Versioning, 3.7 Node
/// Types, 3.8 Referential Integrity). What was drawn and clashes with nothing outside its base is
/// accepted, and an edit that may start isn't refused: but for want of memory, where nothing was
/// committed, and the stop of the cluster node. Of the run it is asked that each refusal of a
/// commit names another.
pub fn the_product_answers_throughout()
    ensures { (law : JcrLaw) (h : History) → IsNodesRun (starts_of law) (says_of law) h
        → NameOthers h.past → AnswersThroughout law h }
{
    what_no_write_changes_dangles_not();
}
