// Laws of where a session stands.
ghost use Rattle.std.specs.Prelude.{IsFalse, IsTrue};
ghost use Rattle.oak_machine.specs.Sessions.{has_left, has_login};
ghost use Rattle.oak_port.specs.Ports.{Shown};
ghost use Rattle.jcr_law.specs.Since.{is_unmoved};
ghost use Rattle.jcr_law.specs.declared.law.JcrLaw.{JcrLaw};
ghost use Rattle.jcr_run.specs.Standing.{MovesBase, Stands};
ghost use Rattle.jcr_run.specs.declared.run.SessionRun.{SessionRun};

/// Between the turns of a session its base has moved since its next command began only where that
/// command is a `refresh`, or its commit is made (JSR 283, 10.11 Saving): no other command begins
/// by moving the base, and none is refused with a base that has moved.
pub fn bases_move_for_their_commands()
    ensures { (law : JcrLaw) (p : Shown) (run : SessionRun) → Stands law p run
        → IsTrue (has_login p.history.past p.session)
        → IsFalse (has_left p.history.past p.session)
        → IsFalse (is_unmoved p.history.past p.session) → MovesBase law p.history p.session }
{}
