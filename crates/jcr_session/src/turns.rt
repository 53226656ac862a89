// A session's turns: what it asks of its world, one counted step after another.
ghost use Rattle.std.specs.Prelude.{◌≡◌, IsTrue, IsFalse};
ghost use Rattle.jcr_run.specs.Nearing.{BeginsNearer, ComesNearer, DrawsNoOther, EndsSooner};
ghost use Rattle.jcr_run.specs.Nearing.{IsReply, ReadsOn};
ghost use Rattle.jcr_run.specs.Nearing.{StepsOn, WorksSooner, turns_left};
ghost use Rattle.jcr_run.specs.Standing.{HasCounted, HasTurned, IsGranted, IsPrepared, Stands};
ghost use Rattle.jcr_run.specs.Standing.{due_for, has_begun, base_has_moved, is_committing};
ghost use Rattle.jcr_run.specs.Standing.{is_saving};
ghost use Rattle.jcr_run.specs.Standing.{is_tidying, may_read};
ghost use Rattle.jcr_run.specs.declared.next.Due.TheVariants as due;
ghost use Rattle.jcr_run.specs.declared.run.Phase.TheVariants as phase;

use crate::commit::{commit, commit_on};
use crate::ends::say_end;
use crate::errand::{say_told, set_out, work_on};
use crate::moves::{attach, detach, detach_on, refresh, say_vector};
use crate::tidy::{collect, say_tidied, split, tidy_on};
use jcr_law::JcrLaw;
use jcr_run::{Due, Phase, SessionRun, Turn, read};
use jcr_steps::{has_ended, pinned};
use jcr_trans::vector_reply;
use oak_machine::StepKind;
use oak_port::{Port, Task};
use std::alloc::AllocError;

/// Makes a reading step, where one is due, also inside a commit, a split or a collection, and else
/// exactly one counted step, or none where the session waits or has ended. Where memory is refused
/// for a command, that command is answered so; where it is refused for the place of a reply, or for
/// the login or the leave, the run ends. From the draw of a commit until its reply it never ends
/// so, and draws no other: a commit that is made is answered. Nor does it end so once the base has
/// moved for a refresh, an attach or a detach: a command that is answered by want of memory has
/// left the base where it stood, but that a detach that is refused memory for its second step has
/// moved it to the head. Nor does it end so once background work or a sweep has begun, or a
/// checkpoint is being made or released (Oak, DocumentNodeStore: "Background operations", "Sweep
/// revision", "Checkpoints"), or once the cursor has moved (JSR 283, 12 Observation): they need
/// nothing of the tree, and what their replies need is made before their first step. Nor does it
/// end so once a split or a collection has begun (Oak, DocumentNodeStore: "Previous documents",
/// "Revision garbage collection"): the steps that were made stay, and where memory is refused for
/// one more, or for the reply that shows how it ended, the command is answered so. The counted
/// steps of a command are made in the order of its stages. A counted step and a reply bring the
/// session nearer to its end, a reading step to what its next command asks for, or the task to its
/// end.
pub fn turn<P: Port<L = JcrLaw>>(run: &mut SessionRun, port: &mut P) -> Turn
    requires stands { Stands (P.law port.old) (P.shown port.old) run.old }
    ensures law { P.law port.new ≡ P.law port.old }
    ensures turned { HasTurned (P.law port.old) (P.shown port.old) (P.shown port.new)
        run.old run.new result }
    ensures granted { IsTrue (is_saving run.old.phase) → IsGranted result }
    ensures moved { IsTrue (base_has_moved run.old.phase) → IsGranted result }
    ensures begun { IsTrue (has_begun run.old.phase) → IsGranted result }
    ensures draws { IsTrue (is_saving run.old.phase)
        → DrawsNoOther (P.shown port.old) (P.shown port.new) }
    ensures nears { ComesNearer
        (WorksSooner (P.left port.old) (P.left port.new) (P.shown port.old) run.old)
        (turns_left run.old) (turns_left run.new) result }
    ensures reads { ReadsOn
        (EndsSooner (P.left port.old) (P.left port.new) (P.shown port.old))
        (P.law port.old) (P.shown port.old) run.old run.new result }
{
    if run.is_committing() {
        return commit_on(run, port);
    }
    if run.is_tidying() {
        return tidy_on(run, port);
    }
    if !run.may_read() {
        return counted(run, port);
    }
    match read(run, port) {
        Ok(true) => Turn::Read,
        Ok(false) => go_on(run, port),
        Err(AllocError) => run.say_memory(port),
    }
}

// Makes exactly one counted step of a session that isn't in its commit, nor in a split or a
// collection, or none where the session waits or has ended. The step that begins a collection may
// be a reading step, as far as its world says.
#[tactic(auto, using(crate::proofs::Nearer::counted_turns, crate::proofs::Nearer::counted_reads))]
fn counted<P: Port<L = JcrLaw>>(run: &mut SessionRun, port: &mut P) -> Turn
    requires stands { Stands (P.law port.old) (P.shown port.old) run.old }
    requires read { IsFalse (may_read run.old) }
    requires apart { IsFalse (is_committing run.old.phase) }
    requires untidied { IsFalse (is_tidying run.old.phase) }
    ensures law { P.law port.new ≡ P.law port.old }
    ensures turned { HasTurned (P.law port.old) (P.shown port.old) (P.shown port.new)
        run.old run.new result }
    ensures granted { IsTrue (is_saving run.old.phase) → IsGranted result }
    ensures moved { IsTrue (base_has_moved run.old.phase) → IsGranted result }
    ensures begun { IsTrue (has_begun run.old.phase) → IsGranted result }
    ensures draws { IsTrue (is_saving run.old.phase)
        → DrawsNoOther (P.shown port.old) (P.shown port.new) }
    ensures steps { StepsOn
        (WorksSooner (P.left port.old) (P.left port.new) (P.shown port.old) run.old)
        (turns_left run.old) (turns_left run.new) result }
    ensures reads { ReadsOn
        (EndsSooner (P.left port.old) (P.left port.new) (P.shown port.old))
        (P.law port.old) (P.shown port.old) run.old run.new result }
{
    match &run.phase {
        Phase::Outside => log_in(run, port),
        Phase::Between => rest(run, port),
        Phase::Moved(v) => {
            let vector = *v;
            say_vector(run, port, vector)
        }
        Phase::Detaching => detach_on(run, port),
        Phase::Committing(_) => unreachable!(),
        Phase::Committed(_, _) => say_end(run, port),
        Phase::Working(_) => work_on(run, port),
        Phase::Told(_) => say_told(run, port),
        Phase::Tidying => unreachable!(),
        Phase::Tidied(_) => say_tidied(run, port),
        Phase::Over => Turn::Ended,
    }
}

// Logs in. Nothing is known yet of the tree at the base.
fn log_in<P: Port<L = JcrLaw>>(run: &mut SessionRun, port: &mut P) -> Turn
    requires stands { Stands (P.law port.old) (P.shown port.old) run.old }
    requires outside { run.old.phase ≡ phase.Outside }
    ensures law { P.law port.new ≡ P.law port.old }
    ensures turned { HasCounted (P.law port.old) (P.shown port.old) (P.shown port.new)
        run.old run.new result }
    ensures steps { StepsOn ⊥ (turns_left run.old) (turns_left run.new) result }
{
    let Ok(()) = port.start(Task::Login) else {
        return Turn::Memory;
    };
    match pinned(port.step()) {
        Some(pin) => {
            run.held.move_to(pin.base);
            run.phase = Phase::Between;
            Turn::Stepped(StepKind::Login)
        }
        None => Turn::Memory,
    }
}

// What is to be done where the next command reads nothing.
#[tactic(auto, using(crate::proofs::Nearer::counted_turns, crate::proofs::Nearer::counted_begins))]
fn rest<P: Port<L = JcrLaw>>(run: &mut SessionRun, port: &mut P) -> Turn
    requires stands { Stands (P.law port.old) (P.shown port.old) run.old }
    requires between { run.old.phase ≡ phase.Between }
    requires read { IsFalse (may_read run.old) }
    ensures law { P.law port.new ≡ P.law port.old }
    ensures turned { HasTurned (P.law port.old) (P.shown port.old) (P.shown port.new)
        run.old run.new result }
    ensures steps { StepsOn ⊥ (turns_left run.old) (turns_left run.new) result }
    ensures reads { BeginsNearer (turns_left run.old) (turns_left run.new) result }
{
    match run.due() {
        Due::Leave => leave(run, port),
        Due::Bar => run.bar(port),
        Due::ShowBase => show_base(run, port),
        Due::Errand => set_out(run, port),
        Due::Observe => set_out(run, port),
        Due::Collect => collect(run, port),
        _ => unreachable!(),
    }
}

// What is to be done for a command for which all that it asks for is read.
#[tactic(auto, using(crate::proofs::Nearer::counted_turns, crate::proofs::Nearer::counted_begins))]
fn go_on<P: Port<L = JcrLaw>>(run: &mut SessionRun, port: &mut P) -> Turn
    requires stands { Stands (P.law port.old) (P.shown port.old) run.old }
    requires reads { IsTrue (may_read run.old) }
    requires ready { IsPrepared run.old }
    ensures law { P.law port.new ≡ P.law port.old }
    ensures turned { HasTurned (P.law port.old) (P.shown port.old) (P.shown port.new)
        run.old run.new result }
    ensures steps { StepsOn ⊥ (turns_left run.old) (turns_left run.new) result }
    ensures reads { BeginsNearer (turns_left run.old) (turns_left run.new) result }
{
    match run.due() {
        Due::Refresh => refresh(run, port),
        Due::Attach => attach(run, port),
        Due::Detach => detach(run, port),
        Due::Events => set_out(run, port),
        Due::Query => run.query(port),
        Due::Commit => commit(run, port),
        Due::See => run.see(port),
        Due::Split => split(run, port),
        _ => unreachable!(),
    }
}

// Leaves.
fn leave<P: Port<L = JcrLaw>>(run: &mut SessionRun, port: &mut P) -> Turn
    requires stands { Stands (P.law port.old) (P.shown port.old) run.old }
    requires between { run.old.phase ≡ phase.Between }
    requires next { due_for run.old ≡ due.Leave }
    ensures law { P.law port.new ≡ P.law port.old }
    ensures turned { HasCounted (P.law port.old) (P.shown port.old) (P.shown port.new)
        run.old run.new result }
    ensures steps { StepsOn ⊥ (turns_left run.old) (turns_left run.new) result }
{
    let Ok(()) = port.start(Task::End) else {
        return Turn::Memory;
    };
    if !has_ended(port.step()) {
        return Turn::Memory;
    }
    run.phase = Phase::Over;
    Turn::Stepped(StepKind::End)
}

// Shows the base.
fn show_base<P: Port<L = JcrLaw>>(run: &mut SessionRun, port: &mut P) -> Turn
    requires stands { Stands (P.law port.old) (P.shown port.old) run.old }
    requires between { run.old.phase ≡ phase.Between }
    requires next { due_for run.old ≡ due.ShowBase }
    ensures law { P.law port.new ≡ P.law port.old }
    ensures turned { HasCounted (P.law port.old) (P.shown port.old) (P.shown port.new)
        run.old run.new result }
    ensures said { IsReply result }
{
    let text = vector_reply(run.alloc, &run.held.base());
    run.say_settled(port, text)
}
