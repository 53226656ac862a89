// How a session commits for its next command.
ghost use Rattle.std.specs.Prelude.{◌≡◌, ◌≤◌, IfOk, IsTrue, Some, false};
ghost use Rattle.jcr_call.specs.declared.coming.Coming.TheVariants as coming;
ghost use Rattle.jcr_steps.specs.Answered.{IsCommitAnswer, kind_of_end};
ghost use Rattle.jcr_session.specs.Phases.{ended_phase, phase_by, turn_by};
ghost use Rattle.jcr_run.specs.Asked.{ComesNext};
ghost use Rattle.jcr_session.specs.Begins.{MayDrawFor};
ghost use Rattle.jcr_run.specs.Nearing.{ComesNearer, DrawsNoOther, EndsSooner, ReadsOn};
ghost use Rattle.jcr_run.specs.Nearing.{StaysBehindStep, StepsOn, WorksSooner};
ghost use Rattle.jcr_run.specs.Nearing.{turns_left};
ghost use Rattle.jcr_run.specs.Standing.{HasCounted, HasTurned, IsGranted, IsPlace, IsPrepared};
ghost use Rattle.jcr_run.specs.Standing.{Stands};
ghost use Rattle.jcr_run.specs.Standing.{commit_bytes, due_for, is_committing};
ghost use Rattle.jcr_steps.specs.declared.limits.TheConstants.{COMMIT_REPLY_BYTES};
ghost use Rattle.oak_port.specs.declared.task.StepOut.TheVariants as out;
ghost use Rattle.jcr_run.specs.declared.next.Due.TheVariants as due;
ghost use Rattle.jcr_run.specs.declared.run.Phase.TheVariants as phase;
ghost use Rattle.jcr_run.specs.declared.turn.Turn.TheVariants as turn;

use jcr_call::{Accepted, Coming};
use jcr_held::replies_without_commit_keep_tokens;
use jcr_law::JcrLaw;
use jcr_plan::Plan;
use jcr_run::{Phase, Pledge, SessionRun, Turn};
use jcr_steps::{COMMIT_REPLY_BYTES, has_went, last_kind};
use jr_path::DeepCopy;
use oak_commit::CommitEnd;
use oak_machine::StepKind;
use oak_port::{Port, StepOut, Task, TaskEnd};
use std::alloc::AllocError;
use std::mem;

// Answers a command for which nothing is to be committed, or begins its commit.
pub(crate) fn commit<P: Port<L = JcrLaw>>(run: &mut SessionRun, port: &mut P) -> Turn
    requires stands { Stands (P.law port.old) (P.shown port.old) run.old }
    requires between { run.old.phase ≡ phase.Between }
    requires next { due_for run.old ≡ due.Commit }
    requires ready { IsPrepared run.old }
    ensures law { P.law port.new ≡ P.law port.old }
    ensures turned { HasCounted (P.law port.old) (P.shown port.old) (P.shown port.new)
        run.old run.new result }
    ensures steps { StepsOn ⊥ (turns_left run.old) (turns_left run.new) result }
{
    replies_without_commit_keep_tokens();
    match come(run) {
        Ok(Coming::Said(text)) => run.say_settled(port, Ok(text)),
        Ok(Coming::Planned(plan, accepted)) => begin(run, port, plan, accepted),
        Err(AllocError) => run.say_memory(port),
    }
}

// What the next command comes to before its commit.
fn come(run: &SessionRun) -> Result<Coming, AllocError>
    requires next { due_for run.now ≡ due.Commit }
    requires ready { IsPrepared run.now }
    ensures { IfOk result (ComesNext run.now) }
{
    match run.commands.as_slice().get(run.index as usize) {
        Some(command) => run.held.come(command),
        None => unreachable!(),
    }
}

// Begins a commit. What is kept of it until its reply is made before.
fn begin<P: Port<L = JcrLaw>>(
    run: &mut SessionRun,
    port: &mut P,
    plan: Plan,
    accepted: Accepted,
) -> Turn
    requires stands { Stands (P.law port.old) (P.shown port.old) run.old }
    requires between { run.old.phase ≡ phase.Between }
    requires next { due_for run.old ≡ due.Commit }
    requires ready { IsPrepared run.old }
    requires comes { ComesNext run.old (coming.Planned plan accepted) }
    ensures law { P.law port.new ≡ P.law port.old }
    ensures turned { HasCounted (P.law port.old) (P.shown port.old) (P.shown port.new)
        run.old run.new result }
    ensures steps { StepsOn ⊥ (turns_left run.old) (turns_left run.new) result }
{
    match plan.edit.copy() {
        Ok(edit) => pledge(run, port, plan, Pledge { edit, accepted }),
        Err(AllocError) => run.say_memory(port),
    }
}

// Keeps what a commit needs until its reply, and the place of that; and draws.
fn pledge<P: Port<L = JcrLaw>>(
    run: &mut SessionRun,
    port: &mut P,
    plan: Plan,
    pledge: Pledge,
) -> Turn
    requires stands { Stands (P.law port.old) (P.shown port.old) run.old }
    requires between { run.old.phase ≡ phase.Between }
    requires next { due_for run.old ≡ due.Commit }
    requires ready { IsPrepared run.old }
    requires comes { ComesNext run.old (coming.Planned plan pledge.accepted) }
    requires copied { pledge.edit ≡ plan.edit }
    ensures law { P.law port.new ≡ P.law port.old }
    ensures turned { HasCounted (P.law port.old) (P.shown port.old) (P.shown port.new)
        run.old run.new result }
    ensures steps { StepsOn ⊥ (turns_left run.old) (turns_left run.new) result }
{
    let bytes = place_for(&pledge.accepted);
    run.phase = Phase::Committing(pledge);
    match port.reserve_say(bytes) {
        Ok(()) => draw(run, port, plan),
        Err(AllocError) => run.say_memory(port),
    }
}

// Draws the revision of a commit.
fn draw<P: Port<L = JcrLaw>>(run: &mut SessionRun, port: &mut P, plan: Plan) -> Turn
    requires draws { MayDrawFor (P.law port.old) (P.shown port.old) run.old plan }
    ensures law { P.law port.new ≡ P.law port.old }
    ensures turned { HasCounted (P.law port.old) (P.shown port.old) (P.shown port.new)
        run.old run.new result }
    ensures stays { StaysBehindStep run.old run.new result }
{
    let Plan { edit, marks } = plan;
    match port.start(Task::Commit(edit, marks)) {
        Ok(()) => {
            if has_went(port.step()) {
                return Turn::Stepped(StepKind::Draw);
            }
            run.forgo(port, false)
        }
        Err(AllocError) => run.forgo(port, false),
    }
}

// Makes a step of a commit: a counted one, or where a previous document is to be looked at, that
// look. Where memory is refused, the commit turns to undoing, and makes a step of that.
pub(crate) fn commit_on<P: Port<L = JcrLaw>>(run: &mut SessionRun, port: &mut P) -> Turn
    requires stands { Stands (P.law port.old) (P.shown port.old) run.old }
    requires commits { IsTrue (is_committing run.old.phase) }
    ensures law { P.law port.new ≡ P.law port.old }
    ensures turned { HasTurned (P.law port.old) (P.shown port.old) (P.shown port.new)
        run.old run.new result }
    ensures granted { IsGranted result }
    ensures draws { DrawsNoOther (P.shown port.old) (P.shown port.new) }
    ensures nears { ComesNearer
        (WorksSooner (P.left port.old) (P.left port.new) (P.shown port.old) run.old)
        (turns_left run.old) (turns_left run.new) result }
    ensures reads { ReadsOn
        (EndsSooner (P.left port.old) (P.left port.new) (P.shown port.old))
        (P.law port.old) (P.shown port.old) run.old run.new result }
{
    match port.step() {
        StepOut::Memory => {
            let answer = port.step();
            committed_on(run, answer)
        }
        answer => committed_on(run, answer),
    }
}

// What a step of a commit answered.
fn committed_on(run: &mut SessionRun, answer: StepOut) -> Turn
    requires answer { IsCommitAnswer answer }
    requires commits { IsTrue (is_committing run.old.phase) }
    ensures granted { IsGranted result }
    ensures turn { result ≡ turn_by answer }
    ensures run { run.new ≡ record run.old { phase = phase_by answer run.old.phase } }
{
    match answer {
        StepOut::Went(kind) => went_on(kind),
        StepOut::Wait(earlier) => Turn::Waiting(earlier),
        StepOut::Ready(TaskEnd::Commit(end)) => ended(run, end),
        _ => unreachable!(),
    }
}

// A step of this kind was made, and the commit goes on.
fn went_on(kind: StepKind) -> Turn
    ensures granted { IsGranted result }
    ensures turn { result ≡ turn_by (out.Went kind) }
{
    match kind {
        StepKind::Read => Turn::Read,
        kind => Turn::Stepped(kind),
    }
}

// A commit has ended so.
fn ended(run: &mut SessionRun, end: CommitEnd) -> Turn
    requires commits { IsTrue (is_committing run.old.phase) }
    ensures granted { IsGranted result }
    ensures turn { result ≡ turn.Stepped (kind_of_end end) }
    ensures run { run.new ≡ record run.old { phase = ended_phase end run.old.phase } }
{
    let kind = last_kind(&end);
    match mem::replace(&mut run.phase, Phase::Between) {
        Phase::Committing(pledge) => {
            run.phase = Phase::Committed(end, pledge);
            Turn::Stepped(kind)
        }
        _ => unreachable!(),
    }
}

// The bytes of the place that is kept for the reply to a commit: just what the longer needs of the
// text that is kept, where there is one, and of a revision's.
fn place_for(accepted: &Accepted) -> usize
    ensures told { COMMIT_REPLY_BYTES ≤ result }
    ensures place { IsPlace (Some result) accepted.now }
    ensures bytes { result ≡ commit_bytes accepted.now.text }
{
    match &accepted.text {
        Some(text) => text.len().max(COMMIT_REPLY_BYTES),
        None => COMMIT_REPLY_BYTES,
    }
}
