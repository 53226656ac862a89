// How a session does what its next command asks of the cluster node, of the settings or of its
// cursor: background work, sweeps, checkpoints, and observing.
ghost use Rattle.std.specs.Prelude.{◌≡◌, ◌&&◌, IfOk, IsFalse, IsTrue, None, Some, is_none, is_some};
ghost use Rattle.std.specs.Prelude.{length};
ghost use Rattle.jr_items.specs.Refusals.{limit_refusal};
ghost use Rattle.oak_machine.specs.History.{History};
ghost use Rattle.oak_port.specs.Ports.{HasRoom};
ghost use Rattle.jcr_trans.specs.declared.command.Command.TheVariants as command;
ghost use Rattle.jcr_law.specs.State.{Call};
ghost use Rattle.jcr_held.specs.Holds.{Holds};
ghost use Rattle.jcr_steps.specs.Answered.{MayCome};
ghost use Rattle.jcr_session.specs.Phases.{phase_came, turn_came};
ghost use Rattle.jcr_run.specs.Asked.{MaySettle};
ghost use Rattle.jcr_session.specs.Begins.{MaySetOut, MayAnswerTold, StartsNext, StartsWith};
ghost use Rattle.jcr_run.specs.Nearing.{EndsOrStays, EndsSooner, IsReply, StepsOn, WorksSooner};
ghost use Rattle.jcr_run.specs.Nearing.{turns_left};
ghost use Rattle.jcr_run.specs.Standing.{AreSince, HasCounted, IsGranted, Stands, due_by, due_for};
ghost use Rattle.jcr_run.specs.Standing.{is_errand, is_on_errand, is_told, lacks_changes};
ghost use Rattle.jcr_run.specs.Standing.{lacks_for};
ghost use Rattle.jcr_steps.specs.Kept.{HasPlace, IsEight, kept_of};
ghost use Rattle.jcr_steps.specs.declared.limits.TheConstants.{VECTOR_REPLY_BYTES};
ghost use Rattle.jcr_steps.specs.declared.errand.Told.TheVariants as told;
ghost use Rattle.jcr_session.specs.declared.errand.Start.TheVariants as start;
ghost use Rattle.jcr_run.specs.declared.run.Phase.TheVariants as phase;

use jcr_call::{NextCheckpoint, cause_text, events_reply};
use jcr_law::JcrLaw;
use jcr_observe::Filter;
use jcr_run::{Phase, SessionRun, Turn};
use jcr_steps::{Came, Errand, Told, errand_came, kind_told, place_of, shown_vector, told_of};
use jcr_trans::{Command, revision_reply};
use jr_items::{check_limits, no_checkpoint};
use jr_path::{DeepCopy, Path, Text};
use jr_tree::CommitChanges;
use oak_port::{Port, Task};
use std::alloc::{AllocError, Global};
use std::mem;

// What a task of the cluster node, of the settings or of the cursor begins with, or the reply of a
// command for which none begins.
#[derive(Drop)]
pub(crate) enum Start {
    Begun(Task, Errand),
    Said(String),
}

// Begins the task that the next command asks for, once all is made that its reply needs; or
// answers a command for which none begins.
pub(crate) fn set_out<P: Port<L = JcrLaw>>(run: &mut SessionRun, port: &mut P) -> Turn
    requires stands { Stands (P.law port.old) (P.shown port.old) run.old }
    requires between { run.old.phase ≡ phase.Between }
    requires next { IsTrue (is_errand (due_for run.old)) }
    requires unread { run.old.fetch ≡ None }
    requires read { IsFalse (lacks_changes run.old) }
    ensures law { P.law port.new ≡ P.law port.old }
    ensures turned { HasCounted (P.law port.old) (P.shown port.old) (P.shown port.new)
        run.old run.new result }
    ensures steps { StepsOn ⊥ (turns_left run.old) (turns_left run.new) result }
{
    match start_next(run) {
        Ok(Start::Begun(task, errand)) => keep_place(run, port, task, errand),
        Ok(Start::Said(text)) => run.say_settled(port, Ok(text)),
        Err(AllocError) => run.say_memory(port),
    }
}

// What the task of the next command begins with.
fn start_next(run: &SessionRun) -> Result<Start, AllocError>
    requires next { IsTrue (is_errand (due_for run.now)) }
    requires read { IsFalse (lacks_changes run.now) }
    ensures { IfOk result (StartsNext run.now) }
{
    match run.commands.as_slice().get(run.index as usize) {
        Some(command) => start_of(run, command),
        None => unreachable!(),
    }
}

// What the task of this command begins with.
fn start_of(run: &SessionRun, command: &Command) -> Result<Start, AllocError>
    requires next { IsTrue (is_errand (due_by command.now)) }
    requires read { IsFalse (lacks_for run.now (due_by command.now)) }
    ensures { (h : History) (c : Call) → Holds c run.now.held → AreSince h c run.now.changes
        → IfOk result (StartsWith h c command.now) }
{
    match command {
        Command::BackWrite => Ok(Start::Begun(Task::BackWrite, Errand::Write)),
        Command::BackRead => Ok(Start::Begun(Task::BackRead, Errand::Read)),
        Command::Sweep => Ok(Start::Begun(Task::Sweep, Errand::Sweep)),
        Command::Checkpoint => checkpoint(run),
        Command::Release(id) => release(run.alloc, id),
        Command::Observe(path, deep, mask) => observe(run.alloc, path, *deep, *mask),
        Command::Events => events(run),
        _ => unreachable!(),
    }
}

// What a checkpoint begins with.
fn checkpoint(run: &SessionRun) -> Result<Start, AllocError>
    ensures { (h : History) (c : Call) → Holds c run.now.held
        → IfOk result (StartsWith h c command.Checkpoint) }
{
    match run.held.next_checkpoint()? {
        NextCheckpoint::Named(id, reply) => {
            Ok(Start::Begun(Task::Checkpoint(id), Errand::Checkpoint(reply)))
        }
        NextCheckpoint::Refused(reply) => Ok(Start::Said(reply)),
    }
}

// What `events` begins with, once what changed since the cursor is read; without a cursor there is
// nothing to show.
fn events(run: &SessionRun) -> Result<Start, AllocError>
    requires { IsFalse (is_some run.now.held.cursor && is_none run.now.changes) }
    ensures { (h : History) (c : Call) → Holds c run.now.held → AreSince h c run.now.changes
        → IfOk result (StartsWith h c command.Events) }
{
    match &run.changes {
        Some(commits) => show_changes(run, commits.as_slice()),
        None => Ok(Start::Said(events_reply(run.alloc, &[])?)),
    }
}

// What `events` begins with, to show what changed in these commits.
fn show_changes(run: &SessionRun, commits: &[CommitChanges]) -> Result<Start, AllocError>
    ensures { (h : History) (c : Call) → Holds c run.now.held
        → AreSince h c (Some commits.now) → IfOk result (StartsWith h c command.Events) }
{
    let reply = run.held.events_reply(commits)?;
    Ok(Start::Begun(Task::Observe, Errand::Events(reply)))
}

// Keeps the place of the reply, and begins the task.
fn keep_place<P: Port<L = JcrLaw>>(
    run: &mut SessionRun,
    port: &mut P,
    task: Task,
    errand: Errand,
) -> Turn
    requires stands { Stands (P.law port.old) (P.shown port.old) run.old }
    requires between { run.old.phase ≡ phase.Between }
    requires next { IsTrue (is_errand (due_for run.old)) }
    requires unread { run.old.fetch ≡ None }
    requires starts { StartsNext run.old (start.Begun task errand) }
    ensures law { P.law port.new ≡ P.law port.old }
    ensures turned { HasCounted (P.law port.old) (P.shown port.old) (P.shown port.new)
        run.old run.new result }
    ensures steps { StepsOn ⊥ (turns_left run.old) (turns_left run.new) result }
{
    let bytes = place_of(&errand);
    match port.reserve_say(bytes) {
        Ok(()) => begin_errand(run, port, task, errand),
        Err(AllocError) => run.say_memory(port),
    }
}

// Begins the task, and makes its first step.
fn begin_errand<P: Port<L = JcrLaw>>(
    run: &mut SessionRun,
    port: &mut P,
    task: Task,
    errand: Errand,
) -> Turn
    requires sets { MaySetOut (P.law port.old) (P.shown port.old) run.old task errand }
    ensures law { P.law port.new ≡ P.law port.old }
    ensures turned { HasCounted (P.law port.old) (P.shown port.old) (P.shown port.new)
        run.old run.new result }
    ensures granted { IsGranted result }
    ensures steps { StepsOn ⊥ (turns_left run.old) (turns_left run.new) result }
{
    match port.start(task) {
        Ok(()) => work(run, port, errand),
        Err(AllocError) => run.forgo(port, false),
    }
}

// Makes a step of the task that is under way.
pub(crate) fn work_on<P: Port<L = JcrLaw>>(run: &mut SessionRun, port: &mut P) -> Turn
    requires stands { Stands (P.law port.old) (P.shown port.old) run.old }
    requires works { IsTrue (is_on_errand run.old.phase) }
    ensures law { P.law port.new ≡ P.law port.old }
    ensures turned { HasCounted (P.law port.old) (P.shown port.old) (P.shown port.new)
        run.old run.new result }
    ensures granted { IsGranted result }
    ensures steps { StepsOn
        (WorksSooner (P.left port.old) (P.left port.new) (P.shown port.old) run.old)
        (turns_left run.old) (turns_left run.new) result }
{
    match mem::replace(&mut run.phase, Phase::Between) {
        Phase::Working(errand) => work(run, port, errand),
        _ => unreachable!(),
    }
}

// Makes a step of a task. Where memory is refused, the task has ended, and the reply tells so.
fn work<P: Port<L = JcrLaw>>(run: &mut SessionRun, port: &mut P, errand: Errand) -> Turn
    requires stands { Stands (P.law port.old) (P.shown port.old)
        (record run.old { phase = phase.Working errand }) }
    ensures law { P.law port.new ≡ P.law port.old }
    ensures turned { HasCounted (P.law port.old) (P.shown port.old) (P.shown port.new)
        (record run.old { phase = phase.Working errand }) run.new result }
    ensures granted { IsGranted result }
    ensures stays { EndsOrStays
        (EndsSooner (P.left port.old) (P.left port.new) (P.shown port.old))
        (record run.old { phase = phase.Working errand }) run.new result }
{
    match errand_came(port.step()) {
        Came::Refused => run.forgo(port, false),
        came => come_on(run, came, errand),
    }
}

// What a step of a task came to that wasn't refused memory.
fn come_on(run: &mut SessionRun, came: Came, errand: Errand) -> Turn
    requires comes { MayCome came errand }
    ensures turn { result ≡ turn_came came }
    ensures run { run.new ≡ record run.old { phase = phase_came came errand } }
    ensures granted { IsGranted result }
{
    match &came {
        Came::Going(kind) => {
            run.phase = Phase::Working(errand);
            Turn::Stepped(*kind)
        }
        came => {
            let kind = kind_told(came);
            run.phase = Phase::Told(told_of(came, errand));
            Turn::Stepped(kind)
        }
    }
}

// Answers a command whose task has ended.
pub(crate) fn say_told<P: Port<L = JcrLaw>>(run: &mut SessionRun, port: &mut P) -> Turn
    requires stands { Stands (P.law port.old) (P.shown port.old) run.old }
    requires told { IsTrue (is_told run.old.phase) }
    ensures law { P.law port.new ≡ P.law port.old }
    ensures turned { HasCounted (P.law port.old) (P.shown port.old) (P.shown port.new)
        run.old run.new result }
    ensures granted { IsGranted result }
    ensures said { IsReply result }
{
    match mem::replace(&mut run.phase, Phase::Between) {
        Phase::Told(told) => tell(run, port, told),
        _ => unreachable!(),
    }
}

// Answers a command by how its task has ended.
fn tell<P: Port<L = JcrLaw>>(run: &mut SessionRun, port: &mut P, told: Told) -> Turn
    requires tells { MayAnswerTold (P.law port.old) (P.shown port.old) run.old told }
    requires place { HasPlace (P.shown port.old).room (kept_of told) }
    requires eight { IsEight told }
    ensures law { P.law port.new ≡ P.law port.old }
    ensures turned { HasCounted (P.law port.old) (P.shown port.old) (P.shown port.new)
        run.old run.new result }
    ensures granted { IsGranted result }
    ensures said { IsReply result }
{
    match told {
        Told::Published(r) => tell_text(run, port, revision_reply(&r).as_str()),
        Told::Learnt(v) => tell_text(run, port, shown_vector(&v).as_str()),
        Told::Swept(r) => tell_text(run, port, revision_reply(&r).as_str()),
        Told::Done => tell_text(run, port, "ok"),
        Told::Observed(filter) => tell_observed(run, port, filter),
        Told::Text(text) => tell_text(run, port, text.as_str()),
    }
}

// Answers an `observe`: the cursor has this filter from then on.
fn tell_observed<P: Port<L = JcrLaw>>(run: &mut SessionRun, port: &mut P, filter: Filter) -> Turn
    requires tells { MayAnswerTold (P.law port.old) (P.shown port.old) run.old
        (told.Observed filter) }
    requires room { HasRoom (P.shown port.old).room VECTOR_REPLY_BYTES }
    ensures law { P.law port.new ≡ P.law port.old }
    ensures turned { HasCounted (P.law port.old) (P.shown port.old) (P.shown port.new)
        run.old run.new result }
    ensures granted { IsGranted result }
    ensures said { IsReply result }
{
    run.observe(filter);
    run.say_kept(port, "ok")
}

// Answers a command with this text.
fn tell_text<P: Port<L = JcrLaw>>(run: &mut SessionRun, port: &mut P, text: &str) -> Turn
    requires settles { MaySettle (P.law port.old) (P.shown port.old) run.old text.now }
    requires room { HasRoom (P.shown port.old).room (length text.now) }
    ensures law { P.law port.new ≡ P.law port.old }
    ensures turned { HasCounted (P.law port.old) (P.shown port.old) (P.shown port.new)
        run.old run.new result }
    ensures granted { IsGranted result }
    ensures said { IsReply result }
{
    run.settle(text);
    run.say_kept(port, text)
}

// What a release begins with.
fn release(alloc: Global, id: &Text) -> Result<Start, AllocError>
    ensures { (h : History) (c : Call) → IfOk result (StartsWith h c (command.Release id.now)) }
{
    let refusal = no_checkpoint(alloc, id.as_str());
    let reply = cause_text(alloc, &refusal)?;
    Ok(Start::Begun(Task::Release(id.copy()?), Errand::Release(reply)))
}

// What an `observe` begins with; or the reply where its path is beyond the limits.
fn observe(alloc: Global, path: &Path, deep: bool, mask: u32) -> Result<Start, AllocError>
    ensures { (h : History) (c : Call)
        → IfOk result (StartsWith h c (command.Observe path.now deep mask)) }
{
    match check_limits(alloc, path) {
        Ok(()) => begin_observing(path, deep, mask),
        Err(refusal) => Ok(Start::Said(cause_text(alloc, &refusal)?)),
    }
}

// What an `observe` begins with: its filter is kept.
fn begin_observing(path: &Path, deep: bool, mask: u32) -> Result<Start, AllocError>
    requires { limit_refusal path.now ≡ None }
    ensures { (h : History) (c : Call)
        → IfOk result (StartsWith h c (command.Observe path.now deep mask)) }
{
    let path = path.copy()?;
    let filter = Filter { path, deep, mask };
    Ok(Start::Begun(Task::Observe, Errand::Observe(filter)))
}
