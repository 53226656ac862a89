// How a session moves its base for its next command, whose reply shows where it then stands: to the
// head, to a checkpoint, or from that to the head.
ghost use Rattle.std.specs.Prelude.{◌≡◌, IfOk, IsTrue, Some, string_bytes};
ghost use Rattle.oak_port.specs.Ports.{HasRoom};
ghost use Rattle.jcr_steps.specs.Kept.{HasPlace, place_bytes};
ghost use Rattle.jcr_steps.specs.declared.limits.TheConstants.{VECTOR_REPLY_BYTES};
ghost use Rattle.jcr_session.specs.Begins.{IsTargetNext, IsTargetOf, MayStayHalf};
ghost use Rattle.jcr_run.specs.Nearing.{IsReply, StepsOn, turns_left};
ghost use Rattle.jcr_run.specs.Standing.{HasCounted, IsGranted, IsPrepared, Stands, due_for};
ghost use Rattle.jcr_run.specs.Standing.{is_attaching, is_detaching};
ghost use Rattle.jcr_run.specs.declared.next.Due.TheVariants as due;
ghost use Rattle.jcr_run.specs.declared.run.Phase.TheVariants as phase;

use jcr_call::cause_text;
use jcr_law::JcrLaw;
use jcr_run::{Due, MEMORY_REPLY, Phase, SessionRun, Turn};
use jcr_steps::{Attached, Told, VECTOR_REPLY_BYTES, attach_came, has_went, pinned, shown_vector};
use jcr_trans::Command;
use jr_items::no_checkpoint;
use jr_path::{DeepCopy, Text};
use jr_rev::RevVec;
use oak_machine::StepKind;
use oak_port::{Port, Task};
use std::alloc::{AllocError, Global};

// The checkpoint that an attach asks for, and the reply where there is none of that identifier.
#[derive(Drop)]
pub(crate) struct Target {
    pub(crate) id: Text,
    pub(crate) missing: String,
}

// Keeps the place of the reply to a refresh, and moves the base. Where memory is refused, the
// base stays.
pub(crate) fn refresh<P: Port<L = JcrLaw>>(run: &mut SessionRun, port: &mut P) -> Turn
    requires stands { Stands (P.law port.old) (P.shown port.old) run.old }
    requires between { run.old.phase ≡ phase.Between }
    requires next { due_for run.old ≡ due.Refresh }
    requires ready { IsPrepared run.old }
    ensures law { P.law port.new ≡ P.law port.old }
    ensures turned { HasCounted (P.law port.old) (P.shown port.old) (P.shown port.new)
        run.old run.new result }
    ensures steps { StepsOn ⊥ (turns_left run.old) (turns_left run.new) result }
{
    match port.reserve_say(VECTOR_REPLY_BYTES) {
        Ok(()) => move_base(run, port),
        Err(AllocError) => run.say_memory(port),
    }
}

// Moves the base to the head. What is pending is kept until the reply, which has a place.
fn move_base<P: Port<L = JcrLaw>>(run: &mut SessionRun, port: &mut P) -> Turn
    requires stands { Stands (P.law port.old) (P.shown port.old) run.old }
    requires between { run.old.phase ≡ phase.Between }
    requires next { due_for run.old ≡ due.Refresh }
    requires ready { IsPrepared run.old }
    requires place { HasRoom (P.shown port.old).room VECTOR_REPLY_BYTES }
    ensures law { P.law port.new ≡ P.law port.old }
    ensures turned { HasCounted (P.law port.old) (P.shown port.old) (P.shown port.new)
        run.old run.new result }
    ensures granted { IsGranted result }
    ensures steps { StepsOn ⊥ (turns_left run.old) (turns_left run.new) result }
{
    match port.start(Task::Refresh) {
        Err(AllocError) => run.forgo(port, false),
        Ok(()) => match pinned(port.step()) {
            Some(pin) => {
                run.held.move_to(pin.base);
                run.phase = Phase::Moved(pin.base);
                Turn::Stepped(StepKind::Pin)
            }
            None => run.forgo(port, false),
        },
    }
}

// Makes what an attach is answered where there is no such checkpoint, keeps the place of its
// reply, and attaches. Where memory is refused, the base stays.
pub(crate) fn attach<P: Port<L = JcrLaw>>(run: &mut SessionRun, port: &mut P) -> Turn
    requires stands { Stands (P.law port.old) (P.shown port.old) run.old }
    requires between { run.old.phase ≡ phase.Between }
    requires next { due_for run.old ≡ due.Attach }
    requires ready { IsPrepared run.old }
    ensures law { P.law port.new ≡ P.law port.old }
    ensures turned { HasCounted (P.law port.old) (P.shown port.old) (P.shown port.new)
        run.old run.new result }
    ensures steps { StepsOn ⊥ (turns_left run.old) (turns_left run.new) result }
{
    match next_target(run) {
        Ok(target) => keep_attach(run, port, target),
        Err(AllocError) => run.say_memory(port),
    }
}

// The checkpoint that the next command asks for.
fn next_target(run: &SessionRun) -> Result<Target, AllocError>
    requires { due_for run.now ≡ due.Attach }
    ensures { IfOk result (IsTargetNext run.now) }
{
    match run.commands.as_slice().get(run.index as usize) {
        Some(Command::Attach(id)) => target_of(run.alloc, id),
        _ => unreachable!(),
    }
}

// Keeps the place of the reply to an attach, and attaches.
fn keep_attach<P: Port<L = JcrLaw>>(run: &mut SessionRun, port: &mut P, target: Target) -> Turn
    requires stands { Stands (P.law port.old) (P.shown port.old) run.old }
    requires between { run.old.phase ≡ phase.Between }
    requires next { due_for run.old ≡ due.Attach }
    requires ready { IsPrepared run.old }
    requires target { IsTargetNext run.old target }
    ensures law { P.law port.new ≡ P.law port.old }
    ensures turned { HasCounted (P.law port.old) (P.shown port.old) (P.shown port.new)
        run.old run.new result }
    ensures steps { StepsOn ⊥ (turns_left run.old) (turns_left run.new) result }
{
    let bytes = room_for(&target);
    match port.reserve_say(bytes) {
        Ok(()) => begin_attach(run, port, target),
        Err(AllocError) => run.say_memory(port),
    }
}

// Attaches to the checkpoint: the base moves to it. Where there is none, the base stays.
fn begin_attach<P: Port<L = JcrLaw>>(run: &mut SessionRun, port: &mut P, target: Target) -> Turn
    requires stands { Stands (P.law port.old) (P.shown port.old) run.old }
    requires between { run.old.phase ≡ phase.Between }
    requires next { due_for run.old ≡ due.Attach }
    requires ready { IsPrepared run.old }
    requires target { IsTargetNext run.old target }
    requires place { HasPlace (P.shown port.old).room (string_bytes target.missing) }
    ensures law { P.law port.new ≡ P.law port.old }
    ensures turned { HasCounted (P.law port.old) (P.shown port.old) (P.shown port.new)
        run.old run.new result }
    ensures granted { IsGranted result }
    ensures steps { StepsOn ⊥ (turns_left run.old) (turns_left run.new) result }
{
    let Target { id, missing } = target;
    match port.start(Task::Attach(id)) {
        Err(AllocError) => run.forgo(port, false),
        Ok(()) => match attach_came(port.step()) {
            Attached::To(pin) => {
                run.held.move_to(pin.base);
                run.phase = Phase::Moved(pin.base);
                Turn::Stepped(StepKind::Settings)
            }
            Attached::Missed => {
                run.phase = Phase::Told(Told::Text(missing));
                Turn::Stepped(StepKind::Settings)
            }
            Attached::Refused => run.forgo(port, false),
        },
    }
}

// Keeps the place of the reply to a detach, and begins it. Where memory is refused, the base
// stays.
pub(crate) fn detach<P: Port<L = JcrLaw>>(run: &mut SessionRun, port: &mut P) -> Turn
    requires stands { Stands (P.law port.old) (P.shown port.old) run.old }
    requires between { run.old.phase ≡ phase.Between }
    requires next { due_for run.old ≡ due.Detach }
    requires ready { IsPrepared run.old }
    ensures law { P.law port.new ≡ P.law port.old }
    ensures turned { HasCounted (P.law port.old) (P.shown port.old) (P.shown port.new)
        run.old run.new result }
    ensures steps { StepsOn ⊥ (turns_left run.old) (turns_left run.new) result }
{
    match port.reserve_say(VECTOR_REPLY_BYTES) {
        Ok(()) => begin_detach(run, port),
        Err(AllocError) => run.say_memory(port),
    }
}

// Makes the first step of a detach, by which the head is pinned and the base moves there.
fn begin_detach<P: Port<L = JcrLaw>>(run: &mut SessionRun, port: &mut P) -> Turn
    requires stands { Stands (P.law port.old) (P.shown port.old) run.old }
    requires between { run.old.phase ≡ phase.Between }
    requires next { due_for run.old ≡ due.Detach }
    requires ready { IsPrepared run.old }
    requires place { HasRoom (P.shown port.old).room VECTOR_REPLY_BYTES }
    ensures law { P.law port.new ≡ P.law port.old }
    ensures turned { HasCounted (P.law port.old) (P.shown port.old) (P.shown port.new)
        run.old run.new result }
    ensures granted { IsGranted result }
    ensures steps { StepsOn ⊥ (turns_left run.old) (turns_left run.new) result }
{
    match port.start(Task::Detach) {
        Err(AllocError) => run.forgo(port, false),
        Ok(()) => {
            if has_went(port.step()) {
                run.phase = Phase::Detaching;
                return Turn::Stepped(StepKind::Pin);
            }
            run.forgo(port, false)
        }
    }
}

// Makes the second step of a detach, by which the checkpoint is left.
pub(crate) fn detach_on<P: Port<L = JcrLaw>>(run: &mut SessionRun, port: &mut P) -> Turn
    requires stands { Stands (P.law port.old) (P.shown port.old) run.old }
    requires detaches { IsTrue (is_detaching run.old.phase) }
    ensures law { P.law port.new ≡ P.law port.old }
    ensures turned { HasCounted (P.law port.old) (P.shown port.old) (P.shown port.new)
        run.old run.new result }
    ensures granted { IsGranted result }
    ensures steps { StepsOn ⊥ (turns_left run.old) (turns_left run.new) result }
{
    match pinned(port.step()) {
        Some(pin) => {
            run.held.move_to(pin.base);
            run.phase = Phase::Moved(pin.base);
            Turn::Stepped(StepKind::Settings)
        }
        None => stay_half(run, port),
    }
}

// Answers a detach for whose second step memory was refused: its base has moved to the head.
fn stay_half<P: Port<L = JcrLaw>>(run: &mut SessionRun, port: &mut P) -> Turn
    requires half { MayStayHalf (P.law port.old) (P.shown port.old) run.old }
    ensures law { P.law port.new ≡ P.law port.old }
    ensures turned { HasCounted (P.law port.old) (P.shown port.old) (P.shown port.new)
        run.old run.new result }
    ensures granted { IsGranted result }
    ensures said { IsReply result }
{
    let Some(pin) = port.pin() else {
        unreachable!()
    };
    run.held.move_to(pin.base);
    run.refuse(false);
    run.attached = false;
    run.say_kept(port, MEMORY_REPLY)
}

// Shows the vector to which the base moved, without memory. Behind an attach the session is
// attached, and behind the other commands that move a base it isn't.
pub(crate) fn say_vector<P: Port<L = JcrLaw>>(
    run: &mut SessionRun,
    port: &mut P,
    vector: RevVec,
) -> Turn
    requires stands { Stands (P.law port.old) (P.shown port.old) run.old }
    requires moved { run.old.phase ≡ phase.Moved vector }
    ensures law { P.law port.new ≡ P.law port.old }
    ensures turned { HasCounted (P.law port.old) (P.shown port.old) (P.shown port.new)
        run.old run.new result }
    ensures granted { IsGranted result }
    ensures said { IsReply result }
{
    let text = shown_vector(&vector);
    let attached = attaches(run);
    run.accept(false, None);
    run.attached = attached;
    run.say_kept(port, text.as_str())
}

// Whether the next command attaches the session to a checkpoint.
fn attaches(run: &SessionRun) -> bool
    ensures { result ≡ is_attaching (due_for run.now) }
{
    matches!(run.due(), Due::Attach)
}

// What an attach to that checkpoint begins with.
fn target_of(alloc: Global, id: &Text) -> Result<Target, AllocError>
    ensures { IfOk result (IsTargetOf id.now) }
{
    let refusal = no_checkpoint(alloc, id.as_str());
    let missing = cause_text(alloc, &refusal)?;
    Ok(Target {
        id: id.copy()?,
        missing,
    })
}

// The bytes of the place that is kept for the reply to an attach: just what the longer needs of the
// text that is kept and of a vector.
fn room_for(target: &Target) -> usize
    ensures place { HasPlace (Some result) (string_bytes target.now.missing) }
    ensures bytes { result ≡ place_bytes (string_bytes target.now.missing) }
{
    target.missing.len().max(VECTOR_REPLY_BYTES)
}
