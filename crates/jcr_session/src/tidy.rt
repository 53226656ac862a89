// How a session splits the document of a node, or collects garbage, for its next command.
ghost use Rattle.std.specs.Prelude.{◌≡◌, IfOk, IsTrue, None, false, string_bytes};
ghost use Rattle.jr_path.specs.declared.path.Path.{Path};
ghost use Rattle.jcr_trans.specs.declared.command.Command.TheVariants.{Split};
ghost use Rattle.oak_machine.specs.declared.event.StepKind.TheVariants as kind;
ghost use Rattle.oak_port.specs.Ports.{HasRoom, is_due};
ghost use Rattle.jcr_steps.specs.declared.limits.TheConstants.{COMMIT_REPLY_BYTES};
ghost use Rattle.jcr_run.specs.Asked.{MayForgo, MaySettle};
ghost use Rattle.jcr_run.specs.Nearing.{BeginsNearer, EndsSooner, IsReply, ReadsOn, StepsOn};
ghost use Rattle.jcr_run.specs.Nearing.{WorksSooner, turns_left};
ghost use Rattle.jcr_run.specs.Standing.{HasCounted, HasTurned, IsGranted, IsPrepared, IsReadyFor};
ghost use Rattle.jcr_run.specs.Standing.{Stands};
ghost use Rattle.jcr_run.specs.Standing.{due_for, is_tidied, is_tidy, is_tidying};
ghost use Rattle.jcr_run.specs.declared.next.Due.TheVariants as due;
ghost use Rattle.jcr_run.specs.declared.run.Phase.TheVariants as phase;
ghost use Rattle.jcr_session.specs.Tidying.{IsSplitNext, IsSplitOf, IsTaskNext, MayBeginTidying};
ghost use Rattle.jcr_session.specs.Tidying.{tidied_text};

use jcr_call::{collected_reply, split_reply};
use jcr_held::NextSplit;
use jcr_law::JcrLaw;
use jcr_run::{Phase, SessionRun, Turn, come_on};
use jcr_steps::{COMMIT_REPLY_BYTES, Tidied, TidyCame, is_read, tidy_came};
use jcr_trans::Command;
use oak_port::{Port, Task};
use std::alloc::{AllocError, Global};
use std::mem;

// Splits the document of a node, which is known to be there; or answers why it isn't split.
pub(crate) fn split<P: Port<L = JcrLaw>>(run: &mut SessionRun, port: &mut P) -> Turn
    requires stands { Stands (P.law port.old) (P.shown port.old) run.old }
    requires between { run.old.phase ≡ phase.Between }
    requires next { due_for run.old ≡ due.Split }
    requires ready { IsPrepared run.old }
    ensures law { P.law port.new ≡ P.law port.old }
    ensures turned { HasTurned (P.law port.old) (P.shown port.old) (P.shown port.new)
        run.old run.new result }
    ensures steps { StepsOn ⊥ (turns_left run.old) (turns_left run.new) result }
    ensures reads { BeginsNearer (turns_left run.old) (turns_left run.new) result }
{
    match next_split(run) {
        Ok(NextSplit::At(path)) => keep_place(run, port, Task::Split(path)),
        Ok(NextSplit::Refused(text)) => run.say_settled(port, Ok(text)),
        Err(AllocError) => run.say_memory(port),
    }
}

// What the split of the next command begins with.
fn next_split(run: &SessionRun) -> Result<NextSplit, AllocError>
    requires next { due_for run.now ≡ due.Split }
    requires ready { IsPrepared run.now }
    ensures { IfOk result (IsSplitNext run.now) }
{
    match run.commands.as_slice().get(run.index as usize) {
        Some(command) => split_of(run, command),
        None => unreachable!(),
    }
}

// What this split begins with.
fn split_of(run: &SessionRun, command: &Command) -> Result<NextSplit, AllocError>
    requires split { (p : Path) × (command.now ≡ Split p) }
    requires ready { IsReadyFor run.now command.now }
    ensures { IfOk result (IsSplitOf run.now command.now) }
{
    match command {
        Command::Split(path) => run.held.next_split(path),
        _ => unreachable!(),
    }
}

// Begins a collection, by a part of its bound.
pub(crate) fn collect<P: Port<L = JcrLaw>>(run: &mut SessionRun, port: &mut P) -> Turn
    requires stands { Stands (P.law port.old) (P.shown port.old) run.old }
    requires between { run.old.phase ≡ phase.Between }
    requires next { due_for run.old ≡ due.Collect }
    ensures law { P.law port.new ≡ P.law port.old }
    ensures turned { HasTurned (P.law port.old) (P.shown port.old) (P.shown port.new)
        run.old run.new result }
    ensures steps { StepsOn ⊥ (turns_left run.old) (turns_left run.new) result }
    ensures reads { BeginsNearer (turns_left run.old) (turns_left run.new) result }
{
    keep_place(run, port, Task::Collect)
}

// Keeps a place for want of memory as the reply, and begins the task.
fn keep_place<P: Port<L = JcrLaw>>(run: &mut SessionRun, port: &mut P, task: Task) -> Turn
    requires stands { Stands (P.law port.old) (P.shown port.old) run.old }
    requires between { run.old.phase ≡ phase.Between }
    requires next { IsTrue (is_tidy (due_for run.old)) }
    requires unread { run.old.fetch ≡ None }
    requires task { IsTaskNext run.old task }
    ensures law { P.law port.new ≡ P.law port.old }
    ensures turned { HasTurned (P.law port.old) (P.shown port.old) (P.shown port.new)
        run.old run.new result }
    ensures steps { StepsOn ⊥ (turns_left run.old) (turns_left run.new) result }
    ensures reads { BeginsNearer (turns_left run.old) (turns_left run.new) result }
{
    match port.reserve_say(COMMIT_REPLY_BYTES) {
        Ok(()) => begin(run, port, task),
        Err(AllocError) => run.say_memory(port),
    }
}

// Begins the task, and makes its first step.
fn begin<P: Port<L = JcrLaw>>(run: &mut SessionRun, port: &mut P, task: Task) -> Turn
    requires tidies { MayBeginTidying (P.law port.old) (P.shown port.old) run.old task }
    ensures law { P.law port.new ≡ P.law port.old }
    ensures turned { HasTurned (P.law port.old) (P.shown port.old) (P.shown port.new)
        run.old run.new result }
    ensures steps { StepsOn ⊥ (turns_left run.old) (turns_left run.new) result }
    ensures reads { BeginsNearer (turns_left run.old) (turns_left run.new) result }
{
    match port.start(task) {
        Ok(()) => tidy(run, port),
        Err(AllocError) => run.forgo(port, false),
    }
}

// Makes a step of the split or collection that is under way: a counted one, or a reading step.
pub(crate) fn tidy_on<P: Port<L = JcrLaw>>(run: &mut SessionRun, port: &mut P) -> Turn
    requires stands { Stands (P.law port.old) (P.shown port.old) run.old }
    requires tidies { IsTrue (is_tidying run.old.phase) }
    ensures law { P.law port.new ≡ P.law port.old }
    ensures turned { HasTurned (P.law port.old) (P.shown port.old) (P.shown port.new)
        run.old run.new result }
    ensures granted { IsGranted result }
    ensures steps { StepsOn
        (WorksSooner (P.left port.old) (P.left port.new) (P.shown port.old) run.old)
        (turns_left run.old) (turns_left run.new) result }
    ensures reads { ReadsOn
        (EndsSooner (P.left port.old) (P.left port.new) (P.shown port.old))
        (P.law port.old) (P.shown port.old) run.old run.new result }
{
    tidy(run, port)
}

// Makes a step of a split or a collection. A split ends by a reading step or by a counted one, as
// it is due.
fn tidy<P: Port<L = JcrLaw>>(run: &mut SessionRun, port: &mut P) -> Turn
    requires stands { Stands (P.law port.old) (P.shown port.old)
        (record run.old { phase = phase.Tidying }) }
    ensures law { P.law port.new ≡ P.law port.old }
    ensures turned { HasTurned (P.law port.old) (P.shown port.old) (P.shown port.new)
        (record run.old { phase = phase.Tidying }) run.new result }
    ensures granted { IsGranted result }
    ensures steps { StepsOn (WorksSooner (P.left port.old) (P.left port.new) (P.shown port.old)
        (record run.old { phase = phase.Tidying }))
        (turns_left (record run.old { phase = phase.Tidying })) (turns_left run.new) result }
    ensures reads { ReadsOn
        (EndsSooner (P.left port.old) (P.left port.new) (P.shown port.old))
        (P.law port.old) (P.shown port.old)
        (record run.old { phase = phase.Tidying }) run.new result }
{
    let reads = is_read(port.due());
    tidy_once(run, port, reads)
}

// Makes a step of a split or a collection, for which a reading step is due, or another. Where
// memory is refused, the task has ended, and the reply tells so.
fn tidy_once<P: Port<L = JcrLaw>>(run: &mut SessionRun, port: &mut P, reads: bool) -> Turn
    requires stands { Stands (P.law port.old) (P.shown port.old)
        (record run.old { phase = phase.Tidying }) }
    requires due { reads ≡ is_due kind.Read (P.shown port.old).due }
    ensures law { P.law port.new ≡ P.law port.old }
    ensures turned { HasTurned (P.law port.old) (P.shown port.old) (P.shown port.new)
        (record run.old { phase = phase.Tidying }) run.new result }
    ensures granted { IsGranted result }
    ensures steps { StepsOn (WorksSooner (P.left port.old) (P.left port.new) (P.shown port.old)
        (record run.old { phase = phase.Tidying }))
        (turns_left (record run.old { phase = phase.Tidying })) (turns_left run.new) result }
    ensures reads { ReadsOn
        (EndsSooner (P.left port.old) (P.left port.new) (P.shown port.old))
        (P.law port.old) (P.shown port.old)
        (record run.old { phase = phase.Tidying }) run.new result }
{
    match tidy_came(port.step()) {
        TidyCame::Refused => run.forgo(port, false),
        came => come_on(run, came, reads),
    }
}

// Answers a command whose split or collection has ended.
pub(crate) fn say_tidied<P: Port<L = JcrLaw>>(run: &mut SessionRun, port: &mut P) -> Turn
    requires stands { Stands (P.law port.old) (P.shown port.old) run.old }
    requires tidied { IsTrue (is_tidied run.old.phase) }
    ensures law { P.law port.new ≡ P.law port.old }
    ensures turned { HasCounted (P.law port.old) (P.shown port.old) (P.shown port.new)
        run.old run.new result }
    ensures granted { IsGranted result }
    ensures said { IsReply result }
{
    match mem::replace(&mut run.phase, Phase::Between) {
        Phase::Tidied(ended) => show(run, port, ended),
        _ => unreachable!(),
    }
}

// Answers a command by how its split or collection has ended; or that memory was refused for that
// reply.
fn show<P: Port<L = JcrLaw>>(run: &mut SessionRun, port: &mut P, ended: Tidied) -> Turn
    requires stands { Stands (P.law port.old) (P.shown port.old)
        (record run.old { phase = phase.Tidied ended }) }
    ensures law { P.law port.new ≡ P.law port.old }
    ensures turned { HasCounted (P.law port.old) (P.shown port.old) (P.shown port.new)
        run.old run.new result }
    ensures granted { IsGranted result }
    ensures said { IsReply result }
{
    match tidied_reply(run.alloc, &ended) {
        Ok(text) => show_text(run, port, text.as_str()),
        Err(AllocError) => run.forgo(port, false),
    }
}

// The reply that shows how a split or a collection has ended.
fn tidied_reply(alloc: Global, ended: &Tidied) -> Result<String, AllocError>
    ensures { IfOk result (λ reply. string_bytes reply ≡ tidied_text ended.now) }
{
    match ended {
        Tidied::Split(end) => split_reply(alloc, end),
        Tidied::Collected(done) => collected_reply(alloc, done),
    }
}

// Answers a command with this text, or that memory was refused for it.
fn show_text<P: Port<L = JcrLaw>>(run: &mut SessionRun, port: &mut P, text: &str) -> Turn
    requires settles { MaySettle (P.law port.old) (P.shown port.old) run.old text.now }
    requires forgoes { MayForgo (P.law port.old) (P.shown port.old) run.old false }
    requires room { HasRoom (P.shown port.old).room COMMIT_REPLY_BYTES }
    ensures law { P.law port.new ≡ P.law port.old }
    ensures turned { HasCounted (P.law port.old) (P.shown port.old) (P.shown port.new)
        run.old run.new result }
    ensures granted { IsGranted result }
    ensures said { IsReply result }
{
    match port.reserve_say(text.len()) {
        Ok(()) => {
            run.settle(text);
            run.say_kept(port, text)
        }
        Err(AllocError) => run.forgo(port, false),
    }
}
