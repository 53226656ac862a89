// The top calls.
ghost use Rattle.std.specs.Prelude.{◌≡◌, ◌≤◌, None, Some, IfOk, IfErr, IsNone, false, map, string_bytes, true};
ghost use Rattle.jr_work.specs.Runs.{HasRun};
ghost use Rattle.jr_work.specs.Workers.{HasRunByWorkers};
ghost use Rattle.repo_top.specs.Ends.{Does, Ends, Faults, IsInputRead, IsTaken, IsUnread, Delivers, WritesText, call, effect, input_of, output_of};
ghost use Rattle.repo_top.specs.Ends.SourceKind.{a_script};
ghost use Rattle.repo_top.specs.Headline.{printed_of};
ghost use Rattle.repo_top.specs.Words.{IsInRange};
ghost use Rattle.repo_top.specs.declared.status.Unrun.TheVariants as unrun;
ghost use Rattle.repo_top.specs.declared.words.Words.TheVariants.{Types};

use crate::made::made;
use crate::status::{Status, Unrun, script_line, types_line};
use crate::types::types_of;
use crate::words::{Words, words_meant};
use jcr_law::JcrLaw;
use jr_io::{Failed, Sink, Source, deliver, read_all};
use jr_path::Text;
use jr_print::{lines, put_documents};
use jr_script::{Script, read_script, scripts_are_within};
use jr_work::{Gate, run_steps, run_workers};
use oak_world::World;
use std::alloc::{AllocError, Global};
use std::mem;
use std::sync::Wait;
use std::thread::Threads;

/// The greatest number of bytes of an input.
pub const LONGEST_INPUT: usize = 16_777_216;

/// All that the program does: takes the words of the command line, a source and a sink, the gate of
/// the worker threads, and answers the status. `Ends` says what each status says of the words, of
/// what was read, written and passed on, and of the world that is left.
pub fn repo_main<R: Threads + Wait + Sync, S: Source, K: Sink, G: Gate + Sync>(
    rt: &R,
    alloc: Global,
    words: &[String],
    source: &mut S,
    sink: &mut K,
    gate: &G,
    left: &mut Option<World<JcrLaw>>,
) -> Status
    ensures ends { Ends (call true (map string_bytes words.now)
        (effect (input_of S.Source source.old) (input_of S.Source source.new)
        (output_of K.Sink sink.old) (output_of K.Sink sink.new) left.new)) result }
{
    leave_none(left);
    let Some(meaning) = words_meant(words) else {
        return unrun(alloc, sink, &Unrun::Words);
    };
    match meaning {
        Words::Run { workers, documents } => {
            let ran = run(rt, alloc, workers, source, gate);
            told(alloc, ran, documents, sink, left)
        }
        _ => alone(alloc, meaning, source, sink, left),
    }
}

/// Every command but `run`, whose words have no meaning here: uses no lock, and returns.
pub fn steps_main<S: Source, K: Sink>(
    alloc: Global,
    words: &[String],
    source: &mut S,
    sink: &mut K,
    left: &mut Option<World<JcrLaw>>,
) -> Status
    ensures ends { Ends (call false (map string_bytes words.now)
        (effect (input_of S.Source source.old) (input_of S.Source source.new)
        (output_of K.Sink sink.old) (output_of K.Sink sink.new) left.new)) result }
{
    leave_none(left);
    let Some(meaning) = words_meant(words) else {
        return unrun(alloc, sink, &Unrun::Words);
    };
    match meaning {
        Words::Run { .. } => unrun(alloc, sink, &Unrun::Words),
        _ => alone(alloc, meaning, source, sink, left),
    }
}

// What words ask for without worker threads.
fn alone<S: Source, K: Sink>(
    alloc: Global,
    meaning: Words,
    source: &mut S,
    sink: &mut K,
    left: &mut Option<World<JcrLaw>>,
) -> Status
    requires taken { IsTaken false meaning }
    requires range { IsInRange meaning }
    requires none { IsNone left.old }
    ensures does { Does meaning
        (effect (input_of S.Source source.old) (input_of S.Source source.new)
        (output_of K.Sink sink.old) (output_of K.Sink sink.new) left.new) result }
{
    match meaning {
        Words::Steps { documents } => {
            let ran = steps(alloc, source);
            told(alloc, ran, documents, sink, left)
        }
        Words::Types => types(alloc, source, sink),
        Words::Run { .. } => unreachable!(),
        Words::Gen {
            seed,
            sessions,
            runs,
        } => made(alloc, seed, sessions, runs, sink, left),
    }
}

// Runs the script that a source gives by its schedule.
fn steps<S: Source>(alloc: Global, source: &mut S) -> Result<World<JcrLaw>, Unrun>
    ensures ran { IfOk result (λ world. (script : Script)
        × IsInputRead (input_of S.Source source.old) (input_of S.Source source.new) script
        × HasRun script world) }
    ensures unread { IfErr result
        (IsUnread a_script (input_of S.Source source.old) (input_of S.Source source.new)) }
{
    let script = script_of(alloc, source)?;
    scripts_are_within();
    Ok(run_steps(alloc, script)?)
}

// Runs the script that a source gives by so many worker threads.
fn run<R: Threads + Wait + Sync, S: Source, G: Gate + Sync>(
    rt: &R,
    alloc: Global,
    workers: u32,
    source: &mut S,
    gate: &G,
) -> Result<World<JcrLaw>, Unrun>
    requires some { 1 ≤ workers }
    requires few { workers ≤ 16 }
    ensures ran { IfOk result (λ world. (script : Script)
        × IsInputRead (input_of S.Source source.old) (input_of S.Source source.new) script
        × HasRunByWorkers script world) }
    ensures unread { IfErr result
        (IsUnread a_script (input_of S.Source source.old) (input_of S.Source source.new)) }
{
    let script = script_of(alloc, source)?;
    scripts_are_within();
    Ok(run_workers(rt, alloc, script, workers, gate)?)
}

// Writes the canonical text of the node types that a source gives.
fn types<S: Source, K: Sink>(alloc: Global, source: &mut S, sink: &mut K) -> Status
    ensures does { Does Types
        (effect (input_of S.Source source.old) (input_of S.Source source.new)
        (output_of K.Sink sink.old) (output_of K.Sink sink.new) None) result }
{
    match types_of(alloc, source) {
        Ok(text) => written(sink, text.as_bytes(), Status::Done),
        Err(why) => unrun(alloc, sink, &why),
    }
}

// The script that a source gives.
fn script_of<S: Source>(alloc: Global, source: &mut S) -> Result<Script, Unrun>
    ensures read { IfOk result
        (IsInputRead (input_of S.Source source.old) (input_of S.Source source.new)) }
    ensures unread { IfErr result
        (IsUnread a_script (input_of S.Source source.old) (input_of S.Source source.new)) }
{
    let bytes = read_all(alloc, source, LONGEST_INPUT)?;
    Ok(read_script(alloc, bytes.as_slice())?)
}

// Leaves the world with which a run ended, and writes what is printed of it; or writes the line
// that says why no script is run.
fn told<K: Sink>(
    alloc: Global,
    ran: Result<World<JcrLaw>, Unrun>,
    documents: bool,
    sink: &mut K,
    left: &mut Option<World<JcrLaw>>,
) -> Status
    requires none { IsNone left.old }
    ensures ok { IfOk ran (λ world. (left.new ≡ Some world)
        × WritesText (output_of K.Sink sink.old) (output_of K.Sink sink.new)
        (printed_of documents world) result) }
    ensures err { IfErr ran (λ why. IsNone left.new
        × Faults (output_of K.Sink sink.old) (output_of K.Sink sink.new) why result) }
{
    match ran {
        Ok(world) => printed(alloc, world, documents, sink, left),
        Err(why) => unrun(alloc, sink, &why),
    }
}

// Leaves the world with which a run ended, and writes what is printed of it.
fn printed<K: Sink>(
    alloc: Global,
    world: World<JcrLaw>,
    documents: bool,
    sink: &mut K,
    left: &mut Option<World<JcrLaw>>,
) -> Status
    ensures left { left.new ≡ Some world }
    ensures writes { WritesText (output_of K.Sink sink.old) (output_of K.Sink sink.new)
        (printed_of documents world) result }
{
    let text = text_of(alloc, &world, documents);
    leave(world, left);
    match text {
        Ok(text) => written(sink, text.as_slice(), Status::Done),
        Err(AllocError) => Status::Memory,
    }
}

// What is printed of a run that left this world: its replies, and behind them the documents where
// these are asked for. All of it is made before the first byte is written, so that nothing is
// written where memory is refused.
fn text_of(alloc: Global, world: &World<JcrLaw>, documents: bool) -> Result<Vec<u8>, AllocError>
    ensures { IfOk result (λ text. text.items ≡ printed_of documents world.now) }
{
    let mut text = lines(alloc, world.journal())?;
    if documents {
        put_documents(alloc, &mut text, world.documents())?;
    }
    Ok(text)
}

// No world is left.
fn leave_none(left: &mut Option<World<JcrLaw>>)
    ensures { IsNone left.new }
{
    let before = mem::replace(left, None);
    drop(before);
}

// A world is left, in place of what was left before.
pub(crate) fn leave(world: World<JcrLaw>, left: &mut Option<World<JcrLaw>>)
    ensures { left.new ≡ Some world }
{
    let before = mem::replace(left, Some(world));
    drop(before);
}

// Writes the line that says why no script is run and no text is printed; none where memory was
// refused.
fn unrun<K: Sink>(alloc: Global, sink: &mut K, why: &Unrun) -> Status
    ensures { Faults (output_of K.Sink sink.old) (output_of K.Sink sink.new) why.now result }
{
    match why {
        Unrun::Words => written(sink, "bad words\n".as_bytes(), Status::Words),
        Unrun::Script {
            rule,
            pointer,
            offset,
        } => broken(alloc, sink, *rule, pointer, *offset),
        Unrun::Types(offset) => untyped(alloc, sink, *offset),
        Unrun::ReadFault => written(sink, "read fault\n".as_bytes(), Status::ReadFault),
        Unrun::TooLong => written(sink, "too long\n".as_bytes(), Status::TooLong),
        Unrun::Memory => Status::Memory,
    }
}

// Writes the line of a broken script.
fn broken<K: Sink>(
    alloc: Global,
    sink: &mut K,
    rule: u8,
    pointer: &Text,
    offset: Option<usize>,
) -> Status
    ensures { Faults (output_of K.Sink sink.old) (output_of K.Sink sink.new)
        (unrun.Script rule pointer.now offset) result }
{
    match script_line(alloc, rule, pointer, offset) {
        Ok(line) => written(sink, line.as_bytes(), Status::Script),
        Err(AllocError) => Status::Memory,
    }
}

// Writes the line of a text of node types that has a fault.
fn untyped<K: Sink>(alloc: Global, sink: &mut K, offset: usize) -> Status
    ensures { Faults (output_of K.Sink sink.old) (output_of K.Sink sink.new)
        (unrun.Types offset) result }
{
    match types_line(alloc, offset) {
        Ok(line) => written(sink, line.as_bytes(), Status::Script),
        Err(AllocError) => Status::Memory,
    }
}

// Writes the bytes, passes on all that was written, and answers the status, or that the sink
// failed.
pub(crate) fn written<K: Sink>(sink: &mut K, bytes: &[u8], status: Status) -> Status
    ensures { Delivers (output_of K.Sink sink.old) (output_of K.Sink sink.new) bytes.now status
        result }
{
    match deliver(sink, bytes) {
        Ok(()) => status,
        Err(Failed) => Status::WriteFault,
    }
}
