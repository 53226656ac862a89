// Scripts that are made: the text of one, or its run.
ghost use Rattle.std.specs.Prelude.{◌≡◌, ◌≤◌, IfOk, IfSome, IsNone, Some, reverse, true};
ghost use Rattle.jr_gen.specs.Scripts.{script_text};
ghost use Rattle.jr_gen.specs.Sizes.{commands_in};
ghost use Rattle.jr_script.specs.Bounds.{IsWithin};
ghost use Rattle.jr_work.specs.Runs.{HasRun};
ghost use Rattle.oak_world.specs.Worlds.{live};
ghost use Rattle.repo_top.specs.Ends.{Does, Input, Prints, SpellsScript, WritesText, effect, output_of};
ghost use Rattle.repo_top.specs.Summary.{counts_of, summary_line, summary_text};
ghost use Rattle.repo_top.specs.declared.words.Words.TheVariants.{Gen};

use crate::status::Status;
use crate::summary::{commands_of, counts_of, summary_line};
use crate::top::{leave, written};
use jcr_law::JcrLaw;
use jr_gen::{generate, generated_scripts_are_read};
use jr_io::Sink;
use jr_script::{Script, ScriptFault, read_script, scripts_are_within};
use jr_work::run_steps;
use oak_world::World;
use std::alloc::{AllocError, Global};

// Makes the script of a seed for so many sessions, and writes its text; or runs it, and writes the
// line that counts what came of it. Whatever the source tells, it is as it was.
pub(crate) fn made<K: Sink>(
    alloc: Global,
    seed: u64,
    sessions: u32,
    runs: bool,
    sink: &mut K,
    left: &mut Option<World<JcrLaw>>,
) -> Status
    requires some { 1 ≤ sessions }
    requires few { sessions ≤ 64 }
    requires none { IsNone left.old }
    ensures does { (source : Input) → Does (Gen seed sessions runs)
        (effect source source (output_of K.Sink sink.old) (output_of K.Sink sink.new) left.new)
        result }
{
    if runs {
        run_made(alloc, seed, sessions, sink, left)
    } else {
        print_made(alloc, seed, sessions, sink)
    }
}

// Writes the text of the script that is made.
fn print_made<K: Sink>(alloc: Global, seed: u64, sessions: u32, sink: &mut K) -> Status
    requires { 1 ≤ sessions }
    ensures { WritesText (output_of K.Sink sink.old) (output_of K.Sink sink.new)
        (script_text seed sessions) result }
{
    match generate(alloc, seed, sessions) {
        Ok(text) => written(sink, text.as_bytes(), Status::Done),
        Err(AllocError) => Status::Memory,
    }
}

// Runs the script that is made, and writes the line that counts what came of it.
fn run_made<K: Sink>(
    alloc: Global,
    seed: u64,
    sessions: u32,
    sink: &mut K,
    left: &mut Option<World<JcrLaw>>,
) -> Status
    requires some { 1 ≤ sessions }
    requires few { sessions ≤ 64 }
    requires none { IsNone left.old }
    ensures does { (source : Input) → Does (Gen seed sessions true)
        (effect source source (output_of K.Sink sink.old) (output_of K.Sink sink.new) left.new)
        result }
{
    match script_made(alloc, seed, sessions) {
        Ok(script) => {
            scripts_are_within();
            count_run(alloc, sessions, script, sink, left)
        }
        Err(AllocError) => Status::Memory,
    }
}

// The script that is made.
fn script_made(alloc: Global, seed: u64, sessions: u32) -> Result<Script, AllocError>
    requires some { 1 ≤ sessions }
    requires few { sessions ≤ 64 }
    ensures { IfOk result (SpellsScript (script_text seed sessions)) }
{
    let text = generate(alloc, seed, sessions)?;
    match read_script(alloc, text.as_bytes()) {
        Ok(script) => Ok(script),
        Err(ScriptFault::Memory) => Err(AllocError),
        Err(ScriptFault::Bad { pointer, .. }) => {
            drop(pointer);
            generated_scripts_are_read();
            unreachable!()
        }
    }
}

// Runs a script of so many sessions, and writes the line that counts what came of it.
fn count_run<K: Sink>(
    alloc: Global,
    sessions: u32,
    script: Script,
    sink: &mut K,
    left: &mut Option<World<JcrLaw>>,
) -> Status
    requires within { IsWithin script }
    requires none { IsNone left.old }
    ensures ran { IfSome left.new (HasRun script) }
    ensures prints { Prints (λ world. summary_text sessions script (live world.history)) left.new
        (output_of K.Sink sink.old) (output_of K.Sink sink.new) result }
{
    let commands = commands_of(&script);
    match run_steps(alloc, script) {
        Ok(world) => counted(alloc, sessions, commands, world, sink, left),
        Err(AllocError) => Status::Memory,
    }
}

// Leaves the world with which a run ended, and writes the line that counts what came of it.
fn counted<K: Sink>(
    alloc: Global,
    sessions: u32,
    commands: u64,
    world: World<JcrLaw>,
    sink: &mut K,
    left: &mut Option<World<JcrLaw>>,
) -> Status
    ensures left { left.new ≡ Some world }
    ensures writes { WritesText (output_of K.Sink sink.old) (output_of K.Sink sink.new)
        (summary_line sessions commands (counts_of (reverse world.history.past))) result }
{
    let counts = counts_of(world.journal().events.as_slice());
    let line = summary_line(alloc, sessions, commands, counts);
    leave(world, left);
    match line {
        Ok(line) => written(sink, line.as_bytes(), Status::Done),
        Err(AllocError) => Status::Memory,
    }
}
