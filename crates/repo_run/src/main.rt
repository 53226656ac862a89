//! The program: does what its words ask for, over standard input and output.
#![tactic(auto)]

ghost use Rattle.std.specs.Prelude.{◌≡◌, map, string_bytes, true};
ghost use Rattle.std.specs.Process.{exit_status};
ghost use Rattle.repo_top.specs.Ends.{Ends, call, effect, input_of, output_of};
ghost use Rattle.repo_top.specs.Statuses.{code_of};
ghost use Rattle.repo_top.specs.declared.status.Status.{Status};

use jr_io::{Sink, Source, StdSink, StdSource};
use repo_top::{NoGate, Status, repo_main};
use std::alloc::{AllocError, Global};
use std::env::Env;
use std::process::ExitCode;
use std::sync::Wait;
use std::thread::Threads;
use std::{env, io};

// The words behind the program's name.
fn words_of<R: Env + Alloc>(rt: &R) -> io::Result<Vec<String<R::A>, R::A>> {
    let mut words = Vec::new(rt.alloc());
    for word in env::args(rt)?.skip(1) {
        if words.push(word).is_err() {
            return Err(io::Error::from(AllocError));
        }
    }
    Ok(words)
}

// The exit code of a status.
fn exit_of(status: Status) -> ExitCode
    ensures { exit_status result ≡ code_of status }
{
    ExitCode::from(status.code())
}

// Does what the words ask for, and answers the exit code of the status with which that ends.
fn ended<R: Threads + Wait + Sync, S: Source, K: Sink>(
    rt: &R,
    alloc: Global,
    words: &[String],
    source: &mut S,
    sink: &mut K,
) -> ExitCode
    ensures { (left : _) × (status : Status) × (exit_status result ≡ code_of status)
        × Ends (call true (map string_bytes words.now)
        (effect (input_of S.Source source.old) (input_of S.Source source.new)
        (output_of K.Sink sink.old) (output_of K.Sink sink.new) left)) status }
{
    let mut left = None;
    let status = repo_main(rt, alloc, words, source, sink, &NoGate, &mut left);
    exit_of(status)
}

// Words that are no text have no meaning; where memory is refused for them, nothing is written.
fn main(rt: HostRuntime) -> ExitCode {
    let words = match words_of(&rt) {
        Ok(words) => words,
        Err(error) => {
            if error.kind() == io::ErrorKind::OutOfMemory {
                return exit_of(Status::Memory);
            }
            Vec::new(rt.alloc())
        }
    };
    let mut source = StdSource::new(rt.reader());
    let Ok(mut sink) = StdSink::new(rt.alloc(), io::writer(&rt)) else {
        return exit_of(Status::Memory);
    };
    ended(&rt, rt.alloc(), words.as_slice(), &mut source, &mut sink)
}
