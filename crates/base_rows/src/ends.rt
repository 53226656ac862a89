// Sources and sinks.
ghost use Rattle.std.specs.Prelude.{◌≤◌};

use jr_io::{MemSink, MemSource, ReadAll, Sink, Source, StdSink, StdSource, read_all, write_all};
use rows::{Out, cut, number};
use std::alloc::{AllocError, Global};
use std::io;
use std::io::{ErrorKind, Read, Write};

// Whether there is such a row.
pub(crate) fn add(word: &str, rest: &str, out: &mut Out) -> bool {
    match word {
        "read" => add_read(rest, out),
        "write" => add_write(rest, out),
        "flush" => add_flushed(flushed(out.alloc), out),
        "slices" => add_slices(rest, out),
        "broken" => add_broken(rest, out),
        _ => return false,
    }
    true
}

// FAILING LIMIT TEXT: the text is given in pieces of 3 bytes, and the call with that number fails.
fn add_read(rest: &str, out: &mut Out) {
    let (failing, rest) = cut(rest);
    let (limit, text) = cut(rest);
    match source_of(out.alloc, number(failing), text) {
        Ok(source) => read_from(source, limit.parse().unwrap_or(0), out),
        Err(_) => out.is_broken = true,
    }
}

fn source_of(alloc: Global, failing: u64, text: &str) -> Result<MemSource, AllocError> {
    let bytes = Vec::from_slice(alloc, text.as_bytes())?;
    Ok(MemSource::new(bytes, 3, Vec::from_slice(alloc, &[failing])?))
}

fn read_from<S: Source + Drop>(source: S, limit: usize, out: &mut Out) {
    let mut source = source;
    let answer = read_all(out.alloc, &mut source, limit);
    out.put_number(source.faults());
    out.put(" ");
    put_read(answer, out);
}

fn put_read(answer: Result<Vec<u8>, ReadAll>, out: &mut Out) {
    match answer {
        Ok(bytes) => out.put_bytes(bytes.as_slice()),
        Err(ReadAll::TooLong) => out.put("too long"),
        Err(ReadAll::ReadFault) => out.put("read fault"),
        Err(ReadAll::Memory) => out.put("memory"),
    }
}

// ROOM FAILING TEXT: what a sink takes of the text in pieces of 3 bytes, where the call with that
// number fails.
fn add_write(rest: &str, out: &mut Out) {
    let (room, rest) = cut(rest);
    let (failing, text) = cut(rest);
    match sink_of(out.alloc, room.parse().unwrap_or(0), 3, number(failing)) {
        Ok(sink) => add_written(sink, text, out),
        Err(_) => out.is_broken = true,
    }
}

fn sink_of(alloc: Global, room: usize, piece: usize, failing: u64) -> Result<MemSink, AllocError>
    requires { 1 ≤ piece }
{
    MemSink::new(alloc, room, piece, Vec::from_slice(alloc, &[failing])?)
}

fn add_written(sink: MemSink, text: &str, out: &mut Out) {
    let mut sink = sink;
    let is_written = write_all(&mut sink, text.as_bytes()).is_ok();
    out.put(if is_written { "ok " } else { "failed " });
    out.put_number(sink.faults());
    out.put(" ");
    out.put_bytes(sink.written());
}

// Takes everything, and fails at each flush.
#[derive(Drop)]
struct Unflushed;

impl Write for Unflushed {
    fn write(&mut self, buf: &[u8]) -> io::Result<usize> {
        Ok(buf.len())
    }

    fn flush(&mut self) -> io::Result<()> {
        Err(io::Error::from(ErrorKind::BrokenPipe))
    }
}

// Flushes of a sink whose first call fails, of bytes that a sink holds back, and of a writer that
// fails at each flush.
fn flushed(alloc: Global) -> Result<bool, AllocError> {
    let sink = sink_of(alloc, 9, 9, 0)?;
    let broken = StdSink::new(alloc, Unflushed)?;
    Ok(is_flushed(sink) && is_broken(broken))
}

fn is_flushed(sink: MemSink) -> bool {
    let mut sink = sink;
    let is_refused = sink.flush().is_err();
    let is_held = write_all(&mut sink, "ab".as_bytes()).is_ok() && sink.passed() == 0;
    is_refused && is_held && sink.flush().is_ok() && sink.passed() == 2
}

fn is_broken(sink: StdSink<Unflushed>) -> bool {
    let mut sink = sink;
    sink.flush().is_err() && sink.faults() == 1
}

fn add_flushed(flushed: Result<bool, AllocError>, out: &mut Out) {
    match flushed {
        Ok(true) => out.put("counted"),
        Ok(false) => out.put("passed over"),
        Err(_) => out.is_broken = true,
    }
}

// A text, read from a slice of bytes and written to one of four.
fn add_slices(text: &str, out: &mut Out) {
    let mut source = StdSource::new(text.as_bytes());
    put_read(read_all(out.alloc, &mut source, 100), out);
    let mut room = [0u8; 4];
    match StdSink::new(out.alloc, room.as_mut_slice()) {
        Ok(sink) => write_to(sink, text, out),
        Err(_) => out.is_broken = true,
    }
}

fn write_to(sink: StdSink<&mut [u8]>, text: &str, out: &mut Out) {
    let mut sink = sink;
    let is_written = write_all(&mut sink, text.as_bytes()).is_ok() && sink.flush().is_ok();
    out.put(if is_written { " ok " } else { " failed " });
    out.put_number(sink.faults());
}

// Fails once its bytes are given.
#[derive(Drop)]
struct Broken<'a>(&'a [u8]);

impl Read for Broken<'_> {
    fn read(&mut self, buf: &mut [u8]) -> io::Result<usize> {
        if self.0.is_empty() {
            return Err(io::Error::from(ErrorKind::BrokenPipe));
        }
        self.0.read(buf)
    }
}

// TEXT: what is read of a reader that fails behind the text.
fn add_broken(text: &str, out: &mut Out) {
    read_from(StdSource::new(Broken(text.as_bytes())), 8, out);
}
