// std's readers and writers as sources and sinks.
ghost use Rattle.std.specs.Prelude.{◌≡◌, ◌<◌, ◌≤◌, [], None, IfOk, OnErr, OnOk, length};
ghost use Rattle.std.specs.Io.Buffered.{writer_buffer, writer_contents, writer_inner};
ghost use Rattle.std.specs.Io.KnownBytes.{Keeps, ReadConsumes, WriteAppends};
ghost use Rattle.jr_io.specs.Causes.{HasCause, RoseExactly};

use crate::ends::{Failed, Sink, Source, count_fault};
use std::alloc::{AllocError, Global};
use std::io::{BufWriter, Read, Write};
use std::marker::Model;

/// A reader of std, as the standard input, as a source. It tells nothing of the bytes left, and
/// counts each error of the reader as a fault, an interrupted call too.
#[derive(Drop)]
pub struct StdSource<R> {
    inner: R,
    given: u64,
    faults: u64,
}

impl<R> Model for StdSource<R> {
    ghost use Rattle.jr_io.specs.Standard.{ReaderState};

    ghost Value = { ReaderState R };

    ghost view = { λ s. record { inner = s.inner; given = s.given; faults = s.faults } };
}

impl<R: Read> StdSource<R> {
    /// A source of what the reader gives from here on.
    pub fn new(inner: R) -> StdSource<R>
        ensures { result ≡ record { inner = inner; given = 0; faults = 0 } }
    {
        StdSource {
            inner,
            given: 0,
            faults: 0,
        }
    }
}

impl<R: Read> Source for StdSource<R> {
    ghost left = { λ s. None };

    ghost given = { λ s. s.given };

    ghost fault_count = { λ s. s.faults };

    fn read(&mut self, buf: &mut [u8]) -> Result<usize, Failed>
        ensures within { IfOk result (λ n. n ≤ length buf.old) }
        ensures counted { IfOk result (λ n. RoseExactly n self.old.given self.new.given) }
        ensures uncounted { OnErr result (self.new.given ≡ self.old.given) }
        ensures cause { HasCause self.old.faults self.new.faults result }

        // What the reader tells of its bytes is handed on.
        ensures passed { ReadConsumes (R.remaining self.old.inner) (R.remaining self.new.inner)
            result buf.new }
    {
        match self.inner.read(buf) {
            Ok(count) => {
                self.given = self.given.saturating_add(count as u64);
                Ok(count)
            }
            Err(_) => Err(count_fault(&mut self.faults)),
        }
    }

    fn faults(&self) -> u64 {
        self.faults
    }
}

/// A writer of std, as the standard output, as a sink, behind a buffer of 8,192 bytes. It tells nothing
/// of the bytes taken, nor of those passed on, and counts as a fault each error of the writer, and a
/// write that takes no byte of some.
#[derive(Drop)]
pub struct StdSink<W: Write + Drop> {
    inner: BufWriter<W>,
    faults: u64,
}

impl<W: Write + Drop> Model for StdSink<W> {
    ghost use Rattle.jr_io.specs.Standard.{Writing};

    ghost Value = { Writing W };

    ghost view = { λ s. record { inner = s.inner; faults = s.faults } };
}

impl<W: Write + Drop> StdSink<W> {
    /// A sink into this writer, which is dropped where memory is refused for the buffer.
    pub fn new(alloc: Global, inner: W) -> Result<StdSink<W>, AllocError>
        ensures inner { IfOk result (λ sink. writer_inner sink.inner ≡ inner) }
        ensures empty { IfOk result (λ sink. writer_buffer sink.inner ≡ []) }
        ensures faults { IfOk result (λ sink. sink.faults ≡ 0) }
    {
        match BufWriter::new(alloc, inner) {
            Ok(inner) => Ok(StdSink { inner, faults: 0 }),
            Err(_) => Err(AllocError),
        }
    }
}

impl<W: Write + Drop> Sink for StdSink<W> {
    ghost written = { λ s. None };

    ghost passed = { λ s. None };

    ghost fault_count = { λ s. s.faults };

    fn write(&mut self, bytes: &[u8]) -> Result<usize, Failed>
        ensures within { IfOk result (λ n. n ≤ length bytes.now) }
        ensures some { IfOk result (λ n. 0 < length bytes.now → 0 < n) }
        ensures cause { HasCause self.old.faults self.new.faults result }

        // What the writer and the buffer tell of their bytes is handed on.
        ensures taken { WriteAppends (writer_contents W.contents self.old.inner)
            (writer_contents W.contents self.new.inner) result bytes.now }
    {
        match self.inner.write(bytes) {
            Ok(0) if !bytes.is_empty() => Err(count_fault(&mut self.faults)),
            Ok(count) => Ok(count),
            Err(_) => Err(count_fault(&mut self.faults)),
        }
    }

    fn flush(&mut self) -> Result<(), Failed>
        ensures cause { HasCause self.old.faults self.new.faults result }

        // All that the buffer held is with the writer, and nothing else.
        ensures kept { Keeps (writer_contents W.contents self.old.inner)
            (writer_contents W.contents self.new.inner) }
        ensures empty { OnOk result (writer_buffer self.new.inner ≡ []) }
    {
        match self.inner.flush() {
            Ok(()) => Ok(()),
            Err(_) => Err(count_fault(&mut self.faults)),
        }
    }

    fn faults(&self) -> u64 {
        self.faults
    }
}
