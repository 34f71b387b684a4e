// The adapters over std's readers and writers. Over a reader or writer whose bytes are visible to clauses, as those in memory are, the
// source's or sink's bytes are visible too. Those of the operating system aren't.
ghost use Rattle.std.specs.Prelude.{◌≡◌, ◌||◌, not, true, if◌then◌else◌, is_some, None, ℕ};

use crate::{Failed, Sink, SinkFault, Source};
use std::io::{Read, Write};

/// A reader of std. Each error of the reader is a fault.
#[derive(Drop)]
pub struct StdSource<R: Read> {
    reader: R,
    told: bool,
    faults: u64,
    ghost known: { (not told || is_some (R.remaining reader)) ≡ true },
}

impl<R: Read> StdSource<R> {
    /// A source over the reader, with no fault counted. `told` says that clauses see the bytes that are left, and asks for a reader whose
    /// bytes they see. The reads are the same.
    pub fn new(reader: R, told: bool) -> StdSource<R>
        requires known { (not told || is_some (R.remaining reader)) ≡ true }
        ensures faults { result.faults ≡ 0 }
        ensures reader { result.reader ≡ reader }
        ensures told { result.told ≡ told }
    {
        // Fixed here: a reader of std may begin to show its bytes amid a run, which a source may not.
        StdSource {
            reader,
            told,
            faults: 0,
        }
    }
}

impl<R: Read> Source for StdSource<R> {
    ghost left = { λ s. if s.told then R.remaining s.reader else None };

    ghost faults = { λ s. s.faults };

    fn read(&mut self, buf: &mut [u8]) -> Result<usize, Failed> {
        match self.reader.read(buf) {
            Ok(n) => Ok(n),
            Err(_) => {
                self.faults = self.faults.saturating_add(1);
                Err(Failed)
            }
        }
    }
}

/// A writer of std. Each error of the writer is a fault, and so is a write that takes nothing of a piece that isn't empty.
#[derive(Drop)]
pub struct StdSink<W: Write> {
    writer: W,
    told: bool,
    faults: u64,
    ghost known: { (not told || is_some (W.contents writer)) ≡ true },
}

impl<W: Write> StdSink<W> {
    /// A sink over the writer, with no fault counted. `told` says that clauses see the bytes that were taken, and asks for a writer whose
    /// bytes they see. The writes are the same.
    pub fn new(writer: W, told: bool) -> StdSink<W>
        requires known { (not told || is_some (W.contents writer)) ≡ true }
        ensures faults { result.faults ≡ 0 }
        ensures writer { result.writer ≡ writer }
        ensures told { result.told ≡ told }
    {
        // Fixed here: a writer of std may begin to show its bytes amid a run, which a sink may not.
        StdSink {
            writer,
            told,
            faults: 0,
        }
    }
}

impl<W: Write> Sink for StdSink<W> {
    ghost taken = { λ s. if s.told then W.contents s.writer else None };

    ghost faults = { λ s. s.faults };

    fn write(&mut self, bytes: &[u8]) -> Result<usize, SinkFault> {
        match self.writer.write(bytes) {
            Ok(n) if n > 0 || bytes.is_empty() => Ok(n),
            _ => {
                self.faults = self.faults.saturating_add(1);
                Err(SinkFault::Failed)
            }
        }
    }
}
