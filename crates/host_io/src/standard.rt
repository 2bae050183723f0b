//! Readers and writers of std as sources and sinks, and the standard streams. A reader or a writer tells its bytes where std
//! knows them; of the standard streams it knows none, and what the system does with their bytes is taken on trust.
ghost use Rattle.std.specs.Prelude.{◌≡◌, ◌<◌, length, IfOk};
ghost use Rattle.std.specs.Io.{ReadsAtMost, WritesAtMost};
ghost use Rattle.std.specs.Io.KnownBytes.{ReadConsumes, WriteAppends};

use crate::{Failed, Sink, SinkError, Source};
use std::io::{ErrorKind, Read, Stderr, Stdin, Stdout, Write};

// Reads once, and again where a signal broke the call off.
#[tactic(auto, using(crate::proofs::Known::keeps_none, crate::proofs::Known::keeps_both, crate::proofs::Known::kept_consumes))]
pub(crate) fn read_some<R: Read>(reader: &mut R, into: &mut [u8]) -> Result<usize, Failed>
    ensures bound { ReadsAtMost result into.new }
    ensures bytes { ReadConsumes (R.remaining reader.old) (R.remaining reader.new) result into.new }
{
    'tries: for _ in 0..u64::MAX {
        match reader.read(into) {
            Ok(count) => return Ok(count),
            Err(error) => {
                if error.kind() != ErrorKind::Interrupted {
                    return Err(Failed);
                }
            }
        }
    }
    Err(Failed)
}

// Writes once, and again where a signal broke the call off. A piece of which nothing is taken is a failure.
#[tactic(auto, using(crate::proofs::Known::keeps_none, crate::proofs::Known::keeps_both, crate::proofs::Known::kept_appends, crate::proofs::Known::appended_none))]
fn write_some<W: Write>(writer: &mut W, piece: &[u8]) -> Result<usize, Failed>
    ensures bound { WritesAtMost result piece.now }
    ensures some { IfOk result (λ n. 0 < length piece.now → 0 < n) }
    ensures bytes { WriteAppends (W.contents writer.old) (W.contents writer.new) result piece.now }
{
    'tries: for _ in 0..u64::MAX {
        match writer.write(piece) {
            Ok(0) => return if piece.is_empty() { Ok(0) } else { Err(Failed) },
            Ok(count) => return Ok(count),
            Err(error) => {
                if error.kind() != ErrorKind::Interrupted {
                    return Err(Failed);
                }
            }
        }
    }
    Err(Failed)
}

/// A reader of std as a source, with its count of faults.
#[derive(Debug, Drop)]
pub struct Reading<R> {
    reader: R,
    faults: u64,
}

impl<R: Read> Reading<R> {
    /// The reader, with no fault counted yet.
    pub fn new(reader: R) -> Reading<R>
        ensures reader { result.reader ≡ reader }
        ensures faults { result.faults ≡ 0 }
    {
        Reading { reader, faults: 0 }
    }
}

impl<R: Read> Source for Reading<R> {
    ghost left = { λ s. R.remaining s.reader };

    ghost faults = { λ s. s.faults };

    fn read(&mut self, into: &mut [u8]) -> Result<usize, Failed> {
        let outcome = read_some(&mut self.reader, into);
        if outcome.is_err() {
            self.faults = self.faults.saturating_add(1);
        }
        outcome
    }
}

/// A writer of std as a sink, with its count of faults. It is not flushed: one that keeps a buffer is no such writer.
#[derive(Debug, Drop)]
pub struct Writing<W> {
    writer: W,
    faults: u64,
}

impl<W: Write> Writing<W> {
    /// The writer, with no fault counted yet.
    pub fn new(writer: W) -> Writing<W>
        ensures writer { result.writer ≡ writer }
        ensures faults { result.faults ≡ 0 }
    {
        Writing { writer, faults: 0 }
    }
}

impl<W: Write + Send> Sink for Writing<W> {
    ghost written = { λ s. W.contents s.writer };

    ghost faults = { λ s. s.faults };

    fn write(&mut self, piece: &[u8]) -> Result<usize, SinkError> {
        match write_some(&mut self.writer, piece) {
            Ok(count) => Ok(count),
            Err(Failed) => {
                self.faults = self.faults.saturating_add(1);
                Err(SinkError::Failed)
            }
        }
    }
}

/// Standard input.
pub type StdSource = Reading<Stdin>;

/// Standard output, written without a buffer.
pub type StdSink = Writing<Stdout>;

/// Standard error, for the notes.
pub type StdNotes = Writing<Stderr>;
