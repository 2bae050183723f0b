ghost use Rattle.std.specs.Prelude.{◌≡◌, ◌↔◌, ◌<◌, ◌≤◌, List, ℕ, [], ◌++◌, length, take, min, Contains, IfOk, OnOk, OnErr, IsErrOf, Option, Some};
ghost use Rattle.std.specs.Io.{WritesAtMost};
ghost use Rattle.std.specs.Io.KnownBytes.{WriteAppends};
ghost use Rattle.host_io.specs.Cause.{HasWriteCause};
ghost use Rattle.host_io.specs.Fakes.{next_count};

use crate::SinkError;
use std::alloc::Global;
use std::marker::Model;

/// Where bytes are written to.
pub trait Sink: Send {
    /// The bytes that were written, where the sink tells them.
    ghost written: { Self → Option (List ℕ) };

    /// How often it has failed: a u64, which never falls and stays at its end.
    ghost faults: { Self → ℕ };

    /// Takes the front of `piece`, and answers how many bytes. After an error it has taken none.
    fn write(&mut self, piece: &[u8]) -> Result<usize, SinkError>
        ensures bound { WritesAtMost result piece.now }
        ensures some { IfOk result (λ n. 0 < length piece.now → 0 < n) }
        ensures appended { WriteAppends (written self.old) (written self.new) result piece.now }
        ensures cause { HasWriteCause (faults self.old) (faults self.new) result };
}

// Takes at most `most` bytes of a piece, and answers how many.
fn append_front(written: &mut Vec<u8>, most: usize, piece: &[u8]) -> Result<usize, SinkError>
    ensures count { IfOk result (λ n. n ≡ min most (length piece.now)) }
    ensures kept { IfOk result (λ n. written.new.items ≡ written.old.items ++ take n piece.now) }
    ensures err { OnErr result (written.new.items ≡ written.old.items) }
    ensures memory { OnErr result (result ≡ Err SinkError.Memory) }
{
    let count = most.min(piece.len());
    match written.extend_from_slice(&piece[..count]) {
        Ok(()) => Ok(count),
        Err(_) => Err(SinkError::Memory),
    }
}

/// A sink into memory.
#[derive(Debug, Drop)]
pub struct MemSink {
    written: Vec<u8>,
    piece: usize,
    fails: Vec<u64>,
    calls: u64,
    faults: u64,
}

impl Model for MemSink {
    ghost use Rattle.std.specs.Prelude.{◌<◌};
    ghost use Rattle.host_io.specs.Fakes.{MemSinkState};

    ghost Value = { MemSinkState };

    ghost view = { λ s. record {
      written = s.written.items;
      piece = s.piece;
      fails = s.fails.items;
      calls = s.calls;
      faults = s.faults;
    } };

    ghost invariant = { λ s. 0 < s.piece };
}

impl MemSink {
    /// A sink with nothing written. `piece` is the most that one call takes, and `fails` lists the
    /// calls, counted from 0, that fail.
    pub fn new(alloc: Global, piece: usize, fails: Vec<u64>) -> MemSink
        requires { 0 < piece }
        ensures { result ≡ record { written = []; piece = piece; fails = fails.items; calls = 0; faults = 0 } }
    {
        MemSink {
            written: Vec::new(alloc),
            piece,
            fails,
            calls: 0,
            faults: 0,
        }
    }

    /// The bytes that were written.
    pub fn bytes(&self) -> &[u8]
        ensures { result.now ≡ self.now.written }
    {
        &self.written
    }
}

impl Sink for MemSink {
    ghost written = { λ s. Some s.written };

    ghost faults = { λ s. s.faults };

    fn write(&mut self, piece: &[u8]) -> Result<usize, SinkError>
        ensures bound { WritesAtMost result piece.now }
        ensures some { IfOk result (λ n. 0 < length piece.now → 0 < n) }
        ensures appended { WriteAppends (Some self.old.written) (Some self.new.written) result piece.now }
        ensures cause { HasWriteCause self.old.faults self.new.faults result }

        ensures fails { IsErrOf result SinkError.Failed ↔ Contains self.old.fails self.old.calls }
        ensures count { IfOk result (λ n. n ≡ min self.old.piece (length piece.now)) }
        ensures calls { self.new.calls ≡ next_count self.old.calls }
        ensures faults { IsErrOf result SinkError.Failed → self.new.faults ≡ next_count self.old.faults }
        ensures settings { (self.new.piece ≡ self.old.piece) × (self.new.fails ≡ self.old.fails) }
    {
        let call = self.calls;
        self.calls = call.saturating_add(1);
        if self.fails.contains(&call) {
            self.faults = self.faults.saturating_add(1);
            return Err(SinkError::Failed);
        }
        append_front(&mut self.written, self.piece, piece)
    }
}

/// A sink into memory that never fails.
#[derive(Debug, Drop)]
pub struct NeverSink {
    written: Vec<u8>,
    piece: usize,
}

impl Model for NeverSink {
    ghost use Rattle.std.specs.Prelude.{◌<◌};
    ghost use Rattle.host_io.specs.Fakes.{NeverSinkState};

    ghost Value = { NeverSinkState };

    ghost view = { λ s. record { written = s.written.items; piece = s.piece } };

    ghost invariant = { λ s. 0 < s.piece };
}

impl NeverSink {
    /// A sink with nothing written. `piece` is the most that one call takes.
    pub fn new(alloc: Global, piece: usize) -> NeverSink
        requires { 0 < piece }
        ensures { result ≡ record { written = []; piece = piece } }
    {
        NeverSink {
            written: Vec::new(alloc),
            piece,
        }
    }

    /// The bytes that were written.
    pub fn bytes(&self) -> &[u8]
        ensures { result.now ≡ self.now.written }
    {
        &self.written
    }
}

impl Sink for NeverSink {
    ghost written = { λ s. Some s.written };

    ghost faults = { λ _. 0 };

    fn write(&mut self, piece: &[u8]) -> Result<usize, SinkError>
        ensures bound { WritesAtMost result piece.now }
        ensures some { IfOk result (λ n. 0 < length piece.now → 0 < n) }
        ensures appended { WriteAppends (Some self.old.written) (Some self.new.written) result piece.now }
        ensures cause { HasWriteCause 0 0 result }

        ensures memory_only { OnErr result (IsErrOf result SinkError.Memory) }
        ensures count { IfOk result (λ n. n ≡ min self.old.piece (length piece.now)) }
        ensures settings { self.new.piece ≡ self.old.piece }
    {
        append_front(&mut self.written, self.piece, piece)
    }
}
