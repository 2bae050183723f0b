ghost use Rattle.std.specs.Prelude.{◌≡◌, ◌↔◌, ◌<◌, ◌≤◌, List, ℕ, [], length, take, drop, min, Contains, IsErr, IsOk, IfOk, OnErr, IfSome, Option, Some};
ghost use Rattle.std.specs.Io.{ReadsAtMost};
ghost use Rattle.std.specs.Io.KnownBytes.{Consumes, IsAtEnd, Keeps};
ghost use Rattle.host_io.specs.Cause.{HasCause};
ghost use Rattle.host_io.specs.Fakes.{next_count};

use crate::Failed;
use std::marker::Model;

/// Where bytes are read from.
pub trait Source {
    /// The bytes that are left, where the source tells them.
    ghost left: { Self → Option (List ℕ) };

    /// How often it has failed: a u64, which never falls and stays at its end.
    ghost faults: { Self → ℕ };

    /// Reads into the front of `into`, and answers how many bytes.
    fn read(&mut self, into: &mut [u8]) -> Result<usize, Failed>
        ensures bound { ReadsAtMost result into.new }
        ensures taken { IfOk result (λ n. Consumes (left self.old) (left self.new) (take n into.new)) }
        // With room in `into`, nothing is read exactly where nothing is left.
        ensures end { IfOk result (λ n. 0 < length into.new → n ≡ 0 → IsAtEnd (left self.new)) }
        ensures nothing_left { IfOk result (λ n. 0 < length into.new
            → IfSome (left self.old) (λ bytes. (n ≡ 0) ↔ (bytes ≡ []))) }
        ensures none_lost { OnErr result (Keeps (left self.old) (left self.new)) }
        ensures cause { HasCause (faults self.old) (faults self.new) result };
}

// Copies the next bytes, at most a piece of them, and answers how many.
pub(crate) fn copy_next(bytes: &[u8], at: usize, piece: usize, into: &mut [u8]) -> usize
    requires { at ≤ length bytes.now }
    ensures count { result ≡ min piece (min (length into.old) (length (drop at bytes.now))) }
    ensures copied { take result into.new ≡ take result (drop at bytes.now) }
{
    let count = piece.min(into.len()).min(bytes.len() - at);
    into[..count].copy_from_slice(&bytes[at..at + count]);
    count
}

/// A source over bytes in memory.
#[derive(Debug, Drop)]
pub struct MemSource {
    bytes: Vec<u8>,
    at: usize,
    piece: usize,
    fails: Vec<u64>,
    calls: u64,
    faults: u64,
}

impl Model for MemSource {
    ghost use Rattle.std.specs.Prelude.{◌<◌, ◌≤◌, drop, vec_len};
    ghost use Rattle.host_io.specs.Fakes.{MemSourceState};

    ghost Value = { MemSourceState };

    ghost view = { λ s. record {
      left = drop s.at s.bytes.items;
      piece = s.piece;
      fails = s.fails.items;
      calls = s.calls;
      faults = s.faults;
    } };

    ghost invariant = { λ s. (s.at ≤ vec_len s.bytes) × (0 < s.piece) };
}

impl MemSource {
    /// A source with all of `bytes` left. `piece` is the most that one call moves, and `fails` lists
    /// the calls, counted from 0, that fail.
    pub fn new(bytes: Vec<u8>, piece: usize, fails: Vec<u64>) -> MemSource
        requires { 0 < piece }
        ensures { result ≡ record { left = bytes.items; piece = piece; fails = fails.items; calls = 0; faults = 0 } }
    {
        MemSource {
            bytes,
            at: 0,
            piece,
            fails,
            calls: 0,
            faults: 0,
        }
    }
}

impl Source for MemSource {
    ghost left = { λ s. Some s.left };

    ghost faults = { λ s. s.faults };

    fn read(&mut self, into: &mut [u8]) -> Result<usize, Failed>
        ensures bound { ReadsAtMost result into.new }
        ensures taken { IfOk result (λ n. Consumes (Some self.old.left) (Some self.new.left) (take n into.new)) }
        ensures end { IfOk result (λ n. 0 < length into.new → n ≡ 0 → IsAtEnd (Some self.new.left)) }
        ensures nothing_left { IfOk result (λ n. 0 < length into.new
            → IfSome (Some self.old.left) (λ bytes. (n ≡ 0) ↔ (bytes ≡ []))) }
        ensures none_lost { OnErr result (Keeps (Some self.old.left) (Some self.new.left)) }
        ensures cause { HasCause self.old.faults self.new.faults result }

        ensures fails { IsErr result ↔ Contains self.old.fails self.old.calls }
        ensures count { IfOk result (λ n. n ≡ min self.old.piece (min (length into.old) (length self.old.left))) }
        ensures calls { self.new.calls ≡ next_count self.old.calls }
        ensures faults { OnErr result (self.new.faults ≡ next_count self.old.faults) }
        ensures settings { (self.new.piece ≡ self.old.piece) × (self.new.fails ≡ self.old.fails) }
    {
        let call = self.calls;
        self.calls = call.saturating_add(1);
        if self.fails.contains(&call) {
            self.faults = self.faults.saturating_add(1);
            return Err(Failed);
        }
        let count = copy_next(&self.bytes, self.at, self.piece, into);
        self.at += count;
        Ok(count)
    }
}

/// A source over bytes in memory that never fails.
#[derive(Debug, Drop)]
pub struct NeverSource {
    bytes: Vec<u8>,
    at: usize,
    piece: usize,
}

impl Model for NeverSource {
    ghost use Rattle.std.specs.Prelude.{◌<◌, ◌≤◌, drop, vec_len};
    ghost use Rattle.host_io.specs.Fakes.{NeverSourceState};

    ghost Value = { NeverSourceState };

    ghost view = { λ s. record { left = drop s.at s.bytes.items; piece = s.piece } };

    ghost invariant = { λ s. (s.at ≤ vec_len s.bytes) × (0 < s.piece) };
}

impl NeverSource {
    /// A source with all of `bytes` left. `piece` is the most that one call moves.
    pub fn new(bytes: Vec<u8>, piece: usize) -> NeverSource
        requires { 0 < piece }
        ensures { result ≡ record { left = bytes.items; piece = piece } }
    {
        NeverSource {
            bytes,
            at: 0,
            piece,
        }
    }
}

impl Source for NeverSource {
    ghost left = { λ s. Some s.left };

    ghost faults = { λ _. 0 };

    fn read(&mut self, into: &mut [u8]) -> Result<usize, Failed>
        ensures bound { ReadsAtMost result into.new }
        ensures taken { IfOk result (λ n. Consumes (Some self.old.left) (Some self.new.left) (take n into.new)) }
        ensures end { IfOk result (λ n. 0 < length into.new → n ≡ 0 → IsAtEnd (Some self.new.left)) }
        ensures nothing_left { IfOk result (λ n. 0 < length into.new
            → IfSome (Some self.old.left) (λ bytes. (n ≡ 0) ↔ (bytes ≡ []))) }
        ensures none_lost { OnErr result (Keeps (Some self.old.left) (Some self.new.left)) }
        ensures cause { HasCause 0 0 result }

        ensures succeeds { IsOk result }
        ensures count { IfOk result (λ n. n ≡ min self.old.piece (min (length into.old) (length self.old.left))) }
        ensures settings { self.new.piece ≡ self.old.piece }
    {
        let moved = copy_next(&self.bytes, self.at, self.piece, into);
        self.at += moved;
        Ok(moved)
    }
}
