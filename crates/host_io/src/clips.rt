ghost use Rattle.std.specs.Prelude.{◌≡◌, ◌↔◌, ◌<◌, ◌≤◌, List, ℕ, length, take, drop, min, Contains, IsErr, IsOk, IfOk, OnErr, Option, Some};
ghost use Rattle.std.specs.Io.{ReadsAtMost};
ghost use Rattle.host_io.specs.Cause.{HasCause};
ghost use Rattle.host_io.specs.Clips.{ClipMap, AnswersLength, AreBytesFrom, EndsThere, found_in, bytes_at, length_at, entries_of};
ghost use Rattle.std.specs.Option.{option_copied};
ghost use Rattle.host_io.specs.Fakes.{next_count};

use crate::Failed;
use crate::source::copy_next;
use std::collections::BTreeMap;
use std::marker::Model;

/// Where clips are read from, by name. No call changes what is there.
pub trait ClipStore {
    /// The bytes under each name, where the store tells them.
    ghost clips: { Self → Option ClipMap };

    /// How often it has failed: a u64, which never falls and stays at its end.
    ghost faults: { Self → ℕ };

    /// How many bytes are under the name, and none where it is not there.
    fn length(&mut self, name: &str) -> Result<Option<u64>, Failed>
        ensures kept { clips self.new ≡ clips self.old }
        ensures told { IfOk result (λ answer. AnswersLength (clips self.old) name.now answer) }
        ensures cause { HasCause (faults self.old) (faults self.new) result };

    /// Reads into the front of `into` from a place on, counted in bytes from 0, and answers how many bytes. With room in
    /// `into` none are read exactly where the place is at or past the end, or the name is not there.
    fn read_at(&mut self, name: &str, place: u64, into: &mut [u8]) -> Result<usize, Failed>
        ensures bound { ReadsAtMost result into.new }
        ensures kept { clips self.new ≡ clips self.old }
        ensures told { IfOk result (λ n. AreBytesFrom (clips self.old) name.now place n into.new) }
        ensures end { IfOk result (λ n. 0 < length into.new → EndsThere (clips self.old) name.now place n) }
        ensures cause { HasCause (faults self.old) (faults self.new) result };
}

// The bytes under the name.
fn find<'a>(clips: &'a BTreeMap<String, Vec<u8>>, name: &str) -> Option<&'a [u8]>
    ensures { option_copied result ≡ found_in (entries_of clips.now) name.now }
{
    match clips.get(name) {
        Some(bytes) => Some(bytes.as_slice()),
        None => None,
    }
}

// How many bytes are under the name.
pub(crate) fn length_in(clips: &BTreeMap<String, Vec<u8>>, name: &str) -> Option<u64>
    ensures { result ≡ length_at (found_in (entries_of clips.now)) name.now }
{
    match find(clips, name) {
        Some(bytes) => Some(bytes.len() as u64),
        None => None,
    }
}

// Copies bytes under the name from a place on, as many as there are or have room, and answers how many.
pub(crate) fn copy_from(
    clips: &BTreeMap<String, Vec<u8>>,
    name: &str,
    place: u64,
    into: &mut [u8],
) -> usize
    ensures count { result ≡ min (length into.old) (length (drop place (bytes_at (found_in (entries_of clips.now)) name.now))) }
    ensures copied { take result into.new ≡ take result (drop place (bytes_at (found_in (entries_of clips.now)) name.now)) }
{
    match find(clips, name) {
        Some(bytes) => copy_at(bytes, place, into),
        None => 0,
    }
}

// The same of bytes in hand.
fn copy_at(bytes: &[u8], place: u64, into: &mut [u8]) -> usize
    ensures count { result ≡ min (length into.old) (length (drop place bytes.now)) }
    ensures copied { take result into.new ≡ take result (drop place bytes.now) }
{
    if place > bytes.len() as u64 {
        return 0;
    }
    copy_next(bytes, place as usize, usize::MAX, into)
}

/// Clips in memory.
#[derive(Drop)]
pub struct MemClips {
    clips: BTreeMap<String, Vec<u8>>,
    fails: Vec<u64>,
    calls: u64,
    faults: u64,
}

impl Model for MemClips {
    ghost use Rattle.host_io.specs.Fakes.{MemClipsState};
    ghost use Rattle.host_io.specs.Clips.{entries_of};

    ghost Value = { MemClipsState };

    ghost view = { λ s. record {
      clips = entries_of s.clips;
      fails = s.fails.items;
      calls = s.calls;
      faults = s.faults;
    } };
}

impl MemClips {
    /// The clips by name. `fails` lists the calls, counted from 0, that fail.
    pub fn new(clips: BTreeMap<String, Vec<u8>>, fails: Vec<u64>) -> MemClips
        ensures { result ≡ record {
          clips = entries_of clips;
          fails = fails.items;
          calls = 0;
          faults = 0;
        } }
    {
        MemClips {
            clips,
            fails,
            calls: 0,
            faults: 0,
        }
    }

    // Counts a call, and a fault where the call is one that fails.
    fn begin(&mut self) -> Result<(), Failed>
        ensures fails { IsErr result ↔ Contains self.old.fails self.old.calls }
        ensures calls { self.new.calls ≡ next_count self.old.calls }
        ensures faults { OnErr result (self.new.faults ≡ next_count self.old.faults) }
        ensures cause { HasCause self.old.faults self.new.faults result }
        ensures settings { (self.new.clips ≡ self.old.clips) × (self.new.fails ≡ self.old.fails) }
    {
        let call = self.calls;
        self.calls = call.saturating_add(1);
        if self.fails.contains(&call) {
            self.faults = self.faults.saturating_add(1);
            return Err(Failed);
        }
        Ok(())
    }
}

impl ClipStore for MemClips {
    ghost clips = { λ s. Some (found_in s.clips) };

    ghost faults = { λ s. s.faults };

    fn length(&mut self, name: &str) -> Result<Option<u64>, Failed>
        ensures kept { Some (found_in self.new.clips) ≡ Some (found_in self.old.clips) }
        ensures told { IfOk result (λ answer. AnswersLength (Some (found_in self.old.clips)) name.now answer) }
        ensures cause { HasCause self.old.faults self.new.faults result }

        ensures fails { IsErr result ↔ Contains self.old.fails self.old.calls }
        ensures calls { self.new.calls ≡ next_count self.old.calls }
        ensures faults { OnErr result (self.new.faults ≡ next_count self.old.faults) }
        ensures settings { (self.new.clips ≡ self.old.clips) × (self.new.fails ≡ self.old.fails) }
    {
        self.begin()?;
        Ok(length_in(&self.clips, name))
    }

    fn read_at(&mut self, name: &str, place: u64, into: &mut [u8]) -> Result<usize, Failed>
        ensures bound { ReadsAtMost result into.new }
        ensures kept { Some (found_in self.new.clips) ≡ Some (found_in self.old.clips) }
        ensures told { IfOk result (λ n. AreBytesFrom (Some (found_in self.old.clips)) name.now place n into.new) }
        ensures end { IfOk result (λ n. 0 < length into.new → EndsThere (Some (found_in self.old.clips)) name.now place n) }
        ensures cause { HasCause self.old.faults self.new.faults result }

        ensures fails { IsErr result ↔ Contains self.old.fails self.old.calls }
        ensures count { IfOk result (λ n. n ≡ min (length into.old) (length (drop place (bytes_at (found_in self.old.clips) name.now)))) }
        ensures calls { self.new.calls ≡ next_count self.old.calls }
        ensures faults { OnErr result (self.new.faults ≡ next_count self.old.faults) }
        ensures settings { (self.new.clips ≡ self.old.clips) × (self.new.fails ≡ self.old.fails) }
    {
        self.begin()?;
        Ok(copy_from(&self.clips, name, place, into))
    }
}

/// Clips in memory whose calls never fail.
#[derive(Drop)]
pub struct NeverClips {
    clips: BTreeMap<String, Vec<u8>>,
}

impl Model for NeverClips {
    ghost use Rattle.host_io.specs.Fakes.{NeverClipsState};
    ghost use Rattle.host_io.specs.Clips.{entries_of};

    ghost Value = { NeverClipsState };

    ghost view = { λ s. record { clips = entries_of s.clips } };
}

impl NeverClips {
    /// The clips by name.
    pub fn new(clips: BTreeMap<String, Vec<u8>>) -> NeverClips
        ensures { result ≡ record { clips = entries_of clips } }
    {
        NeverClips { clips }
    }
}

impl ClipStore for NeverClips {
    ghost clips = { λ s. Some (found_in s.clips) };

    ghost faults = { λ _. 0 };

    fn length(&mut self, name: &str) -> Result<Option<u64>, Failed>
        ensures kept { Some (found_in self.new.clips) ≡ Some (found_in self.old.clips) }
        ensures told { IfOk result (λ answer. AnswersLength (Some (found_in self.old.clips)) name.now answer) }
        ensures cause { HasCause 0 0 result }

        ensures succeeds { IsOk result }
    {
        Ok(length_in(&self.clips, name))
    }

    fn read_at(&mut self, name: &str, place: u64, into: &mut [u8]) -> Result<usize, Failed>
        ensures bound { ReadsAtMost result into.new }
        ensures kept { Some (found_in self.new.clips) ≡ Some (found_in self.old.clips) }
        ensures told { IfOk result (λ n. AreBytesFrom (Some (found_in self.old.clips)) name.now place n into.new) }
        ensures end { IfOk result (λ n. 0 < length into.new → EndsThere (Some (found_in self.old.clips)) name.now place n) }
        ensures cause { HasCause 0 0 result }

        ensures succeeds { IsOk result }
        ensures count { IfOk result (λ n. n ≡ min (length into.old) (length (drop place (bytes_at (found_in self.old.clips) name.now)))) }
    {
        Ok(copy_from(&self.clips, name, place, into))
    }
}
