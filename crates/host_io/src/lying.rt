//! A clip store that says more than it holds.
ghost use Rattle.std.specs.Prelude.{◌≡◌, ◌+◌, ◌≤◌, ◌<◌, ℕ, length, take, drop, min, IsOk, IfOk};
ghost use Rattle.std.specs.Io.{ReadsAtMost};
ghost use Rattle.std.specs.List.{All};
ghost use Rattle.std.specs.Option.{option_map};
ghost use Rattle.host_io.specs.Cause.{HasCause, last_count};
ghost use Rattle.host_io.specs.Clips.{AnswersLength, AreBytesFrom, EndsThere, found_in, bytes_at, length_at, entries_of, untold};

use crate::Failed;
use crate::clips::{ClipStore, copy_from, length_in};
use std::collections::BTreeMap;
use std::marker::Model;

/// Clips in memory, each said to be longer than it is by so many bytes. No call fails, and nothing is told of the bytes.
/// For tests of what a store may do that hands out less than it said.
#[derive(Drop)]
pub struct LyingClips {
    clips: BTreeMap<String, Vec<u8>>,
    more: u64,
}

impl Model for LyingClips {
    ghost use Rattle.host_io.specs.Fakes.{LyingClipsState, HasRoom};
    ghost use Rattle.host_io.specs.Clips.{entries_of};

    ghost Value = { LyingClipsState };

    ghost view = { λ s. record { clips = entries_of s.clips; more = s.more } };

    ghost invariant = { λ s. HasRoom s.more (entries_of s.clips) };
}

impl LyingClips {
    /// The clips by name, and how many bytes more each is said to have. Each length with these is a u64.
    pub fn new(clips: BTreeMap<String, Vec<u8>>, more: u64) -> LyingClips
        requires { All (λ entry. length entry.1 + more ≤ last_count) (entries_of clips) }
        ensures { result ≡ record { clips = entries_of clips; more = more } }
    {
        LyingClips { clips, more }
    }
}

impl ClipStore for LyingClips {
    ghost clips = { λ _. untold };

    ghost faults = { λ _. 0 };

    fn length(&mut self, name: &str) -> Result<Option<u64>, Failed>
        ensures kept { untold ≡ untold }
        ensures told { IfOk result (λ answer. AnswersLength untold name.now answer) }
        ensures cause { HasCause 0 0 result }

        ensures succeeds { IsOk result }
        ensures longer { IfOk result (λ answer. answer ≡ option_map (λ true_length. true_length + self.old.more) (length_at (found_in self.old.clips) name.now)) }
        ensures same { self.new ≡ self.old }
    {
        match length_in(&self.clips, name) {
            Some(length) => Ok(Some(length + self.more)),
            None => Ok(None),
        }
    }

    fn read_at(&mut self, name: &str, place: u64, into: &mut [u8]) -> Result<usize, Failed>
        ensures bound { ReadsAtMost result into.new }
        ensures kept { untold ≡ untold }
        ensures told { IfOk result (λ n. AreBytesFrom untold name.now place n into.new) }
        ensures end { IfOk result (λ n. 0 < length into.new → EndsThere untold name.now place n) }
        ensures cause { HasCause 0 0 result }

        ensures succeeds { IsOk result }
        ensures count { IfOk result (λ n. n ≡ min (length into.old) (length (drop place (bytes_at (found_in self.old.clips) name.now)))) }
        ensures copied { IfOk result (λ n. take n into.new ≡ take n (drop place (bytes_at (found_in self.old.clips) name.now))) }
        ensures same { self.new ≡ self.old }
    {
        Ok(copy_from(&self.clips, name, place, into))
    }
}
