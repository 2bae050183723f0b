ghost use Rattle.std.specs.Prelude.{unsigned_abs, ◌≡◌, ◌≢◌, ◌+◌, ◌≤◌, ◌<◌, ℕ, ℤ, pos, ◌≤ℤ◌, ◌<ℤ◌, length, slice_index_or, map, IfOk, MatchOption};
ghost use Rattle.std.specs.List.{All};
ghost use Rattle.param_stream.specs.declared.stream.StreamError.TheVariants.{Memory};
ghost use Rattle.param_stream.specs.Curve.{IsSound, IsTimed, IsBound, IsBetween, IsRising, IsFirstNotRising, IsFirstOutside, key_tick, value_at};

use crate::key::Keyframe;
use crate::share::value_between;
use rational_time::{Tick, TimeBase, to_tick};
use std::alloc::{AllocError, Global};
use std::marker::Model;
use thiserror::Error;

/// Why keyframes are no stream. The index is that of the first keyframe at fault.
#[derive(Clone, Copy, Debug, PartialEq, Eq, Error)]
pub enum StreamError {
    #[error("a stream has no keyframe")]
    Empty,
    #[error("keyframe {index} is not after the one before")]
    NotRising { index: usize },
    #[error("the value of keyframe {index} is out of range")]
    OutOfRange { index: usize },
    #[error("out of memory")]
    Memory,
}

/// A value over time: keyframes whose ticks rise. Before the first keyframe, and from the last one
/// on, the value is that keyframe's. This project's own.
#[derive(Drop)]
pub struct Stream {
    base: TimeBase,
    keys: Vec<Keyframe>,
    ticks: Vec<i64>,
    least: i64,
    most: i64,
}

impl Model for Stream {
    ghost use Rattle.param_stream.specs.Curve.{Curve};

    ghost Value = { Curve };

    ghost use Rattle.param_stream.specs.Streams.{curve_of, IsKept};

    ghost view = { curve_of };

    ghost invariant = { IsKept };
}

impl Stream {
    ghost use Rattle.param_stream.specs.Refusals.{Refuses};

    /// A stream of these keyframes, whose values are within the bounds. The scale of each
    /// keyframe's time is at least 1 and divides the base, and the time is at most 36,000 seconds
    /// from zero. Both bounds are within -2^40..=2^40.
    ///
    /// Refused are, in this order: no keyframe, the first keyframe whose tick is not above the one
    /// before, the first value outside the bounds, and want of memory.
    pub fn new(
        alloc: Global,
        base: TimeBase,
        keys: Vec<Keyframe>,
        least: i64,
        most: i64,
    ) -> Result<Stream, StreamError>
        requires timed { All (IsTimed base.ticks) keys.items }
        requires least { IsBound least }
        requires most { IsBound most }
        ensures stream { IfOk result (λ s. s ≡ record { base = base.ticks; keys = keys.items; least = least; most = most }) }
        ensures sound { IfOk result IsSound }
        ensures refused { (e : StreamError)
            → result ≡ Err e
            → Refuses e (record { base = base.ticks; keys = keys.items; least = least; most = most }) }
        ensures exactly { (e : StreamError)
            → e ≢ Memory
            → Refuses e (record { base = base.ticks; keys = keys.items; least = least; most = most })
            → result ≡ Err e }
    {
        if keys.is_empty() {
            return Err(StreamError::Empty);
        }
        if let Some(index) = first_not_rising(base, &keys) {
            return Err(StreamError::NotRising { index });
        }
        if let Some(index) = first_outside(&keys, least, most) {
            return Err(StreamError::OutOfRange { index });
        }
        match ticks_of(alloc, base, &keys) {
            Ok(ticks) => Ok(Stream {
                base,
                keys,
                ticks,
                least,
                most,
            }),
            Err(_) => Err(StreamError::Memory),
        }
    }

    /// The value at the tick.
    pub fn at(&self, tick: Tick) -> i64
        ensures value { result ≡ value_at self.now.base self.now.keys tick.0 }
        ensures within { IsBetween self.now.least self.now.most result }
    {
        let reached = count_reached(&self.ticks, tick.0);
        if reached == 0 {
            return self.keys[0].value;
        }
        let key = self.keys[reached - 1];
        if reached == self.keys.len() {
            return key.value;
        }
        let next = self.keys[reached];
        value_between(
            &key,
            &next,
            self.ticks[reached - 1],
            self.ticks[reached],
            tick.0,
        )
    }

    /// The keyframes, in order.
    pub fn keys(&self) -> &[Keyframe]
        ensures keys { result.now ≡ self.now.keys }
        ensures sound { IsSound self.now }
    {
        &self.keys
    }

    /// The base that it was made with.
    pub fn base(&self) -> TimeBase
        ensures { result.ticks ≡ self.now.base }
    {
        self.base
    }
}

// The first keyframe whose tick is not above the one before.
fn first_not_rising(base: TimeBase, keys: &[Keyframe]) -> Option<usize>
    requires { All (IsTimed base.ticks) keys.now }
    ensures { MatchOption result (IsRising base.ticks keys.now) (λ index. (i : ℕ) × (index ≡ i + 1) × IsFirstNotRising base.ticks keys.now i) }
{
    for index in 1..keys.len() {
        let before = to_tick(base, keys[index - 1].time);
        if to_tick(base, keys[index].time).0 <= before.0 {
            return Some(index);
        }
    }
    None
}

// The first keyframe whose value is outside the bounds.
fn first_outside(keys: &[Keyframe], least: i64, most: i64) -> Option<usize>
    ensures { MatchOption result (All (λ key. IsBetween least most key.value) keys.now) (IsFirstOutside keys.now least most) }
{
    for (index, key) in keys.iter().enumerate() {
        if key.value < least || most < key.value {
            return Some(index);
        }
    }
    None
}

// The tick of each keyframe.
fn ticks_of(alloc: Global, base: TimeBase, keys: &[Keyframe]) -> Result<Vec<i64>, AllocError>
    requires { All (IsTimed base.ticks) keys.now }
    ensures { IfOk result (λ ticks. ticks.items ≡ map (key_tick base.ticks) keys.now) }
{
    let mut ticks = Vec::with_capacity(alloc, keys.len())?;
    for key in keys {
        ticks.push(to_tick(base, key.time).0)?;
    }
    Ok(ticks)
}

// How many of the ticks, which rise, are at or before this one, by halving.
fn count_reached(ticks: &[i64], tick: i64) -> usize
    requires { (i j : ℕ) → i ≤ j → j < length ticks.now → slice_index_or ticks.now i (pos 0) ≤ℤ slice_index_or ticks.now j (pos 0) }
    ensures within { result ≤ length ticks.now }
    ensures below { (i : ℕ) → i < result → slice_index_or ticks.now i (pos 0) ≤ℤ tick }
    ensures above { (i : ℕ) → result ≤ i → i < length ticks.now → tick <ℤ slice_index_or ticks.now i (pos 0) }
{
    let mut low = 0;
    let mut high = ticks.len();
    while low < high {
        let middle = low + (high - low) / 2;
        if ticks[middle] <= tick {
            low = middle + 1;
        } else {
            high = middle;
        }
    }
    low
}
