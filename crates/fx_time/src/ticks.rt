//! Ticks that are so many frames away. Their products may pass 64 bits, and fit 128.
ghost use Rattle.std.specs.Prelude.{◌≡◌, ◌<◌, ◌≤◌, ◌^◌, pos, ◌*ℤ◌, ◌≤ℤ◌, unsigned_abs};
ghost use Rattle.rational_time.specs.Times.{floor_of};
ghost use Rattle.fx_time.specs.Ticks.{frames_after, frames_before, span_start, want_at};

use effect_api::{Moment, Want};
use rational_time::held;

// The product of two numbers.
fn product(x: i64, y: i64) -> i128
    ensures value { result ≡ x *ℤ y }
    ensures bound { unsigned_abs result ≤ 2 ^ 126 }
{
    i128::from(x) * i128::from(y)
}

/// The tick that is so many frames after the moment, and before it where the number is negative.
pub(crate) fn frames_after(at: Moment, frames: i64) -> i128
    ensures { result ≡ frames_after at frames }
{
    i128::from(at.tick.0) + product(frames, at.frame)
}

/// The tick that is so many frames before the moment.
pub(crate) fn frames_before(at: Moment, frames: u32) -> i128
    ensures { result ≡ frames_before at frames }
{
    frames_after(at, -i64::from(frames))
}

// The last multiple of a span that is not after a tick.
fn multiple_before(tick: i64, span: i128) -> i128
    requires some { pos 1 ≤ℤ span }
    requires few { unsigned_abs span ≤ 2 ^ 126 }
    ensures { result ≡ span *ℤ floor_of tick span }
{
    span * i128::from(tick).div_euclid(span)
}

/// Where the moment's span of so many frames began.
pub(crate) fn span_start(at: Moment, frames: u32) -> i128
    requires some { 0 < frames }
    requires frame { pos 1 ≤ℤ at.frame }
    ensures { result ≡ span_start at frames }
{
    multiple_before(at.tick.0, product(i64::from(frames), at.frame))
}

/// The input at a tick, held to 36,000 seconds.
pub(crate) fn want_at(at: Moment, tick: i128) -> Want
    ensures { result ≡ want_at at tick }
{
    Want {
        input: 0,
        tick: held(at.base, tick),
    }
}
