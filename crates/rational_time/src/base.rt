ghost use Rattle.std.specs.Prelude.{◌≡◌, ◌↔◌, ◌≤◌, ◌<◌, ◌^◌, ℕ, [], IfOk, IsTrue, MatchOption};
ghost use Rattle.std.specs.Int.{◌∣◌};
ghost use Rattle.std.specs.List.{All};
ghost use Rattle.rational_time.specs.Times.{IsBaseOf, Refuses, IsNear, common_base};
ghost use Rattle.rational_time.specs.Measure.{IsMeasure};

use crate::time::{GREATEST_BASE, Time, TimeBase, is_near};
use thiserror::Error;

/// Why times have no common base. The index is that of the first time at fault.
#[derive(Clone, Copy, Debug, PartialEq, Eq, Error)]
pub enum TimeError {
    #[error("time {index} has a scale of zero")]
    ZeroScale { index: usize },
    #[error("the base of the times up to time {index} is too large")]
    BaseTooLarge { index: usize },
    #[error("time {index} is more than 36000 seconds from zero")]
    TimeTooFar { index: usize },
}

/// The least common multiple of the scales, and 1 for no times: a number of ticks a second in
/// which each of the times is a whole number. This project's own.
///
/// The first time at fault is answered, and of its faults the first of these: its scale is 0, it
/// is more than 36,000 seconds from zero, or the multiple up to and with its scale exceeds
/// 2147483647.
pub fn base_of(times: &[Time]) -> Result<TimeBase, TimeError>
    ensures base { IfOk result (λ base. IsBaseOf times.now base.ticks) }
    ensures value { IfOk result (λ base. base.ticks ≡ common_base times.now) }
    ensures refused { (e : TimeError) → ((result ≡ Err e) ↔ Refuses e times.now) }
{
    let mut ticks: u32 = 1;
    for (index, time) in times.iter().enumerate() {
        if time.scale == 0 {
            return Err(TimeError::ZeroScale { index });
        }
        let near = is_near(*time);
        if !near {
            return Err(TimeError::TimeTooFar { index });
        }
        let multiple = common_multiple(ticks, time.scale);
        if multiple > GREATEST_BASE {
            return Err(TimeError::BaseTooLarge { index });
        }
        ticks = multiple as u32;
    }
    Ok(TimeBase { ticks })
}

/// The least common multiple of the scales, and 1 for no times, where it is at most 2147483647,
/// however far the times are from zero. No scale is 0. This project's own.
pub fn common_base(times: &[Time]) -> Option<TimeBase>
    requires { All (λ time. 1 ≤ time.scale) times.now }
    ensures base { MatchOption result (GREATEST_BASE < common_base times.now) (λ base. base.ticks ≡ common_base times.now) }
    ensures small { MatchOption result (GREATEST_BASE < common_base times.now) (λ base. base.ticks ≤ GREATEST_BASE) }
{
    let mut base = TimeBase { ticks: 1 };
    for time in times {
        let with_time = common_multiple(base.ticks, time.scale);
        if with_time > GREATEST_BASE {
            return None;
        }
        base.ticks = with_time as u32;
    }
    Some(base)
}

// The least common multiple of two numbers.
fn common_multiple(a: u32, b: u32) -> u64
    requires first { 1 ≤ a }
    requires second { 1 ≤ b }
    ensures first { a ∣ result }
    ensures second { b ∣ result }
    ensures least { (m : ℕ) → a ∣ m → b ∣ m → result ∣ m }
    ensures positive { 1 ≤ result }
{
    u64::from(a / common_measure(a, b)) * u64::from(b)
}

// The greatest common divisor of two numbers, by Euclid.
fn common_measure(a: u32, b: u32) -> u32
    ensures { IsMeasure a b result }
{
    let (mut x, mut y) = (a, b);
    while y != 0 {
        let rest = x % y;
        x = y;
        y = rest;
    }
    x
}
