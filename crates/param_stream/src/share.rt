//! The value between two keyframes.

ghost use Rattle.std.specs.Prelude.{◌≡◌, ◌≤◌, ◌<◌, ◌^◌, ℤ, pos, ◌*ℤ◌, ◌-ℤ◌, ◌≤ℤ◌, ◌<ℤ◌, unsigned_abs};
ghost use Rattle.rational_time.specs.Times.{floor_of};
ghost use Rattle.param_stream.specs.Curve.{eased_part as eased_part_of, value_between as value_between_of, IsBound};
ghost use Rattle.param_stream.specs.Share.{IsShare};

use crate::key::{Ease, Keyframe};

/// How many parts an eased change has.
const PARTS: u64 = 65536;

/// The value at a tick between two neighbouring keyframes, which stand at `start` and `end`.
pub fn value_between(key: &Keyframe, next: &Keyframe, start: i64, end: i64, tick: i64) -> i64
    requires from { IsBound key.now.value }
    requires to { IsBound next.now.value }
    requires start { unsigned_abs start ≤ 2 ^ 48 }
    requires end { unsigned_abs end ≤ 2 ^ 48 }
    requires reached { start ≤ℤ tick }
    requires before { tick <ℤ end }
    ensures { result ≡ value_between_of key.now.kind key.now.value next.now.value (tick -ℤ start) (end -ℤ start) }
{
    let run = (tick - start) as u64;
    let span = (end - start) as u64;
    let change = next.value - key.value;
    match key.kind {
        Ease::Hold => key.value,
        Ease::Linear => key.value + share(change, run, span),
        Ease::Smooth => key.value + share(change, eased_part(run, span), PARTS),
    }
}

// That share of a change, rounded towards minus infinity.
fn share(change: i64, part: u64, whole: u64) -> i64
    requires change { unsigned_abs change ≤ 2 ^ 41 }
    requires part { part ≤ whole }
    requires some { 1 ≤ whole }
    requires whole { whole ≤ 2 ^ 50 }
    ensures share { IsShare change result }
    ensures value { result ≡ floor_of (change *ℤ pos part) (pos whole) }
{
    (i128::from(change) * i128::from(part)).div_euclid(i128::from(whole)) as i64
}

// How many of the parts of an eased change are over: slow at both ends.
fn eased_part(run: u64, span: u64) -> u64
    requires inside { run < span }
    requires span { span ≤ 2 ^ 50 }
    ensures most { result ≤ 65536 }
    ensures value { pos result ≡ eased_part_of (pos run) (pos span) }
{
    let u = (u128::from(PARTS) * u128::from(run) / u128::from(span)) as u64;
    u * u * (3 * PARTS - 2 * u) / (PARTS * PARTS)
}
