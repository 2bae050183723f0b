ghost use Rattle.std.specs.Prelude.{◌≡◌, ◌<◌, ◌≤◌, pos, ◌-ℤ◌, ◌≤ℤ◌, IfOk};
ghost use Rattle.project_model.specs.Effects.{use_of};
ghost use Rattle.effect_api.specs.Fits.{IsBased, FitsSchema};
ghost use Rattle.fx_time.specs.declared.kind.TimeKind.TheVariants.{Echo};
ghost use Rattle.fx_time.specs.Time.{echo_schema, time_schema, want_count, seen_tick, want_of, time_wants, strength_of};

use crate::kind::TimeKind;
use crate::params::{count_at, delay_at, gap_at, radius_at, step_at, strength_at};
use crate::ticks::{frames_after, frames_before, span_start, want_at};
use effect_api::{Moment, Want};
use host_io::Memory;
use project_model::FxUse;
use std::alloc::Global;

/// How many wants there are: one, and with echoes or a mean more.
pub(crate) fn want_count(kind: TimeKind, fx: &FxUse, at: Moment) -> u32
    requires based { IsBased fx.now at }
    requires fits { FitsSchema (time_schema kind) (use_of fx.now) }
    ensures value { result ≡ want_count kind (use_of fx.now) at }
    ensures few { result < 10 }
{
    match kind {
        TimeKind::Echo => count_at(fx, at) + 1,
        TimeKind::PosterizeTime => 1,
        TimeKind::FrameDifference => 2,
        TimeKind::TimeMean => 2 * radius_at(fx, at) + 1,
    }
}

// The tick of an echo, before it is held.
fn echo_tick(fx: &FxUse, at: Moment, k: u32) -> i128
    requires based { IsBased fx.now at }
    requires fits { FitsSchema echo_schema (use_of fx.now) }
    requires few { k < 10 }
    ensures { result ≡ seen_tick Echo (use_of fx.now) at k }
{
    frames_before(at, k * delay_at(fx, at))
}

// How far a number is above another.
fn apart(k: u32, radius: u32) -> i64
    ensures { result ≡ pos k -ℤ pos radius }
{
    i64::from(k) - i64::from(radius)
}

// The tick of the want with a number, before it is held.
fn seen_tick(kind: TimeKind, fx: &FxUse, at: Moment, k: u32) -> i128
    requires based { IsBased fx.now at }
    requires fits { FitsSchema (time_schema kind) (use_of fx.now) }
    requires frame { pos 1 ≤ℤ at.frame }
    requires few { k < 10 }
    ensures { result ≡ seen_tick kind (use_of fx.now) at k }
{
    match kind {
        TimeKind::Echo => echo_tick(fx, at, k),
        TimeKind::PosterizeTime => span_start(at, step_at(fx, at)),
        TimeKind::FrameDifference => frames_before(at, k * gap_at(fx, at)),
        TimeKind::TimeMean => frames_after(at, apart(k, radius_at(fx, at))),
    }
}

// The want with a number.
fn want_of(kind: TimeKind, fx: &FxUse, at: Moment, k: u32) -> Want
    requires based { IsBased fx.now at }
    requires fits { FitsSchema (time_schema kind) (use_of fx.now) }
    requires frame { pos 1 ≤ℤ at.frame }
    requires few { k < 10 }
    ensures { result ≡ want_of kind (use_of fx.now) at k }
{
    want_at(at, seen_tick(kind, fx, at, k))
}

/// The planes that an effect of time draws from: the input at several ticks, each held to 36,000 seconds. Echo wants it at the
/// moment and, for each echo, `delay` frames before the one nearer to the moment. PosterizeTime wants it where the moment's
/// span of `step` frames began; spans are counted from tick 0 both ways. FrameDifference wants it at the moment and `gap`
/// frames before, TimeMean from `radius` frames before to as many after. A frame has at least one tick. All of these are this
/// project's own.
pub fn time_wants(
    alloc: Global,
    kind: TimeKind,
    fx: &FxUse,
    at: Moment,
) -> Result<Vec<Want>, Memory>
    requires based { IsBased fx.now at }
    requires fits { FitsSchema (time_schema kind) (use_of fx.now) }
    requires frame { pos 1 ≤ℤ at.frame }
    ensures { IfOk result (λ list. list.items ≡ time_wants kind (use_of fx.now) at) }
{
    let mut wants = Vec::new(alloc);
    for k in 0..want_count(kind, fx, at) {
        wants.push(want_of(kind, fx, at, k))?;
    }
    Ok(wants)
}

/// How strong an echo is: the strength at its own tick, in 1/10000.
pub(crate) fn strength_of(fx: &FxUse, at: Moment, k: u32) -> u32
    requires based { IsBased fx.now at }
    requires fits { FitsSchema echo_schema (use_of fx.now) }
    requires few { k < 10 }
    ensures value { result ≡ strength_of (use_of fx.now) at k }
    ensures part { result ≤ 10000 }
{
    let own = want_at(at, echo_tick(fx, at, k));
    strength_at(fx, at, own.tick)
}
