ghost use Rattle.std.specs.Prelude.{◌≡◌, ◌≤◌, ◌^◌, pos, ◌+ℤ◌, ◌-ℤ◌, ◌*ℤ◌, unsigned_abs, IfOk};
ghost use Rattle.project_model.specs.Effects.{use_of};
ghost use Rattle.effect_api.specs.Fits.{IsBased, FitsSchema};
ghost use Rattle.fx_analysis.specs.Analysis.{analysis_schema, analysis_asks, asked, histogram_asks, light_asks, tick_after};

use crate::kind::AnalysisKind;
use crate::params::radius_at;
use effect_api::{Ask, Moment, Want};
use host_io::Memory;
use project_model::FxUse;
use rational_time::{Tick, held};
use std::alloc::Global;

// A class's question of the input at a tick.
fn asked(class: u8, tick: Tick) -> Ask
    ensures { result ≡ asked class tick }
{
    Ask {
        class,
        ask: 0,
        want: Want { input: 0, tick },
    }
}

// A product of two numbers.
fn exact_product(x: i64, y: i64) -> i128
    ensures { result ≡ x *ℤ y }
{
    x as i128 * y as i128
}

// The same, with a bound.
fn product(x: i64, y: i64) -> i128
    ensures value { result ≡ x *ℤ y }
    ensures bound { unsigned_abs result ≤ 2 ^ 126 }
{
    exact_product(x, y)
}

// A number and a product.
fn sum(x: i64, y: i128) -> i128
    requires { unsigned_abs y ≤ 2 ^ 126 }
    ensures { result ≡ x +ℤ y }
{
    x as i128 + y
}

// A number less another.
fn difference(i: u32, radius: u32) -> i64
    ensures { result ≡ pos i -ℤ pos radius }
{
    i as i64 - radius as i64
}

// The tick that is number `i` of those around the moment, one in each frame.
fn tick_around(at: Moment, radius: u32, i: u32) -> Tick
    ensures { result ≡ tick_after at (pos i -ℤ pos radius) }
{
    let ticks = product(difference(i, radius), at.frame);
    held(at.base, sum(at.tick.0, ticks))
}

// The histogram of the input.
fn histogram_asks(alloc: Global, at: Moment) -> Result<Vec<Ask>, Memory>
    ensures { IfOk result (λ list. list.items ≡ histogram_asks at) }
{
    let mut asks = Vec::new(alloc);
    asks.push(asked(1, at.tick))?;
    Ok(asks)
}

// The light of the input in the frames around the moment's.
fn light_asks(alloc: Global, radius: u32, at: Moment) -> Result<Vec<Ask>, Memory>
    requires { radius ≤ 4 }
    ensures { IfOk result (λ list. list.items ≡ light_asks radius at) }
{
    let mut asks = Vec::new(alloc);
    for i in 0..2 * radius + 1 {
        asks.push(asked(2, tick_around(at, radius, i)))?;
    }
    Ok(asks)
}

/// The analyses that an effect draws from: AutoLevels and Equalize from the histogram of their input at the moment's tick,
/// Deflicker from the light of its input in the frames around, the earliest first, at held ticks. The kind is given apart from
/// the use, which has what the schema of that kind asks for: a set that is made of others numbers their kinds anew.
pub fn analysis_asks(
    alloc: Global,
    kind: AnalysisKind,
    fx: &FxUse,
    at: Moment,
) -> Result<Vec<Ask>, Memory>
    requires fits { FitsSchema (analysis_schema kind) (use_of fx.now) }
    requires based { IsBased fx.now at }
    ensures { IfOk result (λ list. list.items ≡ analysis_asks kind (use_of fx.now) at) }
{
    match kind {
        AnalysisKind::AutoLevels => histogram_asks(alloc, at),
        AnalysisKind::Equalize => histogram_asks(alloc, at),
        AnalysisKind::Deflicker => light_asks(alloc, radius_at(fx, at), at),
    }
}
