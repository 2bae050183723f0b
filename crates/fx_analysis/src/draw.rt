ghost use Rattle.std.specs.Prelude.{◌≡◌, ◌≤◌, ◌<◌, ◌^◌, length, sum_by, OnOk};
ghost use Rattle.std.specs.List.{All};
ghost use Rattle.argb_pixel.specs.Depth.{IsDepth};
ghost use Rattle.argb_world.specs.Picture.{SameExtentAndPart};
ghost use Rattle.comp_stack.specs.Layers.{plane_of};
ghost use Rattle.project_model.specs.Effects.{use_of};
ghost use Rattle.effect_api.specs.Fits.{IsBased, FitsSchema};
ghost use Rattle.effect_api.specs.Checked.{IsSumsValue, value_sums, planes_of, sums_in, AreChecked, AreSums};
ghost use Rattle.effect_api.specs.Effects.{Shows};
ghost use Rattle.effect_api.specs.Own.{own_wants};
ghost use Rattle.fx_analysis.specs.Sums.{analysis_sums};
ghost use Rattle.fx_analysis.specs.Formulas.{sums_at, number_in};
ghost use Rattle.fx_analysis.specs.Analysis.{analysis_schema, analysis_asks, analysis_draws, adjusted};
ghost use Rattle.fx_analysis.specs.Counts.{IsLight};

use crate::deflicker::deflicker_world;
use crate::equalize::equalize_world;
use crate::kind::AnalysisKind;
use crate::levels::level_world;
use crate::light::Light;
use crate::params::{clip_at, radius_at};
use argb_world::World;
use compute_cache::{Keeps, Receipt};
use effect_api::{Checkouts, Moment, Value};
use host_io::Memory;
use project_model::FxUse;
use std::alloc::Global;

// The sums of a receipt.
fn sums_of<const MAX: u32, K: Keeps<Value = Value<MAX>>>(receipt: &Receipt<K>) -> &[u64]
    requires { IsSumsValue receipt.now.value }
    ensures { result.now ≡ value_sums receipt.now.value }
{
    match receipt.value() {
        Value::Plane(_) => unreachable!(),
        Value::Sums(sums) => sums.as_slice(),
    }
}

// The sums of the ask with a number.
fn sums_at<const MAX: u32, K: Keeps<Value = Value<MAX>>>(sums: &[Receipt<K>], i: usize) -> &[u64]
    requires there { i < length sums.now }
    requires receipts { All (λ receipt. IsSumsValue receipt.value) sums.now }
    ensures { result.now ≡ sums_at (sums_in sums.now) i }
{
    sums_of(&sums[i])
}

// The light of the ask with a number.
fn light_at<const MAX: u32, K: Keeps<Value = Value<MAX>>>(sums: &[Receipt<K>], i: usize) -> Light
    requires there { i < length sums.now }
    requires receipts { All (λ receipt. IsSumsValue receipt.value) sums.now }
    requires lights { All IsLight (sums_in sums.now) }
    ensures luma { result.luma ≡ number_in (sums_at (sums_in sums.now) i) 0 }
    ensures alpha { result.alpha ≡ number_in (sums_at (sums_in sums.now) i) 1 }
    ensures light { IsLight (sums_at (sums_in sums.now) i) }
{
    let light = sums_at(sums, i);
    Light {
        luma: light[0],
        alpha: light[1],
    }
}

// The light of all asks together.
fn all_light<const MAX: u32, K: Keeps<Value = Value<MAX>>>(sums: &[Receipt<K>]) -> Light
    requires few { length sums.now ≤ 16 }
    requires receipts { All (λ receipt. IsSumsValue receipt.value) sums.now }
    requires lights { All IsLight (sums_in sums.now) }
    ensures luma { result.luma ≡ sum_by (λ light. number_in light 0) (sums_in sums.now) }
    ensures alpha { result.alpha ≡ sum_by (λ light. number_in light 1) (sums_in sums.now) }
    ensures within { result.luma ≤ 2 ^ 48 }
{
    let mut luma = 0u64;
    let mut alpha = 0u64;
    for i in 0..sums.len() {
        let light = light_at(sums, i);
        luma += light.luma;
        alpha += light.alpha;
    }
    Light { luma, alpha }
}

// Each point of the target's part becomes what a pixel of another picture is adjusted to.
fn draw_adjusted<const MAX: u32, K: Keeps<Value = Value<MAX>>>(
    alloc: Global,
    kind: AnalysisKind,
    fx: &FxUse,
    at: Moment,
    from: &World<MAX>,
    sums: &[Receipt<K>],
    target: &mut World<MAX>,
) -> Result<(), Memory>
    requires depth { IsDepth MAX }
    requires fits { FitsSchema (analysis_schema kind) (use_of fx.now) }
    requires based { IsBased fx.now at }
    requires receipts { All (λ receipt. IsSumsValue receipt.value) sums.now }
    requires sums { AreSums MAX analysis_sums (analysis_asks kind (use_of fx.now) at) (sums_in sums.now) }
    ensures frame { SameExtentAndPart target.old target.new }
    ensures drawn { OnOk result (Shows target.old.part (λ x y. adjusted kind (use_of fx.now) at (sums_in sums.now) ((plane_of from.now).at x y)) target.new) }
{
    match kind {
        AnalysisKind::AutoLevels => {
            level_world(alloc, clip_at(fx, at), sums_at(sums, 0), from, target)
        }
        AnalysisKind::Equalize => equalize_world(alloc, sums_at(sums, 0), from, target),
        AnalysisKind::Deflicker => {
            let middle = light_at(sums, radius_at(fx, at) as usize);
            let all = all_light(sums);
            deflicker_world(alloc, all, middle, from, target)
        }
    }
}

/// Each point of the target's part becomes what an effect draws there from the input that was checked out and from the sums
/// that were asked for. Alpha stays. The kind is given apart from the use, which has what the schema of that kind asks for: a
/// set that is made of others numbers their kinds anew. It takes memory for a row and a table.
pub fn draw_analysis<const MAX: u32, K: Keeps<Value = Value<MAX>>>(
    alloc: Global,
    kind: AnalysisKind,
    fx: &FxUse,
    at: Moment,
    pixels: &Checkouts<MAX, K>,
    sums: &[Receipt<K>],
    target: &mut World<MAX>,
) -> Result<(), Memory>
    requires depth { IsDepth MAX }
    requires fits { FitsSchema (analysis_schema kind) (use_of fx.now) }
    requires based { IsBased fx.now at }
    requires pixels { AreChecked (own_wants at) at pixels.now.pairs }
    requires receipts { All (λ receipt. IsSumsValue receipt.value) sums.now }
    requires sums { AreSums MAX analysis_sums (analysis_asks kind (use_of fx.now) at) (sums_in sums.now) }
    ensures frame { SameExtentAndPart target.old target.new }
    ensures drawn { OnOk result (Shows target.old.part
        (analysis_draws MAX kind (use_of fx.now) at (planes_of pixels.now.pairs) (sums_in sums.now)) target.new) }
{
    let input = pixels.checkout_want(0);
    let _part = input.part();
    draw_adjusted(alloc, kind, fx, at, input, sums, target)
}
