ghost use Rattle.std.specs.Prelude.{◌≡◌, ◌<◌, ◌+◌, ◌≤◌, length, map, IfOk, OnOk};
ghost use Rattle.std.specs.List.{range_with_len};
ghost use Rattle.geom_rect.specs.Rect.{width_of};
ghost use Rattle.argb_pixel.specs.Depth.{IsDepth};
ghost use Rattle.argb_world.specs.Picture.{SameExtentAndPart};
ghost use Rattle.comp_stack.specs.Layers.{plane_of};
ghost use Rattle.project_model.specs.Effects.{use_of};
ghost use Rattle.effect_api.specs.Fits.{IsBased, FitsSchema};
ghost use Rattle.effect_api.specs.Checked.{planes_of, AreChecked};
ghost use Rattle.effect_api.specs.Effects.{Shows};
ghost use Rattle.fx_time.specs.Formulas.{echoed_at, difference_at, time_mean_at};
ghost use Rattle.fx_time.specs.Worlds.{planes_in, strength_in, AreParts};
ghost use Rattle.fx_time.specs.Time.{echo_schema, time_schema, time_wants, time_draws, strength_of};

use crate::difference::Difference;
use crate::echo::Echoed;
use crate::kind::TimeKind;
use crate::mean::TimeMeans;
use crate::rows::{byte_room, draw_rows, width};
use crate::sums::Sums;
use crate::wants::{strength_of, want_count};
use argb_pixel::Transparent;
use argb_world::World;
use compute_cache::Keeps;
use effect_api::{Checkouts, Moment, Value};
use geom_rect::Rect;
use host_io::Memory;
use project_model::FxUse;
use std::alloc::Global;

// The worlds that were checked out, in order.
fn worlds_of<'a, const MAX: u32, K: Keeps<Value = Value<MAX>>>(
    alloc: Global,
    pixels: &'a Checkouts<MAX, K>,
    count: u32,
) -> Result<Vec<&'a World<MAX>>, Memory>
    requires { length pixels.now.pairs ≡ count }
    ensures planes { IfOk result (λ worlds. planes_in worlds.items ≡ planes_of pixels.now.pairs) }
    ensures many { IfOk result (λ worlds. length worlds.items ≡ count) }
{
    let mut worlds = Vec::new(alloc);
    for k in 0..count {
        worlds.push(pixels.checkout_want(k))?;
    }
    Ok(worlds)
}

// The strengths of so many echoes, from the first on.
fn strengths_of(alloc: Global, fx: &FxUse, at: Moment, count: u32) -> Result<Vec<u32>, Memory>
    requires based { IsBased fx.now at }
    requires fits { FitsSchema echo_schema (use_of fx.now) }
    requires few { count < 9 }
    ensures values { IfOk result (λ strengths. strengths.items ≡ map (λ i. strength_of (use_of fx.now) at (i + 1)) (range_with_len 0 count)) }
    ensures parts { IfOk result (λ strengths. AreParts strengths.items) }
    ensures many { IfOk result (λ strengths. length strengths.items ≡ count) }
{
    let mut strengths = Vec::new(alloc);
    for i in 0..count {
        strengths.push(strength_of(fx, at, i + 1))?;
    }
    Ok(strengths)
}

// Room for the sums of a row.
fn sum_room(alloc: Global, part: Rect) -> Result<Vec<Sums>, Memory>
    ensures { IfOk result (λ sums. length sums.items ≡ width_of part) }
{
    Ok(vec![in alloc; Sums::CLEAR; width(part)]?)
}

// The first of the worlds over the others, which have these strengths.
fn draw_echoes<const MAX: u32>(
    alloc: Global,
    worlds: &[&World<MAX>],
    strengths: &[u32],
    target: &mut World<MAX>,
) -> Result<(), Memory>
    requires depth { IsDepth MAX }
    requires one_each { length worlds.now ≡ length strengths.now + 1 }
    requires parts { AreParts strengths.now }
    ensures frame { SameExtentAndPart target.old target.new }
    ensures drawn { OnOk result (Shows target.old.part
        (echoed_at MAX (length strengths.now) (strength_in strengths.now) (planes_in worlds.now)) target.new) }
{
    let mut spare = byte_room::<MAX>(alloc, target.part())?;
    let mut into = byte_room::<MAX>(alloc, target.part())?;
    draw_rows(&Echoed { worlds, strengths }, target, &mut spare, &mut into);
    Ok(())
}

// How far two worlds are apart.
fn draw_difference<const MAX: u32>(
    alloc: Global,
    first: &World<MAX>,
    second: &World<MAX>,
    target: &mut World<MAX>,
) -> Result<(), Memory>
    requires depth { IsDepth MAX }
    ensures frame { SameExtentAndPart target.old target.new }
    ensures drawn { OnOk result (Shows target.old.part (difference_at (plane_of first.now) (plane_of second.now)) target.new) }
{
    let mut spare = byte_room::<MAX>(alloc, target.part())?;
    let mut into = byte_room::<MAX>(alloc, target.part())?;
    draw_rows(&Difference { first, second }, target, &mut spare, &mut into);
    Ok(())
}

// The mean of the worlds.
fn draw_mean<const MAX: u32>(
    alloc: Global,
    worlds: &[&World<MAX>],
    target: &mut World<MAX>,
) -> Result<(), Memory>
    requires depth { IsDepth MAX }
    requires some { 1 ≤ length worlds.now }
    requires few { length worlds.now ≤ 16 }
    ensures frame { SameExtentAndPart target.old target.new }
    ensures drawn { OnOk result (Shows target.old.part (time_mean_at (length worlds.now) (planes_in worlds.now)) target.new) }
{
    let mut spare = sum_room(alloc, target.part())?;
    let mut into = byte_room::<MAX>(alloc, target.part())?;
    draw_rows(&TimeMeans { worlds }, target, &mut spare, &mut into);
    Ok(())
}

// Each point of the target's part becomes what is there in another picture.
fn draw_copy<const MAX: u32>(from: &World<MAX>, target: &mut World<MAX>)
    ensures frame { SameExtentAndPart target.old target.new }
    ensures drawn { Shows target.old.part (plane_of from.now).at target.new }
{
    target.copy_from(from);
}

/// Each point of the target's part becomes what an effect of time draws there from the pixels that were checked out. Echo draws
/// the picture at the moment over its echoes in Normal mode, the last of them lowest; each is scaled by `strength` at its own
/// tick, each channel to the nearest number, as an opacity does. PosterizeTime draws the picture that it wants,
/// FrameDifference the absolute difference of each colour under the greater alpha, TimeMean the mean of each channel to the
/// nearest number, a half up. The kind is given apart from the use, which has what the schema of that kind asks for: a set that
/// is made of others numbers their kinds anew. It takes memory for a few rows. All of these are this project's own.
pub fn draw_time<const MAX: u32, K: Keeps<Value = Value<MAX>>>(
    alloc: Global,
    kind: TimeKind,
    fx: &FxUse,
    at: Moment,
    pixels: &Checkouts<MAX, K>,
    target: &mut World<MAX>,
) -> Result<(), Memory>
    requires depth { IsDepth MAX }
    requires fits { FitsSchema (time_schema kind) (use_of fx.now) }
    requires based { IsBased fx.now at }
    requires pixels { AreChecked (time_wants kind (use_of fx.now) at) at pixels.now.pairs }
    ensures frame { SameExtentAndPart target.old target.new }
    ensures drawn { OnOk result (Shows target.old.part (time_draws MAX kind (use_of fx.now) at (planes_of pixels.now.pairs)) target.new) }
{
    let count = want_count(kind, fx, at);
    match kind {
        TimeKind::Echo => {
            let worlds = worlds_of(alloc, pixels, count)?;
            let strengths = strengths_of(alloc, fx, at, count - 1)?;
            draw_echoes(alloc, &worlds, &strengths, target)
        }
        TimeKind::PosterizeTime => {
            draw_copy(pixels.checkout_want(0), target);
            Ok(())
        }
        TimeKind::FrameDifference => {
            let first = pixels.checkout_want(0);
            draw_difference(alloc, first, pixels.checkout_want(1), target)
        }
        TimeKind::TimeMean => {
            let worlds = worlds_of(alloc, pixels, count)?;
            draw_mean(alloc, &worlds, target)
        }
    }
}
