ghost use Rattle.std.specs.Prelude.{◌≡◌, OnOk};
ghost use Rattle.argb_pixel.specs.Depth.{IsDepth};
ghost use Rattle.argb_world.specs.Picture.{SameExtentAndPart};
ghost use Rattle.comp_stack.specs.Layers.{plane_of};
ghost use Rattle.project_model.specs.Effects.{use_of};
ghost use Rattle.effect_api.specs.Fits.{IsBased, FitsSchema};
ghost use Rattle.effect_api.specs.Planes.{HasSides};
ghost use Rattle.effect_api.specs.Checked.{planes_of, AreChecked};
ghost use Rattle.effect_api.specs.Effects.{Shows};
ghost use Rattle.fx_color.specs.Color.{amount_of, number_of};
ghost use Rattle.fx_blur.specs.Blur.{blur_at};
ghost use Rattle.fx_blur.specs.Mosaic.{mosaic_at};
ghost use Rattle.fx_spatial.specs.Offset.{offset_at};
ghost use Rattle.fx_spatial.specs.Shadow.{shadow_of, shadowed_at};
ghost use Rattle.fx_spatial.specs.Displace.{displaced_at};
ghost use Rattle.fx_spatial.specs.Spatial.{offset_schema, shadow_schema, displace_schema, spatial_schema, spatial_wants, spatial_draws, cast_by};

use crate::displace::Displaced;
use crate::kind::SpatialKind;
use crate::offset::Moved;
use crate::params::{far_number, near_number, radius_at, share, size_at};
use crate::rows::draw_rows;
use crate::shadow::{Cast, Shadowed};
use argb_world::World;
use compute_cache::Keeps;
use effect_api::{Checkouts, Moment, Value};
use fx_blur::{blur_world, mosaic_world};
use host_io::Memory;
use project_model::FxUse;
use std::alloc::Global;

// What the uses say of the moment.
fn moved_at<'a, const MAX: u32>(fx: &FxUse, at: Moment, input: &'a World<MAX>) -> Moved<'a, MAX>
    requires based { IsBased fx.now at }
    requires fits { FitsSchema offset_schema (use_of fx.now) }
    ensures input { result.input.now ≡ input.now }
    ensures dx { result.dx ≡ number_of (use_of fx.now) 0 at }
    ensures dy { result.dy ≡ number_of (use_of fx.now) 1 at }
{
    Moved {
        input,
        dx: far_number(fx, at, 0),
        dy: far_number(fx, at, 1),
    }
}

fn cast_at(fx: &FxUse, at: Moment) -> Cast
    requires based { IsBased fx.now at }
    requires fits { FitsSchema shadow_schema (use_of fx.now) }
    ensures { shadow_of result.opacity result.red result.green result.blue ≡ cast_by (use_of fx.now) at }
{
    Cast {
        opacity: share(fx, at, 2),
        red: share(fx, at, 3),
        green: share(fx, at, 4),
        blue: share(fx, at, 5),
    }
}

fn shadowed_at<'a, const MAX: u32>(
    fx: &FxUse,
    at: Moment,
    input: &'a World<MAX>,
) -> Shadowed<'a, MAX>
    requires based { IsBased fx.now at }
    requires fits { FitsSchema shadow_schema (use_of fx.now) }
    ensures input { result.input.now ≡ input.now }
    ensures dx { result.dx ≡ number_of (use_of fx.now) 0 at }
    ensures dy { result.dy ≡ number_of (use_of fx.now) 1 at }
    ensures cast { shadow_of result.cast.opacity result.cast.red result.cast.green result.cast.blue ≡ cast_by (use_of fx.now) at }
{
    Shadowed {
        input,
        dx: near_number(fx, at, 0),
        dy: near_number(fx, at, 1),
        cast: cast_at(fx, at),
    }
}

fn displaced_at<'a, const MAX: u32>(
    fx: &FxUse,
    at: Moment,
    input: &'a World<MAX>,
    map: &'a World<MAX>,
) -> Displaced<'a, MAX>
    requires based { IsBased fx.now at }
    requires fits { FitsSchema displace_schema (use_of fx.now) }
    ensures input { result.input.now ≡ input.now }
    ensures map { result.map.now ≡ map.now }
    ensures across { result.max_x ≡ number_of (use_of fx.now) 0 at }
    ensures down { result.max_y ≡ number_of (use_of fx.now) 1 at }
{
    Displaced {
        input,
        map,
        max_x: near_number(fx, at, 0),
        max_y: near_number(fx, at, 1),
    }
}

/// Each point of the target's part becomes what a spatial effect draws there from the pixels that were checked out. The kind
/// is given apart from the use, which has what the schema of that kind asks for: a set that is made of others numbers their
/// kinds anew. It takes memory for some rows.
pub fn draw_spatial<const MAX: u32, K: Keeps<Value = Value<MAX>>>(
    alloc: Global,
    kind: SpatialKind,
    fx: &FxUse,
    at: Moment,
    pixels: &Checkouts<MAX, K>,
    target: &mut World<MAX>,
) -> Result<(), Memory>
    requires depth { IsDepth MAX }
    requires fits { FitsSchema (spatial_schema kind) (use_of fx.now) }
    requires based { IsBased fx.now at }
    requires pixels { AreChecked (spatial_wants kind at) at pixels.now.pairs }
    requires part { HasSides target.old.part }
    ensures frame { SameExtentAndPart target.old target.new }
    ensures drawn { OnOk result (Shows target.old.part (spatial_draws MAX kind (use_of fx.now) at (planes_of pixels.now.pairs)) target.new) }
{
    match kind {
        SpatialKind::Offset => {
            draw_rows(alloc, &moved_at(fx, at, pixels.checkout_want(0)), target)
        }
        SpatialKind::BoxBlur => {
            blur_world(alloc, radius_at(fx, at), pixels.checkout_want(0), target)
        }
        SpatialKind::Mosaic => {
            mosaic_world(alloc, size_at(fx, at), pixels.checkout_want(0), target)
        }
        SpatialKind::DropShadow => {
            draw_rows(alloc, &shadowed_at(fx, at, pixels.checkout_want(0)), target)
        }
        SpatialKind::Displace => {
            let input = pixels.checkout_want(0);
            let map = pixels.checkout_want(1);
            draw_rows(alloc, &displaced_at(fx, at, input, map), target)
        }
    }
}
