ghost use Rattle.std.specs.Prelude.{◌≡◌, ◌≤◌, ◌||◌, int_lt, length, pos, neg_ℤ, IfOk};
ghost use Rattle.geom_rect.specs.Rect.{HasCoordinates, cover_of, shift_of, grow_of};
ghost use Rattle.project_model.specs.Effects.{use_of};
ghost use Rattle.effect_api.specs.Fits.{IsBased, FitsSchema};
ghost use Rattle.effect_api.specs.Planes.{HasSides, extent_at};
ghost use Rattle.effect_api.specs.Render.{AreExtents, IsResult, AreCheckouts, AreExact};
ghost use Rattle.fx_color.specs.Color.{number_of};
ghost use Rattle.fx_spatial.specs.Spatial.{displace_schema, shadow_schema, spatial_schema, spatial_wants, want_now, bounds_over, spatial_bounds, need_over, spatial_need, result_over, spatial_result};
ghost use Rattle.fx_spatial.specs.Shadow.{shadow_bounds, shadow_need};
ghost use Rattle.fx_spatial.specs.Displace.{reach_of, displace_need};
ghost use Rattle.fx_spatial.specs.Near.{IsFar};
ghost use Rattle.fx_spatial.specs.Asked.{leaves, asked, input_asked, checkouts_of};

use crate::kind::SpatialKind;
use crate::params::{near_number, radius_at, size_at};
use effect_api::{Checkout, Moment, PreRender, Want, own_wants};
use fx_blur::blocks;
use geom_rect::Rect;
use host_io::Memory;
use project_model::FxUse;
use std::alloc::Global;

// An input at the moment's tick.
fn want_now(input: u32, at: Moment) -> Want
    ensures { result ≡ want_now input at }
{
    Want {
        input,
        tick: at.tick,
    }
}

/// The planes that a spatial effect draws from: its input, and of Displace also the map.
pub fn spatial_wants(alloc: Global, kind: SpatialKind, at: Moment) -> Result<Vec<Want>, Memory>
    ensures { IfOk result (λ list. list.items ≡ spatial_wants kind at) }
{
    match kind {
        SpatialKind::Offset => own_wants(alloc, at),
        SpatialKind::BoxBlur => own_wants(alloc, at),
        SpatialKind::Mosaic => own_wants(alloc, at),
        SpatialKind::DropShadow => own_wants(alloc, at),
        SpatialKind::Displace => {
            let mut wants = own_wants(alloc, at)?;
            wants.push(want_now(1, at))?;
            Ok(wants)
        }
    }
}

// A rectangle and where it is moved to.
fn cover_moved(rect: Rect, dx: i32, dy: i32) -> Rect
    requires near { HasCoordinates rect }
    requires right { IsFar 1024 dx }
    requires down { IsFar 1024 dy }
    ensures { result ≡ cover_of rect (shift_of rect dx dy) }
{
    rect.cover(&rect.shift(dx, dy))
}

// As far the other way.
fn opposite(z: i32) -> i32
    requires { IsFar 1024 z }
    ensures value { result ≡ neg_ℤ z }
    ensures near { IsFar 1024 result }
{
    -z
}

// A rectangle grown by so many points.
fn grown(rect: Rect, points: u32) -> Rect
    requires near { HasCoordinates rect }
    requires few { points ≤ 1024 }
    ensures { result ≡ grow_of rect (pos points) }
{
    rect.grow(points as i32)
}

// The greater of two distances.
fn reach(max_x: i32, max_y: i32) -> u32
    requires across { IsFar 1024 max_x }
    requires down { IsFar 1024 max_y }
    ensures value { result ≡ reach_of max_x max_y }
    ensures few { result ≤ 1024 }
{
    max_x.unsigned_abs().max(max_y.unsigned_abs())
}

// A picture and its shadow.
fn shadow_bounds(fx: &FxUse, at: Moment, extent: Rect) -> Rect
    requires based { IsBased fx.now at }
    requires fits { FitsSchema shadow_schema (use_of fx.now) }
    requires near { HasCoordinates extent }
    ensures { result ≡ shadow_bounds (number_of (use_of fx.now) 0 at) (number_of (use_of fx.now) 1 at) extent }
{
    cover_moved(extent, near_number(fx, at, 0), near_number(fx, at, 1))
}

// What is needed for a rectangle of a picture and its shadow.
fn shadow_need(fx: &FxUse, at: Moment, rect: Rect) -> Rect
    requires based { IsBased fx.now at }
    requires fits { FitsSchema shadow_schema (use_of fx.now) }
    requires near { HasCoordinates rect }
    ensures { result ≡ shadow_need (number_of (use_of fx.now) 0 at) (number_of (use_of fx.now) 1 at) rect }
{
    let dx = opposite(near_number(fx, at, 0));
    let dy = opposite(near_number(fx, at, 1));
    cover_moved(rect, dx, dy)
}

// What is needed for a rectangle of a displaced picture.
fn displace_need(fx: &FxUse, at: Moment, rect: Rect) -> Rect
    requires based { IsBased fx.now at }
    requires fits { FitsSchema displace_schema (use_of fx.now) }
    requires near { HasCoordinates rect }
    ensures { result ≡ displace_need (number_of (use_of fx.now) 0 at) (number_of (use_of fx.now) 1 at) rect }
{
    grown(rect, reach(near_number(fx, at, 0), near_number(fx, at, 1)))
}

// Where an effect may draw, over an input of this extent.
fn bounds_over(kind: SpatialKind, fx: &FxUse, at: Moment, extent: Rect) -> Rect
    requires based { IsBased fx.now at }
    requires fits { FitsSchema (spatial_schema kind) (use_of fx.now) }
    requires near { HasCoordinates extent }
    ensures { result ≡ bounds_over kind (use_of fx.now) at extent }
{
    match kind {
        SpatialKind::Offset => extent,
        SpatialKind::BoxBlur => grown(extent, radius_at(fx, at)),
        SpatialKind::Mosaic => extent,
        SpatialKind::DropShadow => shadow_bounds(fx, at, extent),
        SpatialKind::Displace => extent,
    }
}

// Which rectangle of the input drawing a rectangle looks at.
fn need_over(kind: SpatialKind, fx: &FxUse, at: Moment, extent: Rect, rect: Rect) -> Rect
    requires based { IsBased fx.now at }
    requires fits { FitsSchema (spatial_schema kind) (use_of fx.now) }
    requires near { HasCoordinates rect }
    ensures { result ≡ need_over kind (use_of fx.now) at extent rect }
{
    match kind {
        SpatialKind::Offset => extent,
        SpatialKind::BoxBlur => grown(rect, radius_at(fx, at)),
        SpatialKind::Mosaic => blocks(size_at(fx, at), extent, rect),
        SpatialKind::DropShadow => shadow_need(fx, at, rect),
        SpatialKind::Displace => displace_need(fx, at, rect),
    }
}

// What is drawn for a request.
fn result_over(kind: SpatialKind, fx: &FxUse, at: Moment, extent: Rect, request: Rect) -> Rect
    requires based { IsBased fx.now at }
    requires fits { FitsSchema (spatial_schema kind) (use_of fx.now) }
    requires near { HasCoordinates extent }
    ensures { result ≡ result_over kind (use_of fx.now) at extent request }
{
    match kind {
        SpatialKind::Offset => request.meet(&extent),
        SpatialKind::BoxBlur => request.meet(&bounds_over(kind, fx, at, extent)),
        SpatialKind::Mosaic => blocks(size_at(fx, at), extent, request),
        SpatialKind::DropShadow => request.meet(&bounds_over(kind, fx, at, extent)),
        SpatialKind::Displace => request.meet(&extent),
    }
}

// Whether a rectangle has points outside of another.
fn leaves(rect: Rect, other: Rect) -> bool
    ensures { result ≡ leaves rect other }
{
    !rect.is_empty() && goes_beyond(rect, other)
}

// Whether a side of a rectangle lies outside of another's.
fn goes_beyond(rect: Rect, other: Rect) -> bool
    ensures { result ≡ int_lt rect.left other.left || (int_lt rect.top other.top || (int_lt other.right rect.right || int_lt other.bottom rect.bottom)) }
{
    rect.left < other.left
        || (rect.top < other.top || (other.right < rect.right || other.bottom < rect.bottom))
}

// The checkout of an input: what is needed of it, within its extent.
fn asked(input: u32, at: Moment, need: Rect, extent: Rect) -> Checkout
    ensures { result ≡ asked (want_now input at) input need extent }
{
    Checkout {
        id: input,
        want: want_now(input, at),
        request: need.meet(&extent),
    }
}

// The checkout of the input alone.
fn input_asked(
    alloc: Global,
    at: Moment,
    extents: &[Rect],
    need: Rect,
) -> Result<Vec<Checkout>, Memory>
    requires { 1 ≤ length extents.now }
    ensures { IfOk result (λ list. list.items ≡ input_asked at extents.now need) }
{
    let mut checkouts = Vec::new(alloc);
    checkouts.push(asked(0, at, need, extents[0]))?;
    Ok(checkouts)
}

// The checkouts, of which the rectangle `need` of the input is needed and `rect` of the map.
fn checkouts(
    alloc: Global,
    kind: SpatialKind,
    at: Moment,
    extents: &[Rect],
    need: Rect,
    rect: Rect,
) -> Result<Vec<Checkout>, Memory>
    requires { length extents.now ≡ length (spatial_wants kind at) }
    ensures { IfOk result (λ list. list.items ≡ checkouts_of kind at extents.now need rect) }
{
    match kind {
        SpatialKind::Offset => input_asked(alloc, at, extents, need),
        SpatialKind::BoxBlur => input_asked(alloc, at, extents, need),
        SpatialKind::Mosaic => input_asked(alloc, at, extents, need),
        SpatialKind::DropShadow => input_asked(alloc, at, extents, need),
        SpatialKind::Displace => {
            let mut both = input_asked(alloc, at, extents, need)?;
            both.push(asked(1, at, rect, extents[1]))?;
            Ok(both)
        }
    }
}

/// What a spatial effect answers to pre-render: what it draws for a request, within its bounds, and what it checks out for
/// that, within the extents, and no more. Mosaic draws whole blocks, and so may draw more than is requested. The kind is given
/// apart from the use.
pub fn pre_render_spatial(
    alloc: Global,
    kind: SpatialKind,
    fx: &FxUse,
    at: Moment,
    extents: &[Rect],
    request: Rect,
) -> Result<PreRender, Memory>
    requires fits { FitsSchema (spatial_schema kind) (use_of fx.now) }
    requires based { IsBased fx.now at }
    requires extents { AreExtents (spatial_wants kind at) extents.now }
    requires request { HasSides request }
    ensures rects { IfOk result (IsResult (spatial_bounds kind (use_of fx.now) at extents.now) request) }
    ensures checkouts { IfOk result (λ pre. AreCheckouts (spatial_wants kind at) extents.now
        (λ i. spatial_need kind (use_of fx.now) at extents.now i pre.result_rect) pre.checkouts.items) }
    ensures result_is { IfOk result (λ pre. pre.result_rect ≡ spatial_result kind (use_of fx.now) at extents.now request) }
    ensures exact { IfOk result (λ pre. AreExact extents.now
        (λ i. spatial_need kind (use_of fx.now) at extents.now i pre.result_rect) pre.checkouts.items) }
{
    let extent = extents[0];
    let result_rect = result_over(kind, fx, at, extent, request);
    let need = need_over(kind, fx, at, extent, result_rect);
    let checkouts = checkouts(alloc, kind, at, extents, need, result_rect)?;
    Ok(PreRender {
        result_rect,
        max_result_rect: bounds_over(kind, fx, at, extent),
        extra: leaves(result_rect, request),
        checkouts,
    })
}
