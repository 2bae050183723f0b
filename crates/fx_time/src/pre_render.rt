ghost use Rattle.std.specs.Prelude.{◌≡◌, ◌≤◌, pos, ◌≤ℤ◌, length, IfOk};
ghost use Rattle.project_model.specs.Effects.{use_of};
ghost use Rattle.effect_api.specs.Fits.{IsBased, FitsSchema};
ghost use Rattle.effect_api.specs.Planes.{cover_all};
ghost use Rattle.effect_api.specs.Render.{AreExtents, IsResult, IsMet, AreCheckouts, AreExact};
ghost use Rattle.fx_time.specs.Time.{time_schema, time_wants, time_bounds, time_need, time_result};
ghost use Rattle.fx_time.specs.Asked.{asked_of_each};
ghost use Rattle.fx_spatial.specs.Asked.{asked};

use crate::kind::TimeKind;
use crate::wants::time_wants;
use effect_api::{Checkout, Moment, PreRender, Want};
use geom_rect::Rect;
use host_io::Memory;
use project_model::FxUse;
use std::alloc::Global;

// The least rectangle with all points of all.
fn cover_all(rects: &[Rect]) -> Rect
    ensures { result ≡ cover_all rects.now }
{
    match rects {
        [] => Rect::ORIGIN,
        [first, ..] => first.cover(&cover_all(&rects[1..])),
    }
}

// Where an effect may draw, over inputs of these extents.
fn bounds_over(kind: TimeKind, fx: &FxUse, at: Moment, extents: &[Rect]) -> Rect
    requires { 1 ≤ length extents.now }
    ensures { result ≡ time_bounds kind (use_of fx.now) at extents.now }
{
    match kind {
        TimeKind::Echo => cover_all(extents),
        TimeKind::PosterizeTime => extents[0],
        TimeKind::FrameDifference => cover_all(extents),
        TimeKind::TimeMean => cover_all(extents),
    }
}

// The checkout of a want with a number: the rectangle within its extent.
fn asked(want: Want, number: u32, rect: Rect, extent: Rect) -> Checkout
    ensures { result ≡ asked want number rect extent }
{
    Checkout {
        id: number,
        want,
        request: rect.meet(&extent),
    }
}

// Of each want the same rectangle.
fn ask_each(
    alloc: Global,
    wants: &[Want],
    extents: &[Rect],
    rect: Rect,
) -> Result<Vec<Checkout>, Memory>
    requires few { length wants.now ≤ 16 }
    requires one_each { length extents.now ≡ length wants.now }
    ensures { IfOk result (λ list. list.items ≡ asked_of_each wants.now extents.now rect (length wants.now)) }
{
    let mut checkouts = Vec::new(alloc);
    for k in 0..wants.len() {
        checkouts.push(asked(wants[k], k as u32, rect, extents[k]))?;
    }
    Ok(checkouts)
}

/// What an effect of time answers to pre-render: the request met with its bounds, and of each want just that, within the want's
/// extent. The bounds are the cover of all extents, and of PosterizeTime the one extent. The kind is given apart from the use.
/// A frame has at least one tick.
pub fn pre_render_time(
    alloc: Global,
    kind: TimeKind,
    fx: &FxUse,
    at: Moment,
    extents: &[Rect],
    request: Rect,
) -> Result<PreRender, Memory>
    requires fits { FitsSchema (time_schema kind) (use_of fx.now) }
    requires based { IsBased fx.now at }
    requires frame { pos 1 ≤ℤ at.frame }
    requires extents { AreExtents (time_wants kind (use_of fx.now) at) extents.now }
    ensures rects { IfOk result (IsResult (time_bounds kind (use_of fx.now) at extents.now) request) }
    ensures met { IfOk result (IsMet (time_bounds kind (use_of fx.now) at extents.now) request) }
    ensures checkouts { IfOk result (λ pre. AreCheckouts (time_wants kind (use_of fx.now) at) extents.now
        (λ i. time_need kind (use_of fx.now) at extents.now i pre.result_rect) pre.checkouts.items) }
    ensures result_is { IfOk result (λ pre. pre.result_rect ≡ time_result kind (use_of fx.now) at extents.now request) }
    ensures exact { IfOk result (λ pre. AreExact extents.now
        (λ i. time_need kind (use_of fx.now) at extents.now i pre.result_rect) pre.checkouts.items) }
{
    let wants = time_wants(alloc, kind, fx, at)?;
    let bounds = bounds_over(kind, fx, at, extents);
    let result_rect = request.meet(&bounds);
    let checkouts = ask_each(alloc, &wants, extents, result_rect)?;
    Ok(PreRender {
        result_rect,
        max_result_rect: bounds,
        extra: false,
        checkouts,
    })
}
