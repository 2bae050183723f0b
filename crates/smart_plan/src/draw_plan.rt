ghost use Rattle.std.specs.Prelude.{◌≡◌, ◌↔◌, ℤ, IfOk};
ghost use Rattle.geom_rect.specs.Rect.{Has};
ghost use Rattle.project_model.specs.Effects.{use_of};
ghost use Rattle.effect_api.specs.Fits.{IsBased, IsGiven};
ghost use Rattle.effect_api.specs.Planes.{HasSides};
ghost use Rattle.effect_api.specs.Render.{AreExtents, IsResult, AreCheckouts};
ghost use Rattle.smart_plan.specs.Plan.{part_of, IsPart, AreMarked};
ghost use Rattle.smart_plan.specs.Requests.{AreRequests, request_at};
ghost use Rattle.smart_plan.specs.Suffices.{Suffices};

use crate::requests::{hold_requests, mark_whole, trimmed};
use effect_api::{Ask, Draw, Moment, PreRender};
use geom_rect::Rect;
use host_io::Memory;
use project_model::FxUse;
use std::alloc::Global;

/// How a rectangle of an effect is drawn: what pre-render answers, with each request held to the extent of its want; the
/// analyses that are drawn from; and which checkouts are planes at another tick, drawn whole, in the order of the checkouts.
#[derive(Debug, Drop)]
pub struct DrawPlan {
    pub pre: PreRender,
    pub asks: Vec<Ask>,
    pub whole: Vec<bool>,
}

impl DrawPlan {
    /// The rectangle to draw, as the part of the target: that of the result, and `0,0,0,0` where it has no point.
    pub fn part(&self) -> Rect
        ensures value { result ≡ part_of self.now.pre }
        ensures points { (x y : ℤ) → (Has result x y ↔ Has self.now.pre.result_rect x y) }
    {
        trimmed(&self.pre.result_rect)
    }
}

/// What a request needs. There is an extent for each want; the sides of the extents and of the request are within
/// -100,000..=100,000. Worlds that have the extents and show the planes on the requests give the pixels of the planes.
pub fn plan<E: Draw<MAX>, const MAX: u32>(
    alloc: Global,
    effects: &E,
    fx: &FxUse,
    at: Moment,
    extents: &[Rect],
    request: Rect,
) -> Result<DrawPlan, Memory>
    requires given { IsGiven E.schemas (use_of fx.now) at }
    requires based { IsBased fx.now at }
    requires extents { AreExtents (E.wants (use_of fx.now) at) extents.now }
    requires request { HasSides request }
    ensures rects { IfOk result (λ plan. IsResult (E.bounds (use_of fx.now) at extents.now) request plan.pre) }
    ensures part { IfOk result (λ plan. IsPart (E.bounds (use_of fx.now) at extents.now) request (part_of plan.pre)) }
    ensures checkouts { IfOk result (λ plan. AreCheckouts (E.wants (use_of fx.now) at) extents.now
        (λ i. E.need (use_of fx.now) at extents.now i plan.pre.result_rect) plan.pre.checkouts.items) }
    ensures requests { IfOk result (λ plan. AreRequests at extents.now plan.pre.checkouts.items) }
    ensures asks { IfOk result (λ plan. plan.asks.items ≡ E.asks (use_of fx.now) at) }
    ensures marks { IfOk result (λ plan. AreMarked (E.wants (use_of fx.now) at) at plan.whole.items) }
    ensures suffices { IfOk result (λ plan. Suffices MAX E.sums_of (E.wants (use_of fx.now) at) (E.asks (use_of fx.now) at) extents.now
        (E.draws (use_of fx.now) at) (request_at plan.pre.checkouts.items) (part_of plan.pre)) }
{
    let mut pre = effects.pre_render(alloc, fx, at, extents, request)?;
    let asks = effects.list_asks(alloc, fx, at)?;
    let whole = mark_whole(alloc, &pre.checkouts, at)?;
    hold_requests(&mut pre.checkouts, extents, at);
    Ok(DrawPlan { pre, asks, whole })
}
