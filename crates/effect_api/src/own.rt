ghost use Rattle.std.specs.Prelude.{◌≡◌, length, IfOk, false, [], ◌∷◌};
ghost use Rattle.geom_rect.specs.Rect.{meet_of};
ghost use Rattle.effect_api.specs.Own.{own_wants, own_bounds};
ghost use Rattle.effect_api.specs.Render.{IsResult, IsMet, AreCheckouts, AreExact};

use crate::moment::{Moment, Want};
use crate::pre_render::{Checkout, PreRender};
use geom_rect::Rect;
use host_io::Memory;
use std::alloc::Global;

/// The wants of an effect that draws each point from the input's own point at the moment's tick.
pub fn own_wants(alloc: Global, at: Moment) -> Result<Vec<Want>, Memory>
    ensures { IfOk result (λ list. list.items ≡ own_wants at) }
{
    let mut wants = Vec::new(alloc);
    wants.push(own_want(at))?;
    Ok(wants)
}

/// What such an effect answers to pre-render: the request met with the extent of its input, which it checks out there.
pub fn own_pre_render(
    alloc: Global,
    at: Moment,
    extents: &[Rect],
    request: Rect,
) -> Result<PreRender, Memory>
    requires { length extents.now ≡ 1 }
    ensures rects { IfOk result (IsResult (own_bounds extents.now) request) }
    ensures met { IfOk result (IsMet (own_bounds extents.now) request) }
    ensures checkouts { IfOk result (λ pre. AreCheckouts (own_wants at) extents.now (λ i. pre.result_rect) pre.checkouts.items) }
    ensures exact { IfOk result (λ pre. AreExact extents.now (λ i. pre.result_rect) pre.checkouts.items) }
{
    own_answer(alloc, at, extents[0], request)
}

// The input at the moment's tick.
fn own_want(at: Moment) -> Want
    ensures { result ≡ record { input = 0; tick = at.tick } }
{
    Want {
        input: 0,
        tick: at.tick,
    }
}

// The answer, for an input of this extent.
fn own_answer(alloc: Global, at: Moment, extent: Rect, request: Rect) -> Result<PreRender, Memory>
    ensures most { IfOk result (λ pre. pre.max_result_rect ≡ extent) }
    ensures result_is { IfOk result (λ pre. pre.result_rect ≡ meet_of request extent) }
    ensures no_more { IfOk result (λ pre. pre.extra ≡ false) }
    ensures checkouts { IfOk result (λ pre. pre.checkouts.items ≡ record { id = 0; want = record { input = 0; tick = at.tick }; request = meet_of request extent } ∷ []) }
{
    let result_rect = request.meet(&extent);
    let mut checkouts = Vec::new(alloc);
    checkouts.push(Checkout {
        id: 0,
        want: own_want(at),
        request: result_rect,
    })?;
    Ok(PreRender {
        result_rect,
        max_result_rect: extent,
        extra: false,
        checkouts,
    })
}
