ghost use Rattle.std.specs.Prelude.{◌≡◌, ◌≢◌, ◌↔◌, length, IsTrue, IfOk};
ghost use Rattle.std.specs.List.{All};
ghost use Rattle.effect_api.specs.Planes.{HasSides};
ghost use Rattle.smart_plan.specs.Plan.{trimmed};
ghost use Rattle.smart_plan.specs.Held.{IsHeld, AreHeld, AreMarks};

use effect_api::{Checkout, Moment, Want};
use geom_rect::Rect;
use host_io::Memory;
use std::alloc::Global;

/// The rectangle, and `0,0,0,0` where it has no point.
pub fn trimmed(rect: &Rect) -> Rect
    ensures { result ≡ trimmed rect.now }
{
    if rect.is_empty() { Rect::ORIGIN } else { *rect }
}

// Whether a want is at another tick than the moment's.
fn is_elsewhen(want: &Want, at: Moment) -> bool
    ensures { IsTrue result ↔ (want.now.tick ≢ at.tick) }
{
    want.tick != at.tick
}

/// Which checkouts are at another tick than the moment's, in their order.
pub fn mark_whole(alloc: Global, checkouts: &[Checkout], at: Moment) -> Result<Vec<bool>, Memory>
    ensures { IfOk result (λ marks. AreMarks at checkouts.now marks.items) }
{
    let mut marks = Vec::with_capacity(alloc, checkouts.len())?;
    for checkout in checkouts {
        marks.push(is_elsewhen(&checkout.want, at))?;
    }
    Ok(marks)
}

// A checkout of all of its want's extent where that is at another tick, and else of what it requests of the extent.
fn held(checkout: &Checkout, extent: &Rect, at: Moment) -> Checkout
    requires { HasSides extent.now }
    ensures { IsHeld at extent.now checkout.now result }
{
    let request = if is_elsewhen(&checkout.want, at) {
        *extent
    } else {
        trimmed(&checkout.request.meet(extent))
    };
    Checkout {
        request,
        ..*checkout
    }
}

/// Holds each request to the extent of its want.
pub fn hold_requests(checkouts: &mut Vec<Checkout>, extents: &[Rect], at: Moment)
    requires one_each { length checkouts.old.items ≡ length extents.now }
    requires near { All HasSides extents.now }
    ensures long { length checkouts.new.items ≡ length checkouts.old.items }
    ensures held { AreHeld at extents.now checkouts.old.items checkouts.new.items }
{
    for number in 0..extents.len() {
        checkouts[number] = held(&checkouts[number], &extents[number], at);
    }
}
