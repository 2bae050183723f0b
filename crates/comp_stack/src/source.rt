//! What one layer brings to a row of points: its pixels, under its matte, under its opacity.
ghost use Rattle.std.specs.Prelude.{◌≡◌, ℕ, ℤ, pos, ◌+ℤ◌, ◌-ℤ◌, ◌*◌, ◌≤◌, ◌<◌, map, length, option_map, IfSome, ◌⊎◌};
ghost use lib.Lanes.{zip2};
ghost use Rattle.argb_pixel.specs.Depth.{IsDepth};
ghost use Rattle.argb_pixel.specs.Pixel.{scale_of, clear};
ghost use Rattle.argb_pixel.specs.Packed.{pixel_size, pixels_of, IsPacked};
ghost use Rattle.track_matte.specs.Mattes.{matted};
ghost use Rattle.comp_stack.specs.Layers.{IsPosition, IsShown, IsPlaced, placed_of, layer_of};
ghost use Rattle.comp_stack.specs.Stack.{pixel_at, source_at};
ghost use Rattle.comp_stack.specs.Spans.{IsNear, pixel_span, matte_span, source_span};

use crate::layer::{Placed, Shown};
use argb_pixel::{Pixel, clear_packed};
use track_matte::{Matte, apply_packed};
use transfer_mode::scale_packed;

// A column or row of the stack, as one of a picture at a position.
fn within(z: i64, position: i32) -> i64
    requires near { IsNear z }
    requires position { IsPosition position }
    ensures { result ≡ z -ℤ position }
{
    z - position as i64
}

/// The bytes of the pixels of a picture at its position.
pub(crate) fn read_shown<const MAX: u32>(
    shown: &Shown<MAX>,
    x: i64,
    y: i64,
    count: usize,
    into: &mut [u8],
)
    requires shown { IsShown shown.now }
    requires column { IsNear x }
    requires row { IsNear y }
    requires long { length into.old ≡ pixel_size MAX * count }
    ensures packed { IsPacked MAX into.new }
    ensures pixels { pixels_of MAX into.new ≡ pixel_span (placed_of shown.now) x y count }
{
    shown
        .world
        .read_packed_span(within(x, shown.x), within(y, shown.y), count, into);
}

/// Each pixel under an opacity. Full opacity changes nothing.
pub(crate) fn scale_row<const MAX: u32>(opacity: u32, row: &mut [u8])
    requires depth { IsDepth MAX }
    requires part { opacity ≤ 10000 }
    requires packed { IsPacked MAX row.old }
    ensures long { length row.new ≡ length row.old }
    ensures packed { IsPacked MAX row.new }
    ensures pixels { pixels_of MAX row.new ≡ map (λ p. scale_of p opacity) (pixels_of MAX row.old) }
{
    if opacity < 10000 {
        scale_packed::<MAX>(opacity, row);
    }
}

/// The bytes of the pixels of a matte: at its own position, under its own opacity, and transparent where it is not seen.
fn read_matte<const MAX: u32>(
    over: &Option<Shown<MAX>>,
    x: i64,
    y: i64,
    count: usize,
    into: &mut [u8],
)
    requires depth { IsDepth MAX }
    requires over { IfSome over.now IsShown }
    requires column { IsNear x }
    requires row { IsNear y }
    requires long { length into.old ≡ pixel_size MAX * count }
    ensures packed { IsPacked MAX into.new }
    ensures pixels { pixels_of MAX into.new ≡ matte_span (option_map placed_of over.now) x y count }
{
    match over {
        Some(shown) => {
            read_shown(shown, x, y, count, into);
            scale_row::<MAX>(shown.opacity, into);
        }
        None => clear_packed::<MAX>(count, into),
    }
}

/// As much of each pixel as the layer's matte lets through.
fn mask_row<const MAX: u32>(
    layer: &Placed<MAX>,
    x: i64,
    y: i64,
    count: usize,
    matte: &mut [u8],
    source: &mut [u8],
)
    requires depth { IsDepth MAX }
    requires layer { IsPlaced layer.now }
    requires column { IsNear x }
    requires row { IsNear y }
    requires long { length source.old ≡ pixel_size MAX * count }
    requires matte { length matte.old ≡ pixel_size MAX * count }
    requires packed { IsPacked MAX source.old }
    ensures long { length source.new ≡ length source.old }
    ensures packed { IsPacked MAX source.new }
    ensures pixels { pixels_of MAX source.new ≡ zip2 (matted MAX layer.now.matte)
        (matte_span (option_map placed_of layer.now.over) x y count) (pixels_of MAX source.old) }
{
    match layer.matte {
        Matte::None => {}
        kind => {
            read_matte(&layer.over, x, y, count, matte);
            apply_packed::<MAX>(kind, matte, source);
        }
    }
}

/// The bytes of what a layer brings to a row of points. `matte` is room for as many pixels.
pub(crate) fn read_source<const MAX: u32>(
    layer: &Placed<MAX>,
    x: i64,
    y: i64,
    count: usize,
    matte: &mut [u8],
    source: &mut [u8],
)
    requires depth { IsDepth MAX }
    requires layer { IsPlaced layer.now }
    requires column { IsNear x }
    requires row { IsNear y }
    requires long { length source.old ≡ pixel_size MAX * count }
    requires matte { length matte.old ≡ pixel_size MAX * count }
    ensures packed { IsPacked MAX source.new }
    ensures pixels { pixels_of MAX source.new ≡ source_span MAX (layer_of layer.now) x y count }
{
    read_shown(&layer.layer, x, y, count, source);
    mask_row(layer, x, y, count, matte, source);
    scale_row::<MAX>(layer.layer.opacity, source);
}

/// The bytes of what a layer brings to a row of points, where that is what its picture keeps: it has no matte, and full
/// opacity.
pub(crate) fn whole_source<const MAX: u32>(
    layer: &Placed<MAX>,
    x: i64,
    y: i64,
    count: usize,
) -> Option<&[u8]>
    requires depth { IsDepth MAX }
    requires layer { IsPlaced layer.now }
    requires column { IsNear x }
    requires row { IsNear y }
    ensures long { IfSome result (λ row. length row.now ≡ pixel_size MAX * count) }
    ensures packed { IfSome result (λ row. IsPacked MAX row.now) }
    ensures pixels { IfSome result (λ row. pixels_of MAX row.now ≡ source_span MAX (layer_of layer.now) x y count) }
{
    let shown = &layer.layer;
    match layer.matte {
        Matte::None if shown.opacity == 10000 => {
            shown
                .world
                .packed_span(within(x, shown.x), within(y, shown.y), count)
        }
        _ => None,
    }
}

/// The one pixel that a layer brings to each of so many points, where it is kept as one and has no matte.
pub(crate) fn one_source<const MAX: u32>(
    layer: &Placed<MAX>,
    x: i64,
    y: i64,
    count: usize,
) -> Option<Pixel<MAX>>
    requires depth { IsDepth MAX }
    requires layer { IsPlaced layer.now }
    requires column { IsNear x }
    requires row { IsNear y }
    ensures { IfSome result (λ p. (k : ℕ) → k < count → source_at MAX (layer_of layer.now) (x +ℤ pos k) y ≡ p) }
{
    let shown = &layer.layer;
    match (layer.matte, shown.world.colour()) {
        (Matte::None, Some(colour)) => {
            let covered = shown
                .world
                .covered(within(x, shown.x), within(y, shown.y), count);
            if covered.0 == 0 && covered.1 == count {
                Some(colour.scale(shown.opacity))
            } else {
                None
            }
        }
        _ => None,
    }
}

/// Which of so many points a picture at its position may bring something to: from the first number on, to before the
/// second.
pub(crate) fn seen<const MAX: u32>(
    shown: &Shown<MAX>,
    x: i64,
    y: i64,
    count: usize,
) -> (usize, usize)
    requires shown { IsShown shown.now }
    requires column { IsNear x }
    requires row { IsNear y }
    ensures order { result.0 ≤ result.1 }
    ensures within { result.1 ≤ count }
    ensures beyond { (k : ℕ) → k < count → ¬ ((result.0 ≤ k) × (k < result.1))
        → (shown.now.opacity ≡ 0) ⊎ (pixel_at (placed_of shown.now) (x +ℤ pos k) y ≡ clear) }
{
    if shown.opacity == 0 {
        return (0, 0);
    }
    shown
        .world
        .covered(within(x, shown.x), within(y, shown.y), count)
}
