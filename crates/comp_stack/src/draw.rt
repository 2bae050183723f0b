ghost use Rattle.std.specs.Prelude.{◌≡◌, ℕ, ℤ, pos, ◌+ℤ◌, ◌≤◌, ◌<◌, All, ◌*◌, map, length, slice_index_or};
ghost use Rattle.geom_rect.specs.Rect.{Has, count_between};
ghost use Rattle.argb_pixel.specs.Depth.{IsDepth};
ghost use Rattle.argb_pixel.specs.Pixel.{clear};
ghost use Rattle.argb_pixel.specs.Packed.{pixel_size, pixels_of, IsPacked};
ghost use Rattle.argb_world.specs.Picture.{at, HasRow, HasSpan, SameExtentAndPart, StaysOffRow, StaysOffSpan};
ghost use Rattle.transfer_mode.specs.Laws.{is_stencil};
ghost use Rattle.comp_stack.specs.Layers.{IsShown, IsPlaced, placed_of, layer_of};
ghost use Rattle.comp_stack.specs.Stack.{pixel_at, step, stack_over};
ghost use Rattle.comp_stack.specs.Spans.{IsNear, IsColumn};

use crate::layer::{Placed, Shown};
use crate::over::lay_row;
use crate::source::{one_source, read_source, seen, whole_source};
use argb_pixel::pixel_size;
use argb_world::World;
use transfer_mode::{Mode, blend_packed, blend_packed_colour};

// How many points a row of chunks has at most.
const SPAN: usize = 256;

// How many bytes those are at most.
const ROOM: usize = 8 * SPAN;

// How many whole numbers there are from `low`, inclusive, to `high`, exclusive.
fn count(low: i32, high: i32) -> u32
    ensures { result ≡ count_between low high }
{
    if low < high {
        (high as i64 - low as i64) as u32
    } else {
        0
    }
}

// The whole number that is `k` above `low`.
fn number_at(low: i32, high: i32, k: u32) -> i32
    requires { k < count_between low high }
    ensures { result ≡ low +ℤ pos k }
{
    (low as i64 + k as i64) as i32
}

// Whether a transparent source takes the destination away.
fn is_stencil(mode: Mode) -> bool
    ensures { result ≡ is_stencil mode }
{
    match mode {
        Mode::StencilAlpha | Mode::StencilLuma => true,
        _ => false,
    }
}

// The column that is `k` to the right.
fn right_of(x: i64, k: usize) -> i64
    requires column { IsColumn x }
    requires few { k ≤ 256 }
    ensures value { result ≡ x +ℤ pos k }
    ensures near { IsNear result }
{
    x + k as i64
}

// A layer over each pixel of a packed row of points. `source` and `matte` are room for just as many pixels.
fn lay_source<const MAX: u32>(
    layer: &Placed<MAX>,
    x: i64,
    y: i64,
    count: usize,
    into: &mut [u8],
    source: &mut [u8],
    matte: &mut [u8],
)
    requires depth { IsDepth MAX }
    requires layer { IsPlaced layer.now }
    requires column { IsNear x }
    requires row { IsNear y }
    requires long { length into.old ≡ pixel_size MAX * count }
    requires packed { IsPacked MAX into.old }
    requires source { length source.old ≡ length into.old }
    requires matte { length matte.old ≡ length into.old }
    ensures long { length into.new ≡ length into.old }
    ensures packed { IsPacked MAX into.new }
    ensures laid { (k : ℕ) → k < count → slice_index_or (pixels_of MAX into.new) k clear
        ≡ step MAX (layer_of layer.now) (x +ℤ pos k) y (slice_index_or (pixels_of MAX into.old) k clear) }
{
    match whole_source(layer, x, y, count) {
        Some(row) => lay_row::<MAX>(layer.mode, row, count, into),
        None => {
            read_source(layer, x, y, count, matte, source);
            blend_packed::<MAX>(layer.mode, source, into);
        }
    }
}

// A layer over each pixel of a packed row of points. `source` and `matte` are room for as many pixels.
fn lay_span<const MAX: u32>(
    layer: &Placed<MAX>,
    x: i64,
    y: i64,
    count: usize,
    into: &mut [u8],
    source: &mut [u8],
    matte: &mut [u8],
)
    requires depth { IsDepth MAX }
    requires layer { IsPlaced layer.now }
    requires column { IsNear x }
    requires row { IsNear y }
    requires long { length into.old ≡ pixel_size MAX * count }
    requires packed { IsPacked MAX into.old }
    requires source { length into.old ≤ length source.old }
    requires matte { length into.old ≤ length matte.old }
    ensures long { length into.new ≡ length into.old }
    ensures packed { IsPacked MAX into.new }
    ensures laid { (k : ℕ) → k < count → slice_index_or (pixels_of MAX into.new) k clear
        ≡ step MAX (layer_of layer.now) (x +ℤ pos k) y (slice_index_or (pixels_of MAX into.old) k clear) }
{
    let bytes = into.len();
    match one_source(layer, x, y, count) {
        Some(pixel) => blend_packed_colour(layer.mode, pixel, into),
        None => {
            lay_source(
                layer,
                x,
                y,
                count,
                into,
                &mut source[..bytes],
                &mut matte[..bytes],
            );
        }
    }
}

// A layer over a part of a packed row of points.
fn lay_middle<const MAX: u32>(
    layer: &Placed<MAX>,
    x: i64,
    y: i64,
    count: usize,
    into: &mut [u8],
    source: &mut [u8],
    matte: &mut [u8],
    start: usize,
    end: usize,
)
    requires depth { IsDepth MAX }
    requires layer { IsPlaced layer.now }
    requires column { IsColumn x }
    requires row { IsColumn y }
    requires few { count ≤ 256 }
    requires long { length into.old ≡ pixel_size MAX * count }
    requires packed { IsPacked MAX into.old }
    requires source { length into.old ≤ length source.old }
    requires matte { length into.old ≤ length matte.old }
    requires order { start ≤ end }
    requires within { end ≤ count }
    ensures long { length into.new ≡ length into.old }
    ensures packed { IsPacked MAX into.new }
    ensures inside { (k : ℕ) → k < count → start ≤ k → k < end → slice_index_or (pixels_of MAX into.new) k clear
        ≡ step MAX (layer_of layer.now) (x +ℤ pos k) y (slice_index_or (pixels_of MAX into.old) k clear) }
    ensures outside { (k : ℕ) → k < count → ¬ ((start ≤ k) × (k < end))
        → slice_index_or (pixels_of MAX into.new) k clear ≡ slice_index_or (pixels_of MAX into.old) k clear }
{
    let size = pixel_size::<MAX>();
    let many = end - start;
    lay_span(
        layer,
        right_of(x, start),
        y,
        many,
        &mut into[size * start..size * (start + many)],
        source,
        matte,
    );
}

// A layer over each pixel of a packed row of points. Where the layer brings nothing and its mode leaves what is below,
// nothing is done.
fn lay<const MAX: u32>(
    layer: &Placed<MAX>,
    x: i64,
    y: i64,
    count: usize,
    into: &mut [u8],
    source: &mut [u8],
    matte: &mut [u8],
)
    requires depth { IsDepth MAX }
    requires layer { IsPlaced layer.now }
    requires column { IsColumn x }
    requires row { IsColumn y }
    requires few { count ≤ 256 }
    requires long { length into.old ≡ pixel_size MAX * count }
    requires packed { IsPacked MAX into.old }
    requires source { length into.old ≤ length source.old }
    requires matte { length into.old ≤ length matte.old }
    ensures long { length into.new ≡ length into.old }
    ensures packed { IsPacked MAX into.new }
    ensures laid { (k : ℕ) → k < count → slice_index_or (pixels_of MAX into.new) k clear
        ≡ step MAX (layer_of layer.now) (x +ℤ pos k) y (slice_index_or (pixels_of MAX into.old) k clear) }
{
    if is_stencil(layer.mode) {
        lay_span(layer, x, y, count, into, source, matte);
        return;
    }
    let (start, end) = seen(&layer.layer, x, y, count);
    lay_middle(layer, x, y, count, into, source, matte, start, end);
}

// The layers from the last to the first over each pixel of a packed row of points.
fn lay_all<const MAX: u32>(
    layers: &[Placed<MAX>],
    x: i64,
    y: i64,
    count: usize,
    into: &mut [u8],
    source: &mut [u8],
    matte: &mut [u8],
)
    requires depth { IsDepth MAX }
    requires layers { All IsPlaced layers.now }
    requires column { IsColumn x }
    requires row { IsColumn y }
    requires few { count ≤ 256 }
    requires long { length into.old ≡ pixel_size MAX * count }
    requires packed { IsPacked MAX into.old }
    requires source { length into.old ≤ length source.old }
    requires matte { length into.old ≤ length matte.old }
    ensures long { length into.new ≡ length into.old }
    ensures packed { IsPacked MAX into.new }
    ensures laid { (k : ℕ) → k < count → slice_index_or (pixels_of MAX into.new) k clear
        ≡ stack_over MAX (map layer_of layers.now) (x +ℤ pos k) y (slice_index_or (pixels_of MAX into.old) k clear) }
{
    let mut at = layers.len();
    'layers: while at > 0 {
        at -= 1;
        lay(&layers[at], x, y, count, into, source, matte);
    }
}

// The layers over a row of so many points of the ground. `into`, `source` and `matte` are room for as many pixels.
fn stack_span<const MAX: u32>(
    ground: &mut World<MAX>,
    layers: &[Placed<MAX>],
    x: i32,
    y: i32,
    count: usize,
    into: &mut [u8],
    source: &mut [u8],
    matte: &mut [u8],
)
    requires depth { IsDepth MAX }
    requires layers { All IsPlaced layers.now }
    requires there { HasSpan ground.old.part x y count }
    requires few { count ≤ 256 }
    requires long { length into.old ≡ pixel_size MAX * count }
    requires source { length into.old ≤ length source.old }
    requires matte { length into.old ≤ length matte.old }
    ensures frame { SameExtentAndPart ground.old ground.new }
    ensures stacked { (k : ℕ) → k < count → at ground.new (x +ℤ pos k) y
        ≡ stack_over MAX (map layer_of layers.now) (x +ℤ pos k) y (at ground.old (x +ℤ pos k) y) }
    ensures others { StaysOffSpan x y count ground.old ground.new }
{
    ground.read_packed_span(x as i64, y as i64, count, into);
    lay_all(layers, x as i64, y as i64, count, into, source, matte);
    ground.set_packed_span(x, y, count, into);
}

// The layers over so many points of the ground. `into`, `source` and `matte` are room for a chunk.
fn stack_chunk<const MAX: u32>(
    ground: &mut World<MAX>,
    layers: &[Placed<MAX>],
    x: i32,
    y: i32,
    many: usize,
    into: &mut [u8],
    source: &mut [u8],
    matte: &mut [u8],
)
    requires depth { IsDepth MAX }
    requires layers { All IsPlaced layers.now }
    requires there { HasSpan ground.old.part x y many }
    requires few { many ≤ 256 }
    requires room { length into.old ≡ 2048 }
    requires source { length source.old ≡ 2048 }
    requires matte { length matte.old ≡ 2048 }
    ensures frame { SameExtentAndPart ground.old ground.new }
    ensures stacked { (k : ℕ) → k < many → at ground.new (x +ℤ pos k) y
        ≡ stack_over MAX (map layer_of layers.now) (x +ℤ pos k) y (at ground.old (x +ℤ pos k) y) }
    ensures others { StaysOffSpan x y many ground.old ground.new }
{
    let bytes = pixel_size::<MAX>() * many;
    stack_span(
        ground,
        layers,
        x,
        y,
        many,
        &mut into[..bytes],
        source,
        matte,
    );
}

// The layers over a row of the ground, a chunk after another. `into`, `source` and `matte` are room for a chunk.
fn stack_row<const MAX: u32>(
    ground: &mut World<MAX>,
    layers: &[Placed<MAX>],
    y: i32,
    into: &mut [u8],
    source: &mut [u8],
    matte: &mut [u8],
)
    requires layers { All IsPlaced layers.now }
    requires there { HasRow ground.old.part y }
    requires room { length into.old ≡ 2048 }
    requires source { length source.old ≡ 2048 }
    requires matte { length matte.old ≡ 2048 }
    ensures frame { SameExtentAndPart ground.old ground.new }
    ensures stacked { (x : ℤ) → Has ground.old.part x y → at ground.new x y
        ≡ stack_over MAX (map layer_of layers.now) x y (at ground.old x y) }
    ensures others { StaysOffRow y ground.old ground.new }
{
    let part = ground.part();
    let width = count(part.left, part.right);
    let mut done = 0;
    'chunks: while done < width {
        let many = (width - done).min(SPAN as u32);
        let x = number_at(part.left, part.right, done);
        stack_chunk(ground, layers, x, y, many as usize, into, source, matte);
        done += many;
    }
}

/// Draws layers over the ground: at each point of its part what is there becomes what the layers show over it, the last
/// layer first. Each takes its pixel, as much of it as its matte lets through, under its opacity, and is blended in its
/// mode. It takes no memory. Opacities are at most 10000, positions within -32768..=32767.
pub fn stack<const MAX: u32>(ground: &mut World<MAX>, layers: &[Placed<MAX>])
    requires { All IsPlaced layers.now }
    ensures frame { SameExtentAndPart ground.old ground.new }
    ensures stacked { (x y : ℤ) → Has ground.old.part x y → at ground.new x y
        ≡ stack_over MAX (map layer_of layers.now) x y (at ground.old x y) }
{
    let part = ground.part();
    let mut into = [0u8; ROOM];
    let mut source = [0u8; ROOM];
    let mut matte = [0u8; ROOM];
    'rows: for k in 0..count(part.top, part.bottom) {
        let y = number_at(part.top, part.bottom, k);
        stack_row(ground, layers, y, &mut into, &mut source, &mut matte);
    }
}
