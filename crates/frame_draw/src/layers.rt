//! Layers at a tick.
ghost use Rattle.std.specs.Prelude.{◌≡◌, ◌<◌, ◌<ℤ◌, ◌≤◌, ◌-ℤ◌, ℤ, unsigned_abs, ◌&&◌, int_le, int_lt, pos, ◌*ℤ◌, length, IfOk};
ghost use Rattle.argb_pixel.specs.Depth.{IsDepth};
ghost use Rattle.project_model.specs.Plain.{plain_layer, plain_comp};
ghost use Rattle.project_model.specs.Sound.{IsPictureSize, IsWritten, MayBeWritten, IsMadeLayer, IsMadeWith};
ghost use Rattle.project_model.specs.Bounds.{full_opacity, greatest_position, least_position};
ghost use Rattle.comp_stack.specs.Stack.{solid_plane};
ghost use Rattle.comp_stack.specs.Layers.{IsPosition, IsShown, plane_of};
ghost use Rattle.scene_meaning.specs.Shown as meaning;
ghost use Rattle.project_model.specs.Rules as rules;
ghost use Rattle.effect_api.specs.Fits.{IsHeld};
ghost use Rattle.frame_draw.specs.Areas.{IsArea, area_in};
ghost use Rattle.geom_rect.specs.Rect.{Has};
ghost use Rattle.param_stream.specs.Curve.{value_at};
ghost use Rattle.effect_api.specs.Planes.{HasSides};

use argb_pixel::Pixel;
use argb_world::World;
use comp_stack::Shown;
use geom_rect::Rect;
use host_io::Memory;
use param_stream::Stream;
use project_model::{Comp, Layer};
use rational_time::{Tick, TimeBase, held, to_tick};
use scene_meaning::frame_rect;
use std::alloc::Global;
use track_matte::Matte;

/// Whether a tick is within a composition's time.
pub(crate) fn is_in_time(base: TimeBase, comp: &Comp, tick: Tick) -> bool
    requires { IsWritten base.ticks comp.now.frame }
    ensures { result ≡ (int_le (pos 0) tick.0 && int_lt tick.0 (meaning.end_of_comp base.ticks (plain_comp comp.now))) }
{
    0 <= tick.0 && is_below(tick.0, comp.frames, to_tick(base, comp.frame).0)
}

// Whether a tick is before so many frames of this length end.
fn is_below(tick: i64, frames: u32, ticks: i64) -> bool
    ensures { result ≡ int_lt tick (pos frames *ℤ ticks) }
{
    i128::from(tick) < product(frames, ticks)
}

// The product of the two.
fn product(frames: u32, ticks: i64) -> i128
    ensures { result ≡ (pos frames *ℤ ticks) }
{
    i128::from(frames) * i128::from(ticks)
}

/// Whether a layer is seen at a tick before the end of its composition.
pub(crate) fn is_seen(base: TimeBase, comp: &Comp, layer: &Layer, tick: Tick) -> bool
    requires begin { IsWritten base.ticks layer.now.in_point }
    requires end { MayBeWritten base.ticks layer.now.out_point }
    requires within { tick.0 <ℤ meaning.end_of_comp base.ticks (plain_comp comp.now) }
    ensures { result ≡ meaning.is_seen base.ticks (plain_comp comp.now) tick.0 (plain_layer layer.now) }
{
    if tick.0 < to_tick(base, layer.in_point).0 {
        return false;
    }
    match layer.out_point {
        Some(out) => tick.0 < to_tick(base, out).0,
        None => true,
    }
}

/// Whether a layer has a matte.
pub(crate) fn has_matte(layer: &Layer) -> bool
    ensures { result ≡ rules.has_matte (plain_layer layer.now) }
{
    layer.matte != Matte::None
}

/// Whether the layer of this index is the matte of the one below it.
pub(crate) fn serves_as_matte(comp: &Comp, index: usize) -> bool
    requires { index < length comp.now.layers }
    ensures { result ≡ meaning.serves_as_matte (plain_comp comp.now) index }
{
    match comp.layers.as_slice().get(index + 1) {
        Some(below) => has_matte(below),
        None => false,
    }
}

/// The tick since a layer's own time began.
pub(crate) fn since_start(base: TimeBase, layer: &Layer, tick: Tick) -> Tick
    requires { IsWritten base.ticks layer.now.start }
    ensures tick { result.0 ≡ meaning.since base.ticks layer.now.start tick.0 }
    ensures held { IsHeld base.ticks result.0 }
{
    held(
        base,
        i128::from(tick.0) - i128::from(to_tick(base, layer.start).0),
    )
}

/// Where a layer's streams put its picture at a tick, and under which opacity, in 1/10000.
#[derive(Clone, Copy)]
pub(crate) struct Position {
    x: i32,
    y: i32,
    opacity: u32,
    ghost across: { IsPosition x },
    ghost down: { IsPosition y },
    ghost part: { opacity ≤ 10000 },
}

impl Position {
    /// The points of the picture that an area shows.
    pub(crate) fn request(&self, area: Rect) -> Rect
        requires { IsArea area }
        ensures near { HasSides result }
        ensures points { (x y : ℤ) → Has area x y → Has result (x -ℤ self.now.x) (y -ℤ self.now.y) }
    {
        area.shift(-self.x, -self.y)
    }

    /// The picture there.
    pub(crate) fn shown<const MAX: u32>(&self, world: World<MAX>) -> Shown<MAX>
        ensures fits { IsShown result }
        ensures world { result.world ≡ world.entry }
        ensures x { result.x ≡ self.now.x }
        ensures y { result.y ≡ self.now.y }
        ensures opacity { result.opacity ≡ self.now.opacity }
    {
        Shown {
            world,
            x: self.x,
            y: self.y,
            opacity: self.opacity,
        }
    }
}

// The value of a stream of places at a tick.
fn place_at(base: TimeBase, stream: &Stream, tick: Tick) -> i32
    requires { IsMadeWith base.ticks least_position greatest_position stream.now }
    ensures value { result ≡ value_at base.ticks stream.now.keys tick.0 }
    ensures near { IsPosition result }
{
    stream.at(tick) as i32
}

// The value of a stream of opacities at a tick.
fn opacity_at(base: TimeBase, stream: &Stream, tick: Tick) -> u32
    requires { IsMadeWith base.ticks (pos 0) full_opacity stream.now }
    ensures value { result ≡ unsigned_abs (value_at base.ticks stream.now.keys tick.0) }
    ensures part { result ≤ 10000 }
{
    stream.at(tick) as u32
}

/// Where a layer's streams put it at a tick.
pub(crate) fn position_of(base: TimeBase, layer: &Layer, tick: Tick) -> Position
    requires { IsMadeLayer base.ticks layer.now }
    ensures x { result.x ≡ value_at base.ticks layer.now.x.keys tick.0 }
    ensures y { result.y ≡ value_at base.ticks layer.now.y.keys tick.0 }
    ensures opacity { result.opacity ≡ unsigned_abs (value_at base.ticks layer.now.opacity.keys tick.0) }
{
    Position {
        x: place_at(base, &layer.x, tick),
        y: place_at(base, &layer.y, tick),
        opacity: opacity_at(base, &layer.opacity, tick),
    }
}

/// The part of an extent that is drawn for a request, and `0,0,0,0` where they have no point in common.
pub(crate) fn area_in(extent: &Rect, request: &Rect) -> Rect
    ensures { result ≡ area_in extent.now request.now }
{
    let area = extent.meet(request);
    if area.is_empty() { Rect::ORIGIN } else { area }
}

/// One colour over the rectangle of this width and height at the origin.
pub(crate) fn solid_world<const MAX: u32>(
    alloc: Global,
    width: u32,
    height: u32,
    colour: Pixel<MAX>,
) -> Result<World<MAX>, Memory>
    requires depth { IsDepth MAX }
    requires size { IsPictureSize width height }
    ensures { IfOk result (λ world. plane_of world ≡ solid_plane width height colour.entry) }
{
    World::solid(alloc, frame_rect(width, height), colour)
}
