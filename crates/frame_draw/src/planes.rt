//! The planes of compositions that a frame uses more than once.
ghost use Rattle.std.specs.Prelude.{◌≡◌, ◌↔◌, ◌≤◌, ℤ, IfOk, IfSome, IsTrue};
ghost use Rattle.geom_rect.specs.Rect.{IsWithin, area_of};
ghost use Rattle.argb_world.specs.Picture.{at, greatest_part};
ghost use Rattle.argb_pixel.specs.Depth.{IsDepth};
ghost use Rattle.comp_stack.specs.Layers.{plane_of};
ghost use Rattle.frame_draw.specs.Areas.{StandsFor};
ghost use Rattle.frame_draw.specs.Kept.{StandsAt};

use crate::layers::area_in;
use argb_world::World;
use geom_rect::Rect;
use host_io::Memory;
use rational_time::Tick;
use std::alloc::Global;

/// How often a frame still uses what a composition shows at a tick.
#[derive(Drop)]
pub(crate) struct Use {
    comp: u32,
    tick: Tick,
    times: u32,
}

/// What a composition shows at a tick.
#[derive(Drop)]
pub(crate) struct Kept<const MAX: u32> {
    pub(crate) comp: u32,
    pub(crate) tick: Tick,
    pub(crate) world: World<MAX>,
}

/// The planes that are kept while a frame is drawn.
#[derive(Drop)]
pub(crate) struct Planes<const MAX: u32> {
    pub(crate) uses: Vec<Use>,
    pub(crate) kept: Vec<Kept<MAX>>,
}

/// Notes one more use, and says whether it is the first. The count stays where it is the greatest.
pub(crate) fn add_use(uses: &mut Vec<Use>, comp: u32, tick: Tick) -> Result<bool, Memory> {
    for entry in uses.iter_mut() {
        if entry.comp == comp && entry.tick.0 == tick.0 {
            entry.times = entry.times.saturating_add(1);
            return Ok(false);
        }
    }
    uses.push(Use {
        comp,
        tick,
        times: 1,
    })?;
    Ok(true)
}

/// Takes one use off, and says whether there are more.
pub(crate) fn spend_use(uses: &mut [Use], comp: u32, tick: Tick) -> bool {
    for entry in uses.iter_mut() {
        if entry.comp == comp && entry.tick.0 == tick.0 {
            entry.times = entry.times.saturating_sub(1);
            return entry.times > 0;
        }
    }
    false
}

/// Where the plane of a composition at a tick is kept, if it is.
pub(crate) fn find_kept<const MAX: u32>(kept: &[Kept<MAX>], comp: u32, tick: Tick) -> Option<usize>
    ensures { IfSome result (StandsAt kept.now comp tick.0) }
{
    for (place, entry) in kept.iter().enumerate() {
        if entry.comp == comp && entry.tick.0 == tick.0 {
            return Some(place);
        }
    }
    None
}

/// The same plane where it is requested.
pub(crate) fn part_of<const MAX: u32>(
    alloc: Global,
    world: &World<MAX>,
    request: Rect,
) -> Result<World<MAX>, Memory>
    requires { world.now.part ≡ world.now.extent }
    ensures { IfOk result (StandsFor request (plane_of world.now)) }
{
    world.crop(alloc, area_in(&world.part(), &request))
}

/// The same picture with all of its extent as its part.
pub(crate) fn whole_world<const MAX: u32>(
    alloc: Global,
    world: World<MAX>,
) -> Result<World<MAX>, Memory>
    requires few { area_of world.extent ≤ greatest_part }
    ensures extent { IfOk result (λ whole. whole.extent ≡ world.entry.extent) }
    ensures part { IfOk result (λ whole. whole.part ≡ world.entry.extent) }
    ensures points { IfOk result (λ whole. (x y : ℤ) → at whole x y ≡ at world.entry x y) }
    ensures inside { IsWithin world.entry.part world.entry.extent }
{
    let extent = world.extent();
    if is_whole(&world) {
        return Ok(world);
    }
    let mut whole = World::blank(alloc, extent, extent)?;
    whole.copy_from(&world);
    Ok(whole)
}

// Whether all of a picture's extent is its part.
fn is_whole<const MAX: u32>(world: &World<MAX>) -> bool
    ensures whole { IsTrue result ↔ (world.now.part ≡ world.now.extent) }
    ensures inside { IsWithin world.now.part world.now.extent }
{
    same_sides(&world.part(), &world.extent())
}

// Whether two rectangles have the same sides.
fn same_sides(rect: &Rect, other: &Rect) -> bool
    ensures { IsTrue result ↔ (rect.now ≡ other.now) }
{
    rect.left == other.left
        && rect.top == other.top
        && rect.right == other.right
        && rect.bottom == other.bottom
}
