//! The planes of clips.
ghost use Rattle.std.specs.Prelude.{◌≡◌, ◌≤◌, ◌<◌, ◌<ℤ◌, ◌≤ℤ◌, ◌↔◌, ℤ, pos, length, unsigned_abs, IfOk, IsTrue};
ghost use Rattle.geom_rect.specs.Rect.{Has, frame_rect, width_of};
ghost use Rattle.argb_pixel.specs.Depth.{IsDepth};
ghost use Rattle.argb_world.specs.Picture.{HasRow, SameExtentAndPart, StaysOffRow, at};
ghost use Rattle.project_model.specs.Bounds.{most_of, most_frames};
ghost use Rattle.project_model.specs.Sound.{IsPictureSize, IsSoundClip};
ghost use Rattle.effect_api.specs.Sets.{EffectSet, Drawing};
ghost use Rattle.frame_file.specs.Clip.{pixel_in};
ghost use Rattle.scene_meaning.specs.Scene.{plain_scene};
ghost use Rattle.scene_meaning.specs.Shown.{clip_plane, picture_at};
ghost use Rattle.rational_time.specs.Times.{tick_of};
ghost use Rattle.frame_draw.specs.Areas.{IsPartOf, StandsFor, area_in};
ghost use Rattle.frame_draw.specs.Kept.{HasRoom, picture_among};

use crate::layers::area_in;
use argb_pixel::{Pixel, Transparent};
use argb_world::World;
use frame_file::Clip;
use geom_rect::Rect;
use host_io::Memory;
use project_model::ClipUse;
use rational_time::{Tick, TimeBase, frame_of, to_tick};
use scene_meaning::{Scene, base_of, clip_use_at, frame_rect};
use std::alloc::Global;

/// What the clip of an index shows at a tick of its own, drawn where that is requested: the picture in which the tick lies, and
/// nothing where there is none.
pub(crate) fn clip_world<const MAX: u32>(
    alloc: Global,
    scene: &Scene,
    index: u32,
    tick: Tick,
    request: Rect,
) -> Result<World<MAX>, Memory>
    requires depth { MAX ≡ most_of scene.now.project.depth }
    requires clip { index < length scene.now.project.clips }
    ensures stands { (set : EffectSet) (drawing : Drawing) → IfOk result (StandsFor request (clip_plane (plain_scene scene.now set drawing) index tick.0)) }
    ensures part { IfOk result (λ world. world.part ≡ area_in world.extent request) }
{
    let declared = clip_use_at(scene, index);
    let picture = frame_of(tick, frame_ticks(base_of(scene), declared));
    picture_world(alloc, scene.clip(index), picture, request)
}

// How many ticks a picture of the clip lasts.
fn frame_ticks(base: TimeBase, declared: &ClipUse) -> i64
    requires some { 1 ≤ base.ticks }
    requires sound { IsSoundClip base.ticks declared.now }
    ensures some { pos 1 ≤ℤ result }
    ensures value { result ≡ tick_of base.ticks declared.now.frame }
{
    to_tick(base, declared.frame).0
}

// A picture of a clip where it is requested, transparent where the clip has no such picture.
fn picture_world<const MAX: u32>(
    alloc: Global,
    clip: &Clip,
    picture: i64,
    request: Rect,
) -> Result<World<MAX>, Memory>
    requires depth { IsDepth MAX }
    requires size { IsPictureSize clip.now.width clip.now.height }
    requires frames { clip.now.frames ≤ most_frames }
    ensures extent { IfOk result (λ world. world.extent ≡ frame_rect clip.now.width clip.now.height) }
    ensures part { IfOk result (λ world. world.part ≡ area_in world.extent request) }
    ensures points { IfOk result (λ world. (x y : ℤ) → Has world.part x y → at world x y ≡ picture_at MAX clip.now picture x y) }
{
    let extent = frame_rect(clip.width(), clip.height());
    let part = area_in(&extent, &request);
    let mut world = World::blank(alloc, extent, part)?;
    match picture_among(picture, clip.frames()) {
        None => Ok(world),
        Some(number) => {
            let mut row = row_room(alloc, clip, width(&part))?;
            draw_picture(clip, number, &mut row, &mut world);
            Ok(world)
        }
    }
}

// The number of a picture, where it is one of so many.
fn picture_among(picture: i64, frames: u32) -> Option<u32>
    ensures { result ≡ picture_among picture frames }
{
    if 0 <= picture && picture < i64::from(frames) {
        Some(picture as u32)
    } else {
        None
    }
}

// Whether the clip keeps its pixels in the depth `MAX`.
fn is_of_depth<const MAX: u32>(clip: &Clip) -> bool
    ensures { IsTrue result ↔ (most_of clip.now.depth ≡ MAX) }
{
    if clip.depth() == 8 {
        MAX == 255
    } else {
        MAX == 32768
    }
}

// How many points a row has.
fn width(part: &Rect) -> usize
    requires { part.now.left ≤ℤ part.now.right }
    ensures { result ≡ width_of part.now }
{
    part.right.abs_diff(part.left) as usize
}

// A column or a row that is not to the left of the picture or above it.
fn place(side: i32) -> u32
    requires { pos 0 ≤ℤ side }
    ensures { pos result ≡ side }
{
    side as u32
}

// Room for a row of so many pixels, where the clip keeps them in another depth.
fn row_room<const MAX: u32>(
    alloc: Global,
    clip: &Clip,
    width: usize,
) -> Result<Vec<Pixel<MAX>>, Memory>
    ensures { IfOk result (λ row. HasRoom MAX clip.now.depth width (length row.items)) }
{
    if is_of_depth::<MAX>(clip) {
        Ok(Vec::new(alloc))
    } else {
        Ok(vec![in alloc; Pixel::CLEAR; width]?)
    }
}

// Draws the part of a picture of the clip, by room for a row where the depths differ.
fn draw_picture<const MAX: u32>(
    clip: &Clip,
    picture: u32,
    row: &mut [Pixel<MAX>],
    world: &mut World<MAX>,
)
    requires depth { IsDepth MAX }
    requires height { clip.now.height ≤ 4096 }
    requires picture { picture < clip.now.frames }
    requires part { IsPartOf clip.now.width clip.now.height world.old.part }
    requires room { HasRoom MAX clip.now.depth (width_of world.old.part) (length row.old) }
    ensures frame { SameExtentAndPart world.old world.new }
    ensures points { (x y : ℤ) → Has world.new.part x y → at world.new x y ≡ pixel_in MAX clip.now picture (unsigned_abs x) (unsigned_abs y) }
{
    let part = world.part();
    let top = place(part.top);
    let bottom = place(part.bottom);
    for y in top..bottom {
        draw_row(clip, picture, y, row, world);
    }
}

// Draws a row of the part: its bytes as the clip keeps them, and as pixels where the depths differ.
fn draw_row<const MAX: u32>(
    clip: &Clip,
    picture: u32,
    y: u32,
    row: &mut [Pixel<MAX>],
    world: &mut World<MAX>,
)
    requires depth { IsDepth MAX }
    requires small { y < 4096 }
    requires picture { picture < clip.now.frames }
    requires part { IsPartOf clip.now.width clip.now.height world.old.part }
    requires height { HasRow world.old.part (pos y) }
    requires room { HasRoom MAX clip.now.depth (width_of world.old.part) (length row.old) }
    ensures frame { SameExtentAndPart world.old world.new }
    ensures points { (x : ℤ) → Has world.new.part x (pos y) → at world.new x (pos y) ≡ pixel_in MAX clip.now picture (unsigned_abs x) y }
    ensures others { StaysOffRow (pos y) world.old world.new }
{
    let part = world.part();
    let left = place(part.left);
    if is_of_depth::<MAX>(clip) {
        world.set_packed_row(
            y as i32,
            clip.packed_span::<MAX>(picture, left, y, width(&part)),
        );
    } else {
        clip.read_span(picture, left, y, row);
        world.set_row(y as i32, row);
    }
}
