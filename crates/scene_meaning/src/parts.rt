//! The parts of a scene: compositions, layers, clips, and when effects are drawn.
ghost use Rattle.std.specs.Prelude.{◌≡◌, ◌≤◌, ◌<◌, ◌≤ℤ◌, ◌*◌, pos, length, All, Some, slice_get};
ghost use Rattle.geom_rect.specs.Rect as rect;
ghost use Rattle.rational_time.specs.Times.{tick_of};
ghost use Rattle.rational_time.specs.declared.time.TheConstants.{MOST_SECONDS};
ghost use Rattle.project_model.specs.Bounds.{greatest_base};
ghost use Rattle.project_model.specs.Nesting.{IsAcyclic};
ghost use Rattle.project_model.specs.declared.comp.Comp.{Comp};
ghost use Rattle.project_model.specs.Plain.{plain_of};
ghost use Rattle.project_model.specs.Sound.{IsSoundClip, IsWritten};
ghost use Rattle.scene_meaning.specs.Drawn.{moment_at};
ghost use Rattle.scene_meaning.specs.Parts.{IsCompOf, IsLayerOf, IsLayerIn};
ghost use Rattle.scene_meaning.specs.Scene.{EndsInTime};
ghost use Rattle.scene_meaning.specs.Shown.{base_in};

use crate::Scene;
use effect_api::Moment;
use geom_rect::Rect;
use project_model::{ClipUse, Comp, Layer};
use rational_time::{Tick, TimeBase, to_tick};

/// The rectangle of this width and height at the origin.
pub fn frame_rect(width: u32, height: u32) -> Rect
    requires width { width ≤ 4096 }
    requires height { height ≤ 4096 }
    ensures { result ≡ rect.frame_rect width height }
{
    Rect {
        left: 0,
        top: 0,
        right: width as i32,
        bottom: height as i32,
    }
}

/// The ticks of a second in a scene.
pub fn base_of(scene: &Scene) -> TimeBase
    ensures base { result ≡ scene.now.project.base }
    ensures ticks { result.ticks ≡ base_in (plain_of scene.now.project) }
    ensures some { 1 ≤ result.ticks }
    ensures bound { result.ticks ≤ greatest_base }
    ensures nesting { IsAcyclic (plain_of scene.now.project) }
    ensures comps { All (IsCompOf scene.now.project) scene.now.project.comps }
{
    scene.project().base
}

/// The composition of an index.
pub fn comp_at(scene: &Scene, index: u32) -> &Comp
    requires { index < length scene.now.project.comps }
    ensures here { slice_get scene.now.project.comps index ≡ Some result.now }
    ensures sound { IsCompOf scene.now.project result.now }
    ensures ends { EndsInTime result.now }
    ensures nesting { IsAcyclic (plain_of scene.now.project) }
{
    &scene.project().comps.as_slice()[index as usize]
}

/// The layer of an index in a composition, whose source has a rank below that of the composition.
pub fn layer_at(scene: &Scene, of: u32, index: usize) -> &Layer
    requires comp { of < length scene.now.project.comps }
    requires layer { (comp : Comp) → slice_get scene.now.project.comps of ≡ Some comp → index < length comp.layers }
    ensures here { (comp : Comp) → slice_get scene.now.project.comps of ≡ Some comp → slice_get comp.layers index ≡ Some result.now }
    ensures sound { IsLayerOf scene.now.project result.now }
    ensures inside { (comp : Comp) → slice_get scene.now.project.comps of ≡ Some comp → IsLayerIn scene.now.project of comp result.now }
{
    let comp = comp_at(scene, of);
    &comp.layers.as_slice()[index]
}

/// The declaration of the clip of an index.
pub fn clip_use_at(scene: &Scene, index: u32) -> &ClipUse
    requires { index < length scene.now.project.clips }
    ensures here { slice_get scene.now.project.clips index ≡ Some result.now }
    ensures sound { IsSoundClip (base_in (plain_of scene.now.project)) result.now }
{
    &scene.project().clips.as_slice()[index as usize]
}

/// The moment of an effect in a composition at a tick.
pub fn moment_of(base: TimeBase, comp: &Comp, tick: Tick) -> Moment
    requires frame { IsWritten base.ticks comp.now.frame }
    requires some { pos 1 ≤ℤ comp.now.frame.value }
    requires base { 1 ≤ base.ticks }
    ensures moment { result ≡ moment_at base.ticks (tick_of base.ticks comp.now.frame) tick.0 }
    ensures low { pos 1 ≤ℤ result.frame }
    ensures high { result.frame ≤ℤ pos (MOST_SECONDS * base.ticks) }
{
    Moment {
        base,
        tick,
        frame: to_tick(base, comp.frame).0,
    }
}
