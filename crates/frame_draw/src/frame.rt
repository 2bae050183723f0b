ghost use Rattle.std.specs.Prelude.{◌≡◌, ◌<◌, ◌∷◌, [], codes, IfOk, Some};
ghost use Rattle.project_model.specs.Bounds.{most_of};
ghost use Rattle.project_model.specs.Plain.{plain_of};
ghost use Rattle.scene_meaning.specs.Output.{frame_count, root_of, frame_tick as meaning_tick};
ghost use Rattle.project_model.specs.declared.plain.PlainComp.{PlainComp};
ghost use Rattle.project_model.specs.Uses.{AreUses};
ghost use Rattle.compute_cache.specs.Passes.{turns};
ghost use Rattle.compute_cache.specs.Suite.{IsAsBefore, IsOf, job_of};
ghost use Rattle.scene_meaning.specs.Shown.{base_in};
ghost use Rattle.effect_api.specs.Fits.{IsHeld};
ghost use Rattle.frame_draw.specs.Drawn.{IsFrame};

use crate::context::Context;
use crate::count::count_uses;
use crate::draw::whole_comp;
use crate::planes::Planes;
use argb_world::World;
use compute_cache::{Cache, Pass};
use effect_api::{Draw, set_is_lawful};
use host_io::Memory;
use rational_time::{Tick, frame_tick, to_tick};
use scene_meaning::{Means, Scene, SceneJob, base_of, comp_at};
use std::alloc::Global;
use std::sync::Wait;

/// The picture of a frame of the scene's root, over the root's frame. The root has the frame, counted from 0, and `MAX` is the
/// greatest value of a channel at the project's depth. The project's effects are of this set. The cache was started with the job of the
/// scene and the effects, and with the class `plane` and then those of the set; planes at other ticks and sums are shared through it.
/// The pass is of the cache and computes nothing. Afterwards it holds and computes what it did before, on `Memory` too.
pub fn draw_frame<'a, R: Wait, E: Draw<MAX>, const MAX: u32>(
    rt: &R,
    alloc: Global,
    scene: &Scene,
    effects: &E,
    cache: &Cache<SceneJob<'a, E, MAX>>,
    pass: &mut Pass<SceneJob<'a, E, MAX>>,
    frame: u32,
) -> Result<World<MAX>, Memory>
    requires depth { MAX ≡ most_of scene.now.project.depth }
    requires uses { AreUses E.schemas scene.now.project }
    requires frame { frame < frame_count (plain_of scene.now.project) }
    requires job { (job_of cache.now).scene.now ≡ scene.now }
    requires classes { cache.now.classes ≡ codes "plane" ∷ E.class_names }
    requires own { IsOf cache.now pass.old }
    requires no_turn { turns pass.old ≡ [] }
    ensures frame { IfOk result (IsFrame (⟦<E as Means<MAX>>⟧.scene scene.now) frame) }
    ensures nothing_held { IsAsBefore pass.old pass.new }
{
    set_is_lawful::<E>();
    let root = scene.project().root;
    let tick = root_tick(scene, frame);
    let mut planes = Planes {
        uses: Vec::new(alloc),
        kept: Vec::new(alloc),
    };
    count_uses(scene, &mut planes.uses, root, tick)?;
    let context = Context {
        rt,
        alloc,
        scene,
        effects,
        cache,
    };
    whole_comp(&context, &mut planes, pass, root, tick)
}

// The tick at which a frame of the root begins.
fn root_tick(scene: &Scene, frame: u32) -> Tick
    requires { frame < frame_count (plain_of scene.now.project) }
    ensures held { IsHeld (base_in (plain_of scene.now.project)) result.0 }
    ensures tick { (comp : PlainComp) → root_of (plain_of scene.now.project) ≡ Some comp → result.0 ≡ meaning_tick (plain_of scene.now.project) comp frame }
{
    let comp = comp_at(scene, scene.project().root);
    frame_tick(frame, to_tick(base_of(scene), comp.frame).0)
}
