//! The cache that the frames of a span share.
ghost use Rattle.std.specs.Prelude.{◌≡◌, ◌<◌, ◌∷◌, ◌++◌, [], codes, length, map, slice_get, string_bytes, IfOk, OnOk, Some};
ghost use Rattle.compute_cache.specs.Suite.{budget_of, job_of};
ghost use Rattle.frame_span.specs.Rendered.{IsOpening};

use compute_cache::{Cache, Classes, Pass};
use effect_api::{Draw, Effect};
use host_io::Memory;
use scene_meaning::{Scene, SceneJob};
use std::alloc::Global;

// The classes of a cache of planes and of the effects' sums.
fn classes_of<E: Effect>(alloc: Global, effects: &E) -> Result<Classes, Memory>
    ensures { IfOk result (λ classes. classes ≡ codes "plane" ∷ E.class_names) }
{
    let names = effects.class_names(alloc)?;
    let mut classes = Classes::new(alloc);
    register(alloc, &mut classes, "plane")?;
    register_all(alloc, &mut classes, &names)?;
    Ok(classes)
}

// Adds classes of these names, in order.
fn register_all(alloc: Global, classes: &mut Classes, names: &[String]) -> Result<(), Memory>
    ensures { OnOk result (classes.new ≡ classes.old ++ map string_bytes names.now) }
{
    for place in 0..names.len() {
        register(alloc, classes, name_at(names, place))?;
    }
    Ok(())
}

// The name of a number.
fn name_at(names: &[String], number: usize) -> &str
    requires { number < length names.now }
    ensures { slice_get (map string_bytes names.now) number ≡ Some result.now }
{
    names[number].as_str()
}

// Adds a class, of a name that is new.
fn register(alloc: Global, classes: &mut Classes, name: &str) -> Result<(), Memory>
    ensures { OnOk result (classes.new ≡ classes.old ++ name.now ∷ []) }
{
    match classes.register(alloc, name) {
        Ok(_) => Ok(()),
        Err(_) => Err(Memory),
    }
}

/// A cache of so many bytes for the planes and sums of a scene, and its opening pass.
pub(crate) fn start_cache<'a, E: Draw<MAX>, const MAX: u32>(
    alloc: Global,
    scene: &'a Scene,
    effects: &'a E,
    budget: u64,
) -> Result<(Cache<SceneJob<'a, E, MAX>>, Pass<SceneJob<'a, E, MAX>>), Memory>
    ensures job { IfOk result (λ made. (job_of made.0).scene.now ≡ scene.now) }
    ensures budget { IfOk result (λ made. budget_of made.0 ≡ budget) }
    ensures classes { IfOk result (λ made. made.0.classes ≡ codes "plane" ∷ E.class_names) }
    ensures opening { IfOk result (λ made. IsOpening made.0 0 made.1) }
    ensures made { IfOk result (λ made. made.1.made ≡ 1) }
{
    let classes = classes_of(alloc, effects)?;
    Cache::start(alloc, classes, budget, SceneJob::new(scene, effects))
}
