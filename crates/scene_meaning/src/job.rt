//! A scene as the job of a cache: what is kept under each key.
ghost use Rattle.std.specs.Prelude.{◌≡◌};
ghost use Rattle.scene_meaning.specs.Right.{kept, size_in};
ghost use Rattle.scene_meaning.specs.Scene.{plain_scene};

use crate::Scene;
use argb_pixel::pixel_size;
use compute_cache::Keeps;
use effect_api::{Draw, Value};

/// What a cache keeps of a scene and an effect set: under class 0 the planes of the scene's nodes, and under the set's classes their
/// sums. It borrows both.
#[derive(Drop)]
pub struct SceneJob<'a, E, const MAX: u32> {
    pub scene: &'a Scene,
    pub effects: &'a E,
}

impl<'a, E, const MAX: u32> SceneJob<'a, E, MAX> {
    /// The job of a scene and of an effect set. It takes no memory.
    pub fn new(scene: &'a Scene, effects: &'a E) -> SceneJob<'a, E, MAX>
        ensures scene { result.scene.now ≡ scene.now }
        ensures effects { result.effects.now ≡ effects.now }
    {
        SceneJob { scene, effects }
    }
}

impl<'a, E: Draw<MAX>, const MAX: u32> Keeps for SceneJob<'a, E, MAX> {
    type Value = Value<MAX>;

    ghost meaning = { λ job class key. kept MAX (plain_scene job.scene.now record {
      schemas = E.schemas;
      class_names = E.class_names;
      wants = E.wants;
      asks = E.asks;
      bounds = E.bounds;
      need = E.need;
    } record { draws = E.draws; sums_of = E.sums_of }) class key };

    ghost size_of = { size_in };

    fn size(value: &Value<MAX>) -> u32 {
        match value {
            Value::Plane(world) => (64 + pixel_size::<MAX>() as u64 * world.part().area()) as u32,
            Value::Sums(sums) => (64 + 8 * sums.as_slice().len()) as u32,
        }
    }

    ghost use Rattle.scene_meaning.specs.Sizes.{kept_fits};

    ghost sizes_fit = { λ job class key value is. kept_fits MAX (plain_scene job.scene.now record {
      schemas = E.schemas;
      class_names = E.class_names;
      wants = E.wants;
      asks = E.asks;
      bounds = E.bounds;
      need = E.need;
    } record { draws = E.draws; sums_of = E.sums_of }) class key value E.sums_are_few is };
}
