ghost use Rattle.std.specs.Prelude.{◌≡◌, ◌≤◌, ℕ, length, IfOk, Some};
ghost use Rattle.comp_stack.specs.Stack.{Plane};
ghost use Rattle.comp_stack.specs.Layers.{plane_of};
ghost use Rattle.effect_api.specs.Sets.{EffectSet, Drawing};
ghost use Rattle.scene_meaning.specs.Right.{value_of};

use argb_world::World;
use compute_cache::Made;
use effect_api::Value;
use host_io::Memory;
use project_model::Collection;
use std::alloc::Global;

/// A whole picture as the value of the plane that it shows.
pub fn made_plane<const MAX: u32>(
    alloc: Global,
    world: World<MAX>,
) -> Result<Made<Value<MAX>>, Memory>
    requires whole { world.part ≡ world.extent }
    ensures { (set : EffectSet) (drawing : Drawing) → IfOk result (λ value. value_of set drawing 0 0 (plane_of world.entry) ≡ Some value) }
{
    world.pixels_fill_part();
    Made::new(alloc, Value::Plane(world))
}

/// Sums as the value of what a class answers.
pub fn made_sums<const MAX: u32>(alloc: Global, sums: Vec<u64>) -> Result<Made<Value<MAX>>, Memory>
    ensures { (set : EffectSet) (drawing : Drawing) (class ask : ℕ) (plane : Plane) → 1 ≤ class → class ≤ length set.class_names
        → sums.items ≡ drawing.sums_of class ask plane → IfOk result (λ value. value_of set drawing class ask plane ≡ Some value) }
{
    Made::new(alloc, Value::Sums(Collection::from_vec(sums)))
}
