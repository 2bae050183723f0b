ghost use Rattle.std.specs.Prelude.{◌≡◌, ◌<◌, ◌≤◌, ℕ, ℤ, List, length, IfOk, OnOk};
ghost use Rattle.std.specs.List.{All};
ghost use Rattle.geom_rect.specs.declared.rect.Rect.{Rect};
ghost use Rattle.argb_pixel.specs.Depth.{IsDepth};
ghost use Rattle.argb_pixel.specs.Pixel.{Argb};
ghost use Rattle.argb_world.specs.Picture.{SameExtentAndPart};
ghost use Rattle.comp_stack.specs.Stack.{Plane};
ghost use Rattle.comp_stack.specs.Layers.{plane_of};
ghost use Rattle.project_model.specs.Effects.{Use, use_of};
ghost use Rattle.effect_api.specs.declared.moment.Moment.{Moment};
ghost use Rattle.effect_api.specs.Fits.{IsBased, IsGiven};
ghost use Rattle.effect_api.specs.Planes.{HasSides, extents_of};
ghost use Rattle.effect_api.specs.Checked.{IsPlaneValue, IsSumsValue, value_world, planes_of, sums_in, AreChecked, AreSums};
ghost use Rattle.effect_api.specs.Effects.{IsInput, IsDrawing, IsLocal, Shows};

use crate::checkouts::{Checkouts, Value};
use crate::effect::Effect;
use crate::moment::Moment;
use argb_world::World;
use compute_cache::{Keeps, Receipt, Turn};
use host_io::Memory;
use project_model::FxUse;
use std::alloc::Global;

/// A set of effects that draws pixels whose channels are at most `MAX`, 255 or 32768.
pub trait Draw<const MAX: u32>: Effect {
    // The pixel at a point, from the planes of the wants and the sums of the asks. It is premultiplied everywhere and clear
    // outside the bounds, for any planes and any sums of planes.
    ghost draws: { Use → Moment → List Plane → List (List ℕ) → ℤ → ℤ → Argb };

    // The sums that a class answers to a question of its own number over a plane: by the plane's extent and pixels alone.
    ghost sums_of: { ℕ → ℕ → Plane → List ℕ };

    /// The SDK's smart render: each point of the target's part is drawn from the pixels that were checked out, pair `i` being
    /// those of want `i`, and from the sums that were asked for, in their order. What is wanted at another tick than the
    /// moment's is shared. A world that was checked out may have fewer points than its extent: what is missing counts as
    /// transparent, and the target, whose part may leave the bounds, is drawn from what is handed in. The sides of the
    /// extents and of the target's part are within -100,000..=100,000.
    fn smart_render<K: Keeps<Value = Value<MAX>>>(
        &self,
        alloc: Global,
        fx: &FxUse,
        at: Moment,
        pixels: &Checkouts<MAX, K>,
        sums: &[Receipt<K>],
        target: &mut World<MAX>,
    ) -> Result<(), Memory>
        requires depth { IsDepth MAX }
        requires given { IsGiven Self.schemas (use_of fx.now) at }
        requires based { IsBased fx.now at }
        requires pixels { AreChecked (Self.wants (use_of fx.now) at) at pixels.now.pairs }
        requires part { HasSides target.old.part }
        requires receipts { All (λ receipt. IsSumsValue receipt.value) sums.now }
        requires sums { AreSums MAX sums_of (Self.asks (use_of fx.now) at) (sums_in sums.now) }
        ensures frame { SameExtentAndPart target.old target.new }
        ensures drawn { OnOk result (Shows target.old.part (draws (use_of fx.now) at (planes_of pixels.now.pairs) (sums_in sums.now)) target.new) };

    /// The sums of a plane that a class of the set answers a question of, in the turn to compute them. The receipt's value is
    /// a whole plane.
    fn analyse<K: Keeps<Value = Value<MAX>>>(
        &self,
        alloc: Global,
        turn: &Turn<K>,
        class: u8,
        ask: u32,
        plane: &Receipt<K>,
    ) -> Result<Vec<u64>, Memory>
        requires depth { IsDepth MAX }
        requires class_low { 1 ≤ class }
        requires class_high { class ≤ length Self.class_names }
        requires turn_is { turn.now.class ≡ class }
        requires ask { ask < 16777216 }
        requires plane { IsPlaneValue plane.now.value }
        requires whole { (value_world plane.now.value).part ≡ (value_world plane.now.value).extent }
        ensures { IfOk result (λ list. list.items ≡ sums_of class ask (plane_of (value_world plane.now.value))) };

    // Laws. What is drawn is a picture, transparent outside the bounds.
    ghost draws_are: { (fx : Use) (at : Moment) (planes : List Plane) (sums : List (List ℕ)) → IsGiven Self.schemas fx at
        → IsInput MAX sums_of (Self.wants fx at) (Self.asks fx at) planes sums
        → IsDrawing MAX (Self.bounds fx at (extents_of planes)) (draws fx at planes sums) };

    // Planes that agree on what is needed, and the same sums, give the same pixels.
    ghost draws_locally: { (fx : Use) (at : Moment) (extents : List Rect) → IsGiven Self.schemas fx at
        → IsLocal MAX sums_of (Self.wants fx at) (Self.asks fx at) extents (λ rect i. Self.need fx at extents i rect) (draws fx at) };

    // A list of sums has at most 65,536 numbers.
    ghost sums_are_few: { (class ask : ℕ) (plane : Plane) → length (sums_of class ask plane) ≤ 65536 };
}
