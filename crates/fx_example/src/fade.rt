ghost use Rattle.std.specs.Prelude.{◌≡◌, ◌<◌, ◌≤◌, [], length, IfOk, OnOk};
ghost use Rattle.std.specs.List.{All};
ghost use Rattle.argb_pixel.specs.Depth.{IsDepth};
ghost use Rattle.argb_pixel.specs.Pixel.{scale_of};
ghost use Rattle.argb_world.specs.Picture.{SameExtentAndPart};
ghost use Rattle.comp_stack.specs.Layers.{plane_of};
ghost use Rattle.project_model.specs.Effects.{FitsKind, schema_of, use_of};
ghost use Rattle.effect_api.specs.Fits.{IsBased, IsGiven};
ghost use Rattle.effect_api.specs.Planes.{HasSides};
ghost use Rattle.effect_api.specs.Checked.{IsPlaneValue, IsSumsValue, value_world, planes_of, sums_in, AreChecked, AreSums};
ghost use Rattle.effect_api.specs.Effects.{Shows};
ghost use Rattle.effect_api.specs.Own.{own_wants, own_bounds, no_classes, no_sums};
ghost use Rattle.effect_api.specs.Laws.{own_wants_are, no_asks_are, no_classes_are, own_bounds_are, no_sums_few};
ghost use Rattle.fx_example.specs.Fade.{fade_schemas, amount_of, fade_draws};
ghost use Rattle.fx_example.specs.Laws.{fade_schemas_are, fade_drawing, fade_local};

use argb_pixel::Pixel;
use argb_world::World;
use compute_cache::{Keeps, Receipt, Turn};
use effect_api::{
    Ask, Checkouts, Draw, Effect, Moment, NO_SEQUENCE, PreRender, Value, Want, checkout_param,
    own_pre_render, own_wants, param_schema, plain_schema,
};
use fx_color::{Recolor, recolor_world};
use geom_rect::Rect;
use host_io::Memory;
use project_model::{EffectSchema, FxUse};
use sequence_data::{Sequence, SequenceError, keep_sequence};
use std::alloc::Global;

/// What is left of each pixel, in 1/10000.
#[derive(Clone, Copy)]
pub struct Faded {
    pub amount: u32,
    pub ghost in_range: { amount ≤ 10000 },
}

impl<const MAX: u32> Recolor<MAX> for Faded {
    ghost recolored = { λ fade p. scale_of p fade.amount };

    fn recolor(&self, pixel: Pixel<MAX>) -> Pixel<MAX>
        requires { IsDepth MAX }
        ensures { result ≡ scale_of pixel.entry self.now.amount }
    {
        pixel.scale(self.amount)
    }
}

// What a use says of the moment.
fn faded_at(fx: &FxUse, at: Moment) -> Faded
    requires fits { FitsKind fade_schemas (use_of fx.now) }
    requires based { IsBased fx.now at }
    ensures { result.amount ≡ amount_of (use_of fx.now) at }
{
    Faded {
        amount: checkout_param(fx, at, 0, at.tick) as u32,
    }
}

/// The set: kind 0 is Fade, with the parameter `amount` from 0 to 10,000.
#[derive(Clone, Copy, Debug, Drop)]
pub struct Fade;

impl Effect for Fade {
    ghost schemas = { fade_schemas };

    ghost class_names = { no_classes };

    ghost wants = { λ fx at. own_wants at };

    ghost asks = { λ fx at. [] };

    ghost bounds = { λ fx at extents. own_bounds extents };

    ghost need = { λ fx at extents i rect. rect };

    fn schemas(&self, alloc: Global) -> Result<Vec<EffectSchema>, Memory> {
        let amount = param_schema(alloc, "amount", 0, 10000)?;
        let schema = plain_schema(alloc, "Fade", vec![in alloc; amount]?)?;
        Ok(vec![in alloc; schema]?)
    }

    fn class_names(&self, alloc: Global) -> Result<Vec<String>, Memory> {
        Ok(Vec::new(alloc))
    }

    fn list_wants(&self, alloc: Global, _fx: &FxUse, at: Moment) -> Result<Vec<Want>, Memory> {
        own_wants(alloc, at)
    }

    fn list_asks(&self, alloc: Global, _fx: &FxUse, _at: Moment) -> Result<Vec<Ask>, Memory> {
        Ok(Vec::new(alloc))
    }

    fn pre_render(
        &self,
        alloc: Global,
        _fx: &FxUse,
        at: Moment,
        extents: &[Rect],
        request: Rect,
    ) -> Result<PreRender, Memory> {
        own_pre_render(alloc, at, extents, request)
    }

    fn setup_sequence(
        &self,
        alloc: Global,
        _kind: u16,
        bytes: &[u8],
    ) -> Result<Sequence, SequenceError> {
        keep_sequence(alloc, bytes, NO_SEQUENCE)
    }

    ghost schemas_are = { fade_schemas_are };

    ghost class_names_are = { no_classes_are };

    ghost wants_are = { λ fx at given. own_wants_are (schema_of fade_schemas fx.kind).layers at given.held };

    ghost asks_are = { λ fx at given. no_asks_are 0 (schema_of fade_schemas fx.kind).layers at.base.ticks };

    ghost bounds_are = { λ fx at extents given count. own_bounds_are extents count };
}

impl<const MAX: u32> Draw<MAX> for Fade {
    ghost draws = { λ fx at planes sums. fade_draws fx at planes };

    ghost sums_of = { no_sums };

    fn smart_render<K: Keeps<Value = Value<MAX>>>(
        &self,
        alloc: Global,
        fx: &FxUse,
        at: Moment,
        pixels: &Checkouts<MAX, K>,
        sums: &[Receipt<K>],
        target: &mut World<MAX>,
    ) -> Result<(), Memory>
        requires depth { IsDepth MAX }
        requires given { IsGiven fade_schemas (use_of fx.now) at }
        requires based { IsBased fx.now at }
        requires pixels { AreChecked (own_wants at) at pixels.now.pairs }
        requires part { HasSides target.old.part }
        requires receipts { All (λ receipt. IsSumsValue receipt.value) sums.now }
        requires sums { AreSums MAX no_sums [] (sums_in sums.now) }
        ensures frame { SameExtentAndPart target.old target.new }
        ensures drawn { OnOk result (Shows target.old.part (fade_draws (use_of fx.now) at (planes_of pixels.now.pairs)) target.new) }
    {
        let input = pixels.checkout_want(0);
        let _part = input.part();
        recolor_world(alloc, &faded_at(fx, at), input, target)
    }

    fn analyse<K: Keeps<Value = Value<MAX>>>(
        &self,
        alloc: Global,
        turn: &Turn<K>,
        class: u8,
        ask: u32,
        plane: &Receipt<K>,
    ) -> Result<Vec<u64>, Memory>
        requires depth { IsDepth MAX }
        requires turn_is { turn.now.class ≡ class }
        requires ask { ask < 16777216 }
        requires plane { IsPlaneValue plane.now.value }
        requires whole { (value_world plane.now.value).part ≡ (value_world plane.now.value).extent }
        ensures { IfOk result (λ list. list.items ≡ no_sums class ask (plane_of (value_world plane.now.value))) }
    {
        Ok(Vec::new(alloc))
    }

    ghost draws_are = { λ fx at planes sums given input. fade_drawing MAX fx at planes sums given.fits input };

    ghost draws_locally = { λ fx at extents given. fade_local MAX fx at extents };

    ghost sums_are_few = { λ class ask plane. no_sums_few class ask plane };
}
