ghost use Rattle.std.specs.Prelude.{◌≡◌, ◌<◌, ◌≤◌, [], length, IfOk, IfErr, OnOk};
ghost use Rattle.std.specs.List.{All};
ghost use Rattle.argb_pixel.specs.Depth.{IsDepth};
ghost use Rattle.argb_world.specs.Picture.{SameExtentAndPart};
ghost use Rattle.comp_stack.specs.Layers.{plane_of};
ghost use Rattle.sequence_data.specs.Sequence.{Fits, Refuses};
ghost use Rattle.project_model.specs.Effects.{schema_of, use_of};
ghost use Rattle.effect_api.specs.Fits.{IsBased, IsGiven};
ghost use Rattle.effect_api.specs.Planes.{HasSides};
ghost use Rattle.effect_api.specs.Render.{AreExtents, IsResult, IsMet, AreCheckouts, AreExact};
ghost use Rattle.effect_api.specs.Checked.{IsPlaneValue, IsSumsValue, value_world, planes_of, sums_in, AreChecked, AreSums};
ghost use Rattle.effect_api.specs.Effects.{Shows};
ghost use Rattle.effect_api.specs.Own.{own_wants, own_bounds, no_classes, no_sums};
ghost use Rattle.effect_api.specs.Laws.{fits_schema, own_wants_are, no_asks_are, no_classes_are, own_bounds_are, no_sums_few};
ghost use Rattle.fx_color.specs.Color.{color_schemas, color_draws};
ghost use Rattle.fx_color.specs.Laws.{color_schemas_are, color_drawing, color_local};

use crate::by_kind::recolor_use;
use crate::schemas::{color_schemas, color_sequence};
use argb_world::World;
use compute_cache::{Keeps, Receipt, Turn};
use effect_api::{
    Ask, Checkouts, Draw, Effect, Moment, PreRender, Value, Want, own_pre_render, own_wants,
};
use geom_rect::Rect;
use host_io::Memory;
use project_model::{EffectSchema, FxUse};
use sequence_data::{Sequence, SequenceError, keep_sequence};
use std::alloc::Global;

/// The colour effects, by their kinds: 0 Invert, 1 Threshold, 2 ChannelShift, 3 ScaleOffset, 4 Tint, 5 PaletteMap. Each draws
/// a point from the input's own point at the moment's tick, keeps alpha, and asks for no analysis.
#[derive(Clone, Copy, Debug, Drop)]
pub struct Color;

impl Effect for Color {
    ghost schemas = { color_schemas };

    ghost class_names = { no_classes };

    ghost wants = { λ fx at. own_wants at };

    ghost asks = { λ fx at. [] };

    ghost bounds = { λ fx at extents. own_bounds extents };

    ghost need = { λ fx at extents i rect. rect };

    fn schemas(&self, alloc: Global) -> Result<Vec<EffectSchema>, Memory> {
        color_schemas(alloc)
    }

    fn class_names(&self, alloc: Global) -> Result<Vec<String>, Memory> {
        Ok(Vec::new(alloc))
    }

    fn list_wants(&self, alloc: Global, _fx: &FxUse, at: Moment) -> Result<Vec<Want>, Memory> {
        own_wants(alloc, at)
    }

    fn list_asks(&self, alloc: Global, _fx: &FxUse, _at: Moment) -> Result<Vec<Ask>, Memory> {
        Ok(Vec::new(alloc))
    }

    fn pre_render(
        &self,
        alloc: Global,
        fx: &FxUse,
        at: Moment,
        extents: &[Rect],
        request: Rect,
    ) -> Result<PreRender, Memory>
        requires given { IsGiven color_schemas (use_of fx.now) at }
        requires based { IsBased fx.now at }
        requires extents { AreExtents (own_wants at) extents.now }
        requires request { HasSides request }
        ensures rects { IfOk result (IsResult (own_bounds extents.now) request) }
        ensures met { IfOk result (IsMet (own_bounds extents.now) request) }
        ensures checkouts { IfOk result (λ pre. AreCheckouts (own_wants at) extents.now (λ i. pre.result_rect) pre.checkouts.items) }
        ensures exact { IfOk result (λ pre. AreExact extents.now (λ i. pre.result_rect) pre.checkouts.items) }
    {
        own_pre_render(alloc, at, extents, request)
    }

    fn setup_sequence(
        &self,
        alloc: Global,
        kind: u16,
        bytes: &[u8],
    ) -> Result<Sequence, SequenceError> {
        keep_sequence(alloc, bytes, color_sequence(kind))
    }

    ghost schemas_are = { color_schemas_are };

    ghost class_names_are = { no_classes_are };

    ghost wants_are = { λ fx at given. own_wants_are (schema_of color_schemas fx.kind).layers at given.held };

    ghost asks_are = { λ fx at given. no_asks_are 0 (schema_of color_schemas fx.kind).layers at.base.ticks };

    ghost bounds_are = { λ fx at extents given count. own_bounds_are extents count };
}

impl<const MAX: u32> Draw<MAX> for Color {
    ghost draws = { λ fx at planes sums. color_draws fx.kind fx at planes };

    ghost sums_of = { no_sums };

    fn smart_render<K: Keeps<Value = Value<MAX>>>(
        &self,
        alloc: Global,
        fx: &FxUse,
        at: Moment,
        pixels: &Checkouts<MAX, K>,
        sums: &[Receipt<K>],
        target: &mut World<MAX>,
    ) -> Result<(), Memory>
        requires depth { IsDepth MAX }
        requires given { IsGiven color_schemas (use_of fx.now) at }
        requires based { IsBased fx.now at }
        requires pixels { AreChecked (own_wants at) at pixels.now.pairs }
        requires part { HasSides target.old.part }
        requires receipts { All (λ receipt. IsSumsValue receipt.value) sums.now }
        requires sums { AreSums MAX no_sums [] (sums_in sums.now) }
        ensures frame { SameExtentAndPart target.old target.new }
        ensures drawn { OnOk result (Shows target.old.part (color_draws fx.now.kind (use_of fx.now) at (planes_of pixels.now.pairs)) target.new) }
    {
        recolor_use(alloc, fx.kind, fx, at, pixels.checkout_want(0), target)
    }

    fn analyse<K: Keeps<Value = Value<MAX>>>(
        &self,
        alloc: Global,
        _turn: &Turn<K>,
        class: u8,
        ask: u32,
        plane: &Receipt<K>,
    ) -> Result<Vec<u64>, Memory>
        requires depth { IsDepth MAX }
        requires turn_is { _turn.now.class ≡ class }
        requires ask { ask < 16777216 }
        requires plane { IsPlaneValue plane.now.value }
        requires whole { (value_world plane.now.value).part ≡ (value_world plane.now.value).extent }
        ensures { IfOk result (λ list. list.items ≡ no_sums class ask (plane_of (value_world plane.now.value))) }
    {
        Ok(Vec::new(alloc))
    }

    ghost draws_are = { λ fx at planes sums given input. color_drawing MAX no_sums fx.kind fx at planes sums given.fits.known (fits_schema color_schemas fx given.fits) input };

    ghost draws_locally = { λ fx at extents given. color_local MAX no_sums fx.kind fx at extents };

    ghost sums_are_few = { λ class ask plane. no_sums_few class ask plane };
}
