ghost use Rattle.std.specs.Prelude.{◌≡◌, ◌<◌, ◌≤◌, length, IfOk, IfErr, OnOk};
ghost use Rattle.std.specs.List.{All};
ghost use Rattle.argb_pixel.specs.Depth.{IsDepth};
ghost use Rattle.argb_world.specs.Picture.{SameExtentAndPart};
ghost use Rattle.comp_stack.specs.Layers.{plane_of};
ghost use Rattle.project_model.specs.Effects.{schema_of, use_of};
ghost use Rattle.effect_api.specs.Fits.{IsBased, IsGiven};
ghost use Rattle.effect_api.specs.Planes.{HasSides};
ghost use Rattle.effect_api.specs.Render.{AreExtents, IsResult, AreCheckouts, AreExact};
ghost use Rattle.effect_api.specs.Checked.{IsPlaneValue, IsSumsValue, value_world, planes_of, sums_in, AreChecked, AreSums};
ghost use Rattle.effect_api.specs.Effects.{Shows};
ghost use Rattle.fx_stock.specs.Stock.{stock_schemas, stock_class_names, stock_sums, part_of, part_wants, part_asks, part_bounds, part_need, part_result, part_draws};
ghost use Rattle.fx_stock.specs.Laws.{stock_schemas_are, stock_class_names_are, fits_part, stock_wants_are, stock_asks_are, part_bounds_are, part_draws_are, part_draws_locally, stock_sums_few};

use crate::part::Part;
use argb_world::World;
use compute_cache::{Keeps, Receipt, Turn};
use effect_api::{
    Ask, Checkouts, Draw, Effect, Moment, NO_SEQUENCE, PreRender, Value, Want, own_pre_render,
    own_wants,
};
use fx_analysis::{
    analyse_plane, analysis_asks, analysis_class_names, analysis_kind, analysis_schemas,
    draw_analysis,
};
use fx_color::{color_schemas, color_sequence, recolor_use};
use fx_spatial::{draw_spatial, pre_render_spatial, spatial_kind, spatial_schemas, spatial_wants};
use fx_time::{draw_time, pre_render_time, time_kind, time_schemas, time_wants};
use geom_rect::Rect;
use host_io::Memory;
use project_model::{EffectSchema, FxUse};
use sequence_data::{SeqRule, Sequence, SequenceError, keep_sequence};
use std::alloc::Global;

/// The stock set, by the numbers of its kinds: 0 to 5 are the colour effects, 6 to 10 Offset, BoxBlur, Mosaic, DropShadow and
/// Displace, 11 to 14 Echo, PosterizeTime, FrameDifference and TimeMean, 15 to 17 AutoLevels, Equalize and Deflicker. Its
/// classes are `histogram` and `light`.
#[derive(Clone, Copy, Debug, Drop)]
pub struct Stock;

// The set that a kind is of, with its number there.
fn part_of(kind: u16) -> Part
    requires { kind < length stock_schemas }
    ensures { result ≡ part_of kind }
{
    if kind < 6 {
        Part::Color(kind)
    } else if kind < 11 {
        Part::Spatial(spatial_kind(kind - 6))
    } else if kind < 15 {
        Part::Time(time_kind(kind - 11))
    } else {
        Part::Analysis(analysis_kind(kind - 15))
    }
}

// Which bytes a kind has.
fn sequence_rule(kind: u16) -> SeqRule
    requires { kind < length stock_schemas }
    ensures { result ≡ (schema_of stock_schemas kind).sequence }
{
    match part_of(kind) {
        Part::Color(kind) => color_sequence(kind),
        Part::Spatial(_) => NO_SEQUENCE,
        Part::Time(_) => NO_SEQUENCE,
        Part::Analysis(_) => NO_SEQUENCE,
    }
}

impl Effect for Stock {
    ghost schemas = { stock_schemas };

    ghost class_names = { stock_class_names };

    ghost wants = { λ fx at. part_wants (part_of fx.kind) fx at };

    ghost asks = { λ fx at. part_asks (part_of fx.kind) fx at };

    ghost bounds = { λ fx at extents. part_bounds (part_of fx.kind) fx at extents };

    ghost need = { λ fx at extents i rect. part_need (part_of fx.kind) fx at extents i rect };

    fn schemas(&self, alloc: Global) -> Result<Vec<EffectSchema>, Memory> {
        let mut schemas = color_schemas(alloc)?;
        let mut spatial = spatial_schemas(alloc)?;
        let mut time = time_schemas(alloc)?;
        let mut analysis = analysis_schemas(alloc)?;
        schemas.append(&mut spatial)?;
        schemas.append(&mut time)?;
        schemas.append(&mut analysis)?;
        Ok(schemas)
    }

    fn class_names(&self, alloc: Global) -> Result<Vec<String>, Memory> {
        analysis_class_names(alloc)
    }

    fn list_wants(&self, alloc: Global, fx: &FxUse, at: Moment) -> Result<Vec<Want>, Memory> {
        match part_of(fx.kind) {
            Part::Color(_) => own_wants(alloc, at),
            Part::Spatial(kind) => spatial_wants(alloc, kind, at),
            Part::Time(kind) => time_wants(alloc, kind, fx, at),
            Part::Analysis(_) => own_wants(alloc, at),
        }
    }

    fn list_asks(&self, alloc: Global, fx: &FxUse, at: Moment) -> Result<Vec<Ask>, Memory> {
        match part_of(fx.kind) {
            Part::Color(_) => Ok(Vec::new(alloc)),
            Part::Spatial(_) => Ok(Vec::new(alloc)),
            Part::Time(_) => Ok(Vec::new(alloc)),
            Part::Analysis(kind) => analysis_asks(alloc, kind, fx, at),
        }
    }

    fn pre_render(
        &self,
        alloc: Global,
        fx: &FxUse,
        at: Moment,
        extents: &[Rect],
        request: Rect,
    ) -> Result<PreRender, Memory>
        requires given { IsGiven stock_schemas (use_of fx.now) at }
        requires based { IsBased fx.now at }
        requires extents { AreExtents (part_wants (part_of fx.now.kind) (use_of fx.now) at) extents.now }
        requires request { HasSides request }
        ensures rects { IfOk result (IsResult (part_bounds (part_of fx.now.kind) (use_of fx.now) at extents.now) request) }
        ensures checkouts { IfOk result (λ pre. AreCheckouts (part_wants (part_of fx.now.kind) (use_of fx.now) at) extents.now
            (λ i. part_need (part_of fx.now.kind) (use_of fx.now) at extents.now i pre.result_rect) pre.checkouts.items) }
        ensures result_is { IfOk result (λ pre. pre.result_rect ≡ part_result (part_of fx.now.kind) (use_of fx.now) at extents.now request) }
        ensures exact { IfOk result (λ pre. AreExact extents.now
            (λ i. part_need (part_of fx.now.kind) (use_of fx.now) at extents.now i pre.result_rect) pre.checkouts.items) }
    {
        match part_of(fx.kind) {
            Part::Color(_) => own_pre_render(alloc, at, extents, request),
            Part::Spatial(kind) => pre_render_spatial(alloc, kind, fx, at, extents, request),
            Part::Time(kind) => pre_render_time(alloc, kind, fx, at, extents, request),
            Part::Analysis(_) => own_pre_render(alloc, at, extents, request),
        }
    }

    fn setup_sequence(
        &self,
        alloc: Global,
        kind: u16,
        bytes: &[u8],
    ) -> Result<Sequence, SequenceError> {
        keep_sequence(alloc, bytes, sequence_rule(kind))
    }

    ghost schemas_are = { stock_schemas_are };

    ghost class_names_are = { stock_class_names_are };

    ghost wants_are = { λ fx at given. stock_wants_are fx at given };

    ghost asks_are = { λ fx at given. stock_asks_are fx at given };

    ghost bounds_are = { λ fx at extents given count. part_bounds_are (part_of fx.kind) fx at extents (fits_part fx given.fits) count };
}

impl<const MAX: u32> Draw<MAX> for Stock {
    ghost draws = { λ fx at planes sums. part_draws MAX (part_of fx.kind) fx at planes sums };

    ghost sums_of = { stock_sums };

    fn smart_render<K: Keeps<Value = Value<MAX>>>(
        &self,
        alloc: Global,
        fx: &FxUse,
        at: Moment,
        pixels: &Checkouts<MAX, K>,
        sums: &[Receipt<K>],
        target: &mut World<MAX>,
    ) -> Result<(), Memory>
        requires depth { IsDepth MAX }
        requires given { IsGiven stock_schemas (use_of fx.now) at }
        requires based { IsBased fx.now at }
        requires pixels { AreChecked (part_wants (part_of fx.now.kind) (use_of fx.now) at) at pixels.now.pairs }
        requires part { HasSides target.old.part }
        requires receipts { All (λ receipt. IsSumsValue receipt.value) sums.now }
        requires sums { AreSums MAX stock_sums (part_asks (part_of fx.now.kind) (use_of fx.now) at) (sums_in sums.now) }
        ensures frame { SameExtentAndPart target.old target.new }
        ensures drawn { OnOk result (Shows target.old.part
            (part_draws MAX (part_of fx.now.kind) (use_of fx.now) at (planes_of pixels.now.pairs) (sums_in sums.now)) target.new) }
    {
        match part_of(fx.kind) {
            Part::Color(kind) => {
                recolor_use(alloc, kind, fx, at, pixels.checkout_want(0), target)
            }
            Part::Spatial(kind) => draw_spatial(alloc, kind, fx, at, pixels, target),
            Part::Time(kind) => draw_time(alloc, kind, fx, at, pixels, target),
            Part::Analysis(kind) => draw_analysis(alloc, kind, fx, at, pixels, sums, target),
        }
    }

    fn analyse<K: Keeps<Value = Value<MAX>>>(
        &self,
        alloc: Global,
        turn: &Turn<K>,
        class: u8,
        ask: u32,
        plane: &Receipt<K>,
    ) -> Result<Vec<u64>, Memory>
        requires depth { IsDepth MAX }
        requires class_low { 1 ≤ class }
        requires class_high { class ≤ length stock_class_names }
        requires turn_is { turn.now.class ≡ class }
        requires ask { ask < 16777216 }
        requires plane { IsPlaneValue plane.now.value }
        requires whole { (value_world plane.now.value).part ≡ (value_world plane.now.value).extent }
        ensures { IfOk result (λ list. list.items ≡ stock_sums class ask (plane_of (value_world plane.now.value))) }
    {
        match plane.value() {
            Value::Plane(world) => analyse_plane(alloc, class, world),
            Value::Sums(_) => unreachable!(),
        }
    }

    ghost draws_are = { λ fx at planes sums given input. part_draws_are MAX (part_of fx.kind) fx at planes sums (fits_part fx given.fits) input };

    ghost draws_locally = { λ fx at extents given. part_draws_locally MAX (part_of fx.kind) fx at extents (fits_part fx given.fits) };

    ghost sums_are_few = { λ class ask plane. stock_sums_few class ask plane };
}
