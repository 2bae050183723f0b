//! How much of an effect is drawn for what a frame shows.
ghost use Rattle.std.specs.Prelude.{◌≡◌, ◌<◌, ◌≤◌, length, IfOk, OnOk};
ghost use Rattle.std.specs.List.{All};
ghost use Rattle.argb_pixel.specs.Depth.{IsDepth};
ghost use Rattle.argb_world.specs.Picture.{SameExtentAndPart};
ghost use Rattle.comp_stack.specs.Layers.{plane_of};
ghost use Rattle.project_model.specs.Effects.{use_of};
ghost use Rattle.effect_api.specs.Fits.{IsBased, IsGiven};
ghost use Rattle.effect_api.specs.Planes.{HasSides};
ghost use Rattle.effect_api.specs.Render.{AreExtents, IsResult, AreCheckouts};
ghost use Rattle.effect_api.specs.Checked.{IsPlaneValue, IsSumsValue, value_world, planes_of, sums_in, AreChecked, AreSums};
ghost use Rattle.effect_api.specs.Effects.{Shows};
ghost use Rattle.fx_stock.specs.Stock.{stock_schemas, stock_class_names, stock_sums, part_of, part_wants, part_asks, part_bounds, part_need, part_draws};
ghost use Rattle.fx_stock.specs.Laws.{stock_schemas_are, stock_class_names_are, fits_part, stock_wants_are, stock_asks_are, part_bounds_are, part_draws_are, part_draws_locally, stock_sums_few};

use argb_world::World;
use compute_cache::{Keeps, Receipt, Turn};
use effect_api::{Ask, Checkouts, Draw, Effect, Moment, PreRender, Value, Want};
use fx_stock::Stock;
use geom_rect::Rect;
use host_io::{Memory, NeverClips, NeverSink, NeverSource, NoGate, Status};
use host_run::run;
use project_model::{EffectSchema, FxUse};
use sequence_data::{Sequence, SequenceError};
use std::alloc::Global;
use std::collections::BTreeMap;
use std::hint;
use std::process::Abort;
use std::sync::atomic::{AtomicU64, Ordering};
use std::test::Fail;

/// The stock set, which adds up the areas of the parts that it draws, and counts its analyses. While it draws it looks so often for
/// another drawing, and counts those that saw one. After so many drawings it has no memory for one more.
#[derive(Drop)]
pub(crate) struct Counting {
    pub(crate) looks: u32,
    pub(crate) most: u64,
    pub(crate) area: AtomicU64,
    pub(crate) analyses: AtomicU64,
    pub(crate) drawings: AtomicU64,
    pub(crate) met: AtomicU64,
}

impl Counting {
    /// Nothing is counted yet.
    pub(crate) fn new(looks: u32) -> Counting {
        Counting {
            looks,
            most: u64::MAX,
            area: AtomicU64::new(0),
            analyses: AtomicU64::new(0),
            drawings: AtomicU64::new(0),
            met: AtomicU64::new(0),
        }
    }

    // One drawing more, which looks for another.
    fn meet(&self) -> Result<(), Memory> {
        if self.drawings.fetch_add(1, Ordering::SeqCst) >= self.most {
            return Err(Memory);
        }
        for _ in 0..self.looks {
            if self.drawings.load(Ordering::SeqCst) > 1 {
                self.met.fetch_add(1, Ordering::SeqCst);
                break;
            }
            hint::spin_loop();
        }
        Ok(())
    }
}

impl Effect for Counting {
    ghost schemas = { stock_schemas };

    ghost class_names = { stock_class_names };

    ghost wants = { λ fx at. part_wants (part_of fx.kind) fx at };

    ghost asks = { λ fx at. part_asks (part_of fx.kind) fx at };

    ghost bounds = { λ fx at extents. part_bounds (part_of fx.kind) fx at extents };

    ghost need = { λ fx at extents i rect. part_need (part_of fx.kind) fx at extents i rect };

    fn schemas(&self, alloc: Global) -> Result<Vec<EffectSchema>, Memory> {
        Stock.schemas(alloc)
    }

    fn class_names(&self, alloc: Global) -> Result<Vec<String>, Memory> {
        Stock.class_names(alloc)
    }

    fn list_wants(&self, alloc: Global, fx: &FxUse, at: Moment) -> Result<Vec<Want>, Memory> {
        Stock.list_wants(alloc, fx, at)
    }

    fn list_asks(&self, alloc: Global, fx: &FxUse, at: Moment) -> Result<Vec<Ask>, Memory> {
        Stock.list_asks(alloc, fx, at)
    }

    fn pre_render(
        &self,
        alloc: Global,
        fx: &FxUse,
        at: Moment,
        extents: &[Rect],
        request: Rect,
    ) -> Result<PreRender, Memory> {
        Stock.pre_render(alloc, fx, at, extents, request)
    }

    fn setup_sequence(
        &self,
        alloc: Global,
        kind: u16,
        bytes: &[u8],
    ) -> Result<Sequence, SequenceError> {
        Stock.setup_sequence(alloc, kind, bytes)
    }

    ghost schemas_are = { stock_schemas_are };

    ghost class_names_are = { stock_class_names_are };

    ghost wants_are = { λ fx at given. stock_wants_are fx at given };

    ghost asks_are = { λ fx at given. stock_asks_are fx at given };

    ghost bounds_are = { λ fx at extents given count. part_bounds_are (part_of fx.kind) fx at extents (fits_part fx given.fits) count };
}

impl<const MAX: u32> Draw<MAX> for Counting {
    ghost draws = { λ fx at planes sums. part_draws MAX (part_of fx.kind) fx at planes sums };

    ghost sums_of = { stock_sums };

    fn smart_render<K: Keeps<Value = Value<MAX>>>(
        &self,
        alloc: Global,
        fx: &FxUse,
        at: Moment,
        pixels: &Checkouts<MAX, K>,
        sums: &[Receipt<K>],
        target: &mut World<MAX>,
    ) -> Result<(), Memory>
        requires depth { IsDepth MAX }
        requires given { IsGiven stock_schemas (use_of fx.now) at }
        requires based { IsBased fx.now at }
        requires pixels { AreChecked (part_wants (part_of fx.now.kind) (use_of fx.now) at) at pixels.now.pairs }
        requires part { HasSides target.old.part }
        requires receipts { All (λ receipt. IsSumsValue receipt.value) sums.now }
        requires sums { AreSums MAX stock_sums (part_asks (part_of fx.now.kind) (use_of fx.now) at) (sums_in sums.now) }
        ensures frame { SameExtentAndPart target.old target.new }
        ensures drawn { OnOk result (Shows target.old.part
            (part_draws MAX (part_of fx.now.kind) (use_of fx.now) at (planes_of pixels.now.pairs) (sums_in sums.now)) target.new) }
    {
        self.meet()?;
        self.area.fetch_add(target.part().area(), Ordering::SeqCst);
        Stock.smart_render(alloc, fx, at, pixels, sums, target)
    }

    fn analyse<K: Keeps<Value = Value<MAX>>>(
        &self,
        alloc: Global,
        turn: &Turn<K>,
        class: u8,
        ask: u32,
        plane: &Receipt<K>,
    ) -> Result<Vec<u64>, Memory>
        requires depth { IsDepth MAX }
        requires class_low { 1 ≤ class }
        requires class_high { class ≤ length stock_class_names }
        requires turn_is { turn.now.class ≡ class }
        requires ask { ask < 16777216 }
        requires plane { IsPlaneValue plane.now.value }
        requires whole { (value_world plane.now.value).part ≡ (value_world plane.now.value).extent }
        ensures { IfOk result (λ list. list.items ≡ stock_sums class ask (plane_of (value_world plane.now.value))) }
    {
        self.analyses.fetch_add(1, Ordering::SeqCst);
        Stock.analyse(alloc, turn, class, ask, plane)
    }

    ghost draws_are = { λ fx at planes sums given input. part_draws_are MAX (part_of fx.kind) fx at planes sums (fits_part fx given.fits) input };

    ghost draws_locally = { λ fx at extents given. part_draws_locally MAX (part_of fx.kind) fx at extents (fits_part fx given.fits) };

    ghost sums_are_few = { λ class ask plane. stock_sums_few class ask plane };
}

#[test]
fn a_frame_draws_what_it_shows(rt: HostRuntime) -> Result<(), Fail> {
    let alloc = rt.alloc();
    let text =
        "{\"version\":1,\"depth\":8,\"root\":0,\"comps\":[{\"width\":2,\"height\":1,\"frame\":[1,24],\"frames\":1,\"layers\":[{\"source\":{\"solid\":[100,100,255,0,0,0]},\"effects\":[{\"effect\":\"Invert\",\"params\":[0]},{\"effect\":\"BoxBlur\",\"params\":[2]}]}]}]}";
    let effects = Counting::new(0);
    let mut project = NeverSource::new(text.as_bytes().to_vec(alloc)?, 1000);
    let mut clips = NeverClips::new(BTreeMap::new(alloc));
    let mut out = NeverSink::new(alloc, 1000);
    let mut notes = NeverSink::new(alloc, 1000);
    let status = run(
        &rt,
        alloc,
        &[],
        &effects,
        &mut project,
        &mut clips,
        &mut out,
        &mut notes,
        &NoGate,
    );
    assert_eq!(rt; status, Status::Ok);
    assert_eq!(rt; effects.area.load(Ordering::SeqCst), 14);
    Ok(())
}
