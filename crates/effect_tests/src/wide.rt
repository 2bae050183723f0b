//! An effect that looks further than it draws, as no colour effect does.
ghost use Rattle.std.specs.Prelude.{◌≡◌, ◌∷◌, [], false, pos, length, IfOk};
ghost use Rattle.std.specs.List.{All};
ghost use Rattle.project_model.specs.Effects.{FitsKind, schema_of, use_of};
ghost use Rattle.geom_rect.specs.Rect.{meet_of};
ghost use Rattle.effect_api.specs.Planes.{HasSides, extent_at};
ghost use Rattle.effect_api.specs.Own.{own_bounds, no_sums};
ghost use Rattle.effect_api.specs.Laws.{no_sums_few};
ghost use Rattle.effect_tests.specs.Wide.{wide_schemas, wide_classes, wide_wants, wide_asks, wide_need, wide_draws};
ghost use Rattle.effect_tests.specs.Wide.{wide_schemas_are, wide_classes_are, wide_wants_are, wide_asks_are, wide_bounds_are, wide_drawing, wide_local};

use argb_world::World;
use compute_cache::{Keeps, Receipt, Turn};
use effect_api::{
    Ask, Checkout, Checkouts, Draw, Effect, Moment, NO_SEQUENCE, PreRender, Value, Want,
    plain_schema,
};
use geom_rect::Rect;
use host_io::Memory;
use project_model::{Collection, EffectSchema, FxUse};
use rational_time::Tick;
use sequence_data::{Sequence, SequenceError, keep_sequence};
use std::alloc::Global;

/// The set: kind 0 draws its input as it is, but looks two points further, and at tick 0 too, and asks for an analysis.
#[derive(Clone, Copy, Debug, Drop)]
pub struct Wide;

// The input at a tick.
fn input_at(tick: Tick) -> Want
    ensures { result ≡ record { input = 0; tick = tick } }
{
    Want { input: 0, tick }
}

// What is answered for an input of this extent: requests reach two points further, also beyond the extent.
fn answer(alloc: Global, at: Moment, extent: Rect, request: Rect) -> Result<PreRender, Memory>
    requires extent { HasSides extent }
    requires request { HasSides request }
    ensures most { IfOk result (λ pre. pre.max_result_rect ≡ extent) }
    ensures result_is { IfOk result (λ pre. pre.result_rect ≡ meet_of request extent) }
    ensures no_more { IfOk result (λ pre. pre.extra ≡ false) }
    ensures checkouts { IfOk result (λ pre. pre.checkouts.items ≡ record { id = 0; want = record { input = 0; tick = at.tick }; request = wide_need (meet_of request extent) }
        ∷ record { id = 1; want = record { input = 0; tick = record { 0 = pos 0 } }; request = wide_need (meet_of request extent) } ∷ []) }
{
    let result_rect = request.meet(&extent);
    let request = result_rect.grow(2);
    let own = Checkout {
        id: 0,
        want: input_at(at.tick),
        request,
    };
    let first = Checkout {
        id: 1,
        want: input_at(Tick(0)),
        request,
    };
    Ok(PreRender {
        result_rect,
        max_result_rect: extent,
        extra: false,
        checkouts: vec![in alloc; own, first]?,
    })
}

impl Effect for Wide {
    ghost schemas = { wide_schemas };

    ghost class_names = { wide_classes };

    ghost wants = { λ fx at. wide_wants at };

    ghost asks = { λ fx at. wide_asks at };

    ghost bounds = { λ fx at extents. own_bounds extents };

    ghost need = { λ fx at extents i rect. wide_need rect };

    fn schemas(&self, alloc: Global) -> Result<Vec<EffectSchema>, Memory> {
        let schema = plain_schema(alloc, "Wide", Vec::new(alloc))?;
        Ok(vec![in alloc; schema]?)
    }

    fn class_names(&self, alloc: Global) -> Result<Vec<String>, Memory> {
        let name = String::from_str(alloc, "counts")?;
        Ok(vec![in alloc; name]?)
    }

    fn list_wants(&self, alloc: Global, _fx: &FxUse, at: Moment) -> Result<Vec<Want>, Memory> {
        Ok(vec![in alloc; input_at(at.tick), input_at(Tick(0))]?)
    }

    fn list_asks(&self, alloc: Global, _fx: &FxUse, at: Moment) -> Result<Vec<Ask>, Memory> {
        let ask = Ask {
            class: 1,
            ask: 7,
            want: input_at(at.tick),
        };
        Ok(vec![in alloc; ask]?)
    }

    fn pre_render(
        &self,
        alloc: Global,
        _fx: &FxUse,
        at: Moment,
        extents: &[Rect],
        request: Rect,
    ) -> Result<PreRender, Memory> {
        answer(alloc, at, extents[0], request)
    }

    fn setup_sequence(
        &self,
        alloc: Global,
        _kind: u16,
        bytes: &[u8],
    ) -> Result<Sequence, SequenceError> {
        keep_sequence(alloc, bytes, NO_SEQUENCE)
    }

    ghost schemas_are = { wide_schemas_are };

    ghost class_names_are = { wide_classes_are };

    ghost wants_are = { λ fx at given. wide_wants_are (schema_of wide_schemas fx.kind).layers at given.held };

    ghost asks_are = { λ fx at given. wide_asks_are (schema_of wide_schemas fx.kind).layers at given.held };

    ghost bounds_are = { λ fx at extents given count. wide_bounds_are extents count };
}

impl Draw<255> for Wide {
    ghost draws = { λ fx at planes sums. wide_draws planes };

    ghost sums_of = { no_sums };

    fn smart_render<K: Keeps<Value = Value<255>>>(
        &self,
        _alloc: Global,
        _fx: &FxUse,
        _at: Moment,
        pixels: &Checkouts<255, K>,
        _sums: &[Receipt<K>],
        target: &mut World<255>,
    ) -> Result<(), Memory> {
        let input = pixels.checkout_want(0);
        let _part = input.part();
        target.copy_from(input);
        Ok(())
    }

    fn analyse<K: Keeps<Value = Value<255>>>(
        &self,
        alloc: Global,
        _turn: &Turn<K>,
        _class: u8,
        _ask: u32,
        _plane: &Receipt<K>,
    ) -> Result<Vec<u64>, Memory> {
        Ok(Vec::new(alloc))
    }

    ghost draws_are = { λ fx at planes sums given input. wide_drawing 255 at planes sums input };

    ghost draws_locally = { λ fx at extents given. wide_local 255 at extents };

    ghost sums_are_few = { λ class ask plane. no_sums_few class ask plane };
}

/// A use of it.
pub fn wide_use(alloc: Global) -> FxUse
    ensures fits { FitsKind wide_schemas (use_of result) }
    ensures based { All (λ curve. curve.base ≡ 24) result.params }
{
    FxUse {
        kind: 0,
        params: Collection::from_vec(Vec::new(alloc)),
        layers: Collection::from_vec(Vec::new(alloc)),
        sequence: Collection::from_vec(Vec::new(alloc)),
    }
}
