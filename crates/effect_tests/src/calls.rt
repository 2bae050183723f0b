//! Every call of the two traits, through their bounds.
ghost use Rattle.std.specs.Prelude.{◌≡◌, ◌<◌, ◌∷◌, [], length, None, OnOk};
ghost use Rattle.argb_pixel.specs.Depth.{IsDepth};
ghost use Rattle.argb_world.specs.Picture.{SameExtentAndPart};
ghost use Rattle.comp_stack.specs.Layers.{plane_of};
ghost use Rattle.project_model.specs.Effects.{use_of};
ghost use Rattle.effect_api.specs.Fits.{IsBased, IsGiven};
ghost use Rattle.effect_api.specs.Planes.{HasSides};
ghost use Rattle.effect_api.specs.Render.{AreExtents};
ghost use Rattle.effect_api.specs.Effects.{Shows};
ghost use Rattle.effect_api.specs.Own.{own_wants};

use argb_world::World;
use compute_cache::{Keeps, Receipt};
use effect_api::{Checkouts, Draw, Effect, Moment, Pixels, PreRender, Value};
use geom_rect::Rect;
use host_io::Memory;
use project_model::{EffectSchema, FxUse};
use sequence_data::{Sequence, SequenceError};
use smart_plan::{DrawPlan, plan};
use std::alloc::Global;

/// A job with no values.
pub struct Nothing<const MAX: u32>;

impl<const MAX: u32> Keeps for Nothing<MAX> {
    type Value = Value<MAX>;

    ghost meaning = { λ _ _ _. None };

    ghost size_of = { λ _. 0 };

    fn size(_value: &Value<MAX>) -> u32 {
        0
    }

    ghost use Rattle.std.proofs.Common.{rules};

    ghost sizes_fit = { λ _ _ _ _ _. Prim.search rules };
}

/// What a set is: its schemas and how many classes it has.
pub fn described<E: Effect>(
    alloc: Global,
    effects: &E,
) -> Result<(Vec<EffectSchema>, usize), Memory> {
    let schemas = effects.schemas(alloc)?;
    let classes = effects.class_names(alloc)?;
    Ok((schemas, classes.len()))
}

/// How many wants and asks a use has.
pub fn counted<E: Effect>(
    alloc: Global,
    effects: &E,
    fx: &FxUse,
    at: Moment,
) -> Result<(usize, usize), Memory>
    requires given { IsGiven E.schemas (use_of fx.now) at }
    requires based { IsBased fx.now at }
{
    let wants = effects.list_wants(alloc, fx, at)?;
    let asks = effects.list_asks(alloc, fx, at)?;
    Ok((wants.len(), asks.len()))
}

/// What a use answers to a request, over one extent.
pub fn prepared<E: Effect>(
    alloc: Global,
    effects: &E,
    fx: &FxUse,
    at: Moment,
    extent: Rect,
    request: Rect,
) -> Result<PreRender, Memory>
    requires given { IsGiven E.schemas (use_of fx.now) at }
    requires based { IsBased fx.now at }
    requires wants { length (E.wants (use_of fx.now) at) ≡ 1 }
    requires extent { HasSides extent }
    requires request { HasSides request }
{
    effects.pre_render(alloc, fx, at, &[extent], request)
}

/// What a request to a use needs.
pub fn needed<const MAX: u32, E: Draw<MAX>>(
    alloc: Global,
    effects: &E,
    fx: &FxUse,
    at: Moment,
    extents: &[Rect],
    request: Rect,
) -> Result<DrawPlan, Memory>
    requires given { IsGiven E.schemas (use_of fx.now) at }
    requires based { IsBased fx.now at }
    requires extents { AreExtents (E.wants (use_of fx.now) at) extents.now }
    requires request { HasSides request }
{
    plan(alloc, effects, fx, at, extents, request)
}

/// Sequence data of a kind.
pub fn kept<E: Effect>(
    alloc: Global,
    effects: &E,
    kind: u16,
    bytes: &[u8],
) -> Result<Sequence, SequenceError>
    requires { kind < length E.schemas }
{
    effects.setup_sequence(alloc, kind, bytes)
}

/// Draws a use that wants its input alone and asks for nothing. The input comes back as what was taken from the checkouts.
pub fn drawn<const MAX: u32, E: Draw<MAX>>(
    alloc: Global,
    effects: &E,
    fx: &FxUse,
    at: Moment,
    input: World<MAX>,
    target: &mut World<MAX>,
) -> Result<(), Memory>
    requires depth { IsDepth MAX }
    requires given { IsGiven E.schemas (use_of fx.now) at }
    requires based { IsBased fx.now at }
    requires wants { E.wants (use_of fx.now) at ≡ own_wants at }
    requires asks { E.asks (use_of fx.now) at ≡ [] }
    requires extent { HasSides input.extent }
    requires part { HasSides target.old.part }
    ensures frame { SameExtentAndPart target.old target.new }
    ensures shown { OnOk result (Shows target.old.part (E.draws (use_of fx.now) at (plane_of input.entry ∷ []) []) target.new) }
{
    let mut pixels = Checkouts::<MAX, Nothing<MAX>>::with_room(alloc, 1)?;
    let sums: Vec<Receipt<Nothing<MAX>>> = Vec::new(alloc);
    pixels.put(0, Pixels::Drawn(input));
    let done = effects.smart_render(alloc, fx, at, &pixels, &sums, target);
    match pixels.take() {
        Some((_, Pixels::Drawn(_))) => {}
        Some((_, Pixels::Shared(_receipt))) => unreachable!(),
        None => {}
    }
    pixels.end();
    sums.destroy_empty();
    done
}
