ghost use Rattle.std.specs.Prelude.{◌≡◌, ◌<◌, ℕ, List, length, map, string_bytes, IfOk, IfErr};
ghost use Rattle.geom_rect.specs.declared.rect.Rect.{Rect};
ghost use Rattle.sequence_data.specs.Sequence.{Fits, Refuses};
ghost use Rattle.project_model.specs.declared.effect.EffectSchema.{EffectSchema};
ghost use Rattle.project_model.specs.Effects.{AreSchemas, Use, schema_of, use_of};
ghost use Rattle.effect_api.specs.declared.moment.Moment.{Moment};
ghost use Rattle.effect_api.specs.declared.moment.Want.{Want};
ghost use Rattle.effect_api.specs.declared.moment.Ask.{Ask};
ghost use Rattle.effect_api.specs.Fits.{IsBased, IsGiven};
ghost use Rattle.effect_api.specs.Planes.{HasSides};
ghost use Rattle.effect_api.specs.Wants.{AreClassNames, AreWants, AreAsks, IsBounds};
ghost use Rattle.effect_api.specs.Render.{AreExtents, IsResult, AreCheckouts};

use crate::moment::{Ask, Moment, Want};
use crate::pre_render::PreRender;
use geom_rect::Rect;
use host_io::Memory;
use project_model::{EffectSchema, FxUse};
use sequence_data::{Sequence, SequenceError};
use std::alloc::Global;

/// A set of effects, as far as nothing is drawn: what there is, what each effect draws from, and where.
///
/// A set gives six functions, which contracts speak of, and calls that answer them. They take a use of an effect in plain
/// parts (`Use`) and a moment. A kind is a schema's place in the list, from 0 on; a class is one more than a name's place, so
/// from 1 on; input 0 is the effect's own input, and `1 + i` its layer parameter `i`.
pub trait Effect {
    // The schema of each kind.
    ghost schemas: { List EffectSchema };

    // The names of the analyses that the set makes.
    ghost class_names: { List (List ℕ) };

    // The planes that an effect draws from: at most 16, each of an input that the kind has, at a held tick.
    ghost wants: { Use → Moment → List Want };

    // The analyses that it draws from: at most 16.
    ghost asks: { Use → Moment → List Ask };

    // All that it could draw, by the extents of its wants. No request is among what it depends on.
    ghost bounds: { Use → Moment → List Rect → Rect };

    // What drawing a rectangle looks at in the want of a number. It may reach outside that want's extent.
    ghost need: { Use → Moment → List Rect → ℕ → Rect → Rect };

    /// The schemas of the set. The number of a kind is its place among them.
    fn schemas(&self, alloc: Global) -> Result<Vec<EffectSchema>, Memory>
        ensures { IfOk result (λ list. list.items ≡ schemas) };

    /// The names of the set's classes of analyses. The number of a class is one more than its place among them.
    fn class_names(&self, alloc: Global) -> Result<Vec<String>, Memory>
        ensures { IfOk result (λ names. map string_bytes names.items ≡ class_names) };

    /// The planes that the effect draws from at a moment.
    fn list_wants(&self, alloc: Global, fx: &FxUse, at: Moment) -> Result<Vec<Want>, Memory>
        requires given { IsGiven schemas (use_of fx.now) at }
        requires based { IsBased fx.now at }
        ensures { IfOk result (λ list. list.items ≡ wants (use_of fx.now) at) };

    /// The analyses that it draws from.
    fn list_asks(&self, alloc: Global, fx: &FxUse, at: Moment) -> Result<Vec<Ask>, Memory>
        requires given { IsGiven schemas (use_of fx.now) at }
        requires based { IsBased fx.now at }
        ensures { IfOk result (λ list. list.items ≡ asks (use_of fx.now) at) };

    /// What it draws for a request, and which pixels it checks out for that. There is an extent for each want. The sides of
    /// the extents and of the request are within -100,000..=100,000.
    fn pre_render(
        &self,
        alloc: Global,
        fx: &FxUse,
        at: Moment,
        extents: &[Rect],
        request: Rect,
    ) -> Result<PreRender, Memory>
        requires given { IsGiven schemas (use_of fx.now) at }
        requires based { IsBased fx.now at }
        requires extents { AreExtents (wants (use_of fx.now) at) extents.now }
        requires request { HasSides request }
        ensures rects { IfOk result (IsResult (bounds (use_of fx.now) at extents.now) request) }
        ensures checkouts { IfOk result (λ pre. AreCheckouts (wants (use_of fx.now) at) extents.now
            (λ i. need (use_of fx.now) at extents.now i pre.result_rect) pre.checkouts.items) };

    /// The sequence data of these bytes, where the rule of the kind takes so many.
    fn setup_sequence(
        &self,
        alloc: Global,
        kind: u16,
        bytes: &[u8],
    ) -> Result<Sequence, SequenceError>
        requires { kind < length schemas }
        ensures kept { IfOk result (λ sequence. sequence ≡ bytes.now) }
        ensures fits { IfOk result (λ _. Fits (schema_of schemas kind).sequence (length bytes.now)) }
        ensures refused { IfErr result (λ why. Refuses why (Fits (schema_of schemas kind).sequence (length bytes.now))) };

    // Laws. Names differ and ranges are ranges.
    ghost schemas_are: { AreSchemas schemas };

    ghost class_names_are: { AreClassNames class_names };

    ghost wants_are: { (fx : Use) (at : Moment) → IsGiven schemas fx at
        → AreWants (schema_of schemas fx.kind).layers at.base.ticks (wants fx at) };

    ghost asks_are: { (fx : Use) (at : Moment) → IsGiven schemas fx at
        → AreAsks (length class_names) (schema_of schemas fx.kind).layers at.base.ticks (asks fx at) };

    // It draws at most 1,024 points beyond what it draws from.
    ghost bounds_are: { (fx : Use) (at : Moment) (extents : List Rect) → IsGiven schemas fx at
        → length extents ≡ length (wants fx at) → IsBounds extents (bounds fx at extents) };
}
