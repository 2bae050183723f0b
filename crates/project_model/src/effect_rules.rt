//! What the rules ask of the effects of a layer.

ghost use Rattle.std.specs.Prelude.{◌≡◌, ◌&&◌, nat_lt};
ghost use Rattle.std.specs.List.{list_all};
ghost use Rattle.param_stream.specs.Curve.{rises};
ghost use Rattle.sequence_data.specs.Sequence.{takes};
ghost use Rattle.project_model.specs.Effects.{schema_of};
ghost use Rattle.project_model.specs.EffectRules.{are_in_range, has_params, has_layers, is_sequence, has_sequence};

use crate::bounds::all_between;
use crate::{Collection, EffectSchema, ParamSchema, PlainFx};
use param_stream::{Keyframe, rises};
use sequence_data::SeqRule;

/// Whether the times of each parameter's keyframes rise.
pub fn are_rising(effects: &[PlainFx]) -> bool
    ensures { result ≡ list_all (λ fx. list_all rises fx.params) effects.now }
{
    effects.iter().all(|fx| is_rising(fx))
}

// Whether those of each parameter of the effect do.
fn is_rising(fx: &PlainFx) -> bool
    ensures { result ≡ list_all rises fx.now.params }
{
    let params = fx.params.as_slice();
    params.iter().all(|keys| rises(keys.as_slice()))
}

/// Whether each effect is one of the set that may be drawn by several threads, and has streams that its parameters may have.
pub fn have_params(schemas: &[EffectSchema], effects: &[PlainFx]) -> bool
    ensures { result ≡ list_all (has_params schemas.now) effects.now }
{
    effects.iter().all(|fx| has_params(schemas, fx))
}

// Whether the effect is and has.
fn has_params(schemas: &[EffectSchema], fx: &PlainFx) -> bool
    ensures { result ≡ has_params schemas.now fx.now }
{
    let kind = usize::from(fx.kind);
    kind < schemas.len() && is_drawn_by(&schemas[kind], fx)
}

// Whether an effect of this schema may be drawn by several threads, and these are streams that its parameters may have.
fn is_drawn_by(schema: &EffectSchema, fx: &PlainFx) -> bool
    ensures { result ≡ (schema.now.threaded && are_in_range schema.now.params fx.now.params) }
{
    schema.threaded && are_in_range(schema.params.as_slice(), fx.params.as_slice())
}

// Whether there are as many streams as parameters, each in its range.
fn are_in_range(params: &[ParamSchema], streams: &[Collection<Keyframe>]) -> bool
    ensures { result ≡ are_in_range params.now streams.now }
{
    if params.len() != streams.len() {
        return false;
    }
    for (index, param) in params.iter().enumerate() {
        if !all_between(param.least, param.most, streams[index].as_slice()) {
            return false;
        }
    }
    true
}

/// Whether each effect names as many layers as it has layer parameters, each among so many.
pub fn have_layers(schemas: &[EffectSchema], count: usize, effects: &[PlainFx]) -> bool
    ensures { result ≡ list_all (has_layers schemas.now count) effects.now }
{
    effects.iter().all(|fx| has_layers(schemas, count, fx))
}

// Whether the effect does.
fn has_layers(schemas: &[EffectSchema], count: usize, fx: &PlainFx) -> bool
    ensures { result ≡ has_layers schemas.now count fx.now }
{
    let layers = fx.layers.as_slice();
    layers.len() == layer_count(schemas, fx.kind) && are_below(count, layers)
}

// How many layer parameters an effect of this kind has, 0 where there is no such kind.
fn layer_count(schemas: &[EffectSchema], kind: u16) -> usize
    ensures { result ≡ (schema_of schemas.now kind).layers }
{
    match schemas.get(usize::from(kind)) {
        Some(schema) => schema.layers as usize,
        None => 0,
    }
}

// Whether each index is below the count.
fn are_below(count: usize, indices: &[u32]) -> bool
    ensures { result ≡ list_all (λ index. nat_lt index count) indices.now }
{
    indices.iter().all(|index| (*index as usize) < count)
}

/// Whether each effect has sequence data that its kind takes.
pub fn have_sequences(schemas: &[EffectSchema], effects: &[PlainFx]) -> bool
    ensures { result ≡ list_all (has_sequence schemas.now) effects.now }
{
    effects.iter().all(|fx| has_sequence(schemas, fx))
}

// Whether the effect has.
fn has_sequence(schemas: &[EffectSchema], fx: &PlainFx) -> bool
    ensures { result ≡ has_sequence schemas.now fx.now }
{
    match &fx.sequence {
        Some(bytes) => takes(sequence_rule(schemas, fx.kind), bytes.as_slice().len()),
        None => false,
    }
}

// What sequence data an effect of this kind takes, none where there is no such kind.
fn sequence_rule(schemas: &[EffectSchema], kind: u16) -> SeqRule
    ensures { result ≡ (schema_of schemas.now kind).sequence }
{
    match schemas.get(usize::from(kind)) {
        Some(schema) => schema.sequence,
        None => SeqRule {
            unit: 0,
            least: 0,
            most: 0,
        },
    }
}

// Whether the rule takes so many bytes.
fn takes(rule: SeqRule, count: usize) -> bool
    ensures { result ≡ takes rule count }
{
    rule.takes(count)
}
