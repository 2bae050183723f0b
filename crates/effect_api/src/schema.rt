ghost use Rattle.std.specs.Prelude.{◌≡◌, IfOk};
ghost use Rattle.effect_api.specs.Schemas.{param, no_sequence, plain_effect, data_effect};

use host_io::Memory;
use project_model::{Collection, EffectSchema, ParamSchema, Text};
use sequence_data::SeqRule;
use std::alloc::Global;

/// The rule of an effect without sequence data.
pub const NO_SEQUENCE: SeqRule = SeqRule {
    unit: 0,
    least: 0,
    most: 0,
};

// A text.
fn text(alloc: Global, name: &str) -> Result<Text, Memory>
    ensures { IfOk result (λ text. text ≡ name.now) }
{
    Ok(Text::from_string(String::from_str(alloc, name)?))
}

/// A parameter with the range `least..=most`.
pub fn param_schema(alloc: Global, name: &str, least: i64, most: i64) -> Result<ParamSchema, Memory>
    ensures { IfOk result (λ schema. schema ≡ param name.now least most) }
{
    Ok(ParamSchema {
        name: text(alloc, name)?,
        least,
        most,
    })
}

/// An effect that is threaded and has neither layer parameters nor sequence data.
pub fn plain_schema(
    alloc: Global,
    name: &str,
    params: Vec<ParamSchema>,
) -> Result<EffectSchema, Memory>
    ensures { IfOk result (λ schema. schema ≡ plain_effect name.now params.items) }
{
    Ok(EffectSchema {
        name: text(alloc, name)?,
        threaded: true,
        params: Collection::from_vec(params),
        layers: 0,
        sequence: NO_SEQUENCE,
    })
}

/// An effect that is threaded and has sequence data, and neither parameters nor layer parameters.
pub fn data_schema(alloc: Global, name: &str, rule: SeqRule) -> Result<EffectSchema, Memory>
    ensures { IfOk result (λ schema. schema ≡ data_effect name.now rule) }
{
    Ok(EffectSchema {
        name: text(alloc, name)?,
        threaded: true,
        params: Collection::from_vec(Vec::new(alloc)),
        layers: 0,
        sequence: rule,
    })
}
