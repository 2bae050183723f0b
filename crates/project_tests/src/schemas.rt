//! A small effect set, and uses of its effects in plain parts.

ghost use Rattle.std.specs.Prelude.{◌≡◌, ◌≤ℤ◌, [], ◌∷◌, IfOk};
ghost use Rattle.std.specs.List.{All};
ghost use Rattle.param_stream.specs.Curve.{IsBound};
ghost use Rattle.project_model.specs.Effects.{AreSchemas, IsParam};

use param_stream::{Ease, Keyframe};
use project_model::{Collection, EffectSchema, ParamSchema, PlainFx, Text};
use rational_time::Time;
use sequence_data::SeqRule;
use std::alloc::{AllocError, Global};

const NO_BYTES: SeqRule = SeqRule {
    unit: 0,
    least: 0,
    most: 0,
};

const ENTRIES: SeqRule = SeqRule {
    unit: 3,
    least: 1,
    most: 2,
};

/// Kind 0 has two parameters, from -5 to 5 and from 0 to 10. Kind 1 has none, and only one thread may draw it. Kind 2 names a layer
/// and has one or two entries of three bytes.
pub fn schemas(alloc: Global) -> Result<Vec<EffectSchema>, AllocError>
    ensures { IfOk result (λ schemas. AreSchemas schemas.items) }
{
    Ok(vec![in alloc; ranged(alloc)?, single(alloc)?, mapped(alloc)?]?)
}

fn ranged(alloc: Global) -> Result<EffectSchema, AllocError>
    ensures name { IfOk result (λ schema. schema.name ≡ 82 ∷ []) }
    ensures params { IfOk result (λ schema. All IsParam schema.params) }
{
    let params = vec![in alloc; param(alloc, -5, 5)?, param(alloc, 0, 10)?]?;
    Ok(EffectSchema {
        name: Text::from_string(String::from_str(alloc, "R")?),
        threaded: true,
        params: Collection::from_vec(params),
        layers: 0,
        sequence: NO_BYTES,
    })
}

fn param(alloc: Global, least: i64, most: i64) -> Result<ParamSchema, AllocError>
    requires range { least ≤ℤ most }
    requires low { IsBound least }
    requires high { IsBound most }
    ensures { IfOk result IsParam }
{
    Ok(ParamSchema {
        name: Text::from_string(String::from_str(alloc, "p")?),
        least,
        most,
    })
}

fn single(alloc: Global) -> Result<EffectSchema, AllocError>
    ensures name { IfOk result (λ schema. schema.name ≡ 83 ∷ []) }
    ensures params { IfOk result (λ schema. All IsParam schema.params) }
{
    Ok(EffectSchema {
        name: Text::from_string(String::from_str(alloc, "S")?),
        threaded: false,
        params: Collection::from_vec(Vec::new(alloc)),
        layers: 0,
        sequence: NO_BYTES,
    })
}

fn mapped(alloc: Global) -> Result<EffectSchema, AllocError>
    ensures name { IfOk result (λ schema. schema.name ≡ 77 ∷ []) }
    ensures params { IfOk result (λ schema. All IsParam schema.params) }
{
    Ok(EffectSchema {
        name: Text::from_string(String::from_str(alloc, "M")?),
        threaded: true,
        params: Collection::from_vec(Vec::new(alloc)),
        layers: 1,
        sequence: ENTRIES,
    })
}

/// A use of an effect: its kind, the keyframes of each parameter, each with its time in 24ths of a second and its value, the layers
/// that it names, and how many bytes of sequence data it has, where what is written is hex.
#[derive(Debug)]
pub struct Used(
    pub u16,
    pub &'static [&'static [(i32, i64)]],
    pub &'static [u32],
    pub Option<usize>,
);

fn keys(alloc: Global, keys: &[(i32, i64)]) -> Result<Collection<Keyframe>, AllocError> {
    let mut made = Vec::new(alloc);
    for (value_of_time, value) in keys {
        made.push(Keyframe {
            time: Time {
                value: *value_of_time,
                scale: 24,
            },
            value: *value,
            kind: Ease::Linear,
        })?;
    }
    Ok(Collection::from_vec(made))
}

fn bytes(alloc: Global, count: Option<usize>) -> Result<Option<Collection<u8>>, AllocError> {
    let Some(count) = count else {
        return Ok(None);
    };
    let mut made = Vec::new(alloc);
    for _byte in 0..count {
        made.push(7)?;
    }
    Ok(Some(Collection::from_vec(made)))
}

/// The use in plain parts.
pub fn fx(alloc: Global, used: &Used) -> Result<PlainFx, AllocError> {
    let mut params = Vec::new(alloc);
    for each in used.1 {
        params.push(keys(alloc, each)?)?;
    }
    Ok(PlainFx {
        kind: used.0,
        params: Collection::from_vec(params),
        layers: Collection::from_vec(used.2.to_vec(alloc)?),
        sequence: bytes(alloc, used.3)?,
    })
}

/// Those of several.
pub fn effects_of(alloc: Global, uses: &[Used]) -> Result<Collection<PlainFx>, AllocError> {
    let mut effects = Vec::new(alloc);
    for used in uses {
        effects.push(fx(alloc, used)?)?;
    }
    Ok(Collection::from_vec(effects))
}
