ghost use Rattle.std.specs.Prelude.{◌≡◌, Some, List, IfOk, IfErr};
ghost use Rattle.serde_json.specs.View.{view};
ghost use Rattle.project_model.specs.Effects.{AreSchemas};
ghost use Rattle.project_model.specs.Plain.{plain_of};
ghost use Rattle.project_model.specs.Sound.{IsSound};
ghost use Rattle.project_model.specs.Uses.{AreUses};
ghost use Rattle.project_model.specs.declared.effect.EffectSchema.{EffectSchema};
ghost use Rattle.project_json.specs.Json.{json_of};
ghost use Rattle.project_json.specs.Reading.{project_of, IsRefusal};
ghost use Rattle.project_json.specs.Worked.{TwoPixelsAreRead, NestedClipIsRead, EffectsAreRead};

use crate::ProjectError;
use crate::places::check_form;
use crate::plain::plain_project;
use project_model::{EffectSchema, Project};
use serde_json::Value;
use std::alloc::Global;

/// The JSON value that the bytes are.
fn value_of(alloc: Global, bytes: &[u8]) -> Result<Value, ProjectError>
    ensures value { IfOk result (λ v. json_of bytes.now ≡ Some (view v)) }
    ensures refused { IfErr result (λ e. (schemas : List EffectSchema) → IsRefusal e (project_of schemas bytes.now)) }
{
    match Value::from_slice(alloc, bytes) {
        Ok(value) => Ok(value),
        Err(error) => {
            if error.is_memory() {
                Err(ProjectError::Memory)
            } else {
                Err(ProjectError::NotJson)
            }
        }
    }
}

/// Reads a project from its JSON, whose form and rules are this project's own. Its effects are those of a set with these schemas.
///
/// It is an object of the names `version`, `depth`, `root`, `clips` and `comps`. `version` is 1, `depth` the bits of a channel,
/// 8 or 16, `root` the index of the composition that is rendered, `clips` the array of clips, none where it is absent, and
/// `comps` the array of compositions.
///
/// - A clip is an object of the names `name`, `width`, `height`, `depth`, `frame` and `frames`: the name of its file, its sides,
///   the bits of a channel, the length of a frame as a time, and how many frames it has.
/// - A composition is an object of the names `width`, `height`, `frame`, `frames` and `layers`: its sides, the length of a frame
///   as a time, how many frames it has, and the array of its layers, the topmost first.
/// - A layer is an object with `source` and no names but `start`, `in`, `out`, `mode`, `matte`, `opacity`, `x`, `y` and
///   `effects`. `source` is `{"solid":[width,height,alpha,red,green,blue]}`, or `{"clip":index}` or `{"comp":index}` with the
///   index of a clip or of a composition, which is then nested. `start` and `in` are times, zero seconds where they are absent.
///   `out` is a time, the composition's end where it is absent. `mode` is the name of a mode (see [`transfer_mode::Mode`]) and
///   `matte` that of a matte (see [`track_matte::Matte`]), `"Normal"` and `"None"` where they are absent. `opacity`, `x` and
///   `y` are streams, 10,000, 0 and 0 where they are absent. `effects` is the array of its effects, from the first that applies
///   to the last, none where it is absent.
/// - An effect is an object with `effect` and no names but `params`, `layers` and `sequence`. `effect` is the name of an effect of
///   the set. `params` is the array of a stream for each of its parameters, and `layers` the array of an index of a layer of the
///   same composition for each of its layer parameters, empty where they are absent. `sequence` is its sequence data as hex text,
///   no bytes where it is absent.
/// - A time is `[value, scale]`, which is value / scale seconds. A stream is a number, which is its value at every time, or an
///   array of keyframes `[value, time, kind]`, whose kind is `"hold"`, `"linear"` or `"ease"`.
/// - Of a name that stands twice in an object the last value counts.
///
/// A project that breaks a rule is refused by the broken rule with the least number, at its first place: the project outside
/// its compositions, its clips included, then each composition, first outside its layers, and then its layers in order. Each
/// rule speaks of what those before it have let through. The place of what is broken in an effect is its layer.
///
/// - 1: each number, at any depth, is a whole number from -2^63 to 2^63-1, written without fraction or exponent.
/// - 2: the value is an object of no names but the five.
/// - 3, 4: `version` is there and 1; `depth` is there and 8 or 16.
/// - 5: `clips`, where it is there, is an array of at most 64 objects, each of exactly the six names (place: the project).
/// - 6: `comps` is there and an array of 1 to 64 objects (place: the project), each of exactly the five names (place: the
///   composition).
/// - 7: `layers` is an array of at most 128 objects (place: the composition), each with `source` and no names but the ten.
/// - 8: there are at most 1,024 layers in all.
/// - 9: `source` is an object of exactly one name, `solid`, `clip` or `comp`.
/// - 10: `effects`, where it is there, is an array of at most 8 objects, each with `effect` and no names but the four.
/// - 11, 12: `effect` is a text and the name of an effect of the set; that effect may be drawn by several threads.
/// - 13: `params` and an effect's `layers`, where they are there, are arrays of as many members as the effect has parameters and
///   layer parameters; the members of `layers` are numbers.
/// - 14: a stream is a number, or an array of 1 to 4,096 keyframes, each an array of a number, a time and a kind.
/// - 15: a time is an array of two numbers, from -2147483648 to 2147483647 and from 1 to 4294967295 (place of the frame of a
///   clip: the project).
/// - From 16 on: see [`project_model::Rule`]. A `sequence` that is no hex text breaks rule 39.
///
/// The error is `NotJson` where the bytes are no UTF-8 or have no reading as JSON, which arrays and objects nested more than 127
/// deep have not; `Rule` with the rule's number, and the indices of its place, where one is broken; and `Memory` where memory
/// runs out.
pub fn read_project(
    alloc: Global,
    bytes: &[u8],
    schemas: &[EffectSchema],
) -> Result<Project, ProjectError>
    requires { AreSchemas schemas.now }
    ensures project { IfOk result (λ p. project_of schemas.now bytes.now ≡ Ok (plain_of p)) }
    ensures sound { IfOk result IsSound }
    ensures fits { IfOk result (AreUses schemas.now) }
    ensures refused { IfErr result (λ e. IsRefusal e (project_of schemas.now bytes.now)) }
{
    let value = value_of(alloc, bytes)?;
    check_form(&value, schemas)?;
    let plain = plain_project(alloc, &value, schemas)?;
    Ok(Project::of_plain(alloc, plain, schemas)?)
}

/// One composition of two pixels with one solid is read as this project's own form says.
pub fn two_pixels_are_read()
    ensures { TwoPixelsAreRead }
{}

/// A clip in a composition that another one nests is read as this project's own form says.
pub fn nested_clip_is_read()
    ensures { NestedClipIsRead }
{}

/// A layer with effects, one with keyframes, one that names a layer and one with sequence data, is read as this project's own form
/// says.
pub fn effects_are_read()
    ensures { EffectsAreRead }
{}
