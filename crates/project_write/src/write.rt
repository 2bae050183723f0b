ghost use Rattle.std.specs.Prelude.{◌≡◌, None, Ok, IfOk};
ghost use Rattle.std.specs.List.{All};
ghost use Rattle.json.specs.Lex.{tokens};
ghost use Rattle.json.specs.Print.{print};
ghost use Rattle.serde_json.specs.View.{view};
ghost use Rattle.project_model.specs.Checked.{breach_in};
ghost use Rattle.project_model.specs.Effects.{AreSchemas};
ghost use Rattle.project_model.specs.Plain.{plain_of};
ghost use Rattle.project_model.specs.Sound.{IsSound};
ghost use Rattle.project_model.specs.Uses.{AreUses};
ghost use Rattle.project_json.specs.Reading.{project_of};
ghost use Rattle.project_write.specs.Kinds.{HaveKinds};
ghost use Rattle.project_write.specs.Parts.{IsProject};

use crate::comps::{each_clip, each_comp};
use crate::parts::{byte_value, count_value};
use host_io::Memory;
use project_model::{EffectSchema, Project, sound_is_based};
use serde_json::{Map, Value, put};
use std::alloc::Global;

/// The version of the form.
const VERSION: u32 = 1;

fn project_value(
    alloc: Global,
    project: &Project,
    schemas: &[EffectSchema],
) -> Result<Value, Memory>
    requires schemas { AreSchemas schemas.now }
    requires kinds { All (λ comp. HaveKinds schemas.now comp.layers) project.now.comps }
    ensures { IfOk result (λ v. IsProject schemas.now project.now (view v)) }
{
    let mut members = Map::new(alloc);
    put(&mut members, alloc, "version", count_value(VERSION))?;
    put(&mut members, alloc, "depth", byte_value(project.depth))?;
    put(&mut members, alloc, "root", count_value(project.root))?;
    let clips = each_clip(alloc, project.clips.as_slice())?;
    put(&mut members, alloc, "clips", clips)?;
    let comps = each_comp(alloc, project.comps.as_slice(), schemas)?;
    put(&mut members, alloc, "comps", comps)?;
    Ok(Value::from(members))
}

/// Writes a project as JSON that `project_json::read_project` reads again as it: a compact text, in which each object has its names
/// in alphabetical order, and all of them but `out` of a layer that has no end of its own. A stream is always an array of keyframes,
/// and sequence data is in lower case.
///
/// The effects are those of a set with these schemas, and [`project_model::check`] accepts the project: the last three conditions are
/// what its `Ok` says.
///
/// The error is that memory runs out.
pub fn write_project(
    alloc: Global,
    project: &Project,
    schemas: &[EffectSchema],
) -> Result<Vec<u8>, Memory>
    requires schemas { AreSchemas schemas.now }
    requires passed { breach_in schemas.now project.now ≡ None }
    requires sound { IsSound project.now }
    requires fits { AreUses schemas.now project.now }
    ensures read { IfOk result (λ bytes. project_of schemas.now bytes.items ≡ Ok (plain_of project.now)) }
    ensures compact { IfOk result (λ bytes. bytes.items ≡ print (tokens bytes.items)) }
{
    sound_is_based();
    let value = project_value(alloc, project, schemas)?;
    Ok(value.to_vec(alloc)?)
}
