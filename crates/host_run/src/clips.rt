//! The clips of a project, read from a store.
ghost use Rattle.std.specs.Prelude.{◌≡◌, ◌<◌, length, None, IfOk};
ghost use Rattle.std.specs.List.{All};
ghost use Rattle.scene_meaning.specs.Scene.{EndsInTime};
ghost use Rattle.project_model.specs.Effects.{AreSchemas};
ghost use Rattle.project_model.specs.Checked.{breach_in};
ghost use Rattle.project_model.specs.Nesting.{ranks_of};
ghost use Rattle.project_model.specs.Plain.{plain_of};
ghost use Rattle.project_model.specs.Sound.{IsSound};
ghost use Rattle.host_run.specs.Ending.{IsOneOf, ending_of_clip, ending_of_loading, name_at};
ghost use Rattle.host_run.specs.Run.{seen_store};
ghost use Rattle.host_run.specs.Stages.{HasLoaded};

use crate::notes::Ending;
use frame_file::{ClipError, LoadError, load_clips};
use host_io::{ClipStore, Memory};
use project_model::{CheckError, ClipUse, Collection, EffectSchema, Project, Ranks, Text, check};
use scene_meaning::Scene;
use std::alloc::Global;

/// The name of the clip of an index. The others are let go.
fn name_at(clips: Collection<ClipUse>, index: usize) -> Text
    requires { index < length clips }
    ensures { result ≡ name_at clips index }
{
    clips.into_vec().swap_remove(index).name
}

impl Ending {
    /// Where a clip's file is refused.
    fn of_clip(name: Text, why: ClipError) -> Ending
        ensures { result ≡ ending_of_clip name why }
    {
        match why {
            ClipError::Memory => Ending::Memory,
            _ => Ending::ClipRefused(name, why),
        }
    }

    /// Where these clips were not loaded. The name of the one that is told is moved out of its declaration.
    fn of_loading(clips: Collection<ClipUse>, error: LoadError) -> Ending
        requires { IsOneOf clips error }
        ensures { result ≡ ending_of_loading clips error }
    {
        match error {
            LoadError::Fault { index } => Ending::ClipFault(name_at(clips, index)),
            LoadError::Missing { index } => Ending::ClipMissing(name_at(clips, index)),
            LoadError::Refused { index, why } => Ending::of_clip(name_at(clips, index), why),
            LoadError::Memory => Ending::Memory,
        }
    }
}

/// The ranks of a project that keeps the rules, with these schemas.
fn ranks_of(alloc: Global, project: &Project, schemas: &[EffectSchema]) -> Result<Ranks, Memory>
    requires schemas { AreSchemas schemas.now }
    requires passed { breach_in schemas.now project.now ≡ None }
    ensures { IfOk result (λ ranks. ranks ≡ ranks_of (plain_of project.now)) }
{
    match check(alloc, project, schemas) {
        Ok(ranks) => Ok(ranks),
        Err(refusal) => match refusal {
            CheckError::Memory => Err(Memory),
            _ => unreachable!(),
        },
    }
}

/// Reads the clips that a project declares, in order, and answers its scene. The project keeps the rules, with these schemas.
pub(crate) fn read_clips<C: ClipStore>(
    alloc: Global,
    project: Project,
    schemas: &[EffectSchema],
    clips: &mut C,
) -> Result<Scene, Ending>
    requires sound { IsSound project }
    requires schemas { AreSchemas schemas.now }
    requires passed { breach_in schemas.now project ≡ None }
    requires lengths { All EndsInTime project.comps }
    ensures loaded { HasLoaded project result (seen_store C.clips C.faults clips.old clips.new) }
    ensures kept { C.clips clips.new ≡ C.clips clips.old }
{
    let loaded = match load_clips(alloc, clips, project.clips.as_slice()) {
        Ok(loaded) => loaded,
        Err(error) => return Err(Ending::of_loading(project.clips, error)),
    };
    let Ok(ranks) = ranks_of(alloc, &project, schemas) else {
        return Err(Ending::Memory);
    };
    match Scene::new(project, loaded, ranks) {
        Ok(scene) => Ok(scene),
        Err(Memory) => Err(Ending::Memory),
    }
}
