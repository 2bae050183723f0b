//! A project with its clips, ready to be drawn.
ghost use Rattle.std.specs.Prelude.{◌≡◌, ◌<◌, length, slice_get, Some, IfOk};
ghost use Rattle.std.specs.List.{All, AllZip};
ghost use Rattle.project_model.specs.Nesting.{ranks_of};
ghost use Rattle.project_model.specs.Plain.{plain_of};
ghost use Rattle.project_model.specs.Sound.{IsSound};
ghost use Rattle.project_model.specs.declared.clip.ClipUse.{ClipUse};
ghost use Rattle.project_model.specs.Bounds.{most_of};
ghost use Rattle.project_model.specs.Uses.{AreUses};
ghost use Rattle.scene_meaning.specs.Planes.{PlanesAreBoxed};
ghost use Rattle.scene_meaning.specs.Scene.{IsClipOf, IsPremultipliedClip, EndsInTime};

use crate::means::{HasSet, Means};
use effect_api::{Draw, drawing_is_lawful, set_is_lawful};
use frame_file::Clip;
use host_io::Memory;
use project_model::{Project, Ranks};
use std::marker::Model;

/// A project that was checked, the pictures of its clips in the order in which it declares them, and the ranks of its nodes.
/// Nothing of it changes, so that all workers share it.
#[derive(Drop)]
pub struct Scene {
    project: Project,
    clips: Vec<Clip>,
    ranks: Ranks,
}

impl Model for Scene {
    ghost use Rattle.scene_meaning.specs.Scene.{SceneParts, IsScene};

    ghost Value = { SceneParts };

    ghost view = { λ s. record { project = s.project; clips = s.clips.items; ranks = s.ranks } };

    ghost invariant = { λ s. IsScene record { project = s.project; clips = s.clips.items; ranks = s.ranks } };
}

impl Scene {
    /// The scene of a project that `check` accepted with these ranks, so that each composition ends within 36,000 seconds, and of its
    /// clips, each read with the declaration of its index.
    pub fn new(project: Project, clips: Vec<Clip>, ranks: Ranks) -> Result<Scene, Memory>
        requires sound { IsSound project }
        requires clips { AllZip IsClipOf project.clips clips.items }
        requires lengths { All EndsInTime project.comps }
        requires ranks { ranks ≡ ranks_of (plain_of project) }
        ensures { IfOk result (λ scene. scene ≡ record { project = project; clips = clips.items; ranks = ranks }) }
    {
        clips_are_premultiplied(&clips);
        Ok(Scene {
            project,
            clips,
            ranks,
        })
    }

    /// The project.
    pub fn project(&self) -> &Project
        ensures project { result.now ≡ self.now.project }
        ensures sound { IsSound result.now }
        ensures lengths { All EndsInTime result.now.comps }
    {
        &self.project
    }

    /// What its layers show, with effects of this set, is premultiplied, transparent outside its extent, and within its box. The call
    /// does nothing: its contract is the fact.
    pub fn planes_are_boxed<E: Draw<MAX>, const MAX: u32>(&self)
        requires depth { MAX ≡ most_of self.now.project.depth }
        requires uses { AreUses E.schemas self.now.project }
        ensures { PlanesAreBoxed self.now ⟦<E as HasSet>⟧.set ⟦<E as Means<MAX>>⟧.drawing }
    {
        set_is_lawful::<E>();
        drawing_is_lawful::<E, MAX>();
        let _opened = &self.project;
    }

    /// The ranks of its nodes.
    pub fn ranks(&self) -> &Ranks
        ensures ranks { result.now ≡ self.now.ranks }
        ensures of_project { result.now ≡ ranks_of (plain_of self.now.project) }
    {
        &self.ranks
    }

    /// The clip of an index, which the project declares: it has the sides, the depth and as many pictures as are declared.
    pub fn clip(&self, index: u32) -> &Clip
        requires { index < length self.now.project.clips }
        ensures clip { slice_get self.now.clips index ≡ Some result.now }
        ensures declared { (declared : ClipUse) → slice_get self.now.project.clips index ≡ Some declared → IsClipOf declared result.now }
    {
        &self.clips[index as usize]
    }
}

// Each pixel of clips is premultiplied. The call changes nothing: its contract is the fact.
fn clips_are_premultiplied(clips: &[Clip])
    ensures { All IsPremultipliedClip clips.now }
{
    for clip in clips {
        let _premultiplied = clip.depth();
    }
}
