ghost use Rattle.std.specs.Prelude.{◌≡◌, ◌≤◌, Some};
ghost use Rattle.project_model.specs.Bounds.{most_frames};
ghost use Rattle.project_model.specs.Plain.{plain_of, plain_comp};
ghost use Rattle.scene_meaning.specs.Output.{root_of, frame_count, header_of};

use frame_file::Header;
use project_model::Comp;
use scene_meaning::Scene;

/// The composition that is rendered. It has at most 65,536 frames.
pub fn root_of(scene: &Scene) -> &Comp
    ensures root { root_of (plain_of scene.now.project) ≡ Some (plain_comp result.now) }
    ensures count { frame_count (plain_of scene.now.project) ≡ result.now.frames }
    ensures few { result.now.frames ≤ most_frames }
{
    let project = scene.project();
    &project.comps.as_slice()[project.root as usize]
}

// The header of so many frames of a composition of the scene from `first` on.
pub(crate) fn header_of(scene: &Scene, comp: &Comp, first: u32, count: u32) -> Header
    ensures { result ≡ header_of scene.now.project.depth (plain_comp comp.now) first count }
{
    Header {
        width: comp.width,
        height: comp.height,
        depth: scene.project().depth,
        value: comp.frame.value.unsigned_abs(),
        scale: comp.frame.scale,
        first,
        count,
    }
}
