//! Frames of a scene, each made by a worker with a pass of the cache of its own.
ghost use Rattle.std.specs.Prelude.{◌≡◌, ◌<◌, ◌∷◌, [], codes, IfOk, Some};
ghost use Rattle.project_model.specs.Bounds.{most_of};
ghost use Rattle.project_model.specs.Plain.{plain_of, plain_comp};
ghost use Rattle.project_model.specs.Uses.{AreUses};
ghost use Rattle.compute_cache.specs.Suite.{job_of};
ghost use Rattle.scene_meaning.specs.Output.{root_of};
ghost use Rattle.frame_draw.specs.Drawn.{IsFrame};
ghost use Rattle.frame_span.specs.Forms.{frame_text};
ghost use Rattle.frame_span.specs.Rendered.{IsSeat};

use crate::form::{Form, frame_line};
use crate::sums::picture_sums;
use argb_world::World;
use compute_cache::{Cache, Pass};
use effect_api::Draw;
use frame_draw::draw_frame;
use frame_worker::FrameMaker;
use host_io::Memory;
use project_model::Comp;
use scene_meaning::{Means, Scene, SceneJob};
use std::alloc::Global;
use std::sync::Wait;

/// Draws frames of a scene's root, which is `comp`, and gives what is written of each. A seat is a pass of the cache.
#[derive(Drop)]
pub(crate) struct SpanMaker<'d, 'a, E: Draw<MAX>, const MAX: u32> {
    pub(crate) alloc: Global,
    pub(crate) scene: &'d Scene,
    pub(crate) effects: &'d E,
    pub(crate) comp: &'d Comp,
    pub(crate) cache: &'d Cache<SceneJob<'a, E, MAX>>,
    pub(crate) form: Form,
}

impl<'d, 'a, E: Draw<MAX>, const MAX: u32> SpanMaker<'d, 'a, E, MAX> {
    // What is written of a frame, of its picture.
    fn text_of(&self, frame: u32, picture: World<MAX>) -> Result<Vec<u8>, Memory>
        requires depth { MAX ≡ most_of self.now.scene.now.project.depth }
        requires root { root_of (plain_of self.now.scene.now.project) ≡ Some (plain_comp self.now.comp.now) }
        requires frame { IsFrame (⟦<E as Means<MAX>>⟧.scene self.now.scene.now) frame picture }
        ensures { IfOk result (λ bytes. bytes.items ≡ frame_text self.now.form (⟦<E as Means<MAX>>⟧.scene self.now.scene.now) (plain_comp self.now.comp.now) frame) }
    {
        match self.form {
            Form::File => Ok(frame_file::into_frame_bytes(picture)),
            Form::Lines => {
                let sums = picture_sums(&picture, self.comp.width, self.comp.height);
                Ok(frame_line(self.alloc, frame, &sums)?.into_bytes())
            }
        }
    }
}

impl<'d, 'a, E: Draw<MAX> + Sync, const MAX: u32> FrameMaker for SpanMaker<'d, 'a, E, MAX> {
    type Seat = Pass<SceneJob<'a, E, MAX>>;

    type Piece = Vec<u8>;

    ghost fit = { λ maker pass. IsSeat maker.cache.now pass };

    // The depth is the project's, whose effects are of this set; the cache is of this scene, with the classes of planes and of the
    // effects' sums; the root is the composition, and has the frame.
    ghost takes = { λ maker frame. (MAX ≡ most_of maker.scene.now.project.depth) × AreUses E.schemas maker.scene.now.project
        × ((job_of maker.cache.now).scene.now ≡ maker.scene.now) × (maker.cache.now.classes ≡ codes "plane" ∷ E.class_names)
        × (root_of (plain_of maker.scene.now.project) ≡ Some (plain_comp maker.comp.now)) × (frame < maker.comp.now.frames) };

    ghost gives = { λ maker frame bytes. bytes.items ≡ frame_text maker.form (⟦<E as Means<MAX>>⟧.scene maker.scene.now) (plain_comp maker.comp.now) frame };

    fn make<R: Wait>(
        &self,
        rt: &R,
        seat: &mut Pass<SceneJob<'a, E, MAX>>,
        frame: u32,
    ) -> Result<Vec<u8>, Memory> {
        let picture = draw_frame(
            rt,
            self.alloc,
            self.scene,
            self.effects,
            self.cache,
            seat,
            frame,
        )?;
        self.text_of(frame, picture)
    }
}
