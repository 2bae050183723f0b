ghost use Rattle.std.specs.Prelude.{◌≡◌, List, IfOk, IsTrue};
ghost use Rattle.std.specs.List.{All};
ghost use Rattle.project_model.specs.Bounds.{is_bit_depth};
ghost use Rattle.project_model.specs.Broken.{breach_of};
ghost use Rattle.project_model.specs.Checked.{breach_in};
ghost use Rattle.project_model.specs.Plain.{plain_of};
ghost use Rattle.project_model.specs.Ready.{IsBasedComp};
ghost use Rattle.project_model.specs.declared.effect.EffectSchema.{EffectSchema};
ghost use Rattle.scene_gen.specs.Generated.{drawn_depth, generated};

use crate::draws::Generator;
use crate::streams::BASE;
use host_io::Memory;
use project_model::{Collection, Comp, Project, most_of};
use rational_time::Time;
use std::alloc::Global;

/// The project that is drawn from a number: a composition of 8 layers, of which two show another one of 4 layers, with solids, modes,
/// mattes, keyframes and stock effects. Only want of memory is an error. The first rule that it breaks, for any set of effects, is the
/// first one that its numbers break. This project's own.
pub fn project_of_number(alloc: Global, number: u32) -> Result<Project, Memory>
    ensures project { IfOk result (λ p. plain_of p ≡ generated number) }
    ensures base { IfOk result (λ p. p.base.ticks ≡ 30000) }
    ensures based { IfOk result (λ p. All (IsBasedComp 30000) p.comps) }
    ensures breach { IfOk result (λ p. (schemas : List EffectSchema) → breach_in schemas p ≡ breach_of schemas (generated number)) }
{
    drawn_project(alloc, number)
}

// The project, draw by draw.
#[tactic(auto, unfolding(crate::specs::Generated::generated))]
fn drawn_project(alloc: Global, number: u32) -> Result<Project, Memory>
    ensures project { IfOk result (λ p. plain_of p ≡ generated number) }
    ensures base { IfOk result (λ p. p.base.ticks ≡ 30000) }
    ensures based { IfOk result (λ p. All (IsBasedComp 30000) p.comps) }
{
    let mut generator = Generator {
        state: u64::from(number),
    };
    let depth = generator.depth();
    let most = most_of(u32::from(depth));
    let inner = generator.layers(alloc, most, 0)?;
    let outer = generator.layers(alloc, most, 1)?;
    let inner = Comp {
        width: 96,
        height: 64,
        frame: Time {
            value: 1,
            scale: 24,
        },
        frames: 12,
        layers: Collection::from_vec(inner),
    };
    let outer = Comp {
        width: 160,
        height: 96,
        frame: Time {
            value: 1001,
            scale: 30000,
        },
        frames: 12,
        layers: Collection::from_vec(outer),
    };
    Ok(Project {
        depth,
        root: 1,
        base: BASE,
        clips: Collection::from_vec(Vec::new(alloc)),
        comps: Collection::from_vec(vec![in alloc; inner, outer]?),
    })
}

impl Generator {
    // The bits of a channel.
    #[tactic(auto, unfolding(crate::specs::Generated::drawn_depth))]
    fn depth(&mut self) -> u8
        ensures value { result ≡ (drawn_depth self.old.state).value }
        ensures state { self.new.state ≡ (drawn_depth self.old.state).state }
        ensures bits { IsTrue (is_bit_depth result) }
    {
        if self.draw(2) == 0 { 8 } else { 16 }
    }
}
