ghost use Rattle.std.specs.Prelude.{◌≤◌, length, IsTrue, All};
ghost use Rattle.project_model.specs.Bounds.{is_bit_depth, most_clips, most_comps, most_layers_in_all};
ghost use Rattle.project_model.specs.Count.{layer_count};

use crate::{ClipUse, Collection, Comp};
use rational_time::TimeBase;

/// A project, whose form is this project's own. `depth` is the bits of a channel, 8 or 16, `root` the index of the
/// composition that is rendered, and `base` the common base of all times.
#[derive(Drop)]
pub struct Project {
    pub depth: u8,
    pub root: u32,
    pub base: TimeBase,
    pub clips: Collection<ClipUse>,
    pub comps: Collection<Comp>,
    pub ghost bits: { IsTrue (is_bit_depth depth) },
    pub ghost few_clips: { length clips ≤ most_clips },
    pub ghost clips_scaled: { All (λ clip. 1 ≤ clip.frame.scale) clips },
    pub ghost some_comp: { 1 ≤ length comps },
    pub ghost few_comps: { length comps ≤ most_comps },
    pub ghost few_layers: { layer_count comps ≤ most_layers_in_all },
}
