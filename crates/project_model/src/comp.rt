ghost use Rattle.std.specs.Prelude.{◌≤◌, length};
ghost use Rattle.project_model.specs.Bounds.{most_layers};

use crate::{Collection, Layer};
use rational_time::Time;

/// A composition of `frames` frames, each `frame` long. Layer 0 is the topmost.
#[derive(Drop)]
pub struct Comp {
    pub width: u32,
    pub height: u32,
    pub frame: Time,
    pub frames: u32,
    pub layers: Collection<Layer>,
    pub ghost scaled: { 1 ≤ frame.scale },
    pub ghost few_layers: { length layers ≤ most_layers },
}
