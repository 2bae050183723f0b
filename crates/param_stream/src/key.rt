ghost use Rattle.std.specs.Prelude.{◌≡◌};
ghost use Rattle.param_stream.specs.Curve.{rises};

use rational_time::{Time, comes_before};

/// How a value goes on from a keyframe to the next one. This project's own: the three are `hold`,
/// `linear` and `ease` in a project.
#[derive(Clone, Copy, Debug, PartialEq, Eq)]
pub enum Ease {
    /// The keyframe's value, up to the next one.
    Hold,
    /// In proportion to the time that has passed.
    Linear,
    /// Slow at both ends, by the cubic that is level there.
    Smooth,
}

/// A value at a time, and how it goes on from there.
#[derive(Clone, Copy, Debug, PartialEq, Eq)]
pub struct Keyframe {
    pub time: Time,
    pub value: i64,
    pub kind: Ease,
}

/// Whether each keyframe's time is above that of the one before.
pub fn rises(keys: &[Keyframe]) -> bool
    ensures { result ≡ rises keys.now }
{
    for index in 1..keys.len() {
        if !comes_before(keys[index - 1].time, keys[index].time) {
            return false;
        }
    }
    true
}
