use rational_time::{Tick, TimeBase};

/// When an effect is drawn: the base of its ticks, the tick, and how many ticks a frame of its composition lasts, from 1 to
/// 36,000 seconds.
#[derive(Clone, Copy, Debug, PartialEq, Eq)]
pub struct Moment {
    pub base: TimeBase,
    pub tick: Tick,
    pub frame: i64,
}

/// A plane that an effect draws from: input 0 is the effect's input, `1 + i` its layer parameter `i`, each at a tick.
#[derive(Clone, Copy, Debug, PartialEq, Eq)]
pub struct Want {
    pub input: u32,
    pub tick: Tick,
}

/// An analysis that an effect draws from: the number of its class, which question of the class it answers, below
/// 16,777,216, and the plane that it is over.
#[derive(Clone, Copy, Debug, PartialEq, Eq)]
pub struct Ask {
    pub class: u8,
    pub ask: u32,
    pub want: Want,
}
