//! Laws over the definitions, each the contract of a function that does nothing.

ghost use Rattle.scene_gen.specs.Laws.{AreFramed, BaseIsCommon, WorkedDraws};

/// The first draws of the numbers 0 and 1, worked by hand.
pub fn worked_draws()
    ensures { WorkedDraws }
{}

/// The base of every generated project is the least common multiple of its scales.
pub fn base_is_common()
    ensures { BaseIsCommon }
{}

/// Every generated project has no clips, and two compositions of 12 frames: of 1/24 of a second, and of 1001/30000 in the one that is
/// rendered.
pub fn generated_frames()
    ensures { AreFramed }
{}
