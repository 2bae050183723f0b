//! Laws above the definitions: each function's contract is one, and calling it does nothing.

ghost use Rattle.rational_time.specs.Times.{FramesAgree, BaseIgnoresOrder, CommonBaseIsLeast};

/// The frame in which a frame's first tick lies is that frame.
pub fn frames_agree()
    ensures { FramesAgree }
{}

/// Times have the same base in any order.
pub fn base_ignores_order()
    ensures { BaseIgnoresOrder }
{}

/// The common base that is computed is the least common multiple of the scales, where none is 0.
pub fn common_base_is_least()
    ensures { CommonBaseIsLeast }
{}
