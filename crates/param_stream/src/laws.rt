//! Laws of a stream's value: each function's contract is one, and calling it does nothing.

ghost use Rattle.param_stream.specs.Laws.{ValueAtKey, ValueBefore, ValueAfter, ValueAtSplit, ValueBetween, ValueWithin, RisesInTicks, WorkedValues};

/// At a keyframe's tick the value is that keyframe's.
pub fn value_at_key()
    ensures { ValueAtKey }
{}

/// Before the first keyframe the value is that keyframe's.
pub fn value_before()
    ensures { ValueBefore }
{}

/// From the last keyframe on the value is that keyframe's.
pub fn value_after()
    ensures { ValueAfter }
{}

/// Between two neighbours the value is the one that the kind of the earlier gives.
pub fn value_at_split()
    ensures { ValueAtSplit }
{}

/// There it lies within all bounds that hold the values of the two, so between them.
pub fn value_between_neighbours()
    ensures { ValueBetween }
{}

/// Bounds that hold each keyframe's value hold the value at every tick.
pub fn value_within_bounds()
    ensures { ValueWithin }
{}

/// Keyframes rise in ticks of any base exactly where their times do.
pub fn rises_in_ticks()
    ensures { RisesInTicks }
{}

/// Values worked by hand.
pub fn worked_values()
    ensures { WorkedValues }
{}
