//! What a plan is good for, as facts for those who draw by it: calling one does nothing.

ghost use Rattle.smart_plan.specs.Suffices.{WorldsStandForPlanes, RequestsAreShown, TargetsArePlanes};

/// A target that shows over the plan's part what is drawn from such worlds shows what is drawn from the planes.
pub fn worlds_stand_for_planes()
    ensures { WorldsStandForPlanes }
{}

/// A picture whose part is the plan's, and which shows a drawing there, shows it at each point of the request.
pub fn requests_are_shown()
    ensures { RequestsAreShown }
{}

/// A picture that shows a drawing over its part is a plane, which may be drawn from.
pub fn targets_are_planes()
    ensures { TargetsArePlanes }
{}
