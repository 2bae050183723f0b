//! What kept values are, the contracts of functions that do nothing.
ghost use Rattle.scene_cache.specs.Wholes.{KeptPlanesShow, KeptSumsAre};

/// What is kept of a plane is a picture, all of which is there, and it shows the plane.
pub fn kept_planes_show()
    ensures { KeptPlanesShow }
{}

/// What is kept of sums is those sums.
pub fn kept_sums_are()
    ensures { KeptSumsAre }
{}
