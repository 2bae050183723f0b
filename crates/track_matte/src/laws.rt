//! Laws of mattes, each as the contract of a function that does nothing.
ghost use Rattle.track_matte.specs.Laws.{
  NoMatteLeaves,
  TransparentInvertedLeaves,
  TransparentHides,
  ValueIsWithin,
  WorkedMattes,
};

/// Without a matte the layer is as it was.
pub fn no_matte_leaves()
    ensures { NoMatteLeaves }
{}

/// Under an inverted matte a transparent pixel leaves the layer.
pub fn transparent_inverted_leaves()
    ensures { TransparentInvertedLeaves }
{}

/// Under a matte that is not inverted a transparent pixel hides the layer.
pub fn transparent_hides()
    ensures { TransparentHides }
{}

/// What a premultiplied pixel lets through is at most all.
pub fn value_is_within()
    ensures { ValueIsWithin }
{}

/// Examples that were worked by hand, computed by the definitions.
pub fn worked_mattes()
    ensures { WorkedMattes }
{}
