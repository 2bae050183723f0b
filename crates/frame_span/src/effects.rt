//! The effects that a program has.
ghost use Rattle.frame_span.specs.Effects.{Effects};

use effect_api::Draw;
use scene_meaning::{HasSet, Means};

/// An effect set that draws at both depths, as one value for contracts to speak of.
pub trait HasEffects {
    ghost effects: { Effects };
}

impl<E: Draw<255> + Draw<32768>> HasEffects for E {
    ghost effects = { record {
      set = ⟦<E as HasSet>⟧.set;
      narrow = ⟦<E as Means<255>>⟧.drawing;
      wide = ⟦<E as Means<32768>>⟧.drawing;
    } };
}
