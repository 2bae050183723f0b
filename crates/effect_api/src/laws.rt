//! The laws of the traits as facts for generic code: calling one does nothing.

ghost use Rattle.effect_api.specs.Sets.{IsLawfulSet, IsLawfulDrawing};

use crate::draw::Draw;
use crate::effect::Effect;

/// What each effect set keeps, at whatever depth it draws.
pub fn set_is_lawful<E: Effect>()
    ensures { IsLawfulSet record {
      schemas = E.schemas;
      class_names = E.class_names;
      wants = E.wants;
      asks = E.asks;
      bounds = E.bounds;
      need = E.need;
    } }
{}

/// What it draws, where channels are at most `MAX`: pictures within the bounds, from what is needed alone.
pub fn drawing_is_lawful<E: Draw<MAX>, const MAX: u32>()
    ensures { IsLawfulDrawing MAX record {
      schemas = E.schemas;
      class_names = E.class_names;
      wants = E.wants;
      asks = E.asks;
      bounds = E.bounds;
      need = E.need;
    } record { draws = E.draws; sums_of = E.sums_of } }
{}
