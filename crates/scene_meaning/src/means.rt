//! What an effect set means, as values for contracts to speak of.
ghost use Rattle.effect_api.specs.Sets.{EffectSet, Drawing};
ghost use Rattle.scene_meaning.specs.Scene.{SceneParts, plain_scene};
ghost use Rattle.scene_meaning.specs.Shown.{PlainScene};

use effect_api::{Draw, Effect};

/// What effects there are, what each draws from, and where.
pub trait HasSet {
    ghost set: { EffectSet };
}

impl<E: Effect> HasSet for E {
    ghost set = { record {
      schemas = E.schemas;
      class_names = E.class_names;
      wants = E.wants;
      asks = E.asks;
      bounds = E.bounds;
      need = E.need;
    } };
}

/// What each effect draws where a channel is at most `MAX`, and what a scene of that depth means with them.
pub trait Means<const MAX: u32> {
    ghost drawing: { Drawing };

    ghost scene: { SceneParts → PlainScene };
}

impl<const MAX: u32, E: Draw<MAX>> Means<MAX> for E {
    ghost drawing = { record { draws = E.draws; sums_of = E.sums_of } };

    ghost scene = { λ parts. plain_scene parts record {
      schemas = E.schemas;
      class_names = E.class_names;
      wants = E.wants;
      asks = E.asks;
      bounds = E.bounds;
      need = E.need;
    } record { draws = E.draws; sums_of = E.sums_of } };
}
