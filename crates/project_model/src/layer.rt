ghost use Rattle.std.specs.Prelude.{◌≤◌, length};
ghost use Rattle.std.specs.List.{All};
ghost use Rattle.project_model.specs.Bounds.{most_effects, most_keys, scale_of};

use crate::{Collection, FxUse, Item};
use param_stream::Stream;
use rational_time::Time;
use track_matte::Matte;
use transfer_mode::Mode;

/// A layer of a composition. It is seen from `in_point` on, and before `out_point`, or to the composition's end
/// where there is none. `mode` is how it lies over what is below it, and `matte` what of the layer above lets it through. There are
/// at most 8 effects, which apply from the first to the last, and each stream has at most 4,096 keyframes.
#[derive(Drop)]
pub struct Layer {
    pub source: Item,
    pub start: Time,
    pub in_point: Time,
    pub out_point: Option<Time>,
    pub mode: Mode,
    pub matte: Matte,
    pub opacity: Stream,
    pub x: Stream,
    pub y: Stream,
    pub effects: Collection<FxUse>,
    pub ghost start_scaled: { 1 ≤ start.scale },
    pub ghost in_scaled: { 1 ≤ in_point.scale },
    pub ghost out_scaled: { 1 ≤ scale_of out_point },
    pub ghost few_opacities: { length opacity.keys ≤ most_keys },
    pub ghost few_xs: { length x.keys ≤ most_keys },
    pub ghost few_ys: { length y.keys ≤ most_keys },
    pub ghost few_effects: { length effects ≤ most_effects },
    pub ghost few_values: { All (λ fx. All (λ curve. length curve.keys ≤ most_keys) fx.params) effects },
}
