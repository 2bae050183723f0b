//! The project: its types, and the rules that it keeps.
#![tactic(auto)]

mod bounds;
mod breaks;
mod build;
mod clip;
mod clip_rules;
mod collection;
mod comp;
mod copy;
mod effect;
mod effect_rules;
mod form;
mod graph;
mod item;
mod join;
mod laws;
mod layer;
mod node;
mod node_ranks;
mod passing;
mod place;
mod plain;
mod project;
mod ranks;
mod rule;
mod search;
mod times;

pub use bounds::{
    CLIP_HEADER_LENGTH, FULL_OPACITY, GREATEST_AREA, GREATEST_OF_8_BITS, GREATEST_OF_16_BITS,
    GREATEST_POSITION, GREATEST_RANK, GREATEST_SIDE, LEAST_POSITION, MOST_CLIP_BYTES, MOST_CLIPS,
    MOST_COMPS, MOST_EFFECTS, MOST_FRAMES, MOST_KEYS, MOST_LAYERS, MOST_LAYERS_IN_ALL,
    MOST_NAME_BYTES, is_among, is_between, is_colour, is_size, most_of,
};
pub use clip::{ClipUse, Text};
pub use collection::Collection;
pub use comp::Comp;
pub use effect::{EffectSchema, FxUse, ParamSchema};
pub use item::Item;
pub use laws::{
    bounds_in_numbers, breach_is_first, paths_are_found, place_is_first, ranks_are_above,
    rules_are_kept, sound_is_based, table_has_ranks,
};
pub use layer::Layer;
pub use node::NodeId;
pub use passing::{CheckError, check};
pub use place::{Breach, Place};
pub use plain::{PlainComp, PlainFx, PlainLayer, PlainProject};
pub use project::Project;
pub use ranks::Ranks;
pub use rule::{RULES, Rule};
