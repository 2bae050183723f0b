use crate::{Collection, Text};
use param_stream::Stream;
use sequence_data::SeqRule;

/// What an effect of a set is: its name, whether it may be drawn by several threads, its parameters, how many layer
/// parameters it has, and how long its sequence data is. The number of its kind is its place in the list of the set.
#[derive(Debug, Drop)]
pub struct EffectSchema {
    pub name: Text,
    pub threaded: bool,
    pub params: Collection<ParamSchema>,
    pub layers: u32,
    pub sequence: SeqRule,
}

/// A parameter of an effect: its name and the range of its values, `least..=most`.
#[derive(Debug, Drop)]
pub struct ParamSchema {
    pub name: Text,
    pub least: i64,
    pub most: i64,
}

/// A use of an effect on a layer: its kind, a stream for each parameter, the index of a layer of the same composition for each
/// layer parameter, and the bytes of its sequence data.
#[derive(Drop)]
pub struct FxUse {
    pub kind: u16,
    pub params: Collection<Stream>,
    pub layers: Collection<u32>,
    pub sequence: Collection<u8>,
}
