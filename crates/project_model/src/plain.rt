use crate::{ClipUse, Collection, Item};
use param_stream::Keyframe;
use rational_time::Time;
use track_matte::Matte;
use transfer_mode::Mode;

/// A project in plain numbers and lists, as it is written. Nothing is known of the numbers: the rules say which it may have.
/// `root` is the index of the composition that is rendered, and `depth` the bits of a channel.
#[derive(Debug, Drop)]
pub struct PlainProject {
    pub depth: u32,
    pub root: u32,
    pub clips: Collection<ClipUse>,
    pub comps: Collection<PlainComp>,
}

/// A composition in plain parts: `frames` frames, each `frame` long. Layer 0 is the topmost.
#[derive(Debug, Drop)]
pub struct PlainComp {
    pub width: u32,
    pub height: u32,
    pub frame: Time,
    pub frames: u32,
    pub layers: Collection<PlainLayer>,
}

/// A layer in plain parts. A stream is its keyframes; a mode or a matte is none where what is written names none. Effects apply from
/// the first to the last.
#[derive(Debug, Drop)]
pub struct PlainLayer {
    pub source: Item,
    pub start: Time,
    pub in_point: Time,
    pub out_point: Option<Time>,
    pub mode: Option<Mode>,
    pub matte: Option<Matte>,
    pub opacity: Collection<Keyframe>,
    pub x: Collection<Keyframe>,
    pub y: Collection<Keyframe>,
    pub effects: Collection<PlainFx>,
}

/// A use of an effect in plain parts: its kind, the keyframes of each parameter, the index of a layer of the same composition for
/// each layer parameter, and the bytes of its sequence data, which are none where what is written is no hex text.
#[derive(Debug, Drop)]
pub struct PlainFx {
    pub kind: u16,
    pub params: Collection<Collection<Keyframe>>,
    pub layers: Collection<u32>,
    pub sequence: Option<Collection<u8>>,
}
