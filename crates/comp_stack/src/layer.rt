use argb_world::World;
use track_matte::Matte;
use transfer_mode::Mode;

/// A picture at a position, under an opacity.
#[derive(Debug, Drop)]
pub struct Shown<const MAX: u32> {
    /// What is seen, transparent outside its part.
    pub world: World<MAX>,
    /// The column of the stack that its column 0 is at, within -32768..=32767.
    pub x: i32,
    /// The row of the stack that its row 0 is at, within -32768..=32767.
    pub y: i32,
    /// In 1/10000, at most 10000.
    pub opacity: u32,
}

/// A layer of a stack.
#[derive(Debug, Drop)]
pub struct Placed<const MAX: u32> {
    /// What is seen of it.
    pub layer: Shown<MAX>,
    /// How it lies over what is below it.
    pub mode: Mode,
    /// What is taken from its matte.
    pub matte: Matte,
    /// The layer that its matte is taken from, `None` where that one is not seen, or there is no matte.
    pub over: Option<Shown<MAX>>,
}
