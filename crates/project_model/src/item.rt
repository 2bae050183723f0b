/// What a layer shows.
#[derive(Clone, Copy, Debug, PartialEq, Eq)]
pub enum Item {
    /// A premultiplied colour over the rectangle from `0, 0` of this width and height.
    Solid {
        width: u32,
        height: u32,
        a: u32,
        r: u32,
        g: u32,
        b: u32,
    },
    /// The clip of this index.
    Clip(u32),
    /// The composition of this index, nested.
    Comp(u32),
}
