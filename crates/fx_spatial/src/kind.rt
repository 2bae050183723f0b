/// A spatial effect: one that draws a point from other points of its input.
#[derive(Clone, Copy, Debug, PartialEq, Eq)]
pub enum SpatialKind {
    /// The picture moved within its extent.
    Offset,
    /// The mean of all points that are near.
    BoxBlur,
    /// The mean of each block.
    Mosaic,
    /// The picture over its shadow.
    DropShadow,
    /// Each point from one nearby, as a map says.
    Displace,
}
