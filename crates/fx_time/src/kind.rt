/// An effect of time: one that draws a point from its input's own point, as that is at several ticks.
#[derive(Clone, Copy, Debug, PartialEq, Eq)]
pub enum TimeKind {
    /// The picture over earlier ones, which are weaker.
    Echo,
    /// The picture of the first of so many frames.
    PosterizeTime,
    /// How far the picture and an earlier one are apart.
    FrameDifference,
    /// The mean of the pictures that are near in time.
    TimeMean,
}
