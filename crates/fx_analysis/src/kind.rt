/// An effect that draws from an analysis of its input.
#[derive(Clone, Copy, Debug, PartialEq, Eq)]
pub enum AnalysisKind {
    /// The colours spread from the darkest pixels to the brightest.
    AutoLevels,
    /// Each colour by how many pixels are no brighter.
    Equalize,
    /// As bright as the frames around it.
    Deflicker,
}
