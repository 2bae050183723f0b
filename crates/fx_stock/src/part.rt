use fx_analysis::AnalysisKind;
use fx_spatial::SpatialKind;
use fx_time::TimeKind;

/// The set that a kind of the stock is of, with its number there.
#[derive(Clone, Copy, Debug, PartialEq, Eq)]
pub enum Part {
    Color(u16),
    Spatial(SpatialKind),
    Time(TimeKind),
    Analysis(AnalysisKind),
}
