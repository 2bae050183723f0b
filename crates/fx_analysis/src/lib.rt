//! The effects that draw from an analysis, kinds 15 to 17 of the stock, and the two analyses.
#![tactic(auto)]

mod analyse;
mod asks;
mod deflicker;
mod draw;
mod equalize;
mod kind;
mod levels;
mod light;
mod lines;
mod params;
mod schemas;

pub use analyse::analyse_plane;
pub use asks::analysis_asks;
pub use deflicker::{Deflicker, deflicker_world};
pub use draw::draw_analysis;
pub use equalize::{Equalize, equalize_world};
pub use kind::AnalysisKind;
pub use levels::{AutoLevels, level_world};
pub use light::Light;
pub use schemas::{analysis_class_names, analysis_kind, analysis_schemas};
