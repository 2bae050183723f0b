//! Renders a project: from the words and the bytes of its source to the bytes of its file, or to the lines of another mode.
#![tactic(auto)]

mod arguments;
mod check;
mod clips;
mod drawing;
mod ending;
mod host;
mod input;
mod laws;
mod notes;
mod ready;

pub use arguments::{ArgumentsError, program};
pub use check::check_run;
pub use frame_span::{HasEffects, RenderError, render_lines, render_span};
pub use host::run;
pub use laws::numbers_of_a_run;
pub use run_words::{RunMode, Settings, WordsError, read_words};
