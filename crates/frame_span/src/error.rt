ghost use Rattle.std.specs.Prelude.{◌≡◌};

use host_io::SinkError;
use thiserror::Error;

/// Why a span is not written.
#[derive(Clone, Copy, Debug, Drop, PartialEq, Eq, Error)]
pub enum RenderError {
    #[error("the output could not be written")]
    WriteFault,
    #[error("out of memory")]
    Memory,
}

impl RenderError {
    ghost use Rattle.frame_span.specs.Rendered.{error_of};

    pub(crate) fn of_sink(error: SinkError) -> RenderError
        ensures { result ≡ error_of error }
    {
        match error {
            SinkError::Failed => RenderError::WriteFault,
            SinkError::Memory => RenderError::Memory,
        }
    }
}
