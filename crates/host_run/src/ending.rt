//! How a run ends after a step that did not succeed.
ghost use Rattle.std.specs.Prelude.{◌≡◌};

use crate::input::ReadError;
use crate::notes::Ending;
use frame_span::RenderError;
use host_io::SinkError;
use project_json::ProjectError;
use project_model::CheckError;
use run_words::WordsError;

impl Ending {
    ghost use Rattle.host_run.specs.Ending.{ending_of_words, ending_of_reading, ending_of_project, ending_of_check, ending_of_rendering, ending_of_sink};

    pub(crate) fn of_words(error: WordsError) -> Ending
        ensures { result ≡ ending_of_words error }
    {
        match error {
            WordsError::Refused => Ending::Words,
            WordsError::Memory => Ending::Memory,
        }
    }

    pub(crate) fn of_reading(error: ReadError) -> Ending
        ensures { result ≡ ending_of_reading error }
    {
        match error {
            ReadError::Fault => Ending::ReadFault,
            ReadError::TooLong => Ending::ProjectTooLong,
            ReadError::Memory => Ending::Memory,
        }
    }

    pub(crate) fn of_project(error: ProjectError) -> Ending
        ensures { result ≡ ending_of_project error }
    {
        match error {
            ProjectError::NotJson => Ending::NotJson,
            ProjectError::Rule { number, .. } => Ending::Rule(number),
            ProjectError::Memory => Ending::Memory,
        }
    }

    pub(crate) fn of_check(error: CheckError) -> Ending
        ensures { result ≡ ending_of_check error }
    {
        match error {
            CheckError::RuleBroken { rule, .. } => Ending::Rule(rule),
            CheckError::Memory => Ending::Memory,
        }
    }

    pub(crate) fn of_rendering(error: RenderError) -> Ending
        ensures { result ≡ ending_of_rendering error }
    {
        match error {
            RenderError::WriteFault => Ending::WriteFault,
            RenderError::Memory => Ending::Memory,
        }
    }

    pub(crate) fn of_sink(error: SinkError) -> Ending
        ensures { result ≡ ending_of_sink error }
    {
        match error {
            SinkError::Failed => Ending::WriteFault,
            SinkError::Memory => Ending::Memory,
        }
    }
}
