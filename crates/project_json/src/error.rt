use host_io::Memory;
use project_model::CheckError;
use thiserror::Error;

/// Why a project was not read.
#[derive(Clone, Copy, Debug, Drop, PartialEq, Eq, Error)]
pub enum ProjectError {
    /// The bytes are no UTF-8, or have no reading as JSON.
    #[error("project is not JSON")]
    NotJson,
    /// The broken rule with the least number, at its first place: a composition's index, and a layer's in it. The rules are
    /// this project's own.
    #[error("project rule {number}")]
    Rule {
        number: u8,
        comp: Option<u32>,
        layer: Option<u32>,
    },
    #[error("out of memory")]
    Memory,
}

impl From<Memory> for ProjectError {
    ghost use Rattle.std.specs.Prelude.{◌≡◌};
    ghost use Rattle.project_json.specs.declared.error.ProjectError.TheVariants.{Memory as NoMemory};

    ghost from_gives = { λ _ error. error ≡ NoMemory };

    fn from(_refused: Memory) -> ProjectError {
        ProjectError::Memory
    }
}

impl From<CheckError> for ProjectError {
    ghost use Rattle.std.specs.Prelude.{◌≡◌};
    ghost use Rattle.project_json.specs.Reading.{error_from};

    ghost from_gives = { λ refused error. error ≡ error_from refused };

    fn from(refused: CheckError) -> ProjectError {
        match refused {
            CheckError::RuleBroken { rule, comp, layer } => ProjectError::Rule {
                number: rule,
                comp,
                layer,
            },
            CheckError::Memory => ProjectError::Memory,
        }
    }
}
