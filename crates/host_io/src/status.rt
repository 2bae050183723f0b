ghost use Rattle.std.specs.Prelude.{◌≡◌};

/// How a run ends.
#[derive(Clone, Copy, Debug, PartialEq, Eq)]
pub enum Status {
    /// All of the output is written.
    Ok,
    /// The words of the command line are refused.
    Words,
    /// The project is not JSON, or it breaks a rule.
    Project,
    /// A clip of the project is missing or refused.
    Clip,
    /// Reading the project failed.
    ReadFault,
    /// Writing the output failed.
    WriteFault,
    /// Memory ran out.
    Memory,
    /// Reading a clip failed.
    ClipFault,
    /// The span of frames does not lie in the composition.
    Span,
    /// The project is longer than a project may be.
    ProjectTooLong,
}

impl Status {
    ghost use Rattle.host_io.specs.Status.{number_of};

    /// The number that the program ends with: 0 for `Ok`, and 2 to 10 for the others in order.
    pub fn number(&self) -> u8
        ensures { result ≡ number_of self.now }
    {
        match self {
            Status::Ok => 0,
            Status::Words => 2,
            Status::Project => 3,
            Status::Clip => 4,
            Status::ReadFault => 5,
            Status::WriteFault => 6,
            Status::Memory => 7,
            Status::ClipFault => 8,
            Status::Span => 9,
            Status::ProjectTooLong => 10,
        }
    }
}
