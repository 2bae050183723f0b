//! The program: renders the project on standard input to standard output, as an AFR file or as its words ask, with the stock effects. Its clips are the files of the folder
//! `clips` below the current one.
#![tactic(auto)]

ghost use Rattle.std.specs.Prelude.{◌≡◌};
ghost use Rattle.std.specs.declared.io.ErrorKind.TheVariants.{OutOfMemory};
ghost use Rattle.host_run.specs.declared.arguments.ArgumentsError.TheVariants.{NotText, Memory};

use fx_stock::Stock;
use host_io::{FolderClips, NoGate, StdNotes, StdSink, StdSource};
use host_run::{ArgumentsError, program};
use std::env;
use std::io::ErrorKind;
use std::process::ExitCode;

/// Why there are no arguments.
fn refusal(kind: ErrorKind) -> ArgumentsError
    ensures memory { kind ≡ OutOfMemory → result ≡ Memory }
    ensures other { (kind ≡ OutOfMemory → ⊥) → result ≡ NotText }
{
    if kind == ErrorKind::OutOfMemory {
        ArgumentsError::Memory
    } else {
        ArgumentsError::NotText
    }
}

/// The arguments of the program, of which its name is the first.
fn arguments(rt: &HostRuntime) -> Result<Vec<String>, ArgumentsError> {
    match env::args(rt) {
        Ok(arguments) => match arguments.collect(rt.alloc()) {
            Ok(arguments) => Ok(arguments),
            Err(_) => Err(ArgumentsError::Memory),
        },
        Err(error) => Err(refusal(error.kind())),
    }
}

fn main(rt: HostRuntime) -> ExitCode {
    let arguments = arguments(&rt);
    let mut project = StdSource::new(rt.stdin());
    let mut out = StdSink::new(rt.stdout());
    let mut notes = StdNotes::new(rt.stderr());
    let alloc = rt.alloc();
    let mut clips = FolderClips::new(&rt);
    program(
        &rt,
        alloc,
        arguments,
        &Stock,
        &mut project,
        &mut clips,
        &mut out,
        &mut notes,
        &NoGate,
    )
}
