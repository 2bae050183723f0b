ghost use Rattle.std.specs.Prelude.{◌≡◌, drop, map, string_bytes, IfOk, IfErr, IsOkAnd};
ghost use Rattle.std.specs.Process.{exit_status};
ghost use Rattle.host_run.specs.Ending.{ending_of_arguments};
ghost use Rattle.host_run.specs.Exit.{HasExited, HasRefused};
ghost use Rattle.host_run.specs.Headline.{IsRendered};
ghost use Rattle.host_run.specs.Outcome.{mode_of};
ghost use Rattle.run_words.specs.Words.{words_of};
ghost use Rattle.host_run.specs.Run.{seen_of, seen_store};

use crate::host::run;
use crate::notes::{Ending, note};
use effect_api::Draw;
use frame_span::HasEffects;
use host_io::{ClipStore, Gate, Sink, Source, Status};
use run_words::RunMode;
use std::alloc::Global;
use std::process::ExitCode;
use std::sync::Wait;
use std::thread::Threads;

/// Why a program has no arguments.
#[derive(Clone, Copy, Debug, Drop, PartialEq, Eq)]
pub enum ArgumentsError {
    /// One of them is not UTF-8.
    NotText,
    Memory,
}

/// Runs with the words behind the first argument, which is the program's name, and answers the code that the process ends with:
/// the number of the status. Arguments that are not text are refused words.
pub fn program<
    R: Threads + Wait + Sync,
    E: Draw<255> + Draw<32768> + Sync,
    S: Source,
    C: ClipStore,
    K: Sink,
    N: Sink,
    G: Gate,
>(
    rt: &R,
    alloc: Global,
    arguments: Result<Vec<String>, ArgumentsError>,
    effects: &E,
    project: &mut S,
    clips: &mut C,
    out: &mut K,
    notes: &mut N,
    gate: &G,
) -> ExitCode

    // With the code 0, in mode render, the bytes written are the file of the span of the project that the bytes left were read as, with its clips.
    ensures headline { exit_status result ≡ 0 → IsOkAnd arguments (λ a. mode_of (words_of (map string_bytes (drop 1 a.items))) ≡ RunMode.Render
        → IsRendered ⟦<E as HasEffects>⟧.effects (words_of (map string_bytes (drop 1 a.items)))
        (seen_of S.left S.faults project.old project.new) (seen_store C.clips C.faults clips.old clips.new)
        (seen_of K.written K.faults out.old out.new)) }

    // The code is the number of the status of a run with the words behind the first argument.
    ensures ran { IfOk arguments (λ a. HasExited ⟦<E as HasEffects>⟧.effects (words_of (map string_bytes (drop 1 a.items))) (exit_status result)
        (seen_of S.left S.faults project.old project.new) (seen_store C.clips C.faults clips.old clips.new)
        (seen_of K.written K.faults out.old out.new) (seen_of N.written N.faults notes.old notes.new)) }

    // The store holds what it held.
    ensures kept { C.clips clips.new ≡ C.clips clips.old }

    // Without arguments nothing is read and nothing written but the note.
    ensures refused { IfErr arguments (λ e. HasRefused (ending_of_arguments e) (exit_status result)
        (seen_of S.left S.faults project.old project.new) (seen_store C.clips C.faults clips.old clips.new)
        (seen_of K.written K.faults out.old out.new) (seen_of N.written N.faults notes.old notes.new)) }
{
    let status = match arguments {
        Ok(arguments) => run(
            rt,
            alloc,
            &after_the_name(arguments),
            effects,
            project,
            clips,
            out,
            notes,
            gate,
        ),
        Err(error) => note(alloc, Ending::of_arguments(error), notes),
    };
    ExitCode::from(status.number())
}

impl Ending {
    fn of_arguments(error: ArgumentsError) -> Ending
        ensures { result ≡ ending_of_arguments error }
    {
        match error {
            ArgumentsError::NotText => Ending::Words,
            ArgumentsError::Memory => Ending::Memory,
        }
    }
}

/// The words after the program's name.
fn after_the_name(mut arguments: Vec<String>) -> Vec<String>
    ensures { result.items ≡ drop 1 arguments.items }
{
    if !arguments.is_empty() {
        arguments.remove(0);
    }
    arguments
}
