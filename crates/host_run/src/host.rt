//! The top call.
ghost use Rattle.std.specs.Prelude.{◌≡◌, map, string_bytes};
ghost use Rattle.host_run.specs.Headline.{IsRendered, HasWritten, IsAnswered};
ghost use Rattle.host_run.specs.Outcome.{mode_of};
ghost use Rattle.host_run.specs.Run.{HasRun, IsUntouched, IsUntouchedStore, seen_of, seen_store};
ghost use Rattle.run_words.specs.Words.{words_of};

use crate::check::check_run;
use crate::drawing::{draw_generated, draw_read};
use crate::notes::{Ending, note, tell};
use effect_api::Draw;
use frame_span::HasEffects;
use host_io::{ClipStore, Gate, Sink, Source, Status};
use run_words::{RunMode, read_words};
use std::alloc::Global;
use std::sync::Wait;
use std::thread::Threads;

/// Runs in the mode that the words ask for.
fn run_mode<
    R: Threads + Wait + Sync,
    E: Draw<255> + Draw<32768> + Sync,
    S: Source,
    C: ClipStore,
    K: Sink,
    N: Sink,
    G: Gate,
>(
    rt: &R,
    alloc: Global,
    words: &[String],
    effects: &E,
    project: &mut S,
    clips: &mut C,
    out: &mut K,
    notes: &mut N,
    gate: &G,
) -> Status
    ensures ran { HasRun ⟦<E as HasEffects>⟧.effects (words_of (map string_bytes words.now)) result
        (seen_of S.left S.faults project.old project.new) (seen_store C.clips C.faults clips.old clips.new)
        (seen_of K.written K.faults out.old out.new) (seen_of N.written N.faults notes.old notes.new) }
    ensures kept { C.clips clips.new ≡ C.clips clips.old }
{
    let settings = match read_words(alloc, words) {
        Ok(settings) => settings,
        Err(error) => return note(alloc, Ending::of_words(error), notes),
    };
    match settings.mode {
        RunMode::Render | RunMode::Summary => {
            let end = draw_read(rt, alloc, &settings, effects, project, clips, out, gate);
            tell(alloc, end, notes)
        }
        RunMode::Check => check_run(alloc, &settings, effects, project, clips, out, notes),
        RunMode::Demo => {
            let end = draw_generated(rt, alloc, &settings, effects, out, gate);
            tell(alloc, end, notes)
        }
    }
}

/// Renders a project with the effects of a set: reads its JSON from `project` to the end and the clips that it declares from `clips`,
/// in order, draws the frames of its root composition that the words ask for and writes them to `out` as an AFR file. Where it cannot,
/// it writes a line to `notes`. Planes at other ticks and sums are shared by a cache of as many bytes as the words give it.
///
/// That is mode render. In mode check it reads likewise and writes the line of [`check_run`]; in mode summary it draws likewise and
/// writes a line for each frame, with its number and the sums of its alpha, red, green and blue, and one with their count; in mode demo
/// it does so for the project of a number (see [`scene_gen::project_of_number`]), and asks neither source nor store.
///
/// - `Words`: the words are no settings (see [`run_words::read_words`]); nothing is read.
/// - `ReadFault`: the source failed.
/// - `ProjectTooLong`: there are more than 67,108,864 bytes, and no read of them failed.
/// - `Project`: the bytes are not JSON, or not a project (see [`project_json::read_project`]). It may name the effects of
///   the set. In mode demo: the generated project breaks a rule with the effects of the set.
/// - `Clip`: a clip is missing or its bytes are refused (see [`frame_file::load_clips`]), and no call of the store failed before.
/// - `ClipFault`: the store failed at a clip; none before it is missing or refused.
/// - `Span`: the first frame that is asked for is behind the last, or the last is not in the root.
/// - `WriteFault`: the sink failed; a prefix of the file or lines is written.
/// - `Memory`: memory ran out; a prefix of the file or lines may be written.
pub fn run<
    R: Threads + Wait + Sync,
    E: Draw<255> + Draw<32768> + Sync,
    S: Source,
    C: ClipStore,
    K: Sink,
    N: Sink,
    G: Gate,
>(
    rt: &R,
    alloc: Global,
    words: &[String],
    effects: &E,
    project: &mut S,
    clips: &mut C,
    out: &mut K,
    notes: &mut N,
    gate: &G,
) -> Status
    // In mode render, on Ok, the bytes written are the file of the span of the project that the bytes left were read as, with its clips.
    ensures headline { mode_of (words_of (map string_bytes words.now)) ≡ RunMode.Render → result ≡ Status.Ok → IsRendered ⟦<E as HasEffects>⟧.effects (words_of (map string_bytes words.now))
        (seen_of S.left S.faults project.old project.new) (seen_store C.clips C.faults clips.old clips.new)
        (seen_of K.written K.faults out.old out.new) }

    // In every mode, on Ok, what the mode writes of the scene and the span was written.
    ensures written { result ≡ Status.Ok → HasWritten ⟦<E as HasEffects>⟧.effects (words_of (map string_bytes words.now))
        (seen_of S.left S.faults project.old project.new) (seen_store C.clips C.faults clips.old clips.new)
        (seen_of K.written K.faults out.old out.new) }

    // In mode demo source and store are as before.
    ensures demo { mode_of (words_of (map string_bytes words.now)) ≡ RunMode.Demo
        → IsUntouched (seen_of S.left S.faults project.old project.new) × IsUntouchedStore (seen_store C.clips C.faults clips.old clips.new) }

    // Where the source tells its bytes and no read and no call of the store failed, the outcome of all of them decides; an accepted
    // one is written, where no write failed, but for want of memory.
    ensures answered { IsAnswered ⟦<E as HasEffects>⟧.effects (words_of (map string_bytes words.now)) result
        (seen_of S.left S.faults project.old project.new) (seen_store C.clips C.faults clips.old clips.new)
        (seen_of K.written K.faults out.old out.new) }

    // How it ended, by which cause, what is left and what was written, and the note that says so.
    ensures ran { HasRun ⟦<E as HasEffects>⟧.effects (words_of (map string_bytes words.now)) result
        (seen_of S.left S.faults project.old project.new) (seen_store C.clips C.faults clips.old clips.new)
        (seen_of K.written K.faults out.old out.new) (seen_of N.written N.faults notes.old notes.new) }

    // The store holds what it held.
    ensures kept { C.clips clips.new ≡ C.clips clips.old }
{
    run_mode(rt, alloc, words, effects, project, clips, out, notes, gate)
}
