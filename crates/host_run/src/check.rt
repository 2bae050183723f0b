//! Checking a project without drawing it.
ghost use Rattle.std.specs.Prelude.{◌≡◌, ◌≤◌, IfOk, Some, string_bytes};
ghost use Rattle.project_model.specs.Plain.{plain_of};
ghost use Rattle.frame_span.specs.Effects.{Effects};
ghost use Rattle.project_model.specs.Bounds.{most_layers_in_all};
ghost use Rattle.project_model.specs.Count.{layer_count};
ghost use Rattle.host_run.specs.CheckLine.{check_line, measures_line};
ghost use Rattle.host_run.specs.Headline.{HasWritten, IsAnswered};
ghost use Rattle.host_run.specs.Run.{HasEnded, HasRun, seen_of, seen_store};
ghost use Rattle.host_run.specs.Stages.{HasOutput};

use crate::notes::{Ending, tell};
use crate::ready::prepare;
use effect_api::Effect;
use frame_span::{root_of, write_whole};
use host_io::{ClipStore, Sink, Source, Status};
use project_model::Comp;
use run_words::{RunMode, Settings};
use scene_meaning::{HasSet, Scene};
use std::alloc::{AllocError, Global};

/// The layers of all compositions.
fn layer_count(comps: &[Comp]) -> usize
    requires { layer_count comps.now ≤ most_layers_in_all }
    ensures { result ≡ layer_count comps.now }
{
    let mut count = 0;
    'comps: for comp in comps {
        count += comp.layers.as_slice().len();
    }
    count
}

fn measures_line(
    alloc: Global,
    width: u32,
    height: u32,
    depth: u8,
    frames: u32,
    layers: usize,
) -> Result<String, AllocError>
    ensures { IfOk result (λ line. string_bytes line ≡ measures_line width height depth frames layers) }
{
    format!(in alloc; "ok {width} {height} {depth} {frames} {layers}\n")
}

/// The line that tells the measures of a project.
fn check_line(alloc: Global, scene: &Scene) -> Result<String, AllocError>
    ensures { IfOk result (λ line. string_bytes line ≡ check_line (plain_of scene.now.project)) }
{
    let project = scene.project();
    let root = root_of(scene);
    let layers = layer_count(project.comps.as_slice());
    measures_line(
        alloc,
        root.width,
        root.height,
        project.depth,
        root.frames,
        layers,
    )
}

/// Writes the line, as one piece.
fn write_check<K: Sink>(alloc: Global, scene: &Scene, out: &mut K) -> Result<(), Ending>
    ensures { HasOutput (check_line (plain_of scene.now.project)) result (seen_of K.written K.faults out.old out.new) }
{
    let Ok(line) = check_line(alloc, scene) else {
        return Err(Ending::Memory);
    };
    match write_whole(out, line.as_bytes()) {
        Ok(()) => Ok(()),
        Err(error) => Err(Ending::of_sink(error)),
    }
}

/// Reads a project with its clips, finds the span, and tells the project's measures.
fn check_read<E: Effect, S: Source, C: ClipStore, K: Sink>(
    alloc: Global,
    settings: &Settings,
    effects: &E,
    source: &mut S,
    clips: &mut C,
    out: &mut K,
) -> Result<(), Ending>
    requires mode { settings.now.mode ≡ RunMode.Check }
    ensures ended { (all : Effects) → all.set ≡ ⟦<E as HasSet>⟧.set → HasEnded all (Some settings.now) result
        (seen_of S.left S.faults source.old source.new) (seen_store C.clips C.faults clips.old clips.new)
        (seen_of K.written K.faults out.old out.new) }
    ensures kept { C.clips clips.new ≡ C.clips clips.old }
{
    let Ok(schemas) = effects.schemas(alloc) else {
        return Err(Ending::Memory);
    };
    let ready = match prepare(alloc, settings, schemas.as_slice(), source, clips) {
        Ok(ready) => ready,
        Err(ending) => return Err(ending),
    };
    write_check(alloc, &ready.scene, out)
}

/// Checks a project with the effects of a set, as [`crate::run`] does in mode check: reads its JSON from `project` to the end and the
/// clips that it declares from `clips`, in order, finds the span that the settings ask for, and writes a line to `out` with the width,
/// height, depth and frames of its root and the layers of all its compositions. Nothing is drawn, so that it needs no threads and
/// always returns. The statuses and notes are those of [`crate::run`].
pub fn check_run<E: Effect, S: Source, C: ClipStore, K: Sink, N: Sink>(
    alloc: Global,
    settings: &Settings,
    effects: &E,
    project: &mut S,
    clips: &mut C,
    out: &mut K,
    notes: &mut N,
) -> Status
    requires mode { settings.now.mode ≡ RunMode.Check }

    // On Ok the line of the project that the bytes left were read as was written.
    ensures written { result ≡ Status.Ok → (all : Effects) → all.set ≡ ⟦<E as HasSet>⟧.set → HasWritten all (Some settings.now)
        (seen_of S.left S.faults project.old project.new) (seen_store C.clips C.faults clips.old clips.new)
        (seen_of K.written K.faults out.old out.new) }

    // Where the source tells its bytes and no read and no call of the store failed, the outcome of all of them decides.
    ensures answered { (all : Effects) → all.set ≡ ⟦<E as HasSet>⟧.set → IsAnswered all (Some settings.now) result
        (seen_of S.left S.faults project.old project.new) (seen_store C.clips C.faults clips.old clips.new)
        (seen_of K.written K.faults out.old out.new) }

    // How it ended, by which cause, what is left and what was written, and the note that says so.
    ensures ran { (all : Effects) → all.set ≡ ⟦<E as HasSet>⟧.set → HasRun all (Some settings.now) result
        (seen_of S.left S.faults project.old project.new) (seen_store C.clips C.faults clips.old clips.new)
        (seen_of K.written K.faults out.old out.new) (seen_of N.written N.faults notes.old notes.new) }

    // The store holds what it held.
    ensures kept { C.clips clips.new ≡ C.clips clips.old }
{
    let end = check_read(alloc, settings, effects, project, clips, out);
    tell(alloc, end, notes)
}
