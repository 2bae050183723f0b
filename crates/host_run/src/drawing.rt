//! Drawing what is ready, as a file or as lines.
ghost use Rattle.std.specs.Prelude.{◌≡◌, List, Some, true};
ghost use Rattle.project_model.specs.Plain.{plain_of};
ghost use Rattle.project_model.specs.Uses.{AreUses};
ghost use Rattle.frame_span.specs.Effects.{scene_of};
ghost use Rattle.frame_span.specs.Rendered.{InRoot};
ghost use Rattle.host_run.specs.Ending.{end_of_rendering};
ghost use Rattle.host_run.specs.Outcome.{written_in, reads_source};
ghost use Rattle.host_run.specs.Run.{Seen, SeenStore, HasEnded, IsUntouched, IsUntouchedStore, seen_of, seen_store};
ghost use Rattle.host_run.specs.Stages.{HasOutput};

use crate::notes::Ending;
use crate::ready::{Ready, generate, prepare};
use compute_cache::Closed;
use effect_api::Draw;
use frame_span::{HasEffects, RenderError, render_lines, render_span};
use host_io::{ClipStore, Gate, Sink, Source};
use run_words::{RunMode, Settings};
use std::alloc::Global;
use std::sync::Wait;
use std::thread::Threads;

/// How a render ended. Its history is let go.
fn end_of(rendered: Result<Closed, RenderError>) -> Result<(), Ending>
    ensures { result ≡ end_of_rendering rendered }
{
    match rendered {
        Ok(_) => Ok(()),
        Err(error) => Err(Ending::of_rendering(error)),
    }
}

/// Draws the span, and writes the file of its frames or the lines of their sums.
fn write_ready<R: Threads + Wait + Sync, E: Draw<255> + Draw<32768> + Sync, K: Sink, G: Gate>(
    rt: &R,
    alloc: Global,
    settings: &Settings,
    effects: &E,
    ready: &Ready,
    out: &mut K,
    gate: &G,
) -> Result<(), Ending>
    requires drawn { settings.now.mode ≡ RunMode.Check → ⊥ }
    requires uses { AreUses E.schemas ready.now.scene.project }
    requires inside { InRoot (plain_of ready.now.scene.project) ready.now.span.from ready.now.span.to }
    ensures { HasOutput (written_in settings.now.mode (scene_of ⟦<E as HasEffects>⟧.effects ready.now.scene) ready.now.span.from ready.now.span.to)
        result (seen_of K.written K.faults out.old out.new) }
{
    let scene = &ready.scene;
    let span = ready.span;
    let workers = settings.workers;
    let budget = settings.budget;
    if settings.mode == RunMode::Render {
        end_of(render_span(
            rt, alloc, scene, effects, span.from, span.to, workers, budget, out, gate,
        ))
    } else {
        end_of(render_lines(
            rt, alloc, scene, effects, span.from, span.to, workers, budget, out, gate,
        ))
    }
}

/// Reads a project with its clips, and draws the span that is asked for.
pub(crate) fn draw_read<
    R: Threads + Wait + Sync,
    E: Draw<255> + Draw<32768> + Sync,
    S: Source,
    C: ClipStore,
    K: Sink,
    G: Gate,
>(
    rt: &R,
    alloc: Global,
    settings: &Settings,
    effects: &E,
    source: &mut S,
    clips: &mut C,
    out: &mut K,
    gate: &G,
) -> Result<(), Ending>
    requires drawn { settings.now.mode ≡ RunMode.Check → ⊥ }
    requires reads { reads_source settings.now.mode ≡ true }
    ensures ended { HasEnded ⟦<E as HasEffects>⟧.effects (Some settings.now) result
        (seen_of S.left S.faults source.old source.new) (seen_store C.clips C.faults clips.old clips.new)
        (seen_of K.written K.faults out.old out.new) }
    ensures kept { C.clips clips.new ≡ C.clips clips.old }
{
    let Ok(schemas) = effects.schemas(alloc) else {
        return Err(Ending::Memory);
    };
    let ready = match prepare(alloc, settings, schemas.as_slice(), source, clips) {
        Ok(ready) => ready,
        Err(ending) => return Err(ending),
    };
    write_ready(rt, alloc, settings, effects, &ready, out, gate)
}

/// Generates the project of a number, and draws the span that is asked for.
pub(crate) fn draw_generated<
    R: Threads + Wait + Sync,
    E: Draw<255> + Draw<32768> + Sync,
    K: Sink,
    G: Gate,
>(
    rt: &R,
    alloc: Global,
    settings: &Settings,
    effects: &E,
    out: &mut K,
    gate: &G,
) -> Result<(), Ending>
    requires demo { settings.now.mode ≡ RunMode.Demo }
    ensures { (source : Seen) → (store : SeenStore) → IsUntouched source → IsUntouchedStore store
        → HasEnded ⟦<E as HasEffects>⟧.effects (Some settings.now) result source store (seen_of K.written K.faults out.old out.new) }
{
    let Ok(schemas) = effects.schemas(alloc) else {
        return Err(Ending::Memory);
    };
    let ready = match generate(alloc, settings, schemas.as_slice()) {
        Ok(ready) => ready,
        Err(ending) => return Err(ending),
    };
    write_ready(rt, alloc, settings, effects, &ready, out, gate)
}
