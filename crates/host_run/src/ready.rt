//! What is drawn: a scene and a span of it, from a source and a store or from a number.
ghost use Rattle.std.specs.Prelude.{◌≡◌, true, IfOk};
ghost use Rattle.project_model.specs.Effects.{AreSchemas};
ghost use Rattle.project_model.specs.Plain.{plain_of};
ghost use Rattle.project_model.specs.Uses.{AreUses};
ghost use Rattle.frame_span.specs.Effects.{Effects, scene_of};
ghost use Rattle.frame_span.specs.Rendered.{InRoot};
ghost use Rattle.host_run.specs.Outcome.{reads_source};
ghost use Rattle.host_run.specs.Run.{Seen, SeenStore, IsUntouched, IsUntouchedStore, seen_of, seen_store};
ghost use Rattle.host_run.specs.Stages.{HasRead, HasSpan, IsPrepared};

use crate::clips::read_clips;
use crate::input::read_to_end;
use crate::notes::Ending;
use frame_span::{Span, root_of};
use host_io::{ClipStore, Memory, Source};
use project_json::read_project;
use project_model::{EffectSchema, Project, check};
use run_words::{RunMode, Settings};
use scene_gen::project_of_number;
use scene_meaning::Scene;
use std::alloc::Global;

/// A scene, and the span of its root that is asked for.
#[derive(Drop)]
pub(crate) struct Ready {
    pub(crate) scene: Scene,
    pub(crate) span: Span,
}

/// Reads the project. Its text is let go.
fn read_input<S: Source>(
    alloc: Global,
    source: &mut S,
    schemas: &[EffectSchema],
) -> Result<Project, Ending>
    requires { AreSchemas schemas.now }
    ensures { HasRead schemas.now result (seen_of S.left S.faults source.old source.new) }
{
    let bytes = match read_to_end(alloc, source) {
        Ok(bytes) => bytes,
        Err(error) => return Err(Ending::of_reading(error)),
    };
    match read_project(alloc, &bytes, schemas) {
        Ok(project) => Ok(project),
        Err(error) => Err(Ending::of_project(error)),
    }
}

/// The span that is asked for, where it lies in the root.
fn span_of(settings: &Settings, scene: &Scene) -> Result<Span, Ending>
    ensures asked { (effects : Effects) → HasSpan settings.now (scene_of effects scene.now) result }
    ensures inside { IfOk result (λ span. InRoot (plain_of scene.now.project) span.from span.to) }
{
    let count = root_of(scene).frames;
    let from = settings.from;
    let to = settings.to.unwrap_or(count.saturating_sub(1));
    if from <= to && to < count {
        Ok(Span { from, to })
    } else {
        Err(Ending::Span(from, to, count))
    }
}

/// Reads the project from the source to its end and its clips from the store, in order, and finds the span.
pub(crate) fn prepare<S: Source, C: ClipStore>(
    alloc: Global,
    settings: &Settings,
    schemas: &[EffectSchema],
    source: &mut S,
    clips: &mut C,
) -> Result<Ready, Ending>
    requires schemas { AreSchemas schemas.now }
    requires reads { reads_source settings.now.mode ≡ true }
    ensures prepared { (effects : Effects) → effects.set.schemas ≡ schemas.now → IsPrepared effects settings.now result
        (seen_of S.left S.faults source.old source.new) (seen_store C.clips C.faults clips.old clips.new) }
    ensures uses { IfOk result (λ ready. AreUses schemas.now ready.scene.project) }
    ensures inside { IfOk result (λ ready. InRoot (plain_of ready.scene.project) ready.span.from ready.span.to) }
    ensures kept { C.clips clips.new ≡ C.clips clips.old }
{
    let project = match read_input(alloc, source, schemas) {
        Ok(project) => project,
        Err(ending) => return Err(ending),
    };
    let scene = match read_clips(alloc, project, schemas, clips) {
        Ok(scene) => scene,
        Err(ending) => return Err(ending),
    };
    match span_of(settings, &scene) {
        Ok(span) => Ok(Ready { scene, span }),
        Err(ending) => Err(ending),
    }
}

/// Generates the project of the settings' number, and finds the span. No source and no store is asked.
pub(crate) fn generate(
    alloc: Global,
    settings: &Settings,
    schemas: &[EffectSchema],
) -> Result<Ready, Ending>
    requires schemas { AreSchemas schemas.now }
    requires demo { settings.now.mode ≡ RunMode.Demo }
    ensures prepared { (effects : Effects) → effects.set.schemas ≡ schemas.now → (source : Seen) → (store : SeenStore)
        → IsUntouched source → IsUntouchedStore store → IsPrepared effects settings.now result source store }
    ensures uses { IfOk result (λ ready. AreUses schemas.now ready.scene.project) }
    ensures inside { IfOk result (λ ready. InRoot (plain_of ready.scene.project) ready.span.from ready.span.to) }
{
    let Ok(project) = project_of_number(alloc, settings.number) else {
        return Err(Ending::Memory);
    };
    let ranks = match check(alloc, &project, schemas) {
        Ok(ranks) => ranks,
        Err(refusal) => return Err(Ending::of_check(refusal)),
    };
    let scene = match Scene::new(project, Vec::new(alloc), ranks) {
        Ok(scene) => scene,
        Err(Memory) => return Err(Ending::Memory),
    };
    match span_of(settings, &scene) {
        Ok(span) => Ok(Ready { scene, span }),
        Err(ending) => Err(ending),
    }
}
