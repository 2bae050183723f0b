//! A span, drawn a window at a time: its file or its lines.
ghost use Rattle.std.specs.Prelude.{◌≡◌, ◌<◌, ◌≤◌, ◌+◌, ◌-◌, ◌^◌, ◌∷◌, [], ℕ, codes, All, Some, IfOk, OnOk, OnErr, flat_map, vec_len, vec_capacity};
ghost use Rattle.std.specs.List.{range_with_len};
ghost use Rattle.std.specs.Io.KnownBytes.{Appends};
ghost use Rattle.host_io.specs.Cause.{HasWriteCause};
ghost use Rattle.project_model.specs.Bounds.{most_of, most_frames};
ghost use Rattle.project_model.specs.Plain.{plain_of, plain_comp};
ghost use Rattle.project_model.specs.Uses.{AreUses};
ghost use Rattle.compute_cache.specs.Suite.{budget_of, job_of};
ghost use Rattle.scene_meaning.specs.Output.{file, header_of, root_of};
ghost use Rattle.frame_worker.specs.Window.{AreFrames};
ghost use Rattle.frame_span.specs.Effects.{scene_of};
ghost use Rattle.frame_span.specs.Forms.{frame_text, head_text, root_text, span_text, tail_text};
ghost use Rattle.frame_span.specs.Lines.{lines};
ghost use Rattle.frame_span.specs.Rendered.{InRoot, HasRenderCause, IsEnded, IsOpening, IsSeat};
ghost use Rattle.frame_span.specs.Written.{AppendsFront, text_of};

use crate::effects::HasEffects;
use crate::error::RenderError;
use crate::form::{Form, count_line};
use crate::maker::SpanMaker;
use crate::output::write_whole;
use crate::passes::{join_all, split_all};
use crate::root::{header_of, root_of};
use crate::start::start_cache;
use compute_cache::{Cache, Closed, Pass};
use effect_api::Draw;
use frame_worker::{FrameMaker, Piece, render_window};
use host_io::{Gate, Memory, Sink, SinkError};
use project_model::Comp;
use scene_meaning::{Means, Scene, SceneJob};
use std::alloc::Global;
use std::sync::Wait;
use std::thread;
use std::thread::Threads;

/// The most workers that draw a span.
pub const MOST_WORKERS: u32 = 64;

/// The first and the last frame of a span, both included, counted from 0.
#[derive(Clone, Copy, Debug, PartialEq, Eq)]
pub struct Span {
    pub from: u32,
    pub to: u32,
}

// Writes what was made of frames, each as one piece.
fn write_pieces<K: Sink>(out: &mut K, pieces: &[Piece<Vec<u8>>]) -> Result<(), SinkError>
    ensures whole { OnOk result (Appends (K.written out.old) (K.written out.new) (text_of pieces.now)) }
    ensures front { OnErr result (AppendsFront (K.written out.old) (K.written out.new) (text_of pieces.now)) }
    ensures cause { HasWriteCause (K.faults out.old) (K.faults out.new) result }
{
    'pieces: for piece in pieces {
        write_whole(out, &piece.made)?;
    }
    Ok(())
}

// Writes a window that is drawn, while the next one is made. Where a write fails, the next one is dropped.
fn write_beside<R: Threads + Wait + Sync, F: FrameMaker<Piece = Vec<u8>>, K: Sink, G: Gate>(
    rt: &R,
    alloc: Global,
    maker: &F,
    seats: &mut Vec<F::Seat>,
    first: u32,
    count: u32,
    drawn: &[Piece<Vec<u8>>],
    out: &mut K,
    gate: &G,
) -> Result<Vec<Piece<Vec<u8>>>, SinkError>
    requires some { 0 < vec_len seats.old }
    requires fit { All (λ seat. F.fit maker.now seat) seats.old.items }
    requires taken { (frame : ℕ) → first ≤ frame → frame < first + count → F.takes maker.now frame }
    requires last { first + count < 2 ^ 32 }
    ensures whole { OnOk result (Appends (K.written out.old) (K.written out.new) (text_of drawn.now)) }
    ensures front { OnErr result (AppendsFront (K.written out.old) (K.written out.new) (text_of drawn.now)) }
    ensures cause { HasWriteCause (K.faults out.old) (K.faults out.new) result }
    ensures next { IfOk result (λ pieces. AreFrames (λ frame piece. (piece.frame ≡ frame) × F.gives maker.now frame piece.made) first count pieces.items) }
    ensures seats { vec_len seats.new ≡ vec_len seats.old }
    ensures fit { All (λ seat. F.fit maker.now seat) seats.new.items }
{
    let (written, made) = thread::join_mut(
        rt,
        &mut || write_pieces(out, drawn),
        &mut ||
            requires some { 0 < vec_len seats.now }
            requires fit { All (λ seat. F.fit maker.now seat) seats.now.items }
            requires taken { (frame : ℕ) → first ≤ frame → frame < first + count → F.takes maker.now frame }
            requires last { first + count < 2 ^ 32 }
        { render_window(rt, alloc, maker, seats, first, count, gate) },
    );
    written?;
    match made {
        Ok(pieces) => Ok(pieces),
        Err(Memory) => Err(SinkError::Memory),
    }
}

// The same of the frames of a scene.
fn draw_beside<
    'd,
    'a,
    R: Threads + Wait + Sync,
    E: Draw<MAX> + Sync,
    const MAX: u32,
    K: Sink,
    G: Gate,
>(
    rt: &R,
    alloc: Global,
    maker: &SpanMaker<'d, 'a, E, MAX>,
    seats: &mut Vec<Pass<SceneJob<'a, E, MAX>>>,
    first: u32,
    count: u32,
    drawn: &[Piece<Vec<u8>>],
    out: &mut K,
    gate: &G,
) -> Result<Vec<Piece<Vec<u8>>>, SinkError>
    requires depth { MAX ≡ most_of maker.now.scene.now.project.depth }
    requires uses { AreUses E.schemas maker.now.scene.now.project }
    requires job { (job_of maker.now.cache.now).scene.now ≡ maker.now.scene.now }
    requires classes { maker.now.cache.now.classes ≡ codes "plane" ∷ E.class_names }
    requires root { root_of (plain_of maker.now.scene.now.project) ≡ Some (plain_comp maker.now.comp.now) }
    requires frames { first + count ≤ maker.now.comp.now.frames }
    requires few { maker.now.comp.now.frames ≤ most_frames }
    requires some { 0 < vec_len seats.old }
    requires fit { All (IsSeat maker.now.cache.now) seats.old.items }
    ensures whole { OnOk result (Appends (K.written out.old) (K.written out.new) (text_of drawn.now)) }
    ensures front { OnErr result (AppendsFront (K.written out.old) (K.written out.new) (text_of drawn.now)) }
    ensures cause { HasWriteCause (K.faults out.old) (K.faults out.new) result }
    ensures count { IfOk result (λ pieces. vec_len pieces ≡ count) }
    ensures next { IfOk result (λ pieces. text_of pieces.items ≡ flat_map (frame_text maker.now.form (⟦<E as Means<MAX>>⟧.scene maker.now.scene.now) (plain_comp maker.now.comp.now)) (range_with_len first count)) }
    ensures seats { vec_len seats.new ≡ vec_len seats.old }
    ensures fit { All (IsSeat maker.now.cache.now) seats.new.items }
{
    write_beside(rt, alloc, maker, seats, first, count, drawn, out, gate)
}

// Writes what stands before the frames of a span, as one piece.
fn write_head<'d, 'a, E: Draw<MAX>, const MAX: u32, K: Sink>(
    maker: &SpanMaker<'d, 'a, E, MAX>,
    first: u32,
    count: u32,
    out: &mut K,
) -> Result<(), SinkError>
    ensures whole { OnOk result (Appends (K.written out.old) (K.written out.new) (head_text maker.now.form (header_of maker.now.scene.now.project.depth (plain_comp maker.now.comp.now) first count))) }
    ensures front { OnErr result (AppendsFront (K.written out.old) (K.written out.new) (head_text maker.now.form (header_of maker.now.scene.now.project.depth (plain_comp maker.now.comp.now) first count))) }
    ensures cause { HasWriteCause (K.faults out.old) (K.faults out.new) result }
{
    match maker.form {
        Form::File => {
            let header = header_of(maker.scene, maker.comp, first, count);
            write_whole(out, &frame_file::header_bytes(&header))
        }
        Form::Lines => Ok(()),
    }
}

// Writes what stands behind so many frames, as one piece.
fn write_tail<K: Sink>(alloc: Global, form: Form, count: u32, out: &mut K) -> Result<(), SinkError>
    ensures whole { OnOk result (Appends (K.written out.old) (K.written out.new) (tail_text form count)) }
    ensures front { OnErr result (AppendsFront (K.written out.old) (K.written out.new) (tail_text form count)) }
    ensures cause { HasWriteCause (K.faults out.old) (K.faults out.new) result }
{
    match form {
        Form::File => Ok(()),
        Form::Lines => match count_line(alloc, count) {
            Ok(line) => write_whole(out, line.as_bytes()),
            Err(_) => Err(SinkError::Memory),
        },
    }
}

// Writes the span of the root, each frame as one piece. Each window is written while the next one is drawn.
fn write_frames<
    'd,
    'a,
    R: Threads + Wait + Sync,
    E: Draw<MAX> + Sync,
    const MAX: u32,
    K: Sink,
    G: Gate,
>(
    rt: &R,
    alloc: Global,
    maker: &SpanMaker<'d, 'a, E, MAX>,
    seats: &mut Vec<Pass<SceneJob<'a, E, MAX>>>,
    span: Span,
    out: &mut K,
    gate: &G,
) -> Result<(), SinkError>
    requires depth { MAX ≡ most_of maker.now.scene.now.project.depth }
    requires uses { AreUses E.schemas maker.now.scene.now.project }
    requires job { (job_of maker.now.cache.now).scene.now ≡ maker.now.scene.now }
    requires classes { maker.now.cache.now.classes ≡ codes "plane" ∷ E.class_names }
    requires root { root_of (plain_of maker.now.scene.now.project) ≡ Some (plain_comp maker.now.comp.now) }
    requires order { span.from ≤ span.to }
    requires end { span.to < maker.now.comp.now.frames }
    requires few { maker.now.comp.now.frames ≤ most_frames }
    requires some { 0 < vec_len seats.old }
    requires fit { All (IsSeat maker.now.cache.now) seats.old.items }
    ensures whole { OnOk result (Appends (K.written out.old) (K.written out.new) (root_text maker.now.form (⟦<E as Means<MAX>>⟧.scene maker.now.scene.now) (plain_comp maker.now.comp.now) span.from (span.to + 1 - span.from))) }
    ensures front { OnErr result (AppendsFront (K.written out.old) (K.written out.new) (root_text maker.now.form (⟦<E as Means<MAX>>⟧.scene maker.now.scene.now) (plain_comp maker.now.comp.now) span.from (span.to + 1 - span.from))) }
    ensures cause { HasWriteCause (K.faults out.old) (K.faults out.new) result }
    ensures seats { vec_len seats.new ≡ vec_len seats.old }
    ensures fit { All (IsSeat maker.now.cache.now) seats.new.items }
{
    let from = span.from;
    let end = span.to + 1;
    write_head(maker, from, end - from, out)?;
    let mut frame = from;
    let mut drawn = Vec::new(alloc);
    'windows: while frame < end {
        let count = window_of(end - frame, seats.len());
        drawn = draw_beside(rt, alloc, maker, seats, frame, count, &drawn, out, gate)?;
        frame += count;
    }
    write_pieces(out, &drawn)?;
    write_tail(alloc, maker.form, end - from, out)
}

// Splits a pass off for each worker, and writes the span of the root by them. The passes that were split off are there afterwards.
fn split_and_write<
    'd,
    'a,
    R: Threads + Wait + Sync,
    E: Draw<MAX> + Sync,
    const MAX: u32,
    K: Sink,
    G: Gate,
>(
    rt: &R,
    alloc: Global,
    maker: &SpanMaker<'d, 'a, E, MAX>,
    opening: &mut Pass<SceneJob<'a, E, MAX>>,
    passes: &mut Vec<Pass<SceneJob<'a, E, MAX>>>,
    span: Span,
    workers: u32,
    out: &mut K,
    gate: &G,
) -> Result<(), SinkError>
    requires depth { MAX ≡ most_of maker.now.scene.now.project.depth }
    requires uses { AreUses E.schemas maker.now.scene.now.project }
    requires job { (job_of maker.now.cache.now).scene.now ≡ maker.now.scene.now }
    requires classes { maker.now.cache.now.classes ≡ codes "plane" ∷ E.class_names }
    requires root { root_of (plain_of maker.now.scene.now.project) ≡ Some (plain_comp maker.now.comp.now) }
    requires order { span.from ≤ span.to }
    requires end { span.to < maker.now.comp.now.frames }
    requires few { maker.now.comp.now.frames ≤ most_frames }
    requires some { 0 < workers }
    requires opening { IsOpening maker.now.cache.now 0 opening.old }
    requires made { opening.old.made + workers < 2 ^ 32 }
    requires none { passes.old.items ≡ [] }
    requires room { workers ≤ vec_capacity passes.old }
    ensures whole { OnOk result (Appends (K.written out.old) (K.written out.new) (root_text maker.now.form (⟦<E as Means<MAX>>⟧.scene maker.now.scene.now) (plain_comp maker.now.comp.now) span.from (span.to + 1 - span.from))) }
    ensures front { OnErr result (AppendsFront (K.written out.old) (K.written out.new) (root_text maker.now.form (⟦<E as Means<MAX>>⟧.scene maker.now.scene.now) (plain_comp maker.now.comp.now) span.from (span.to + 1 - span.from))) }
    ensures cause { HasWriteCause (K.faults out.old) (K.faults out.new) result }
    ensures opening { IsOpening maker.now.cache.now (vec_len passes.new) opening.new }
    ensures seats { All (IsSeat maker.now.cache.now) passes.new.items }
{
    match split_all(alloc, maker.cache, opening, workers, passes) {
        Ok(()) => write_frames(rt, alloc, maker, passes, span, out, gate),
        Err(Memory) => Err(SinkError::Memory),
    }
}

// How many frames the next window has: two for each seat, where so many are left.
fn window_of(left: u32, seats: usize) -> u32
    requires left { 0 < left }
    requires seats { 0 < seats }
    ensures some { 0 < result }
    ensures left { result ≤ left }
{
    (left as usize).min(seats.saturating_mul(2)) as u32
}

// Writes the span of the root, which is `comp`, by so many workers, whose planes and sums are shared through a cache of so many bytes.
fn write_root<R: Threads + Wait + Sync, E: Draw<MAX> + Sync, const MAX: u32, K: Sink, G: Gate>(
    rt: &R,
    alloc: Global,
    scene: &Scene,
    effects: &E,
    comp: &Comp,
    form: Form,
    span: Span,
    workers: u32,
    budget: u64,
    out: &mut K,
    gate: &G,
) -> Result<Closed, SinkError>
    requires depth { MAX ≡ most_of scene.now.project.depth }
    requires uses { AreUses E.schemas scene.now.project }
    requires root { root_of (plain_of scene.now.project) ≡ Some (plain_comp comp.now) }
    requires order { span.from ≤ span.to }
    requires end { span.to < comp.now.frames }
    requires few { comp.now.frames ≤ most_frames }
    requires some { 0 < workers }
    requires workers { workers ≤ MOST_WORKERS }
    ensures whole { OnOk result (Appends (K.written out.old) (K.written out.new) (root_text form (⟦<E as Means<MAX>>⟧.scene scene.now) (plain_comp comp.now) span.from (span.to + 1 - span.from))) }
    ensures front { OnErr result (AppendsFront (K.written out.old) (K.written out.new) (root_text form (⟦<E as Means<MAX>>⟧.scene scene.now) (plain_comp comp.now) span.from (span.to + 1 - span.from))) }
    ensures cause { HasWriteCause (K.faults out.old) (K.faults out.new) result }
    ensures ended { IfOk result (IsEnded budget) }
{
    let Ok(mut passes) = Vec::with_capacity(alloc, workers as usize) else {
        return Err(SinkError::Memory);
    };
    let Ok((cache, mut opening)) = start_cache::<E, MAX>(alloc, scene, effects, budget) else {
        passes.destroy_empty();
        return Err(SinkError::Memory);
    };
    let maker = SpanMaker {
        alloc,
        scene,
        effects,
        comp,
        cache: &cache,
        form,
    };
    let written = split_and_write(
        rt,
        alloc,
        &maker,
        &mut opening,
        &mut passes,
        span,
        workers,
        out,
        gate,
    );
    join_all(&cache, &mut opening, passes);
    let closed = cache.close(opening);
    match written {
        Ok(()) => Ok(closed),
        Err(error) => Err(error),
    }
}

/// Renders the frames of a span of the scene's root, from the first to the last of them, both included, and writes its AFR file: the
/// header as one piece, and each frame as one. So many workers draw that many frames side by side, each with a pass of
/// its own; none count as one, and more than [`MOST_WORKERS`] as so many; they share planes at other ticks and sums through one cache of `budget` bytes. The
/// worker of a frame tells the gate when it is drawn. What is written depends on neither workers, budget nor schedule.
///
/// Answers the history of the cache. Every pass is joined on each answer.
///
/// - `WriteFault`: the sink failed; a prefix of the file is written.
/// - `Memory`: memory ran out; a prefix of the file is written.
pub fn render_span<R: Threads + Wait + Sync, E: Draw<255> + Draw<32768> + Sync, K: Sink, G: Gate>(
    rt: &R,
    alloc: Global,
    scene: &Scene,
    effects: &E,
    from: u32,
    to: u32,
    workers: u32,
    budget: u64,
    out: &mut K,
    gate: &G,
) -> Result<Closed, RenderError>
    requires uses { AreUses E.schemas scene.now.project }
    requires span { InRoot (plain_of scene.now.project) from to }
    ensures whole { OnOk result (Appends (K.written out.old) (K.written out.new) (file (scene_of ⟦<E as HasEffects>⟧.effects scene.now) from to)) }
    ensures front { OnErr result (AppendsFront (K.written out.old) (K.written out.new) (file (scene_of ⟦<E as HasEffects>⟧.effects scene.now) from to)) }
    ensures cause { HasRenderCause (K.faults out.old) (K.faults out.new) result }
    ensures ended { IfOk result (IsEnded budget) }
{
    let span = Span { from, to };
    render_form(
        rt,
        alloc,
        scene,
        effects,
        Form::File,
        span,
        workers,
        budget,
        out,
        gate,
    )
}

/// Draws the frames of a span of the scene's root likewise, and writes a line for each in place of its pixels: its number, and the sums
/// of its alpha, red, green and blue over all its pixels, as in `frame 3 1020 0 255 0`; and a last line that tells how many there are,
/// as in `frames 2`. Each line ends with a line feed, numbers are decimal, and each line is one piece. The lines are this project's own.
///
/// - `WriteFault`: the sink failed; a prefix of the lines is written.
/// - `Memory`: memory ran out; a prefix of the lines is written.
pub fn render_lines<R: Threads + Wait + Sync, E: Draw<255> + Draw<32768> + Sync, K: Sink, G: Gate>(
    rt: &R,
    alloc: Global,
    scene: &Scene,
    effects: &E,
    from: u32,
    to: u32,
    workers: u32,
    budget: u64,
    out: &mut K,
    gate: &G,
) -> Result<Closed, RenderError>
    requires uses { AreUses E.schemas scene.now.project }
    requires span { InRoot (plain_of scene.now.project) from to }
    ensures whole { OnOk result (Appends (K.written out.old) (K.written out.new) (lines (scene_of ⟦<E as HasEffects>⟧.effects scene.now) from to)) }
    ensures front { OnErr result (AppendsFront (K.written out.old) (K.written out.new) (lines (scene_of ⟦<E as HasEffects>⟧.effects scene.now) from to)) }
    ensures cause { HasRenderCause (K.faults out.old) (K.faults out.new) result }
    ensures ended { IfOk result (IsEnded budget) }
{
    let span = Span { from, to };
    render_form(
        rt,
        alloc,
        scene,
        effects,
        Form::Lines,
        span,
        workers,
        budget,
        out,
        gate,
    )
}

// Renders a span in a form, by at least one worker and at most the most.
fn render_form<R: Threads + Wait + Sync, E: Draw<255> + Draw<32768> + Sync, K: Sink, G: Gate>(
    rt: &R,
    alloc: Global,
    scene: &Scene,
    effects: &E,
    form: Form,
    span: Span,
    workers: u32,
    budget: u64,
    out: &mut K,
    gate: &G,
) -> Result<Closed, RenderError>
    requires uses { AreUses E.schemas scene.now.project }
    requires span { InRoot (plain_of scene.now.project) span.from span.to }
    ensures whole { OnOk result (Appends (K.written out.old) (K.written out.new) (span_text form (scene_of ⟦<E as HasEffects>⟧.effects scene.now) span.from span.to)) }
    ensures front { OnErr result (AppendsFront (K.written out.old) (K.written out.new) (span_text form (scene_of ⟦<E as HasEffects>⟧.effects scene.now) span.from span.to)) }
    ensures cause { HasRenderCause (K.faults out.old) (K.faults out.new) result }
    ensures ended { IfOk result (IsEnded budget) }
{
    let workers = workers.clamp(1, MOST_WORKERS);
    match write_span(
        rt, alloc, scene, effects, form, span, workers, budget, out, gate,
    ) {
        Ok(closed) => Ok(closed),
        Err(error) => Err(RenderError::of_sink(error)),
    }
}

// Writes a span in a form, at the depth of the project.
fn write_span<R: Threads + Wait + Sync, E: Draw<255> + Draw<32768> + Sync, K: Sink, G: Gate>(
    rt: &R,
    alloc: Global,
    scene: &Scene,
    effects: &E,
    form: Form,
    span: Span,
    workers: u32,
    budget: u64,
    out: &mut K,
    gate: &G,
) -> Result<Closed, SinkError>
    requires uses { AreUses E.schemas scene.now.project }
    requires span { InRoot (plain_of scene.now.project) span.from span.to }
    requires some { 0 < workers }
    requires workers { workers ≤ MOST_WORKERS }
    ensures whole { OnOk result (Appends (K.written out.old) (K.written out.new) (span_text form (scene_of ⟦<E as HasEffects>⟧.effects scene.now) span.from span.to)) }
    ensures front { OnErr result (AppendsFront (K.written out.old) (K.written out.new) (span_text form (scene_of ⟦<E as HasEffects>⟧.effects scene.now) span.from span.to)) }
    ensures cause { HasWriteCause (K.faults out.old) (K.faults out.new) result }
    ensures ended { IfOk result (IsEnded budget) }
{
    let comp = root_of(scene);
    if scene.project().depth == 8 {
        write_root::<R, E, 255, K, G>(
            rt, alloc, scene, effects, comp, form, span, workers, budget, out, gate,
        )
    } else {
        write_root::<R, E, 32768, K, G>(
            rt, alloc, scene, effects, comp, form, span, workers, budget, out, gate,
        )
    }
}
