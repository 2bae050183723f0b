ghost use Rattle.std.specs.Prelude.{◌≡◌, ◌+◌, ◌<◌, ◌≤◌, ◌^◌, ◌++◌, ℕ, [], true, All, IfOk, OnOk, IsOk, IsPermutation, length, vec_len, vec_capacity};
ghost use Rattle.std.specs.List.Sorted.{IsNonDecreasingBy};
ghost use Rattle.frame_claims.specs.Claims.{opening_of};
ghost use Rattle.frame_worker.specs.Window.{AreFrames, AreDrawn, Awaits, EachNumber, IsFurther, IsNew};

use crate::jobs::{Job, seat_all};
use crate::maker::{FrameMaker, Piece};
use frame_claims::{ClaimSeat, Claims};
use host_io::{Gate, Memory};
use std::alloc::Global;
use std::sync::Wait;
use std::thread;
use std::thread::Threads;

// No window has more workers. The opening seat counts the seats to claim by in 32 bits.
const MOST_WORKERS: usize = 65_536;

// Claims frames until none is left, makes each, and tells the gate of it. Where there is no memory it stops.
fn make_all<R: Wait, F: FrameMaker, G: Gate>(
    rt: &R,
    maker: &F,
    gate: &G,
    claims: &Claims,
    claim: &mut ClaimSeat,
    seat: &mut F::Seat,
    pieces: &mut Vec<Piece<F::Piece>>,
) -> Result<(), Memory>
    requires claim { IsNew claims.now claim.old pieces.old.items }
    requires fit { F.fit maker.now seat.old }
    requires taken { EachNumber (F.takes maker.now) claims.now }
    ensures claim { IsFurther claims.now claim.new }
    ensures fit { F.fit maker.now seat.new }
    ensures ended { OnOk result (claim.new.ended ≡ true) }
    ensures pieces { OnOk result (AreDrawn (F.gives maker.now) claim.new pieces.new.items) }
{
    while let Some(frame) = claims.claim(claim) {
        let made = maker.make(rt, seat, frame)?;
        gate.drawn(frame);
        pieces.push(Piece { frame, made })?;
    }
    Ok(())
}

// A worker makes what it claims.
fn work<R: Wait, F: FrameMaker, G: Gate>(
    rt: &R,
    maker: &F,
    gate: &G,
    claims: &Claims,
    job: &mut Job<F::Seat, F::Piece>,
)
    requires claim { IsNew claims.now job.old.claim job.old.made.items }
    requires fit { F.fit maker.now job.old.seat }
    requires taken { EachNumber (F.takes maker.now) claims.now }
    ensures claim { IsFurther claims.now job.new.claim }
    ensures fit { F.fit maker.now job.new.seat }
    ensures ended { OnOk job.new.done (job.new.claim.ended ≡ true) }
    ensures pieces { OnOk job.new.done (AreDrawn (F.gives maker.now) job.new.claim job.new.made.items) }
{
    job.done = make_all(
        rt,
        maker,
        gate,
        claims,
        &mut job.claim,
        &mut job.seat,
        &mut job.made,
    );
}

// All workers at once, each on a thread.
fn work_all<R: Threads + Wait + Sync, F: FrameMaker, G: Gate>(
    rt: &R,
    maker: &F,
    gate: &G,
    claims: &Claims,
    jobs: &mut [Job<F::Seat, F::Piece>],
)
    requires claim { All (λ job. IsNew claims.now job.claim job.made.items) jobs.old }
    requires fit { All (λ job. F.fit maker.now job.seat) jobs.old }
    requires taken { EachNumber (F.takes maker.now) claims.now }
    ensures claim { All (λ job. IsFurther claims.now job.claim) jobs.new }
    ensures fit { All (λ job. F.fit maker.now job.seat) jobs.new }
    ensures ended { All (λ job. OnOk job.done (job.claim.ended ≡ true)) jobs.new }
    ensures pieces { All (λ job. OnOk job.done (AreDrawn (F.gives maker.now) job.claim job.made.items)) jobs.new }
{
    let threads = jobs.len().max(1);
    thread::for_each_mut(
        rt,
        jobs,
        threads,
        &|_place: usize, job: &mut Job<F::Seat, F::Piece>|
            requires claim { IsNew claims.now job.now.claim job.now.made.items }
            requires fit { F.fit maker.now job.now.seat }
            requires taken { EachNumber (F.takes maker.now) claims.now }
            ensures claim { IsFurther claims.entry.now job.exit.now.claim }
            ensures fit { F.fit maker.entry.now job.exit.now.seat }
            ensures ended { OnOk job.exit.now.done (job.exit.now.claim.ended ≡ true) }
            ensures pieces { OnOk job.exit.now.done (AreDrawn (F.gives maker.entry.now) job.exit.now.claim job.exit.now.made.items) }
        { work(rt, maker, gate, claims, job) },
    );
}

// The same of jobs in a list.
fn work_jobs<R: Threads + Wait + Sync, F: FrameMaker, G: Gate>(
    rt: &R,
    maker: &F,
    gate: &G,
    claims: &Claims,
    jobs: &mut Vec<Job<F::Seat, F::Piece>>,
)
    requires claim { All (λ job. IsNew claims.now job.claim job.made.items) jobs.old.items }
    requires fit { All (λ job. F.fit maker.now job.seat) jobs.old.items }
    requires taken { EachNumber (F.takes maker.now) claims.now }
    ensures len { vec_len jobs.new ≡ vec_len jobs.old }
    ensures claim { All (λ job. IsFurther claims.now job.claim) jobs.new.items }
    ensures fit { All (λ job. F.fit maker.now job.seat) jobs.new.items }
    ensures ended { All (λ job. OnOk job.done (job.claim.ended ≡ true)) jobs.new.items }
    ensures pieces { All (λ job. OnOk job.done (AreDrawn (F.gives maker.now) job.claim job.made.items)) jobs.new.items }
{
    work_all(rt, maker, gate, claims, jobs.as_mut_slice());
}

// The pieces of one worker after those of others. There are none where one of the workers is not done, or there is no
// memory for the list.
fn add_made<P: Drop>(
    pieces: Result<Vec<Piece<P>>, Memory>,
    mut made: Vec<Piece<P>>,
    done: Result<(), Memory>,
) -> Result<Vec<Piece<P>>, Memory>
    ensures others { IfOk result (λ _. IsOk pieces) }
    ensures done { IfOk result (λ _. IsOk done) }
    ensures items { IfOk result (λ all. IfOk pieces (λ pieces. all.items ≡ pieces.items ++ made.items)) }
{
    let mut all = pieces?;
    done?;
    all.append(&mut made)?;
    Ok(all)
}

// The workers make what they claim, their seats come back in order, and the opening seat takes in those that they claimed
// by. What they made, one worker after another.
fn run_all<R: Threads + Wait + Sync, F: FrameMaker, G: Gate>(
    rt: &R,
    alloc: Global,
    maker: &F,
    gate: &G,
    claims: &Claims,
    opening: &mut ClaimSeat,
    mut jobs: Vec<Job<F::Seat, F::Piece>>,
    seats: &mut Vec<F::Seat>,
) -> Result<Vec<Piece<F::Piece>>, Memory>
    requires opening { Awaits claims.now (vec_len jobs) opening.old × (opening.old.draws ≡ []) }
    requires some { 0 < vec_len jobs }
    requires room { vec_len seats.old + vec_len jobs ≤ vec_capacity seats.old }
    requires claim { All (λ job. IsNew claims.now job.claim job.made.items) jobs.items }
    requires fit { All (λ job. F.fit maker.now job.seat) jobs.items }
    requires seats { All (λ seat. F.fit maker.now seat) seats.old.items }
    requires taken { EachNumber (F.takes maker.now) claims.now }
    ensures opening { Awaits claims.now 0 opening.new }
    ensures seats { vec_len seats.new ≡ vec_len seats.old + vec_len jobs }
    ensures fit { All (λ seat. F.fit maker.now seat) seats.new.items }
    ensures ended { IfOk result (λ _. opening.new.ended ≡ true) }
    ensures pieces { IfOk result (λ pieces. AreDrawn (F.gives maker.now) opening.new pieces.items) }
{
    work_jobs(rt, maker, gate, claims, &mut jobs);
    let mut pieces = Ok(Vec::new(alloc));
    'jobs: while let Some(job) = jobs.pop() {
        let Job {
            seat,
            claim,
            made,
            done,
        } = job;
        seats.push_reserved(seat);
        claims.join(opening, claim);
        pieces = add_made(pieces, made, done);
    }
    jobs.destroy_empty();
    pieces
}

// The pieces in the order of their frames.
fn in_order<P: Drop>(mut pieces: Vec<Piece<P>>) -> Vec<Piece<P>>
    ensures permutation { IsPermutation pieces.items result.items }
    ensures order { IsNonDecreasingBy (λ piece. piece.frame) result.items }
{
    pieces.sort_unstable_by_key(|piece| piece.frame);
    pieces
}

// Makes the frames of claims of which none is drawn yet, by so many workers.
fn make_claimed<R: Threads + Wait + Sync, F: FrameMaker, G: Gate>(
    rt: &R,
    alloc: Global,
    maker: &F,
    seats: &mut Vec<F::Seat>,
    workers: usize,
    claims: &Claims,
    opening: &mut ClaimSeat,
    gate: &G,
) -> Result<Vec<Piece<F::Piece>>, Memory>
    requires opening { opening.old ≡ opening_of claims.now }
    requires enough { workers ≤ vec_len seats.old }
    requires few { workers + 1 < 2 ^ 32 }
    requires fit { All (λ seat. F.fit maker.now seat) seats.old.items }
    requires taken { EachNumber (F.takes maker.now) claims.now }
    ensures opening { Awaits claims.now 0 opening.new }
    ensures seats { vec_len seats.new ≡ vec_len seats.old }
    ensures fit { All (λ seat. F.fit maker.now seat) seats.new.items }
    ensures pieces { IfOk result (λ pieces. AreFrames (λ frame piece. (piece.frame ≡ frame) × F.gives maker.now frame piece.made) claims.now.first claims.now.count pieces.items) }
{
    let jobs = seat_all(alloc, claims, opening, seats, workers)?;
    let pieces = run_all(rt, alloc, maker, gate, claims, opening, jobs, seats);
    // The opening seat has drawn what all workers did. It finds no frame left, so these are all, each once.
    let left = claims.claim(opening);
    let pieces = pieces?;
    prove!(left.is_none());
    Ok(in_order(pieces))
}

/// Makes `count` frames from the first one on, side by side: there is a worker for each seat, but no more than there are
/// frames, or 65,536. Each claims a frame that no other worker has, makes it, tells the gate of it, and goes on with the
/// next until none is left. The pieces are in the order of their frames. Where there is no memory for one frame, or for a
/// list, none is handed out. The seats come back in any case, in their order.
pub fn render_window<R: Threads + Wait + Sync, F: FrameMaker, G: Gate>(
    rt: &R,
    alloc: Global,
    maker: &F,
    seats: &mut Vec<F::Seat>,
    first: u32,
    count: u32,
    gate: &G,
) -> Result<Vec<Piece<F::Piece>>, Memory>
    requires some { 0 < vec_len seats.old }
    requires fit { All (λ seat. F.fit maker.now seat) seats.old.items }
    requires taken { (frame : ℕ) → first ≤ frame → frame < first + count → F.takes maker.now frame }
    requires last { first + count < 2 ^ 32 }
    ensures pieces { IfOk result (λ pieces. AreFrames (λ frame piece. (piece.frame ≡ frame) × F.gives maker.now frame piece.made) first count pieces.items) }
    ensures none { count ≡ 0 → IsOk result }
    ensures seats { vec_len seats.new ≡ vec_len seats.old }
    ensures fit { All (λ seat. F.fit maker.now seat) seats.new.items }
{
    if count == 0 {
        return Ok(Vec::new(alloc));
    }
    let mut claims = Claims::new(alloc, first, count)?;
    let Some(mut opening) = claims.opening() else {
        unreachable!()
    };
    let workers = seats.len().min(count as usize).min(MOST_WORKERS);
    let pieces = make_claimed(
        rt,
        alloc,
        maker,
        seats,
        workers,
        &claims,
        &mut opening,
        gate,
    );
    claims.close(opening);
    pieces
}
