//! Seats beside those to claim frames by, and what their workers make.
ghost use Rattle.std.specs.Prelude.{◌≡◌, ◌+◌, ◌<◌, ◌≤◌, ◌^◌, ◌++◌, [], All, map, reverse, vec_len, vec_capacity, OnErr, IfOk};
ghost use Rattle.frame_claims.specs.Claims.{opening_of};
ghost use Rattle.frame_worker.specs.Window.{IsNew, Awaits};

use crate::maker::Piece;
use frame_claims::{ClaimSeat, Claims};
use host_io::Memory;
use std::alloc::Global;

// A worker's seat, the one by which it claims, the pieces of what it claimed, and whether these are all: not before it is
// done, nor where there was no memory.
pub(crate) struct Job<S, P> {
    pub(crate) seat: S,
    pub(crate) claim: ClaimSeat,
    pub(crate) made: Vec<Piece<P>>,
    pub(crate) done: Result<(), Memory>,
}

// Moves seats into jobs, the last one first, each beside a new seat to claim by, until there are so many. There is room for
// them. Where there is no memory for one more seat to claim by, there are fewer jobs.
fn fill_jobs<S, P: Drop>(
    alloc: Global,
    claims: &Claims,
    opening: &mut ClaimSeat,
    seats: &mut Vec<S>,
    count: usize,
    jobs: &mut Vec<Job<S, P>>,
)
    requires opening { opening.old ≡ opening_of claims.now }
    requires enough { count ≤ vec_len seats.old }
    requires few { count + 1 < 2 ^ 32 }
    requires none { jobs.old.items ≡ [] }
    requires room { count ≤ vec_capacity jobs.old }
    ensures opening { Awaits claims.now (vec_len jobs.new) opening.new }
    ensures fresh { opening.new.draws ≡ [] }
    ensures new { All (λ job. IsNew claims.now job.claim job.made.items) jobs.new.items }
    ensures moved { seats.old.items ≡ seats.new.items ++ reverse (map (λ job. job.seat) jobs.new.items) }
    ensures room { vec_capacity seats.new ≡ vec_capacity seats.old }
{
    'jobs: while jobs.len() < count {
        let Some(seat) = seats.pop() else {
            unreachable!()
        };
        match claims.split(opening) {
            Ok(claim) => jobs.push_reserved(Job {
                seat,
                claim,
                made: Vec::new(alloc),
                done: Err(Memory),
            }),
            Err(Memory) => {
                seats.push_reserved(seat);
                break;
            }
        }
    }
}

// The same, in a list of its own. There is a job, or no memory.
pub(crate) fn seat_all<S, P: Drop>(
    alloc: Global,
    claims: &Claims,
    opening: &mut ClaimSeat,
    seats: &mut Vec<S>,
    count: usize,
) -> Result<Vec<Job<S, P>>, Memory>
    requires opening { opening.old ≡ opening_of claims.now }
    requires enough { count ≤ vec_len seats.old }
    requires few { count + 1 < 2 ^ 32 }
    ensures opening { IfOk result (λ jobs. Awaits claims.now (vec_len jobs) opening.new) }
    ensures fresh { opening.new.draws ≡ [] }
    ensures some { IfOk result (λ jobs. 0 < vec_len jobs) }
    ensures new { IfOk result (λ jobs. All (λ job. IsNew claims.now job.claim job.made.items) jobs.items) }
    ensures moved { IfOk result (λ jobs. seats.old.items ≡ seats.new.items ++ reverse (map (λ job. job.seat) jobs.items)) }
    ensures room { vec_capacity seats.new ≡ vec_capacity seats.old }
    ensures stays { OnErr result (Awaits claims.now 0 opening.new) }
    ensures stay { OnErr result (seats.new.items ≡ seats.old.items) }
{
    let mut jobs = Vec::with_capacity(alloc, count)?;
    fill_jobs(alloc, claims, opening, seats, count, &mut jobs);
    if jobs.is_empty() {
        jobs.destroy_empty();
        return Err(Memory);
    }
    Ok(jobs)
}
