ghost use Rattle.std.specs.Prelude.{◌≡◌, ◌+◌, ◌<◌, ◌≤◌, All, IfOk, vec_len};

use crate::counting::{Counter, Threefold};
use crate::gates::{Counted, HeldFrame};
use crate::sheets::{Painter, Sheet, Stencil};
use frame_worker::{Piece, render_window};
use host_io::{Gate, Memory, NoGate};
use std::alloc::Global;
use std::sync::Wait;
use std::test::Fail;
use std::thread::Threads;

const OWNER: u32 = 5;

// A maker that has memory for every frame but one.
fn maker(lacks: Option<u32>) -> Threefold
    ensures { result.owner ≡ OWNER }
{
    Threefold {
        owner: OWNER,
        more: 2,
        lacks,
    }
}

// Seats with which nothing was made yet.
fn seated(alloc: Global, count: usize) -> Result<Vec<Counter>, Memory>
    ensures count { IfOk result (λ seats. vec_len seats ≡ count) }
    ensures fit { IfOk result (λ seats. All (λ seat. seat.owner ≡ OWNER) seats.items) }
{
    Ok(vec![in alloc; Counter {
        owner: OWNER,
        made: 0
    }; count]?)
}

// A window of a maker, with this gate. The seats stay those of the maker.
fn window<R: Threads + Wait + Sync, G: Gate>(
    rt: &R,
    alloc: Global,
    maker: &Threefold,
    seats: &mut Vec<Counter>,
    first: u32,
    count: u32,
    gate: &G,
) -> Result<Vec<Piece<u32>>, Memory>
    requires some { 0 < vec_len seats.old }
    requires fit { All (λ seat. seat.owner ≡ maker.now.owner) seats.old.items }
    requires last { first + count < 1000 }
    ensures seats { vec_len seats.new ≡ vec_len seats.old }
    ensures fit { All (λ seat. seat.owner ≡ maker.now.owner) seats.new.items }
{
    render_window(rt, alloc, maker, seats, first, count, gate)
}

// Whether the pieces are those of the frames from the first one on, in order.
fn are_from(pieces: &[Piece<u32>], first: u32) -> bool {
    let mut frame = first;
    for piece in pieces {
        if piece.frame != frame || piece.made != frame.wrapping_mul(3).wrapping_add(2) {
            return false;
        }
        frame = frame.wrapping_add(1);
    }
    true
}

// How many frames all seats made.
fn made_by_all(seats: &[Counter]) -> u32 {
    let mut made = 0u32;
    for seat in seats {
        made = made.saturating_add(seat.made);
    }
    made
}

// Whether some seat made so many frames.
fn some_made(seats: &[Counter], made: u32) -> bool {
    seats.iter().any(|seat| seat.made == made)
}

// Whether a window has its frames in order, each made once, and the seats are back.
fn is_made<R: Threads + Wait + Sync>(
    rt: &R,
    alloc: Global,
    seats: usize,
    first: u32,
    count: u32,
) -> Result<bool, Memory>
    requires some { 0 < seats }
    requires last { first + count < 1000 }
{
    let mut rows = seated(alloc, seats)?;
    let pieces = window(rt, alloc, &maker(None), &mut rows, first, count, &NoGate)?;
    Ok(
        pieces.len() == count as usize
            && are_from(&pieces, first)
            && rows.len() == seats
            && made_by_all(&rows) == count,
    )
}

// As many frames as there are seats, or fewer.
#[test]
fn windows_have_their_frames(rt: HostRuntime) -> Result<(), Fail> {
    assert!(rt; is_made(&rt, rt.alloc(), 1, 0, 0)?);
    assert!(rt; is_made(&rt, rt.alloc(), 1, 7, 1)?);
    assert!(rt; is_made(&rt, rt.alloc(), 2, 3, 1)?);
    assert!(rt; is_made(&rt, rt.alloc(), 2, 0, 2)?);
    assert!(rt; is_made(&rt, rt.alloc(), 4, 10, 0)?);
    assert!(rt; is_made(&rt, rt.alloc(), 4, 10, 2)?);
    assert!(rt; is_made(&rt, rt.alloc(), 4, 10, 4)?);
    Ok(())
}

// More frames than there are seats.
#[test]
fn windows_have_more_frames_than_seats(rt: HostRuntime) -> Result<(), Fail> {
    assert!(rt; is_made(&rt, rt.alloc(), 1, 4, 7)?);
    assert!(rt; is_made(&rt, rt.alloc(), 2, 4, 7)?);
    assert!(rt; is_made(&rt, rt.alloc(), 3, 0, 200)?);
    Ok(())
}

// Frames 4 to 10, each three times its number and two more, by two workers.
#[test]
fn seven_frames_by_two_seats(rt: HostRuntime) -> Result<(), Fail> {
    let mut seats = seated(rt.alloc(), 2)?;
    let pieces = window(&rt, rt.alloc(), &maker(None), &mut seats, 4, 7, &NoGate)?;
    let made = [14, 17, 20, 23, 26, 29, 32];
    assert_eq!(rt; pieces.len(), 7);
    for (piece, expected) in pieces.iter().zip(&made) {
        assert_eq!(rt; piece.made, *expected);
    }
    Ok(())
}

// The worker of frame 0 is held until the other one has made the six frames after it.
#[test]
fn one_is_held_while_the_other_claims_the_rest(rt: HostRuntime) -> Result<(), Fail> {
    let mut seats = seated(rt.alloc(), 2)?;
    let gate = HeldFrame::until(0, 6);
    let pieces = window(&rt, rt.alloc(), &maker(None), &mut seats, 0, 7, &gate)?;
    assert!(rt; are_from(&pieces, 0));
    assert_eq!(rt; pieces.len(), 7);
    assert!(rt; gate.saw_another());
    assert!(rt; some_made(&seats, 1));
    assert!(rt; some_made(&seats, 6));
    Ok(())
}

// There is no memory for the second of four frames: the others are made, nothing is handed out, and no seat is lost.
#[test]
fn want_of_memory_leaves_the_seats(rt: HostRuntime) -> Result<(), Fail> {
    let mut seats = seated(rt.alloc(), 4)?;
    let refused = window(
        &rt,
        rt.alloc(),
        &maker(Some(21)),
        &mut seats,
        20,
        4,
        &NoGate,
    );
    assert!(rt; refused.is_err());
    assert_eq!(rt; seats.len(), 4);
    assert_eq!(rt; made_by_all(&seats), 4);
    let again = window(&rt, rt.alloc(), &maker(None), &mut seats, 20, 4, &NoGate)?;
    assert!(rt; are_from(&again, 20));
    assert_eq!(rt; made_by_all(&seats), 8);
    Ok(())
}

// Frame 0 is held until frame 1 is drawn.
#[test]
fn two_frames_at_once(rt: HostRuntime) -> Result<(), Fail> {
    let mut seats = seated(rt.alloc(), 2)?;
    let gate = HeldFrame::new(0);
    let pieces = window(&rt, rt.alloc(), &maker(None), &mut seats, 0, 2, &gate)?;
    assert!(rt; are_from(&pieces, 0));
    assert_eq!(rt; pieces.len(), 2);
    assert!(rt; gate.saw_another());
    Ok(())
}

// The gate is told of each frame that was drawn, and of no other.
#[test]
fn gate_is_told_of_what_is_drawn(rt: HostRuntime) -> Result<(), Fail> {
    let mut seats = seated(rt.alloc(), 4)?;
    let gate = Counted::new(&rt);
    assert!(rt; window(&rt, rt.alloc(), &maker(Some(2)), &mut seats, 0, 4, &gate).is_err());
    assert_eq!(rt; gate.frames(), 3);
    Ok(())
}

// A maker that borrows, generic over its depth.
#[test]
fn sheets_are_painted(rt: HostRuntime) -> Result<(), Fail> {
    let stencil = Stencil { colour: 9 };
    let painter = Painter {
        paints: &stencil,
        frames: 5,
    };
    let mut seats = Vec::new(rt.alloc());
    seats.push(Sheet { colour: 0 })?;
    seats.push(Sheet { colour: 0 })?;
    let sheets = render_window(&rt, rt.alloc(), &painter, &mut seats, 3, 2, &NoGate)?;
    assert_eq!(rt; sheets.len(), 2);
    for (k, sheet) in sheets.iter().enumerate() {
        assert_eq!(rt; sheet.frame as usize, k + 3);
        assert_eq!(rt; sheet.made.colour, 9);
    }
    Ok(())
}
