ghost use Rattle.std.specs.Prelude.{◌≡◌, ◌<◌, ◌++◌, [], true, IfOk, OnOk};
ghost use Rattle.frame_claims.specs.Claims.{IsOf, IsAlone, AreAll};

use crate::{ClaimSeat, Claims};
use host_io::Memory;
use std::alloc::Global;
use std::test::Fail;
use std::thread;
use std::thread::Threads;

// How many numbers two threads draw.
const NUMBERS: u32 = 2_000;

#[test]
fn two_numbers(rt: HostRuntime) -> Result<(), Fail> {
    let mut claims = Claims::new(rt.alloc(), 5, 2)?;
    let Some(mut seat) = claims.opening() else {
        unreachable!()
    };
    let second = claims.opening();
    let None = second else { unreachable!() };
    let found = [
        claims.claim(&mut seat),
        claims.claim(&mut seat),
        claims.claim(&mut seat),
        claims.claim(&mut seat),
    ];
    claims.close(seat);
    assert_eq!(rt; found[0], Some(5));
    assert_eq!(rt; found[1], Some(6));
    assert_eq!(rt; found[2], None);
    assert_eq!(rt; found[3], None);
    Ok(())
}

#[test]
fn none_and_the_last(rt: HostRuntime) -> Result<(), Fail> {
    let mut empty = Claims::new(rt.alloc(), 7, 0)?;
    let mut last = Claims::new(rt.alloc(), 4_294_967_294, 1)?;
    let Some(mut one) = empty.opening() else {
        unreachable!()
    };
    let Some(mut two) = last.opening() else {
        unreachable!()
    };
    let nothing = empty.claim(&mut one);
    let greatest = last.claim(&mut two);
    let after = last.claim(&mut two);
    empty.close(one);
    last.close(two);
    assert_eq!(rt; nothing, None);
    assert_eq!(rt; greatest, Some(4_294_967_294));
    assert_eq!(rt; after, None);
    Ok(())
}

// Two seats claim in turn, and the second is joined. What they found, and what the opening seat finds then.
fn in_turn(
    claims: &Claims,
    opening: &mut ClaimSeat,
) -> Result<([Option<u32>; 4], Option<u32>), Memory>
    requires own { IsOf claims.now opening.old }
    requires opening { opening.old.opening ≡ true }
    requires few { opening.old.made < 1000 }
    ensures own { IsOf claims.now opening.new }
    ensures opening { opening.new.opening ≡ true }
{
    let mut other = claims.split(opening)?;
    let one = claims.claim(opening);
    let two = claims.claim(&mut other);
    let three = claims.claim(opening);
    let four = claims.claim(&mut other);
    claims.join(opening, other);
    Ok(([one, two, three, four], claims.claim(opening)))
}

#[test]
fn two_seats_in_turn(rt: HostRuntime) -> Result<(), Fail> {
    let mut claims = Claims::new(rt.alloc(), 10, 3)?;
    let Some(mut seat) = claims.opening() else {
        unreachable!()
    };
    let done = in_turn(&claims, &mut seat);
    claims.close(seat);
    let (found, end) = done?;
    assert_eq!(rt; found[0], Some(10));
    assert_eq!(rt; found[1], Some(11));
    assert_eq!(rt; found[2], Some(12));
    assert_eq!(rt; found[3], None);
    assert_eq!(rt; end, None);
    Ok(())
}

// Claims until no number is left.
fn drain(claims: &Claims, seat: &mut ClaimSeat, numbers: &mut Vec<u32>) -> Result<(), Memory>
    requires own { IsOf claims.now seat.old }
    requires drawn { numbers.old.items ≡ seat.old.draws }
    ensures own { IsOf claims.now seat.new }
    ensures opening { seat.new.opening ≡ seat.old.opening }
    ensures drawn { OnOk result (numbers.new.items ≡ seat.new.draws) }
    ensures ended { OnOk result (seat.new.ended ≡ true) }
{
    while let Some(number) = claims.claim(seat) {
        numbers.push(number)?;
    }
    Ok(())
}

// Two workers at once.
fn both_drain<R: Threads + Sync>(
    rt: &R,
    claims: &Claims,
    one: &mut ClaimSeat,
    two: &mut ClaimSeat,
    first: &mut Vec<u32>,
    second: &mut Vec<u32>,
) -> (Result<(), Memory>, Result<(), Memory>)
    requires own { (IsOf claims.now one.old) × (IsOf claims.now two.old) }
    requires drawn { (first.old.items ≡ one.old.draws) × (second.old.items ≡ two.old.draws) }
    ensures own { (IsOf claims.now one.new) × (IsOf claims.now two.new) }
    ensures opening { (one.new.opening ≡ one.old.opening) × (two.new.opening ≡ two.old.opening) }
    ensures first { OnOk result.0 ((first.new.items ≡ one.new.draws) × (one.new.ended ≡ true)) }
    ensures second { OnOk result.1 ((second.new.items ≡ two.new.draws) × (two.new.ended ≡ true)) }
{
    thread::join_mut(
        rt,
        &mut || drain(claims, one, first),
        &mut || drain(claims, two, second),
    )
}

// Two threads draw, each with a seat of its own, which the opening seat takes in. What they drew are all the numbers.
fn both<R: Threads + Sync>(
    rt: &R,
    alloc: Global,
    claims: &Claims,
    opening: &mut ClaimSeat,
) -> Result<(Vec<u32>, Vec<u32>), Memory>
    requires own { IsOf claims.now opening.old }
    requires alone { IsAlone opening.old }
    requires fresh { opening.old.draws ≡ [] }
    requires few { opening.old.made < 1000 }
    ensures own { IsOf claims.now opening.new }
    ensures opening { opening.new.opening ≡ true }
    ensures all { IfOk result (λ drawn. AreAll claims.now (drawn.0.items ++ drawn.1.items)) }
{
    let mut one = claims.split(opening)?;
    let mut two = match claims.split(opening) {
        Ok(two) => two,
        Err(refused) => {
            claims.join(opening, one);
            return Err(refused);
        }
    };
    let mut first = Vec::new(alloc);
    let mut second = Vec::new(alloc);
    let (left, right) = both_drain(rt, claims, &mut one, &mut two, &mut first, &mut second);
    claims.join(opening, one);
    claims.join(opening, two);
    let end = claims.claim(opening);
    left?;
    right?;
    prove!(end.is_none());
    Ok((first, second))
}

// Whether each number below the count is in just one of the lists, and there are so many.
fn are_all(first: &[u32], second: &[u32], count: u32) -> bool {
    let mut each = first.len() + second.len() == count as usize;
    for number in 0..count {
        if first.contains(&number) == second.contains(&number) {
            each = false;
        }
    }
    each
}

#[test]
fn two_threads_draw_all(rt: HostRuntime) -> Result<(), Fail> {
    let mut claims = Claims::new(rt.alloc(), 0, NUMBERS)?;
    let Some(mut seat) = claims.opening() else {
        unreachable!()
    };
    let done = both(&rt, rt.alloc(), &claims, &mut seat);
    claims.close(seat);
    let (first, second) = done?;
    assert!(rt; are_all(&first, &second, NUMBERS));
    Ok(())
}
