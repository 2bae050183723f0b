//! Small histories of one and of two passes, entry by entry.
ghost use Rattle.std.specs.Prelude.{◌≡◌, ◌∷◌, ◌+◌, ◌<◌, []};
ghost use Rattle.compute_cache.specs.Passes.{IsLater, turns};
ghost use Rattle.compute_cache.specs.Suite.{IsOf, IsClearPass, IsTurnOf, start_of};

use crate::calls::{CLASS, begin, checkout, entry, finish, started};
use crate::jobs::Low;
use crate::seat::Told;
use cache_core::Act;
use compute_cache::{Begun, Cache, CacheError, Pass, Turn};
use host_io::Memory;
use std::alloc::Global;
use std::sync::Wait;
use std::test::Fail;

// What two passes were told of one key.
#[derive(Drop)]
struct SharedKey {
    owns: bool,
    pending: Told,
    hit: Told,
}

// One pass computes, and the other asks before it finished and after that.
#[tactic(auto, using(crate::proofs::Ended::without_only, crate::proofs::Ended::turn_stays))]
fn ask_twice<R: Wait>(
    rt: &R,
    alloc: Global,
    cache: &Cache<Low>,
    one: &mut Pass<Low>,
    two: &mut Pass<Low>,
    turn: Turn<Low>,
    key: u128,
) -> SharedKey
    requires own { IsOf cache.now one.old × IsOf cache.now two.old }
    requires turn { IsTurnOf cache.now one.old turn }
    requires only { (turns one.old ≡ start_of turn ∷ []) × (one.old.receipts ≡ []) }
    requires clear { IsClearPass two.old }
    ensures own { IsOf cache.now one.new × IsOf cache.now two.new }
    ensures clear { IsClearPass one.new × IsClearPass two.new }
    ensures later { IsLater one.old one.new × IsLater two.old two.new }
{
    let owns = cache.owns(rt, one, CLASS, key);
    let pending = begin(rt, alloc, cache, two, CLASS, key);
    let hit = match finish(rt, alloc, cache, one, turn) {
        Ok(receipt) => {
            let told = begin(rt, alloc, cache, two, CLASS, key);
            cache.checkin(rt, one, receipt);
            told
        }
        Err(_) => Told::Refused(CacheError::Memory),
    };
    SharedKey { owns, pending, hit }
}

// The same from the start. No answer where the first pass got no turn.
#[tactic(auto, using(crate::proofs::Ended::hit_receipt, crate::proofs::Ended::begun_turn, crate::proofs::Ended::without_only))]
fn share_key<R: Wait>(
    rt: &R,
    alloc: Global,
    cache: &Cache<Low>,
    one: &mut Pass<Low>,
    two: &mut Pass<Low>,
    key: u128,
) -> Option<SharedKey>
    requires own { IsOf cache.now one.old × IsOf cache.now two.old }
    requires clear { IsClearPass one.old × IsClearPass two.old }
    ensures own { IsOf cache.now one.new × IsOf cache.now two.new }
    ensures clear { IsClearPass one.new × IsClearPass two.new }
{
    match cache.begin(rt, alloc, one, CLASS, key, false) {
        Ok(Begun::Turn(turn)) => Some(ask_twice(rt, alloc, cache, one, two, turn, key)),
        Ok(Begun::Hit(receipt)) => {
            cache.checkin(rt, one, receipt);
            None
        }
        Err(_) => None,
    }
}

// The same by two passes, which the opening pass makes and takes in.
fn share_in_two<R: Wait>(
    rt: &R,
    alloc: Global,
    cache: &Cache<Low>,
    opening: &mut Pass<Low>,
    key: u128,
) -> Result<Option<SharedKey>, Memory>
    requires own { IsOf cache.now opening.old }
    requires clear { IsClearPass opening.old }
    requires opening { opening.old.number ≡ 0 }
    requires few { opening.old.made < 1000 }
    ensures own { IsOf cache.now opening.new }
    ensures clear { IsClearPass opening.new }
    ensures number { opening.new.number ≡ 0 }
    ensures counts { opening.new.made + opening.old.joined ≡ opening.old.made + opening.new.joined }
{
    let mut one = cache.split(alloc, opening)?;
    let mut two = match cache.split(alloc, opening) {
        Ok(two) => two,
        Err(refused) => {
            cache.join(opening, one);
            return Err(refused);
        }
    };
    let seen = share_key(rt, alloc, cache, &mut one, &mut two, key);
    cache.join(opening, one);
    cache.join(opening, two);
    Ok(seen)
}

// Two passes and one key: the first computes it, the second finds it pending, and then there.
#[test]
fn second_pass_finds_pending_and_then_the_value(rt: HostRuntime) -> Result<(), Fail> {
    let key = 4_294_967_303;
    let (cache, mut opening) = started(rt.alloc(), 100)?;
    let seen = share_in_two(&rt, rt.alloc(), &cache, &mut opening, key);
    let closed = cache.close(opening);
    let seen = seen?.ok_or("the first pass got no turn")?;
    assert!(rt; seen.owns);
    assert_eq!(rt;
        seen.pending,
        Told::Refused(CacheError::Pending { owner: 1, at: 1 })
    );
    assert_eq!(rt; seen.hit, Told::Hit { value: 7 });
    let entries = [
        entry(1, key, Act::Start),
        entry(2, key, Act::Pending { owner: 1 }),
        entry(
            1,
            key,
            Act::Finish {
                serial: 2,
                size: 60,
            },
        ),
        entry(2, key, Act::Hit { serial: 2 }),
        entry(2, key, Act::Give { serial: 2 }),
        entry(1, key, Act::Give { serial: 2 }),
    ];
    assert_eq!(rt; closed.history(), entries.as_slice());
    Ok(())
}

// What a checkout finds before and after a turn that was given up.
#[derive(Drop)]
struct NoValue {
    before: Told,
    turn: Told,
    after: Told,
}

fn find_nothing<R: Wait>(rt: &R, alloc: Global, cache: &Cache<Low>, pass: &mut Pass<Low>) -> NoValue
    requires own { IsOf cache.now pass.old }
    requires clear { IsClearPass pass.old }
    ensures own { IsOf cache.now pass.new }
    ensures clear { IsClearPass pass.new }
    ensures later { IsLater pass.old pass.new }
{
    let before = checkout(rt, alloc, cache, pass, 7);
    let turn = begin(rt, alloc, cache, pass, CLASS, 7);
    let after = checkout(rt, alloc, cache, pass, 7);
    NoValue {
        before,
        turn,
        after,
    }
}

// A checkout of a value that is not there says so, also after a turn that was given up.
#[test]
fn checkout_finds_no_value(rt: HostRuntime) -> Result<(), Fail> {
    let (cache, mut opening) = started(rt.alloc(), 100)?;
    let seen = find_nothing(&rt, rt.alloc(), &cache, &mut opening);
    let closed = cache.close(opening);
    assert_eq!(rt; seen.before, Told::Refused(CacheError::NotCached { at: 0 }));
    assert_eq!(rt; seen.turn, Told::Turn);
    assert_eq!(rt; seen.after, Told::Refused(CacheError::NotCached { at: 3 }));
    let entries = [
        entry(0, 7, Act::NotCached),
        entry(0, 7, Act::Start),
        entry(0, 7, Act::Abandon),
        entry(0, 7, Act::NotCached),
    ];
    assert_eq!(rt; closed.history(), entries.as_slice());
    Ok(())
}
