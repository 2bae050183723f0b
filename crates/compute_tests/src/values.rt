//! Values that are held, shared and evicted, and the names of classes.
ghost use Rattle.std.specs.Prelude.{◌≡◌, ◌∷◌, []};
ghost use Rattle.compute_cache.specs.Passes.{IsLater, turns};
ghost use Rattle.compute_cache.specs.Suite.{IsOf, IsClearPass, IsReceiptOf, hold_of};

use crate::calls::{CLASS, begin, entry, started, visit};
use crate::jobs::{Fresh, Low, Shared};
use crate::seat::Told;
use cache_core::{Act, replay};
use compute_cache::{Cache, CacheError, ClassId, Classes, Pass, Receipt};
use std::alloc::Global;
use std::sync::Wait;
use std::test::Fail;

// Gives back two receipts, the second first.
#[tactic(auto, using(crate::proofs::Ended::without_only, crate::proofs::Ended::without_second, crate::proofs::Ended::receipt_first))]
fn give_both<R: Wait>(
    rt: &R,
    cache: &Cache<Low>,
    pass: &mut Pass<Low>,
    first: Receipt<Low>,
    second: Receipt<Low>,
)
    requires own { IsOf cache.now pass.old }
    requires none { turns pass.old ≡ [] }
    requires both { pass.old.receipts ≡ hold_of first ∷ hold_of second ∷ [] }
    requires first { IsReceiptOf cache.now pass.old first × (first.key ≡ 1) }
    requires second { IsReceiptOf cache.now pass.old second × (second.key ≡ 2) }
    ensures own { IsOf cache.now pass.new }
    ensures clear { IsClearPass pass.new }
    ensures later { IsLater pass.old pass.new }
{
    cache.checkin(rt, pass, second);
    cache.checkin(rt, pass, first);
}

// Takes two values, of which the budget has room for one, and gives both back.
#[tactic(auto, using(crate::proofs::Ended::opens_receipt, crate::proofs::Ended::without_only, crate::proofs::Ended::receipt_stays, crate::proofs::Ended::receipt_under))]
fn hold_two<R: Wait>(
    rt: &R,
    alloc: Global,
    cache: &Cache<Low>,
    pass: &mut Pass<Low>,
) -> Result<(), CacheError>
    requires own { IsOf cache.now pass.old }
    requires clear { IsClearPass pass.old }
    ensures own { IsOf cache.now pass.new }
    ensures clear { IsClearPass pass.new }
    ensures later { IsLater pass.old pass.new }
{
    let class = Fresh { class: CLASS };
    let first = cache.compute_if_needed_and_checkout(rt, alloc, pass, &class, &1, false)?;
    match cache.compute_if_needed_and_checkout(rt, alloc, pass, &class, &2, false) {
        Ok(second) => {
            give_both(rt, cache, pass, first, second);
            Ok(())
        }
        Err(refused) => {
            cache.checkin(rt, pass, first);
            Err(refused)
        }
    }
}

// The value that is given back first leaves, since both do not fit. The other one stays.
#[test]
fn first_given_back_leaves(rt: HostRuntime) -> Result<(), Fail> {
    let (cache, mut opening) = started(rt.alloc(), 100)?;
    let done = hold_two(&rt, rt.alloc(), &cache, &mut opening);
    let closed = cache.close(opening);
    done?;
    let entries = [
        entry(0, 1, Act::Start),
        entry(
            0,
            1,
            Act::Finish {
                serial: 1,
                size: 60,
            },
        ),
        entry(0, 2, Act::Start),
        entry(
            0,
            2,
            Act::Finish {
                serial: 3,
                size: 60,
            },
        ),
        entry(0, 2, Act::Give { serial: 3 }),
        entry(0, 2, Act::Evict { serial: 3 }),
        entry(0, 1, Act::Give { serial: 1 }),
    ];
    assert_eq!(rt; closed.history(), entries.as_slice());
    let core = replay(rt.alloc(), 100, closed.history())?;
    let row = core.rows().first().ok_or("no row")?;
    assert_eq!(rt; core.rows().len(), 1);
    assert_eq!(rt; row.key, 1);
    assert!(rt; row.state.is_live(1) && row.state.is_idle());
    assert_eq!(rt; row.state.size(), 60);
    Ok(())
}

// A value that is new, and one that its class shares.
#[test]
fn values_are_new_or_shared(rt: HostRuntime) -> Result<(), Fail> {
    let key = 4_294_967_303;
    let (cache, mut opening) = started(rt.alloc(), 100)?;
    let fresh = Fresh { class: CLASS };
    let shared = Shared { class: CLASS };
    let alloc = rt.alloc();
    let first = visit(&rt, alloc, &cache, &mut opening, &fresh, &key, false);
    let again = visit(&rt, alloc, &cache, &mut opening, &shared, &key, false);
    let other = visit(&rt, alloc, &cache, &mut opening, &shared, &(key + 1), false);
    let closed = cache.close(opening);
    assert_eq!(rt; first, Ok(7));
    assert_eq!(rt; again, Ok(7));
    assert_eq!(rt; other, Ok(8));
    let entries = [
        entry(0, key, Act::Start),
        entry(
            0,
            key,
            Act::Finish {
                serial: 1,
                size: 60,
            },
        ),
        entry(0, key, Act::Give { serial: 1 }),
        entry(0, key, Act::Hit { serial: 1 }),
        entry(0, key, Act::Give { serial: 1 }),
        entry(0, key + 1, Act::Start),
        entry(
            0,
            key + 1,
            Act::Finish {
                serial: 6,
                size: 60,
            },
        ),
        entry(0, key, Act::Evict { serial: 1 }),
        entry(0, key + 1, Act::Give { serial: 6 }),
    ];
    assert_eq!(rt; closed.history(), entries.as_slice());
    Ok(())
}

// Names are numbered from 0 on, and taken once. There is room for 256.
#[test]
fn names_are_taken_once(rt: HostRuntime) -> Result<(), Fail> {
    let alloc = rt.alloc();
    let mut classes = Classes::new(alloc);
    assert_eq!(rt; classes.register(alloc, "a"), Ok(ClassId(0)));
    assert_eq!(rt; classes.register(alloc, "b"), Ok(ClassId(1)));
    assert_eq!(rt;
        classes.register(alloc, "a"),
        Err(CacheError::NameTaken { id: ClassId(0) })
    );
    for number in 2..=255u8 {
        let name = format!(in alloc; "{number}")?;
        assert_eq!(rt; classes.register(alloc, &name), Ok(ClassId(number)));
    }
    assert_eq!(rt;
        classes.register(alloc, "256"),
        Err(CacheError::ClassesFull)
    );
    assert_eq!(rt;
        classes.register(alloc, "b"),
        Err(CacheError::NameTaken { id: ClassId(1) })
    );
    Ok(())
}

// A class that is not there, beside two that are.
#[test]
fn unknown_class_is_refused(rt: HostRuntime) -> Result<(), Fail> {
    let alloc = rt.alloc();
    let mut classes = Classes::new(alloc);
    classes.register(alloc, "a")?;
    classes.register(alloc, "b")?;
    let (cache, mut opening) = Cache::start(alloc, classes, 100, Low)?;
    let unknown = begin(&rt, alloc, &cache, &mut opening, ClassId(5), 7);
    let known = begin(&rt, alloc, &cache, &mut opening, ClassId(1), 7);
    let closed = cache.close(opening);
    let refused = CacheError::NotRegistered { class: ClassId(5) };
    assert_eq!(rt; unknown, Told::Refused(refused));
    assert_eq!(rt; known, Told::Turn);
    assert_eq!(rt; closed.history().len(), 2);
    Ok(())
}
