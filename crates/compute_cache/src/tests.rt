ghost use Rattle.std.specs.Prelude.{◌≡◌, ◌<◌, ◌^◌, ◌%◌, ◌+◌, ℕ, Option, Some, [], IfOk, OnErr, OnOk};
ghost use Rattle.compute_cache.specs.Passes.{has_turn, turns, IsLater};
ghost use Rattle.compute_cache.specs.Suite.{IsOf, IsClearPass, hold_of};

use crate::{Cache, CacheError, ClassId, Classes, Closed, ComputeClass, Keeps, Made, Pass, Turn};
use cache_core::{Act, Entry};
use host_io::Memory;
use std::alloc::Global;
use std::sync::Wait;
use std::test::Fail;

const CLASS: ClassId = ClassId(0);

// A job whose value of a key is its low 32 bits, and takes 60 bytes.
#[derive(Drop)]
struct Low;

impl Keeps for Low {
    type Value = u32;

    ghost meaning = { λ _ _ key. Some (key % 2 ^ 32) };

    ghost size_of = { λ _. 60 };

    fn size(_value: &u32) -> u32 {
        60
    }

    ghost use Rattle.std.proofs.Common.{rules};

    ghost sizes_fit = { λ _ _ _ _ _. Prim.search rules };
}

// The low 32 bits of a key.
#[derive(Drop)]
struct LowBits {
    class: ClassId,
}

impl ComputeClass<Low> for LowBits {
    type Options = u128;

    ghost class_of = { λ s. s.class };

    ghost key_of = { λ _ key. key };

    fn class(&self) -> ClassId {
        self.class
    }

    fn generate_key(&self, options: &u128) -> u128 {
        *options
    }

    fn compute(
        &self,
        alloc: Global,
        _turn: &Turn<Low>,
        options: &u128,
    ) -> Result<Made<u32>, Memory> {
        Made::new(alloc, (*options % 4294967296) as u32)
    }
}

// A clear pass takes a value, which is computed where it is not there, and gives it back.
#[tactic(auto, using(crate::proofs::Callers::opens_receipt, crate::proofs::Callers::without_only))]
fn visit<R: Wait>(
    rt: &R,
    alloc: Global,
    cache: &Cache<Low>,
    pass: &mut Pass<Low>,
    class: ClassId,
    key: u128,
    wait: bool,
) -> Result<u32, CacheError>
    requires own { IsOf cache.now pass.old }
    requires clear { IsClearPass pass.old }
    ensures own { IsOf cache.now pass.new }
    ensures clear { IsClearPass pass.new }
    ensures later { IsLater pass.old pass.new }
    ensures value { IfOk result (λ value. value ≡ key % 2 ^ 32) }
{
    let low = LowBits { class };
    let receipt = cache.compute_if_needed_and_checkout(rt, alloc, pass, &low, &key, wait)?;
    let value = *receipt.value();
    cache.checkin(rt, pass, receipt);
    Ok(value)
}

// A cache with one class, and its opening pass.
fn started(alloc: Global, budget: u64) -> Result<(Cache<Low>, Pass<Low>), CacheError>
    ensures own { IfOk result (λ made. IsOf made.0 made.1) }
    ensures clear { IfOk result (λ made. IsClearPass made.1) }
    ensures number { IfOk result (λ made. made.1.number ≡ 0) }
    ensures counts { IfOk result (λ made. (made.1.made ≡ 1) × (made.1.joined ≡ 0)) }
{
    let mut classes = Classes::new(alloc);
    classes.register(alloc, "low")?;
    Ok(Cache::start(alloc, classes, budget, Low)?)
}

// One pass takes two values, of which the budget has room for one, and then asks an unknown class.
fn two_values<R: Wait>(rt: &R, alloc: Global) -> Result<(Answers, Closed), CacheError> {
    let (cache, mut pass) = started(alloc, 100)?;
    let first = visit(rt, alloc, &cache, &mut pass, CLASS, 10, false);
    let second = visit(rt, alloc, &cache, &mut pass, CLASS, 11, false);
    let third = visit(rt, alloc, &cache, &mut pass, ClassId(5), 11, false);
    let answers = Answers {
        first,
        second,
        third,
    };
    Ok((answers, cache.close(pass)))
}

#[derive(Drop)]
struct Answers {
    first: Result<u32, CacheError>,
    second: Result<u32, CacheError>,
    third: Result<u32, CacheError>,
}

fn entry(key: u128, act: Act) -> Entry {
    Entry {
        pass: 0,
        class: 0,
        key,
        act,
    }
}

// What one pass leaves in the history. The value that is put in is the second, so the first, which is idle, goes.
#[test]
fn idle_value_leaves(rt: HostRuntime) -> Result<(), Fail> {
    let (answers, closed) = two_values(&rt, rt.alloc())?;
    assert_eq!(rt; answers.first, Ok(10));
    assert_eq!(rt; answers.second, Ok(11));
    assert_eq!(rt;
        answers.third,
        Err(CacheError::NotRegistered { class: ClassId(5) })
    );
    let entries = [
        entry(10, Act::Start),
        entry(
            10,
            Act::Finish {
                serial: 1,
                size: 60,
            },
        ),
        entry(10, Act::Give { serial: 1 }),
        entry(11, Act::Start),
        entry(
            11,
            Act::Finish {
                serial: 4,
                size: 60,
            },
        ),
        entry(10, Act::Evict { serial: 1 }),
        entry(11, Act::Give { serial: 4 }),
    ];
    assert_eq!(rt; closed.history(), entries.as_slice());
    Ok(())
}

// Names and their numbers.
#[test]
fn names_are_taken_once(rt: HostRuntime) -> Result<(), Fail> {
    let mut classes = Classes::new(rt.alloc());
    assert_eq!(rt; classes.register(rt.alloc(), "a"), Ok(ClassId(0)));
    assert_eq!(rt; classes.register(rt.alloc(), "b"), Ok(ClassId(1)));
    assert_eq!(rt;
        classes.register(rt.alloc(), "a"),
        Err(CacheError::NameTaken { id: ClassId(0) })
    );
    Ok(())
}
