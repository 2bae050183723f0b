//! Calls of a pass that end what they were given, so that the pass is clear again.
ghost use Rattle.std.specs.Prelude.{◌≡◌, ◌∷◌, [], ◌^◌, ◌%◌, ◌+◌, ◌<◌, IfOk, OnErr};
ghost use Rattle.compute_cache.specs.Passes.{IsLater, turns};
ghost use Rattle.compute_cache.specs.Suite.{IsOf, IsClearPass, IsReceiptOf, IsTurnOf, start_of, hold_of};

use crate::jobs::{Low, low_bits};
use crate::seat::Told;
use cache_core::{Act, Entry};
use compute_cache::{
    Begun, Cache, CacheError, ClassId, Classes, ComputeClass, Made, Pass, Receipt, Turn,
};
use host_io::Memory;
use std::alloc::Global;
use std::sync::Wait;

// The class of the tests' values.
pub(crate) const CLASS: ClassId = ClassId(0);

// A cache with one class, and its opening pass.
pub(crate) fn started(alloc: Global, budget: u64) -> Result<(Cache<Low>, Pass<Low>), CacheError>
    ensures own { IfOk result (λ made. IsOf made.0 made.1) }
    ensures clear { IfOk result (λ made. IsClearPass made.1) }
    ensures number { IfOk result (λ made. made.1.number ≡ 0) }
    ensures counts { IfOk result (λ made. (made.1.made ≡ 1) × (made.1.joined ≡ 0)) }
{
    let mut classes = Classes::new(alloc);
    classes.register(alloc, "low")?;
    Ok(Cache::start(alloc, classes, budget, Low)?)
}

// An entry of a pass on the class.
pub(crate) fn entry(pass: u32, key: u128, act: Act) -> Entry {
    Entry {
        pass,
        class: 0,
        key,
        act,
    }
}

// A clear pass begins, and does not wait. It gives back the value that it was given, or gives its turn up.
#[tactic(auto, using(crate::proofs::Ended::hit_receipt, crate::proofs::Ended::begun_turn, crate::proofs::Ended::without_only, crate::proofs::Ended::without_turn_only))]
pub(crate) fn begin<R: Wait>(
    rt: &R,
    alloc: Global,
    cache: &Cache<Low>,
    pass: &mut Pass<Low>,
    class: ClassId,
    key: u128,
) -> Told
    requires own { IsOf cache.now pass.old }
    requires clear { IsClearPass pass.old }
    ensures own { IsOf cache.now pass.new }
    ensures clear { IsClearPass pass.new }
    ensures later { IsLater pass.old pass.new }
{
    match cache.begin(rt, alloc, pass, class, key, false) {
        Ok(Begun::Hit(receipt)) => {
            let value = *receipt.value();
            cache.checkin(rt, pass, receipt);
            Told::Hit { value }
        }
        Ok(Begun::Turn(turn)) => {
            cache.abandon(rt, pass, turn);
            Told::Turn
        }
        Err(refused) => Told::Refused(refused),
    }
}

// A clear pass asks for a value that is there, and gives it back.
#[tactic(auto, using(crate::proofs::Ended::hit_receipt, crate::proofs::Ended::without_only))]
pub(crate) fn checkout<R: Wait>(
    rt: &R,
    alloc: Global,
    cache: &Cache<Low>,
    pass: &mut Pass<Low>,
    key: u128,
) -> Told
    requires own { IsOf cache.now pass.old }
    requires clear { IsClearPass pass.old }
    ensures own { IsOf cache.now pass.new }
    ensures clear { IsClearPass pass.new }
    ensures later { IsLater pass.old pass.new }
{
    match cache.checkout_cached(rt, alloc, pass, CLASS, key) {
        Ok(receipt) => {
            let value = *receipt.value();
            cache.checkin(rt, pass, receipt);
            Told::Hit { value }
        }
        Err(refused) => Told::Refused(refused),
    }
}

// A clear pass takes a value, which is computed where it is not there, and gives it back.
#[tactic(auto, using(crate::proofs::Ended::opens_receipt, crate::proofs::Ended::without_only))]
pub(crate) fn visit<R: Wait, S: ComputeClass<Low>>(
    rt: &R,
    alloc: Global,
    cache: &Cache<Low>,
    pass: &mut Pass<Low>,
    class: &S,
    options: &S::Options,
    wait: bool,
) -> Result<u32, CacheError>
    requires own { IsOf cache.now pass.old }
    requires clear { IsClearPass pass.old }
    ensures own { IsOf cache.now pass.new }
    ensures clear { IsClearPass pass.new }
    ensures later { IsLater pass.old pass.new }
    ensures value { IfOk result (λ value. value ≡ S.key_of class.now options.now % 2 ^ 32) }
{
    let receipt = cache.compute_if_needed_and_checkout(rt, alloc, pass, class, options, wait)?;
    let value = *receipt.value();
    cache.checkin(rt, pass, receipt);
    Ok(value)
}

// A pass puts in the value of its only turn, and holds it. Where there is no memory it gives its turn up.
#[tactic(auto, using(crate::proofs::Ended::without_turn_only, crate::proofs::Ended::finished_receipt))]
pub(crate) fn finish<R: Wait>(
    rt: &R,
    alloc: Global,
    cache: &Cache<Low>,
    pass: &mut Pass<Low>,
    turn: Turn<Low>,
) -> Result<Receipt<Low>, Memory>
    requires own { IsOf cache.now pass.old }
    requires turn { IsTurnOf cache.now pass.old turn }
    requires only { (turns pass.old ≡ start_of turn ∷ []) × (pass.old.receipts ≡ []) }
    ensures own { IsOf cache.now pass.new }
    ensures turns { turns pass.new ≡ [] }
    ensures later { IsLater pass.old pass.new }
    ensures receipt { IfOk result (λ receipt. IsReceiptOf cache.now pass.new receipt × (pass.new.receipts ≡ hold_of receipt ∷ [])) }
    ensures none { OnErr result (pass.new.receipts ≡ []) }
{
    match Made::new(alloc, low_bits(turn.key())) {
        Ok(made) => Ok(cache.finish(rt, pass, turn, made)),
        Err(refused) => {
            cache.abandon(rt, pass, turn);
            Err(refused)
        }
    }
}
