//! Four threads on 64 keys, with room for 20 values. What each thread was told is compared with the history.
ghost use Rattle.std.specs.Prelude.{◌≡◌, ◌+◌, ◌<◌, ◌≤◌, IfOk, OnOk, OnErr};
ghost use Rattle.std.specs.Thread.{IsSync};
ghost use Rattle.compute_cache.specs.Passes.{IsLater};
ghost use Rattle.compute_cache.specs.Suite.{IsOf, IsClearPass};

use crate::calls::{CLASS, begin, checkout, started, visit};
use crate::jobs::{Fresh, Low, low_bits};
use crate::seat::{Answer, Seat, Told};
use cache_core::{Act, Entry, replay};
use compute_cache::{Cache, CacheError, Pass};
use host_io::Memory;
use std::alloc::Global;
use std::sync::Wait;
use std::test::Fail;
use std::thread;
use std::thread::Threads;

// The calls of each thread.
const CALLS: u32 = 2_000;

// Room for 20 values, in bytes.
const BUDGET: u64 = 1_200;

// The next number of a fixed generator.
fn next(number: u64) -> u64 {
    number
        .wrapping_mul(6_364_136_223_846_793_005)
        .wrapping_add(1_442_695_040_888_963_407)
}

// One call of a clear pass, chosen by a number.
fn call<R: Wait>(
    rt: &R,
    alloc: Global,
    cache: &Cache<Low>,
    pass: &mut Pass<Low>,
    number: u64,
) -> Answer
    requires own { IsOf cache.now pass.old }
    requires clear { IsClearPass pass.old }
    ensures own { IsOf cache.now pass.new }
    ensures clear { IsClearPass pass.new }
{
    let key = u128::from((number >> 33) % 64);
    let kind = (number >> 40) % 4;
    let told = if kind == 0 {
        begin(rt, alloc, cache, pass, CLASS, key)
    } else if kind == 1 {
        checkout(rt, alloc, cache, pass, key)
    } else {
        let class = Fresh { class: CLASS };
        match visit(rt, alloc, cache, pass, &class, &key, kind == 2) {
            Ok(value) => Told::Value { value },
            Err(refused) => Told::Refused(refused),
        }
    };
    Answer { key, told }
}

// The calls of one thread.
fn work<R: Wait>(rt: &R, alloc: Global, cache: &Cache<Low>, seat: &mut Seat, seed: u64)
    requires own { IsOf cache.now seat.old.pass }
    requires clear { IsClearPass seat.old.pass }
    ensures own { IsOf cache.now seat.new.pass }
    ensures clear { IsClearPass seat.new.pass }
{
    let mut number = seed;
    for _turn in 0..CALLS {
        number = next(number);
        let answer = call(rt, alloc, cache, &mut seat.pass, number);
        if seat.answers.push(answer).is_err() {
            return;
        }
    }
}

// Two threads at once.
fn two_work<R: Threads + Wait + Sync>(
    rt: &R,
    alloc: Global,
    cache: &Cache<Low>,
    one: &mut Seat,
    two: &mut Seat,
    seed: u64,
)
    requires own { IsOf cache.now one.old.pass × IsOf cache.now two.old.pass }
    requires clear { IsClearPass one.old.pass × IsClearPass two.old.pass }
    ensures own { IsOf cache.now one.new.pass × IsOf cache.now two.new.pass }
    ensures clear { IsClearPass one.new.pass × IsClearPass two.new.pass }
{
    let other = next(seed);
    thread::join_mut(
        rt,
        &mut || work(rt, alloc, cache, one, seed),
        &mut || work(rt, alloc, cache, two, other),
    );
}

// Four threads at once.
fn four_work<R: Threads + Wait + Sync>(
    rt: &R,
    alloc: Global,
    cache: &Cache<Low>,
    a: &mut Seat,
    b: &mut Seat,
    c: &mut Seat,
    d: &mut Seat,
)
    requires first { IsOf cache.now a.old.pass × IsOf cache.now b.old.pass × IsClearPass a.old.pass × IsClearPass b.old.pass }
    requires second { IsOf cache.now c.old.pass × IsOf cache.now d.old.pass × IsClearPass c.old.pass × IsClearPass d.old.pass }
    ensures first { IsOf cache.now a.new.pass × IsOf cache.now b.new.pass × IsClearPass a.new.pass × IsClearPass b.new.pass }
    ensures second { IsOf cache.now c.new.pass × IsOf cache.now d.new.pass × IsClearPass c.new.pass × IsClearPass d.new.pass }
{
    thread::join_mut(
        rt,
        &mut ||
            requires sync { IsSync R.row }
            requires own { IsOf cache.now a.now.pass × IsOf cache.now b.now.pass }
            requires clear { IsClearPass a.now.pass × IsClearPass b.now.pass }
            ensures own { IsOf cache.entry.now a.exit.now.pass × IsOf cache.entry.now b.exit.now.pass }
            ensures clear { IsClearPass a.exit.now.pass × IsClearPass b.exit.now.pass }
        { two_work(rt, alloc, cache, a, b, 1) },
        &mut ||
            requires sync { IsSync R.row }
            requires own { IsOf cache.now c.now.pass × IsOf cache.now d.now.pass }
            requires clear { IsClearPass c.now.pass × IsClearPass d.now.pass }
            ensures own { IsOf cache.entry.now c.exit.now.pass × IsOf cache.entry.now d.exit.now.pass }
            ensures clear { IsClearPass c.exit.now.pass × IsClearPass d.exit.now.pass }
        { two_work(rt, alloc, cache, c, d, 2) },
    );
}

// Two passes more.
fn pair(alloc: Global, cache: &Cache<Low>, opening: &mut Pass<Low>) -> Result<(Seat, Seat), Memory>
    requires own { IsOf cache.now opening.old }
    requires clear { IsClearPass opening.old }
    requires opening { opening.old.number ≡ 0 }
    requires few { opening.old.made < 1000 }
    ensures own { IsOf cache.now opening.new }
    ensures clear { IsClearPass opening.new }
    ensures number { opening.new.number ≡ 0 }
    ensures few { opening.new.made ≤ opening.old.made + 2 }
    ensures one { IfOk result (λ made. IsOf cache.now made.0.pass × IsClearPass made.0.pass) }
    ensures other { IfOk result (λ made. IsOf cache.now made.1.pass × IsClearPass made.1.pass) }
    ensures ok { OnOk result ((opening.new.made ≡ opening.old.made + 2) × (opening.new.joined ≡ opening.old.joined)) }
    ensures err { OnErr result (opening.new.made + opening.old.joined ≡ opening.old.made + opening.new.joined) }
{
    let one = cache.split(alloc, opening)?;
    match cache.split(alloc, opening) {
        Ok(other) => {
            let one = Seat {
                pass: one,
                answers: Vec::new(alloc),
            };
            let other = Seat {
                pass: other,
                answers: Vec::new(alloc),
            };
            Ok((one, other))
        }
        Err(refused) => {
            cache.join(opening, one);
            Err(refused)
        }
    }
}

// The opening pass takes a pass in, and hands out what its calls were told.
fn leave(cache: &Cache<Low>, opening: &mut Pass<Low>, seat: Seat) -> Vec<Answer>
    requires own { IsOf cache.now opening.old }
    requires clear { IsClearPass opening.old }
    requires opening { opening.old.number ≡ 0 }
    requires seat { IsOf cache.now seat.pass × IsClearPass seat.pass }
    ensures own { IsOf cache.now opening.new }
    ensures clear { IsClearPass opening.new }
    ensures number { opening.new.number ≡ 0 }
    ensures counts { (opening.new.made ≡ opening.old.made) × (opening.new.joined ≡ opening.old.joined + 1) }
{
    let Seat { pass, answers } = seat;
    cache.join(opening, pass);
    answers
}

// What the calls of four passes were told.
#[derive(Drop)]
struct Answers {
    a: Vec<Answer>,
    b: Vec<Answer>,
    c: Vec<Answer>,
    d: Vec<Answer>,
}

// Four threads at once, with passes that the opening pass makes and takes in.
fn at_once<R: Threads + Wait + Sync>(
    rt: &R,
    alloc: Global,
    cache: &Cache<Low>,
    opening: &mut Pass<Low>,
) -> Result<Answers, Memory>
    requires own { IsOf cache.now opening.old }
    requires clear { IsClearPass opening.old }
    requires opening { opening.old.number ≡ 0 }
    requires few { opening.old.made < 900 }
    ensures own { IsOf cache.now opening.new }
    ensures clear { IsClearPass opening.new }
    ensures number { opening.new.number ≡ 0 }
    ensures counts { opening.new.made + opening.old.joined ≡ opening.old.made + opening.new.joined }
{
    let (mut a, mut b) = pair(alloc, cache, opening)?;
    let (mut c, mut d) = match pair(alloc, cache, opening) {
        Ok(more) => more,
        Err(refused) => {
            leave(cache, opening, a);
            leave(cache, opening, b);
            return Err(refused);
        }
    };
    four_work(rt, alloc, cache, &mut a, &mut b, &mut c, &mut d);
    Ok(Answers {
        a: leave(cache, opening, a),
        b: leave(cache, opening, b),
        c: leave(cache, opening, c),
        d: leave(cache, opening, d),
    })
}

// Whether an entry at a place is what the answer says.
fn fits(answer: &Answer, entry: &Entry, at: u64) -> bool {
    if answer.key != entry.key {
        return false;
    }
    match (entry.act, answer.told) {
        (Act::Start, Told::Turn) => true,
        (Act::Start, Told::Value { value }) => value == low_bits(entry.key),
        (Act::Hit { .. }, Told::Value { value }) => value == low_bits(entry.key),
        (Act::Hit { .. }, Told::Hit { value }) => value == low_bits(entry.key),
        (
            Act::Pending { owner },
            Told::Refused(
                CacheError::Pending {
                    owner: told,
                    at: place,
                },
            ),
        ) => { owner == told && at == place }
        (Act::NotCached, Told::Refused(CacheError::NotCached { at: place })) => at == place,
        _ => false,
    }
}

// Whether the answers of a pass are those that its entries give, each at its place and in their order.
fn agree(entries: &[Entry], pass: u32, answers: &[Answer]) -> bool {
    let mut next = answers.iter();
    for (at, entry) in entries.iter().enumerate() {
        let ends = matches!(
            entry.act,
            Act::Finish { .. } | Act::Abandon | Act::Give { .. } | Act::Evict { .. }
        );
        if entry.pass == pass && !ends {
            let Some(answer) = next.next() else {
                return false;
            };
            if !fits(answer, entry, at as u64) {
                return false;
            }
        }
    }
    next.next().is_none()
}

// The history is legal, and every answer stands in it.
#[test]
fn four_threads_make_one_history(rt: HostRuntime) -> Result<(), Fail> {
    let (cache, mut opening) = started(rt.alloc(), BUDGET)?;
    let answers = at_once(&rt, rt.alloc(), &cache, &mut opening);
    let closed = cache.close(opening);
    let answers = answers?;
    let entries = closed.history();
    replay(rt.alloc(), BUDGET, entries)?;
    for answers in [&answers.a, &answers.b, &answers.c, &answers.d] {
        assert_eq!(rt; answers.len(), 2_000);
    }
    assert!(rt; agree(entries, 1, &answers.a));
    assert!(rt; agree(entries, 2, &answers.b));
    assert!(rt; agree(entries, 3, &answers.c));
    assert!(rt; agree(entries, 4, &answers.d));
    assert!(rt;
        entries
            .iter()
            .any(|entry| matches!(entry.act, Act::Evict { .. }))
    );
    Ok(())
}
