//! Four workers that share the histogram of a picture, each on a thread and with a pass of its own.
ghost use Rattle.std.specs.Prelude.{◌≡◌, ◌+◌, ◌<◌, ◌≤◌, IfOk, OnOk, OnErr};
ghost use Rattle.std.specs.Thread.{IsSync};
ghost use Rattle.compute_cache.specs.Suite.{IsOf, IsClearPass};

use crate::histogram::{Histograms, Picture, Pictures, look_up};
use compute_cache::{Cache, Pass};
use host_io::Memory;
use std::alloc::Global;
use std::sync::Wait;
use std::thread;
use std::thread::Threads;

/// A worker: its pass, its picture, the level that it looks up, and how many pixels have it. That is none before the
/// worker looked, and where the cache refused the call.
pub struct Worker {
    pub pass: Pass<Pictures>,
    pub picture: Picture,
    pub level: u8,
    pub count: Option<u32>,
}

// A worker looks its level up.
fn work<R: Wait>(
    rt: &R,
    alloc: Global,
    cache: &Cache<Pictures>,
    class: &Histograms,
    worker: &mut Worker,
)
    requires own { IsOf cache.now worker.old.pass }
    requires clear { IsClearPass worker.old.pass }
    ensures own { IsOf cache.now worker.new.pass }
    ensures clear { IsClearPass worker.new.pass }
{
    let (picture, level) = (worker.picture, worker.level);
    let found = look_up(rt, alloc, cache, &mut worker.pass, class, &picture, level);
    worker.count = found.ok();
}

// Two workers at once.
fn two_work<R: Threads + Wait + Sync>(
    rt: &R,
    alloc: Global,
    cache: &Cache<Pictures>,
    class: &Histograms,
    one: &mut Worker,
    two: &mut Worker,
)
    requires own { IsOf cache.now one.old.pass × IsOf cache.now two.old.pass }
    requires clear { IsClearPass one.old.pass × IsClearPass two.old.pass }
    ensures own { IsOf cache.now one.new.pass × IsOf cache.now two.new.pass }
    ensures clear { IsClearPass one.new.pass × IsClearPass two.new.pass }
{
    thread::join_mut(
        rt,
        &mut || work(rt, alloc, cache, class, one),
        &mut || work(rt, alloc, cache, class, two),
    );
}

// Four workers at once.
fn four_work<R: Threads + Wait + Sync>(
    rt: &R,
    alloc: Global,
    cache: &Cache<Pictures>,
    class: &Histograms,
    a: &mut Worker,
    b: &mut Worker,
    c: &mut Worker,
    d: &mut Worker,
)
    requires first { IsOf cache.now a.old.pass × IsOf cache.now b.old.pass × IsClearPass a.old.pass × IsClearPass b.old.pass }
    requires second { IsOf cache.now c.old.pass × IsOf cache.now d.old.pass × IsClearPass c.old.pass × IsClearPass d.old.pass }
    ensures first { IsOf cache.now a.new.pass × IsOf cache.now b.new.pass × IsClearPass a.new.pass × IsClearPass b.new.pass }
    ensures second { IsOf cache.now c.new.pass × IsOf cache.now d.new.pass × IsClearPass c.new.pass × IsClearPass d.new.pass }
{
    thread::join_mut(
        rt,
        &mut ||
            requires sync { IsSync R.row }
            requires own { IsOf cache.now a.now.pass × IsOf cache.now b.now.pass }
            requires clear { IsClearPass a.now.pass × IsClearPass b.now.pass }
            ensures own { IsOf cache.entry.now a.exit.now.pass × IsOf cache.entry.now b.exit.now.pass }
            ensures clear { IsClearPass a.exit.now.pass × IsClearPass b.exit.now.pass }
        { two_work(rt, alloc, cache, class, a, b) },
        &mut ||
            requires sync { IsSync R.row }
            requires own { IsOf cache.now c.now.pass × IsOf cache.now d.now.pass }
            requires clear { IsClearPass c.now.pass × IsClearPass d.now.pass }
            ensures own { IsOf cache.entry.now c.exit.now.pass × IsOf cache.entry.now d.exit.now.pass }
            ensures clear { IsClearPass c.exit.now.pass × IsClearPass d.exit.now.pass }
        { two_work(rt, alloc, cache, class, c, d) },
    );
}

// A worker, with a pass that is split from the opening pass.
fn hire(
    alloc: Global,
    cache: &Cache<Pictures>,
    opening: &mut Pass<Pictures>,
    picture: Picture,
    level: u8,
) -> Result<Worker, Memory>
    requires own { IsOf cache.now opening.old }
    requires clear { IsClearPass opening.old }
    requires opening { opening.old.number ≡ 0 }
    requires few { opening.old.made < 1000 }
    ensures own { IsOf cache.now opening.new }
    ensures clear { IsClearPass opening.new }
    ensures number { opening.new.number ≡ 0 }
    ensures joined { opening.new.joined ≡ opening.old.joined }
    ensures worker { IfOk result (λ worker. IsOf cache.now worker.pass × IsClearPass worker.pass) }
    ensures ok { OnOk result (opening.new.made ≡ opening.old.made + 1) }
    ensures err { OnErr result (opening.new.made ≡ opening.old.made) }
{
    let pass = cache.split(alloc, opening)?;
    Ok(Worker {
        pass,
        picture,
        level,
        count: None,
    })
}

// Two workers.
fn hire_two(
    alloc: Global,
    cache: &Cache<Pictures>,
    opening: &mut Pass<Pictures>,
    picture: Picture,
    levels: (u8, u8),
) -> Result<(Worker, Worker), Memory>
    requires own { IsOf cache.now opening.old }
    requires clear { IsClearPass opening.old }
    requires opening { opening.old.number ≡ 0 }
    requires few { opening.old.made < 900 }
    ensures own { IsOf cache.now opening.new }
    ensures clear { IsClearPass opening.new }
    ensures number { opening.new.number ≡ 0 }
    ensures few { opening.new.made ≤ opening.old.made + 2 }
    ensures one { IfOk result (λ made. IsOf cache.now made.0.pass × IsClearPass made.0.pass) }
    ensures two { IfOk result (λ made. IsOf cache.now made.1.pass × IsClearPass made.1.pass) }
    ensures ok { OnOk result ((opening.new.made ≡ opening.old.made + 2) × (opening.new.joined ≡ opening.old.joined)) }
    ensures err { OnErr result (opening.new.made + opening.old.joined ≡ opening.old.made + opening.new.joined) }
{
    let one = hire(alloc, cache, opening, picture, levels.0)?;
    match hire(alloc, cache, opening, picture, levels.1) {
        Ok(two) => Ok((one, two)),
        Err(refused) => {
            leave(cache, opening, one);
            Err(refused)
        }
    }
}

// The opening pass takes a worker's pass in, and hands out what the worker found.
fn leave(cache: &Cache<Pictures>, opening: &mut Pass<Pictures>, worker: Worker) -> Option<u32>
    requires own { IsOf cache.now opening.old }
    requires clear { IsClearPass opening.old }
    requires opening { opening.old.number ≡ 0 }
    requires worker { IsOf cache.now worker.pass × IsClearPass worker.pass }
    ensures own { IsOf cache.now opening.new }
    ensures clear { IsClearPass opening.new }
    ensures number { opening.new.number ≡ 0 }
    ensures counts { (opening.new.made ≡ opening.old.made) × (opening.new.joined ≡ opening.old.joined + 1) }
{
    let Worker {
        pass,
        picture: _,
        level: _,
        count,
    } = worker;
    cache.join(opening, pass);
    count
}

/// How many pixels of the picture have each of four levels: four workers look them up at once.
pub fn count_levels<R: Threads + Wait + Sync>(
    rt: &R,
    alloc: Global,
    cache: &Cache<Pictures>,
    opening: &mut Pass<Pictures>,
    class: &Histograms,
    picture: Picture,
    levels: [u8; 4],
) -> Result<[Option<u32>; 4], Memory>
    requires own { IsOf cache.now opening.old }
    requires clear { IsClearPass opening.old }
    requires opening { opening.old.number ≡ 0 }
    requires few { opening.old.made < 800 }
    ensures own { IsOf cache.now opening.new }
    ensures clear { IsClearPass opening.new }
    ensures number { opening.new.number ≡ 0 }
    ensures counts { opening.new.made + opening.old.joined ≡ opening.old.made + opening.new.joined }
{
    let (mut a, mut b) = hire_two(alloc, cache, opening, picture, (levels[0], levels[1]))?;
    let (mut c, mut d) = match hire_two(alloc, cache, opening, picture, (levels[2], levels[3])) {
        Ok(more) => more,
        Err(refused) => {
            leave(cache, opening, a);
            leave(cache, opening, b);
            return Err(refused);
        }
    };
    four_work(rt, alloc, cache, class, &mut a, &mut b, &mut c, &mut d);
    Ok([
        leave(cache, opening, a),
        leave(cache, opening, b),
        leave(cache, opening, c),
        leave(cache, opening, d),
    ])
}
