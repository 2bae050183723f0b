//! Two threads that ask one key at once.
ghost use Rattle.std.specs.Prelude.{◌≡◌, ◌+◌, ◌<◌};
ghost use Rattle.compute_cache.specs.Suite.{IsOf, IsClearPass};

use crate::calls::{CLASS, started, visit};
use crate::jobs::{Counted, Low};
use cache_core::Act;
use compute_cache::{Cache, CacheError, Pass};
use host_io::Memory;
use std::alloc::Global;
use std::sync::Wait;
use std::sync::atomic::{AtomicU64, Ordering};
use std::test::Fail;
use std::thread;
use std::thread::Threads;

const KEY: u128 = 4_294_967_303;

// What two passes were given of one key.
#[derive(Drop)]
struct Given {
    first: Result<u32, CacheError>,
    second: Result<u32, CacheError>,
}

// A pass asks for the value, and waits for it where another pass computes it.
fn ask<R: Wait>(
    rt: &R,
    alloc: Global,
    cache: &Cache<Low>,
    pass: &mut Pass<Low>,
    class: &Counted<'_>,
) -> Result<u32, CacheError>
    requires own { IsOf cache.now pass.old }
    requires clear { IsClearPass pass.old }
    ensures own { IsOf cache.now pass.new }
    ensures clear { IsClearPass pass.new }
{
    class.asking.fetch_add(1, Ordering::SeqCst);
    visit(rt, alloc, cache, pass, class, &KEY, true)
}

// Two threads ask at once.
fn both_ask<R: Threads + Wait + Sync>(
    rt: &R,
    alloc: Global,
    cache: &Cache<Low>,
    one: &mut Pass<Low>,
    two: &mut Pass<Low>,
    class: &Counted<'_>,
) -> Given
    requires own { IsOf cache.now one.old × IsOf cache.now two.old }
    requires clear { IsClearPass one.old × IsClearPass two.old }
    ensures own { IsOf cache.now one.new × IsOf cache.now two.new }
    ensures clear { IsClearPass one.new × IsClearPass two.new }
{
    let (first, second) = thread::join_mut(
        rt,
        &mut || ask(rt, alloc, cache, one, class),
        &mut || ask(rt, alloc, cache, two, class),
    );
    Given { first, second }
}

// The same by passes that the opening pass makes and takes in.
fn ask_in_two<R: Threads + Wait + Sync>(
    rt: &R,
    alloc: Global,
    cache: &Cache<Low>,
    opening: &mut Pass<Low>,
    class: &Counted<'_>,
) -> Result<Given, Memory>
    requires own { IsOf cache.now opening.old }
    requires clear { IsClearPass opening.old }
    requires opening { opening.old.number ≡ 0 }
    requires few { opening.old.made < 1000 }
    ensures own { IsOf cache.now opening.new }
    ensures clear { IsClearPass opening.new }
    ensures number { opening.new.number ≡ 0 }
    ensures counts { opening.new.made + opening.old.joined ≡ opening.old.made + opening.new.joined }
{
    let mut one = cache.split(alloc, opening)?;
    let mut two = match cache.split(alloc, opening) {
        Ok(two) => two,
        Err(refused) => {
            cache.join(opening, one);
            return Err(refused);
        }
    };
    let given = both_ask(rt, alloc, cache, &mut one, &mut two, class);
    cache.join(opening, one);
    cache.join(opening, two);
    Ok(given)
}

// Both threads have the value, which was computed once.
#[test]
fn two_threads_compute_once(rt: HostRuntime) -> Result<(), Fail> {
    let (asking, computed) = (AtomicU64::new(0), AtomicU64::new(0));
    let class = Counted {
        class: CLASS,
        asking: &asking,
        computed: &computed,
    };
    let (cache, mut opening) = started(rt.alloc(), 100)?;
    let given = ask_in_two(&rt, rt.alloc(), &cache, &mut opening, &class);
    let closed = cache.close(opening);
    let given = given?;
    assert_eq!(rt; given.first, Ok(7));
    assert_eq!(rt; given.second, Ok(7));
    assert_eq!(rt; computed.load(Ordering::SeqCst), 1);
    let entries = closed.history();
    assert_eq!(rt; entries.len(), 5);
    let starts = entries
        .iter()
        .filter(|entry| entry.act == Act::Start)
        .count();
    let hits = entries
        .iter()
        .filter(|entry| entry.act == Act::Hit { serial: 1 })
        .count();
    assert_eq!(rt; starts, 1);
    assert_eq!(rt; hits, 1);
    Ok(())
}
