//! The passes of the workers: split off from the opening one, and joined to it at the end.
ghost use Rattle.std.specs.Prelude.{◌≡◌, ◌+◌, ◌<◌, ◌≤◌, ◌^◌, [], All, OnOk, vec_len, vec_capacity};
ghost use Rattle.frame_span.specs.Rendered.{IsOpening, IsSeat};

use compute_cache::{Cache, Keeps, Pass};
use host_io::Memory;
use std::alloc::Global;

// One pass more, in room that is there.
fn split_one<K: Keeps>(
    alloc: Global,
    cache: &Cache<K>,
    opening: &mut Pass<K>,
    passes: &mut Vec<Pass<K>>,
) -> Result<(), Memory>
    requires opening { IsOpening cache.now (vec_len passes.old) opening.old }
    requires few { opening.old.made + 1 < 2 ^ 32 }
    requires seats { All (IsSeat cache.now) passes.old.items }
    requires room { vec_len passes.old < vec_capacity passes.old }
    ensures opening { IsOpening cache.now (vec_len passes.new) opening.new }
    ensures made { OnOk result (opening.new.made ≡ opening.old.made + 1) }
    ensures seats { All (IsSeat cache.now) passes.new.items }
    ensures count { OnOk result (vec_len passes.new ≡ vec_len passes.old + 1) }
    ensures room { vec_capacity passes.new ≡ vec_capacity passes.old }
{
    let pass = cache.split(alloc, opening)?;
    passes.push_reserved(pass);
    Ok(())
}

/// Splits so many passes off. There is room for them. Where there is no memory, those that were split off are there.
pub(crate) fn split_all<K: Keeps>(
    alloc: Global,
    cache: &Cache<K>,
    opening: &mut Pass<K>,
    count: u32,
    passes: &mut Vec<Pass<K>>,
) -> Result<(), Memory>
    requires opening { IsOpening cache.now 0 opening.old }
    requires few { opening.old.made + count < 2 ^ 32 }
    requires none { passes.old.items ≡ [] }
    requires room { count ≤ vec_capacity passes.old }
    ensures opening { IsOpening cache.now (vec_len passes.new) opening.new }
    ensures seats { All (IsSeat cache.now) passes.new.items }
    ensures count { OnOk result (vec_len passes.new ≡ count) }
{
    'passes: for _done in 0..count {
        split_one(alloc, cache, opening, passes)?;
    }
    Ok(())
}

/// The opening pass takes in all the others.
pub(crate) fn join_all<K: Keeps>(cache: &Cache<K>, opening: &mut Pass<K>, passes: Vec<Pass<K>>)
    requires opening { IsOpening cache.now (vec_len passes) opening.old }
    requires seats { All (IsSeat cache.now) passes.items }
    ensures opening { IsOpening cache.now 0 opening.new }
{
    let mut left = passes.into_iter();
    'left: while let Some(pass) = left.next() {
        cache.join(opening, pass);
    }
    left.destroy_empty();
}
