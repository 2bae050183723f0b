//! The worked example of docs/COMPUTE_CACHE.md, run.
ghost use Rattle.std.specs.Prelude.{◌≡◌, ◌+◌, ◌<◌};
ghost use Rattle.compute_cache.specs.Suite.{IsOf, IsClearPass};

use crate::histogram::{Histograms, Picture, Pictures};
use crate::workers::count_levels;
use cache_core::Act;
use compute_cache::{Cache, Classes};
use std::test::Fail;

// Three black pixels, five dark ones, one grey one and seven white ones.
const PICTURE: Picture = Picture {
    pixels: [
        0, 64, 255, 64, 0, 128, 255, 64, 64, 0, 255, 255, 64, 255, 255, 255,
    ],
};

// Each of four workers finds how many pixels have its level, in the one histogram that was computed.
#[test]
fn four_workers_share_one_histogram(rt: HostRuntime) -> Result<(), Fail> {
    let alloc = rt.alloc();
    let mut classes = Classes::new(alloc);
    let class = Histograms {
        class: classes.register(alloc, "histogram")?,
    };
    let (cache, mut opening) = Cache::start(alloc, classes, 4096, Pictures)?;
    let levels = [0, 64, 128, 255];
    let counts = count_levels(&rt, alloc, &cache, &mut opening, &class, PICTURE, levels);
    let closed = cache.close(opening);
    assert_eq!(rt; counts?, [Some(3), Some(5), Some(1), Some(7)]);
    let entries = closed.history();
    let computed = entries
        .iter()
        .filter(|entry| entry.act == Act::Start)
        .count();
    let shared = entries
        .iter()
        .filter(|entry| entry.act == Act::Hit { serial: 1 })
        .count();
    assert_eq!(rt; computed, 1);
    assert_eq!(rt; shared, 3);
    assert_eq!(rt; entries.len(), 9);
    Ok(())
}
