ghost use Rattle.std.specs.Prelude.{◌≡◌, ◌≤◌, ◌<◌, ◌^◌, min, sum, OnOk};
ghost use Rattle.argb_pixel.specs.Depth.{IsDepth};
ghost use Rattle.argb_world.specs.Picture.{at, SameExtentAndPart};
ghost use Rattle.effect_api.specs.Effects.{Shows};
ghost use Rattle.fx_analysis.specs.Formulas.{low_of, high_of, spread, spread_part, auto_levelled};
ghost use Rattle.fx_analysis.specs.Counts.{AreCounts};

use argb_pixel::Pixel;
use argb_world::World;
use fx_color::{Recolor, recolor_world};
use host_io::Memory;
use std::alloc::Global;

/// The colours between two levels, each at most 256, spread over all of them. `total` is how many pixels were counted.
#[derive(Clone, Copy, Debug)]
pub struct AutoLevels {
    pub total: u64,
    pub low: u32,
    pub high: u32,
    pub ghost low_within: { low ≤ 256 },
    pub ghost high_within: { high ≤ 256 },
}

// The sum of some numbers.
fn sum(numbers: &[u64]) -> u64
    requires { sum numbers.now < 2 ^ 64 }
    ensures { result ≡ sum numbers.now }
{
    numbers.iter().sum()
}

/// How many pixels were counted.
pub(crate) fn total(counts: &[u64]) -> u64
    requires { AreCounts counts.now }
    ensures value { result ≡ sum counts.now }
    ensures within { result ≤ 2 ^ 40 }
{
    sum(counts)
}

// The least level up to which there are more than `clip` 10000ths of the pixels, 256 where there is none.
fn low_level(clip: u32, counts: &[u64]) -> u32
    requires clip { clip ≤ 10000 }
    requires counts { AreCounts counts.now }
    ensures value { result ≡ low_of clip counts.now }
    ensures within { result ≤ 256 }
{
    let most = clip as u64 * total(counts);
    let mut count = 0u64;
    for level in 0..256u32 {
        count += counts[level as usize];
        if 10000 * count > most {
            return level;
        }
    }
    256
}

// The greatest level from which on there are more, 0 where there is none.
fn high_level(clip: u32, counts: &[u64]) -> u32
    requires clip { clip ≤ 10000 }
    requires counts { AreCounts counts.now }
    ensures value { result ≡ high_of clip counts.now }
    ensures within { result ≤ 256 }
{
    let most = clip as u64 * total(counts);
    let mut upper = 0u64;
    for above in 0..256u32 {
        upper += counts[255 - above as usize];
        if 10000 * upper > most {
            return 255 - above;
        }
    }
    0
}

impl AutoLevels {
    /// By the counts of 256 levels, of which `clip` 10000ths of the pixels may become black, and as many white.
    pub fn of_counts(clip: u32, counts: &[u64]) -> AutoLevels
        requires clip { clip ≤ 10000 }
        requires counts { AreCounts counts.now }
        ensures total { result.total ≡ sum counts.now }
        ensures low { result.low ≡ low_of clip counts.now }
        ensures high { result.high ≡ high_of clip counts.now }
    {
        AutoLevels {
            total: total(counts),
            low: low_level(clip, counts),
            high: high_level(clip, counts),
        }
    }
}

// A colour.
fn spread_part(low: u32, high: u32, a: u32, c: u32) -> u32
    requires order { low < high }
    requires high { high ≤ 256 }
    requires alpha { a ≤ 32768 }
    requires colour { c ≤ a }
    ensures value { result ≡ spread_part low high a c }
    ensures within { result ≤ a }
{
    if 255 * c <= low * a {
        0
    } else {
        less((255 * c - low * a) / (high - low), a)
    }
}

// The lesser of two numbers.
pub(crate) fn less(x: u32, y: u32) -> u32
    ensures value { result ≡ min x y }
    ensures within { result ≤ y }
{
    if x < y { x } else { y }
}

impl<const MAX: u32> Recolor<MAX> for AutoLevels {
    ghost recolored = { λ rule. spread rule.total rule.low rule.high };

    fn recolor(&self, pixel: Pixel<MAX>) -> Pixel<MAX>
        requires { IsDepth MAX }
        ensures { result ≡ spread self.now.total self.now.low self.now.high pixel.entry }
    {
        if self.total == 0 || self.low >= self.high {
            return pixel;
        }
        let a = pixel.a();
        Pixel::of_channels(
            a,
            spread_part(self.low, self.high, a, pixel.r()),
            spread_part(self.low, self.high, a, pixel.g()),
            spread_part(self.low, self.high, a, pixel.b()),
        )
    }
}

/// Each point of the target's part becomes what AutoLevels makes of the other picture's pixel there, by the counts of 256
/// levels: alpha stays, and each colour `c` becomes `floor((255*c - low*a) / (high - low))` held to `0..=a`, where `low` and
/// `high` are the levels up to which, and from which on, there are more than `clip` 10000ths of all pixels. The pixel stays
/// where `low >= high`, or where nothing was counted. It takes memory for a row. This project's own.
pub fn level_world<const MAX: u32>(
    alloc: Global,
    clip: u32,
    counts: &[u64],
    from: &World<MAX>,
    target: &mut World<MAX>,
) -> Result<(), Memory>
    requires depth { IsDepth MAX }
    requires clip { clip ≤ 10000 }
    requires counts { AreCounts counts.now }
    ensures frame { SameExtentAndPart target.old target.new }
    ensures drawn { OnOk result (Shows target.old.part (λ x y. auto_levelled clip counts.now (at from.now x y)) target.new) }
{
    recolor_world(alloc, &AutoLevels::of_counts(clip, counts), from, target)
}
