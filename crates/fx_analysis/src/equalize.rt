ghost use Rattle.std.specs.Prelude.{◌≡◌, ◌≤◌, ◌<◌, ◌^◌, map, sum, IfOk, OnOk};
ghost use Rattle.std.specs.List.{All, range_with_len};
ghost use Rattle.argb_pixel.specs.Depth.{IsDepth};
ghost use Rattle.argb_world.specs.Picture.{at, SameExtentAndPart};
ghost use Rattle.effect_api.specs.Effects.{Shows};
ghost use Rattle.fx_analysis.specs.Formulas.{count_to, equalized};
ghost use Rattle.fx_analysis.specs.Counts.{AreCounts, AreUpTo, share_of, equalized_by, equalized_part_by};

use crate::levels::total;
use argb_pixel::Pixel;
use argb_world::World;
use fx_color::{Recolor, recolor_world};
use host_io::Memory;
use std::alloc::Global;

/// Each colour becomes the share of pixels that are at its level or below. `up_to` has how many there are of them for each of
/// 256 levels, `total` is how many were counted, and `full` has the shares of the greatest alpha, for opaque pixels.
#[derive(Debug, Drop)]
pub struct Equalize<const MAX: u32> {
    total: u64,
    up_to: Vec<u64>,
    full: Vec<u32>,
    pub ghost total_within: { total ≤ 2 ^ 40 },
    pub ghost up_to_within: { AreUpTo total up_to.items },
    pub ghost full_is: { full.items ≡ map (share_of total MAX) up_to.items },
}

// How many pixels are at each of 256 levels or below.
fn counts_up_to(alloc: Global, counts: &[u64]) -> Result<Vec<u64>, Memory>
    requires { AreCounts counts.now }
    ensures { IfOk result (λ up_to. up_to.items ≡ map (count_to counts.now) (range_with_len 0 256)) }
{
    let mut up_to = Vec::with_capacity(alloc, 256)?;
    let mut count = 0u64;
    for level in 0..256usize {
        count += counts[level];
        up_to.push(count)?;
    }
    Ok(up_to)
}

// The share that a number has of a total, of so much.
fn share(total: u64, whole: u32, count: u64) -> u32
    requires few { total ≤ 2 ^ 40 }
    requires deep { whole ≤ 32768 }
    requires part { count ≤ total }
    ensures value { result ≡ share_of total whole count }
    ensures within { result ≤ whole }
{
    if total == 0 {
        0
    } else {
        (whole as u64 * count / total) as u32
    }
}

// The shares of the greatest alpha.
fn full_shares<const MAX: u32>(alloc: Global, total: u64, up_to: &[u64]) -> Result<Vec<u32>, Memory>
    requires depth { IsDepth MAX }
    requires few { total ≤ 2 ^ 40 }
    requires within { All (λ count. count ≤ total) up_to.now }
    ensures { IfOk result (λ full. full.items ≡ map (share_of total MAX) up_to.now) }
{
    let mut full = Vec::with_capacity(alloc, up_to.len())?;
    for count in up_to {
        full.push(share(total, MAX, *count))?;
    }
    Ok(full)
}

impl<const MAX: u32> Equalize<MAX> {
    /// By the counts of 256 levels.
    pub fn of_counts(alloc: Global, counts: &[u64]) -> Result<Equalize<MAX>, Memory>
        requires depth { IsDepth MAX }
        requires counts { AreCounts counts.now }
        ensures total { IfOk result (λ rule. rule.total ≡ sum counts.now) }
        ensures up_to { IfOk result (λ rule. rule.up_to.items ≡ map (count_to counts.now) (range_with_len 0 256)) }
    {
        let total = total(counts);
        let up_to = counts_up_to(alloc, counts)?;
        let full = full_shares::<MAX>(alloc, total, &up_to)?;
        Ok(Equalize { total, up_to, full })
    }
}

// A colour.
fn equalized_part<const MAX: u32>(rule: &Equalize<MAX>, a: u32, c: u32) -> u32
    requires depth { IsDepth MAX }
    requires alpha { 0 < a }
    requires deep { a ≤ MAX }
    requires colour { c ≤ a }
    ensures value { result ≡ equalized_part_by rule.now.total rule.now.up_to.items a c }
    ensures within { result ≤ a }
{
    if a == MAX {
        rule.full[(c * 255 / MAX) as usize]
    } else {
        share(rule.total, a, rule.up_to[(c * 255 / a) as usize])
    }
}

impl<const MAX: u32> Recolor<MAX> for Equalize<MAX> {
    ghost recolored = { λ rule. equalized_by rule.total rule.up_to.items };

    fn recolor(&self, pixel: Pixel<MAX>) -> Pixel<MAX>
        requires { IsDepth MAX }
        ensures { result ≡ equalized_by self.now.total self.now.up_to.items pixel.entry }
    {
        let a = pixel.a();
        if self.total == 0 || a == 0 {
            return pixel;
        }
        Pixel::of_channels(
            a,
            equalized_part(self, a, pixel.r()),
            equalized_part(self, a, pixel.g()),
            equalized_part(self, a, pixel.b()),
        )
    }
}

/// Each point of the target's part becomes what Equalize makes of the other picture's pixel there, by the counts of 256 levels:
/// alpha stays, and each colour `c` becomes `floor(a * n / total)` with the `n` of all `total` pixels that are at the level
/// `floor(c*255 / a)` or below. The pixel stays where it is transparent, or where nothing was counted. It takes memory for a row
/// and for a number a level. This project's own.
pub fn equalize_world<const MAX: u32>(
    alloc: Global,
    counts: &[u64],
    from: &World<MAX>,
    target: &mut World<MAX>,
) -> Result<(), Memory>
    requires depth { IsDepth MAX }
    requires counts { AreCounts counts.now }
    ensures frame { SameExtentAndPart target.old target.new }
    ensures drawn { OnOk result (Shows target.old.part (λ x y. equalized counts.now (at from.now x y)) target.new) }
{
    let _part = from.part();
    let rule: Equalize<MAX> = Equalize::of_counts(alloc, counts)?;
    recolor_world(alloc, &rule, from, target)
}
