//! The worked example of docs/COMPUTE_CACHE.md: the histogram of a picture, which four workers share.
ghost use Rattle.std.specs.Prelude.{◌≡◌, ◌<◌, ◌^◌, length, slice_get, count_by, nat_eq, Some, IfOk};
ghost use Rattle.std.specs.Int.{w128, from_be_bytes};
ghost use Rattle.compute_cache.specs.Passes.{IsLater};
ghost use Rattle.compute_cache.specs.Suite.{IsOf, IsClearPass};
ghost use Rattle.compute_tests.specs.Pictures.{pixels_of, counts_of, counts_below};

use compute_cache::{Cache, CacheError, ClassId, ComputeClass, Keeps, Made, Pass, Turn};
use host_io::Memory;
use std::alloc::Global;
use std::marker::Model;
use std::sync::Wait;

/// A picture of 16 grey pixels.
#[derive(Clone, Copy, Debug)]
pub struct Picture {
    pub pixels: [u8; 16],
}

/// How many pixels have each of the 256 levels.
///
/// Contracts see the list of the counts.
#[derive(Drop)]
pub struct Histogram {
    counts: Vec<u32>,
}

impl Model for Histogram {
    ghost use Rattle.std.specs.Prelude.{◌≡◌, ℕ, List, vec_len};

    ghost Value = { List ℕ };

    ghost view = { λ h. h.counts.items };

    ghost invariant = { λ h. vec_len h.counts ≡ 256 };
}

// How many pixels have a level.
fn count(pixels: &[u8; 16], level: usize) -> u32
    ensures { result ≡ count_by (λ pixel. nat_eq pixel level) pixels.now }
{
    pixels
        .iter()
        .filter(|pixel| usize::from(**pixel) == level)
        .count() as u32
}

// How many pixels have each level below a number of levels.
fn counts_below(alloc: Global, pixels: &[u8; 16], levels: usize) -> Result<Vec<u32>, Memory>
    ensures { IfOk result (λ counts. counts.items ≡ counts_below levels pixels.now) }
{
    let counts = (0..levels)
        .map(|level| count(pixels, level))
        .collect(alloc)?;
    Ok(counts)
}

impl Histogram {
    /// The histogram of a picture.
    #[tactic(auto, unfolding(crate::specs::Pictures::counts_of))]
    pub fn of(alloc: Global, pixels: &[u8; 16]) -> Result<Histogram, Memory>
        ensures { IfOk result (λ made. made ≡ counts_of pixels.now) }
    {
        let counts = counts_below(alloc, pixels, 256)?;
        Ok(Histogram { counts })
    }

    /// How many pixels have a level.
    pub fn at(&self, level: u8) -> u32
        ensures { slice_get self.now level ≡ Some result }
    {
        self.counts[usize::from(level)]
    }
}

/// The job: what a key of the cache means.
#[derive(Drop)]
pub struct Pictures;

impl Keeps for Pictures {
    type Value = Histogram;

    ghost use Rattle.std.specs.Prelude.{Some};
    ghost use Rattle.compute_tests.specs.Pictures.{pixels_of, counts_of};

    ghost meaning = { λ _ _ key. Some (counts_of (pixels_of key)) };

    ghost size_of = { λ _. 1024 };

    fn size(_value: &Histogram) -> u32 {
        1024
    }

    ghost use Rattle.std.proofs.Common.{rules};

    ghost sizes_fit = { λ _ _ _ _ _. Prim.search rules };
}

/// The class: how a histogram is computed. Its options are the picture, and the key is made of them.
#[derive(Drop)]
pub struct Histograms {
    pub class: ClassId,
}

impl ComputeClass<Pictures> for Histograms {
    type Options = Picture;

    ghost use Rattle.std.specs.Int.{w128, from_be_bytes};

    ghost class_of = { λ s. s.class };

    ghost key_of = { λ _ picture. from_be_bytes w128 picture.pixels };

    fn class(&self) -> ClassId {
        self.class
    }

    fn generate_key(&self, picture: &Picture) -> u128 {
        u128::from_be_bytes(picture.pixels)
    }

    fn compute(
        &self,
        alloc: Global,
        turn: &Turn<Pictures>,
        _picture: &Picture,
    ) -> Result<Made<Histogram>, Memory> {
        let pixels = turn.key().to_be_bytes();
        Made::new(alloc, Histogram::of(alloc, &pixels)?)
    }
}

/// How many pixels of the picture have a level, read off the shared histogram. It is computed where it is not there, and
/// where another pass computes it, the call waits.
#[tactic(auto, using(crate::proofs::Ended::opens_receipt, crate::proofs::Ended::without_only))]
pub fn look_up<R: Wait>(
    rt: &R,
    alloc: Global,
    cache: &Cache<Pictures>,
    pass: &mut Pass<Pictures>,
    class: &Histograms,
    picture: &Picture,
    level: u8,
) -> Result<u32, CacheError>
    requires own { IsOf cache.now pass.old }
    requires clear { IsClearPass pass.old }
    ensures own { IsOf cache.now pass.new }
    ensures clear { IsClearPass pass.new }
    ensures later { IsLater pass.old pass.new }
    ensures counted { IfOk result (λ count. slice_get (counts_of (pixels_of (from_be_bytes w128 picture.now.pixels))) level ≡ Some count) }
{
    let receipt = cache.compute_if_needed_and_checkout(rt, alloc, pass, class, picture, true)?;
    let count = receipt.value().at(level);
    cache.checkin(rt, pass, receipt);
    Ok(count)
}
