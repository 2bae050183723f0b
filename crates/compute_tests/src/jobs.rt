//! A job whose values are numbers, and classes that compute them.
ghost use Rattle.std.specs.Prelude.{◌≡◌, ◌^◌, ◌%◌, Some};

use compute_cache::{ClassId, ComputeClass, Keeps, Made, Turn};
use host_io::Memory;
use std::alloc::Global;
use std::sync::Arc;
use std::sync::atomic::{AtomicU64, Ordering};

// How often a computation looks whether two threads ask.
const LOOKS: u32 = 100_000_000;

// A job whose value of a key is its low 32 bits, and takes 60 bytes.
#[derive(Drop)]
pub struct Low;

impl Keeps for Low {
    type Value = u32;

    ghost meaning = { λ _ _ key. Some (key % 2 ^ 32) };

    ghost size_of = { λ _. 60 };

    fn size(_value: &u32) -> u32 {
        60
    }

    ghost use Rattle.std.proofs.Common.{rules};

    ghost sizes_fit = { λ _ _ _ _ _. Prim.search rules };
}

// The low 32 bits of a key.
pub fn low_bits(key: u128) -> u32
    ensures { result ≡ key % 2 ^ 32 }
{
    (key % 4294967296) as u32
}

// The low 32 bits of a key, as a new value.
#[derive(Drop)]
pub struct Fresh {
    pub class: ClassId,
}

impl ComputeClass<Low> for Fresh {
    type Options = u128;

    ghost class_of = { λ s. s.class };

    ghost key_of = { λ _ key. key };

    fn class(&self) -> ClassId {
        self.class
    }

    fn generate_key(&self, options: &u128) -> u128 {
        *options
    }

    fn compute(&self, alloc: Global, _turn: &Turn<Low>, key: &u128) -> Result<Made<u32>, Memory> {
        Made::new(alloc, low_bits(*key))
    }
}

// The low 32 bits of a key, as a value that is shared with others.
#[derive(Drop)]
pub struct Shared {
    pub class: ClassId,
}

impl ComputeClass<Low> for Shared {
    type Options = u128;

    ghost class_of = { λ s. s.class };

    ghost key_of = { λ _ key. key };

    fn class(&self) -> ClassId {
        self.class
    }

    fn generate_key(&self, options: &u128) -> u128 {
        *options
    }

    fn compute(&self, alloc: Global, _turn: &Turn<Low>, key: &u128) -> Result<Made<u32>, Memory> {
        let value = Arc::new(alloc, low_bits(*key))?;
        Made::of(alloc, &value)
    }
}

// The low 32 bits of a key. It counts the computations, each of which waits, for a while, until two threads ask.
#[derive(Drop)]
pub struct Counted<'a> {
    pub class: ClassId,
    pub asking: &'a AtomicU64,
    pub computed: &'a AtomicU64,
}

impl ComputeClass<Low> for Counted<'_> {
    type Options = u128;

    ghost class_of = { λ s. s.class };

    ghost key_of = { λ _ key. key };

    fn class(&self) -> ClassId {
        self.class
    }

    fn generate_key(&self, options: &u128) -> u128 {
        *options
    }

    fn compute(&self, alloc: Global, _turn: &Turn<Low>, key: &u128) -> Result<Made<u32>, Memory> {
        self.computed.fetch_add(1, Ordering::SeqCst);
        for _ in 0..LOOKS {
            if self.asking.load(Ordering::SeqCst) >= 2 {
                break;
            }
        }
        Made::new(alloc, low_bits(*key))
    }
}
