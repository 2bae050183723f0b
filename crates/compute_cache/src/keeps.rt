ghost use Rattle.std.specs.Prelude.{◌≡◌, ◌<◌, ◌^◌, ℕ, Option, Some};

/// What a cache keeps: a job, by which a value is right for a class and key or is not.
pub trait Keeps {
    /// A kept value.
    type Value: Send + Sync + Drop;

    ghost meaning: { Self → ℕ → ℕ → Option Self.Value };

    ghost size_of: { Self.Value → ℕ };

    /// The approximate size of a value in bytes.
    fn size(value: &Self::Value) -> u32
        requires { size_of value.now < 2 ^ 32 }
        ensures { result ≡ size_of value.now };

    ghost sizes_fit: { (job : Self) (class key : ℕ) (value : Self.Value) → meaning job class key ≡ Some value → size_of value < 2 ^ 32 };
}
