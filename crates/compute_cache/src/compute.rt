ghost use Rattle.std.specs.Prelude.{◌≡◌, ℕ, IfOk, Some};
ghost use Rattle.compute_cache.specs.declared.classes.ClassId.{ClassId};

use crate::classes::ClassId;
use crate::keeps::Keeps;
use crate::made::Made;
use crate::receipt::Turn;
use host_io::Memory;
use std::alloc::Global;

/// A class of values, each computed from options: the SDK's callbacks of a class.
pub trait ComputeClass<K: Keeps> {
    /// What a value is computed from.
    type Options;

    ghost class_of: { Self → ClassId };

    ghost key_of: { Self → Self.Options → ℕ };

    /// The class.
    fn class(&self) -> ClassId
        ensures { result ≡ class_of self.now };

    /// The key of the value for these options.
    fn generate_key(&self, options: &Self::Options) -> u128
        ensures { result ≡ key_of self.now options.now };

    /// The value, in the turn to compute it.
    fn compute(
        &self,
        alloc: Global,
        turn: &Turn<K>,
        options: &Self::Options,
    ) -> Result<Made<K::Value>, Memory>
        requires class { turn.now.class ≡ (class_of self.now).0 }
        requires key { turn.now.key ≡ key_of self.now options.now }
        ensures { IfOk result (λ made. K.meaning turn.now.lock.origin.job turn.now.class turn.now.key ≡ Some made) };
}
