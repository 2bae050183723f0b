ghost use Rattle.std.specs.Prelude.{◌≡◌, ℕ, Some};

use crate::classes::ClassId;
use crate::keeps::Keeps;
use crate::turns::Lock;
use std::marker::Model;
use std::snapshot::Snapshot;
use std::sync::Arc;

/// A value of a cache that a pass holds. It ends in `checkin`.
///
/// Contracts see its cache with the job, the number of its pass, the place of its entry, its class, key and serial, and
/// its value.
pub struct Receipt<K: Keeps> {
    pub(crate) pass: u32,
    pub(crate) place: u64,
    pub(crate) class: ClassId,
    pub(crate) key: u128,
    pub(crate) serial: u64,
    pub(crate) value: Arc<K::Value>,
    pub(crate) lock: Snapshot<Lock<K>>,
}

impl<K: Keeps> Model for Receipt<K> {
    ghost use Rattle.std.specs.Prelude.{◌≡◌, Some};
    ghost use Rattle.std.specs.Arc.{arc_value};
    ghost use Rattle.compute_cache.specs.Suite.{ReceiptOf};

    ghost Value = { ReceiptOf K.Value K };

    ghost view = { λ r. record { lock = r.lock.value; pass = r.pass; place = r.place; class = r.class.0; key = r.key; serial = r.serial; value = arc_value r.value } };

    ghost invariant = { λ r. K.meaning r.lock.value.origin.job r.class.0 r.key ≡ Some (arc_value r.value) };
}

/// The turn to compute a value of a cache. It ends in `finish` or `abandon`.
///
/// Contracts see its cache with the job, the number of its pass, the place of its entry, its class and key.
pub struct Turn<K: Keeps> {
    pub(crate) pass: u32,
    pub(crate) place: u64,
    pub(crate) class: ClassId,
    pub(crate) key: u128,
    pub(crate) lock: Snapshot<Lock<K>>,
}

impl<K: Keeps> Model for Turn<K> {
    ghost use Rattle.compute_cache.specs.Suite.{TurnOf};

    ghost Value = { TurnOf K.Value K };

    ghost view = { λ t. record { lock = t.lock.value; pass = t.pass; place = t.place; class = t.class.0; key = t.key } };
}

/// What `begin` gives: a receipt for the value that is there, or the turn to compute it.
pub enum Begun<K: Keeps> {
    Hit(Receipt<K>),
    Turn(Turn<K>),
}

impl<K: Keeps> Receipt<K> {
    /// The value, which is right for the class and key. It is read without the lock, until the receipt is checked in.
    pub fn value(&self) -> &K::Value
        ensures value { result.now ≡ self.now.value }
        ensures right { K.meaning self.now.lock.origin.job self.now.class self.now.key ≡ Some self.now.value }
    {
        &self.value
    }

    /// Its class.
    pub fn class(&self) -> ClassId
        ensures { result.0 ≡ self.now.class }
    {
        self.class
    }

    /// Its key.
    pub fn key(&self) -> u128
        ensures { result ≡ self.now.key }
    {
        self.key
    }
}

impl<K: Keeps> Turn<K> {
    /// Its class.
    pub fn class(&self) -> ClassId
        ensures { result.0 ≡ self.now.class }
    {
        self.class
    }

    /// Its key.
    pub fn key(&self) -> u128
        ensures { result ≡ self.now.key }
    {
        self.key
    }
}
