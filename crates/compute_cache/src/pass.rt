ghost use Rattle.std.specs.Prelude.{◌≡◌, ◌∷◌, ◌++◌, [], ℕ, List, true, false, length, Some};
ghost use Rattle.std.specs.Arc.{arc_value};
ghost use Rattle.cache_core.specs.declared.entry.Entry.{Entry};
ghost use Rattle.cache_core.specs.declared.entry.Act.TheVariants.{Finish, Abandon, Give};
ghost use Rattle.compute_cache.specs.State.{entry_of};
ghost use Rattle.compute_cache.specs.Found.{IsFound, Refused};
ghost use Rattle.turn_lock.specs.Entries.{entries_of};
ghost use Rattle.compute_cache.specs.Suite.{ReceiptsAreLive};
ghost use Rattle.compute_cache.specs.Passes.{AreOpen, IsOfLock, Called, CalledAndEvicted, has_turn, is_held, turns, without_turn, without_hold, held_at};

use crate::found::{Call, Found};
use crate::hold::Hold;
use crate::keeps::Keeps;
use crate::room::Receipts;
use crate::state::State;
use crate::turns;
use crate::turns::Lock;
use host_io::Memory;
use std::alloc::Global;
use std::marker::Model;
use std::sync::{Arc, Wait};
use turn_lock::TurnLock;

/// A pass of a cache, by which one caller uses it. The opening pass comes with the cache, and each other is split from
/// it and joined into it.
///
/// Contracts see its cache, its number, the history that it has seen, its own entries in it, and its open receipts; of
/// the opening pass also how many passes were made and joined. A pass has no `Drop`: it ends in `join` or `close`.
pub struct Pass<K: Keeps> {
    pub(crate) base: turn_lock::Pass<State<K>>,
    pub(crate) receipts: Receipts,
}

impl<K: Keeps> Model for Pass<K> {
    ghost use Rattle.compute_cache.specs.State.{Plain};
    ghost use Rattle.compute_cache.specs.Passes.{CachePass};

    ghost Value = { CachePass (Plain K.Value K) };

    ghost use Rattle.compute_cache.specs.Kept.{pass_of, IsKeptPass};

    ghost view = { λ p. pass_of p.base p.receipts };

    ghost invariant = { λ p. IsKeptPass p.base p.receipts };
}

impl<K: Keeps> Pass<K> {
    /// Its number: how many passes were made before it. What it has seen has its own entries. Each open receipt is of a
    /// Finish or Hit of its own, and its value is in the cache and stays there.
    pub fn number(&self) -> u32
        ensures number { result ≡ self.now.number }
        ensures own { entries_of self.now.number self.now.seen ≡ self.now.mine }
        ensures open { AreOpen self.now.number self.now.seen self.now.mine self.now.receipts }
        ensures live { ReceiptsAreLive self.now }
    {
        TurnLock::number(&self.base)
    }

    // A call on a class and key whose value the pass does not compute. It answers the place of the entry with what was
    // found.
    pub(crate) fn ask<R: Wait>(
        &mut self,
        rt: &R,
        alloc: Global,
        lock: &Lock<K>,
        call: Call,
        wait: bool,
        class: u8,
        key: u128,
    ) -> Result<(u64, Found<K::Value>), Memory>
        requires own { IsOfLock lock.now self.old }
        requires other { has_turn class key (turns self.old) ≡ false }
        ensures own { IsOfLock lock.now self.new }
        ensures found { IsFound (K.meaning lock.now.origin.job) lock.now.origin.cache.budget call wait class key self.old self.new result }
    {
        if let Err(full) = self.receipts.owe() {
            return Err(full);
        }
        let asked = turns::ask(rt, alloc, lock, &mut self.base, call, wait, class, key);
        let (place, found) = match asked {
            Ok(asked) => asked,
            Err(refused) => {
                self.receipts.waive();
                return Err(refused);
            }
        };
        self.receipts.note(place, class, key, &found);
        Ok((place, found))
    }

    // Whether the pass computes the value of a class and key.
    pub(crate) fn is_owner<R: Wait>(&mut self, rt: &R, lock: &Lock<K>, class: u8, key: u128) -> bool
        requires own { IsOfLock lock.now self.old }
        ensures own { IsOfLock lock.now self.new }
        ensures refused { Refused lock.now.origin.cache.budget self.old self.new }
        ensures owner { result ≡ has_turn class key (turns self.old) }
    {
        turns::is_owner(rt, lock, &mut self.base, class, key)
    }

    // The value that the pass computed goes in. Answers the place of its entry, which is its serial.
    pub(crate) fn finish<R: Wait>(
        &mut self,
        rt: &R,
        lock: &Lock<K>,
        class: u8,
        key: u128,
        size: u32,
        value: Arc<K::Value>,
    ) -> u64
        requires own { IsOfLock lock.now self.old }
        requires turn { has_turn class key (turns self.old) ≡ true }
        requires right { K.meaning lock.now.origin.job class key ≡ Some (arc_value value) }
        ensures own { IsOfLock lock.now self.new }
        ensures called { (before : List Entry) × CalledAndEvicted lock.now.origin.cache.budget self.old self.new before (entry_of self.old.number class key (Finish result size)) × (result ≡ length before) }
        ensures turns { turns self.new ≡ without_turn class key (turns self.old) }
        ensures receipts { self.new.receipts ≡ self.old.receipts ++ held_at result class key result ∷ [] }
    {
        let serial = turns::finish(rt, lock, &mut self.base, class, key, size, value);
        self.receipts.add(Hold {
            place: serial,
            class,
            key,
            serial,
        });
        serial
    }

    // The pass gives its computation up.
    pub(crate) fn abandon<R: Wait>(&mut self, rt: &R, lock: &Lock<K>, class: u8, key: u128)
        requires own { IsOfLock lock.now self.old }
        requires turn { has_turn class key (turns self.old) ≡ true }
        ensures own { IsOfLock lock.now self.new }
        ensures called { (before : List Entry) × Called lock.now.origin.cache.budget self.old self.new before (entry_of self.old.number class key Abandon ∷ []) }
        ensures turns { turns self.new ≡ without_turn class key (turns self.old) }
        ensures receipts { self.new.receipts ≡ self.old.receipts }
    {
        turns::abandon(rt, lock, &mut self.base, class, key);
        self.receipts.waive();
    }

    // The pass gives a value back.
    pub(crate) fn give<R: Wait>(&mut self, rt: &R, lock: &Lock<K>, hold: Hold)
        requires own { IsOfLock lock.now self.old }
        requires held { is_held hold self.old.receipts ≡ true }
        ensures own { IsOfLock lock.now self.new }
        ensures called { (before : List Entry) × CalledAndEvicted lock.now.origin.cache.budget self.old self.new before (entry_of self.old.number hold.class hold.key (Give hold.serial)) }
        ensures turns { turns self.new ≡ turns self.old }
        ensures receipts { self.new.receipts ≡ without_hold hold self.old.receipts }
    {
        turns::give(rt, lock, &mut self.base, hold.class, hold.key, hold.serial);
        self.receipts.remove(hold);
    }
}
