ghost use Rattle.std.specs.Prelude.{◌≡◌, ◌↔◌, ◌++◌, ◌∷◌, ◌+◌, ◌<◌, ◌≤◌, [], ℕ, List, true, false, length, take, IfOk, OnOk, OnErr, Some, None, Ok, Err};
ghost use Rattle.cache_core.specs.declared.entry.Entry.{Entry};
ghost use Rattle.cache_core.specs.declared.entry.Act.TheVariants.{Finish, Abandon, Give};
ghost use Rattle.compute_cache.specs.declared.error.CacheError.TheVariants.{NotRegistered};
ghost use Rattle.compute_cache.specs.declared.found.Call.TheVariants.{Begin, Checkout as ByCheckout};
ghost use Rattle.std.specs.List.{AllByRecursion};
ghost use Rattle.cache_core.specs.Core.{Core};
ghost use Rattle.cache_core.specs.Rows.{is_idle, AreDistinct};
ghost use Rattle.cache_core.specs.Laws.{Leaves};
ghost use Rattle.turn_lock.specs.Entries.{Begins, entries_of};
ghost use Rattle.std.specs.Set.{distinct_count};
ghost use Rattle.cache_laws.specs.Computations.{takes_out, starts_of, same_name, used_names};
ghost use Rattle.compute_cache.specs.Turned.{IsSettledHistory};
ghost use Rattle.compute_cache.specs.State.{entry_of};
ghost use Rattle.compute_cache.specs.Found.{Refused};
ghost use Rattle.compute_cache.specs.Passes.{Called, CalledAndEvicted, has_turn, turns, without_turn, without_hold};
ghost use Rattle.compute_cache.specs.Suite.{IsOf, IsReceiptOf, IsTurnOf, IsSplitFrom, IsClearPass, LeavesReceipt, splitting, joining, job_of, budget_of, hold_of};
ghost use Rattle.compute_cache.specs.Answers.{IsBegun, IsCheckedOut, IsComputed, IsEnded, IsGivenTurn};

use crate::classes::{ClassId, Classes};
use crate::closed::Closed;
use crate::compute::ComputeClass;
use crate::error::CacheError;
use crate::found::{Call, Found};
use crate::hold::Hold;
use crate::keeps::Keeps;
use crate::made::Made;
use crate::pass::Pass;
use crate::receipt::{Begun, Receipt, Turn};
use crate::room::Receipts;
use crate::state::State;
use crate::turns::Lock;
use host_io::Memory;
use std::alloc::Global;
use std::marker::Model;
use std::snapshot::Snapshot;
use std::sync::Wait;
use turn_lock::TurnLock;

/// A cache of computed values, which passes share.
///
/// Contracts see which cache it is, with the budget and the job that it was started with, and its classes.
pub struct Cache<K: Keeps> {
    lock: Lock<K>,
    classes: Classes,
}

impl<K: Keeps> Model for Cache<K> {
    ghost use Rattle.compute_cache.specs.State.{Plain};
    ghost use Rattle.compute_cache.specs.Suite.{Suite};

    ghost Value = { Suite (Plain K.Value K) };

    ghost view = { λ c. record { lock = c.lock; classes = c.classes } };
}

impl<K: Keeps> Cache<K> {
    /// A cache with these classes, this budget in bytes and this job, and its opening pass, which is number 0.
    pub fn start(
        alloc: Global,
        classes: Classes,
        budget: u64,
        job: K,
    ) -> Result<(Cache<K>, Pass<K>), Memory>
    where
        K: Drop,
        ensures classes { IfOk result (λ made. made.0.classes ≡ classes) }
        ensures budget { IfOk result (λ made. budget_of made.0 ≡ budget) }
        ensures job { IfOk result (λ made. job_of made.0 ≡ job) }
        ensures own { IfOk result (λ made. IsOf made.0 made.1) }
        ensures number { IfOk result (λ made. made.1.number ≡ 0) }
        ensures fresh { IfOk result (λ made. (made.1.seen ≡ []) × (made.1.mine ≡ []) × (made.1.receipts ≡ [])) }
        ensures counts { IfOk result (λ made. (made.1.made ≡ 1) × (made.1.joined ≡ 0)) }
    {
        let state = State::new(alloc, budget, &job)?;
        let (lock, base) = TurnLock::new(alloc, state)?;
        let pass = Pass {
            base,
            receipts: Receipts::new(alloc),
        };
        Ok((Cache { lock, classes }, pass))
    }

    /// Takes the value of a class and key where it is there, or the turn to compute it where there is no row. Where
    /// another pass computes it, the call is refused, or waits.
    pub fn begin<R: Wait>(
        &self,
        rt: &R,
        alloc: Global,
        pass: &mut Pass<K>,
        class: ClassId,
        key: u128,
        wait: bool,
    ) -> Result<Begun<K>, CacheError>
        requires own { IsOf self.now pass.old }
        requires other { has_turn class.0 key (turns pass.old) ≡ false }
        ensures own { IsOf self.now pass.new }
        ensures begun { IsBegun self.now Begin wait class key pass.old pass.new result }
        ensures registered { (result ≡ Err (NotRegistered class)) ↔ (length self.now.classes ≤ class.0) }
    {
        if !self.classes.has(class) {
            return Err(CacheError::NotRegistered { class });
        }
        let number = pass.number();
        let asked = pass.ask(rt, alloc, &self.lock, Call::Begin, wait, class.0, key);
        let (place, found) = match asked {
            Ok(asked) => asked,
            Err(_) => return Err(CacheError::Memory),
        };
        match found {
            Found::Hit { serial, value } => Ok(Begun::Hit(Receipt {
                pass: number,
                place,
                class,
                key,
                serial,
                value,
                lock: Snapshot::of(&self.lock),
            })),
            Found::Start => Ok(Begun::Turn(Turn {
                pass: number,
                place,
                class,
                key,
                lock: Snapshot::of(&self.lock),
            })),
            Found::Pending { owner } => Err(CacheError::Pending { owner, at: place }),
            Found::NotCached => unreachable!(),
        }
    }

    /// Takes the value of a class and key where it is there.
    pub fn checkout_cached<R: Wait>(
        &self,
        rt: &R,
        alloc: Global,
        pass: &mut Pass<K>,
        class: ClassId,
        key: u128,
    ) -> Result<Receipt<K>, CacheError>
        requires own { IsOf self.now pass.old }
        requires other { has_turn class.0 key (turns pass.old) ≡ false }
        ensures own { IsOf self.now pass.new }
        ensures answer { IsCheckedOut self.now ByCheckout false class key pass.old pass.new result }
        ensures registered { (result ≡ Err (NotRegistered class)) ↔ (length self.now.classes ≤ class.0) }
    {
        if !self.classes.has(class) {
            return Err(CacheError::NotRegistered { class });
        }
        let number = pass.number();
        let asked = pass.ask(rt, alloc, &self.lock, Call::Checkout, false, class.0, key);
        let (place, found) = match asked {
            Ok(asked) => asked,
            Err(_) => return Err(CacheError::Memory),
        };
        match found {
            Found::Hit { serial, value } => Ok(Receipt {
                pass: number,
                place,
                class,
                key,
                serial,
                value,
                lock: Snapshot::of(&self.lock),
            }),
            Found::Pending { owner } => Err(CacheError::Pending { owner, at: place }),
            Found::NotCached => Err(CacheError::NotCached { at: place }),
            Found::Start => unreachable!(),
        }
    }

    /// Whether the pass computes the value of a class and key. It makes no entry.
    pub fn owns<R: Wait>(&self, rt: &R, pass: &mut Pass<K>, class: ClassId, key: u128) -> bool
        requires { IsOf self.now pass.old }
        ensures own { IsOf self.now pass.new }
        ensures quiet { Refused (budget_of self.now) pass.old pass.new }
        ensures owner { result ≡ has_turn class.0 key (turns pass.old) }
    {
        pass.is_owner(rt, &self.lock, class.0, key)
    }

    /// The pass puts in the value that it computed in its turn, and holds it. Idle values leave until the cache is
    /// settled.
    pub fn finish<R: Wait>(
        &self,
        rt: &R,
        pass: &mut Pass<K>,
        turn: Turn<K>,
        value: Made<K::Value>,
    ) -> Receipt<K>
        requires own { IsOf self.now pass.old }
        requires turn { IsTurnOf self.now pass.old turn }
        requires right { K.meaning (job_of self.now) turn.class turn.key ≡ Some value }
        ensures own { IsOf self.now pass.new }
        ensures called { (before : List Entry) × CalledAndEvicted (budget_of self.now) pass.old pass.new before (entry_of pass.old.number turn.class turn.key (Finish result.serial (K.size_of value))) × (result.serial ≡ length before) }
        ensures turns { turns pass.new ≡ without_turn turn.class turn.key (turns pass.old) }
        ensures receipts { pass.new.receipts ≡ pass.old.receipts ++ hold_of result ∷ [] }
        ensures receipt { (result.lock ≡ self.now.lock) × (result.pass ≡ pass.old.number) × (result.place ≡ result.serial) }
        ensures names { (result.class ≡ turn.class) × (result.key ≡ turn.key) }
        ensures value { result.value ≡ value }
    {
        let Turn {
            pass: number,
            place: _,
            class,
            key,
            lock,
        } = turn;
        let Made { table, receipt } = value;
        let size = K::size(&receipt);
        let serial = pass.finish(rt, &self.lock, class.0, key, size, table);
        Receipt {
            pass: number,
            place: serial,
            class,
            key,
            serial,
            value: receipt,
            lock,
        }
    }

    /// The pass gives its turn up, and the row goes.
    pub fn abandon<R: Wait>(&self, rt: &R, pass: &mut Pass<K>, turn: Turn<K>)
        requires own { IsOf self.now pass.old }
        requires turn { IsTurnOf self.now pass.old turn }
        ensures own { IsOf self.now pass.new }
        ensures called { (before : List Entry) × Called (budget_of self.now) pass.old pass.new before (entry_of pass.old.number turn.class turn.key Abandon ∷ []) }
        ensures turns { turns pass.new ≡ without_turn turn.class turn.key (turns pass.old) }
        ensures receipts { pass.new.receipts ≡ pass.old.receipts }
    {
        let Turn {
            pass: _,
            place: _,
            class,
            key,
            lock: _,
        } = turn;
        pass.abandon(rt, &self.lock, class.0, key);
    }

    /// The pass gives a value back. Idle values leave until the cache is settled.
    pub fn checkin<R: Wait>(&self, rt: &R, pass: &mut Pass<K>, receipt: Receipt<K>)
        requires own { IsOf self.now pass.old }
        requires receipt { IsReceiptOf self.now pass.old receipt }
        ensures own { IsOf self.now pass.new }
        ensures called { (before : List Entry) × CalledAndEvicted (budget_of self.now) pass.old pass.new before (entry_of pass.old.number receipt.class receipt.key (Give receipt.serial)) }
        ensures turns { turns pass.new ≡ turns pass.old }
        ensures receipts { pass.new.receipts ≡ without_hold (hold_of receipt) pass.old.receipts }
    {
        let Receipt {
            pass: _,
            place,
            class,
            key,
            serial,
            value,
            lock: _,
        } = receipt;
        drop(value);
        let class = class.0;
        pass.give(
            rt,
            &self.lock,
            Hold {
                place,
                class,
                key,
                serial,
            },
        );
    }

    // What follows on `begin`.
    fn compute_begun<R: Wait, S: ComputeClass<K>>(
        &self,
        rt: &R,
        alloc: Global,
        pass: &mut Pass<K>,
        class: &S,
        options: &S::Options,
        begun: Begun<K>,
    ) -> Result<Receipt<K>, CacheError>
        requires own { IsOf self.now pass.old }
        requires turn { IsGivenTurn self.now pass.old (S.class_of class.now) (S.key_of class.now options.now) begun }
        ensures own { IsOf self.now pass.new }
        ensures ended { IsEnded self.now K.size_of pass.old pass.new (Ok begun) result }
    {
        let turn = match begun {
            Begun::Hit(receipt) => return Ok(receipt),
            Begun::Turn(turn) => turn,
        };
        match class.compute(alloc, &turn, options) {
            Ok(made) => Ok(self.finish(rt, pass, turn, made)),
            Err(_) => {
                self.abandon(rt, pass, turn);
                Err(CacheError::Memory)
            }
        }
    }

    /// `begin`, and on a turn the class' `compute` and then `finish`. Where there is no memory to compute it, the turn is
    /// given up.
    pub fn compute_if_needed_and_checkout<R: Wait, S: ComputeClass<K>>(
        &self,
        rt: &R,
        alloc: Global,
        pass: &mut Pass<K>,
        class: &S,
        options: &S::Options,
        wait: bool,
    ) -> Result<Receipt<K>, CacheError>
        requires own { IsOf self.now pass.old }
        requires other { has_turn (S.class_of class.now).0 (S.key_of class.now options.now) (turns pass.old) ≡ false }
        ensures own { IsOf self.now pass.new }
        ensures answer { IsComputed self.now K.size_of wait (S.class_of class.now) (S.key_of class.now options.now) pass.old pass.new result }
        ensures leaves { LeavesReceipt self.now (S.class_of class.now).0 (S.key_of class.now options.now) pass.old pass.new result }
    {
        let id = class.class();
        let key = class.generate_key(options);
        match self.begin(rt, alloc, pass, id, key, wait) {
            Ok(begun) => self.compute_begun(rt, alloc, pass, class, options, begun),
            Err(refused) => Err(refused),
        }
    }

    /// A further pass, with a number that no entry has. It has seen what the opening pass has.
    pub fn split(&self, alloc: Global, pass: &mut Pass<K>) -> Result<Pass<K>, Memory>
        requires own { IsOf self.now pass.old }
        requires opening { pass.old.number ≡ 0 }
        requires count { pass.old.made < 4294967295 }
        ensures own { IsOf self.now pass.new }
        ensures pass { OnOk result (pass.new ≡ splitting pass.old) }
        ensures new_own { IfOk result (IsOf self.now) }
        ensures new { IfOk result (IsSplitFrom pass.old) }
        ensures err { OnErr result (pass.new ≡ pass.old) }
    {
        let base = self.lock.split(&mut pass.base)?;
        Ok(Pass {
            base,
            receipts: Receipts::new(alloc),
        })
    }

    /// The opening pass takes in another, which has ended all its turns and checked in all its receipts. It has then seen
    /// what either has, with the entries of the other.
    pub fn join(&self, pass: &mut Pass<K>, other: Pass<K>)
        requires own { IsOf self.now pass.old }
        requires opening { pass.old.number ≡ 0 }
        requires other_own { IsOf self.now other }
        requires other_clear { IsClearPass other }
        ensures own { IsOf self.now pass.new }
        ensures pass { pass.new ≡ joining other pass.old }
        ensures begins { Begins pass.old.seen pass.new.seen }
        ensures other_begins { Begins other.seen pass.new.seen }
        ensures mine { entries_of pass.new.number pass.new.seen ≡ pass.new.mine }
        ensures other_mine { entries_of other.number pass.new.seen ≡ other.mine }
        ensures turns { turns pass.new ≡ turns pass.old }
        ensures settled { IsSettledHistory (budget_of self.now) pass.new.seen }
    {
        let Pass { base, receipts: _ } = other;
        self.lock.join(&mut pass.base, base);
    }

    /// The history, once every other pass was joined. It is what the opening pass has seen, and leaves no row that is
    /// computed or held. After each beginning of it a class and key have at most one row: one computation, or one value.
    pub fn close(self, pass: Pass<K>) -> Closed
        requires own { IsOf self pass }
        requires opening { pass.number ≡ 0 }
        requires clear { IsClearPass pass }
        requires last { pass.made ≡ pass.joined + 1 }
        ensures history { result ≡ pass.seen }
        ensures idle { (core : Core) × Leaves (budget_of self) result core × AllByRecursion (λ row. is_idle row.state ≡ true) core.rows }
        ensures single { (n : ℕ) → (core : Core) × Leaves (budget_of self) (take n result) core × AreDistinct core.rows }
        ensures counted { AllByRecursion (λ entry. takes_out entry.act ≡ false) result → starts_of result ≡ distinct_count same_name (used_names result) }
    {
        let Cache { lock, classes: _ } = self;
        let Pass { base, receipts: _ } = pass;
        Closed {
            entries: lock.close(base).into_history(),
        }
    }
}
