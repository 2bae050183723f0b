ghost use Rattle.std.specs.Prelude.{◌≡◌, ◌++◌, ◌∷◌, ◌+◌, ◌<◌, ℕ, List, [], None};
ghost use Rattle.cache_core.specs.History.{IsLegal};
ghost use Rattle.cache_core.specs.declared.entry.Entry.{Entry as PlainEntry};
ghost use Rattle.turn_lock.specs.Entries.{AreOf};
ghost use Rattle.std.specs.Thread.{IsSync};
ghost use Rattle.turn_lock.specs.Lock.{IsOf};
ghost use Rattle.turn_lock.specs.Notes.{AreNotes};

use crate::{History, Pass, TurnLock};
use cache_core::{Act, Entry, HISTORY_LIMIT};
use host_io::Memory;
use std::alloc::Global;
use std::marker::Model;
use std::sync::Wait;
use std::test::Fail;
use std::thread;
use std::thread::Threads;

// How many entries a worker makes.
const TURNS: u32 = 1_000;

// A state that is a plain vector of entries: of budget 0, with the name `()`, and below the limit of histories. Each
// entry notes that there is no row.
#[derive(Drop)]
struct Plain {
    entries: Vec<Entry>,
}

impl Model for Plain {
    ghost use Rattle.std.specs.Prelude.{List, ◌<◌, length};
    ghost use Rattle.cache_core.specs.History.{history_limit};
    ghost use Rattle.cache_core.specs.declared.entry.Entry.{Entry};
    ghost use Rattle.turn_lock.specs.Notes.{AreNotes};

    ghost Value = { List Entry };

    ghost view = { λ p. p.entries.items };

    ghost invariant = { λ p. (length p.entries.items < history_limit) × AreNotes p.entries.items };
}

impl History for Plain {
    type Name = ();

    ghost budget = { λ _. 0 };

    ghost log = { λ p. p };

    ghost name = { λ _. tt };

    fn entries(&self) -> u64 {
        self.entries.len() as u64
    }
}

impl Plain {
    fn new(alloc: Global) -> Plain
        ensures { result ≡ [] }
    {
        Plain {
            entries: Vec::new(alloc),
        }
    }

    // The pass notes that there is no row of the key. It is refused where the history would reach the limit.
    fn note(&mut self, pass: u32, key: u128) -> Result<(), Memory>
        ensures added { (added : List PlainEntry) × (self.new ≡ self.old ++ added) × AreOf pass added × AreNotes added }
        ensures legal { IsLegal 0 self.new }
    {
        if self.entries.len() as u64 >= HISTORY_LIMIT - 1 {
            return Err(Memory);
        }
        self.entries.push(Entry {
            pass,
            class: 0,
            key,
            act: Act::NotCached,
        })?;
        Ok(())
    }
}

// One turn of a pass: it takes the state, notes a key, and puts the state back.
fn turn<R: Wait>(
    rt: &R,
    lock: &TurnLock<Plain>,
    pass: &mut Pass<Plain>,
    key: u128,
) -> Result<(), Memory>
    requires own { IsOf lock.now pass.old }
    requires free { pass.old.taken ≡ None }
    requires notes { AreNotes pass.old.mine }
    ensures own { IsOf lock.now pass.new }
    ensures free { pass.new.taken ≡ None }
    ensures notes { AreNotes pass.new.mine }
    ensures number { pass.new.number ≡ pass.old.number }
    ensures counts { (pass.new.made ≡ pass.old.made) × (pass.new.joined ≡ pass.old.joined) }
{
    let number = TurnLock::number(pass);
    let mut state = lock.take(rt, pass);
    let done = state.note(number, key);
    lock.put(pass, state);
    done
}

// Many turns of a pass, with the keys from the first one on.
fn work<R: Wait>(rt: &R, lock: &TurnLock<Plain>, pass: &mut Pass<Plain>, first: u32) -> bool
    requires own { IsOf lock.now pass.old }
    requires free { pass.old.taken ≡ None }
    requires notes { AreNotes pass.old.mine }
    ensures own { IsOf lock.now pass.new }
    ensures free { pass.new.taken ≡ None }
    ensures notes { AreNotes pass.new.mine }
{
    let mut all = true;
    for key in 0..TURNS {
        let key = u128::from(first) + u128::from(key);
        if turn(rt, lock, pass, key).is_err() {
            all = false;
        }
    }
    all
}

// Two threads work at once.
fn both_work<R: Threads + Wait + Sync>(
    rt: &R,
    lock: &TurnLock<Plain>,
    one: &mut Pass<Plain>,
    two: &mut Pass<Plain>,
) -> (bool, bool)
    requires own { (IsOf lock.now one.old) × (IsOf lock.now two.old) }
    requires free { (one.old.taken ≡ None) × (two.old.taken ≡ None) }
    requires notes { AreNotes one.old.mine × AreNotes two.old.mine }
    ensures own { (IsOf lock.now one.new) × (IsOf lock.now two.new) }
    ensures free { (one.new.taken ≡ None) × (two.new.taken ≡ None) }
    ensures notes { AreNotes one.new.mine × AreNotes two.new.mine }
{
    thread::join_mut(
        rt,
        &mut || work(rt, lock, one, 0),
        &mut || work(rt, lock, two, TURNS),
    )
}

// Two threads work at once, each with a pass of its own. The opening pass takes them in.
#[tactic(auto, using(crate::proofs::Notes::notes_clear))]
fn both<R: Threads + Wait + Sync>(
    rt: &R,
    lock: &TurnLock<Plain>,
    opening: &mut Pass<Plain>,
) -> Result<bool, Memory>
    requires own { IsOf lock.now opening.old }
    requires free { opening.old.taken ≡ None }
    requires opening { opening.old.number ≡ 0 }
    requires few { opening.old.made < 1000 }
    ensures own { IsOf lock.now opening.new }
    ensures free { opening.new.taken ≡ None }
    ensures number { opening.new.number ≡ opening.old.number }
    ensures mine { opening.new.mine ≡ opening.old.mine }
    ensures counts { opening.new.made + opening.old.joined ≡ opening.old.made + opening.new.joined }
{
    let mut one = lock.split(opening)?;
    let mut two = match lock.split(opening) {
        Ok(two) => two,
        Err(refused) => {
            lock.join(opening, one);
            return Err(refused);
        }
    };
    let (first, second) = both_work(rt, lock, &mut one, &mut two);
    lock.join(opening, one);
    lock.join(opening, two);
    Ok(first && second)
}

// Eight passes, each split, used and joined before the next.
#[tactic(auto, using(crate::proofs::Notes::notes_clear))]
fn in_turn<R: Wait>(
    rt: &R,
    lock: &TurnLock<Plain>,
    opening: &mut Pass<Plain>,
) -> Result<bool, Memory>
    requires own { IsOf lock.now opening.old }
    requires free { opening.old.taken ≡ None }
    requires opening { opening.old.number ≡ 0 }
    requires few { opening.old.made < 1000 }
    ensures own { IsOf lock.now opening.new }
    ensures free { opening.new.taken ≡ None }
    ensures number { opening.new.number ≡ opening.old.number }
    ensures mine { opening.new.mine ≡ opening.old.mine }
    ensures counts { opening.new.made + opening.old.joined ≡ opening.old.made + opening.new.joined }
{
    let mut all = true;
    for round in 0..8u32 {
        let mut pass = lock.split(opening)?;
        let mut done = turn(rt, lock, &mut pass, u128::from(round)).is_ok();
        done = turn(rt, lock, &mut pass, u128::from(round) + 8).is_ok() && done;
        lock.join(opening, pass);
        all = all && done;
    }
    Ok(all)
}

// Whether the entries of a pass have the keys from the first one on, in order.
fn in_order(entries: &[Entry], pass: u32, first: u128, count: u32) -> bool {
    let mut made: u32 = 0;
    for entry in entries {
        if entry.pass == pass {
            if entry.key != first.wrapping_add(u128::from(made)) {
                return false;
            }
            made = made.wrapping_add(1);
        }
    }
    made == count
}

#[test]
#[tactic(auto, using(crate::proofs::Notes::notes_clear))]
fn two_threads_make_one_history(rt: HostRuntime) -> Result<(), Fail> {
    let (lock, mut opening) = TurnLock::new(rt.alloc(), Plain::new(rt.alloc()))?;
    let done = both(&rt, &lock, &mut opening);
    let state = lock.close(opening);
    assert!(rt; done?);
    let entries = state.entries.as_slice();
    assert_eq!(rt; entries.len(), 2_000);
    assert!(rt; in_order(entries, 1, 0, 1_000));
    assert!(rt; in_order(entries, 2, 1_000, 1_000));
    Ok(())
}

#[test]
#[tactic(auto, using(crate::proofs::Notes::notes_clear))]
fn eight_passes_in_turn(rt: HostRuntime) -> Result<(), Fail> {
    let (lock, mut opening) = TurnLock::new(rt.alloc(), Plain::new(rt.alloc()))?;
    let done = in_turn(&rt, &lock, &mut opening);
    assert_eq!(rt; TurnLock::number(&opening), 0);
    let state = lock.close(opening);
    assert!(rt; done?);
    let mut made = state.entries.iter();
    for round in 0..8u32 {
        for key in [round, round + 8] {
            let entry = made.next().ok_or("fewer entries")?;
            assert_eq!(rt; entry.pass, round + 1);
            assert_eq!(rt; entry.key, u128::from(key));
        }
    }
    assert!(rt; made.next().is_none());
    Ok(())
}
