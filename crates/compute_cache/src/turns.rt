ghost use Rattle.std.specs.Prelude.{◌≡◌, ◌∷◌, ◌++◌, [], ℕ, List, true, false, length, None, Some, IfNone, IfSome};
ghost use Rattle.std.specs.Arc.{arc_value};
ghost use Rattle.cache_core.specs.declared.entry.Entry.{Entry};
ghost use Rattle.cache_core.specs.declared.entry.Act.TheVariants.{Finish, Abandon, Give};
ghost use Rattle.turn_lock.specs.Entries.{Begins, entries_of, computes, holds_taken, holds_given};
ghost use Rattle.turn_lock.specs.Lock.{IsOf, taking};
ghost use Rattle.compute_cache.specs.State.{entry_of, IsSound};
ghost use Rattle.compute_cache.specs.Asked.{IsAsked};
ghost use Rattle.compute_cache.specs.Turned.{Turned, Evicting, IsOpen};

use crate::found::{Call, Found};
use crate::keeps::Keeps;
use crate::state::State;
use host_io::Memory;
use std::alloc::Global;
use std::sync::{Arc, Wait};
use std::thread;
use turn_lock::{Pass, TurnLock};

// A lock round the state of a cache, for the turns of its passes.
pub(crate) type Lock<K> = TurnLock<State<K>>;

// Takes the state, and says the place of the next entry.
fn open<K: Keeps, R: Wait>(rt: &R, lock: &Lock<K>, pass: &mut Pass<State<K>>) -> (State<K>, u64)
    requires own { IsOf lock.now pass.old }
    requires free { pass.old.taken ≡ None }
    ensures pass { pass.new ≡ taking result.0.cache.history pass.old }
    ensures budget { result.0.cache.budget ≡ lock.now.origin.cache.budget }
    ensures job { result.0.job ≡ lock.now.origin.job }
    ensures begins { Begins pass.old.seen result.0.cache.history }
    ensures mine { entries_of pass.old.number result.0.cache.history ≡ pass.old.mine }
    ensures place { result.1 ≡ length result.0.cache.history }
    ensures sound { IsSound result.0 }
{
    let state = lock.take(rt, pass);
    let place = state.place();
    (state, place)
}

// One turn of a call of the pass, which does not compute the value. It is to be made again where the call waits and
// another pass computes the value.
fn try_ask<K: Keeps, R: Wait>(
    rt: &R,
    alloc: Global,
    lock: &Lock<K>,
    pass: &mut Pass<State<K>>,
    call: Call,
    wait: bool,
    class: u8,
    key: u128,
) -> Option<Result<(u64, Found<K::Value>), Memory>>
    requires own { IsOf lock.now pass.old }
    requires free { pass.old.taken ≡ None }
    requires other { computes class key false pass.old.mine ≡ false }
    ensures waits { IfNone result ((before : List Entry) × Turned lock.now.origin.cache.budget pass.old pass.new before []) }
    ensures asked { IfSome result (IsAsked (K.meaning lock.now.origin.job) lock.now.origin.cache.budget call wait class key pass.old pass.new) }
{
    let number = TurnLock::number(pass);
    let (mut state, place) = open(rt, lock, pass);
    if state.keeps_waiting(wait, class, key) {
        lock.put(pass, state);
        return None;
    }
    let found = state.ask(alloc, call, number, class, key);
    lock.put(pass, state);
    match found {
        Ok(found) => Some(Ok((place, found))),
        Err(refused) => Some(Err(refused)),
    }
}

// A call of the pass, which does not compute the value. It answers the place of the entry with what was found. Where it
// is to wait, it looks again as long as another pass computes the value.
pub(crate) fn ask<K: Keeps, R: Wait>(
    rt: &R,
    alloc: Global,
    lock: &Lock<K>,
    pass: &mut Pass<State<K>>,
    call: Call,
    wait: bool,
    class: u8,
    key: u128,
) -> Result<(u64, Found<K::Value>), Memory>
    requires own { IsOf lock.now pass.old }
    requires free { pass.old.taken ≡ None }
    requires other { computes class key false pass.old.mine ≡ false }
    ensures { IsAsked (K.meaning lock.now.origin.job) lock.now.origin.cache.budget call wait class key pass.old pass.new result }
{
    for _turn in rt.forever() {
        if let Some(asked) = try_ask(rt, alloc, lock, pass, call, wait, class, key) {
            return asked;
        }
        thread::yield_now();
    }
    unreachable!()
}

// Whether the pass computes the value.
pub(crate) fn is_owner<K: Keeps, R: Wait>(
    rt: &R,
    lock: &Lock<K>,
    pass: &mut Pass<State<K>>,
    class: u8,
    key: u128,
) -> bool
    requires own { IsOf lock.now pass.old }
    requires free { pass.old.taken ≡ None }
    ensures turned { (before : List Entry) × Turned lock.now.origin.cache.budget pass.old pass.new before [] }
    ensures owner { result ≡ computes class key false pass.old.mine }
{
    let number = TurnLock::number(pass);
    let (state, _place) = open(rt, lock, pass);
    let owner = state.is_owner(number, class, key);
    lock.put(pass, state);
    owner
}

// The value that the pass computed goes in. Answers its serial, which is the place of its entry.
pub(crate) fn finish<K: Keeps, R: Wait>(
    rt: &R,
    lock: &Lock<K>,
    pass: &mut Pass<State<K>>,
    class: u8,
    key: u128,
    size: u32,
    value: Arc<K::Value>,
) -> u64
    requires own { IsOf lock.now pass.old }
    requires free { pass.old.taken ≡ None }
    requires turn { computes class key false pass.old.mine ≡ true }
    requires right { K.meaning lock.now.origin.job class key ≡ Some (arc_value value) }
    ensures turned { (before : List Entry) × Evicting lock.now.origin.cache.budget pass.old pass.new before (entry_of pass.old.number class key (Finish result size)) × (result ≡ length before) }
{
    let number = TurnLock::number(pass);
    let (mut state, _place) = open(rt, lock, pass);
    let serial = state.finish(number, class, key, size, value);
    lock.put(pass, state);
    serial
}

// The pass gives its computation up.
pub(crate) fn abandon<K: Keeps, R: Wait>(
    rt: &R,
    lock: &Lock<K>,
    pass: &mut Pass<State<K>>,
    class: u8,
    key: u128,
)
    requires own { IsOf lock.now pass.old }
    requires free { pass.old.taken ≡ None }
    requires turn { computes class key false pass.old.mine ≡ true }
    ensures turned { (before : List Entry) × Turned lock.now.origin.cache.budget pass.old pass.new before (entry_of pass.old.number class key Abandon ∷ []) }
{
    let number = TurnLock::number(pass);
    let (mut state, _place) = open(rt, lock, pass);
    state.abandon(number, class, key);
    lock.put(pass, state);
}

// The pass gives a value back. Only contracts see which serial it had.
pub(crate) fn give<K: Keeps, R: Wait>(
    rt: &R,
    lock: &Lock<K>,
    pass: &mut Pass<State<K>>,
    class: u8,
    key: u128,
    serial: u64,
)
    requires own { IsOf lock.now pass.old }
    requires free { pass.old.taken ≡ None }
    requires held { IsOpen class key serial pass.old.mine }
    ensures turned { (before : List Entry) × Evicting lock.now.origin.cache.budget pass.old pass.new before (entry_of pass.old.number class key (Give serial)) }
{
    let number = TurnLock::number(pass);
    let (mut state, _place) = open(rt, lock, pass);
    state.give(number, class, key);
    lock.put(pass, state);
}
