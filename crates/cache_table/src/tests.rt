ghost use Rattle.std.specs.Prelude.{◌≡◌};
ghost use Rattle.cache_core.specs.Core.{is_in};
ghost use Rattle.cache_core.specs.Rows.{is_held_by};
ghost use Rattle.cache_table.specs.Cache.{state_at};

use crate::{Seen, Table};
use cache_core::{Act, Core, Entry, State};
use host_io::Memory;
use std::alloc::Global;
use std::sync::Arc;
use std::test::Fail;
use std::thread;
use std::thread::Threads;

const A: u128 = 10;

const B: u128 = 11;

fn entry(pass: u32, key: u128, act: Act) -> Entry
    ensures { result ≡ record { pass = pass; class = 0; key = key; act = act } }
{
    Entry {
        pass,
        class: 0,
        key,
        act,
    }
}

// Starts, where there is no row.
fn begin(alloc: Global, table: &mut Table<u32>, pass: u32, key: u128) -> Result<bool, Memory> {
    match table.look(0, key) {
        Seen::No => {
            table.start(alloc, pass, 0, key)?;
            Ok(true)
        }
        _ => Ok(false),
    }
}

// Finishes, where the pass computes the value.
fn end(table: &mut Table<u32>, pass: u32, key: u128, size: u32, value: Arc<u32>) -> Option<u64> {
    match table.look(0, key) {
        Seen::Running { owner } if owner == pass => {
            Some(table.finish(pass, 0, key, size, value))
        }
        _ => None,
    }
}

// Gives up, where the pass computes the value.
fn drop_out(table: &mut Table<u32>, pass: u32, key: u128) -> bool {
    match table.look(0, key) {
        Seen::Running { owner } if owner == pass => {
            table.abandon(pass, 0, key);
            true
        }
        _ => false,
    }
}

// Takes, where there is a value.
fn hit(
    alloc: Global,
    table: &mut Table<u32>,
    pass: u32,
    key: u128,
) -> Result<Option<(u64, Arc<u32>)>, Memory> {
    match table.look(0, key) {
        Seen::Live { .. } => Ok(Some(table.take(alloc, pass, 0, key)?)),
        _ => Ok(None),
    }
}

// Whether the pass holds the value.
fn is_held(table: &Table<u32>, pass: u32, key: u128) -> bool
    ensures { result ≡ is_in (is_held_by pass) (state_at 0 key table.now) }
{
    table.ledger.is_held(0, key, pass)
}

// Gives back, where the pass holds the value.
fn back(table: &mut Table<u32>, pass: u32, key: u128) -> bool {
    let held = is_held(table, pass, key);
    if held {
        table.give(pass, 0, key);
    }
    held
}

// Notes that there is no row, where there is none.
fn miss(alloc: Global, table: &mut Table<u32>, pass: u32, key: u128) -> Result<bool, Memory> {
    match table.look(0, key) {
        Seen::No => {
            table.note(alloc, entry(pass, key, Act::NotCached))?;
            Ok(true)
        }
        _ => Ok(false),
    }
}

#[test]
fn two_values_of_which_one_fits(rt: HostRuntime) -> Result<(), Fail> {
    let mut table = Table::new(rt.alloc(), 100)?;
    assert!(rt; begin(rt.alloc(), &mut table, 0, A)?);
    let first = Arc::new(rt.alloc(), 7)?;
    assert_eq!(rt; end(&mut table, 0, A, 60, first), Some(1));
    assert!(rt; begin(rt.alloc(), &mut table, 0, B)?);
    let second = Arc::new(rt.alloc(), 8)?;
    assert_eq!(rt; end(&mut table, 0, B, 60, second), Some(3));
    assert!(rt; back(&mut table, 0, B));
    assert!(rt; back(&mut table, 0, A));
    let want = [
        entry(0, A, Act::Start),
        entry(
            0,
            A,
            Act::Finish {
                serial: 1,
                size: 60,
            },
        ),
        entry(0, B, Act::Start),
        entry(
            0,
            B,
            Act::Finish {
                serial: 3,
                size: 60,
            },
        ),
        entry(0, B, Act::Give { serial: 3 }),
        entry(0, B, Act::Evict { serial: 3 }),
        entry(0, A, Act::Give { serial: 1 }),
    ];
    assert_eq!(rt; table.history().len(), want.len());
    for (made, wanted) in table.history().iter().zip(want.iter()) {
        assert!(rt; *made == *wanted);
    }
    assert_eq!(rt; table.look(0, B), Seen::No);
    assert_eq!(rt; table.look(0, A), Seen::Live { serial: 1 });
    let (serial, value) = hit(rt.alloc(), &mut table, 1, A)?.ok_or("no value")?;
    assert_eq!(rt; serial, 1);
    assert_eq!(rt; *value, 7);
    Ok(())
}

#[test]
fn nothing_is_kept_without_budget(rt: HostRuntime) -> Result<(), Fail> {
    let mut table = Table::new(rt.alloc(), 0)?;
    assert!(rt; miss(rt.alloc(), &mut table, 2, A)?);
    assert!(rt; begin(rt.alloc(), &mut table, 0, A)?);
    assert!(rt; drop_out(&mut table, 0, A));
    assert!(rt; begin(rt.alloc(), &mut table, 0, A)?);
    let value = Arc::new(rt.alloc(), 7)?;
    assert_eq!(rt; end(&mut table, 0, A, 60, value), Some(4));
    assert_eq!(rt; table.look(0, A), Seen::Live { serial: 4 });
    assert!(rt; back(&mut table, 0, A));
    assert_eq!(rt; table.look(0, A), Seen::No);
    assert_eq!(rt; table.history().len(), 7);
    Ok(())
}

// What the core's rows show of a key.
fn shown(core: &Core, key: u128) -> Seen {
    for row in core.rows() {
        if row.key == key {
            return match &row.state {
                State::Running { owner } => Seen::Running { owner: *owner },
                State::Live { serial, .. } => Seen::Live { serial: *serial },
            };
        }
    }
    Seen::No
}

// One call of a pass on a key, chosen by a number.
fn call(
    alloc: Global,
    table: &mut Table<u32>,
    turn: u32,
    pass: u32,
    key: u128,
) -> Result<(), Memory> {
    match table.look(0, key) {
        Seen::No if turn % 13 == 0 => {
            miss(alloc, table, pass, key)?;
        }
        Seen::No => {
            begin(alloc, table, pass, key)?;
        }
        Seen::Running { owner } if turn % 11 == 0 => {
            drop_out(table, owner, key);
        }
        Seen::Running { owner } => {
            end(table, owner, key, turn % 5 * 20, Arc::new(alloc, turn)?);
        }
        Seen::Live { .. } => {
            if !back(table, pass, key) {
                hit(alloc, table, pass, key)?;
            }
        }
    }
    Ok(())
}

#[test]
fn calls_agree_with_the_core(rt: HostRuntime) -> Result<(), Fail> {
    let mut table = Table::new(rt.alloc(), 100)?;
    let mut core = Core::new(rt.alloc(), 100);
    let mut seen = 0;
    let mut evicts: u32 = 0;
    for turn in 0..400u32 {
        let pass = turn.wrapping_mul(7) / 3 % 3;
        let key = u128::from(turn.wrapping_mul(5) / 2 % 7);
        call(rt.alloc(), &mut table, turn, pass, key)?;
        for made in table.history().get(seen..).ok_or("fewer entries")? {
            core.apply(rt.alloc(), made)?;
            if matches!(made.act, Act::Evict { .. }) {
                evicts = evicts.saturating_add(1);
            }
        }
        seen = table.history().len();
        for key in 0..7u32 {
            let key = u128::from(key);
            assert_eq!(rt;
                table.look(0, key),
                shown(&core, key),
                "of {key} after {turn}"
            );
        }
    }
    assert!(rt; evicts > 20);
    Ok(())
}

// A row of the plain list.
#[derive(Drop)]
struct Old {
    key: u128,
    owner: Option<u32>,
    serial: u64,
    size: u32,
    holders: Vec<u32>,
}

// The rows in a plain list, the least recently touched first: a touched row is taken out and put last.
#[derive(Drop)]
struct Plain {
    rows: Vec<Old>,
    history: Vec<Entry>,
}

// The row of a key, out of the list.
fn pull(rows: &mut Vec<Old>, key: u128) -> Option<Old> {
    let place = rows.iter().position(|row| row.key == key)?;
    if place < rows.len() {
        Some(rows.remove(place))
    } else {
        None
    }
}

// One hold of the pass less, if there is one.
fn let_go(holders: &mut Vec<u32>, pass: u32) -> bool {
    match holders.iter().position(|holder| *holder == pass) {
        Some(place) if place < holders.len() => {
            let _pass = holders.remove(place);
            true
        }
        _ => false,
    }
}

fn total(rows: &[Old]) -> u64 {
    let mut total: u64 = 0;
    for row in rows {
        total = total.saturating_add(u64::from(row.size));
    }
    total
}

// The key of the first row that no pass holds or computes.
fn first_free(rows: &[Old]) -> Option<u128> {
    for row in rows {
        if row.owner.is_none() && row.holders.is_empty() {
            return Some(row.key);
        }
    }
    None
}

// The first rows that no pass holds go until the others fit.
fn shrink(plain: &mut Plain, budget: u64, pass: u32) -> Result<(), Memory> {
    for _ in 0..plain.rows.len() {
        if total(&plain.rows) <= budget {
            return Ok(());
        }
        let Some(key) = first_free(&plain.rows) else {
            return Ok(());
        };
        if let Some(row) = pull(&mut plain.rows, key) {
            let serial = row.serial;
            plain.history.push(entry(pass, key, Act::Evict { serial }))?;
        }
    }
    Ok(())
}

// One call over the plain list, of a row that is there.
fn plain_touch(plain: &mut Plain, turn: u32, pass: u32, mut row: Old) -> Result<(), Memory> {
    let key = row.key;
    let serial = row.serial;
    match row.owner {
        Some(owner) if turn % 11 == 0 => {
            plain.history.push(entry(owner, key, Act::Abandon))?;
        }
        Some(owner) => {
            let size = turn % 5 * 20;
            let serial = plain.history.len() as u64;
            plain
                .history
                .push(entry(owner, key, Act::Finish { serial, size }))?;
            row.owner = None;
            row.serial = serial;
            row.size = size;
            row.holders.push(owner)?;
            plain.rows.push(row)?;
            shrink(plain, 100, owner)?;
        }
        None => {
            if let_go(&mut row.holders, pass) {
                plain.history.push(entry(pass, key, Act::Give { serial }))?;
                plain.rows.push(row)?;
                shrink(plain, 100, pass)?;
            } else {
                plain.history.push(entry(pass, key, Act::Hit { serial }))?;
                row.holders.push(pass)?;
                plain.rows.push(row)?;
            }
        }
    }
    Ok(())
}

// One call over the plain list.
fn plain_call(
    alloc: Global,
    plain: &mut Plain,
    turn: u32,
    pass: u32,
    key: u128,
) -> Result<(), Memory> {
    match pull(&mut plain.rows, key) {
        Some(row) => plain_touch(plain, turn, pass, row)?,
        None if turn % 13 == 0 => {
            plain.history.push(entry(pass, key, Act::NotCached))?;
        }
        None => {
            plain.history.push(entry(pass, key, Act::Start))?;
            plain.rows.push(Old {
                key,
                owner: Some(pass),
                serial: 0,
                size: 0,
                holders: Vec::new(alloc),
            })?;
        }
    }
    Ok(())
}

// The same calls over the table and over a plain list make one history.
#[test]
fn calls_agree_with_a_plain_list(rt: HostRuntime) -> Result<(), Fail> {
    let mut table = Table::new(rt.alloc(), 100)?;
    let mut plain = Plain {
        rows: Vec::new(rt.alloc()),
        history: Vec::new(rt.alloc()),
    };
    let mut state: u32 = 1;
    for turn in 0..600u32 {
        state = state.wrapping_mul(1664525).wrapping_add(1013904223);
        let pass = state / 256 % 3;
        let key = u128::from(state / 65536 % 9);
        call(rt.alloc(), &mut table, turn, pass, key)?;
        plain_call(rt.alloc(), &mut plain, turn, pass, key)?;
    }
    assert_eq!(rt; table.history().len(), plain.history.len());
    let mut evicts: u32 = 0;
    for (made, wanted) in table.history().iter().zip(plain.history.iter()) {
        assert!(rt; *made == *wanted);
        if matches!(wanted.act, Act::Evict { .. }) {
            evicts = evicts.saturating_add(1);
        }
    }
    assert!(rt; evicts > 20);
    Ok(())
}

// The table's holds on a value, which end when the value leaves.
#[test]
fn values_that_leave_are_dropped(rt: HostRuntime) -> Result<(), Fail> {
    let mut table = Table::new(rt.alloc(), 100)?;
    let first = Arc::new(rt.alloc(), 7)?;
    let second = Arc::new(rt.alloc(), 8)?;
    assert!(rt; begin(rt.alloc(), &mut table, 0, A)?);
    assert_eq!(rt; end(&mut table, 0, A, 60, Arc::try_clone(&first)?), Some(1));
    assert_eq!(rt; Arc::strong_count(&first), 2);
    assert!(rt; back(&mut table, 0, A));
    assert_eq!(rt; Arc::strong_count(&first), 2);
    assert!(rt; begin(rt.alloc(), &mut table, 0, B)?);
    assert_eq!(rt;
        end(&mut table, 0, B, 60, Arc::try_clone(&second)?),
        Some(4)
    );
    assert_eq!(rt; Arc::strong_count(&first), 1);
    assert_eq!(rt; Arc::strong_count(&second), 2);
    assert!(rt; begin(rt.alloc(), &mut table, 0, A)?);
    assert!(rt; drop_out(&mut table, 0, A));
    drop(table);
    assert_eq!(rt; Arc::strong_count(&second), 1);
    Ok(())
}

// A table is made in one thread, used in another and handed back.
#[test]
fn table_moves_between_threads(rt: HostRuntime) -> Result<(), Fail> {
    let mut table = Table::new(rt.alloc(), 100)?;
    assert!(rt; begin(rt.alloc(), &mut table, 0, A)?);
    let value = Arc::new(rt.alloc(), 7)?;
    let child = thread::spawn(&rt, move || {
        let serial = end(&mut table, 0, A, 60, value);
        (table, serial)
    });
    let Ok(child) = child else {
        return Err(Fail::from("no thread"));
    };
    let (table, serial) = child.join(&rt);
    assert_eq!(rt; serial, Some(1));
    assert_eq!(rt; table.look(0, A), Seen::Live { serial: 1 });
    Ok(())
}
