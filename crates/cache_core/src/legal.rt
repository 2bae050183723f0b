// Whether an entry steps, by a scan of the rows.
ghost use Rattle.std.specs.Prelude.{◌≡◌, ◌+◌, ◌*◌, ◌<◌, ◌^◌, IsSome, IfSome, length, option_copied, position, find, slice_get, option_map, ℕ};
ghost use Rattle.cache_core.specs.Rows.{is_named, state_of, live_bytes, first_idle, is_idle};
ghost use Rattle.cache_core.specs.Core.{Core, is_settled, is_next_out, fits, may_step};

use crate::entry::{Act, Entry};
use crate::row::{Row, State};

// Whether the row is that of the class and key.
pub(crate) fn is_named(row: &Row, class: u8, key: u128) -> bool
    ensures { result ≡ is_named class key row.now }
{
    row.class == class && row.key == key
}

// The place of the row of a class and key.
pub(crate) fn place_of(rows: &[Row], class: u8, key: u128) -> Option<usize>
    ensures { result ≡ position (is_named class key) rows.now }
{
    rows.iter().position(|row| is_named(row, class, key))
}

// The state of the row of a class and key.
pub(crate) fn state_of(rows: &[Row], class: u8, key: u128) -> Option<&State>
    ensures { option_copied result ≡ state_of class key rows.now }
{
    let row = rows.iter().find(|row| is_named(row, class, key))?;
    Some(&row.state)
}

// The first idle row.
pub(crate) fn first_idle(rows: &[Row]) -> Option<&Row>
    ensures { option_copied result ≡ first_idle rows.now }
{
    rows.iter().find(|row| row.state.is_idle())
}

// The sizes of the Live rows, added up.
pub(crate) fn live_bytes(rows: &[Row]) -> u128
    ensures { result ≡ live_bytes rows.now }
{
    let mut bytes: u128 = 0;
    for row in rows {
        bytes += u128::from(row.state.size());
    }
    bytes
}

// Whether live bytes are at most the budget, or no row is idle.
pub(crate) fn is_settled(budget: u64, rows: &[Row]) -> bool
    ensures { result ≡ is_settled budget rows.now }
{
    live_bytes(rows) <= u128::from(budget) || first_idle(rows).is_none()
}

// Whether the first idle row is that of the class and key, with this serial.
fn is_next_out(rows: &[Row], class: u8, key: u128, serial: u64) -> bool
    ensures { result ≡ is_next_out class key serial rows.now }
{
    match first_idle(rows) {
        Some(row) => is_named(row, class, key) && row.state.is_live(serial),
        None => false,
    }
}

// Whether an act of a pass may be made in a settled core, where the row of its class and key is in this state.
fn fits(act: Act, pass: u32, count: u64, state: Option<&State>) -> bool
    ensures { result ≡ fits pass count act (option_copied state.entry) }
{
    match (act, state) {
        (Act::Start | Act::NotCached, found) => found.is_none(),
        (Act::Hit { serial }, Some(state)) => state.is_live(serial),
        (Act::Pending { owner }, Some(state)) => state.is_running(owner) && owner != pass,
        (Act::Finish { serial, .. }, Some(state)) => state.is_running(pass) && serial == count,
        (Act::Abandon, Some(state)) => state.is_running(pass),
        (Act::Give { serial }, Some(state)) => state.is_live(serial) && state.is_held_by(pass),
        _ => false,
    }
}

// Whether the entry steps.
pub(crate) fn may_step(budget: u64, count: u64, rows: &[Row], entry: &Entry) -> bool
    ensures { result ≡ may_step (record { budget = budget; count = count; rows = rows.now }) entry.now }
{
    let settled = is_settled(budget, rows);
    match entry.act {
        Act::Evict { serial } => !settled && is_next_out(rows, entry.class, entry.key, serial),
        act => settled
            && fits(
                act,
                entry.pass,
                count,
                state_of(rows, entry.class, entry.key),
            ),
    }
}
