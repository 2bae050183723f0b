// The rows after an act, by a scan of the rows.
ghost use Rattle.std.specs.Prelude.{◌≡◌, ◌+◌, ◌<◌, ◌++◌, ◌∷◌, [], OnOk, OnErr, vec_len, slice_index_or, position, remove, Some};
ghost use Rattle.cache_core.specs.Rows.{is_named, touched, without, row_in, held_by, released_by};
ghost use Rattle.cache_core.specs.Core.{rows_after};
ghost use Rattle.cache_core.specs.declared.row.State.TheVariants.{Running, Live};

use crate::entry::{Act, Entry};
use crate::holders::Holders;
use crate::legal;
use crate::row::{Row, State};
use std::alloc::{AllocError, Global};

// The row at a place goes last.
fn move_last(rows: &mut Vec<Row>, place: usize)
    requires { place < vec_len rows.old }
    ensures { rows.new.items ≡ remove rows.old.items place ++ slice_index_or rows.old.items place (row_in 0 0 (Running 0)) ∷ [] }
{
    let row = rows.remove(place);
    if rows.push(row).is_err() {
        unreachable!();
    }
}

// The row of the class and key, if there is one, goes.
fn take_out(rows: &mut Vec<Row>, class: u8, key: u128)
    ensures { rows.new.items ≡ without class key rows.old.items }
{
    if let Some(place) = legal::place_of(rows, class, key) {
        rows.remove(place);
    }
}

// One more hold of the pass; the row goes last.
fn hold(rows: &mut Vec<Row>, entry: &Entry) -> Result<(), AllocError>
    ensures ok { OnOk result (rows.new.items ≡ touched entry.now.class entry.now.key (held_by entry.now.pass) rows.old.items) }
    ensures err { OnErr result (rows.new.items ≡ rows.old.items) }
{
    if let Some(place) = legal::place_of(rows, entry.class, entry.key) {
        rows[place].state.hold(entry.pass)?;
        move_last(rows, place);
    }
    Ok(())
}

// One hold of the pass less; the row goes last.
fn release(rows: &mut Vec<Row>, entry: &Entry)
    ensures { rows.new.items ≡ touched entry.now.class entry.now.key (released_by entry.now.pass) rows.old.items }
{
    if let Some(place) = legal::place_of(rows, entry.class, entry.key) {
        rows[place].state.release(entry.pass);
        move_last(rows, place);
    }
}

// The row becomes Live, held by the pass once, and goes last.
fn finish(
    alloc: Global,
    rows: &mut Vec<Row>,
    entry: &Entry,
    serial: u64,
    size: u32,
) -> Result<(), AllocError>
    ensures ok { OnOk result (rows.new.items ≡ touched entry.now.class entry.now.key (λ _. Live serial size (entry.now.pass ∷ [])) rows.old.items) }
    ensures err { OnErr result (rows.new.items ≡ rows.old.items) }
{
    let mut holders = Holders::new(alloc);
    holders.add(entry.pass)?;
    if let Some(place) = legal::place_of(rows, entry.class, entry.key) {
        rows[place].state = State::Live {
            serial,
            size,
            holders,
        };
        move_last(rows, place);
    }
    Ok(())
}

// The rows after an entry that steps.
pub(crate) fn change(alloc: Global, rows: &mut Vec<Row>, entry: &Entry) -> Result<(), AllocError>
    ensures ok { OnOk result (rows.new.items ≡ rows_after entry.now.pass entry.now.class entry.now.key entry.now.act rows.old.items) }
    ensures err { OnErr result (rows.new.items ≡ rows.old.items) }
{
    match entry.act {
        Act::Start => {
            rows.push(Row {
                class: entry.class,
                key: entry.key,
                state: State::Running { owner: entry.pass },
            })?;
        }
        Act::Hit { .. } => hold(rows, entry)?,
        Act::Pending { .. } | Act::NotCached => {}
        Act::Finish { serial, size } => finish(alloc, rows, entry, serial, size)?,
        Act::Abandon | Act::Evict { .. } => take_out(rows, entry.class, entry.key),
        Act::Give { .. } => release(rows, entry),
    }
    Ok(())
}
