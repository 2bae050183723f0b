use crate::{Act, Core, CoreError, Entry, ReplayError, legal, replay};
use std::test::Fail;

const A: u128 = 10;

const B: u128 = 11;

fn entry(pass: u32, key: u128, act: Act) -> Entry {
    Entry {
        pass,
        class: 0,
        key,
        act,
    }
}

// Two values of size 60 within a budget of 100, given back in the other order.
fn two_values() -> [Entry; 7] {
    [
        entry(0, A, Act::Start),
        entry(
            0,
            A,
            Act::Finish {
                serial: 1,
                size: 60,
            },
        ),
        entry(0, B, Act::Start),
        entry(
            0,
            B,
            Act::Finish {
                serial: 3,
                size: 60,
            },
        ),
        entry(0, B, Act::Give { serial: 3 }),
        entry(0, B, Act::Evict { serial: 3 }),
        entry(0, A, Act::Give { serial: 1 }),
    ]
}

#[test]
fn second_start_is_illegal(rt: HostRuntime) {
    let entries = [entry(0, A, Act::Start), entry(0, A, Act::Start)];
    let refused = replay(rt.alloc(), 100, &entries);
    assert!(rt; matches!(refused, Err(ReplayError::Illegal { at: 1 })));
}

#[test]
fn one_idle_row_is_left(rt: HostRuntime) -> Result<(), Fail> {
    let core = replay(rt.alloc(), 100, &two_values())?;
    assert_eq!(rt; core.rows().len(), 1);
    let row = &core.rows()[0];
    assert_eq!(rt; row.key, A);
    assert!(rt; row.state.is_idle());
    assert!(rt; row.state.is_live(1));
    assert_eq!(rt; legal::live_bytes(core.rows()), 60);
    Ok(())
}

// After some entries of `two_values`, whether one more of a pass steps.
#[test]
fn entries_step_or_not(rt: HostRuntime) -> Result<(), Fail> {
    let cases = [
        (0, 0, A, Act::Start, true),
        (0, 0, A, Act::NotCached, true),
        (0, 0, A, Act::Hit { serial: 0 }, false),
        (0, 0, A, Act::Abandon, false),
        (1, 1, A, Act::Start, false),
        (1, 1, A, Act::NotCached, false),
        (1, 1, A, Act::Pending { owner: 0 }, true),
        (1, 1, A, Act::Pending { owner: 1 }, false),
        (1, 0, A, Act::Pending { owner: 0 }, false),
        (1, 0, A, Act::Abandon, true),
        (1, 1, A, Act::Abandon, false),
        (1, 0, A, Act::Finish { serial: 1, size: 0 }, true),
        (1, 0, A, Act::Finish { serial: 0, size: 0 }, false),
        (1, 1, A, Act::Finish { serial: 1, size: 0 }, false),
        (2, 1, A, Act::Hit { serial: 1 }, true),
        (2, 1, A, Act::Hit { serial: 0 }, false),
        (2, 1, A, Act::Give { serial: 1 }, false),
        (2, 0, A, Act::Give { serial: 1 }, true),
        (2, 0, A, Act::Evict { serial: 1 }, false),
        (4, 0, A, Act::Evict { serial: 1 }, false),
        (5, 0, B, Act::Evict { serial: 3 }, true),
        (5, 0, B, Act::Evict { serial: 1 }, false),
        (5, 0, A, Act::Give { serial: 1 }, false),
        (5, 1, 12, Act::Start, false),
        (7, 0, A, Act::Evict { serial: 1 }, false),
        (7, 1, B, Act::NotCached, true),
    ];
    for (before, pass, key, act, steps) in cases {
        let history = two_values();
        let mut core = replay(rt.alloc(), 100, history.get(..before).ok_or("too many")?)?;
        let answer = core.apply(rt.alloc(), &entry(pass, key, act));
        assert_eq!(rt; answer.is_ok(), steps, "{act:?} of {pass} after {before}");
        assert_eq!(rt; answer == Err(CoreError::Illegal), !steps);
    }
    Ok(())
}

// A touched row goes last, so that the other is the first to leave.
#[test]
fn hit_goes_last(rt: HostRuntime) -> Result<(), Fail> {
    let mut core = Core::new(rt.alloc(), 20);
    let entries = [
        entry(0, A, Act::Start),
        entry(
            0,
            A,
            Act::Finish {
                serial: 1,
                size: 10,
            },
        ),
        entry(0, B, Act::Start),
        entry(
            0,
            B,
            Act::Finish {
                serial: 3,
                size: 10,
            },
        ),
        entry(0, A, Act::Give { serial: 1 }),
        entry(0, B, Act::Give { serial: 3 }),
        entry(1, A, Act::Hit { serial: 1 }),
        entry(1, A, Act::Give { serial: 1 }),
    ];
    for made in entries {
        core.apply(rt.alloc(), &made)?;
    }
    let keys = core
        .rows()
        .iter()
        .map(|row| row.key)
        .collect::<Vec<u128>>(rt.alloc())?;
    assert_eq!(rt; keys.as_slice(), [B, A].as_slice());
    Ok(())
}
