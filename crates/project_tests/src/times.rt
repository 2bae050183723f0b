ghost use Rattle.std.specs.Prelude.{◌≡◌};

use rational_time::{Tick, Time, TimeBase, compare, frame_of, frame_tick, held, to_tick};
use std::cmp::Ordering;

fn time(value: i32, scale: u32) -> Time
    ensures { result ≡ record { value = value; scale = scale } }
{
    Time { value, scale }
}

#[test]
fn ticks(rt: HostRuntime) {
    let base = TimeBase { ticks: 30000 };
    assert_eq!(rt; to_tick(base, time(1001, 30000)), Tick(1001));
    assert_eq!(rt; to_tick(base, time(1, 24)), Tick(1250));
    assert_eq!(rt; to_tick(base, time(-36000, 1)), Tick(-1080000000));
    assert_eq!(rt; frame_tick(3, 1001), Tick(3003));
    assert_eq!(rt;
        frame_tick(65535, 77309411292000),
        Tick(5066472269021220000)
    );
    for (tick, want) in [
        (-1002, -2),
        (-1001, -1),
        (-1, -1),
        (0, 0),
        (1000, 0),
        (1001, 1),
    ] {
        assert_eq!(rt; frame_of(Tick(tick), 1001), want, "at {tick}");
    }
    assert_eq!(rt; frame_of(Tick(i64::MIN), 1), i64::MIN);
}

#[test]
fn limits_and_order(rt: HostRuntime) {
    let base = TimeBase { ticks: 2 };
    for (tick, want) in [
        (-72001, -72000),
        (-72000, -72000),
        (-71999, -71999),
        (71999, 71999),
        (72000, 72000),
        (72001, 72000),
    ] {
        assert_eq!(rt; held(base, tick), Tick(want), "at {tick}");
    }
    assert_eq!(rt; held(base, i128::MIN), Tick(-72000));
    assert_eq!(rt; held(base, i128::MAX), Tick(72000));
    assert_eq!(rt; compare(time(1, 2), time(2, 4)), Ordering::Equal);
    assert_eq!(rt; compare(time(-1, 2), time(-1, 3)), Ordering::Less);
    assert_eq!(rt;
        compare(time(i32::MAX, 1), time(i32::MIN, u32::MAX)),
        Ordering::Greater
    );
    assert!(rt; time(1, 2) != time(2, 4));
}
