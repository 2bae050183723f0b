ghost use Rattle.std.specs.Prelude.{unsigned_abs, ◌≤◌};
ghost use Rattle.param_stream.specs.Curve.{IsTimed};

use param_stream::{Ease, Keyframe, Stream, StreamError};
use rational_time::{Tick, Time, TimeBase};
use std::alloc::Global;
use std::test::Fail;

// A keyframe at a whole second, to be used over the base 1.
fn key(seconds: i32, value: i64, kind: Ease) -> Keyframe
    requires { unsigned_abs seconds ≤ 36000 }
    ensures { IsTimed 1 result }
{
    Keyframe {
        time: Time {
            value: seconds,
            scale: 1,
        },
        value,
        kind,
    }
}

// A keyframe at second 0 and one at another second, over the base 1, within -100..=100.
fn pair(
    alloc: Global,
    first: i64,
    second: i64,
    kind: Ease,
    seconds: i32,
) -> Result<Stream, StreamError>
    requires { unsigned_abs seconds ≤ 36000 }
{
    let start = key(0, first, kind);
    let end = key(seconds, second, Ease::Hold);
    match [start, end].to_vec(alloc) {
        Ok(keys) => Stream::new(alloc, TimeBase { ticks: 1 }, keys, -100, 100),
        Err(_) => Err(StreamError::Memory),
    }
}

#[test]
fn values(rt: HostRuntime) -> Result<(), Fail> {
    for (first, second, kind, want) in [
        (10, 0, Ease::Linear, [10, 10, 6, 3, 0, 0]),
        (0, 10, Ease::Linear, [0, 0, 3, 6, 10, 10]),
        (0, 10, Ease::Smooth, [0, 0, 2, 7, 10, 10]),
        (0, 10, Ease::Hold, [0, 0, 0, 0, 10, 10]),
        (0, -10, Ease::Linear, [0, 0, -4, -7, -10, -10]),
        (0, -10, Ease::Smooth, [0, 0, -3, -8, -10, -10]),
        (-1, 1, Ease::Linear, [-1, -1, -1, 0, 1, 1]),
    ] {
        let stream = pair(rt.alloc(), first, second, kind, 3)?;
        let [before, start, one, two, end, after] = want;
        for (tick, value) in [
            (-1, before),
            (0, start),
            (1, one),
            (2, two),
            (3, end),
            (4, after),
        ] {
            assert_eq!(rt;
                stream.at(Tick(tick)),
                value,
                "{first} to {second} at {tick}"
            );
        }
        assert_eq!(rt; stream.at(Tick(i64::MIN)), first);
        assert_eq!(rt; stream.at(Tick(i64::MAX)), second);
        assert_eq!(rt; stream.keys().len(), 2);
        assert_eq!(rt; stream.base().ticks, 1);
    }
    for (first, second, seconds, want) in [
        (0, 0, 0, StreamError::NotRising { index: 1 }),
        (0, 101, -1, StreamError::NotRising { index: 1 }),
        (-101, 101, 1, StreamError::OutOfRange { index: 0 }),
        (-100, 101, 1, StreamError::OutOfRange { index: 1 }),
    ] {
        match pair(rt.alloc(), first, second, Ease::Linear, seconds) {
            Ok(_) => assert!(rt; false, "{want:?}"),
            Err(refusal) => assert_eq!(rt; refusal, want),
        }
    }
    match Stream::new(
        rt.alloc(),
        TimeBase { ticks: 1 },
        Vec::new(rt.alloc()),
        0,
        0,
    ) {
        Ok(_) => assert!(rt; false, "no keyframe"),
        Err(refusal) => assert_eq!(rt; refusal, StreamError::Empty),
    }
    Ok(())
}
