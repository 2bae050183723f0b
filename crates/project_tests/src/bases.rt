use rational_time::{Time, TimeBase, TimeError, base_of};

fn time(value: i32, scale: u32) -> Time {
    Time { value, scale }
}

fn base(ticks: u32) -> Result<TimeBase, TimeError> {
    Ok(TimeBase { ticks })
}

#[test]
fn bases(rt: HostRuntime) {
    assert_eq!(rt; base_of(&[]), base(1));
    assert_eq!(rt; base_of(&[time(1001, 30000), time(1, 24)]), base(30000));
    assert_eq!(rt; base_of(&[time(1, 24), time(1001, 30000)]), base(30000));
    assert_eq!(rt; base_of(&[time(1, 4), time(-1, 6)]), base(12));
    assert_eq!(rt; base_of(&[time(36000, 1)]), base(1));
    assert_eq!(rt; base_of(&[time(-36000, 1)]), base(1));
    let large = base_of(&[time(1, 2147483647), time(1, 2)]);
    assert_eq!(rt; large, Err(TimeError::BaseTooLarge { index: 1 }));
    let one_large = base_of(&[time(0, 2147483648)]);
    assert_eq!(rt; one_large, Err(TimeError::BaseTooLarge { index: 0 }));
    assert_eq!(rt;
        base_of(&[time(1, 0)]),
        Err(TimeError::ZeroScale { index: 0 })
    );
    let far = base_of(&[time(36001, 1)]);
    assert_eq!(rt; far, Err(TimeError::TimeTooFar { index: 0 }));
    let first = base_of(&[time(1, 1), time(-72001, 2), time(1, 0)]);
    assert_eq!(rt; first, Err(TimeError::TimeTooFar { index: 1 }));
}
