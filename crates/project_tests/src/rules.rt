//! The rules on the numbers of compositions, through `Project::of_plain` and `check`, with places in a second composition. All
//! answers were worked by hand.

use crate::plain::{checked, of_parts};
use param_stream::{Ease, Keyframe};
use project_model::{CheckError, Collection, Item, PlainComp, PlainLayer, PlainProject, Project};
use rational_time::Time;
use std::alloc::{AllocError, Global};
use std::process::Abort;
use std::test::Fail;
use track_matte::Matte;
use transfer_mode::Mode;

/// What the cases change: the depth and the root, parts of the second composition and of its third layer, and the matte of the
/// layer above that one.
#[derive(Clone, Copy, Debug)]
struct Sample {
    depth: u32,
    root: u32,
    width: u32,
    frames: u32,
    frame: Time,
    alpha: u32,
    in_point: Time,
    mode: Option<Mode>,
    matte: Option<Matte>,
    above: Option<Matte>,
    opacity: i64,
    last_key: Time,
}

fn time(value: i32, scale: u32) -> Time {
    Time { value, scale }
}

/// It keeps all rules.
fn kept() -> Sample {
    Sample {
        depth: 8,
        root: 1,
        width: 4,
        frames: 2,
        frame: time(1, 24),
        alpha: 255,
        in_point: time(0, 1),
        mode: Some(Mode::Normal),
        matte: Some(Matte::None),
        above: Some(Matte::None),
        opacity: 10000,
        last_key: time(1, 24),
    }
}

fn key(time: Time, value: i64) -> Keyframe {
    Keyframe {
        time,
        value,
        kind: Ease::Linear,
    }
}

fn layer(alloc: Global, sample: Sample) -> Result<PlainLayer, AllocError> {
    let keys = vec![in alloc; key(time(0, 1), sample.opacity), key(sample.last_key, 0)]?;
    Ok(PlainLayer {
        source: Item::Solid {
            width: 1,
            height: 1,
            a: sample.alpha,
            r: 0,
            g: 0,
            b: 0,
        },
        start: time(0, 1),
        in_point: sample.in_point,
        out_point: None,
        mode: sample.mode,
        matte: sample.matte,
        opacity: Collection::from_vec(keys),
        x: Collection::from_vec(vec![in alloc; key(time(0, 1), 0)]?),
        y: Collection::from_vec(vec![in alloc; key(time(0, 1), 0)]?),
        effects: Collection::from_vec(Vec::new(alloc)),
    })
}

fn comp(alloc: Global, sample: Sample) -> Result<PlainComp, AllocError> {
    let above = Sample {
        matte: sample.above,
        ..kept()
    };
    let layers = vec![in alloc;
        layer(alloc, kept())?,
        layer(alloc, above)?,
        layer(alloc, sample)?,
    ]?;
    Ok(PlainComp {
        width: sample.width,
        height: 3,
        frame: sample.frame,
        frames: sample.frames,
        layers: Collection::from_vec(layers),
    })
}

/// What becomes of a project whose second composition is this.
fn made(alloc: Global, sample: Sample) -> Result<Result<Project, CheckError>, Fail> {
    let comps = vec![in alloc; comp(alloc, kept())?, comp(alloc, sample)?]?;
    of_parts(
        alloc,
        PlainProject {
            depth: sample.depth,
            root: sample.root,
            clips: Collection::from_vec(Vec::new(alloc)),
            comps: Collection::from_vec(comps),
        },
    )
}

fn broken(rule: u8, comp: Option<u32>, layer: Option<u32>) -> CheckError {
    CheckError::RuleBroken { rule, comp, layer }
}

/// Each of these samples is refused by the rule of its number, in this composition and layer.
fn refuses(
    rt: &impl Abort,
    alloc: Global,
    comp: Option<u32>,
    layer: Option<u32>,
    rows: &[(u8, Sample)],
) -> Result<(), Fail> {
    for (rule, sample) in rows {
        let want = broken(*rule, comp, layer);
        assert_eq!(rt; made(alloc, *sample)?.err(), Some(want), "{sample:?}");
    }
    Ok(())
}

#[test]
fn a_project_that_keeps_the_rules_is_made(rt: HostRuntime) -> Result<(), Fail> {
    let project = made(rt.alloc(), kept())?.map_err(|_| "a project")?;
    assert_eq!(rt;
        (project.base.ticks, project.comps.as_slice().len()),
        (24, 2)
    );
    assert_eq!(rt; checked(rt.alloc(), &project).err(), None);
    Ok(())
}

#[test]
fn a_project_in_hand_is_checked(rt: HostRuntime) -> Result<(), Fail> {
    let alloc = rt.alloc();
    let wide = Sample {
        depth: 16,
        alpha: 32768,
        ..kept()
    };
    let mut project = made(alloc, wide)?.map_err(|_| "a project")?;
    assert_eq!(rt; checked(alloc, &project).err(), None);
    project.depth = 8;
    assert_eq!(rt;
        checked(alloc, &project).err(),
        Some(broken(27, Some(1), Some(2)))
    );
    project.root = 2;
    assert_eq!(rt;
        checked(alloc, &project).err(),
        Some(broken(16, None, None))
    );
    Ok(())
}

#[test]
fn rules_without_a_place_are_told(rt: HostRuntime) -> Result<(), Fail> {
    let last_key = time(1, 2147483647);
    let rows = [
        (16, Sample { root: 2, ..kept() }),
        (25, Sample { last_key, ..kept() }),
    ];
    refuses(&rt, rt.alloc(), None, None, &rows)
}

#[test]
fn rules_are_told_in_their_composition(rt: HostRuntime) -> Result<(), Fail> {
    let (width, frames) = (4097, 65537);
    let [empty, far, long] = [time(0, 24), time(36001, 1), time(36000, 1)];
    let rows = [
        (19, Sample { width, ..kept() }),
        (21, Sample { frames, ..kept() }),
        (
            22,
            Sample {
                frame: empty,
                ..kept()
            },
        ),
        (
            23,
            Sample {
                frame: far,
                ..kept()
            },
        ),
        (
            24,
            Sample {
                frame: long,
                ..kept()
            },
        ),
    ];
    refuses(&rt, rt.alloc(), Some(1), None, &rows)
}

#[test]
fn rules_are_told_in_their_layer(rt: HostRuntime) -> Result<(), Fail> {
    let [far, late, zero] = [time(-36001, 1), time(3, 24), time(0, 7)];
    let rows = [
        (
            23,
            Sample {
                in_point: far,
                ..kept()
            },
        ),
        (
            27,
            Sample {
                alpha: 256,
                ..kept()
            },
        ),
        (
            27,
            Sample {
                depth: 16,
                alpha: 32769,
                ..kept()
            },
        ),
        (
            34,
            Sample {
                in_point: late,
                ..kept()
            },
        ),
        (
            35,
            Sample {
                last_key: zero,
                ..kept()
            },
        ),
        (
            36,
            Sample {
                opacity: 10001,
                ..kept()
            },
        ),
        (
            27,
            Sample {
                opacity: -1,
                alpha: 256,
                ..kept()
            },
        ),
    ];
    refuses(&rt, rt.alloc(), Some(1), Some(2), &rows)
}

/// The third layer of the second composition has this mode and this matte, and the layer above it that one.
fn mixed(mode: Option<Mode>, matte: Option<Matte>, above: Option<Matte>) -> Sample {
    Sample {
        mode,
        matte,
        above,
        ..kept()
    }
}

#[test]
fn modes_and_mattes_are_told_in_their_layer(rt: HostRuntime) -> Result<(), Fail> {
    let normal = Some(Mode::Normal);
    let [none, alpha, luma] = [Some(Matte::None), Some(Matte::Alpha), Some(Matte::Luma)];
    let transparent = Sample {
        alpha: 256,
        ..mixed(None, none, none)
    };
    let late = Sample {
        in_point: time(3, 24),
        ..mixed(normal, luma, alpha)
    };
    let rows = [
        (31, mixed(None, none, none)),
        (32, mixed(normal, None, none)),
        (33, mixed(normal, alpha, luma)),
        (27, transparent),
        (31, mixed(None, None, none)),
        (31, mixed(None, none, None)),
        (32, mixed(normal, None, luma)),
        (33, late),
    ];
    refuses(&rt, rt.alloc(), Some(1), Some(2), &rows)?;
    let rows = [
        (32, mixed(normal, none, None)),
        (32, mixed(normal, None, None)),
        (32, mixed(normal, alpha, None)),
    ];
    refuses(&rt, rt.alloc(), Some(1), Some(1), &rows)
}

/// Each of these samples keeps the rules.
fn keeps(rt: &impl Abort, alloc: Global, rows: &[Sample]) -> Result<(), Fail> {
    for sample in rows {
        assert!(rt; made(alloc, *sample)?.is_ok(), "{sample:?}");
    }
    Ok(())
}

#[test]
fn the_bounds_are_kept(rt: HostRuntime) -> Result<(), Fail> {
    let [frame, early, last] = [time(18000, 1), time(-36000, 1), time(2, 24)];
    let rows = [
        Sample { root: 0, ..kept() },
        Sample {
            width: 4096,
            ..kept()
        },
        Sample {
            frames: 65536,
            ..kept()
        },
        Sample { frame, ..kept() },
        Sample {
            in_point: early,
            ..kept()
        },
        Sample {
            in_point: last,
            ..kept()
        },
        Sample {
            opacity: 0,
            ..kept()
        },
        Sample {
            depth: 16,
            ..kept()
        },
        Sample {
            depth: 16,
            alpha: 256,
            ..kept()
        },
    ];
    keeps(&rt, rt.alloc(), &rows)
}

#[test]
fn modes_and_mattes_are_kept(rt: HostRuntime) -> Result<(), Fail> {
    let none = Some(Matte::None);
    let rows = [
        mixed(Some(Mode::SilhouetteLuma), none, none),
        mixed(Some(Mode::Add), Some(Matte::LumaInverted), none),
        mixed(Some(Mode::Add), none, Some(Matte::AlphaInverted)),
    ];
    keeps(&rt, rt.alloc(), &rows)
}
