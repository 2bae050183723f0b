//! Which clips a project may declare. All answers were worked by hand.

use crate::plain::{SOLID, checked, comp, made};
use project_model::{CheckError, ClipUse, Item, Project, Text};
use rational_time::Time;
use std::alloc::{AllocError, Global};
use std::process::Abort;
use std::test::Fail;

/// A clip with the name, the width, the height, the depth, the value and the scale of a frame's length, and the frames.
struct Declared(&'static str, u32, u32, u8, i32, u32, u32);

fn clip(alloc: Global, declared: &Declared) -> Result<ClipUse, AllocError> {
    Ok(ClipUse {
        name: Text::from_string(String::from_str(alloc, declared.0)?),
        width: declared.1,
        height: declared.2,
        depth: declared.3,
        frame: Time {
            value: declared.4,
            scale: declared.5,
        },
        frames: declared.6,
    })
}

/// What becomes of a project of these clips and one layer.
fn project_of(
    alloc: Global,
    declared: &[Declared],
    source: Item,
) -> Result<Result<Project, CheckError>, Fail> {
    let mut clips = Vec::new(alloc);
    for one in declared {
        clips.push(clip(alloc, one)?)?;
    }
    made(alloc, clips, vec![in alloc; comp(alloc, &[source])?]?)
}

const FIRST: Declared = Declared("first", 4, 3, 8, 1, 24, 2);

/// A project of the clip `first` and this one.
fn beside(alloc: Global, declared: &Declared) -> Result<Result<Project, CheckError>, Fail> {
    let clips = vec![in alloc; clip(alloc, &FIRST)?, clip(alloc, declared)?]?;
    made(alloc, clips, vec![in alloc; comp(alloc, &[SOLID])?]?)
}

const KEPT: &[Declared] = &[
    Declared("a", 4, 3, 8, 1, 24, 2),
    Declared("azAZ09_-..", 1, 1, 16, 1, 24, 2),
    Declared("-", 4, 3, 8, 1, 24, 2),
    Declared(
        "0123456789012345678901234567890123456789012345678901234567890123",
        4,
        3,
        8,
        1,
        24,
        2,
    ),
    Declared("firsT", 4, 3, 8, 1, 24, 2),
    Declared("wide", 4096, 2160, 8, 1, 24, 2),
    Declared("high", 1, 4096, 8, 1, 24, 2),
    Declared("many", 1, 1, 8, 1, 24, 65536),
    Declared("long", 1, 1, 8, 36000, 1, 1),
    Declared("both", 1, 1, 8, 18000, 1, 2),
];

const BROKEN: &[(u8, Declared)] = &[
    (17, Declared("", 4, 3, 8, 1, 24, 2)),
    (17, Declared(".afr", 4, 3, 8, 1, 24, 2)),
    (17, Declared("../a", 4, 3, 8, 1, 24, 2)),
    (17, Declared("a/b", 4, 3, 8, 1, 24, 2)),
    (17, Declared("a b", 4, 3, 8, 1, 24, 2)),
    (17, Declared("@", 4, 3, 8, 1, 24, 2)),
    (17, Declared("[", 4, 3, 8, 1, 24, 2)),
    (17, Declared("`", 4, 3, 8, 1, 24, 2)),
    (17, Declared("{", 4, 3, 8, 1, 24, 2)),
    (17, Declared("a:", 4, 3, 8, 1, 24, 2)),
    (17, Declared("ä", 4, 3, 8, 1, 24, 2)),
    (
        17,
        Declared(
            "01234567890123456789012345678901234567890123456789012345678901234",
            4,
            3,
            8,
            1,
            24,
            2,
        ),
    ),
    (18, Declared("first", 1, 1, 16, 1, 25, 1)),
    (19, Declared("a", 0, 3, 8, 1, 24, 2)),
    (19, Declared("a", 4, 0, 8, 1, 24, 2)),
    (19, Declared("a", 4097, 1, 8, 1, 24, 2)),
    (19, Declared("a", 1, 4097, 8, 1, 24, 2)),
    (19, Declared("a", 4096, 2161, 8, 1, 24, 2)),
    (20, Declared("a", 4, 3, 0, 1, 24, 2)),
    (20, Declared("a", 4, 3, 32, 1, 24, 2)),
    (21, Declared("a", 4, 3, 8, 1, 24, 0)),
    (21, Declared("a", 4, 3, 8, 1, 24, 65537)),
    (22, Declared("a", 4, 3, 8, 0, 24, 2)),
    (22, Declared("a", 4, 3, 8, -1, 24, 2)),
    (23, Declared("a", 4, 3, 8, 36001, 1, 1)),
    (24, Declared("a", 4, 3, 8, 18001, 1, 2)),
    (25, Declared("a", 4, 3, 8, 1, 2147483647, 2)),
    (26, Declared("a", 4096, 2160, 8, 1, 24, 61)),
];

fn refuses(rt: &impl Abort, alloc: Global, rows: &[(u8, Declared)]) -> Result<(), Fail> {
    for (rule, declared) in rows {
        let want = CheckError::RuleBroken {
            rule: *rule,
            comp: None,
            layer: None,
        };
        assert_eq!(rt;
            beside(alloc, declared)?.err(),
            Some(want),
            "{}",
            declared.0
        );
    }
    Ok(())
}

fn keeps(rt: &impl Abort, alloc: Global, rows: &[Declared]) -> Result<(), Fail> {
    for declared in rows {
        let project = beside(alloc, declared)?.map_err(|_| "a project")?;
        assert_eq!(rt; checked(alloc, &project).err(), None, "{}", declared.0);
    }
    Ok(())
}

#[test]
fn clips_keep_the_rules(rt: HostRuntime) -> Result<(), Fail> {
    keeps(&rt, rt.alloc(), KEPT)?;
    refuses(&rt, rt.alloc(), BROKEN)
}

/// They declare 2,147,483,648 bytes: 116 of headers, and 536,870,883 pixels of four.
const MOST_BYTES: &[Declared] = &[
    Declared("a", 4096, 2, 8, 1, 24, 65535),
    Declared("b", 1, 1, 8, 1, 24, 8161),
    Declared("c", 1, 1, 8, 1, 24, 1),
    Declared("d", 1, 1, 8, 1, 24, 1),
];

/// They declare four more.
const MORE_BYTES: &[Declared] = &[
    Declared("a", 4096, 2, 8, 1, 24, 65535),
    Declared("b", 1, 1, 8, 1, 24, 8162),
    Declared("c", 1, 1, 8, 1, 24, 1),
    Declared("d", 1, 1, 8, 1, 24, 1),
];

#[test]
fn clips_are_named_and_counted(rt: HostRuntime) -> Result<(), Fail> {
    let alloc = rt.alloc();
    let broken = |rule, comp, layer| CheckError::RuleBroken { rule, comp, layer };
    let large = project_of(alloc, MORE_BYTES, SOLID)?;
    assert_eq!(rt; large.err(), Some(broken(26, None, None)));
    let absent = project_of(alloc, MOST_BYTES, Item::Clip(4))?;
    assert_eq!(rt; absent.err(), Some(broken(28, Some(0), Some(0))));
    let project = project_of(alloc, MOST_BYTES, Item::Clip(3))?.map_err(|_| "a project")?;
    assert_eq!(rt; checked(alloc, &project).err(), None);
    assert_eq!(rt; project.clips.as_slice().len(), 4);
    Ok(())
}
