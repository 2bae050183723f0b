//! Nested compositions: which projects may have them, and ranks. All answers were worked by hand.

use crate::plain::{SOLID, checked, comp, made};
use project_model::{CheckError, Item, NodeId, Project};
use std::alloc::Global;
use std::process::Abort;
use std::test::Fail;

/// What the layers of each composition show, and the rule that is broken with its composition and its layer, if one is.
struct Row {
    comps: &'static [&'static [Item]],
    broken: Option<(u8, Option<u32>, Option<u32>)>,
}

fn project_of(alloc: Global, comps: &[&[Item]]) -> Result<Result<Project, CheckError>, Fail> {
    let mut plain = Vec::new(alloc);
    for sources in comps {
        plain.push(comp(alloc, sources)?)?;
    }
    made(alloc, Vec::new(alloc), plain)
}

fn answers(rt: &impl Abort, alloc: Global, rows: &[Row]) -> Result<(), Fail> {
    for row in rows {
        let want = row.broken.map(|(rule, comp, layer)| CheckError::RuleBroken {
            rule,
            comp,
            layer,
        });
        let got = project_of(alloc, row.comps)?.err();
        assert_eq!(rt; got, want, "{:?}", row.comps);
    }
    Ok(())
}

const INDICES: &[Row] = &[
    Row {
        comps: &[&[Item::Comp(1)], &[SOLID]],
        broken: None,
    },
    Row {
        comps: &[&[SOLID, Item::Comp(1)]],
        broken: Some((29, Some(0), Some(1))),
    },
    Row {
        comps: &[&[Item::Clip(0)]],
        broken: Some((28, Some(0), Some(0))),
    },
    Row {
        comps: &[&[Item::Comp(5)], &[SOLID, Item::Clip(0)]],
        broken: Some((28, Some(1), Some(1))),
    },
];

const CYCLES: &[Row] = &[
    Row {
        comps: &[
            &[Item::Comp(1), Item::Comp(2)],
            &[Item::Comp(3)],
            &[Item::Comp(3)],
            &[],
        ],
        broken: None,
    },
    Row {
        comps: &[&[Item::Comp(0)]],
        broken: Some((30, Some(0), None)),
    },
    Row {
        comps: &[&[SOLID, Item::Comp(1)], &[Item::Comp(1)]],
        broken: Some((30, Some(1), None)),
    },
    Row {
        comps: &[
            &[Item::Comp(2)],
            &[Item::Comp(3)],
            &[Item::Comp(3)],
            &[SOLID, Item::Comp(1)],
        ],
        broken: Some((30, Some(1), None)),
    },
    Row {
        comps: &[
            &[Item::Comp(1)],
            &[Item::Comp(2)],
            &[Item::Comp(3)],
            &[Item::Comp(0)],
        ],
        broken: Some((30, Some(0), None)),
    },
    Row {
        comps: &[&[Item::Comp(0), Item::Comp(1)]],
        broken: Some((29, Some(0), Some(1))),
    },
];

#[test]
fn compositions_may_be_nested_without_cycles(rt: HostRuntime) -> Result<(), Fail> {
    answers(&rt, rt.alloc(), INDICES)?;
    answers(&rt, rt.alloc(), CYCLES)
}

/// Each composition but the last nests the next one.
fn chain(alloc: Global, count: u32) -> Result<Result<Project, CheckError>, Fail> {
    let mut comps = Vec::new(alloc);
    for next in 1..count {
        comps.push(comp(alloc, &[Item::Comp(next)])?)?;
    }
    comps.push(comp(alloc, &[])?)?;
    made(alloc, Vec::new(alloc), comps)
}

/// The last one nests the first again.
fn ring(alloc: Global, count: u32) -> Result<Result<Project, CheckError>, Fail> {
    let mut comps = Vec::new(alloc);
    for next in 1..count {
        comps.push(comp(alloc, &[Item::Comp(next)])?)?;
    }
    comps.push(comp(alloc, &[Item::Comp(0)])?)?;
    made(alloc, Vec::new(alloc), comps)
}

fn rank(project: &Project, alloc: Global, node: NodeId) -> Result<u32, Fail> {
    let ranks = checked(alloc, project).map_err(|_| "ranks")?;
    Ok(ranks.of(node))
}

#[test]
fn the_most_compositions_may_be_nested_in_one_another(rt: HostRuntime) -> Result<(), Fail> {
    let alloc = rt.alloc();
    let project = chain(alloc, 64)?.map_err(|_| "a project")?;
    assert_eq!(rt; rank(&project, alloc, NodeId::Stack { comp: 63 })?, 1);
    assert_eq!(rt; rank(&project, alloc, NodeId::Stack { comp: 0 })?, 127);
    assert_eq!(rt;
        rank(&project, alloc, NodeId::Source { comp: 0, layer: 0 })?,
        126
    );
    let broken = CheckError::RuleBroken {
        rule: 30,
        comp: Some(0),
        layer: None,
    };
    assert_eq!(rt; ring(alloc, 64)?.err(), Some(broken));
    Ok(())
}

const RANKED: &[&[Item]] = &[
    &[Item::Comp(1), SOLID],
    &[SOLID, Item::Comp(2), Item::Comp(3)],
    &[],
    &[SOLID],
];

const RANKS: &[(NodeId, u32)] = &[
    (NodeId::Stack { comp: 2 }, 1),
    (NodeId::Stack { comp: 3 }, 1),
    (NodeId::Source { comp: 3, layer: 0 }, 0),
    (NodeId::Source { comp: 1, layer: 0 }, 0),
    (NodeId::Source { comp: 1, layer: 1 }, 2),
    (NodeId::Source { comp: 1, layer: 2 }, 2),
    (NodeId::Stack { comp: 1 }, 3),
    (NodeId::Source { comp: 0, layer: 0 }, 4),
    (NodeId::Source { comp: 0, layer: 1 }, 0),
    (NodeId::Stack { comp: 0 }, 5),
    (NodeId::Source { comp: 0, layer: 2 }, 0),
    (NodeId::Source { comp: 4, layer: 0 }, 0),
    (NodeId::Stack { comp: 4 }, 0),
];

#[test]
fn ranks_are_above_what_is_drawn_from(rt: HostRuntime) -> Result<(), Fail> {
    let project = project_of(rt.alloc(), RANKED)?.map_err(|_| "a project")?;
    let ranks = checked(rt.alloc(), &project).map_err(|_| "ranks")?;
    for (node, rank) in RANKS {
        assert_eq!(rt; ranks.of(*node), *rank, "{node:?}");
    }
    Ok(())
}
