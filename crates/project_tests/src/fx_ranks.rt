//! Ranks of effects' nodes, and how great they may be. All answers were worked by hand.

use crate::plain::{SOLID, comp_of, layer};
use crate::schemas::{Used, effects_of, schemas};
use project_model::{
    CheckError, Collection, Item, NodeId, PlainComp, PlainProject, Project, check,
};
use std::alloc::{AllocError, Global};
use std::test::Fail;

/// An effect without a layer parameter.
const PLAIN: Used = Used(0, &[&[(0, 0)], &[(0, 0)]], &[], Some(0));

/// What a layer shows, and its effects.
struct Row(Item, &'static [Used]);

fn comp_with(alloc: Global, rows: &[Row]) -> Result<PlainComp, AllocError> {
    let mut layers = Vec::new(alloc);
    for row in rows {
        let mut made = layer(alloc, row.0)?;
        made.effects = effects_of(alloc, row.1)?;
        layers.push(made)?;
    }
    Ok(comp_of(layers))
}

/// What becomes of a project of these compositions.
fn made(alloc: Global, comps: Vec<PlainComp>) -> Result<Result<Project, CheckError>, Fail> {
    let plain = PlainProject {
        depth: 8,
        root: 0,
        clips: Collection::from_vec(Vec::new(alloc)),
        comps: Collection::from_vec(comps),
    };
    if !plain.is_formed() {
        return Err("a form")?;
    }
    Ok(Project::of_plain(alloc, plain, &schemas(alloc)?))
}

const ROOT: &[Row] = &[
    Row(Item::Comp(1), &[Used(2, &[], &[1], Some(3))]),
    Row(SOLID, &[]),
    Row(SOLID, &[Used(2, &[], &[0], Some(3)), PLAIN]),
];

const NESTED: &[Row] = &[
    Row(SOLID, &[PLAIN, PLAIN, PLAIN]),
    Row(SOLID, &[Used(2, &[], &[0], Some(3))]),
    Row(SOLID, &[]),
];

const OWN: &[Row] = &[Row(Item::Comp(1), &[PLAIN, Used(2, &[], &[0], Some(3)), PLAIN])];

const RANKS: &[(NodeId, u32)] = &[
    (NodeId::Source { comp: 1, layer: 0 }, 0),
    (
        NodeId::Fx {
            comp: 1,
            layer: 0,
            index: 0,
        },
        1,
    ),
    (
        NodeId::Fx {
            comp: 1,
            layer: 0,
            index: 1,
        },
        2,
    ),
    (
        NodeId::Fx {
            comp: 1,
            layer: 0,
            index: 2,
        },
        3,
    ),
    (
        NodeId::Fx {
            comp: 1,
            layer: 1,
            index: 0,
        },
        1,
    ),
    (NodeId::Stack { comp: 1 }, 4),
    (NodeId::Source { comp: 0, layer: 0 }, 5),
    (
        NodeId::Fx {
            comp: 0,
            layer: 0,
            index: 0,
        },
        6,
    ),
    (NodeId::Source { comp: 0, layer: 1 }, 0),
    (NodeId::Source { comp: 0, layer: 2 }, 0),
    (
        NodeId::Fx {
            comp: 0,
            layer: 2,
            index: 0,
        },
        6,
    ),
    (
        NodeId::Fx {
            comp: 0,
            layer: 2,
            index: 1,
        },
        7,
    ),
    (NodeId::Stack { comp: 0 }, 8),
    (
        NodeId::Fx {
            comp: 2,
            layer: 0,
            index: 0,
        },
        6,
    ),
    (
        NodeId::Fx {
            comp: 2,
            layer: 0,
            index: 1,
        },
        7,
    ),
    (
        NodeId::Fx {
            comp: 2,
            layer: 0,
            index: 2,
        },
        8,
    ),
    (NodeId::Stack { comp: 2 }, 9),
    (
        NodeId::Fx {
            comp: 0,
            layer: 0,
            index: 1,
        },
        0,
    ),
    (
        NodeId::Fx {
            comp: 0,
            layer: 1,
            index: 0,
        },
        0,
    ),
    (
        NodeId::Fx {
            comp: 0,
            layer: 3,
            index: 0,
        },
        0,
    ),
    (
        NodeId::Fx {
            comp: 3,
            layer: 0,
            index: 0,
        },
        0,
    ),
];

#[test]
fn effects_are_above_what_they_are_drawn_from(rt: HostRuntime) -> Result<(), Fail> {
    let alloc = rt.alloc();
    let comps = vec![in alloc;
        comp_with(alloc, ROOT)?,
        comp_with(alloc, NESTED)?,
        comp_with(alloc, OWN)?,
    ]?;
    let project = made(alloc, comps)?.map_err(|_| "a project")?;
    let ranks = check(alloc, &project, &schemas(alloc)?).map_err(|_| "ranks")?;
    for (node, rank) in RANKS {
        assert_eq!(rt; ranks.of(*node), *rank, "{node:?}");
    }
    Ok(())
}

const EIGHT: &[Used] = &[PLAIN, PLAIN, PLAIN, PLAIN, PLAIN, PLAIN, PLAIN, PLAIN];

/// The first composition of 27 has these layers. Each of the others but the last nests the next one in a layer with eight effects,
/// so that their stacks have the ranks 251, 241, down to 1.
fn deep(alloc: Global, rows: &[Row]) -> Result<Result<Project, CheckError>, Fail> {
    let mut comps = vec![in alloc; comp_with(alloc, rows)?]?;
    for next in 2..27 {
        let mut nesting = layer(alloc, Item::Comp(next))?;
        nesting.effects = effects_of(alloc, EIGHT)?;
        comps.push(comp_of(vec![in alloc; nesting]?))?;
    }
    comps.push(comp_of(Vec::new(alloc)))?;
    made(alloc, comps)
}

/// The last node of each layer has rank 256: the source of the first has 252.
const GREATEST: &[Row] = &[
    Row(Item::Comp(1), &[PLAIN, PLAIN, PLAIN, PLAIN]),
    Row(SOLID, &[Used(2, &[], &[0], Some(3)), PLAIN, PLAIN, PLAIN]),
];

/// One effect more on the first layer.
const TOO_GREAT: &[Row] = &[
    Row(Item::Comp(1), &[PLAIN, PLAIN, PLAIN, PLAIN, PLAIN]),
    Row(
        SOLID,
        &[Used(2, &[], &[0], Some(3)), PLAIN, PLAIN, PLAIN, PLAIN],
    ),
];

/// One effect more on the layer that names the first.
const NAMED_TOO_GREAT: &[Row] = &[
    Row(Item::Comp(1), &[PLAIN, PLAIN, PLAIN, PLAIN]),
    Row(
        SOLID,
        &[Used(2, &[], &[0], Some(3)), PLAIN, PLAIN, PLAIN, PLAIN],
    ),
];

#[test]
fn ranks_are_at_most_256(rt: HostRuntime) -> Result<(), Fail> {
    let alloc = rt.alloc();
    let broken = |layer| CheckError::RuleBroken {
        rule: 40,
        comp: Some(0),
        layer: Some(layer),
    };
    let project = deep(alloc, GREATEST)?.map_err(|_| "a project")?;
    let ranks = check(alloc, &project, &schemas(alloc)?).map_err(|_| "ranks")?;
    assert_eq!(rt; ranks.of(NodeId::Source { comp: 0, layer: 0 }), 252);
    assert_eq!(rt;
        ranks.of(NodeId::Fx {
            comp: 0,
            layer: 0,
            index: 3
        }),
        256
    );
    assert_eq!(rt;
        ranks.of(NodeId::Fx {
            comp: 0,
            layer: 1,
            index: 3
        }),
        256
    );
    assert_eq!(rt; ranks.of(NodeId::Stack { comp: 0 }), 257);
    assert_eq!(rt; deep(alloc, TOO_GREAT)?.err(), Some(broken(0)));
    assert_eq!(rt; deep(alloc, NAMED_TOO_GREAT)?.err(), Some(broken(1)));
    Ok(())
}
