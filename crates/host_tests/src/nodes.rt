//! Nodes of a scene: their numbers, and how far their planes reach, worked by hand.
ghost use Rattle.project_model.specs.Uses.{AreUses};

use effect_api::{Effect, set_is_lawful};
use frame_file::load_clips;
use fx_stock::Stock;
use geom_rect::Rect;
use host_io::{Memory, NeverClips};
use project_json::read_project;
use project_model::{NodeId, check};
use rational_time::Tick;
use scene_meaning::Scene;
use std::alloc::Global;
use std::collections::BTreeMap;
use std::process::Abort;
use std::test::Fail;

/// A composition of a solid of three by two points with two effects, and of another solid; and one that nests it. The blur reaches two
/// points further, and the shadow lies ten to the right and one up.
const TWO: &str =
    "{\"version\":1,\"depth\":8,\"root\":1,\"comps\":[{\"width\":4,\"height\":5,\"frame\":[1,24],\"frames\":1,\"layers\":[{\"source\":{\"solid\":[3,2,255,1,2,3]},\"effects\":[{\"effect\":\"BoxBlur\",\"params\":[2]},{\"effect\":\"DropShadow\",\"params\":[10,-1,5000,0,0,0]}]},{\"source\":{\"solid\":[1,1,255,4,5,6]}}]},{\"width\":2,\"height\":2,\"frame\":[1,24],\"frames\":1,\"layers\":[{\"source\":{\"comp\":0}}]}]}";

/// A node, its number, and the sides of its plane.
type Row = (NodeId, Option<u32>, Option<[i32; 4]>);

const NODES: &[Row] = &[
    (
        NodeId::Source { comp: 0, layer: 0 },
        Some(0),
        Some([0, 0, 3, 2]),
    ),
    (
        NodeId::Fx {
            comp: 0,
            layer: 0,
            index: 0,
        },
        Some(1),
        Some([-2, -2, 5, 4]),
    ),
    (
        NodeId::Fx {
            comp: 0,
            layer: 0,
            index: 1,
        },
        Some(2),
        Some([-2, -3, 15, 4]),
    ),
    (
        NodeId::Source { comp: 0, layer: 1 },
        Some(9),
        Some([0, 0, 1, 1]),
    ),
    (
        NodeId::Source { comp: 1, layer: 0 },
        Some(18),
        Some([0, 0, 4, 5]),
    ),
    (NodeId::Stack { comp: 1 }, None, Some([0, 0, 2, 2])),
    (
        NodeId::Fx {
            comp: 0,
            layer: 0,
            index: 2,
        },
        None,
        None,
    ),
    (NodeId::Source { comp: 1, layer: 1 }, None, None),
    (NodeId::Stack { comp: 2 }, None, None),
];

/// The number of a node that has one.
fn number_of(scene: &Scene, node: NodeId) -> Option<u32> {
    match node {
        NodeId::Stack { .. } => None,
        _ => scene.has_node(node).then(|| scene.node_number(node)),
    }
}

/// The extent at tick 0 of a node that the scene has.
fn extent_of<E: Effect>(
    alloc: Global,
    scene: &Scene,
    effects: &E,
    node: NodeId,
) -> Result<Option<Rect>, Memory>
    requires { AreUses E.schemas scene.now.project }
{
    if scene.has_node(node) {
        Ok(Some(scene.extent_of(alloc, effects, node, Tick(0))?))
    } else {
        Ok(None)
    }
}

/// The nodes of a project without clips, as a set that it uses tells them.
fn tell<E: Effect>(
    rt: &impl Abort,
    alloc: Global,
    effects: &E,
    text: &str,
    rows: &[Row],
) -> Result<(), Fail> {
    set_is_lawful::<E>();
    let schemas = effects.schemas(alloc)?;
    let Ok(project) = read_project(alloc, text.as_bytes(), &schemas) else {
        return Err("a project")?;
    };
    let Ok(ranks) = check(alloc, &project, &schemas) else {
        return Err("a project that keeps the rules")?;
    };
    let mut store = NeverClips::new(BTreeMap::new(alloc));
    let Ok(clips) = load_clips(alloc, &mut store, project.clips.as_slice()) else {
        return Err("clips")?;
    };
    let scene = Scene::new(project, clips, ranks)?;
    for (node, number, sides) in rows {
        assert_eq!(rt; number_of(&scene, *node), *number, "{node:?}");
        let extent = extent_of(alloc, &scene, effects, *node)?;
        let told = extent.map(|rect| [rect.left, rect.top, rect.right, rect.bottom]);
        assert_eq!(rt; told, *sides, "{node:?}");
    }
    Ok(())
}

#[test]
fn nodes_have_numbers_and_extents(rt: HostRuntime) -> Result<(), Fail> {
    let alloc = rt.alloc();
    tell(&rt, alloc, &Stock, TWO, NODES)
}
