//! Plain projects of little more than what their layers show.

use param_stream::{Ease, Keyframe};
use project_model::{
    CheckError, ClipUse, Collection, Item, PlainComp, PlainLayer, PlainProject, Project, Ranks,
    check,
};
use rational_time::Time;
use std::alloc::{AllocError, Global};
use std::test::Fail;
use track_matte::Matte;
use transfer_mode::Mode;

/// A solid that keeps the rules.
pub const SOLID: Item = Item::Solid {
    width: 1,
    height: 1,
    a: 255,
    r: 0,
    g: 0,
    b: 0,
};

fn stream(alloc: Global, value: i64) -> Result<Collection<Keyframe>, AllocError> {
    let key = Keyframe {
        time: Time { value: 0, scale: 1 },
        value,
        kind: Ease::Hold,
    };
    Ok(Collection::from_vec(vec![in alloc; key]?))
}

/// A layer that shows this.
pub fn layer(alloc: Global, source: Item) -> Result<PlainLayer, AllocError> {
    Ok(PlainLayer {
        source,
        start: Time { value: 0, scale: 1 },
        in_point: Time { value: 0, scale: 1 },
        out_point: None,
        mode: Some(Mode::Normal),
        matte: Some(Matte::None),
        opacity: stream(alloc, 10000)?,
        x: stream(alloc, 0)?,
        y: stream(alloc, 0)?,
        effects: Collection::from_vec(Vec::new(alloc)),
    })
}

/// A composition of layers that show these.
pub fn comp(alloc: Global, sources: &[Item]) -> Result<PlainComp, AllocError> {
    let mut layers = Vec::new(alloc);
    for source in sources {
        layers.push(layer(alloc, *source)?)?;
    }
    Ok(comp_of(layers))
}

/// A composition of these layers.
pub fn comp_of(layers: Vec<PlainLayer>) -> PlainComp {
    PlainComp {
        width: 4,
        height: 3,
        frame: Time {
            value: 1,
            scale: 24,
        },
        frames: 2,
        layers: Collection::from_vec(layers),
    }
}

/// What becomes of a project of these clips and compositions, without effects.
pub fn made(
    alloc: Global,
    clips: Vec<ClipUse>,
    comps: Vec<PlainComp>,
) -> Result<Result<Project, CheckError>, Fail> {
    of_parts(
        alloc,
        PlainProject {
            depth: 8,
            root: 0,
            clips: Collection::from_vec(clips),
            comps: Collection::from_vec(comps),
        },
    )
}

/// What becomes of a project of these parts, without effects.
pub fn of_parts(alloc: Global, plain: PlainProject) -> Result<Result<Project, CheckError>, Fail> {
    if !plain.is_formed() {
        return Err("a form")?;
    }
    Ok(Project::of_plain(alloc, plain, &[]))
}

/// The answer of `check` where there are no effects.
pub fn checked(alloc: Global, project: &Project) -> Result<Ranks, CheckError> {
    check(alloc, project, &[])
}
