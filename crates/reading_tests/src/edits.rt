//! Small projects, edits of their texts, and what becomes of them.

use crate::effect_set;
use project_json::{ProjectError, read_project};
use project_model::{Place, Project};
use std::alloc::Global;
use std::process::Abort;
use std::test::Fail;

/// One composition of two pixels, one frame of 1/24 s and two layers.
pub(crate) const TWO_LAYERS: &str =
    "{\"version\":1,\"depth\":8,\"root\":0,\"comps\":[{\"width\":2,\"height\":1,\"frame\":[1,24],\"frames\":1,\"layers\":[{\"source\":{\"solid\":[2,1,255,10,20,30]}},{\"source\":{\"solid\":[7,1,9,8,7,6]},\"start\":[0,1],\"in\":[0,2],\"out\":[1,24],\"opacity\":5000,\"x\":[[3,[0,1],\"hold\"],[4,[1,12],\"linear\"]],\"y\":-2}]}]}";

/// The same with one layer that is a source alone.
pub(crate) const ONE_LAYER: &str =
    "{\"version\":1,\"depth\":8,\"root\":0,\"comps\":[{\"width\":2,\"height\":1,\"frame\":[1,24],\"frames\":1,\"layers\":[{\"source\":{\"solid\":[2,1,255,10,20,30]}}]}]}";

/// One composition of four layers at depth 16: each even one is the matte of the one below it.
pub(crate) const TWO_PAIRS: &str =
    "{\"version\":1,\"depth\":16,\"root\":0,\"comps\":[{\"width\":1,\"height\":1,\"frame\":[1,24],\"frames\":1,\"layers\":[{\"source\":{\"solid\":[1,1,1,0,0,0]}},{\"source\":{\"solid\":[1,1,2,0,0,0]},\"matte\":\"Alpha\"},{\"source\":{\"solid\":[1,1,3,0,0,0]}},{\"source\":{\"solid\":[1,1,4,0,0,0]},\"matte\":\"LumaInverted\"}]}]}";

/// One composition with one clip of two frames.
pub(crate) const ONE_CLIP: &str =
    "{\"version\":1,\"depth\":8,\"root\":0,\"clips\":[{\"name\":\"a.afr\",\"width\":1,\"height\":1,\"depth\":8,\"frame\":[1,24],\"frames\":2}],\"comps\":[{\"width\":1,\"height\":1,\"frame\":[1,24],\"frames\":3,\"layers\":[{\"source\":{\"clip\":0}}]}]}";

/// Two clips and two compositions: the second one nests the first, and each has a layer of a clip.
pub(crate) const TWO_CLIPS: &str =
    "{\"version\":1,\"depth\":8,\"root\":1,\"clips\":[{\"name\":\"a.afr\",\"width\":3,\"height\":1,\"depth\":8,\"frame\":[1,25],\"frames\":2},{\"name\":\"b.afr\",\"width\":5,\"height\":4,\"depth\":16,\"frame\":[1,30],\"frames\":7}],\"comps\":[{\"width\":2,\"height\":1,\"frame\":[1,24],\"frames\":1,\"layers\":[{\"source\":{\"solid\":[2,1,255,10,20,30]}},{\"source\":{\"clip\":1}}]},{\"width\":6,\"height\":1,\"frame\":[1,24],\"frames\":8,\"layers\":[{\"source\":{\"comp\":0}},{\"source\":{\"clip\":0}}]}]}";

/// A composition of four frames of one pixel, and another that nests it two frames later.
pub(crate) const NESTED: &str =
    "{\"version\":1,\"depth\":8,\"root\":1,\"comps\":[{\"width\":1,\"height\":1,\"frame\":[1,24],\"frames\":4,\"layers\":[{\"source\":{\"solid\":[1,1,100,100,0,0]}}]},{\"width\":1,\"height\":1,\"frame\":[1,24],\"frames\":4,\"layers\":[{\"source\":{\"comp\":0},\"start\":[2,24]}]}]}";

/// Three compositions: each nests the next, and the last has two solids.
pub(crate) const THREE_COMPS: &str =
    "{\"version\":1,\"depth\":8,\"root\":0,\"comps\":[{\"width\":1,\"height\":1,\"frame\":[1,24],\"frames\":1,\"layers\":[{\"source\":{\"comp\":1}}]},{\"width\":2,\"height\":1,\"frame\":[1,24],\"frames\":1,\"layers\":[{\"source\":{\"comp\":2}}]},{\"width\":3,\"height\":1,\"frame\":[1,24],\"frames\":1,\"layers\":[{\"source\":{\"solid\":[1,1,9,9,9,9]}},{\"source\":{\"solid\":[1,1,8,8,8,8]}}]}]}";

/// One composition of two layers: the second has an effect with two parameters, one of them of two keyframes, one that names the
/// first layer, and one with six bytes of sequence data.
pub(crate) const EFFECTS: &str =
    "{\"version\":1,\"depth\":8,\"root\":0,\"comps\":[{\"width\":2,\"height\":1,\"frame\":[1,24],\"frames\":1,\"layers\":[{\"source\":{\"solid\":[2,1,255,10,20,30]}},{\"source\":{\"solid\":[7,1,9,8,7,6]},\"effects\":[{\"effect\":\"Offset\",\"params\":[3,[[-4,[0,1],\"linear\"],[5,[1,12],\"ease\"]]]},{\"effect\":\"Displace\",\"params\":[1,2],\"layers\":[0]},{\"effect\":\"Palette\",\"sequence\":\"000000FFffff\"}]}]}]}";

/// What stands in a text, and what takes its place.
pub(crate) type Edit = (&'static str, &'static str);

/// An edit, and the rule that refuses it.
pub(crate) type Row = (&'static str, &'static str, u8);

/// Two edits, the second of what the first has made, and the rule that refuses them, at its place.
pub(crate) type Pair = (Edit, Edit, u8, Place);

/// The text, where the first `old` is `new`.
pub(crate) fn edited(alloc: Global, text: &str, old: &str, new: &str) -> Result<String, Fail> {
    let (front, back) = text.split_once(old).ok_or("what is edited")?;
    Ok(format!(in alloc; "{front}{new}{back}")?)
}

/// The project of these bytes, with the effects of the set.
pub(crate) fn read_bytes(alloc: Global, bytes: &[u8]) -> Result<Project, ProjectError> {
    let schemas = effect_set(alloc)?;
    read_project(alloc, bytes, &schemas)
}

/// The project of the text.
pub(crate) fn read(alloc: Global, text: &str) -> Result<Project, ProjectError> {
    read_bytes(alloc, text.as_bytes())
}

/// The project of the text, where the first `old` is `new`.
pub(crate) fn read_edited(
    alloc: Global,
    text: &str,
    old: &str,
    new: &str,
) -> Result<Project, Fail> {
    let text = edited(alloc, text, old, new)?;
    Ok(read(alloc, text.as_str())?)
}

/// Why the text is refused.
pub(crate) fn refusal(alloc: Global, text: &str) -> Option<ProjectError> {
    read(alloc, text).err()
}

/// The refusal by the rule of this number, at this place.
pub(crate) fn rule(number: u8, place: Place) -> Option<ProjectError> {
    let (comp, layer) = match place {
        Place::Project => (None, None),
        Place::Comp(comp) => (Some(comp), None),
        Place::Layer(comp, layer) => (Some(comp), Some(layer)),
    };
    Some(ProjectError::Rule {
        number,
        comp,
        layer,
    })
}

/// `count` times `piece`, parted by `mark`.
pub(crate) fn repeated(
    alloc: Global,
    piece: &str,
    mark: &str,
    count: usize,
) -> Result<String, Fail> {
    let mut text = String::new(alloc);
    for i in 0..count {
        if i > 0 {
            text.push_str(mark)?;
        }
        text.push_str(piece)?;
    }
    Ok(text)
}

/// Edits the text, reads it and compares why it is refused.
pub(crate) fn answers(
    rt: &impl Abort,
    alloc: Global,
    text: &str,
    edit: (&str, &str),
    want: Option<ProjectError>,
) -> Result<(), Fail> {
    let text = edited(alloc, text, edit.0, edit.1)?;
    assert_eq!(rt; refusal(alloc, text.as_str()), want, "{text}");
    Ok(())
}

/// Each of these edits keeps the rules.
pub(crate) fn reads(rt: &impl Abort, alloc: Global, text: &str, rows: &[Edit]) -> Result<(), Fail> {
    for (old, new) in rows {
        answers(rt, alloc, text, (*old, *new), None)?;
    }
    Ok(())
}

/// Each of these edits is refused by the rule of its number, at the same place.
pub(crate) fn refuses(
    rt: &impl Abort,
    alloc: Global,
    text: &str,
    place: Place,
    rows: &[Row],
) -> Result<(), Fail> {
    for (old, new, number) in rows {
        answers(rt, alloc, text, (*old, *new), rule(*number, place))?;
    }
    Ok(())
}

/// Each of these pairs of edits, the second of what the first has made, is refused by the rule of its number at its place.
pub(crate) fn refuses_pairs(
    rt: &impl Abort,
    alloc: Global,
    text: &str,
    rows: &[Pair],
) -> Result<(), Fail> {
    for (first, second, number, place) in rows {
        let text = edited(alloc, text, first.0, first.1)?;
        answers(rt, alloc, text.as_str(), *second, rule(*number, *place))?;
    }
    Ok(())
}
