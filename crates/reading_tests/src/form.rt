//! Rules on a project's form, by their numbers.

use crate::edits::{
    ONE_LAYER, Pair, Row, TWO_LAYERS, answers, read_bytes, refusal, refuses, refuses_pairs,
    repeated, rule,
};
use project_json::ProjectError;
use project_model::Place;
use std::alloc::Global;
use std::test::Fail;

#[test]
fn other_bytes_are_not_json(rt: HostRuntime) -> Result<(), Fail> {
    let not_json = Some(ProjectError::NotJson);
    for (old, new) in [
        (TWO_LAYERS, ""),
        (TWO_LAYERS, "["),
        ("{\"version\"", "\u{feff}{\"version\""),
        ("\"y\":-2}]}]}", "\"y\":-2}]}]} 1"),
        ("\"frames\":1", "\"frames\":01"),
        ("\"frames\":1", "\"frames\":1e999"),
        ("\"layers\":[", "\"layers\":[{},]"),
    ] {
        answers(&rt, rt.alloc(), TWO_LAYERS, (old, new), not_json)?;
    }
    let no_text = [b'"', 0xff, b'"'];
    assert_eq!(rt; read_bytes(rt.alloc(), &no_text).err(), not_json);
    Ok(())
}

#[test]
fn nesting_has_a_bound(rt: HostRuntime) -> Result<(), Fail> {
    for (depth, want) in [
        (127, rule(2, Place::Project)),
        (128, Some(ProjectError::NotJson)),
    ] {
        let front = repeated(rt.alloc(), "[", "", depth)?;
        let back = repeated(rt.alloc(), "]", "", depth)?;
        let text = format!(in rt.alloc(); "{front}{back}")?;
        assert_eq!(rt; refusal(rt.alloc(), text.as_str()), want);
    }
    Ok(())
}

#[test]
fn layers_have_a_bound(rt: HostRuntime) -> Result<(), Fail> {
    let layer = "{\"source\":{\"solid\":[2,1,255,10,20,30]}}";
    for (count, want) in [(0, None), (128, None), (129, rule(7, Place::Comp(0)))] {
        let layers = repeated(rt.alloc(), layer, ",", count)?;
        answers(&rt, rt.alloc(), ONE_LAYER, (layer, layers.as_str()), want)?;
    }
    let last = "{\"source\":{\"solid\":[2,1,255,10,20,256]}}";
    let layers = repeated(rt.alloc(), layer, ",", 127)?;
    let layers = format!(in rt.alloc(); "{layers},{last}")?;
    let want = rule(27, Place::Layer(0, 127));
    answers(&rt, rt.alloc(), ONE_LAYER, (layer, layers.as_str()), want)
}

/// So many keyframes of a stream, a second apart.
pub(crate) fn keyframes(alloc: Global, count: u32) -> Result<String, Fail> {
    let mut text = String::new(alloc);
    for i in 0..count {
        let mark = if i > 0 { "," } else { "" };
        text.push_str(format!(in alloc; "{mark}[{i},[{i},1],\"linear\"]")?.as_str())?;
    }
    Ok(text)
}

#[test]
fn keyframes_have_a_bound(rt: HostRuntime) -> Result<(), Fail> {
    let layer = Place::Layer(0, 1);
    for (count, want) in [(1, None), (4096, None), (4097, rule(14, layer))] {
        let keys = keyframes(rt.alloc(), count)?;
        let stream = format!(in rt.alloc(); "\"y\":[{keys}]")?;
        answers(
            &rt,
            rt.alloc(),
            TWO_LAYERS,
            ("\"y\":-2", stream.as_str()),
            want,
        )?;
    }
    Ok(())
}

/// Names of parts where they may not stand.
const OTHER_PARTS: &[Row] = &[
    (TWO_LAYERS, "[[[{\"effects\":1.5}]]]", 1),
    (TWO_LAYERS, "[[[{\"clip\":1.5}]]]", 1),
    (TWO_LAYERS, "[\"effects\"]", 2),
    ("{\"version\"", "{\"effects\":[],\"version\"", 2),
    ("{\"version\"", "{\"effect\":[],\"version\"", 2),
    ("{\"version\"", "{\"Effects\":[],\"version\"", 2),
    (TWO_LAYERS, "[{\"depth\":16,\"comps\":[1,2]}]", 2),
    ("{\"version\"", "{\"mode\":\"Normal\",\"version\"", 2),
    (TWO_LAYERS, "{\"depth\":16}", 3),
    (
        TWO_LAYERS,
        "{\"version\":1,\"depth\":16,\"root\":0,\"comps\":{\"a\":0,\"b\":1}}",
        6,
    ),
];

/// Numbers that are not whole, or too large.
const NOT_WHOLE: &[Row] = &[
    (TWO_LAYERS, "1.5", 1),
    (TWO_LAYERS, "[1,[{\"x\":1e0}]]", 1),
    ("\"frames\":1", "\"frames\":1.0", 1),
    ("\"root\":0", "\"root\":-0", 1),
    ("\"version\":1", "\"version\":1e0", 1),
    ("\"frames\":1", "\"frames\":9223372036854775808", 1),
    ("\"frames\":1", "\"frames\":18446744073709551616", 1),
    ("\"frames\":1", "\"frames\":-9223372036854775809", 1),
    ("[4,[1,12]", "[4,[1,12.5]", 1),
];

/// Other names, and other versions.
const TOP: &[Row] = &[
    (TWO_LAYERS, "[]", 2),
    (TWO_LAYERS, "null", 2),
    (TWO_LAYERS, "1", 2),
    (TWO_LAYERS, "\"version\"", 2),
    ("{\"version\"", "{\"base\":1,\"version\"", 2),
    (TWO_LAYERS, "{}", 3),
    ("\"version\":1,", "", 3),
    ("\"version\":1", "\"version\":0", 3),
    ("\"version\":1", "\"version\":2", 3),
    ("\"version\":1", "\"version\":-1", 3),
    ("\"version\":1", "\"version\":\"1\"", 3),
    ("\"version\":1", "\"version\":[1]", 3),
];

/// Other depths.
const DEPTHS: &[Row] = &[
    (TWO_LAYERS, "{\"version\":1}", 4),
    ("\"depth\":8,", "", 4),
    ("\"depth\":8", "\"depth\":7", 4),
    ("\"depth\":8", "\"depth\":15", 4),
    ("\"depth\":8", "\"depth\":17", 4),
    ("\"depth\":8", "\"depth\":32", 4),
    ("\"depth\":8", "\"depth\":-16", 4),
    ("\"depth\":8", "\"depth\":null", 4),
    ("\"depth\":8", "\"depth\":\"8\"", 4),
    ("\"depth\":8", "\"depth\":\"16\"", 4),
];

/// What are no compositions.
const COMPOSITIONS: &[Row] = &[
    (TWO_LAYERS, "{\"version\":1,\"depth\":8}", 6),
    (
        TWO_LAYERS,
        "{\"version\":1,\"depth\":8,\"root\":0,\"comps\":{}}",
        6,
    ),
    (
        TWO_LAYERS,
        "{\"version\":1,\"depth\":8,\"root\":0,\"comps\":[]}",
        6,
    ),
    (
        TWO_LAYERS,
        "{\"version\":1,\"depth\":8,\"root\":0,\"comps\":[1]}",
        6,
    ),
    ("\"comps\":[", "\"comps\":[7,", 6),
    ("\"comps\":[", "\"comps\":[[],", 6),
];

#[test]
fn rules_broken_in_the_project(rt: HostRuntime) -> Result<(), Fail> {
    let alloc = rt.alloc();
    refuses(&rt, alloc, TWO_LAYERS, Place::Project, OTHER_PARTS)?;
    refuses(&rt, alloc, TWO_LAYERS, Place::Project, NOT_WHOLE)?;
    refuses(&rt, alloc, TWO_LAYERS, Place::Project, TOP)?;
    refuses(&rt, alloc, TWO_LAYERS, Place::Project, DEPTHS)?;
    refuses(&rt, alloc, TWO_LAYERS, Place::Project, COMPOSITIONS)
}

/// Other names of a composition, and layers that are none.
const NAMES: &[Row] = &[
    ("\"comps\":[", "\"comps\":[{},", 6),
    ("\"width\":2,", "", 6),
    ("\"height\":1,", "", 6),
    ("\"frame\":[1,24],", "", 6),
    ("\"frames\":1,", "", 6),
    ("\"layers\"", "\"width\"", 6),
    ("{\"width\"", "{\"name\":\"a\",\"width\"", 6),
    ("{\"width\"", "{\"effects\":[],\"width\"", 6),
    ("\"layers\":[", "\"layers\":[7,", 7),
    ("\"layers\":[", "\"layers\":[{},7,", 7),
];

/// What is no time.
const FRAMES: &[Row] = &[
    ("\"frame\":[1,24]", "\"frame\":24", 15),
    ("\"frame\":[1,24]", "\"frame\":[1]", 15),
    ("\"frame\":[1,24]", "\"frame\":[1,24,1]", 15),
    ("\"frame\":[1,24]", "\"frame\":[1,\"24\"]", 15),
    ("\"frame\":[1,24]", "\"frame\":[\"1\",24]", 15),
    ("\"frame\":[1,24]", "\"frame\":[1,0]", 15),
    ("\"frame\":[1,24]", "\"frame\":[1,-24]", 15),
    ("\"frame\":[1,24]", "\"frame\":[2147483648,1]", 15),
    ("\"frame\":[1,24]", "\"frame\":[-2147483649,1]", 15),
    ("\"frame\":[1,24]", "\"frame\":[1,4294967296]", 15),
];

#[test]
fn rules_broken_in_a_composition(rt: HostRuntime) -> Result<(), Fail> {
    let alloc = rt.alloc();
    refuses(&rt, alloc, TWO_LAYERS, Place::Comp(0), NAMES)?;
    refuses(&rt, alloc, TWO_LAYERS, Place::Comp(0), FRAMES)
}

/// Names of parts in a solid.
const IN_A_SOLID: &[Row] = &[
    ("[2,1,255,10,20,30]", "[[{},{\"x\":[{\"mode\":0}]}]]", 27),
    ("[2,1,255,10,20,30]", "[[{},{\"x\":[{\"comp\":0}]}]]", 27),
    ("[2,1,255,10,20,30]", "[[{},{\"x\":[{\"effects\":0}]}]]", 27),
    ("[2,1,255,10,20,30]", "\"clips\"", 27),
];

/// The same in the second layer.
const IN_A_LAYER: &[Row] = &[
    ("\"start\":[0,1]", "\"comps\":[1,2]", 7),
    ("\"start\":[0,1]", "\"effect\":[]", 7),
    ("\"y\":-2", "\"y\":{\"comps\":[1,2]}", 14),
    ("\"y\":-2", "\"y\":\"clip\"", 14),
    ("\"linear\"", "{\"effects\":null}", 14),
    ("\"start\":[0,1]", "\"mode\":\"effects\"", 31),
    ("\"start\":[0,1]", "\"matte\":\"comp\"", 32),
];

/// Other names, sources and streams of the first layer.
const FIRST_LAYER: &[Row] = &[
    ("\"layers\":[", "\"layers\":[{},", 7),
    ("{\"source\"", "{\"x\":[],\"sources\"", 7),
    ("{\"solid\":[2,1,255,10,20,30]}", "[2,1,255,10,20,30]", 9),
    ("{\"solid\":[2,1,255,10,20,30]}", "{}", 9),
    ("{\"solid\"", "{\"color\"", 9),
    ("{\"solid\"", "{\"\\u0065ffects\":0,\"solid\"", 9),
    ("{\"solid\":[2", "{\"clip\":0,\"solid\":[2", 9),
    ("{\"solid\":[2", "{\"comp\":0,\"solid\":[2", 9),
    (
        "{\"solid\":[2,1,255,10,20,30]}",
        "{\"clip\":0,\"comp\":0}",
        9,
    ),
    ("{\"solid\":[2,1,255,10,20,30]}", "{\"Clip\":0}", 9),
    (
        "{\"source\":{\"solid\":[2",
        "{\"x\":[1],\"source\":{\"solid\":[2",
        14,
    ),
];

/// Other names and sources of the second layer.
const SECOND_LAYER: &[Row] = &[
    ("\"start\"", "\"begin\"", 7),
    ("\"start\"", "\"Mode\"", 7),
    ("\"start\"", "\"mattes\"", 7),
    ("{\"solid\":[7", "{\"name\":1,\"solid\":[7", 9),
    ("{\"solid\":[7", "{\"mode\":\"Normal\",\"solid\":[7", 9),
];

/// What is no stream.
const STREAMS: &[Row] = &[
    ("\"y\":-2", "\"y\":\"-2\"", 14),
    ("\"y\":-2", "\"y\":null", 14),
    ("\"y\":-2", "\"y\":{}", 14),
    ("\"y\":-2", "\"y\":[]", 14),
    ("\"y\":-2", "\"y\":[5]", 14),
    ("\"y\":-2", "\"y\":[[5,[0,1]]]", 14),
    ("\"y\":-2", "\"y\":[[5,[0,1],\"hold\",1]]", 14),
    ("\"y\":-2", "\"y\":[[\"5\",[0,1],\"hold\"]]", 14),
    ("\"y\":-2", "\"y\":[[5,[0,1],\"smooth\"]]", 14),
    ("\"y\":-2", "\"y\":[[5,[0,1],0]]", 14),
    ("\"opacity\":5000", "\"opacity\":false", 14),
    ("[4,[1,12],\"linear\"]", "[4,[1,12],\"Linear\"]", 14),
];

/// What is no time of a layer.
const TIMES: &[Row] = &[
    ("\"start\":[0,1]", "\"start\":0", 15),
    ("\"in\":[0,2]", "\"in\":[0,0]", 15),
    ("\"out\":[1,24]", "\"out\":[1,24,0]", 15),
    ("\"out\":[1,24]", "\"out\":null", 15),
    ("[3,[0,1],\"hold\"]", "[3,0,\"hold\"]", 15),
    ("[4,[1,12],\"linear\"]", "[4,[1,0],\"linear\"]", 15),
];

#[test]
fn rules_broken_in_a_layer(rt: HostRuntime) -> Result<(), Fail> {
    let alloc = rt.alloc();
    refuses(&rt, alloc, TWO_LAYERS, Place::Layer(0, 0), IN_A_SOLID)?;
    refuses(&rt, alloc, TWO_LAYERS, Place::Layer(0, 1), IN_A_LAYER)?;
    refuses(&rt, alloc, TWO_LAYERS, Place::Layer(0, 0), FIRST_LAYER)?;
    refuses(&rt, alloc, TWO_LAYERS, Place::Layer(0, 1), SECOND_LAYER)?;
    refuses(&rt, alloc, TWO_LAYERS, Place::Layer(0, 1), STREAMS)?;
    refuses(&rt, alloc, TWO_LAYERS, Place::Layer(0, 1), TIMES)
}

/// Of two broken rules the lesser number counts.
const TWO_RULES: &[Pair] = &[
    (
        ("\"version\":1", "\"version\":1.5"),
        ("\"start\":[0,1]", "\"effects\":{}"),
        1,
        Place::Project,
    ),
    (
        ("{\"version\":1", "{\"a\":0,\"version\":1"),
        ("\"y\":-2", "\"y\":-2.5"),
        1,
        Place::Project,
    ),
    (
        ("\"version\":1", "\"version\":1.5"),
        ("\"depth\":8", "\"depth\":16"),
        1,
        Place::Project,
    ),
    (
        ("\"version\":1", "\"version\":2"),
        ("\"root\":0", "\"rood\":0"),
        2,
        Place::Project,
    ),
    (
        ("\"version\":1", "\"version\":2"),
        ("\"depth\":8", "\"depth\":9"),
        3,
        Place::Project,
    ),
    (
        ("\"depth\":8", "\"depth\":9"),
        ("\"width\"", "\"breadth\""),
        4,
        Place::Project,
    ),
    (
        ("\"width\"", "\"breadth\""),
        ("\"start\"", "\"begin\""),
        6,
        Place::Comp(0),
    ),
];

/// The lesser number counts before the first place.
const TWO_PLACES: &[Pair] = &[
    (
        ("\"layers\":[", "\"layers\":[{},"),
        ("\"y\":-2}", "\"y\":-2},7"),
        7,
        Place::Comp(0),
    ),
    (
        ("\"solid\"", "\"color\""),
        ("\"start\"", "\"begin\""),
        7,
        Place::Layer(0, 1),
    ),
    (
        ("\"frame\":[1,24]", "\"frame\":1"),
        ("\"solid\":[7", "\"color\":[7"),
        9,
        Place::Layer(0, 1),
    ),
    (
        ("{\"source\"", "{\"mode\":\"Foo\",\"source\""),
        ("{\"solid\":[7,1,9,8,7,6]}", "{}"),
        9,
        Place::Layer(0, 1),
    ),
    (
        ("\"frame\":[1,24]", "\"frame\":1"),
        ("\"y\":-2", "\"y\":[]"),
        14,
        Place::Layer(0, 1),
    ),
    (
        ("\"frame\":[1,24]", "\"frame\":[1]"),
        ("[1,12]", "[1,0]"),
        15,
        Place::Comp(0),
    ),
    (
        ("\"root\":0", "\"root\":1"),
        ("[1,12]", "[1,0]"),
        15,
        Place::Layer(0, 1),
    ),
];

#[test]
fn the_least_rule_counts_at_its_first_place(rt: HostRuntime) -> Result<(), Fail> {
    let alloc = rt.alloc();
    refuses_pairs(&rt, alloc, TWO_LAYERS, TWO_RULES)?;
    refuses_pairs(&rt, alloc, TWO_LAYERS, TWO_PLACES)
}
