//! Sources, nested compositions, and the places of what is broken in one of several compositions. Without effects no source of 64
//! compositions has a rank above 126, so rule 40 is not broken here.

use crate::edits::{
    Edit, NESTED, ONE_CLIP, ONE_LAYER, Pair, Row, THREE_COMPS, answers, read, reads, refusal,
    refuses, refuses_pairs, repeated, rule,
};
use project_model::{Comp, Item, Layer, Place};
use rational_time::Time;
use std::alloc::Global;
use std::test::Fail;

/// What names no clip of one.
const NO_CLIP: &[Row] = &[
    ("{\"clip\":0}", "{\"clip\":1}", 28),
    ("{\"clip\":0}", "{\"clip\":64}", 28),
    ("{\"clip\":0}", "{\"clip\":-1}", 28),
    ("{\"clip\":0}", "{\"clip\":4294967295}", 28),
    ("{\"clip\":0}", "{\"clip\":4294967296}", 28),
    ("{\"clip\":0}", "{\"clip\":\"a\"}", 28),
    ("{\"clip\":0}", "{\"clip\":\"a.afr\"}", 28),
    ("{\"clip\":0}", "{\"clip\":\"0\"}", 28),
    ("{\"clip\":0}", "{\"clip\":null}", 28),
    ("{\"clip\":0}", "{\"clip\":[0]}", 28),
    ("{\"clip\":0}", "{\"clip\":0,\"clip\":1}", 28),
];

/// What names no composition of two, in the second one, where there is no clip either.
const NO_COMP: &[Row] = &[
    ("{\"comp\":0}", "{\"clip\":0}", 28),
    ("{\"comp\":0}", "{\"comp\":2}", 29),
    ("{\"comp\":0}", "{\"comp\":64}", 29),
    ("{\"comp\":0}", "{\"comp\":-1}", 29),
    ("{\"comp\":0}", "{\"comp\":4294967295}", 29),
    ("{\"comp\":0}", "{\"comp\":4294967296}", 29),
    ("{\"comp\":0}", "{\"comp\":\"0\"}", 29),
    ("{\"comp\":0}", "{\"comp\":null}", 29),
    ("{\"comp\":0}", "{\"comp\":[0]}", 29),
    ("{\"comp\":0}", "{\"comp\":{\"comp\":0}}", 29),
];

/// Sources that are there.
const SOURCES: &[Edit] = &[
    ("{\"comp\":0}", "{\"comp\":2,\"comp\":0}"),
    ("{\"comp\":0}", "{\"solid\":[1,1,1,1,1,1]}"),
    ("\"root\":1", "\"root\":0"),
    ("{\"version\"", "{\"clips\":[],\"version\""),
];

#[test]
fn sources_that_are_not_there(rt: HostRuntime) -> Result<(), Fail> {
    let alloc = rt.alloc();
    refuses(&rt, alloc, ONE_CLIP, Place::Layer(0, 0), NO_CLIP)?;
    refuses(&rt, alloc, NESTED, Place::Layer(1, 0), NO_COMP)?;
    reads(&rt, alloc, NESTED, SOURCES)
}

/// The one composition nests itself.
const ITSELF: &[Row] = &[("{\"solid\":[2,1,255,10,20,30]}", "{\"comp\":0}", 30)];

/// Two compositions nest each other.
const EACH_OTHER: &[Row] = &[("{\"solid\":[1,1,100,100,0,0]}", "{\"comp\":1}", 30)];

/// The last of three nests the first.
const THREE_IN_TURN: &[Row] = &[
    ("{\"solid\":[1,1,9,9,9,9]}", "{\"comp\":0}", 30),
    ("{\"solid\":[1,1,8,8,8,8]}", "{\"comp\":0}", 30),
    ("{\"comp\":2}", "{\"comp\":0}", 30),
];

/// The second and the third nest each other, and the first only leads to them.
const LED_TO: &[Row] = &[
    ("{\"solid\":[1,1,9,9,9,9]}", "{\"comp\":1}", 30),
    ("{\"solid\":[1,1,8,8,8,8]}", "{\"comp\":1}", 30),
    ("{\"comp\":2}", "{\"comp\":1}", 30),
];

/// The third nests itself, and both others lead to it.
const LAST_ITSELF: &[Row] = &[
    ("{\"solid\":[1,1,9,9,9,9]}", "{\"comp\":2}", 30),
    ("{\"solid\":[1,1,8,8,8,8]}", "{\"comp\":2}", 30),
];

/// A composition that is nested more than once, and one that is not nested.
const NO_CIRCLE: &[Edit] = &[
    ("\"root\":0", "\"root\":2"),
    ("{\"comp\":1}", "{\"comp\":2}"),
    (
        "{\"source\":{\"comp\":1}}",
        "{\"source\":{\"comp\":1}},{\"source\":{\"comp\":2}},{\"source\":{\"comp\":1}}",
    ),
    ("{\"comp\":2}", "{\"solid\":[1,1,0,0,0,0]}"),
];

#[test]
fn compositions_that_reach_themselves(rt: HostRuntime) -> Result<(), Fail> {
    let alloc = rt.alloc();
    refuses(&rt, alloc, ONE_LAYER, Place::Comp(0), ITSELF)?;
    refuses(&rt, alloc, NESTED, Place::Comp(0), EACH_OTHER)?;
    refuses(&rt, alloc, THREE_COMPS, Place::Comp(0), THREE_IN_TURN)?;
    refuses(&rt, alloc, THREE_COMPS, Place::Comp(1), LED_TO)?;
    refuses(&rt, alloc, THREE_COMPS, Place::Comp(2), LAST_ITSELF)?;
    reads(&rt, alloc, THREE_COMPS, NO_CIRCLE)
}

// So many compositions: the first shows this, and each other one the one before it.
fn chain(alloc: Global, count: u32, first: &str) -> Result<String, Fail> {
    let front = "\"width\":1,\"height\":1,\"frame\":[1,24],\"frames\":1";
    let mut text = format!(in alloc; "{{{front},\"layers\":[{{\"source\":{first}}}]}}")?;
    for i in 1..count {
        let nested = i - 1;
        let comp = format!(in alloc;
            ",{{{front},\"layers\":[{{\"source\":{{\"comp\":{nested}}}}}]}}"
        )?;
        text.push_str(comp.as_str())?;
    }
    Ok(format!(in alloc; "{{\"version\":1,\"depth\":8,\"root\":0,\"comps\":[{text}]}}")?)
}

#[test]
fn compositions_have_a_bound(rt: HostRuntime) -> Result<(), Fail> {
    let solid = "{\"solid\":[1,1,1,1,1,1]}";
    for (count, first, want) in [
        (64, solid, None),
        (65, solid, rule(6, Place::Project)),
        (64, "{\"comp\":63}", rule(30, Place::Comp(0))),
        (64, "{\"comp\":64}", rule(29, Place::Layer(0, 0))),
        (64, "{\"comp\":0}", rule(30, Place::Comp(0))),
    ] {
        let text = chain(rt.alloc(), count, first)?;
        assert_eq!(rt; refusal(rt.alloc(), text.as_str()), want);
    }
    Ok(())
}

// The project of compositions with these numbers of layers.
fn layered(alloc: Global, counts: &[usize]) -> Result<String, Fail> {
    let mut text = String::new(alloc);
    for count in counts {
        let mark = if text.is_empty() { "" } else { "," };
        let layers = repeated(alloc, "{\"source\":{\"solid\":[1,1,1,1,1,1]}}", ",", *count)?;
        let comp = format!(in alloc;
            "{mark}{{\"width\":1,\"height\":1,\"frame\":[1,24],\"frames\":1,\"layers\":[{layers}]}}"
        )?;
        text.push_str(comp.as_str())?;
    }
    Ok(format!(in alloc; "{{\"version\":1,\"depth\":8,\"root\":0,\"comps\":[{text}]}}")?)
}

/// Compositions of 1,024 layers in all.
const ENOUGH: &[usize] = &[128, 128, 128, 128, 128, 128, 128, 127, 1, 0];

/// One more.
const TOO_MANY: &[usize] = &[128, 128, 128, 128, 128, 128, 128, 127, 1, 1];

/// The second composition has one layer too many, and so have all together.
const TOO_MANY_IN_ONE: &[usize] = &[128, 129, 128, 128, 128, 128, 128, 128];

#[test]
fn layers_in_all_have_a_bound(rt: HostRuntime) -> Result<(), Fail> {
    for (counts, want) in [
        (ENOUGH, None),
        (TOO_MANY, rule(8, Place::Project)),
        (TOO_MANY_IN_ONE, rule(7, Place::Comp(1))),
    ] {
        let text = layered(rt.alloc(), counts)?;
        assert_eq!(rt; refusal(rt.alloc(), text.as_str()), want);
    }
    Ok(())
}

// The one layer of a composition of four frames of one pixel.
fn only_layer(comp: &Comp) -> Option<&Layer> {
    match comp.layers.as_slice() {
        [layer] if (comp.width, comp.height, comp.frames) == (1, 1, 4) => Some(layer),
        _ => None,
    }
}

#[test]
fn a_nested_composition_is_read(rt: HostRuntime) -> Result<(), Fail> {
    let project = read(rt.alloc(), NESTED)?;
    assert_eq!(rt;
        (project.depth, project.root, project.base.ticks),
        (8, 1, 24)
    );
    assert_eq!(rt; project.clips.as_slice().len(), 0);
    let [inner, outer] = project.comps.as_slice() else {
        return Err("two compositions")?;
    };
    let solid = Item::Solid {
        width: 1,
        height: 1,
        a: 100,
        r: 100,
        g: 0,
        b: 0,
    };
    let zero = Time { value: 0, scale: 1 };
    let layer = only_layer(inner).ok_or("a layer")?;
    assert_eq!(rt; (layer.source, layer.start), (solid, zero));
    let start = Time {
        value: 2,
        scale: 24,
    };
    let layer = only_layer(outer).ok_or("a layer")?;
    assert_eq!(rt; (layer.source, layer.start), (Item::Comp(0), start));
    Ok(())
}

/// What is broken in a composition other than the first.
const SECOND_COMP: &[Row] = &[
    ("\"width\":2,", "", 6),
    ("\"width\":2,", "\"width\":2,\"name\":1,", 6),
    (
        "\"width\":2,\"height\":1,\"frame\":[1,24]",
        "\"width\":2,\"height\":1,\"frame\":24",
        15,
    ),
    ("\"width\":2", "\"width\":0", 19),
    (
        "\"width\":2,\"height\":1,\"frame\":[1,24],\"frames\":1",
        "\"width\":2,\"height\":1,\"frame\":[1,24],\"frames\":0",
        21,
    ),
];

/// What is broken in its layer.
const SECOND_LAYER: &[Row] = &[
    ("{\"source\":{\"comp\":2}", "{\"sources\":{\"comp\":2}", 7),
    ("{\"comp\":2}", "{}", 9),
    ("{\"comp\":2}", "{\"comp\":2},\"x\":[]", 14),
    ("{\"comp\":2}", "{\"comp\":2},\"start\":0", 15),
    ("{\"comp\":2}", "{\"comp\":2},\"start\":[36001,1]", 23),
    ("{\"comp\":2}", "{\"solid\":[1,1,0,0,0,1]}", 27),
    ("{\"comp\":2}", "{\"comp\":2},\"mode\":\"Foo\"", 31),
    ("{\"comp\":2}", "{\"comp\":2},\"matte\":\"Alpha\"", 33),
    ("{\"comp\":2}", "{\"comp\":2},\"in\":[1,1]", 34),
    ("{\"comp\":2}", "{\"comp\":2},\"x\":32768", 36),
];

/// The first place of a rule, and the least rule, among three compositions.
const PLACES: &[Pair] = &[
    (
        ("{\"comp\":1}", "{\"comp\":1},\"start\":0"),
        (
            "\"width\":2,\"height\":1,\"frame\":[1,24]",
            "\"width\":2,\"height\":1,\"frame\":24",
        ),
        15,
        Place::Layer(0, 0),
    ),
    (
        ("\"width\":3", "\"width\":0"),
        ("\"width\":2", "\"width\":0"),
        19,
        Place::Comp(1),
    ),
    (
        ("{\"comp\":1}", "{\"comp\":3}"),
        ("{\"comp\":2}", "{}"),
        9,
        Place::Layer(1, 0),
    ),
    (
        ("{\"comp\":1}", "{\"comp\":3}"),
        ("{\"solid\":[1,1,8,8,8,8]}", "{\"clip\":0}"),
        28,
        Place::Layer(2, 1),
    ),
    (
        ("{\"comp\":1}", "{\"comp\":0}"),
        ("{\"comp\":2}", "{\"comp\":3}"),
        29,
        Place::Layer(1, 0),
    ),
    (
        ("{\"solid\":[1,1,9,9,9,9]}", "{\"comp\":1}"),
        ("{\"source\"", "{\"mode\":\"Foo\",\"source\""),
        30,
        Place::Comp(1),
    ),
    (
        ("\"root\":0", "\"root\":2"),
        ("{\"comp\":2}", "{\"comp\":0}"),
        30,
        Place::Comp(0),
    ),
];

#[test]
fn places_in_several_compositions(rt: HostRuntime) -> Result<(), Fail> {
    let alloc = rt.alloc();
    refuses(&rt, alloc, THREE_COMPS, Place::Comp(1), SECOND_COMP)?;
    refuses(&rt, alloc, THREE_COMPS, Place::Layer(1, 0), SECOND_LAYER)?;
    refuses_pairs(&rt, alloc, THREE_COMPS, PLACES)
}
