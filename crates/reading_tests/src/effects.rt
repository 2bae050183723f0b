//! Effects of layers: the rules on their form, and on their numbers. The second of two layers has three effects.

use crate::edits::{
    EFFECTS, Edit, Pair, Row, TWO_LAYERS, answers, edited, reads, refusal, refuses, refuses_pairs,
    repeated, rule,
};
use crate::form::keyframes;
use project_model::Place;
use std::alloc::Global;
use std::test::Fail;

/// The layer that has effects.
const LAYER: Place = Place::Layer(0, 1);

/// What are no effects, in a layer that has none.
const NO_EFFECTS: &[Row] = &[
    ("\"start\":[0,1]", "\"effects\":{}", 10),
    ("\"start\":[0,1]", "\"effects\":null", 10),
    ("\"start\":[0,1]", "\"effects\":0", 10),
    ("\"start\":[0,1]", "\"effects\":\"Same\"", 10),
    ("\"start\":[0,1]", "\"effects\":{\"effect\":\"Same\"}", 10),
    ("\"start\":[0,1]", "\"effects\":[null]", 10),
    ("\"start\":[0,1]", "\"effects\":[\"Same\"]", 10),
    (
        "\"start\":[0,1]",
        "\"effects\":[[{\"effect\":\"Same\"}]]",
        10,
    ),
    ("\"start\":[0,1]", "\"effects\":[],\"effects\":7", 10),
];

/// Other names of an effect.
const NAMES: &[Row] = &[
    ("\"effects\":[", "\"effects\":[7,", 10),
    ("\"effects\":[", "\"effects\":[{},", 10),
    ("\"effects\":[", "\"effects\":[{\"params\":[]},", 10),
    ("\"effect\":\"Offset\"", "\"name\":\"Offset\"", 10),
    ("\"effect\":\"Offset\"", "\"Effect\":\"Offset\"", 10),
    (
        "{\"effect\":\"Offset\"",
        "{\"start\":[0,1],\"effect\":\"Offset\"",
        10,
    ),
    (
        "{\"effect\":\"Displace\"",
        "{\"effects\":[],\"effect\":\"Displace\"",
        10,
    ),
    ("\"sequence\"", "\"sequences\"", 10),
];

/// What names no effect of the set.
const KINDS: &[Row] = &[
    ("\"Offset\"", "\"offset\"", 11),
    ("\"Offset\"", "\"OFFSET\"", 11),
    ("\"Offset\"", "\"Offset \"", 11),
    ("\"Offset\"", "\"Offse\"", 11),
    ("\"Offset\"", "\"Offsets\"", 11),
    ("\"Offset\"", "\"\"", 11),
    ("\"Offset\"", "0", 11),
    ("\"Offset\"", "null", 11),
    ("\"Offset\"", "[\"Offset\"]", 11),
    ("\"Offset\"", "{\"effect\":\"Offset\"}", 11),
    ("\"Offset\"", "\"Offset\",\"effect\":\"Other\"", 11),
    ("\"Palette\"", "\"Other\"", 11),
];

/// An effect that only one thread may draw, in each place.
const UNTHREADED: &[Row] = &[
    ("\"effects\":[", "\"effects\":[{\"effect\":\"Alone\"},", 12),
    (
        "\"000000FFffff\"}",
        "\"000000FFffff\"},{\"effect\":\"Alone\"}",
        12,
    ),
    ("\"Offset\"", "\"Alone\"", 12),
    ("\"Palette\"", "\"Alone\"", 12),
];

/// Other counts of parameters.
const PARAMS: &[Row] = &[
    ("\"params\":[3,", "\"params\":[", 13),
    ("\"params\":[3,", "\"params\":[3,3,", 13),
    ("[1,2]", "[]", 13),
    ("\"params\":[1,2],", "", 13),
    ("\"params\":[1,2]", "\"params\":null", 13),
    ("\"params\":[1,2]", "\"params\":12", 13),
    ("\"params\":[1,2]", "\"params\":\"12\"", 13),
    ("\"params\":[1,2]", "\"params\":{\"0\":1,\"1\":2}", 13),
    ("\"params\":[1,2]", "\"params\":[1,2],\"params\":[1]", 13),
    (
        "{\"effect\":\"Palette\"",
        "{\"params\":[1],\"effect\":\"Palette\"",
        13,
    ),
    (
        "{\"effect\":\"Palette\"",
        "{\"params\":0,\"effect\":\"Palette\"",
        13,
    ),
    (
        "{\"effect\":\"Palette\"",
        "{\"params\":{},\"effect\":\"Palette\"",
        13,
    ),
];

/// Other counts of layers, and members that are no numbers.
const LAYERS: &[Row] = &[
    ("\"layers\":[0]", "\"layers\":[]", 13),
    (",\"layers\":[0]", "", 13),
    ("\"layers\":[0]", "\"layers\":[0,0]", 13),
    ("\"layers\":[0]", "\"layers\":[\"0\"]", 13),
    ("\"layers\":[0]", "\"layers\":[null]", 13),
    ("\"layers\":[0]", "\"layers\":[[0]]", 13),
    ("\"layers\":[0]", "\"layers\":0", 13),
    ("\"layers\":[0]", "\"layers\":null", 13),
    ("\"layers\":[0]", "\"layers\":{\"0\":0}", 13),
    (
        "{\"effect\":\"Offset\"",
        "{\"layers\":[0],\"effect\":\"Offset\"",
        13,
    ),
    (
        "{\"effect\":\"Offset\"",
        "{\"layers\":0,\"effect\":\"Offset\"",
        13,
    ),
    (
        "{\"effect\":\"Offset\"",
        "{\"layers\":{},\"effect\":\"Offset\"",
        13,
    ),
];

#[test]
fn effects_out_of_form(rt: HostRuntime) -> Result<(), Fail> {
    let alloc = rt.alloc();
    refuses(&rt, alloc, TWO_LAYERS, LAYER, NO_EFFECTS)?;
    refuses(&rt, alloc, EFFECTS, LAYER, NAMES)?;
    refuses(&rt, alloc, EFFECTS, LAYER, KINDS)?;
    refuses(&rt, alloc, EFFECTS, LAYER, UNTHREADED)?;
    refuses(&rt, alloc, EFFECTS, LAYER, PARAMS)?;
    refuses(&rt, alloc, EFFECTS, LAYER, LAYERS)
}

/// Parameters that are no streams.
const STREAMS: &[Row] = &[
    ("\"params\":[3,", "\"params\":[\"3\",", 14),
    ("\"params\":[3,", "\"params\":[null,", 14),
    ("\"params\":[3,", "\"params\":[{},", 14),
    ("\"params\":[3,", "\"params\":[[],", 14),
    ("\"params\":[3,", "\"params\":[[3],", 14),
    ("[1,2]", "[1,[]]", 14),
    ("[1,2]", "[1,false]", 14),
    ("[-4,[0,1],\"linear\"]", "[-4,[0,1]]", 14),
    ("[-4,[0,1],\"linear\"]", "[\"-4\",[0,1],\"linear\"]", 14),
    ("[-4,[0,1],\"linear\"]", "[-4,[0,1],\"linear\",0]", 14),
    ("\"ease\"", "\"Ease\"", 14),
    ("\"ease\"", "2", 14),
];

/// Keyframes whose times are none.
const TIMES: &[Row] = &[
    ("[-4,[0,1],\"linear\"]", "[-4,0,\"linear\"]", 15),
    ("[-4,[0,1],\"linear\"]", "[-4,null,\"linear\"]", 15),
    ("[-4,[0,1],\"linear\"]", "[-4,[0],\"linear\"]", 15),
    ("[-4,[0,1],\"linear\"]", "[-4,[0,0],\"linear\"]", 15),
    ("[5,[1,12],\"ease\"]", "[5,[1,12,0],\"ease\"]", 15),
    ("[5,[1,12],\"ease\"]", "[5,[2147483648,1],\"ease\"]", 15),
    ("[5,[1,12],\"ease\"]", "[5,[1,4294967296],\"ease\"]", 15),
    ("[1,2]", "[1,[[2,[1,-1],\"hold\"]]]", 15),
];

/// Keyframes too far from zero, or that do not rise.
const TICKS: &[Row] = &[
    ("[5,[1,12],\"ease\"]", "[5,[36001,1],\"ease\"]", 23),
    ("[-4,[0,1],\"linear\"]", "[-4,[-72001,2],\"linear\"]", 23),
    ("[1,2]", "[1,[[2,[36001,1],\"hold\"]]]", 23),
    ("[5,[1,12],\"ease\"]", "[5,[0,12],\"ease\"]", 35),
    ("[5,[1,12],\"ease\"]", "[5,[-1,12],\"ease\"]", 35),
    ("[1,2]", "[1,[[2,[1,2],\"hold\"],[2,[2,4],\"hold\"]]]", 35),
];

/// A scale with no base in common with the others.
const BASE: &[Row] = &[("[5,[1,12],\"ease\"]", "[5,[1,2147483647],\"ease\"]", 25)];

/// Values out of their ranges.
const VALUES: &[Row] = &[
    ("\"params\":[3,", "\"params\":[32768,", 37),
    ("\"params\":[3,", "\"params\":[-32769,", 37),
    ("\"params\":[3,", "\"params\":[9223372036854775807,", 37),
    ("\"params\":[3,", "\"params\":[-9223372036854775808,", 37),
    ("[-4,[0,1]", "[-32769,[0,1]", 37),
    ("[5,[1,12]", "[32768,[1,12]", 37),
    ("[1,2]", "[1025,2]", 37),
    ("[1,2]", "[-1025,2]", 37),
    ("[1,2]", "[1,1025]", 37),
    (
        "[1,2]",
        "[1,[[0,[0,1],\"hold\"],[-1025,[1,1],\"hold\"]]]",
        37,
    ),
];

/// What names no layer of two.
const NO_LAYERS: &[Row] = &[
    ("\"layers\":[0]", "\"layers\":[2]", 38),
    ("\"layers\":[0]", "\"layers\":[128]", 38),
    ("\"layers\":[0]", "\"layers\":[-1]", 38),
    ("\"layers\":[0]", "\"layers\":[4294967295]", 38),
    ("\"layers\":[0]", "\"layers\":[4294967296]", 38),
    ("\"layers\":[0]", "\"layers\":[0],\"layers\":[2]", 38),
];

/// What is no sequence data: no text, no hex, an odd count of digits, no entry, and half an entry.
const SEQUENCES: &[Row] = &[
    ("\"000000FFffff\"", "0", 39),
    ("\"000000FFffff\"", "null", 39),
    ("\"000000FFffff\"", "[0,0,0]", 39),
    ("\"000000FFffff\"", "[\"000000\"]", 39),
    ("\"000000FFffff\"", "\"0g\"", 39),
    ("\"000000FFffff\"", "\"0g0000\"", 39),
    ("\"000000FFffff\"", "\"00000g\"", 39),
    ("\"000000FFffff\"", "\"00000\"", 39),
    ("\"000000FFffff\"", "\"0000000\"", 39),
    ("\"000000FFffff\"", "\"0x0000\"", 39),
    ("\"000000FFffff\"", "\"00 000\"", 39),
    ("\"000000FFffff\"", "\"\u{e4}0000\"", 39),
    ("\"000000FFffff\"", "\"\"", 39),
    ("\"000000FFffff\"", "\"000000ff\"", 39),
    (",\"sequence\":\"000000FFffff\"", "", 39),
];

/// Sequence data of effects that have none.
const OTHER_SEQUENCES: &[Row] = &[
    (
        "{\"effect\":\"Offset\"",
        "{\"sequence\":\"00\",\"effect\":\"Offset\"",
        39,
    ),
    (
        "{\"effect\":\"Offset\"",
        "{\"sequence\":null,\"effect\":\"Offset\"",
        39,
    ),
    (
        "{\"effect\":\"Displace\"",
        "{\"sequence\":\"0g\",\"effect\":\"Displace\"",
        39,
    ),
];

#[test]
fn numbers_of_effects(rt: HostRuntime) -> Result<(), Fail> {
    let alloc = rt.alloc();
    refuses(&rt, alloc, EFFECTS, LAYER, STREAMS)?;
    refuses(&rt, alloc, EFFECTS, LAYER, TIMES)?;
    refuses(&rt, alloc, EFFECTS, LAYER, TICKS)?;
    refuses(&rt, alloc, EFFECTS, Place::Project, BASE)?;
    refuses(&rt, alloc, EFFECTS, LAYER, VALUES)?;
    refuses(&rt, alloc, EFFECTS, LAYER, NO_LAYERS)?;
    refuses(&rt, alloc, EFFECTS, LAYER, SEQUENCES)?;
    refuses(&rt, alloc, EFFECTS, LAYER, OTHER_SEQUENCES)
}

/// Effects that are absent, and names that stand twice.
const FORMS: &[Edit] = &[
    ("{\"source\"", "{\"effects\":[],\"source\""),
    ("{\"source\"", "{\"effects\":7,\"effects\":[],\"source\""),
    (
        "{\"source\"",
        "{\"effects\":[{\"effect\":\"Same\"}],\"source\"",
    ),
    ("\"Offset\"", "\"\\u004fffset\""),
    (
        "\"effect\":\"Offset\"",
        "\"effect\":7,\"effect\":\"Offset\"",
    ),
    (
        "\"effect\":\"Palette\"",
        "\"params\":[],\"layers\":[],\"effect\":\"Palette\"",
    ),
    ("\"params\":[1,2]", "\"params\":[1],\"params\":[1,2]"),
    ("\"layers\":[0]", "\"layers\":[2],\"layers\":[0]"),
    ("\"sequence\":\"0", "\"sequence\":0,\"sequence\":\"0"),
];

/// Values and layers at their bounds, and sequence data of one entry and of none.
const BOUNDS: &[Edit] = &[
    ("\"params\":[3,", "\"params\":[32767,"),
    ("\"params\":[3,", "\"params\":[-32768,"),
    ("[-4,[0,1]", "[-32768,[-36000,1]"),
    ("[5,[1,12]", "[32767,[36000,1]"),
    ("[1,2]", "[-1024,1024]"),
    ("[1,2]", "[1024,[[-1024,[0,1],\"hold\"]]]"),
    ("\"layers\":[0]", "\"layers\":[1]"),
    ("\"000000FFffff\"", "\"0A0b0C\""),
    (
        "{\"effect\":\"Offset\"",
        "{\"sequence\":\"\",\"effect\":\"Offset\"",
    ),
];

#[test]
fn effects_that_keep_the_rules(rt: HostRuntime) -> Result<(), Fail> {
    let alloc = rt.alloc();
    reads(&rt, alloc, EFFECTS, FORMS)?;
    reads(&rt, alloc, EFFECTS, BOUNDS)
}

#[test]
fn effects_have_a_bound(rt: HostRuntime) -> Result<(), Fail> {
    for (count, want) in [(0, None), (8, None), (9, rule(10, LAYER))] {
        let effects = repeated(rt.alloc(), "{\"effect\":\"Same\"}", ",", count)?;
        let effects = format!(in rt.alloc(); "\"effects\":[{effects}]")?;
        let edit = ("\"start\":[0,1]", effects.as_str());
        answers(&rt, rt.alloc(), TWO_LAYERS, edit, want)?;
    }
    Ok(())
}

#[test]
fn keyframes_of_parameters_have_a_bound(rt: HostRuntime) -> Result<(), Fail> {
    for (count, want) in [(1, None), (4096, rule(37, LAYER)), (4097, rule(14, LAYER))] {
        let keys = keyframes(rt.alloc(), count)?;
        let params = format!(in rt.alloc(); "[1,[{keys}]]")?;
        answers(&rt, rt.alloc(), EFFECTS, ("[1,2]", params.as_str()), want)?;
    }
    let keys = keyframes(rt.alloc(), 4096)?;
    let params = format!(in rt.alloc(); "\"params\":[[{keys}],")?;
    let edit = ("\"params\":[3,", params.as_str());
    answers(&rt, rt.alloc(), EFFECTS, edit, None)
}

#[test]
fn sequence_data_has_a_bound(rt: HostRuntime) -> Result<(), Fail> {
    for (count, want) in [(1, None), (256, None), (257, rule(39, LAYER))] {
        let entries = repeated(rt.alloc(), "0102Ff", "", count)?;
        let edit = ("000000FFffff", entries.as_str());
        answers(&rt, rt.alloc(), EFFECTS, edit, want)?;
    }
    Ok(())
}

// 26 compositions, each of which but the first nests the one before it: all have eight effects, but for the last, which has so
// many. The first effect of composition k has the rank 10 k + 1, since eight effects and a stack stand between two sources.
fn ranked(alloc: Global, last: usize) -> Result<String, Fail> {
    let front = "\"width\":1,\"height\":1,\"frame\":[1,24],\"frames\":1";
    let effects = repeated(alloc, "{\"effect\":\"Same\"}", ",", 8)?;
    let mut text = format!(in alloc;
        "{{{front},\"layers\":[{{\"source\":{{\"solid\":[1,1,1,1,1,1]}},\"effects\":[{effects}]}}]}}"
    )?;
    for nested in 0..25 {
        let count = if nested < 24 { 8 } else { last };
        let effects = repeated(alloc, "{\"effect\":\"Same\"}", ",", count)?;
        let comp = format!(in alloc;
            ",{{{front},\"layers\":[{{\"source\":{{\"comp\":{nested}}},\"effects\":[{effects}]}}]}}"
        )?;
        text.push_str(comp.as_str())?;
    }
    Ok(format!(in alloc; "{{\"version\":1,\"depth\":8,\"root\":0,\"comps\":[{text}]}}")?)
}

#[test]
fn ranks_have_a_bound(rt: HostRuntime) -> Result<(), Fail> {
    for (last, want) in [(6, None), (7, rule(40, Place::Layer(25, 0)))] {
        let text = ranked(rt.alloc(), last)?;
        assert_eq!(rt; refusal(rt.alloc(), text.as_str()), want);
    }
    Ok(())
}

/// Of two broken rules on the form of effects the lesser number counts, wherever it is broken.
const TWO_FORMS: &[Pair] = &[
    (
        ("{\"source\"", "{\"x\":[],\"source\""),
        ("\"effects\":[", "\"effects\":[{},"),
        10,
        LAYER,
    ),
    (
        ("\"solid\":[7", "\"color\":[7"),
        ("{\"source\"", "{\"effects\":0,\"source\""),
        9,
        LAYER,
    ),
    (
        ("\"Offset\"", "\"Other\""),
        ("\"sequence\"", "\"sequences\""),
        10,
        LAYER,
    ),
    (
        ("\"effects\":[", "\"effects\":[{\"effect\":\"Alone\"},"),
        ("\"Palette\"", "\"Other\""),
        11,
        LAYER,
    ),
    (
        ("\"params\":[3,", "\"params\":["),
        ("\"Palette\"", "\"Other\""),
        11,
        LAYER,
    ),
    (
        ("\"params\":[3,", "\"params\":["),
        ("\"Palette\"", "\"Alone\""),
        12,
        LAYER,
    ),
    (
        ("\"params\":[3,", "\"params\":[\"3\","),
        ("\"layers\":[0]", "\"layers\":[]"),
        13,
        LAYER,
    ),
    (
        ("\"frame\":[1,24]", "\"frame\":24"),
        ("[1,2]", "[1,[]]"),
        14,
        LAYER,
    ),
];

/// The same of times and of the rules on numbers.
const TWO_NUMBERS: &[Pair] = &[
    (("[-4,[0,1]", "[-4,[0,0]"), ("[1,2]", "[1,null]"), 14, LAYER),
    (
        ("\"root\":0", "\"root\":1"),
        ("[-4,[0,1]", "[-4,[0,0]"),
        15,
        LAYER,
    ),
    (
        ("[-4,[0,1]", "[-4,[0,0]"),
        ("{\"source\"", "{\"start\":0,\"source\""),
        15,
        Place::Layer(0, 0),
    ),
    (
        ("{\"source\"", "{\"y\":40000,\"source\""),
        ("[5,[1,12]", "[5,[0,12]"),
        35,
        LAYER,
    ),
    (
        ("\"params\":[3,", "\"params\":[40000,"),
        ("[7,1,9,8,7,6]}", "[7,1,9,8,7,6]},\"x\":40000"),
        36,
        LAYER,
    ),
    (
        ("\"layers\":[0]", "\"layers\":[2]"),
        ("[1,2]", "[1,1025]"),
        37,
        LAYER,
    ),
    (
        ("\"000000FFffff\"", "\"0g\""),
        ("[1,2]", "[1,1025]"),
        37,
        LAYER,
    ),
    (
        ("\"000000FFffff\"", "\"0g\""),
        ("\"layers\":[0]", "\"layers\":[2]"),
        38,
        LAYER,
    ),
];

/// Of one rule the first layer counts, and of rules in one effect too the lesser number.
const PLACES: &[Pair] = &[
    (
        ("{\"source\"", "{\"effects\":0,\"source\""),
        ("\"Offset\"", "\"Other\""),
        10,
        Place::Layer(0, 0),
    ),
    (
        (
            "{\"source\"",
            "{\"effects\":[{\"effect\":\"Other\"}],\"source\"",
        ),
        ("\"Offset\"", "\"Other\""),
        11,
        Place::Layer(0, 0),
    ),
    (
        (
            "{\"source\"",
            "{\"effects\":[{\"effect\":\"Same\",\"params\":[1]}],\"source\"",
        ),
        ("\"Offset\"", "\"Alone\""),
        12,
        LAYER,
    ),
    (
        (
            "{\"source\"",
            "{\"effects\":[{\"effect\":\"Palette\"}],\"source\"",
        ),
        ("\"000000FFffff\"", "\"0g\""),
        39,
        Place::Layer(0, 0),
    ),
    (
        (
            "{\"source\"",
            "{\"effects\":[{\"effect\":\"Palette\"}],\"source\"",
        ),
        ("\"layers\":[0]", "\"layers\":[-1]"),
        38,
        LAYER,
    ),
];

#[test]
fn the_least_rule_counts_at_its_first_place(rt: HostRuntime) -> Result<(), Fail> {
    let alloc = rt.alloc();
    refuses_pairs(&rt, alloc, EFFECTS, TWO_FORMS)?;
    refuses_pairs(&rt, alloc, EFFECTS, TWO_NUMBERS)?;
    refuses_pairs(&rt, alloc, EFFECTS, PLACES)
}
