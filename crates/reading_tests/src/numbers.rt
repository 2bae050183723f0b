//! Rules on a project's numbers and names, by their numbers.

use crate::edits::{
    ONE_LAYER, Pair, Row, TWO_LAYERS, TWO_PAIRS, answers, edited, refuses, refuses_pairs, rule,
};
use project_model::Place;
use std::test::Fail;

// The common base of all scales at its bound: 2147483647 is prime, and 2147483648 is twice 1073741824.
#[test]
fn common_bases_have_a_bound(rt: HostRuntime) -> Result<(), Fail> {
    let broken = rule(25, Place::Project);
    let frame = "\"frame\":[1,24]";
    for (scales, want) in [
        ("\"frame\":[1,2147483647]", None),
        ("\"frame\":[1,2147483648]", broken),
        ("\"frame\":[1,1073741824]", None),
    ] {
        answers(&rt, rt.alloc(), ONE_LAYER, (frame, scales), want)?;
        let text = edited(rt.alloc(), ONE_LAYER, frame, scales)?;
        let edit = ("{\"source\"", "{\"start\":[0,3],\"source\"");
        answers(&rt, rt.alloc(), text.as_str(), edit, broken)?;
    }
    Ok(())
}

/// Roots that are none, and scales with no common base.
const ROOTS_AND_BASES: &[Row] = &[
    ("\"root\":0,", "", 16),
    ("\"root\":0", "\"root\":1", 16),
    ("\"root\":0", "\"root\":-1", 16),
    ("\"root\":0", "\"root\":4294967296", 16),
    ("\"root\":0", "\"root\":\"0\"", 16),
    ("\"root\":0", "\"root\":[0]", 16),
    ("\"frame\":[1,24]", "\"frame\":[1,4294967295]", 25),
    ("\"start\":[0,1]", "\"start\":[0,2147483647]", 25),
    ("\"start\":[0,1]", "\"start\":[0,89478487]", 25),
];

#[test]
fn rules_broken_in_the_project(rt: HostRuntime) -> Result<(), Fail> {
    let alloc = rt.alloc();
    refuses(&rt, alloc, TWO_LAYERS, Place::Project, ROOTS_AND_BASES)
}

/// Sides out of their bounds.
const SIDES: &[Row] = &[
    ("\"width\":2", "\"width\":0", 19),
    ("\"width\":2", "\"width\":4097", 19),
    ("\"width\":2", "\"width\":-2", 19),
    ("\"width\":2", "\"width\":\"2\"", 19),
    ("\"width\":2", "\"width\":4294967298", 19),
    ("\"height\":1", "\"height\":0", 19),
    ("\"height\":1", "\"height\":4097", 19),
    ("\"height\":1", "\"height\":{}", 19),
    (
        "\"width\":2,\"height\":1",
        "\"width\":4096,\"height\":2161",
        19,
    ),
];

/// Counts of frames out of their bounds.
const FRAMES: &[Row] = &[
    ("\"frames\":1", "\"frames\":0", 21),
    ("\"frames\":1", "\"frames\":65537", 21),
    ("\"frames\":1", "\"frames\":-9223372036854775808", 21),
    ("\"frames\":1", "\"frames\":9223372036854775807", 21),
    ("\"frames\":1", "\"frames\":[1]", 21),
    ("\"frames\":1", "\"frames\":1,\"frames\":0", 21),
];

/// Frames that are too short or too long.
const LENGTHS: &[Row] = &[
    ("\"frame\":[1,24]", "\"frame\":[0,24]", 22),
    ("\"frame\":[1,24]", "\"frame\":[-2147483648,1]", 22),
    ("\"frame\":[1,24]", "\"frame\":[36001,1]", 23),
    ("\"frame\":[1,24]", "\"frame\":[2147483647,1]", 23),
    (
        "\"frame\":[1,24],\"frames\":1",
        "\"frame\":[1,1],\"frames\":36001",
        24,
    ),
    (
        "\"frame\":[1,24],\"frames\":1",
        "\"frame\":[24,1],\"frames\":1501",
        24,
    ),
    (
        "\"frame\":[1,24],\"frames\":1",
        "\"frame\":[36000,1],\"frames\":2",
        24,
    ),
];

#[test]
fn rules_broken_in_a_composition(rt: HostRuntime) -> Result<(), Fail> {
    let alloc = rt.alloc();
    refuses(&rt, alloc, TWO_LAYERS, Place::Comp(0), SIDES)?;
    refuses(&rt, alloc, TWO_LAYERS, Place::Comp(0), FRAMES)?;
    refuses(&rt, alloc, TWO_LAYERS, Place::Comp(0), LENGTHS)
}

/// Colours that are none at depth 8.
const COLOURS: &[Row] = &[
    ("[2,1,255,10,20,30]", "[2,1,256,10,20,30]", 27),
    ("[2,1,255,10,20,30]", "[2,1,-1,0,0,0]", 27),
    ("[2,1,255,10,20,30]", "[2,1,20,21,20,20]", 27),
    ("[2,1,255,10,20,30]", "[2,1,20,20,21,20]", 27),
    ("[2,1,255,10,20,30]", "[2,1,20,20,20,21]", 27),
    ("[2,1,255,10,20,30]", "[2,1,255,10,20]", 27),
    ("[2,1,255,10,20,30]", "[2,1,255,10,20,30,40]", 27),
    ("[2,1,255,10,20,30]", "[2,1,255,10,20,\"30\"]", 27),
    ("[2,1,255,10,20,30]", "[2,1,255,10,20,4294967296]", 27),
    ("[2,1,255,10,20,30]", "{}", 27),
];

/// The same in the second layer.
const SECOND_COLOUR: &[Row] = &[("[7,1,9,8,7,6]", "[7,1,9,8,7,10]", 27)];

/// Sides of a solid out of their bounds.
const SOLID_SIDES: &[Row] = &[
    ("[2,1,255,10,20,30]", "[0,1,255,10,20,30]", 27),
    ("[2,1,255,10,20,30]", "[2,0,255,10,20,30]", 27),
    ("[2,1,255,10,20,30]", "[4097,1,255,10,20,30]", 27),
    ("[2,1,255,10,20,30]", "[1,4097,255,10,20,30]", 27),
    ("[2,1,255,10,20,30]", "[4096,2161,255,10,20,30]", 27),
];

/// Colours that are none at depth 16.
const WIDE_COLOURS: &[Row] = &[
    ("[1,1,4,0,0,0]", "[1,1,32769,0,0,0]", 27),
    ("[1,1,4,0,0,0]", "[1,1,65535,65535,65535,65535]", 27),
    ("[1,1,4,0,0,0]", "[1,1,32767,32768,0,0]", 27),
    ("[1,1,4,0,0,0]", "[1,1,32767,0,32768,0]", 27),
    ("[1,1,4,0,0,0]", "[1,1,32767,0,0,32768]", 27),
    ("[1,1,4,0,0,0]", "[1,1,-1,0,0,0]", 27),
];

#[test]
fn solids_that_are_refused(rt: HostRuntime) -> Result<(), Fail> {
    let alloc = rt.alloc();
    refuses(&rt, alloc, TWO_LAYERS, Place::Layer(0, 0), COLOURS)?;
    refuses(&rt, alloc, TWO_LAYERS, Place::Layer(0, 1), SECOND_COLOUR)?;
    refuses(&rt, alloc, TWO_LAYERS, Place::Layer(0, 0), SOLID_SIDES)?;
    refuses(&rt, alloc, TWO_PAIRS, Place::Layer(0, 3), WIDE_COLOURS)
}

/// What names no mode.
const MODES: &[Row] = &[
    ("\"start\":[0,1]", "\"mode\":\"Foo\"", 31),
    ("\"start\":[0,1]", "\"mode\":\"normal\"", 31),
    ("\"start\":[0,1]", "\"mode\":\"SCREEN\"", 31),
    ("\"start\":[0,1]", "\"mode\":\"Normal \"", 31),
    ("\"start\":[0,1]", "\"mode\":\"Linear Burn\"", 31),
    ("\"start\":[0,1]", "\"mode\":\"Dissolve\"", 31),
    ("\"start\":[0,1]", "\"mode\":\"Alpha\"", 31),
    ("\"start\":[0,1]", "\"mode\":0", 31),
    ("\"start\":[0,1]", "\"mode\":null", 31),
    ("\"start\":[0,1]", "\"mode\":\"\"", 31),
    ("\"start\":[0,1]", "\"mode\":[\"Normal\"]", 31),
    ("\"start\":[0,1]", "\"mode\":\"Add\",\"mode\":\"Foo\"", 31),
];

/// What names no matte.
const MATTES: &[Row] = &[
    ("\"start\":[0,1]", "\"matte\":\"Foo\"", 32),
    ("\"start\":[0,1]", "\"matte\":\"none\"", 32),
    ("\"start\":[0,1]", "\"matte\":\"ALPHA\"", 32),
    ("\"start\":[0,1]", "\"matte\":\"Lumainverted\"", 32),
    ("\"start\":[0,1]", "\"matte\":\" Luma\"", 32),
    ("\"start\":[0,1]", "\"matte\":\"Normal\"", 32),
    ("\"start\":[0,1]", "\"matte\":1", 32),
    ("\"start\":[0,1]", "\"matte\":null", 32),
    ("\"start\":[0,1]", "\"matte\":false", 32),
    ("\"start\":[0,1]", "\"matte\":\"\"", 32),
    ("\"start\":[0,1]", "\"matte\":{\"Alpha\":1}", 32),
    ("\"start\":[0,1]", "\"matte\":\"Luma\",\"matte\":0", 32),
];

/// A matte of the third layer, below a layer with a matte.
const THIRD_MATTE: &[Row] = &[("[1,1,3,0,0,0]}", "[1,1,3,0,0,0]},\"matte\":\"Luma\"", 33)];

/// The third layer has a matte that may stand there, and the fourth has its own.
const FOURTH_MATTE: &[Row] = &[(
    "\"matte\":\"Alpha\"},{",
    "\"matte\":\"None\"},{\"matte\":\"Alpha\",",
    33,
)];

/// Mattes of the topmost layer.
const FIRST_MATTES: &[Row] = &[
    ("{\"source\"", "{\"matte\":\"Alpha\",\"source\"", 33),
    ("{\"source\"", "{\"matte\":\"AlphaInverted\",\"source\"", 33),
    ("{\"source\"", "{\"matte\":\"Luma\",\"source\"", 33),
    ("{\"source\"", "{\"matte\":\"LumaInverted\",\"source\"", 33),
];

#[test]
fn modes_and_mattes_that_are_refused(rt: HostRuntime) -> Result<(), Fail> {
    let alloc = rt.alloc();
    refuses(&rt, alloc, TWO_LAYERS, Place::Layer(0, 1), MODES)?;
    refuses(&rt, alloc, TWO_LAYERS, Place::Layer(0, 1), MATTES)?;
    refuses(&rt, alloc, TWO_PAIRS, Place::Layer(0, 2), THIRD_MATTE)?;
    refuses(&rt, alloc, TWO_PAIRS, Place::Layer(0, 3), FOURTH_MATTE)?;
    refuses(&rt, alloc, ONE_LAYER, Place::Layer(0, 0), FIRST_MATTES)?;
    refuses(&rt, alloc, TWO_PAIRS, Place::Layer(0, 0), FIRST_MATTES)
}

/// Times that are too far from zero.
const FAR_TIMES: &[Row] = &[
    ("\"start\":[0,1]", "\"start\":[36001,1]", 23),
    ("\"start\":[0,1]", "\"start\":[-36001,1]", 23),
    ("\"start\":[0,1]", "\"start\":[72001,2]", 23),
    ("\"in\":[0,2]", "\"in\":[36001,1]", 23),
    ("\"out\":[1,24]", "\"out\":[36001,1]", 23),
    ("[4,[1,12],\"linear\"]", "[4,[36001,1],\"linear\"]", 23),
];

/// Layers that end before they begin.
const SPANS: &[Row] = &[
    ("\"in\":[0,2]", "\"in\":[1,12]", 34),
    ("\"out\":[1,24]", "\"out\":[-1,24]", 34),
    ("\"in\":[0,2],\"out\":[1,24]", "\"in\":[1,23]", 34),
];

/// The first layer, which ends with its composition.
const FIRST_SPAN: &[Row] = &[(
    "{\"source\":{\"solid\":[2",
    "{\"in\":[2,1],\"source\":{\"solid\":[2",
    34,
)];

/// Keyframes that do not rise, and values out of their range.
const STREAMS: &[Row] = &[
    ("[4,[1,12],\"linear\"]", "[4,[0,24],\"linear\"]", 35),
    ("[4,[1,12],\"linear\"]", "[4,[-1,24],\"linear\"]", 35),
    (
        "\"y\":-2",
        "\"y\":[[1,[1,2],\"hold\"],[1,[2,4],\"hold\"]]",
        35,
    ),
    ("\"opacity\":5000", "\"opacity\":10001", 36),
    ("\"opacity\":5000", "\"opacity\":-1", 36),
    ("\"opacity\":5000", "\"opacity\":9223372036854775807", 36),
    ("\"y\":-2", "\"y\":32768", 36),
    ("\"y\":-2", "\"y\":-32769", 36),
    ("[3,[0,1],\"hold\"]", "[32768,[0,1],\"hold\"]", 36),
    ("[4,[1,12],\"linear\"]", "[-32769,[1,12],\"linear\"]", 36),
];

/// The same in the first layer.
const FIRST_STREAM: &[Row] = &[(
    "{\"source\":{\"solid\":[2",
    "{\"y\":-9223372036854775808,\"source\":{\"solid\":[2",
    36,
)];

#[test]
fn times_and_streams_that_are_refused(rt: HostRuntime) -> Result<(), Fail> {
    let alloc = rt.alloc();
    refuses(&rt, alloc, TWO_LAYERS, Place::Layer(0, 1), FAR_TIMES)?;
    refuses(&rt, alloc, TWO_LAYERS, Place::Layer(0, 1), SPANS)?;
    refuses(&rt, alloc, TWO_LAYERS, Place::Layer(0, 0), FIRST_SPAN)?;
    refuses(&rt, alloc, TWO_LAYERS, Place::Layer(0, 1), STREAMS)?;
    refuses(&rt, alloc, TWO_LAYERS, Place::Layer(0, 0), FIRST_STREAM)
}

/// Of two broken rules the lesser number counts.
const TWO_RULES: &[Pair] = &[
    (
        ("\"root\":0", "\"root\":1"),
        ("\"width\":2", "\"width\":0"),
        16,
        Place::Project,
    ),
    (
        ("\"frames\":1", "\"frames\":0"),
        ("\"height\":1", "\"height\":0"),
        19,
        Place::Comp(0),
    ),
    (
        ("\"frames\":1", "\"frames\":0"),
        ("\"frame\":[1,24]", "\"frame\":[0,24]"),
        21,
        Place::Comp(0),
    ),
    (
        ("\"frame\":[1,24]", "\"frame\":[0,24]"),
        ("\"start\":[0,1]", "\"start\":[36001,1]"),
        22,
        Place::Comp(0),
    ),
    (
        (
            "\"frame\":[1,24],\"frames\":1",
            "\"frame\":[36000,1],\"frames\":2",
        ),
        ("\"start\":[0,1]", "\"start\":[36001,1]"),
        23,
        Place::Layer(0, 1),
    ),
    (
        (
            "\"frame\":[1,24],\"frames\":1",
            "\"frame\":[36000,1],\"frames\":2",
        ),
        ("\"start\":[0,1]", "\"start\":[0,4294967295]"),
        24,
        Place::Comp(0),
    ),
    (
        ("\"start\":[0,1]", "\"start\":[0,4294967295]"),
        ("[2,1,255,10,20,30]", "[2,1,255,10,20,256]"),
        25,
        Place::Project,
    ),
];

/// The same in layers, and of one rule the first place.
const TWO_LAYER_RULES: &[Pair] = &[
    (
        ("[2,1,255,10,20,30]", "[2,1,255,10,20,256]"),
        ("\"in\":[0,2]", "\"in\":[1,2]"),
        27,
        Place::Layer(0, 0),
    ),
    (
        ("[2,1,255,10,20,30]", "[2,1,255,10,20,256]"),
        ("[7,1,9,8,7,6]", "[7,1,9,8,7,10]"),
        27,
        Place::Layer(0, 0),
    ),
    (
        ("\"in\":[0,2]", "\"in\":[1,2]"),
        ("[4,[1,12]", "[4,[0,12]"),
        34,
        Place::Layer(0, 1),
    ),
    (
        ("[4,[1,12]", "[4,[0,12]"),
        ("\"opacity\":5000", "\"opacity\":10001"),
        35,
        Place::Layer(0, 1),
    ),
    (
        ("{\"source\"", "{\"y\":40000,\"source\""),
        ("\"y\":-2", "\"y\":40000"),
        36,
        Place::Layer(0, 0),
    ),
];

/// The same among the rules on modes and mattes, and against those before and after them.
const MIXED_RULES: &[Pair] = &[
    (
        ("{\"source\"", "{\"mode\":\"Foo\",\"source\""),
        ("[7,1,9,8,7,6]", "[7,1,9,8,7,10]"),
        27,
        Place::Layer(0, 1),
    ),
    (
        ("{\"source\"", "{\"mode\":\"Foo\",\"source\""),
        ("\"start\":[0,1]", "\"mode\":\"Foo\""),
        31,
        Place::Layer(0, 0),
    ),
    (
        ("{\"source\"", "{\"matte\":\"Foo\",\"source\""),
        ("\"start\":[0,1]", "\"mode\":\"Foo\""),
        31,
        Place::Layer(0, 1),
    ),
    (
        ("{\"source\"", "{\"in\":[1,1],\"source\""),
        ("\"start\":[0,1]", "\"mode\":\"Foo\""),
        31,
        Place::Layer(0, 1),
    ),
    (
        ("{\"source\"", "{\"matte\":\"Foo\",\"source\""),
        ("\"start\":[0,1]", "\"matte\":\"Foo\""),
        32,
        Place::Layer(0, 0),
    ),
    (
        ("{\"source\"", "{\"matte\":\"Alpha\",\"source\""),
        ("\"start\":[0,1]", "\"matte\":\"Foo\""),
        32,
        Place::Layer(0, 1),
    ),
    (
        ("{\"source\"", "{\"matte\":\"Alpha\",\"source\""),
        ("\"start\":[0,1]", "\"matte\":\"Alpha\""),
        33,
        Place::Layer(0, 0),
    ),
];

/// The same where layers have others as their mattes.
const MATTE_RULES: &[Pair] = &[
    (
        ("{\"source\"", "{\"in\":[1,1],\"source\""),
        ("[1,1,3,0,0,0]}", "[1,1,3,0,0,0]},\"matte\":\"Luma\""),
        33,
        Place::Layer(0, 2),
    ),
    (
        ("{\"source\"", "{\"y\":40000,\"source\""),
        ("[1,1,3,0,0,0]}", "[1,1,3,0,0,0]},\"matte\":\"Luma\""),
        33,
        Place::Layer(0, 2),
    ),
    (
        ("{\"source\"", "{\"matte\":\"Luma\",\"source\""),
        ("[1,1,3,0,0,0]}", "[1,1,3,0,0,0]},\"matte\":\"Luma\""),
        33,
        Place::Layer(0, 0),
    ),
    (
        ("{\"source\"", "{\"matte\":\"Luma\",\"source\""),
        ("\"LumaInverted\"", "\"lumainverted\""),
        32,
        Place::Layer(0, 3),
    ),
];

#[test]
fn the_least_rule_counts_at_its_first_place(rt: HostRuntime) -> Result<(), Fail> {
    let alloc = rt.alloc();
    refuses_pairs(&rt, alloc, TWO_LAYERS, TWO_RULES)?;
    refuses_pairs(&rt, alloc, TWO_LAYERS, TWO_LAYER_RULES)?;
    refuses_pairs(&rt, alloc, TWO_LAYERS, MIXED_RULES)?;
    refuses_pairs(&rt, alloc, TWO_PAIRS, MATTE_RULES)
}
