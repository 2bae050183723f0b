//! Rules on clips, by their numbers. What is broken in a clip is broken in the project outside its compositions.

use crate::edits::{
    Edit, ONE_CLIP, Pair, Row, TWO_CLIPS, answers, read, reads, refuses, refuses_pairs, rule,
};
use project_model::{ClipUse, Item, Place, Project};
use rational_time::Time;
use std::alloc::Global;
use std::process::Abort;
use std::test::Fail;

/// The one clip of its project.
const CLIPS: &str =
    "[{\"name\":\"a.afr\",\"width\":1,\"height\":1,\"depth\":8,\"frame\":[1,24],\"frames\":2}]";

/// What are no clips.
const NO_CLIPS: &[Row] = &[
    (CLIPS, "{}", 5),
    (CLIPS, "null", 5),
    (CLIPS, "\"a.afr\"", 5),
    (CLIPS, "1", 5),
    (CLIPS, "[{}]", 5),
    (CLIPS, "[[]]", 5),
    (CLIPS, "[null]", 5),
    ("\"clips\":[", "\"clips\":[7,", 5),
    ("\"frames\":2}]", "\"frames\":2},{}]", 5),
    ("\"frames\":2}]", "\"frames\":2},\"b\"]", 5),
];

/// Other names of a clip.
const NAMES: &[Row] = &[
    ("\"name\":\"a.afr\",", "", 5),
    ("\"width\":1,", "", 5),
    ("\"height\":1,", "", 5),
    ("\"depth\":8,\"frame\"", "\"frame\"", 5),
    ("\"frame\":[1,24],\"frames\":2", "\"frames\":2", 5),
    (",\"frames\":2", "", 5),
    ("{\"name\"", "{\"path\":\"a\",\"name\"", 5),
    ("{\"name\"", "{\"layers\":[],\"name\"", 5),
    ("\"name\":\"a.afr\"", "\"Name\":\"a.afr\"", 5),
    ("\"frames\":2", "\"width\":2", 5),
];

/// A frame of a clip that is no time.
const NO_TIMES: &[Row] = &[
    ("\"frame\":[1,24]", "\"frame\":24", 15),
    ("\"frame\":[1,24]", "\"frame\":null", 15),
    ("\"frame\":[1,24]", "\"frame\":[1]", 15),
    ("\"frame\":[1,24]", "\"frame\":[1,24,1]", 15),
    ("\"frame\":[1,24]", "\"frame\":[1,\"24\"]", 15),
    ("\"frame\":[1,24]", "\"frame\":[1,0]", 15),
    ("\"frame\":[1,24]", "\"frame\":[1,-24]", 15),
    ("\"frame\":[1,24]", "\"frame\":[2147483648,1]", 15),
    ("\"frame\":[1,24]", "\"frame\":[-2147483649,1]", 15),
    ("\"frame\":[1,24]", "\"frame\":[1,4294967296]", 15),
];

/// The same of the second clip.
const NO_SECOND_TIME: &[Row] = &[("\"frame\":[1,30]", "\"frame\":30", 15)];

#[test]
fn clips_out_of_form(rt: HostRuntime) -> Result<(), Fail> {
    let alloc = rt.alloc();
    refuses(&rt, alloc, ONE_CLIP, Place::Project, NO_CLIPS)?;
    refuses(&rt, alloc, ONE_CLIP, Place::Project, NAMES)?;
    refuses(&rt, alloc, ONE_CLIP, Place::Project, NO_TIMES)?;
    refuses(&rt, alloc, TWO_CLIPS, Place::Project, NO_SECOND_TIME)
}

// So many clips, each of a name of its own.
fn clips_of(alloc: Global, count: u32) -> Result<String, Fail> {
    let mut text = String::new(alloc);
    for i in 0..count {
        let mark = if i > 0 { "," } else { "" };
        let clip = format!(in alloc;
            "{mark}{{\"name\":\"a{i}\",\"width\":1,\"height\":1,\"depth\":8,\"frame\":[1,24],\"frames\":1}}"
        )?;
        text.push_str(clip.as_str())?;
    }
    Ok(text)
}

#[test]
fn clips_have_a_bound(rt: HostRuntime) -> Result<(), Fail> {
    for (count, want) in [
        (0, rule(28, Place::Layer(0, 0))),
        (1, None),
        (64, None),
        (65, rule(5, Place::Project)),
    ] {
        let clips = clips_of(rt.alloc(), count)?;
        let clips = format!(in rt.alloc(); "[{clips}]")?;
        answers(&rt, rt.alloc(), ONE_CLIP, (CLIPS, clips.as_str()), want)?;
    }
    Ok(())
}

/// 64 bytes.
const LONG_NAME: &str = "\"0123456789abcdef0123456789abcdef0123456789abcdef0123456789abcdef\"";

/// 65 bytes.
const LONGER_NAME: &str = "\"0123456789abcdef0123456789abcdef0123456789abcdef0123456789abcdef.\"";

/// What follows in the second clip, and a third one.
const THIRD_CLIP: &str =
    "\"frames\":7},{\"name\":\"c.afr\",\"width\":1,\"height\":1,\"depth\":8,\"frame\":[1,24],\"frames\":1}";

/// What is no name of a clip.
const NO_NAMES: &[Row] = &[
    ("\"a.afr\"", "\"\"", 17),
    ("\"a.afr\"", LONGER_NAME, 17),
    ("\"a.afr\"", "\".a\"", 17),
    ("\"a.afr\"", "\".\"", 17),
    ("\"a.afr\"", "\"..\"", 17),
    ("\"a.afr\"", "\"../a\"", 17),
    ("\"a.afr\"", "\"a/b\"", 17),
    ("\"a.afr\"", "\"/a\"", 17),
    ("\"a.afr\"", "\"a\\\\b\"", 17),
    ("\"a.afr\"", "\"a b\"", 17),
    ("\"a.afr\"", "\"a\\u0000\"", 17),
    ("\"a.afr\"", "\"\u{e4}\"", 17),
    ("\"a.afr\"", "7", 17),
    ("\"a.afr\"", "null", 17),
    ("\"a.afr\"", "[\"a\"]", 17),
];

/// The characters beside those that a name may have.
const NO_CHARACTERS: &[Row] = &[
    ("\"a.afr\"", "\"a`\"", 17),
    ("\"a.afr\"", "\"a{\"", 17),
    ("\"a.afr\"", "\"a@\"", 17),
    ("\"a.afr\"", "\"a[\"", 17),
    ("\"a.afr\"", "\"a:\"", 17),
    ("\"a.afr\"", "\"a^\"", 17),
    ("\"a.afr\"", "\"a,\"", 17),
    ("\"a.afr\"", "\"a+\"", 17),
    ("\"a.afr\"", "\"a\\u007f\"", 17),
];

/// Names of the second clip.
const SECOND_NAMES: &[Row] = &[
    ("\"b.afr\"", "\".b\"", 17),
    ("\"b.afr\"", "\"a.afr\"", 18),
    ("\"b.afr\"", "\"\\u0061.afr\"", 18),
];

/// A third clip with the name of one of the two.
const THIRD_NAMES: &[Pair] = &[
    (
        ("\"frames\":7}", THIRD_CLIP),
        ("\"c.afr\"", "\"a.afr\""),
        18,
        Place::Project,
    ),
    (
        ("\"frames\":7}", THIRD_CLIP),
        ("\"c.afr\"", "\"b.afr\""),
        18,
        Place::Project,
    ),
];

/// Names that clips may have.
const LEGAL_NAMES: &[Edit] = &[
    ("\"a.afr\"", "\"a\""),
    ("\"a.afr\"", "\"z\""),
    ("\"a.afr\"", "\"A\""),
    ("\"a.afr\"", "\"Z\""),
    ("\"a.afr\"", "\"0\""),
    ("\"a.afr\"", "\"9\""),
    ("\"a.afr\"", "\"_\""),
    ("\"a.afr\"", "\"-\""),
    ("\"a.afr\"", "\"a..\""),
    ("\"a.afr\"", "\"-.a\""),
    ("\"a.afr\"", "\"\\u0061\""),
    ("\"a.afr\"", LONG_NAME),
];

/// Names that differ.
const OTHER_NAMES: &[Edit] = &[
    ("\"b.afr\"", "\"A.afr\""),
    ("\"b.afr\"", "\"a.af\""),
    ("\"b.afr\"", "\"a.afr.\""),
    ("\"frames\":7}", THIRD_CLIP),
];

#[test]
fn names_of_clips(rt: HostRuntime) -> Result<(), Fail> {
    let alloc = rt.alloc();
    refuses(&rt, alloc, ONE_CLIP, Place::Project, NO_NAMES)?;
    refuses(&rt, alloc, ONE_CLIP, Place::Project, NO_CHARACTERS)?;
    refuses(&rt, alloc, TWO_CLIPS, Place::Project, SECOND_NAMES)?;
    refuses_pairs(&rt, alloc, TWO_CLIPS, THIRD_NAMES)?;
    reads(&rt, alloc, ONE_CLIP, LEGAL_NAMES)?;
    reads(&rt, alloc, TWO_CLIPS, OTHER_NAMES)
}

/// Sides of a clip out of their bounds.
const SIDES: &[Row] = &[
    ("\"width\":1", "\"width\":0", 19),
    ("\"width\":1", "\"width\":4097", 19),
    ("\"width\":1", "\"width\":-1", 19),
    ("\"width\":1", "\"width\":\"1\"", 19),
    ("\"width\":1", "\"width\":4294967297", 19),
    ("\"height\":1", "\"height\":0", 19),
    ("\"height\":1", "\"height\":4097", 19),
    ("\"height\":1", "\"height\":null", 19),
    (
        "\"width\":1,\"height\":1",
        "\"width\":4096,\"height\":2161",
        19,
    ),
];

/// Other depths of a clip.
const DEPTHS: &[Row] = &[
    ("\"depth\":8,\"frame\"", "\"depth\":7,\"frame\"", 20),
    ("\"depth\":8,\"frame\"", "\"depth\":0,\"frame\"", 20),
    ("\"depth\":8,\"frame\"", "\"depth\":24,\"frame\"", 20),
    ("\"depth\":8,\"frame\"", "\"depth\":32,\"frame\"", 20),
    ("\"depth\":8,\"frame\"", "\"depth\":264,\"frame\"", 20),
    ("\"depth\":8,\"frame\"", "\"depth\":272,\"frame\"", 20),
    (
        "\"depth\":8,\"frame\"",
        "\"depth\":4294967304,\"frame\"",
        20,
    ),
    ("\"depth\":8,\"frame\"", "\"depth\":-8,\"frame\"", 20),
    ("\"depth\":8,\"frame\"", "\"depth\":\"8\",\"frame\"", 20),
    ("\"depth\":8,\"frame\"", "\"depth\":null,\"frame\"", 20),
];

/// Frames of a clip out of their bounds.
const FRAMES: &[Row] = &[
    ("\"frames\":2", "\"frames\":0", 21),
    ("\"frames\":2", "\"frames\":65537", 21),
    ("\"frames\":2", "\"frames\":-2", 21),
    ("\"frames\":2", "\"frames\":\"2\"", 21),
    ("\"frames\":2", "\"frames\":4294967298", 21),
    ("\"frame\":[1,24]", "\"frame\":[0,24]", 22),
    ("\"frame\":[1,24]", "\"frame\":[-1,24]", 22),
    (
        "\"frame\":[1,24],\"frames\":2",
        "\"frame\":[36001,1],\"frames\":1",
        23,
    ),
    ("\"frame\":[1,24]", "\"frame\":[2147483647,1]", 23),
    ("\"frame\":[1,24]", "\"frame\":[36000,1]", 24),
    ("\"frame\":[1,24]", "\"frame\":[36001,2]", 24),
    (
        "\"frame\":[1,24],\"frames\":2",
        "\"frame\":[1,1],\"frames\":36001",
        24,
    ),
    (
        "\"frame\":[1,24],\"frames\":2",
        "\"frame\":[24,1],\"frames\":1501",
        24,
    ),
    ("\"frame\":[1,24]", "\"frame\":[1,89478487]", 25),
    ("\"frame\":[1,24]", "\"frame\":[1,2147483647]", 25),
];

/// The same of the second clip.
const SECOND_CLIP: &[Row] = &[
    ("\"width\":5", "\"width\":0", 19),
    ("\"height\":4", "\"height\":4097", 19),
    ("\"depth\":16", "\"depth\":15", 20),
    ("\"frames\":7", "\"frames\":0", 21),
    ("[1,30]", "[0,30]", 22),
    ("[1,30]", "[36001,1]", 23),
    ("[1,30]", "[36000,1]", 24),
    ("[1,30]", "[1,2147483647]", 25),
];

/// Sides, depths and frames at their bounds.
const BOUNDS: &[Edit] = &[
    ("\"width\":1", "\"width\":4096"),
    ("\"height\":1", "\"height\":4096"),
    ("\"width\":1,\"height\":1", "\"width\":4096,\"height\":2160"),
    ("\"width\":1,\"height\":1", "\"width\":2160,\"height\":4096"),
    ("\"depth\":8,\"frame\"", "\"depth\":16,\"frame\""),
    ("\"frames\":2", "\"frames\":1"),
    ("\"frames\":2", "\"frames\":65536"),
    ("\"frames\":2", "\"frames\":0,\"frames\":1"),
    (
        "\"frame\":[1,24],\"frames\":2",
        "\"frame\":[36000,1],\"frames\":1",
    ),
    ("\"frame\":[1,24]", "\"frame\":[36000,2]"),
    (
        "\"frame\":[1,24],\"frames\":2",
        "\"frame\":[1,1],\"frames\":36000",
    ),
    (
        "\"frame\":[1,24],\"frames\":2",
        "\"frame\":[24,1],\"frames\":1500",
    ),
    ("\"frame\":[1,24]", "\"frame\":[1,89478485]"),
];

#[test]
fn numbers_of_clips(rt: HostRuntime) -> Result<(), Fail> {
    let alloc = rt.alloc();
    refuses(&rt, alloc, ONE_CLIP, Place::Project, SIDES)?;
    refuses(&rt, alloc, ONE_CLIP, Place::Project, DEPTHS)?;
    refuses(&rt, alloc, ONE_CLIP, Place::Project, FRAMES)?;
    refuses(&rt, alloc, TWO_CLIPS, Place::Project, SECOND_CLIP)?;
    reads(&rt, alloc, ONE_CLIP, BOUNDS)
}

/// How many frames a clip has, of which sides and depth.
type Declared = (u32, u32, u32, u32);

// Clips of these sizes, each of a name of its own.
fn clips_sized(alloc: Global, sizes: &[Declared]) -> Result<String, Fail> {
    let mut text = String::new(alloc);
    for (i, (frames, width, height, depth)) in sizes.iter().enumerate() {
        let mark = if i > 0 { "," } else { "" };
        let clip = format!(in alloc;
            "{mark}{{\"name\":\"a{i}\",\"width\":{width},\"height\":{height},\"depth\":{depth},\"frame\":[1,24],\"frames\":{frames}}}"
        )?;
        text.push_str(clip.as_str())?;
    }
    Ok(format!(in alloc; "[{text}]")?)
}

/// A clip has 29 bytes, and four or eight of each pixel. Four clips of 536,870,883 pixels at depth 8 have 2,147,483,648 bytes.
const FITTING: &[&[Declared]] = &[
    &[
        (60, 4096, 2048, 8),
        (3, 4096, 2048, 8),
        (1, 4096, 2047, 8),
        (1, 4067, 1, 8),
    ],
    &[(63, 4096, 2048, 8)],
    &[(31, 4096, 2048, 16)],
    &[(31, 4096, 2048, 8), (16, 4096, 2048, 16)],
];

/// Four bytes more, and with five clips one byte more; a header too many; and counts of bytes beyond 32 bits.
const TOO_LARGE: &[&[Declared]] = &[
    &[
        (60, 4096, 2048, 8),
        (3, 4096, 2048, 8),
        (1, 4096, 2047, 8),
        (1, 4068, 1, 8),
    ],
    &[
        (60, 4096, 2048, 8),
        (3, 4096, 2048, 8),
        (1, 4096, 2047, 8),
        (1, 4059, 1, 8),
        (1, 1, 1, 8),
    ],
    &[(64, 4096, 2048, 8)],
    &[(32, 4096, 2048, 16)],
    &[(63, 4096, 2048, 16)],
    &[(32, 4096, 2048, 8), (16, 4096, 2048, 16)],
    &[(65536, 4096, 2048, 16)],
    &[(128, 4096, 2048, 8)],
];

#[test]
fn bytes_of_clips_have_a_bound(rt: HostRuntime) -> Result<(), Fail> {
    let alloc = rt.alloc();
    for sizes in FITTING {
        let clips = clips_sized(alloc, *sizes)?;
        answers(&rt, alloc, ONE_CLIP, (CLIPS, clips.as_str()), None)?;
    }
    let large = rule(26, Place::Project);
    for sizes in TOO_LARGE {
        let clips = clips_sized(alloc, *sizes)?;
        answers(&rt, alloc, ONE_CLIP, (CLIPS, clips.as_str()), large)?;
    }
    Ok(())
}

// What a clip must say of itself: its name, sides, depth, the length of a frame and its frames.
fn says(rt: &impl Abort, clip: &ClipUse, name: &str, numbers: (u32, u32, u8), frames: (u32, u32)) {
    assert_eq!(rt; clip.name.as_str(), name);
    assert_eq!(rt; (clip.width, clip.height, clip.depth), numbers);
    let frame = Time {
        value: 1,
        scale: frames.0,
    };
    assert_eq!(rt; (clip.frame, clip.frames), (frame, frames.1));
}

// What the layers of the composition of this index show.
fn sources(project: &Project, index: usize) -> Option<(Item, Item)> {
    let comp = project.comps.as_slice().get(index)?;
    match comp.layers.as_slice() {
        [first, second] => Some((first.source, second.source)),
        _ => None,
    }
}

#[test]
fn clips_are_read(rt: HostRuntime) -> Result<(), Fail> {
    let project = read(rt.alloc(), TWO_CLIPS)?;
    let [first, second] = project.clips.as_slice() else {
        return Err("two clips")?;
    };
    says(&rt, first, "a.afr", (3, 1, 8), (25, 2));
    says(&rt, second, "b.afr", (5, 4, 16), (30, 7));
    assert_eq!(rt;
        (project.depth, project.root, project.base.ticks),
        (8, 1, 600)
    );
    let solid = Item::Solid {
        width: 2,
        height: 1,
        a: 255,
        r: 10,
        g: 20,
        b: 30,
    };
    assert_eq!(rt; sources(&project, 0), Some((solid, Item::Clip(1))));
    assert_eq!(rt; sources(&project, 1), Some((Item::Comp(0), Item::Clip(0))));
    Ok(())
}

#[test]
fn one_clip_is_read(rt: HostRuntime) -> Result<(), Fail> {
    let project = read(rt.alloc(), ONE_CLIP)?;
    let [clip] = project.clips.as_slice() else {
        return Err("one clip")?;
    };
    says(&rt, clip, "a.afr", (1, 1, 8), (24, 2));
    Ok(())
}

/// Of two broken rules on the form the lesser number counts, and of one rule the clips before the compositions.
const TWO_FORMS: &[Pair] = &[
    (
        ("\"a.afr\"", "{\"effects\":0}"),
        ("\"frames\":7", "\"frames\":7.5"),
        1,
        Place::Project,
    ),
    (
        ("\"name\":\"a.afr\",", ""),
        ("\"frames\":7", "\"frames\":7.5"),
        1,
        Place::Project,
    ),
    (
        ("\"depth\":8", "\"depth\":9"),
        ("\"name\":\"a.afr\",", ""),
        4,
        Place::Project,
    ),
    (
        ("\"name\":\"a.afr\",", ""),
        ("\"comps\":[", "\"comps\":[7,"),
        5,
        Place::Project,
    ),
    (
        ("[1,25]", "25"),
        ("{\"width\":2", "{\"name\":1,\"width\":2"),
        6,
        Place::Comp(0),
    ),
    (
        ("[1,25]", "25"),
        ("{\"clip\":0}", "{\"clip\":0,\"comp\":0}"),
        9,
        Place::Layer(1, 1),
    ),
    (
        ("[1,30]", "30"),
        ("\"frame\":[1,24],\"frames\":1", "\"frame\":24,\"frames\":1"),
        15,
        Place::Project,
    ),
    (
        ("\"root\":1", "\"root\":2"),
        ("[1,25]", "25"),
        15,
        Place::Project,
    ),
];

/// The same of the rules on numbers.
const TWO_NUMBERS: &[Pair] = &[
    (
        ("\"root\":1", "\"root\":2"),
        ("\"a.afr\"", "\".a\""),
        16,
        Place::Project,
    ),
    (
        ("\"a.afr\"", "\"../a\""),
        ("\"b.afr\"", "\"../a\""),
        17,
        Place::Project,
    ),
    (
        ("\"b.afr\"", "\"a.afr\""),
        ("\"width\":3", "\"width\":0"),
        18,
        Place::Project,
    ),
    (
        ("\"width\":2", "\"width\":0"),
        ("\"width\":5", "\"width\":0"),
        19,
        Place::Project,
    ),
    (
        ("\"width\":2", "\"width\":0"),
        ("\"depth\":16", "\"depth\":24"),
        19,
        Place::Comp(0),
    ),
    (
        ("\"depth\":16", "\"depth\":24"),
        ("\"frames\":2", "\"frames\":0"),
        20,
        Place::Project,
    ),
    (
        ("\"frames\":8", "\"frames\":0"),
        ("[1,25]", "[0,25]"),
        21,
        Place::Comp(1),
    ),
    (
        ("[1,25]", "[0,25]"),
        ("[1,30]", "[36001,1]"),
        22,
        Place::Project,
    ),
];

/// The same of the rules on times and bytes, and of solids.
const TWO_TIMES: &[Pair] = &[
    (
        ("[1,25]", "[36000,1]"),
        ("{\"comp\":0}", "{\"comp\":0},\"start\":[36001,1]"),
        23,
        Place::Layer(1, 0),
    ),
    (
        ("[1,30]", "[36001,1]"),
        ("{\"comp\":0}", "{\"comp\":0},\"start\":[36001,1]"),
        23,
        Place::Project,
    ),
    (
        ("[1,30]", "[36000,1]"),
        ("[1,25]", "[1,2147483647]"),
        24,
        Place::Project,
    ),
    (
        ("[1,25]", "[1,2147483647]"),
        (
            "\"width\":5,\"height\":4,\"depth\":16,\"frame\":[1,30],\"frames\":7",
            "\"width\":4096,\"height\":2048,\"depth\":16,\"frame\":[1,30],\"frames\":32",
        ),
        25,
        Place::Project,
    ),
    (
        (
            "\"width\":5,\"height\":4,\"depth\":16,\"frame\":[1,30],\"frames\":7",
            "\"width\":4096,\"height\":2048,\"depth\":16,\"frame\":[1,30],\"frames\":32",
        ),
        ("[2,1,255,10,20,30]", "[2,1,255,10,20,256]"),
        26,
        Place::Project,
    ),
    (
        ("{\"solid\":[2,1,255,10,20,30]}", "{\"clip\":2}"),
        ("{\"comp\":0}", "{\"solid\":[2,1,255,10,20,256]}"),
        27,
        Place::Layer(1, 0),
    ),
];

#[test]
fn the_least_rule_counts_at_its_first_place(rt: HostRuntime) -> Result<(), Fail> {
    let alloc = rt.alloc();
    refuses_pairs(&rt, alloc, TWO_CLIPS, TWO_FORMS)?;
    refuses_pairs(&rt, alloc, TWO_CLIPS, TWO_NUMBERS)?;
    refuses_pairs(&rt, alloc, TWO_CLIPS, TWO_TIMES)
}
