//! What is read.

use crate::edits::{EFFECTS, Edit, TWO_LAYERS, TWO_PAIRS, read, read_edited, reads};
use param_stream::{Ease, Keyframe, Stream};
use project_model::{Collection, Item, Layer, Project};
use rational_time::Time;
use std::alloc::Global;
use std::process::Abort;
use std::test::Fail;
use track_matte::Matte;
use transfer_mode::Mode;

// What the keyframes of a stream must be, each a value, a time in seconds and a kind.
fn has_keys(rt: &impl Abort, stream: &Stream, want: &[(i64, (i32, u32), Ease)]) {
    assert_eq!(rt; stream.keys().len(), want.len());
    for (key, (value, time, kind)) in stream.keys().iter().zip(want) {
        let time = Time {
            value: time.0,
            scale: time.1,
        };
        let want = Keyframe {
            time,
            value: *value,
            kind: *kind,
        };
        assert_eq!(rt; *key, want);
    }
}

// The layers of the project's one composition.
fn layers(project: &Project) -> &[Layer] {
    match project.comps.as_slice() {
        [comp] => comp.layers.as_slice(),
        _ => &[],
    }
}

#[test]
fn a_composition_is_read(rt: HostRuntime) -> Result<(), Fail> {
    let project = read(rt.alloc(), TWO_LAYERS)?;
    assert_eq!(rt;
        (project.depth, project.root, project.base.ticks),
        (8, 0, 24)
    );
    let [comp] = project.comps.as_slice() else {
        return Err("one composition")?;
    };
    assert_eq!(rt; (comp.width, comp.height, comp.frames), (2, 1, 1));
    assert_eq!(rt; (comp.frame.value, comp.frame.scale), (1, 24));
    Ok(())
}

#[test]
fn a_source_alone_is_read(rt: HostRuntime) -> Result<(), Fail> {
    let project = read(rt.alloc(), TWO_LAYERS)?;
    let [layer, _] = layers(&project) else {
        return Err("two layers")?;
    };
    let solid = Item::Solid {
        width: 2,
        height: 1,
        a: 255,
        r: 10,
        g: 20,
        b: 30,
    };
    assert_eq!(rt; layer.source, solid);
    assert_eq!(rt;
        (layer.start, layer.in_point),
        (Time { value: 0, scale: 1 }, Time { value: 0, scale: 1 })
    );
    assert_eq!(rt; layer.out_point, None);
    assert_eq!(rt; (layer.mode, layer.matte), (Mode::Normal, Matte::None));
    has_keys(&rt, &layer.opacity, &[(10000, (0, 1), Ease::Hold)]);
    has_keys(&rt, &layer.x, &[(0, (0, 1), Ease::Hold)]);
    has_keys(&rt, &layer.y, &[(0, (0, 1), Ease::Hold)]);
    Ok(())
}

#[test]
fn a_whole_layer_is_read(rt: HostRuntime) -> Result<(), Fail> {
    let project = read(rt.alloc(), TWO_LAYERS)?;
    let [_, layer] = layers(&project) else {
        return Err("two layers")?;
    };
    let solid = Item::Solid {
        width: 7,
        height: 1,
        a: 9,
        r: 8,
        g: 7,
        b: 6,
    };
    assert_eq!(rt; layer.source, solid);
    assert_eq!(rt;
        (layer.start, layer.in_point),
        (Time { value: 0, scale: 1 }, Time { value: 0, scale: 2 })
    );
    let end = Time {
        value: 1,
        scale: 24,
    };
    assert_eq!(rt; layer.out_point, Some(end));
    has_keys(&rt, &layer.opacity, &[(5000, (0, 1), Ease::Hold)]);
    let keys = [(3, (0, 1), Ease::Hold), (4, (1, 12), Ease::Linear)];
    has_keys(&rt, &layer.x, &keys);
    has_keys(&rt, &layer.y, &[(-2, (0, 1), Ease::Hold)]);
    Ok(())
}

#[test]
fn effects_are_read(rt: HostRuntime) -> Result<(), Fail> {
    let project = read(rt.alloc(), EFFECTS)?;
    let [first, second] = layers(&project) else {
        return Err("two layers")?;
    };
    assert_eq!(rt; first.effects.as_slice().len(), 0);
    let [offset, displace, palette] = second.effects.as_slice() else {
        return Err("three effects")?;
    };
    assert_eq!(rt; (offset.kind, displace.kind, palette.kind), (0, 1, 2));
    let [dx, dy] = offset.params.as_slice() else {
        return Err("two parameters")?;
    };
    has_keys(&rt, dx, &[(3, (0, 1), Ease::Hold)]);
    has_keys(
        &rt,
        dy,
        &[(-4, (0, 1), Ease::Linear), (5, (1, 12), Ease::Smooth)],
    );
    let [x, y] = displace.params.as_slice() else {
        return Err("two parameters")?;
    };
    has_keys(&rt, x, &[(1, (0, 1), Ease::Hold)]);
    has_keys(&rt, y, &[(2, (0, 1), Ease::Hold)]);
    Ok(())
}

#[test]
fn layers_and_bytes_of_effects_are_read(rt: HostRuntime) -> Result<(), Fail> {
    let project = read(rt.alloc(), EFFECTS)?;
    let [_, layer] = layers(&project) else {
        return Err("two layers")?;
    };
    let [offset, displace, palette] = layer.effects.as_slice() else {
        return Err("three effects")?;
    };
    assert_eq!(rt; offset.layers.as_slice().len(), 0);
    assert_eq!(rt; displace.layers.as_slice(), [0].as_slice());
    assert_eq!(rt; palette.layers.as_slice().len(), 0);
    assert_eq!(rt; offset.sequence.as_slice().len(), 0);
    assert_eq!(rt; displace.sequence.as_slice().len(), 0);
    assert_eq!(rt;
        palette.sequence.as_slice(),
        [0, 0, 0, 255, 255, 255].as_slice()
    );
    assert_eq!(rt; palette.params.as_slice().len(), 0);
    Ok(())
}

#[test]
fn collections_keep_their_elements(rt: HostRuntime) -> Result<(), Fail> {
    let collection = Collection::from_vec([3, 1, 2].to_vec(rt.alloc())?);
    assert_eq!(rt; collection.as_slice(), [3, 1, 2].as_slice());
    assert_eq!(rt; collection.into_vec().as_slice(), [3, 1, 2].as_slice());
    Ok(())
}

// The second layer, where it has this member.
fn second_layer(alloc: Global, member: &str, name: &str) -> Result<(Mode, Matte), Fail> {
    let new = format!(in alloc; "\"{member}\":\"{name}\"")?;
    let project = read_edited(alloc, TWO_LAYERS, "\"start\":[0,1]", new.as_str())?;
    let [_, layer] = layers(&project) else {
        return Err("two layers")?;
    };
    Ok((layer.mode, layer.matte))
}

// Each of these names is read as the mode beside it.
fn reads_modes(rt: &impl Abort, alloc: Global, names: &[(&str, Mode)]) -> Result<(), Fail> {
    for (name, mode) in names {
        let read = second_layer(alloc, "mode", *name)?;
        assert_eq!(rt; read, (*mode, Matte::None), "{name}");
    }
    Ok(())
}

/// The modes in order.
const MODES: &[(&str, Mode)] = &[
    ("Normal", Mode::Normal),
    ("Multiply", Mode::Multiply),
    ("Screen", Mode::Screen),
    ("Darken", Mode::Darken),
    ("Lighten", Mode::Lighten),
    ("Difference", Mode::Difference),
    ("Exclusion", Mode::Exclusion),
    ("Add", Mode::Add),
    ("Subtract", Mode::Subtract),
    ("LinearBurn", Mode::LinearBurn),
    ("HardLight", Mode::HardLight),
];

/// The rest of them.
const MORE_MODES: &[(&str, Mode)] = &[
    ("Overlay", Mode::Overlay),
    ("LinearLight", Mode::LinearLight),
    ("PinLight", Mode::PinLight),
    ("HardMix", Mode::HardMix),
    ("ColorDodge", Mode::ColorDodge),
    ("ColorBurn", Mode::ColorBurn),
    ("StencilAlpha", Mode::StencilAlpha),
    ("SilhouetteAlpha", Mode::SilhouetteAlpha),
    ("StencilLuma", Mode::StencilLuma),
    ("SilhouetteLuma", Mode::SilhouetteLuma),
];

#[test]
fn modes_are_read_by_their_names(rt: HostRuntime) -> Result<(), Fail> {
    reads_modes(&rt, rt.alloc(), MODES)?;
    reads_modes(&rt, rt.alloc(), MORE_MODES)
}

#[test]
fn mattes_are_read_by_their_names(rt: HostRuntime) -> Result<(), Fail> {
    for (name, matte) in [
        ("None", Matte::None),
        ("Alpha", Matte::Alpha),
        ("AlphaInverted", Matte::AlphaInverted),
        ("Luma", Matte::Luma),
        ("LumaInverted", Matte::LumaInverted),
    ] {
        let read = second_layer(rt.alloc(), "matte", name)?;
        assert_eq!(rt; read, (Mode::Normal, matte), "{name}");
    }
    Ok(())
}

/// Sides at their bounds, and a name that stands twice.
const SIDES: &[Edit] = &[
    ("{\"version\":1", " {\"version\" : 3,\n\t\"version\":1"),
    ("\"width\":2", "\"width\":1"),
    ("\"width\":2", "\"width\":4096"),
    ("\"height\":1", "\"height\":4096"),
    ("\"width\":2,\"height\":1", "\"width\":4096,\"height\":2160"),
    ("\"width\":2,\"height\":1", "\"height\":4096,\"width\":2160"),
];

/// Frames at their bounds.
const FRAMES: &[Edit] = &[
    ("\"frames\":1", "\"frames\":65536"),
    ("\"frames\":1", "\"frames\":0,\"frames\":1"),
    ("\"frame\":[1,24]", "\"frame\":[36000,1]"),
    (
        "\"frame\":[1,24],\"frames\":1",
        "\"frame\":[1,1],\"frames\":36000",
    ),
    (
        "\"frame\":[1,24],\"frames\":1",
        "\"frame\":[24,1],\"frames\":1500",
    ),
    (
        "\"frame\":[1,24],\"frames\":1",
        "\"frame\":[36000,1],\"frames\":2,\"frames\":1",
    ),
];

/// Solids at their bounds, at depth 8.
const SOLIDS: &[Edit] = &[
    ("[2,1,255,10,20,30]", "[1,1,0,0,0,0]"),
    ("[2,1,255,10,20,30]", "[4096,1,30,30,30,30]"),
    ("[2,1,255,10,20,30]", "[1,4096,255,255,255,255]"),
    ("[2,1,255,10,20,30]", "[4096,2160,255,0,0,0]"),
];

/// The same at depth 16.
const WIDE_SOLIDS: &[Edit] = &[
    ("[1,1,4,0,0,0]", "[1,1,256,256,256,256]"),
    ("[1,1,4,0,0,0]", "[1,1,32768,32768,0,1]"),
];

/// Times at their bounds.
const TIMES: &[Edit] = &[
    ("\"start\":[0,1]", "\"start\":[36000,1]"),
    ("\"start\":[0,1]", "\"start\":[-36000,1]"),
    ("\"start\":[0,1]", "\"start\":[72000,2]"),
    ("\"start\":[0,1]", "\"start\":[0,89478485]"),
    ("\"in\":[0,2]", "\"in\":[1,24]"),
    ("\"in\":[0,2]", "\"in\":[-5,1]"),
    ("\"in\":[0,2],\"out\":[1,24]", "\"in\":[2,48]"),
    ("\"out\":[1,24]", "\"out\":[0,1]"),
    ("\"out\":[1,24]", "\"out\":[36000,1]"),
    (
        ",{\"source\":{\"solid\":[7,1,9,8,7,6]},\"start\":[0,1]",
        ",{\"source\":{\"solid\":[7,1,9,8,7,6]}",
    ),
];

/// Streams at their bounds.
const STREAMS: &[Edit] = &[
    ("\"opacity\":5000", "\"opacity\":0"),
    ("\"opacity\":5000", "\"opacity\":10000"),
    ("\"opacity\":5000", "\"opacity\":[[0,[-1,2],\"ease\"]]"),
    ("\"y\":-2", "\"y\":-32768"),
    ("\"y\":-2", "\"y\":32767"),
    ("[3,[0,1],\"hold\"]", "[-32768,[0,1],\"hold\"]"),
    ("[4,[1,12],\"linear\"]", "[32767,[1,1],\"ease\"]"),
    ("[4,[1,12],\"linear\"]", "[4,[1,48],\"linear\"]"),
    ("[4,[1,12],\"linear\"]", "[4,[36000,1],\"linear\"]"),
];

#[test]
fn bounds_are_read(rt: HostRuntime) -> Result<(), Fail> {
    let alloc = rt.alloc();
    reads(&rt, alloc, TWO_LAYERS, SIDES)?;
    reads(&rt, alloc, TWO_LAYERS, FRAMES)?;
    reads(&rt, alloc, TWO_LAYERS, SOLIDS)?;
    reads(&rt, alloc, TWO_PAIRS, WIDE_SOLIDS)?;
    reads(&rt, alloc, TWO_LAYERS, TIMES)?;
    reads(&rt, alloc, TWO_LAYERS, STREAMS)
}

/// A depth, modes and mattes.
const BUILT: &[Edit] = &[
    ("\"depth\":8", "\"depth\":16"),
    ("\"depth\":8", "\"depth\":8,\"depth\":16"),
    ("\"start\":[0,1]", "\"mode\":\"Normal\""),
    ("\"start\":[0,1]", "\"matte\":\"None\""),
    ("\"start\":[0,1]", "\"mode\":\"Foo\",\"mode\":\"Add\""),
    ("\"start\":[0,1]", "\"mode\":\"\\u0041dd\""),
    ("\"start\":[0,1]", "\"matte\":0,\"matte\":\"Luma\""),
    ("{\"source\"", "{\"mode\":\"StencilAlpha\",\"source\""),
    ("{\"source\"", "{\"matte\":\"None\",\"source\""),
];

/// Each matte has a layer above it that has none itself.
const PAIRS: &[Edit] = &[
    ("\"Alpha\"", "\"AlphaInverted\""),
    ("\"Alpha\"", "\"None\""),
    ("\"LumaInverted\"", "\"Luma\""),
    ("{\"source\"", "{\"matte\":\"None\",\"source\""),
    ("\"matte\":\"Alpha\"", "\"mode\":\"Screen\""),
    (
        "\"matte\":\"Alpha\"",
        "\"matte\":\"Alpha\",\"mode\":\"Overlay\"",
    ),
];

#[test]
fn depths_modes_and_mattes_are_read(rt: HostRuntime) -> Result<(), Fail> {
    let alloc = rt.alloc();
    reads(&rt, alloc, TWO_LAYERS, BUILT)?;
    reads(&rt, alloc, TWO_PAIRS, PAIRS)
}
