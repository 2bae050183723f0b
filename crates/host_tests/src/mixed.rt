//! Modes, mattes and depth 16, worked by hand, through whole runs.

use crate::drawn::{pixels, rendered};
use std::alloc::Global;
use std::process::Abort;
use std::sync::Wait;
use std::test::Fail;
use std::thread::Threads;

/// A layer of one pixel: its colour, written as alpha, red, green and blue, and its other members.
type Dot = (&'static str, &'static str);

/// The upper and the lower layer, and the bytes of the pixel that they make.
type Row = (Dot, Dot, &'static [u8]);

/// The width and the members of a white layer, the members of a row of three pixels under it, and the picture of both.
type Cover = ((u32, &'static str), &'static str, &'static str);

// At depth 8.
const HALF: Dot = ("255,255,255,255", ",\"opacity\":5000");

const BLUE: Dot = ("255,0,0,255", "");

const RED: &str = "255,255,0,0";

const DODGE: &str = ",\"mode\":\"ColorDodge\"";

// At depth 16.
const CLEAR: Dot = ("0,0,0,0", "");

const BLACK: Dot = ("32768,0,0,0", "");

const GREY: &str = "32768,16384,16384,16384";

const WHITE: &str = "32768,32768,32768,32768";

const WHITE_BYTES: &[u8] = &[0x80, 0, 0x80, 0, 0x80, 0, 0x80, 0];

/// The text of that layer.
fn layer(alloc: Global, (colour, members): (&str, &str)) -> Result<String, Fail> {
    Ok(format!(in alloc; "{{\"source\":{{\"solid\":[1,1,{colour}]}}{members}}}")?)
}

/// Renders each row at this depth.
fn makes(
    rt: &(impl Abort + Threads + Wait + Sync),
    alloc: Global,
    depth: u32,
    rows: &[Row],
) -> Result<(), Fail> {
    for (above, below, want) in rows {
        let above = layer(alloc, *above)?;
        let below = layer(alloc, *below)?;
        let layers = format!(in alloc; "{above},{below}")?;
        let bytes = rendered(rt, alloc, depth, 1, 1, layers.as_str())?;
        assert_eq!(rt; bytes.as_slice(), *want, "{layers}");
    }
    Ok(())
}

/// Half opaque white is (128,128,128,128). Where a matte's value is v, each channel c under it becomes (c * v + 127) / 255.
const LET_THROUGH: &[Row] = &[
    (HALF, (RED, ",\"matte\":\"Alpha\""), &[128, 128, 0, 0]),
    (
        HALF,
        (RED, ",\"matte\":\"AlphaInverted\""),
        &[127, 127, 0, 0],
    ),
    (HALF, (RED, ",\"matte\":\"Luma\""), &[128, 128, 0, 0]),
    (
        HALF,
        (RED, ",\"matte\":\"LumaInverted\""),
        &[127, 127, 0, 0],
    ),
    (HALF, (RED, ",\"matte\":\"None\""), &[255, 255, 128, 128]),
    (BLUE, (RED, ",\"matte\":\"Alpha\""), &[255, 255, 0, 0]),
    (BLUE, (RED, ",\"matte\":\"AlphaInverted\""), &[0, 0, 0, 0]),
    // (29 * 255 + 128) / 256 is 29, and 255 - 29 is 226.
    (BLUE, (RED, ",\"matte\":\"Luma\""), &[29, 29, 0, 0]),
    (
        BLUE,
        (RED, ",\"matte\":\"LumaInverted\""),
        &[226, 226, 0, 0],
    ),
    (
        ("0,0,0,0", ""),
        ("255,200,100,0", ",\"matte\":\"LumaInverted\""),
        &[255, 200, 100, 0],
    ),
    (
        ("255,128,128,128", ""),
        ("255,200,100,0", ",\"matte\":\"LumaInverted\""),
        &[127, 100, 50, 0],
    ),
    (
        ("255,255,255,255", ""),
        ("255,200,100,0", ",\"matte\":\"LumaInverted\""),
        &[0, 0, 0, 0],
    ),
];

#[test]
fn a_matte_lets_through(rt: HostRuntime) -> Result<(), Fail> {
    makes(&rt, rt.alloc(), 8, LET_THROUGH)
}

/// Opaque colours: the product in parts of 255, what it leaves of the sum, and the difference. White dodges all but black.
const MIXED: &[Row] = &[
    (
        ("255,128,128,128", ",\"mode\":\"Multiply\""),
        ("255,128,128,128", ""),
        &[255, 64, 64, 64],
    ),
    (
        ("255,128,128,128", ",\"mode\":\"Screen\""),
        ("255,128,128,128", ""),
        &[255, 192, 192, 192],
    ),
    (
        ("255,100,150,0", ",\"mode\":\"Subtract\""),
        ("255,150,100,7", ""),
        &[255, 50, 0, 7],
    ),
    (
        ("255,255,255,255", DODGE),
        ("255,0,1,2", ""),
        &[255, 0, 255, 255],
    ),
    // The mode of the lowest layer acts on nothing.
    (
        ("0,0,0,0", ""),
        ("255,1,2,3", ",\"mode\":\"StencilAlpha\""),
        &[0, 0, 0, 0],
    ),
    (
        ("128,128,0,0", ",\"mode\":\"Normal\""),
        ("255,0,0,255", ""),
        &[255, 128, 0, 127],
    ),
    // That of a matte's layer is not used, and that of the layer under it is.
    (
        ("255,255,255,255", DODGE),
        ("255,10,20,30", ",\"matte\":\"Luma\""),
        &[255, 10, 20, 30],
    ),
    (
        ("255,255,255,255", ""),
        (
            "255,10,20,30",
            ",\"matte\":\"Luma\",\"mode\":\"SilhouetteAlpha\"",
        ),
        &[0, 0, 0, 0],
    ),
];

#[test]
fn a_mode_mixes(rt: HostRuntime) -> Result<(), Fail> {
    makes(&rt, rt.alloc(), 8, MIXED)
}

/// A channel is two bytes, and white is 32768 in each.
const WIDE: &[Row] = &[
    (CLEAR, (WHITE, ""), WHITE_BYTES),
    ((WHITE, ""), BLACK, WHITE_BYTES),
    (
        CLEAR,
        ("32768,16384,0,1", ""),
        &[0x80, 0, 0x40, 0, 0, 0, 0, 1],
    ),
    (
        CLEAR,
        ("32767,258,513,1027", ""),
        &[0x7f, 0xff, 1, 2, 2, 1, 4, 3],
    ),
    (
        CLEAR,
        (WHITE, ",\"opacity\":5000"),
        &[0x40, 0, 0x40, 0, 0x40, 0, 0x40, 0],
    ),
    (
        (GREY, ",\"mode\":\"Multiply\""),
        (GREY, ""),
        &[0x80, 0, 0x20, 0, 0x20, 0, 0x20, 0],
    ),
    (
        (WHITE, ",\"opacity\":5000"),
        ("32768,32768,0,0", ",\"matte\":\"Alpha\""),
        &[0x40, 0, 0x40, 0, 0, 0, 0, 0],
    ),
    (
        (WHITE, ",\"opacity\":2500"),
        ("32768,32768,0,0", ",\"matte\":\"LumaInverted\""),
        &[0x60, 0, 0x60, 0, 0, 0, 0, 0],
    ),
];

#[test]
fn colours_of_depth_16(rt: HostRuntime) -> Result<(), Fail> {
    makes(&rt, rt.alloc(), 16, WIDE)
}

/// A white layer of this width with these members, over a row of three pixels with those, is this picture of so many frames.
fn covers(
    rt: &(impl Abort + Threads + Wait + Sync),
    alloc: Global,
    frames: u32,
    rows: &[Cover],
) -> Result<(), Fail> {
    for (above, below, picture) in rows {
        let (width, members) = above;
        let layers = format!(in alloc;
            "{{\"source\":{{\"solid\":[{width},1,255,255,255,255]}}{members}}},{{\"source\":{{\"solid\":[3,1,255,10,20,30]}}{below}}}"
        )?;
        let bytes = rendered(rt, alloc, 8, 3, frames, layers.as_str())?;
        assert_eq!(rt; bytes, pixels(alloc, *picture)?, "{layers}");
    }
    Ok(())
}

/// Mattes lie where their own streams put them.
const PLACED: &[Cover] = &[
    ((1, ",\"x\":1"), ",\"matte\":\"Alpha\"", ".C."),
    ((1, ",\"x\":1"), ",\"matte\":\"AlphaInverted\"", "C.C"),
    ((1, ",\"x\":1"), ",\"matte\":\"Luma\"", ".C."),
    ((1, ",\"x\":1"), ",\"matte\":\"LumaInverted\"", "C.C"),
    ((2, ",\"x\":-1"), ",\"matte\":\"Alpha\"", "C.."),
    ((3, ",\"y\":1"), ",\"matte\":\"Alpha\"", "..."),
    ((2, ""), ",\"x\":1,\"matte\":\"Alpha\"", ".C."),
    ((2, ""), ",\"x\":1,\"matte\":\"AlphaInverted\"", "..C"),
    (
        (1, ",\"x\":1,\"opacity\":5000"),
        ",\"matte\":\"Alpha\"",
        ".h.",
    ),
    // The layer above is a matte and is not drawn, whether the layer under it is seen or not.
    ((1, ",\"x\":1"), ",\"matte\":\"Alpha\",\"out\":[0,1]", "..."),
];

#[test]
fn mattes_lie_where_their_streams_put_them(rt: HostRuntime) -> Result<(), Fail> {
    covers(&rt, rt.alloc(), 1, PLACED)
}

/// A stencil keeps what is below it where it lies, a silhouette elsewhere; outside itself a layer is transparent.
const STENCILS: &[Cover] = &[
    ((1, ",\"x\":1,\"mode\":\"StencilAlpha\""), "", ".C."),
    ((1, ",\"x\":1,\"mode\":\"SilhouetteAlpha\""), "", "C.C"),
    ((1, ",\"x\":1,\"mode\":\"StencilLuma\""), "", ".C."),
    ((1, ",\"x\":1,\"mode\":\"SilhouetteLuma\""), "", "C.C"),
    ((1, ",\"x\":3,\"mode\":\"StencilAlpha\""), "", "..."),
    (
        (3, ",\"mode\":\"StencilAlpha\",\"opacity\":5000"),
        "",
        "hhh",
    ),
    ((3, ",\"mode\":\"StencilAlpha\",\"out\":[0,1]"), "", "CCC"),
];

#[test]
fn stencils_act_on_the_whole_frame(rt: HostRuntime) -> Result<(), Fail> {
    covers(&rt, rt.alloc(), 1, STENCILS)
}

/// Mattes are seen in their own time.
const TIMED: &[Cover] = &[
    ((3, ",\"out\":[1,24]"), ",\"matte\":\"Alpha\"", "CCC..."),
    (
        (3, ",\"out\":[1,24]"),
        ",\"matte\":\"AlphaInverted\"",
        "...CCC",
    ),
    ((3, ",\"out\":[1,24]"), ",\"matte\":\"Luma\"", "CCC..."),
    (
        (3, ",\"out\":[1,24]"),
        ",\"matte\":\"LumaInverted\"",
        "...CCC",
    ),
    ((3, ",\"in\":[1,24]"), ",\"matte\":\"Alpha\"", "...CCC"),
    ((3, ",\"out\":[0,1]"), ",\"matte\":\"Alpha\"", "......"),
    (
        (3, ",\"out\":[0,1]"),
        ",\"matte\":\"AlphaInverted\"",
        "CCCCCC",
    ),
    (
        (
            3,
            ",\"opacity\":[[0,[0,1],\"linear\"],[10000,[2,24],\"hold\"]]",
        ),
        ",\"matte\":\"Alpha\"",
        "...hhh",
    ),
    (
        (1, ",\"x\":[[0,[0,1],\"hold\"],[2,[1,24],\"hold\"]]"),
        ",\"matte\":\"Alpha\"",
        "C....C",
    ),
];

#[test]
fn mattes_are_seen_in_their_time(rt: HostRuntime) -> Result<(), Fail> {
    covers(&rt, rt.alloc(), 2, TIMED)
}

#[test]
fn two_pairs_of_a_matte_and_its_layer(rt: HostRuntime) -> Result<(), Fail> {
    let alloc = rt.alloc();
    let under = "{\"source\":{\"solid\":[3,1,255,10,20,30]},\"matte\":\"Alpha\"}";
    let left = layer(alloc, ("255,255,255,255", ""))?;
    let right = layer(alloc, ("255,255,255,255", ",\"x\":2"))?;
    let layers = format!(in alloc; "{left},{under},{right},{under}")?;
    let bytes = rendered(&rt, alloc, 8, 3, 1, layers.as_str())?;
    assert_eq!(rt; bytes, pixels(alloc, "C.C")?);
    Ok(())
}
