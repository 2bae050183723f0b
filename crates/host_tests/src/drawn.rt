//! Frames of a row of three pixels, worked by hand, through whole runs.

use crate::runs::no_clips;
use fx_stock::Stock;
use host_io::{NeverSink, NeverSource, NoGate, Status};
use host_run::run;
use std::alloc::Global;
use std::sync::Wait;
use std::test::Fail;
use std::thread::Threads;

/// The bytes behind the header of a composition of this depth, width and height 1, with so many frames of 1/24 and these layers.
pub(crate) fn rendered(
    rt: &(impl Threads + Wait + Sync),
    alloc: Global,
    depth: u32,
    width: u32,
    frames: u32,
    layers: &str,
) -> Result<Vec<u8>, Fail> {
    let text = format!(in alloc;
        "{{\"version\":1,\"depth\":{depth},\"root\":0,\"comps\":[{{\"width\":{width},\"height\":1,\"frame\":[1,24],\"frames\":{frames},\"layers\":[{layers}]}}]}}"
    )?;
    let mut project = NeverSource::new(text.as_bytes().to_vec(alloc)?, 1000);
    let mut out = NeverSink::new(alloc, 1000);
    let mut notes = NeverSink::new(alloc, 1000);
    if run(
        rt,
        alloc,
        &[],
        &Stock,
        &mut project,
        &mut no_clips(alloc),
        &mut out,
        &mut notes,
        &NoGate,
    ) != Status::Ok
    {
        return Err("a run that ends well")?;
    }
    Ok(out.bytes().get(29..).ok_or("a header")?.to_vec(alloc)?)
}

/// The same at depth 8 and width 3.
fn drawn(
    rt: &(impl Threads + Wait + Sync),
    alloc: Global,
    layers: &str,
    frames: u32,
) -> Result<Vec<u8>, Fail> {
    rendered(rt, alloc, 8, 3, frames, layers)
}

/// The bytes of pixels that are `.` for none, `C` for the colour, and `h` for it at half its opacity.
pub(crate) fn pixels(alloc: Global, picture: &str) -> Result<Vec<u8>, Fail> {
    let mut bytes = Vec::new(alloc);
    for pixel in picture.bytes() {
        let channels = match pixel {
            b'C' => [255, 10, 20, 30],
            b'h' => [128, 5, 10, 15],
            _ => [0, 0, 0, 0],
        };
        bytes.extend_from_slice(&channels)?;
    }
    Ok(bytes)
}

#[test]
fn layers_lie_where_their_streams_put_them(rt: HostRuntime) -> Result<(), Fail> {
    let alloc = rt.alloc();
    for (members, frames, picture) in [
        ("\"x\":0", 1, "CC."),
        ("\"x\":2", 1, "..C"),
        ("\"x\":3", 1, "..."),
        ("\"x\":-1", 1, "C.."),
        ("\"x\":-2", 1, "..."),
        ("\"x\":32767", 1, "..."),
        ("\"y\":1", 1, "..."),
        ("\"y\":-1", 1, "..."),
        ("\"opacity\":5000", 1, "hh."),
        ("\"opacity\":0", 1, "..."),
        ("\"out\":[0,1]", 1, "..."),
        ("\"in\":[1,24],\"out\":[2,24]", 4, "...CC......."),
        ("\"in\":[3,24]", 4, ".........CC."),
        (
            "\"x\":[[0,[0,1],\"linear\"],[3,[2,24],\"hold\"]]",
            3,
            "CC..CC...",
        ),
        (
            "\"x\":[[0,[0,1],\"linear\"],[-3,[2,24],\"hold\"]]",
            2,
            "CC....",
        ),
        (
            "\"x\":[[0,[0,1],\"ease\"],[3,[4,24],\"hold\"]]",
            4,
            "CC.CC..CC..C",
        ),
    ] {
        let layer = format!(in alloc; "{{\"source\":{{\"solid\":[2,1,255,10,20,30]}},{members}}}")?;
        let bytes = drawn(&rt, alloc, layer.as_str(), frames)?;
        assert_eq!(rt; bytes, pixels(alloc, picture)?, "{members}");
    }
    Ok(())
}

#[test]
fn layers_lie_over_each_other(rt: HostRuntime) -> Result<(), Fail> {
    // (128,128,0,0) over (255,0,0,255) is (255,128,0,127).
    let over =
        "{\"source\":{\"solid\":[1,1,128,128,0,0]}},{\"source\":{\"solid\":[2,1,255,0,0,255]}}";
    let bytes = drawn(&rt, rt.alloc(), over, 1)?;
    assert_eq!(rt;
        bytes.as_slice(),
        [255, 128, 0, 127, 255, 0, 0, 255, 0, 0, 0, 0].as_slice()
    );
    // (128,5,10,15) over itself: alpha 128 + 64, and 5 + 2, 10 + 5, 15 + 7.
    let half = "{\"source\":{\"solid\":[1,1,255,10,20,30]},\"opacity\":5000}";
    let twice = format!(in rt.alloc(); "{half},{half}")?;
    let bytes = drawn(&rt, rt.alloc(), twice.as_str(), 1)?;
    assert_eq!(rt;
        bytes.as_slice(),
        [192, 7, 15, 22, 0, 0, 0, 0, 0, 0, 0, 0].as_slice()
    );
    Ok(())
}
