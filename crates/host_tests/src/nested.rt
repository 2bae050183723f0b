//! Nested compositions in whole runs, worked by hand.

use crate::clips::{File, files_of, run_with};
use crate::drawn::pixels;
use host_io::Status;
use std::alloc::Global;
use std::collections::BTreeMap;
use std::process::Abort;
use std::sync::Wait;
use std::test::Fail;
use std::thread::Threads;

/// A clip of a red and a green pixel.
const CLIP: File = ("c.afr", 1, 8, 2, &[255, 255, 0, 0, 255, 0, 255, 0]);

/// Compositions, the index of the root, and the picture of its frames.
type Nest = (&'static str, u32, &'static str);

/// Renders the root of these compositions.
fn rendered(
    rt: &(impl Threads + Wait + Sync),
    alloc: Global,
    comps: &str,
    root: u32,
    files: &[File],
) -> Result<Vec<u8>, Fail> {
    let clips = if files.is_empty() {
        "[]"
    } else {
        "[{\"name\":\"c.afr\",\"width\":1,\"height\":1,\"depth\":8,\"frame\":[1,24],\"frames\":2}]"
    };
    let text = format!(in alloc;
        "{{\"version\":1,\"depth\":8,\"root\":{root},\"clips\":{clips},\"comps\":[{comps}]}}"
    )?;
    let ran = run_with(rt, alloc, "", text.as_str(), files_of(alloc, files)?, &[])?;
    if ran.status != Status::Ok {
        return Err("a run that ends well")?;
    }
    Ok(ran.pixels)
}

/// A nested composition begins two frames later: the bytes are 45 with the header.
#[test]
fn a_nested_composition_starts_later(rt: HostRuntime) -> Result<(), Fail> {
    let alloc = rt.alloc();
    let text =
        "{\"version\":1,\"depth\":8,\"root\":1,\"comps\":[{\"width\":1,\"height\":1,\"frame\":[1,24],\"frames\":4,\"layers\":[{\"source\":{\"solid\":[1,1,100,100,0,0]}}]},{\"width\":1,\"height\":1,\"frame\":[1,24],\"frames\":4,\"layers\":[{\"source\":{\"comp\":0},\"start\":[2,24]}]}]}";
    let ran = run_with(&rt, alloc, "", text, BTreeMap::new(alloc), &[])?;
    assert_eq!(rt; ran.status, Status::Ok);
    assert_eq!(rt;
        ran.pixels.as_slice(),
        [0, 0, 0, 0, 0, 0, 0, 0, 0x64, 0x64, 0, 0, 0x64, 0x64, 0, 0].as_slice()
    );
    Ok(())
}

/// Each draws the solid `C` of three pixels: cropped to its composition's frame, moved, in its own time, and as a matte.
const NESTS: &[Nest] = &[
    (
        "{\"width\":1,\"height\":1,\"frame\":[1,24],\"frames\":1,\"layers\":[{\"source\":{\"solid\":[3,1,255,10,20,30]}}]},{\"width\":3,\"height\":1,\"frame\":[1,24],\"frames\":1,\"layers\":[{\"source\":{\"comp\":0}}]}",
        1,
        "C..",
    ),
    (
        "{\"width\":2,\"height\":1,\"frame\":[1,24],\"frames\":1,\"layers\":[{\"source\":{\"solid\":[3,1,255,10,20,30]},\"x\":1}]},{\"width\":3,\"height\":1,\"frame\":[1,24],\"frames\":1,\"layers\":[{\"source\":{\"comp\":0},\"x\":-1}]}",
        1,
        "C..",
    ),
    (
        "{\"width\":3,\"height\":1,\"frame\":[1,24],\"frames\":1,\"layers\":[{\"source\":{\"solid\":[1,1,255,10,20,30]}}]},{\"width\":3,\"height\":1,\"frame\":[1,24],\"frames\":1,\"layers\":[{\"source\":{\"comp\":0}},{\"source\":{\"comp\":0},\"x\":2}]}",
        1,
        "C.C",
    ),
    // It lasts one frame.
    (
        "{\"width\":1,\"height\":1,\"frame\":[1,24],\"frames\":1,\"layers\":[{\"source\":{\"solid\":[1,1,255,10,20,30]}}]},{\"width\":1,\"height\":1,\"frame\":[1,24],\"frames\":3,\"layers\":[{\"source\":{\"comp\":0},\"start\":[1,24]}]}",
        1,
        ".C.",
    ),
    // Its frames are half as long.
    (
        "{\"width\":1,\"height\":1,\"frame\":[1,48],\"frames\":3,\"layers\":[{\"source\":{\"solid\":[1,1,255,10,20,30]},\"in\":[1,48]}]},{\"width\":1,\"height\":1,\"frame\":[1,48],\"frames\":4,\"layers\":[{\"source\":{\"comp\":0}}]}",
        1,
        ".CC.",
    ),
    // A composition may be nested before it stands in the list.
    (
        "{\"width\":3,\"height\":1,\"frame\":[1,24],\"frames\":1,\"layers\":[{\"source\":{\"comp\":1},\"x\":1}]},{\"width\":3,\"height\":1,\"frame\":[1,24],\"frames\":1,\"layers\":[{\"source\":{\"solid\":[1,1,255,10,20,30]}}]}",
        0,
        ".C.",
    ),
    (
        "{\"width\":2,\"height\":1,\"frame\":[1,24],\"frames\":1,\"layers\":[{\"source\":{\"solid\":[1,1,255,255,255,255]},\"x\":1}]},{\"width\":3,\"height\":1,\"frame\":[1,24],\"frames\":1,\"layers\":[{\"source\":{\"comp\":0}},{\"source\":{\"solid\":[3,1,255,10,20,30]},\"matte\":\"Luma\"}]}",
        1,
        ".C.",
    ),
    (
        "{\"width\":3,\"height\":1,\"frame\":[1,24],\"frames\":1,\"layers\":[{\"source\":{\"solid\":[3,1,255,10,20,30]}}]},{\"width\":3,\"height\":1,\"frame\":[1,24],\"frames\":1,\"layers\":[{\"source\":{\"comp\":0},\"opacity\":5000,\"x\":1}]}",
        1,
        ".hh",
    ),
];

/// Each picture is that of its compositions.
fn shows(
    rt: &(impl Abort + Threads + Wait + Sync),
    alloc: Global,
    nests: &[Nest],
) -> Result<(), Fail> {
    for (comps, root, picture) in nests {
        let bytes = rendered(rt, alloc, *comps, *root, &[])?;
        assert_eq!(rt; bytes, pixels(alloc, *picture)?, "{comps}");
    }
    Ok(())
}

#[test]
fn nested_compositions_are_drawn(rt: HostRuntime) -> Result<(), Fail> {
    shows(&rt, rt.alloc(), NESTS)
}

/// A clip at x 1 from frame 1 on, in a composition at x 1 from frame 1 on, in one at x 1 from frame 1 on.
#[test]
fn a_clip_nested_twice(rt: HostRuntime) -> Result<(), Fail> {
    let comp = "{\"width\":4,\"height\":1,\"frame\":[1,24],\"frames\":5,\"layers\":[{\"source\":";
    let there = ",\"x\":1,\"start\":[1,24]}]}";
    let alloc = rt.alloc();
    let comps = format!(in alloc;
        "{comp}{{\"clip\":0}}{there},{comp}{{\"comp\":0}}{there},{comp}{{\"comp\":1}}{there}"
    )?;
    let bytes = rendered(&rt, alloc, comps.as_str(), 2, &[CLIP])?;
    // The fourth pixel of the frames 3 and 4, of 16 bytes each.
    let mut want = vec![in alloc; 0u8; 60]?;
    want.extend_from_slice(&[255, 255, 0, 0])?;
    want.extend_from_slice(&[0; 12])?;
    want.extend_from_slice(&[255, 0, 255, 0])?;
    assert_eq!(rt; bytes, want);
    Ok(())
}

/// So many compositions, each nested twice in the next one, the second time with half opacity.
fn twice_each(alloc: Global, count: u32) -> Result<String, Fail> {
    let comp = "{\"width\":1,\"height\":1,\"frame\":[1,24],\"frames\":2,\"layers\":[";
    let mut comps = format!(in alloc; "{comp}{{\"source\":{{\"solid\":[1,1,255,10,20,30]}}}}]}}")?;
    for below in 0..count {
        let more = format!(in alloc;
            ",{comp}{{\"source\":{{\"comp\":{below}}}}},{{\"source\":{{\"comp\":{below}}},\"opacity\":5000}}]}}"
        )?;
        comps.push_str(more.as_str())?;
    }
    Ok(comps)
}

/// Were each drawn as often as it is used, there would be 2 ^ 63 of them.
#[test]
fn compositions_nest_64_deep(rt: HostRuntime) -> Result<(), Fail> {
    let alloc = rt.alloc();
    let comps = twice_each(alloc, 63)?;
    let bytes = rendered(&rt, alloc, comps.as_str(), 63, &[])?;
    assert_eq!(rt; bytes, pixels(alloc, "CC")?);
    Ok(())
}
