//! Clips in whole runs, worked by hand.

use crate::runs::words_of;
use fx_stock::Stock;
use host_io::{MemClips, NeverSink, NeverSource, NoGate, Status};
use host_run::run;
use std::alloc::{AllocError, Global};
use std::collections::BTreeMap;
use std::process::Abort;
use std::sync::Wait;
use std::test::Fail;
use std::thread::Threads;

/// What a run over a store ended with, and what it wrote behind a header.
#[derive(Drop)]
pub(crate) struct Ran {
    pub(crate) status: Status,
    pub(crate) pixels: Vec<u8>,
    pub(crate) note: Vec<u8>,
}

/// A file: its name, the width, the depth and the count that its header says, and the bytes behind the header.
pub(crate) type File = (&'static str, u8, u8, u8, &'static [u8]);

/// The words, the files, the calls of the store that fail, and the status and the note that come.
type Ending = (
    &'static str,
    &'static [File],
    &'static [u64],
    Status,
    &'static str,
);

/// The bytes of a file of height 1, with frames of 1/24.
pub(crate) fn file_of(alloc: Global, file: &File) -> Result<Vec<u8>, AllocError> {
    let (_, width, depth, count, pixels) = file;
    let mut bytes = b"AFR1".to_vec(alloc)?;
    bytes.extend_from_slice(&[0, 0, 0, *width, 0, 0, 0, 1, *depth])?;
    bytes.extend_from_slice(&[0, 0, 0, 1, 0, 0, 0, 24])?;
    bytes.extend_from_slice(&[0, 0, 0, 0, 0, 0, 0, *count])?;
    bytes.extend_from_slice(*pixels)?;
    Ok(bytes)
}

/// The files by name.
pub(crate) fn files_of(
    alloc: Global,
    files: &[File],
) -> Result<BTreeMap<String, Vec<u8>>, AllocError> {
    let mut clips = BTreeMap::new(alloc);
    for file in files {
        let _ = clips.insert(String::from_str(alloc, file.0)?, file_of(alloc, file)?)?;
    }
    Ok(clips)
}

/// Runs over a store of these clips that fails at some of its calls.
pub(crate) fn run_with(
    rt: &(impl Threads + Wait + Sync),
    alloc: Global,
    words: &str,
    text: &str,
    clips: BTreeMap<String, Vec<u8>>,
    fails: &[u64],
) -> Result<Ran, AllocError> {
    let words = words_of(alloc, words)?;
    let mut project = NeverSource::new(text.as_bytes().to_vec(alloc)?, 1000);
    let mut clips = MemClips::new(clips, fails.to_vec(alloc)?);
    let mut out = NeverSink::new(alloc, 1000);
    let mut notes = NeverSink::new(alloc, 1000);
    let status = run(
        rt,
        alloc,
        &words,
        &Stock,
        &mut project,
        &mut clips,
        &mut out,
        &mut notes,
        &NoGate,
    );
    Ok(Ran {
        status,
        pixels: out.bytes().get(29..).unwrap_or(&[]).to_vec(alloc)?,
        note: notes.bytes().to_vec(alloc)?,
    })
}

/// Runs end so, with no file.
fn ends(
    rt: &(impl Abort + Threads + Wait + Sync),
    alloc: Global,
    text: &str,
    rows: &[Ending],
) -> Result<(), Fail> {
    for (words, files, fails, status, line) in rows {
        let ran = run_with(rt, alloc, *words, text, files_of(alloc, *files)?, *fails)?;
        assert_eq!(rt; ran.status, *status, "{line}");
        assert_eq!(rt; ran.note.as_slice(), line.as_bytes());
        assert_eq!(rt; ran.pixels.len(), 0, "{line}");
    }
    Ok(())
}

/// A clip of two pictures of one pixel, in three frames.
pub(crate) const ONE_CLIP: &str =
    "{\"version\":1,\"depth\":8,\"root\":0,\"clips\":[{\"name\":\"a.afr\",\"width\":1,\"height\":1,\"depth\":8,\"frame\":[1,24],\"frames\":2}],\"comps\":[{\"width\":1,\"height\":1,\"frame\":[1,24],\"frames\":3,\"layers\":[{\"source\":{\"clip\":0}}]}]}";

/// Two of them, side by side.
const TWO_CLIPS: &str =
    "{\"version\":1,\"depth\":8,\"root\":0,\"clips\":[{\"name\":\"a.afr\",\"width\":1,\"height\":1,\"depth\":8,\"frame\":[1,24],\"frames\":2},{\"name\":\"b.afr\",\"width\":1,\"height\":1,\"depth\":8,\"frame\":[1,24],\"frames\":2}],\"comps\":[{\"width\":2,\"height\":1,\"frame\":[1,24],\"frames\":1,\"layers\":[{\"source\":{\"clip\":0}},{\"source\":{\"clip\":1},\"x\":1}]}]}";

const TWO_PICTURES: &[u8] = &[255, 10, 20, 30, 128, 1, 2, 3];

pub(crate) const A: File = ("a.afr", 1, 8, 2, TWO_PICTURES);

const B: File = ("b.afr", 1, 8, 2, &[255, 0, 0, 9, 0, 0, 0, 0]);

/// The file of the clip is refused, or missing, or cannot be read. A file of 37 bytes takes two calls: its length, and one read.
const REFUSED: &[Ending] = &[
    (
        "",
        &[("a.afr", 1, 8, 2, &[255, 10, 20, 30, 128, 1, 2])],
        &[],
        Status::Clip,
        "afhost: clip a.afr: short 36 of 37\n",
    ),
    (
        "",
        &[("a.afr", 1, 8, 2, &[255, 10, 20, 30, 128, 1, 2, 3, 0])],
        &[],
        Status::Clip,
        "afhost: clip a.afr: trailing 1\n",
    ),
    (
        "",
        &[("a.afr", 1, 8, 2, &[255, 10, 20, 30, 0, 1, 0, 0])],
        &[],
        Status::Clip,
        "afhost: clip a.afr: pixel 0 of frame 1\n",
    ),
    (
        "",
        &[("a.afr", 2, 8, 2, TWO_PICTURES)],
        &[],
        Status::Clip,
        "afhost: clip a.afr: header width\n",
    ),
    ("", &[], &[], Status::Clip, "afhost: clip a.afr: missing\n"),
    ("", &[B], &[], Status::Clip, "afhost: clip a.afr: missing\n"),
    (
        "",
        &[A],
        &[0],
        Status::ClipFault,
        "afhost: clip a.afr: fault\n",
    ),
    (
        "",
        &[A],
        &[1],
        Status::ClipFault,
        "afhost: clip a.afr: fault\n",
    ),
    (
        "",
        &[],
        &[0],
        Status::ClipFault,
        "afhost: clip a.afr: fault\n",
    ),
    // Clips come before the span, and words before all.
    (
        "--from|9",
        &[],
        &[],
        Status::Clip,
        "afhost: clip a.afr: missing\n",
    ),
    (
        "--from|9",
        &[A],
        &[1],
        Status::ClipFault,
        "afhost: clip a.afr: fault\n",
    ),
    (
        "--from|9",
        &[A],
        &[],
        Status::Span,
        "afhost: span 9 to 2 of 3 frames\n",
    ),
    ("--", &[], &[0], Status::Words, "afhost: words refused\n"),
];

#[test]
fn a_clip_is_refused(rt: HostRuntime) -> Result<(), Fail> {
    ends(&rt, rt.alloc(), ONE_CLIP, REFUSED)
}

/// Clips come in order, and none is asked for behind one that is missing or refused.
const IN_ORDER: &[Ending] = &[
    ("", &[A], &[], Status::Clip, "afhost: clip b.afr: missing\n"),
    (
        "",
        &[A],
        &[0],
        Status::ClipFault,
        "afhost: clip a.afr: fault\n",
    ),
    (
        "",
        &[A],
        &[1],
        Status::ClipFault,
        "afhost: clip a.afr: fault\n",
    ),
    (
        "",
        &[A],
        &[2],
        Status::ClipFault,
        "afhost: clip b.afr: fault\n",
    ),
    (
        "",
        &[A],
        &[3],
        Status::Clip,
        "afhost: clip b.afr: missing\n",
    ),
    (
        "",
        &[B],
        &[1],
        Status::Clip,
        "afhost: clip a.afr: missing\n",
    ),
    (
        "",
        &[("a.afr", 1, 16, 2, TWO_PICTURES), B],
        &[2],
        Status::Clip,
        "afhost: clip a.afr: header depth\n",
    ),
    (
        "",
        &[A, ("b.afr", 1, 8, 3, TWO_PICTURES)],
        &[],
        Status::Clip,
        "afhost: clip b.afr: header count\n",
    ),
];

#[test]
fn clips_come_in_order(rt: HostRuntime) -> Result<(), Fail> {
    ends(&rt, rt.alloc(), TWO_CLIPS, IN_ORDER)
}

#[test]
fn clips_that_are_read_are_drawn(rt: HostRuntime) -> Result<(), Fail> {
    let alloc = rt.alloc();
    // No call fails up to the last one.
    let ran = run_with(&rt, alloc, "", ONE_CLIP, files_of(alloc, &[A])?, &[2])?;
    assert_eq!(rt; ran.status, Status::Ok);
    assert_eq!(rt; ran.note.len(), 0);
    assert_eq!(rt;
        ran.pixels.as_slice(),
        [255, 10, 20, 30, 128, 1, 2, 3, 0, 0, 0, 0].as_slice()
    );
    let ran = run_with(&rt, alloc, "", TWO_CLIPS, files_of(alloc, &[A, B])?, &[4])?;
    assert_eq!(rt; ran.status, Status::Ok);
    assert_eq!(rt;
        ran.pixels.as_slice(),
        [255, 10, 20, 30, 255, 0, 0, 9].as_slice()
    );
    Ok(())
}

#[test]
fn each_field_of_a_header_is_told(rt: HostRuntime) -> Result<(), Fail> {
    let alloc = rt.alloc();
    // A place in the file, the byte that stands there, and what refuses it.
    let cases: [(usize, u8, &str); 8] = [
        (0, b'B', "not an AFR file"),
        (3, b'2', "not an AFR file"),
        (7, 2, "header width"),
        (11, 2, "header height"),
        (12, 16, "header depth"),
        (16, 2, "header value"),
        (20, 25, "header scale"),
        (28, 1, "header count"),
    ];
    for (place, byte, why) in cases {
        let mut bytes = file_of(alloc, &A)?;
        if let Some(old) = bytes.get_mut(place) {
            *old = byte;
        }
        let mut clips = BTreeMap::new(alloc);
        let _ = clips.insert(String::from_str(alloc, "a.afr")?, bytes)?;
        let ran = run_with(&rt, alloc, "", ONE_CLIP, clips, &[])?;
        let line = format!(in alloc; "afhost: clip a.afr: {why}\n")?;
        assert_eq!(rt; ran.status, Status::Clip, "{why}");
        assert_eq!(rt; ran.note.as_slice(), line.as_bytes());
    }
    Ok(())
}

#[test]
fn a_project_without_clips_asks_for_none(rt: HostRuntime) -> Result<(), Fail> {
    let alloc = rt.alloc();
    let text =
        "{\"version\":1,\"depth\":8,\"root\":0,\"clips\":[],\"comps\":[{\"width\":1,\"height\":1,\"frame\":[1,24],\"frames\":1,\"layers\":[]}]}";
    let ran = run_with(&rt, alloc, "", text, files_of(alloc, &[A])?, &[0, 1, 2, 3])?;
    assert_eq!(rt; ran.status, Status::Ok);
    assert_eq!(rt; ran.pixels.as_slice(), [0, 0, 0, 0].as_slice());
    Ok(())
}

/// The frame of the composition, the layer's other members, and the pictures of four frames.
const SHOWN: &[(&str, &str, &[u8])] = &[
    (
        "[1,24]",
        ",\"start\":[1,24]",
        &[0, 0, 0, 0, 255, 10, 20, 30, 128, 1, 2, 3, 0, 0, 0, 0],
    ),
    (
        "[1,24]",
        ",\"start\":[-1,24]",
        &[128, 1, 2, 3, 0, 0, 0, 0, 0, 0, 0, 0, 0, 0, 0, 0],
    ),
    (
        "[1,24]",
        ",\"start\":[-2,24]",
        &[0, 0, 0, 0, 0, 0, 0, 0, 0, 0, 0, 0, 0, 0, 0, 0],
    ),
    (
        "[1,24]",
        ",\"start\":[1,48]",
        &[0, 0, 0, 0, 255, 10, 20, 30, 128, 1, 2, 3, 0, 0, 0, 0],
    ),
    (
        "[1,48]",
        "",
        &[255, 10, 20, 30, 255, 10, 20, 30, 128, 1, 2, 3, 128, 1, 2, 3],
    ),
    (
        "[2,24]",
        "",
        &[255, 10, 20, 30, 0, 0, 0, 0, 0, 0, 0, 0, 0, 0, 0, 0],
    ),
    (
        "[1,24]",
        ",\"in\":[1,24]",
        &[0, 0, 0, 0, 128, 1, 2, 3, 0, 0, 0, 0, 0, 0, 0, 0],
    ),
];

#[test]
fn a_clip_has_its_pictures_in_its_own_time(rt: HostRuntime) -> Result<(), Fail> {
    let alloc = rt.alloc();
    for (frame, members, pixels) in SHOWN {
        let text = format!(in alloc;
            "{{\"version\":1,\"depth\":8,\"root\":0,\"clips\":[{{\"name\":\"a.afr\",\"width\":1,\"height\":1,\"depth\":8,\"frame\":[1,24],\"frames\":2}}],\"comps\":[{{\"width\":1,\"height\":1,\"frame\":{frame},\"frames\":4,\"layers\":[{{\"source\":{{\"clip\":0}}{members}}}]}}]}}"
        )?;
        let ran = run_with(&rt, alloc, "", text.as_str(), files_of(alloc, &[A])?, &[])?;
        assert_eq!(rt; ran.status, Status::Ok, "{members}");
        assert_eq!(rt; ran.pixels.as_slice(), *pixels, "{frame} {members}");
    }
    Ok(())
}

/// Channels change depth by (c * 32768 + 127) / 255 and (c * 255 + 16384) / 32768.
#[test]
fn clips_change_depth(rt: HostRuntime) -> Result<(), Fail> {
    let alloc = rt.alloc();
    let wide: File = (
        "a.afr",
        1,
        16,
        2,
        &[
            0x80, 0, 0x40, 0, 0, 0, 0, 129, 0x40, 0x40, 0, 64, 0, 65, 0, 0,
        ],
    );
    let cases: [(u32, u32, File, &[u8]); 4] = [
        (8, 8, A, TWO_PICTURES),
        (16, 16, wide, wide.4),
        (
            16,
            8,
            A,
            &[
                0x80, 0, 5, 5, 10, 10, 15, 15, 0x40, 0x40, 0, 129, 1, 1, 1, 0x82,
            ],
        ),
        (8, 16, wide, &[255, 128, 0, 1, 128, 0, 1, 0]),
    ];
    for (depth, of_clip, file, pixels) in cases {
        let text = format!(in alloc;
            "{{\"version\":1,\"depth\":{depth},\"root\":0,\"clips\":[{{\"name\":\"a.afr\",\"width\":1,\"height\":1,\"depth\":{of_clip},\"frame\":[1,24],\"frames\":2}}],\"comps\":[{{\"width\":1,\"height\":1,\"frame\":[1,24],\"frames\":2,\"layers\":[{{\"source\":{{\"clip\":0}}}}]}}]}}"
        )?;
        let ran = run_with(
            &rt,
            alloc,
            "",
            text.as_str(),
            files_of(alloc, &[file])?,
            &[],
        )?;
        assert_eq!(rt; ran.status, Status::Ok, "{of_clip} in {depth}");
        assert_eq!(rt; ran.pixels.as_slice(), pixels, "{of_clip} in {depth}");
    }
    Ok(())
}

/// The depths of the project and of the clip, a picture of the clip of 3 by 2 pixels, and what a frame of 2 by 2 pixels shows of it.
type Part = (u8, u8, &'static [u8], &'static [u8]);

const PICTURE_8: &[u8] = &[
    255, 200, 0, 0, 255, 10, 20, 30, 128, 1, 2, 3, 7, 7, 0, 0, 9, 0, 9, 0, 11, 0, 0, 11,
];

const PICTURE_16: &[u8] = &[
    0x80, 0, 0x70, 0, 0, 0, 0, 0, 0x80, 0, 0x40, 0, 0, 0, 0, 129, 0x40, 0x40, 0, 64, 0, 65, 0, 0,
    0, 7, 0, 7, 0, 0, 0, 0, 0, 9, 0, 0, 0, 9, 0, 0, 0, 11, 0, 0, 0, 0, 0, 11,
];

/// The picture is one pixel to the left and one below: of its upper row the second and the third pixel are seen, below two that are
/// transparent. Channels change depth as above.
const PARTS: &[Part] = &[
    (
        8,
        8,
        PICTURE_8,
        &[0, 0, 0, 0, 0, 0, 0, 0, 255, 10, 20, 30, 128, 1, 2, 3],
    ),
    (
        16,
        16,
        PICTURE_16,
        &[
            0, 0, 0, 0, 0, 0, 0, 0, 0, 0, 0, 0, 0, 0, 0, 0, 0x80, 0, 0x40, 0, 0, 0, 0, 129, 0x40,
            0x40, 0, 64, 0, 65, 0, 0,
        ],
    ),
    (
        16,
        8,
        PICTURE_8,
        &[
            0, 0, 0, 0, 0, 0, 0, 0, 0, 0, 0, 0, 0, 0, 0, 0, 0x80, 0, 5, 5, 10, 10, 15, 15, 0x40,
            0x40, 0, 129, 1, 1, 1, 0x82,
        ],
    ),
    (
        8,
        16,
        PICTURE_16,
        &[0, 0, 0, 0, 0, 0, 0, 0, 255, 128, 0, 1, 128, 0, 1, 0],
    ),
];

#[test]
fn a_frame_shows_a_part_of_a_clip(rt: HostRuntime) -> Result<(), Fail> {
    let alloc = rt.alloc();
    for (depth, of_clip, picture, shown) in PARTS {
        let text = format!(in alloc;
            "{{\"version\":1,\"depth\":{depth},\"root\":0,\"clips\":[{{\"name\":\"a.afr\",\"width\":3,\"height\":2,\"depth\":{of_clip},\"frame\":[1,24],\"frames\":1}}],\"comps\":[{{\"width\":2,\"height\":2,\"frame\":[1,24],\"frames\":1,\"layers\":[{{\"source\":{{\"clip\":0}},\"x\":-1,\"y\":1}}]}}]}}"
        )?;
        let mut bytes = file_of(alloc, &("a.afr", 3, *of_clip, 1, *picture))?;
        // The height is 2.
        if let Some(height) = bytes.get_mut(11) {
            *height = 2;
        }
        let mut clips = BTreeMap::new(alloc);
        let _ = clips.insert(String::from_str(alloc, "a.afr")?, bytes)?;
        let ran = run_with(&rt, alloc, "", text.as_str(), clips, &[])?;
        assert_eq!(rt; ran.status, Status::Ok, "{of_clip} in {depth}");
        assert_eq!(rt; ran.pixels.as_slice(), *shown, "{of_clip} in {depth}");
    }
    Ok(())
}

/// The clips of a project may declare 2,147,483,648 bytes together: a header of 29 bytes each, and 536,870,883 pixels of 4 bytes.
#[test]
fn clips_declare_so_many_bytes(rt: HostRuntime) -> Result<(), Fail> {
    let alloc = rt.alloc();
    for (frames, status, line) in [
        (1, Status::Clip, "afhost: clip a: missing\n"),
        (2, Status::Project, "afhost: project rule 26\n"),
    ] {
        let text = format!(in alloc;
            "{{\"version\":1,\"depth\":8,\"root\":0,\"clips\":[{{\"name\":\"a\",\"width\":221,\"height\":241,\"depth\":8,\"frame\":[1,24],\"frames\":10080}},{{\"name\":\"b\",\"width\":1,\"height\":1,\"depth\":8,\"frame\":[1,24],\"frames\":1}},{{\"name\":\"c\",\"width\":1,\"height\":1,\"depth\":8,\"frame\":[1,24],\"frames\":1}},{{\"name\":\"d\",\"width\":1,\"height\":1,\"depth\":8,\"frame\":[1,24],\"frames\":{frames}}}],\"comps\":[{{\"width\":1,\"height\":1,\"frame\":[1,24],\"frames\":1,\"layers\":[]}}]}}"
        )?;
        let ran = run_with(&rt, alloc, "", text.as_str(), BTreeMap::new(alloc), &[])?;
        assert_eq!(rt; ran.status, status, "{line}");
        assert_eq!(rt; ran.note.as_slice(), line.as_bytes());
    }
    Ok(())
}
