//! Runs in the modes of the command line, worked by hand.

use crate::clips::{File, files_of};
use crate::runs::{TWO_PIXEL_FILE, TWO_PIXELS, run_over, words_of};
use effect_api::Effect;
use frame_file::{Header, header_bytes};
use fx_stock::Stock;
use host_io::{ClipStore, MemClips, MemSource, NeverSink, NoGate, Source, Status};
use host_run::run;
use project_model::ParamSchema;
use scene_gen::{KIND_COUNT, ValueRange, layers_of, ranges_of, unit_of};
use std::alloc::{AllocError, Global};
use std::collections::BTreeMap;
use std::process::Abort;
use std::sync::Wait;
use std::test::Fail;
use std::thread::Threads;

/// A row of three points of 16 bits, and one that lies over the middle one in the second of two frames.
const WIDE_FRAMES: &[u8] =
    b"{\"version\":1,\"depth\":16,\"root\":0,\"comps\":[{\"width\":3,\"height\":1,\"frame\":[1,24],\"frames\":2,\"layers\":[{\"source\":{\"solid\":[1,1,32768,1,2,3]},\"x\":1,\"in\":[1,24]},{\"source\":{\"solid\":[3,1,32768,16384,0,1]}}]}]}";

/// Two clips, a composition of both in another one of 1280 by 720, a matte, a blur and levels: five layers in all.
const USERS: &[u8] =
    b"{\"version\":1,\"depth\":8,\"root\":1,\"clips\":[{\"name\":\"a.afr\",\"width\":640,\"height\":360,\"depth\":8,\"frame\":[1001,30000],\"frames\":24},{\"name\":\"b.afr\",\"width\":640,\"height\":360,\"depth\":8,\"frame\":[1001,30000],\"frames\":24}],\"comps\":[{\"width\":1280,\"height\":360,\"frame\":[1001,30000],\"frames\":24,\"layers\":[{\"source\":{\"clip\":0},\"effects\":[{\"effect\":\"AutoLevels\",\"params\":[100]}]},{\"source\":{\"clip\":1},\"x\":640}]},{\"width\":1280,\"height\":720,\"frame\":[1001,30000],\"frames\":24,\"layers\":[{\"source\":{\"solid\":[640,720,255,255,255,255]}},{\"source\":{\"comp\":0},\"y\":180,\"matte\":\"Luma\",\"effects\":[{\"effect\":\"BoxBlur\",\"params\":[4]}]},{\"source\":{\"solid\":[1280,720,255,20,30,40]}}]}]}";

/// A clip that no generated project has.
const UNASKED: File = ("a.afr", 1, 8, 1, &[255, 10, 20, 30]);

/// How a run ended, what it wrote, and its note.
type Ended = (Status, String, String);

/// Words, and what comes: the status, the output and the note.
type Told = (&'static str, Status, &'static str, &'static str);

/// Runs of the project end so.
fn tells(
    rt: &(impl Abort + Threads + Wait + Sync),
    alloc: Global,
    text: &[u8],
    rows: &[Told],
) -> Result<(), Fail> {
    for (words, status, out, note) in rows {
        let ran = run_over(rt, alloc, *words, text, 100, &[], &[])?;
        assert_eq!(rt; ran.status, *status, "at {words:?}");
        assert_eq!(rt; ran.out.as_slice(), out.as_bytes(), "at {words:?}");
        assert_eq!(rt; ran.note.as_slice(), note.as_bytes(), "at {words:?}");
    }
    Ok(())
}

#[test]
fn two_pixels_in_each_mode(rt: HostRuntime) -> Result<(), Fail> {
    let alloc = rt.alloc();
    tells(
        &rt,
        alloc,
        TWO_PIXELS,
        &[
            ("--mode|check", Status::Ok, "ok 2 1 8 1 1\n", ""),
            (
                "--mode=check|--from|0|--to|0",
                Status::Ok,
                "ok 2 1 8 1 1\n",
                "",
            ),
            (
                "--mode|check|--from|1",
                Status::Span,
                "",
                "afhost: span 1 to 0 of 1 frames\n",
            ),
            (
                "--mode|summary",
                Status::Ok,
                "frame 0 510 20 40 60\nframes 1\n",
                "",
            ),
            (
                "--mode|summary|--to|1",
                Status::Span,
                "",
                "afhost: span 0 to 1 of 1 frames\n",
            ),
        ],
    )?;
    let ran = run_over(&rt, alloc, "--mode=render", TWO_PIXELS, 100, &[], &[])?;
    assert_eq!(rt; ran.status, Status::Ok);
    assert_eq!(rt; ran.out.as_slice(), TWO_PIXEL_FILE.as_slice());
    Ok(())
}

#[test]
fn sums_are_the_same_by_any_workers(rt: HostRuntime) -> Result<(), Fail> {
    tells(
        &rt,
        rt.alloc(),
        WIDE_FRAMES,
        &[
            (
                "--mode|summary|--workers|1",
                Status::Ok,
                "frame 0 98304 49152 0 3\nframe 1 98304 32769 2 5\nframes 2\n",
                "",
            ),
            (
                "--workers=3|--mode=summary",
                Status::Ok,
                "frame 0 98304 49152 0 3\nframe 1 98304 32769 2 5\nframes 2\n",
                "",
            ),
            (
                "--mode|summary|--from|1",
                Status::Ok,
                "frame 1 98304 32769 2 5\nframes 1\n",
                "",
            ),
        ],
    )
}

#[test]
fn a_line_is_one_piece(rt: HostRuntime) -> Result<(), Fail> {
    let alloc = rt.alloc();
    let ran = run_over(&rt, alloc, "--mode|summary", WIDE_FRAMES, 100, &[], &[1])?;
    assert_eq!(rt; ran.status, Status::WriteFault);
    assert_eq!(rt; ran.out.as_slice(), b"frame 0 98304 49152 0 3\n".as_slice());
    assert_eq!(rt; ran.note.as_slice(), b"afhost: write fault\n".as_slice());
    // The call behind the last line would fail.
    for (words, call) in [("--mode|check", 1), ("--mode|summary", 3)] {
        let ran = run_over(&rt, alloc, words, WIDE_FRAMES, 100, &[], &[call])?;
        assert_eq!(rt; ran.status, Status::Ok, "at {words:?}");
    }
    Ok(())
}

/// Runs over these bytes and clips. Each of the two fails at its first call, so a run that asks for either does not end well; and after
/// the run the first call of each is still to come.
fn run_apart(rt: &(impl Threads + Wait + Sync), alloc: Global, words: &str) -> Result<Ended, Fail> {
    let words = words_of(alloc, words)?;
    let mut project = MemSource::new(b"[".to_vec(alloc)?, 1, vec![in alloc; 0]?);
    let mut clips = MemClips::new(files_of(alloc, &[UNASKED])?, vec![in alloc; 0]?);
    let mut out = NeverSink::new(alloc, 1000);
    let mut notes = NeverSink::new(alloc, 1000);
    let status = run(
        rt,
        alloc,
        &words,
        &Stock,
        &mut project,
        &mut clips,
        &mut out,
        &mut notes,
        &NoGate,
    );
    if project.read(&mut [0; 1]).is_ok() || clips.length("a.afr").is_ok() {
        return Err("a source and a store that were not asked")?;
    }
    Ok((
        status,
        text_of(alloc, out.bytes())?,
        text_of(alloc, notes.bytes())?,
    ))
}

/// The text of these bytes.
fn text_of(alloc: Global, bytes: &[u8]) -> Result<String, Fail> {
    match std::str::from_utf8(bytes) {
        Ok(text) => Ok(String::from_str(alloc, text)?),
        Err(_) => Err("a text")?,
    }
}

/// The parts of a text between line feeds; the last is empty where the text ends with one.
fn lines_of<'a>(alloc: Global, text: &'a str) -> Result<Vec<&'a str>, AllocError> {
    let mut lines = Vec::new(alloc);
    for line in text.split('\n') {
        lines.push(line)?;
    }
    Ok(lines)
}

#[test]
fn a_mode_in_capitals_is_none(rt: HostRuntime) -> Result<(), Fail> {
    for words in ["--mode|Check", "--mode=DEMO", "--mode|", "--mode"] {
        let (status, out, note) = run_apart(&rt, rt.alloc(), words)?;
        assert_eq!(rt; status, Status::Words, "at {words:?}");
        assert_eq!(rt; out.len(), 0, "at {words:?}");
        assert_eq!(rt; note.as_str(), "afhost: words refused\n", "at {words:?}");
    }
    Ok(())
}

/// The output of a demo that ends well.
fn demo(rt: &(impl Threads + Wait + Sync), alloc: Global, words: &str) -> Result<String, Fail> {
    match run_apart(rt, alloc, words)? {
        (Status::Ok, out, _) => Ok(out),
        _ => Err("a demo that ends well")?,
    }
}

/// The sums of a line, in its order.
fn sums_of(alloc: Global, frame: usize, line: &str) -> Result<Vec<u64>, Fail> {
    let front = format!(in alloc; "frame {frame} ")?;
    let mut sums = Vec::new(alloc);
    for number in line
        .strip_prefix(front.as_str())
        .ok_or("its frame")?
        .split(' ')
    {
        sums.push(number.parse::<u64>().ok().ok_or("a number")?)?;
    }
    Ok(sums)
}

#[test]
fn a_demo_is_the_same_by_any_workers(rt: HostRuntime) -> Result<(), Fail> {
    let alloc = rt.alloc();
    let text = demo(&rt, alloc, "--mode|demo|--seed|1|--workers|1")?;
    for words in ["--mode|demo|--seed|1|--workers|4", "--mode=demo|--budget=0"] {
        assert_eq!(rt; demo(&rt, alloc, words)?.as_str(), text.as_str(), "{words}");
    }
    let lines = lines_of(alloc, text.as_str())?;
    assert_eq!(rt; lines.len(), 14);
    assert_eq!(rt; &lines[12..], ["frames 12", ""].as_slice());
    // 160 by 96 pixels of 8 bits, whose colours are no more than their alpha.
    for (frame, line) in lines[..12].iter().enumerate() {
        let sums = sums_of(alloc, frame, *line)?;
        assert_eq!(rt; sums.len(), 4, "frame {frame}");
        assert!(rt; sums[0] <= 160 * 96 * 255, "frame {frame}");
        assert!(rt; sums.iter().all(|sum| *sum <= sums[0]), "frame {frame}");
    }
    Ok(())
}

#[test]
fn a_span_of_a_demo(rt: HostRuntime) -> Result<(), Fail> {
    let alloc = rt.alloc();
    let whole = demo(&rt, alloc, "--mode|demo|--seed|7")?;
    let part = demo(&rt, alloc, "--mode|demo|--seed|7|--from|3|--to|5")?;
    let (whole, part) = (
        lines_of(alloc, whole.as_str())?,
        lines_of(alloc, part.as_str())?,
    );
    assert_eq!(rt; whole.len(), 14);
    assert_eq!(rt; part.len(), 5);
    assert!(rt; part[0].starts_with("frame 3 "));
    assert_eq!(rt; &part[..3], &whole[3..6]);
    assert_eq!(rt; &part[3..], ["frames 3", ""].as_slice());
    let (status, out, note) = run_apart(&rt, alloc, "--mode|demo|--to|12")?;
    assert_eq!(rt; status, Status::Span);
    assert_eq!(rt; out.len(), 0);
    assert_eq!(rt; note.as_str(), "afhost: span 0 to 12 of 12 frames\n");
    Ok(())
}

/// The file of a clip of 24 frames of 640 by 360 clear pixels: 22,118,429 bytes.
fn clear_file(alloc: Global) -> Result<Vec<u8>, AllocError> {
    let header = Header {
        width: 640,
        height: 360,
        depth: 8,
        value: 1001,
        scale: 30000,
        first: 0,
        count: 24,
    };
    let mut bytes = header_bytes(&header).to_vec(alloc)?;
    bytes.resize(22_118_429, 0)?;
    Ok(bytes)
}

/// Checks the user's project over a store of these clips.
fn check_users(
    rt: &(impl Threads + Wait + Sync),
    alloc: Global,
    clips: BTreeMap<String, Vec<u8>>,
) -> Result<Ended, Fail> {
    let words = words_of(alloc, "--mode|check")?;
    let mut project = MemSource::new(USERS.to_vec(alloc)?, 1000, Vec::new(alloc));
    let mut clips = MemClips::new(clips, Vec::new(alloc));
    let mut out = NeverSink::new(alloc, 1000);
    let mut notes = NeverSink::new(alloc, 1000);
    let status = run(
        rt,
        alloc,
        &words,
        &Stock,
        &mut project,
        &mut clips,
        &mut out,
        &mut notes,
        &NoGate,
    );
    Ok((
        status,
        text_of(alloc, out.bytes())?,
        text_of(alloc, notes.bytes())?,
    ))
}

#[test]
fn a_users_project_is_checked(rt: HostRuntime) -> Result<(), Fail> {
    let alloc = rt.alloc();
    let mut clips = BTreeMap::new(alloc);
    let _ = clips.insert(String::from_str(alloc, "a.afr")?, clear_file(alloc)?)?;
    let (status, out, note) = check_users(&rt, alloc, clips.clone()?)?;
    assert_eq!(rt; status, Status::Clip);
    assert_eq!(rt; out.len(), 0);
    assert_eq!(rt; note.as_str(), "afhost: clip b.afr: missing\n");
    let _ = clips.insert(String::from_str(alloc, "b.afr")?, clear_file(alloc)?)?;
    let (status, out, note) = check_users(&rt, alloc, clips)?;
    assert_eq!(rt; status, Status::Ok);
    assert_eq!(rt; out.as_str(), "ok 1280 720 8 24 5\n");
    assert_eq!(rt; note.len(), 0);
    Ok(())
}

/// Values are drawn from the ranges of these parameters.
fn are_ranges(rt: &impl Abort, kind: u32, ranges: &[ValueRange], params: &[ParamSchema]) {
    assert_eq!(rt; ranges.len(), params.len(), "{kind}");
    for (range, param) in ranges.iter().zip(params) {
        assert_eq!(rt; range.least, param.least, "{kind}");
        assert_eq!(rt; range.most, param.most, "{kind}");
    }
}

#[test]
fn the_generator_knows_the_stock(rt: HostRuntime) -> Result<(), Fail> {
    let schemas = Stock.schemas(rt.alloc())?;
    assert_eq!(rt; schemas.len(), KIND_COUNT as usize);
    for kind in 0..KIND_COUNT {
        let schema = schemas.get(kind as usize).ok_or("a schema")?;
        are_ranges(&rt, kind, ranges_of(kind), schema.params.as_slice());
        assert_eq!(rt; layers_of(kind), schema.layers, "{kind}");
        // From 2 to 8 entries are drawn where there are any.
        let (unit, rule) = (unit_of(kind), schema.sequence);
        assert_eq!(rt; unit, rule.unit, "{kind}");
        assert!(rt; unit == 0 || (rule.least <= 2 && rule.most >= 8), "{kind}");
    }
    Ok(())
}
