//! Runs over sources and sinks in memory.
ghost use Rattle.std.specs.Prelude.{◌≡◌, ◌<◌};

use fx_stock::Stock;
use host_io::{MemSink, MemSource, NeverClips, NeverSink, NeverSource, NoGate, Source, Status};
use host_run::{ArgumentsError, program, run};
use run_words::{DEFAULT_BUDGET, DEFAULT_WORKERS, RunMode, WordsError, read_words};
use std::alloc::{AllocError, Global};
use std::collections::BTreeMap;
use std::process::ExitCode;
use std::sync::Wait;
use std::test::Fail;
use std::thread::Threads;

pub(crate) const TWO_PIXELS: &[u8] =
    b"{\"version\":1,\"depth\":8,\"root\":0,\"comps\":[{\"width\":2,\"height\":1,\"frame\":[1,24],\"frames\":1,\"layers\":[{\"source\":{\"solid\":[2,1,255,10,20,30]}}]}]}";

pub(crate) const TWO_PIXEL_FILE: [u8; 37] = [
    0x41, 0x46, 0x52, 0x31, 0, 0, 0, 2, 0, 0, 0, 1, 8, 0, 0, 0, 1, 0, 0, 0, 0x18, 0, 0, 0, 0, 0, 0,
    0, 1, 0xff, 0x0a, 0x14, 0x1e, 0xff, 0x0a, 0x14, 0x1e,
];

/// A solid that is seen in the second of three frames alone.
const SECOND_FRAME: &[u8] =
    b"{\"version\":1,\"depth\":8,\"root\":0,\"comps\":[{\"width\":1,\"height\":1,\"frame\":[1,24],\"frames\":3,\"layers\":[{\"source\":{\"solid\":[1,1,255,1,2,3]},\"in\":[1,24],\"out\":[2,24]}]}]}";

const ONE_PIXEL_THRICE: &[u8] =
    b"{\"version\":1,\"depth\":8,\"root\":0,\"comps\":[{\"width\":1,\"height\":1,\"frame\":[1,24],\"frames\":3,\"layers\":[]}]}";

const WIDE_PIXEL: &[u8] =
    b"{\"version\":1,\"depth\":16,\"root\":0,\"comps\":[{\"width\":1,\"height\":1,\"frame\":[1,24],\"frames\":1,\"layers\":[{\"source\":{\"solid\":[1,1,32768,16384,0,1]}}]}]}";

const WIDE_PIXEL_FILE: [u8; 37] = [
    0x41, 0x46, 0x52, 0x31, 0, 0, 0, 1, 0, 0, 0, 1, 16, 0, 0, 0, 1, 0, 0, 0, 0x18, 0, 0, 0, 0, 0,
    0, 0, 1, 0x80, 0, 0x40, 0, 0, 0, 0, 1,
];

/// A mode that is none, over a layer whose source is none.
const NO_MODE: &[u8] =
    b"{\"version\":1,\"depth\":8,\"root\":0,\"comps\":[{\"width\":1,\"height\":1,\"frame\":[1,24],\"frames\":1,\"layers\":[{\"mode\":\"Foo\",\"source\":{\"solid\":[1,1,255,1,2,3]}},{\"source\":{}}]}]}";

/// A matte with no layer above it.
const NO_LAYER_ABOVE: &[u8] =
    b"{\"version\":1,\"depth\":8,\"root\":0,\"comps\":[{\"width\":1,\"height\":1,\"frame\":[1,24],\"frames\":1,\"layers\":[{\"matte\":\"Luma\",\"source\":{\"solid\":[1,1,255,1,2,3]}}]}]}";

/// A layer with an effect that the stock does not have.
const NO_SUCH_EFFECT: &[u8] =
    b"{\"version\":1,\"depth\":8,\"root\":0,\"comps\":[{\"width\":1,\"height\":1,\"frame\":[1,24],\"frames\":1,\"layers\":[{\"source\":{\"solid\":[1,1,255,1,2,3]},\"effects\":[{\"effect\":\"Foo\",\"params\":[0]}]}]}]}";

/// What a run over memory ended with and wrote.
#[derive(Drop)]
pub(crate) struct Ran {
    pub(crate) status: Status,
    pub(crate) out: Vec<u8>,
    pub(crate) note: Vec<u8>,
}

/// The words of a text, in which each but the last ends with a bar.
pub(crate) fn words_of(alloc: Global, text: &str) -> Result<Vec<String>, AllocError> {
    let mut words = Vec::new(alloc);
    if !text.is_empty() {
        for word in text.split('|') {
            words.push(String::from_str(alloc, word)?)?;
        }
    }
    Ok(words)
}

/// A store without clips.
pub(crate) fn no_clips(alloc: Global) -> NeverClips {
    NeverClips::new(BTreeMap::new(alloc))
}

/// Runs over a source and a sink whose calls move at most a piece and fail at one call.
pub(crate) fn run_over(
    rt: &(impl Threads + Wait + Sync),
    alloc: Global,
    words: &str,
    text: &[u8],
    piece: usize,
    read_fails: &[u64],
    write_fails: &[u64],
) -> Result<Ran, AllocError>
    requires { 0 < piece }
{
    let words = words_of(alloc, words)?;
    let mut project = MemSource::new(text.to_vec(alloc)?, piece, read_fails.to_vec(alloc)?);
    let mut out = MemSink::new(alloc, piece, write_fails.to_vec(alloc)?);
    let mut notes = MemSink::new(alloc, 7, Vec::new(alloc));
    let status = run(
        rt,
        alloc,
        &words,
        &Stock,
        &mut project,
        &mut no_clips(alloc),
        &mut out,
        &mut notes,
        &NoGate,
    );
    Ok(Ran {
        status,
        out: out.bytes().to_vec(alloc)?,
        note: notes.bytes().to_vec(alloc)?,
    })
}

#[test]
fn two_pixels_or_a_wide_one_make_37_bytes(rt: HostRuntime) -> Result<(), Fail> {
    for (text, file) in [(TWO_PIXELS, TWO_PIXEL_FILE), (WIDE_PIXEL, WIDE_PIXEL_FILE)] {
        let ran = run_over(&rt, rt.alloc(), "", text, 100, &[], &[])?;
        assert_eq!(rt; ran.status, Status::Ok);
        assert_eq!(rt; ran.out.as_slice(), file.as_slice());
        assert_eq!(rt; ran.note.len(), 0);
    }
    Ok(())
}

#[test]
fn words_are_settings_or_refused(rt: HostRuntime) -> Result<(), Fail> {
    let cases: [(&str, Option<(u32, Option<u32>)>); 28] = [
        ("", Some((0, None))),
        ("--from|1", Some((1, None))),
        ("--from=1", Some((1, None))),
        ("--from=0", Some((0, None))),
        ("--to|7", Some((0, Some(7)))),
        ("--to|7|--from=007", Some((7, Some(7)))),
        ("--from|0000000000012", Some((12, None))),
        ("--from|00000000000012", None),
        ("--from|65535", Some((65535, None))),
        ("--from|65536", None),
        ("--to=65536", None),
        ("--from|9999999999999", None),
        ("--from", None),
        ("--from=", None),
        ("--from|", None),
        ("--from|1|--from|1", None),
        ("--to=1|--to=2", None),
        ("--from|1|--from", None),
        ("--worker|4", None),
        ("--frames|4", None),
        ("--", None),
        ("--from|--to", None),
        ("--from|-1", None),
        ("--from|+1", None),
        ("--from|1x", None),
        ("--from 1", None),
        ("from|1", None),
        ("1", None),
    ];
    for (texts, want) in cases {
        let words = words_of(rt.alloc(), texts)?;
        match (read_words(rt.alloc(), &words), want) {
            (Ok(settings), Some((from, to))) => {
                assert_eq!(rt; settings.from, from, "at {texts:?}");
                assert_eq!(rt; settings.to, to, "at {texts:?}");
                assert_eq!(rt; settings.workers, DEFAULT_WORKERS, "at {texts:?}");
            }
            (Err(WordsError::Refused), None) => {}
            (outcome, _) => assert!(rt; false, "{outcome:?} at {texts:?}"),
        }
    }
    Ok(())
}

#[test]
fn workers_and_budget_are_numbers(rt: HostRuntime) -> Result<(), Fail> {
    let cases: [(&str, Option<(u32, u64)>); 15] = [
        ("--workers|1", Some((1, DEFAULT_BUDGET))),
        ("--workers=64", Some((64, DEFAULT_BUDGET))),
        ("--workers|0000000000007", Some((7, DEFAULT_BUDGET))),
        ("--workers|0", None),
        ("--workers=65", None),
        ("--workers|", None),
        ("--workers=2|--workers=2", None),
        ("--budget|0", Some((DEFAULT_WORKERS, 0))),
        (
            "--budget=1099511627776",
            Some((DEFAULT_WORKERS, 1_099_511_627_776)),
        ),
        ("--budget=1099511627777", None),
        ("--budget|-1", None),
        ("--budget", None),
        ("--budget=1|--budget|2", None),
        ("--budget|9|--workers|8|--from=0", Some((8, 9))),
        ("--budget|--workers|8", None),
    ];
    for (texts, want) in cases {
        let words = words_of(rt.alloc(), texts)?;
        match (read_words(rt.alloc(), &words), want) {
            (Ok(settings), Some((workers, budget))) => {
                assert_eq!(rt; settings.workers, workers, "at {texts:?}");
                assert_eq!(rt; settings.budget, budget, "at {texts:?}");
            }
            (Err(WordsError::Refused), None) => {}
            (outcome, _) => assert!(rt; false, "{outcome:?} at {texts:?}"),
        }
    }
    Ok(())
}

#[test]
fn modes_and_seeds_are_read(rt: HostRuntime) -> Result<(), Fail> {
    let cases: [(&str, Option<(RunMode, u32)>); 22] = [
        ("", Some((RunMode::Render, 1))),
        ("--mode|render", Some((RunMode::Render, 1))),
        ("--mode=check", Some((RunMode::Check, 1))),
        ("--mode|summary", Some((RunMode::Summary, 1))),
        ("--seed|0|--mode=demo", Some((RunMode::Demo, 0))),
        (
            "--mode|demo|--seed=4294967295",
            Some((RunMode::Demo, 4_294_967_295)),
        ),
        ("--seed=0000000000007", Some((RunMode::Render, 7))),
        ("--seed=4294967296", None),
        ("--seed|-1", None),
        ("--seed", None),
        ("--seed=1|--seed=1", None),
        ("--mode|Check", None),
        ("--mode|1", None),
        ("--mode=", None),
        ("--mode|", None),
        ("--mode", None),
        ("--mode|check|--mode|check", None),
        ("--mode|--seed|1", None),
        ("--mo|check", None),
        ("--mode check", None),
        ("--help", None),
        ("-m|check", None),
    ];
    for (texts, want) in cases {
        let words = words_of(rt.alloc(), texts)?;
        match (read_words(rt.alloc(), &words), want) {
            (Ok(settings), Some((mode, number))) => {
                assert_eq!(rt; settings.mode, mode, "at {texts:?}");
                assert_eq!(rt; settings.number, number, "at {texts:?}");
            }
            (Err(WordsError::Refused), None) => {}
            (outcome, _) => assert!(rt; false, "{outcome:?} at {texts:?}"),
        }
    }
    Ok(())
}

#[test]
fn refusals_write_a_line_and_no_file(rt: HostRuntime) -> Result<(), Fail> {
    let alloc = rt.alloc();
    let cases: [(&str, &[u8], Status, &str); 13] = [
        ("", b"[", Status::Project, "afhost: project is not JSON\n"),
        ("", b"", Status::Project, "afhost: project is not JSON\n"),
        ("", b"[1.5]", Status::Project, "afhost: project rule 1\n"),
        ("", NO_MODE, Status::Project, "afhost: project rule 9\n"),
        (
            "",
            NO_LAYER_ABOVE,
            Status::Project,
            "afhost: project rule 33\n",
        ),
        (
            "",
            NO_SUCH_EFFECT,
            Status::Project,
            "afhost: project rule 11\n",
        ),
        (
            "--from|1",
            TWO_PIXELS,
            Status::Span,
            "afhost: span 1 to 0 of 1 frames\n",
        ),
        (
            "--from=2|--to=1",
            ONE_PIXEL_THRICE,
            Status::Span,
            "afhost: span 2 to 1 of 3 frames\n",
        ),
        (
            "--to|3",
            ONE_PIXEL_THRICE,
            Status::Span,
            "afhost: span 0 to 3 of 3 frames\n",
        ),
        (
            "--workers|0",
            TWO_PIXELS,
            Status::Words,
            "afhost: words refused\n",
        ),
        ("--", TWO_PIXELS, Status::Words, "afhost: words refused\n"),
        ("--", b"[", Status::Words, "afhost: words refused\n"),
        (
            "--from|1",
            b"[",
            Status::Project,
            "afhost: project is not JSON\n",
        ),
    ];
    for (words, text, status, line) in cases {
        let ran = run_over(&rt, alloc, words, text, 3, &[], &[])?;
        assert_eq!(rt; ran.status, status, "{line}");
        assert_eq!(rt; ran.note.as_slice(), line.as_bytes());
        assert_eq!(rt; ran.out.len(), 0, "{line}");
    }
    Ok(())
}

#[test]
fn a_span_is_written_alone(rt: HostRuntime) -> Result<(), Fail> {
    let alloc = rt.alloc();
    // The words, the first frame, the count of frames, and the pixels.
    let cases: [(&str, u8, u8, &[u8]); 4] = [
        ("", 0, 3, &[0, 0, 0, 0, 255, 1, 2, 3, 0, 0, 0, 0]),
        ("--from|1", 1, 2, &[255, 1, 2, 3, 0, 0, 0, 0]),
        ("--from|1|--to|1", 1, 1, &[255, 1, 2, 3]),
        ("--to=0", 0, 1, &[0, 0, 0, 0]),
    ];
    for (words, first, count, pixels) in cases {
        let ran = run_over(&rt, alloc, words, SECOND_FRAME, 4096, &[], &[])?;
        assert_eq!(rt; ran.status, Status::Ok, "at {words:?}");
        assert_eq!(rt;
            ran.out.get(21..29).unwrap_or(&[]),
            [0, 0, 0, first, 0, 0, 0, count].as_slice(),
            "at {words:?}"
        );
        assert_eq!(rt; ran.out.get(29..).unwrap_or(&[]), pixels, "at {words:?}");
    }
    Ok(())
}

#[test]
fn refused_words_leave_the_source(rt: HostRuntime) -> Result<(), Fail> {
    let alloc = rt.alloc();
    let cases: [(&str, usize); 2] = [("--", 8), ("--from|1", 0)];
    for (words, left) in cases {
        let words = words_of(alloc, words)?;
        let mut project = MemSource::new(TWO_PIXELS.to_vec(alloc)?, 64, Vec::new(alloc));
        let mut out = NeverSink::new(alloc, 64);
        let mut notes = NeverSink::new(alloc, 64);
        let _ = run(
            &rt,
            alloc,
            &words,
            &Stock,
            &mut project,
            &mut no_clips(alloc),
            &mut out,
            &mut notes,
            &NoGate,
        );
        let mut into = [0; 8];
        assert_eq!(rt; project.read(&mut into)?, left);
        assert_eq!(rt; &into[..left], TWO_PIXELS.get(..left).unwrap_or(&[]));
    }
    Ok(())
}

/// Over a source, a store and a sink that never fail, no fault is answered: it follows from what `run` says of faults.
fn run_over_never(
    rt: &(impl Threads + Wait + Sync),
    alloc: Global,
    project: &mut NeverSource,
    clips: &mut NeverClips,
    out: &mut NeverSink,
    notes: &mut NeverSink,
) -> Status
    ensures read { result ≡ Status.ReadFault → ⊥ }
    ensures clip { result ≡ Status.ClipFault → ⊥ }
    ensures write { result ≡ Status.WriteFault → ⊥ }
{
    run(rt, alloc, &[], &Stock, project, clips, out, notes, &NoGate)
}

#[test]
fn a_longer_text_is_refused(rt: HostRuntime) -> Result<(), Fail> {
    let alloc = rt.alloc();
    for (spaces, status) in [
        (67_108_864usize, Status::Project),
        (67_108_865, Status::ProjectTooLong),
    ] {
        let mut project = NeverSource::new(vec![in alloc; b' '; spaces]?, 1 << 30);
        let mut out = NeverSink::new(alloc, 64);
        let mut notes = NeverSink::new(alloc, 64);
        let ended = run_over_never(
            &rt,
            alloc,
            &mut project,
            &mut no_clips(alloc),
            &mut out,
            &mut notes,
        );
        assert_eq!(rt; ended, status, "{spaces}");
        assert_eq!(rt; out.bytes().len(), 0);
    }
    Ok(())
}

#[test]
fn a_sink_that_fails_leaves_whole_pieces(rt: HostRuntime) -> Result<(), Fail> {
    for words in ["", "--workers|1", "--workers|2"] {
        let ran = run_over(&rt, rt.alloc(), words, ONE_PIXEL_THRICE, 64, &[], &[2])?;
        assert_eq!(rt; ran.status, Status::WriteFault, "at {words:?}");
        assert_eq!(rt; ran.out.len(), 33, "at {words:?}");
        assert_eq!(rt;
            ran.note.as_slice(),
            b"afhost: write fault\n".as_slice(),
            "at {words:?}"
        );
    }
    Ok(())
}

#[test]
fn each_read_may_fail(rt: HostRuntime) -> Result<(), Fail> {
    let count = TWO_PIXELS.len() as u64;
    for call in 0..count + 2 {
        let ran = run_over(&rt, rt.alloc(), "", TWO_PIXELS, 1, &[call], &[])?;
        let (status, len, line) = if call <= count {
            (Status::ReadFault, 0, "afhost: read fault\n")
        } else {
            (Status::Ok, 37, "")
        };
        assert_eq!(rt; ran.status, status, "read {call}");
        assert_eq!(rt; ran.out.len(), len, "read {call}");
        assert_eq!(rt; ran.note.as_slice(), line.as_bytes(), "read {call}");
    }
    Ok(())
}

#[test]
fn each_write_may_fail(rt: HostRuntime) -> Result<(), Fail> {
    for call in 0..38u64 {
        let ran = run_over(&rt, rt.alloc(), "", TWO_PIXELS, 1, &[], &[call])?;
        let status = if call < 37 {
            Status::WriteFault
        } else {
            Status::Ok
        };
        assert_eq!(rt; ran.status, status, "write {call}");
        assert_eq!(rt;
            ran.out.as_slice(),
            TWO_PIXEL_FILE
                .get(..call as usize)
                .unwrap_or(&TWO_PIXEL_FILE),
            "write {call}"
        );
    }
    Ok(())
}

/// A note whose sink fails is a front of its line, and the status stays.
#[test]
fn each_write_of_a_note_may_fail(rt: HostRuntime) -> Result<(), Fail> {
    let alloc = rt.alloc();
    let words = words_of(alloc, "--from|1")?;
    let line = b"afhost: span 1 to 0 of 1 frames\n";
    for call in 0..33u64 {
        let mut project = NeverSource::new(TWO_PIXELS.to_vec(alloc)?, 64);
        let mut out = NeverSink::new(alloc, 64);
        let mut notes = MemSink::new(alloc, 1, vec![in alloc; call]?);
        let ended = run(
            &rt,
            alloc,
            &words,
            &Stock,
            &mut project,
            &mut no_clips(alloc),
            &mut out,
            &mut notes,
            &NoGate,
        );
        assert_eq!(rt; ended, Status::Span, "write {call}");
        assert_eq!(rt;
            notes.bytes(),
            line.get(..call as usize).unwrap_or(line),
            "write {call}"
        );
    }
    Ok(())
}

#[test]
fn the_program_ends_with_the_status(rt: HostRuntime) -> Result<(), Fail> {
    let alloc = rt.alloc();
    let cases: [(Result<&str, ArgumentsError>, u8, usize, &str); 6] = [
        (Ok("afhost"), 0, 37, ""),
        (Ok(""), 0, 37, ""),
        (
            Ok("afhost|--from|1"),
            9,
            0,
            "afhost: span 1 to 0 of 1 frames\n",
        ),
        (Ok("--from|1"), 2, 0, "afhost: words refused\n"),
        (
            Err(ArgumentsError::NotText),
            2,
            0,
            "afhost: words refused\n",
        ),
        (Err(ArgumentsError::Memory), 7, 0, "afhost: out of memory\n"),
    ];
    for (texts, code, written, line) in cases {
        let arguments = match texts {
            Ok(texts) => Ok(words_of(alloc, texts)?),
            Err(error) => Err(error),
        };
        let mut project = NeverSource::new(TWO_PIXELS.to_vec(alloc)?, 64);
        let mut out = NeverSink::new(alloc, 64);
        let mut notes = NeverSink::new(alloc, 64);
        let ended = program(
            &rt,
            alloc,
            arguments,
            &Stock,
            &mut project,
            &mut no_clips(alloc),
            &mut out,
            &mut notes,
            &NoGate,
        );
        assert!(rt; ended == ExitCode::from(code), "{line}");
        assert_eq!(rt; out.bytes().len(), written, "{line}");
        assert_eq!(rt; notes.bytes(), line.as_bytes());
    }
    Ok(())
}
