//! Frames that are drawn side by side, through `run`.

use crate::area::Counting;
use crate::clips::run_with;
use crate::runs::words_of;
use effect_api::Draw;
use host_io::{Gate, NeverClips, NeverSink, NeverSource, NoGate, Status};
use host_run::run;
use std::alloc::Global;
use std::collections::BTreeMap;
use std::sync::Wait;
use std::sync::atomic::Ordering;
use std::test::Fail;
use std::thread::Threads;
use worker_tests::HeldFrame;

/// How often a worker looks for another one.
const LOOKS: u32 = 50_000_000;

/// How often it looks where no other comes.
const FEW_LOOKS: u32 = 1_000_000;

/// Two frames of a point, inverted.
const INVERTED: &str =
    "{\"version\":1,\"depth\":8,\"root\":0,\"comps\":[{\"width\":1,\"height\":1,\"frame\":[1,24],\"frames\":2,\"layers\":[{\"source\":{\"solid\":[1,1,255,10,20,30]},\"effects\":[{\"effect\":\"Invert\",\"params\":[0]}]}]}]}";

/// Six of them.
const SIX_INVERTED: &str =
    "{\"version\":1,\"depth\":8,\"root\":0,\"comps\":[{\"width\":1,\"height\":1,\"frame\":[1,24],\"frames\":6,\"layers\":[{\"source\":{\"solid\":[1,1,255,10,20,30]},\"effects\":[{\"effect\":\"Invert\",\"params\":[0]}]}]}]}";

/// Three frames that show the levelled picture of the first.
const LEVELLED: &str =
    "{\"version\":1,\"depth\":8,\"root\":0,\"comps\":[{\"width\":1,\"height\":1,\"frame\":[1,24],\"frames\":3,\"layers\":[{\"source\":{\"solid\":[1,1,255,10,20,30]},\"effects\":[{\"effect\":\"AutoLevels\",\"params\":[0]},{\"effect\":\"PosterizeTime\",\"params\":[4]}]}]}]}";

/// Five frames of a point that moves by one a frame over five points.
const MOVING: &str =
    "{\"version\":1,\"depth\":8,\"root\":0,\"comps\":[{\"width\":5,\"height\":1,\"frame\":[1,24],\"frames\":5,\"layers\":[{\"source\":{\"solid\":[1,1,255,10,20,30]},\"x\":[[0,[0,1],\"linear\"],[4,[4,24],\"hold\"]]}]}]}";

/// Runs with a gate, and answers how it ended and how many bytes it wrote.
fn run_gated<R: Threads + Wait + Sync, E: Draw<255> + Draw<32768> + Sync, G: Gate>(
    rt: &R,
    alloc: Global,
    words: &str,
    effects: &E,
    text: &str,
    gate: &G,
) -> Result<(Status, usize), Fail> {
    let words = words_of(alloc, words)?;
    let mut project = NeverSource::new(text.as_bytes().to_vec(alloc)?, 1000);
    let mut clips = NeverClips::new(BTreeMap::new(alloc));
    let mut out = NeverSink::new(alloc, 1000);
    let mut notes = NeverSink::new(alloc, 1000);
    let status = run(
        rt,
        alloc,
        &words,
        effects,
        &mut project,
        &mut clips,
        &mut out,
        &mut notes,
        gate,
    );
    Ok((status, out.bytes().len()))
}

#[test]
fn two_frames_are_drawn_at_once(rt: HostRuntime) -> Result<(), Fail> {
    let alloc = rt.alloc();
    for words in ["--workers|2", "--workers|2|--mode|summary"] {
        let gate = HeldFrame::new(0);
        let effects = Counting::new(LOOKS);
        let (status, _) = run_gated(&rt, alloc, words, &effects, INVERTED, &gate)?;
        assert_eq!(rt; status, Status::Ok, "at {words:?}");
        assert!(rt; gate.saw_another(), "at {words:?}");
        assert_eq!(rt; effects.met.load(Ordering::SeqCst), 2, "at {words:?}");
    }
    Ok(())
}

#[test]
fn one_worker_draws_alone(rt: HostRuntime) -> Result<(), Fail> {
    let alloc = rt.alloc();
    let effects = Counting::new(FEW_LOOKS);
    let (status, _) = run_gated(&rt, alloc, "--workers|1", &effects, INVERTED, &NoGate)?;
    assert_eq!(rt; status, Status::Ok);
    // The first drawing sees no other, and the second that there was one.
    assert_eq!(rt; effects.met.load(Ordering::SeqCst), 1);
    Ok(())
}

#[test]
fn a_drawn_window_is_written_where_the_next_lacks_memory(rt: HostRuntime) -> Result<(), Fail> {
    let alloc = rt.alloc();
    let mut effects = Counting::new(0);
    effects.most = 3;
    let (status, count) = run_gated(&rt, alloc, "--workers|1", &effects, SIX_INVERTED, &NoGate)?;
    assert_eq!(rt; status, Status::Memory);
    // A header and the two frames of the first window: the second one is not whole.
    assert_eq!(rt; count, 37);
    Ok(())
}

#[test]
fn checking_draws_nothing(rt: HostRuntime) -> Result<(), Fail> {
    let alloc = rt.alloc();
    let effects = Counting::new(0);
    let (status, _) = run_gated(&rt, alloc, "--mode|check", &effects, LEVELLED, &NoGate)?;
    assert_eq!(rt; status, Status::Ok);
    assert_eq!(rt; effects.drawings.load(Ordering::SeqCst), 0);
    assert_eq!(rt; effects.analyses.load(Ordering::SeqCst), 0);
    Ok(())
}

#[test]
fn workers_share_an_analysis(rt: HostRuntime) -> Result<(), Fail> {
    let alloc = rt.alloc();
    let gate = HeldFrame::new(1);
    let effects = Counting::new(0);
    let words = "--workers|2|--from|1|--to|2";
    let (status, _) = run_gated(&rt, alloc, words, &effects, LEVELLED, &gate)?;
    assert_eq!(rt; status, Status::Ok);
    assert!(rt; gate.saw_another());
    assert_eq!(rt; effects.analyses.load(Ordering::SeqCst), 1);
    Ok(())
}

#[test]
fn frames_come_in_order_from_any_workers(rt: HostRuntime) -> Result<(), Fail> {
    let alloc = rt.alloc();
    let mut pixels = Vec::new(alloc);
    for frame in 0..5 {
        for column in 0..5 {
            let point = if column == frame {
                [255, 10, 20, 30]
            } else {
                [0, 0, 0, 0]
            };
            pixels.extend_from_slice(&point)?;
        }
    }
    for words in [
        "--workers|1",
        "--workers=2",
        "--workers|3|--budget|0",
        "",
        "--workers=64|--budget=0",
    ] {
        let ran = run_with(&rt, alloc, words, MOVING, BTreeMap::new(alloc), &[])?;
        assert_eq!(rt; ran.status, Status::Ok, "at {words:?}");
        assert_eq!(rt; ran.pixels.as_slice(), pixels.as_slice(), "at {words:?}");
    }
    Ok(())
}
