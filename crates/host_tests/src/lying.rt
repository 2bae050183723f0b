//! A store that hands out less than it says, in whole runs.
ghost use Rattle.std.specs.Prelude.{◌+◌, ◌≤◌, vec_len};
ghost use Rattle.host_io.specs.Cause.{last_count};

use crate::clips::{A, ONE_CLIP, file_of};
use crate::runs::words_of;
use fx_stock::Stock;
use host_io::{LyingClips, NeverSink, NeverSource, NoGate, Status};
use host_run::run;
use std::alloc::{AllocError, Global};
use std::collections::BTreeMap;
use std::sync::Wait;
use std::test::Fail;
use std::thread::Threads;

/// How many bytes of the clip are there, how many more are said to be, and the note that comes.
const ROWS: [(usize, u64, &str); 5] = [
    (36, 1, "afhost: clip a.afr: short 36 of 37\n"),
    (36, 0, "afhost: clip a.afr: short 36 of 37\n"),
    (37, 1, "afhost: clip a.afr: short 37 of 38\n"),
    (
        37,
        18_446_744_073_709_551_578,
        "afhost: clip a.afr: short 37 of 18446744073709551615\n",
    ),
    (28, 9, "afhost: clip a.afr: short 28 of 29\n"),
];

/// A store of one clip, which is said to be longer by so many bytes.
fn lying_of(alloc: Global, bytes: Vec<u8>, more: u64) -> Result<LyingClips, AllocError>
    requires { vec_len bytes + more ≤ last_count }
{
    let mut clips = BTreeMap::new(alloc);
    let _ = clips.insert(String::from_str(alloc, "a.afr")?, bytes)?;
    Ok(LyingClips::new(clips, more))
}

/// Runs over the first bytes of the clip, of which more are said to be there.
fn run_lying(
    rt: &(impl Threads + Wait + Sync),
    alloc: Global,
    count: usize,
    more: u64,
) -> Result<(Status, Vec<u8>, Vec<u8>), Fail> {
    let mut bytes = file_of(alloc, &A)?;
    bytes.truncate(count);
    if bytes.len() as u64 > u64::MAX - more {
        Err("a length that is a u64")?;
    }
    let words = words_of(alloc, "")?;
    let mut project = NeverSource::new(ONE_CLIP.as_bytes().to_vec(alloc)?, 1000);
    let mut clips = lying_of(alloc, bytes, more)?;
    let mut out = NeverSink::new(alloc, 1000);
    let mut notes = NeverSink::new(alloc, 1000);
    let status = run(
        rt,
        alloc,
        &words,
        &Stock,
        &mut project,
        &mut clips,
        &mut out,
        &mut notes,
        &NoGate,
    );
    Ok((
        status,
        out.bytes().to_vec(alloc)?,
        notes.bytes().to_vec(alloc)?,
    ))
}

#[test]
fn a_store_is_judged_by_what_it_gives(rt: HostRuntime) -> Result<(), Fail> {
    for (count, more, line) in ROWS {
        let (status, out, note) = run_lying(&rt, rt.alloc(), count, more)?;
        assert_eq!(rt; status, Status::Clip, "{count} and {more}");
        assert_eq!(rt; out.len(), 0, "{count} and {more}");
        assert_eq!(rt; note.as_slice(), line.as_bytes(), "{count} and {more}");
    }
    Ok(())
}

#[test]
fn a_store_that_says_the_truth_is_read(rt: HostRuntime) -> Result<(), Fail> {
    let (status, out, note) = run_lying(&rt, rt.alloc(), 37, 0)?;
    assert_eq!(rt; status, Status::Ok);
    // A header, and three frames of a pixel: the last shows nothing.
    assert_eq!(rt; out.len(), 41);
    assert_eq!(rt; out.get(29..33), Some([255, 10, 20, 30].as_slice()));
    assert_eq!(rt; note.len(), 0);
    Ok(())
}
