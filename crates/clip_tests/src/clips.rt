//! Reading and loading clips. All answers were worked by hand.

ghost use Rattle.std.specs.Prelude.{None};

use crate::files::{alone, declared, file, three, worked};
use argb_pixel::{Pixel, Transparent};
use frame_file::{Clip, ClipError, LoadError, load_clips, read_clip};
use host_io::{ClipStore, Failed, MemClips};
use std::alloc::Global;
use std::collections::BTreeMap;
use std::test::Fail;

// Two opaque pixels.
const PIXELS: [u8; 8] = [255, 10, 20, 30, 255, 255, 0, 1];

// Why a clip was refused, if it was.
fn refusal(read: Result<Clip, ClipError>) -> Option<ClipError> {
    match read {
        Ok(_) => None,
        Err(why) => Some(why),
    }
}

// Why clips were not loaded, if they were not.
fn fault(loaded: Result<Vec<Clip>, LoadError>) -> Option<LoadError> {
    match loaded {
        Ok(_) => None,
        Err(why) => Some(why),
    }
}

// A store with one clip, and one call that fails.
fn store_of(alloc: Global, name: &str, bytes: Vec<u8>, fails: u64) -> Result<MemClips, Fail> {
    let mut clips = BTreeMap::new(alloc);
    clips.insert(String::from_str(alloc, name)?, bytes)?;
    Ok(MemClips::new(clips, vec![in alloc; fails]?))
}

// The worked file, cut or filled up with zeros to a length, with some bytes changed.
fn changed(alloc: Global, length: usize, changes: &[(usize, u8)]) -> Result<Vec<u8>, Fail> {
    let declared = worked(alloc)?;
    let mut bytes = file(alloc, &declared, 0, &PIXELS)?;
    bytes.resize(length, 0)?;
    for (place, byte) in changes {
        if let Some(old) = bytes.get_mut(*place) {
            *old = *byte;
        }
    }
    Ok(bytes)
}

#[test]
fn refusals_come_in_order(rt: HostRuntime) -> Result<(), Fail> {
    let cases: [(usize, &[(usize, u8)], Option<ClipError>); 15] = [
        (0, &[], Some(ClipError::Short { have: 0, want: 29 })),
        (28, &[(0, 0)], Some(ClipError::Short { have: 28, want: 29 })),
        (29, &[(3, b'2'), (7, 2)], Some(ClipError::BadMagic)),
        (
            29,
            &[(7, 2), (11, 2)],
            Some(ClipError::BadHeader { field: 0 }),
        ),
        (
            36,
            &[(11, 2), (12, 16)],
            Some(ClipError::BadHeader { field: 1 }),
        ),
        (
            36,
            &[(12, 16), (16, 2)],
            Some(ClipError::BadHeader { field: 2 }),
        ),
        (
            36,
            &[(16, 2), (20, 1)],
            Some(ClipError::BadHeader { field: 3 }),
        ),
        (
            36,
            &[(20, 1), (28, 3)],
            Some(ClipError::BadHeader { field: 4 }),
        ),
        (
            36,
            &[(28, 3), (29, 0)],
            Some(ClipError::BadHeader { field: 5 }),
        ),
        (
            36,
            &[(29, 0)],
            Some(ClipError::Short { have: 36, want: 37 }),
        ),
        (38, &[(29, 0)], Some(ClipError::Trailing { extra: 1 })),
        (
            37,
            &[(29, 29), (33, 0)],
            Some(ClipError::BadPixel { frame: 0, index: 0 }),
        ),
        (
            37,
            &[(33, 0), (34, 1), (35, 0), (36, 0)],
            Some(ClipError::BadPixel { frame: 1, index: 0 }),
        ),
        (37, &[(29, 30)], None),
        (37, &[(24, 9)], None),
    ];
    let declared = worked(rt.alloc())?;
    for (case, (length, changes, why)) in cases.iter().enumerate() {
        let bytes = changed(rt.alloc(), *length, changes)?;
        let read = refusal(read_clip(rt.alloc(), &bytes, &declared));
        assert_eq!(rt; read, *why, "in case {case}");
    }
    Ok(())
}

// Alpha and red of a pixel of 16 bits, the second of a picture of two.
#[test]
fn pixels_of_16_bits_have_their_bounds(rt: HostRuntime) -> Result<(), Fail> {
    let declared = declared(rt.alloc(), "a.afr", 2, 1, 16, 1)?;
    let bad = Some(ClipError::BadPixel { frame: 0, index: 1 });
    for (alpha, red, why) in [
        (32768u16, 32768u16, None),
        (32769, 0, bad),
        (256, 256, None),
        (256, 257, bad),
        (255, 256, bad),
    ] {
        let [a, a_low] = alpha.to_be_bytes();
        let [r, r_low] = red.to_be_bytes();
        let pixels = [0, 1, 0, 1, 0, 0, 0, 0, a, a_low, r, r_low, 0, 0, 0, 0];
        let bytes = file(rt.alloc(), &declared, 7, &pixels)?;
        let read = refusal(read_clip(rt.alloc(), &bytes, &declared));
        assert_eq!(rt; read, why, "at {alpha} and {red}");
    }
    Ok(())
}

#[test]
fn the_worked_clip_is_loaded_or_refused(rt: HostRuntime) -> Result<(), Fail> {
    let short = ClipError::Short { have: 36, want: 37 };
    let bad = ClipError::BadPixel { frame: 1, index: 0 };
    let none: &[(usize, u8)] = &[];
    let second: &[(usize, u8)] = &[(33, 0), (34, 1), (35, 0), (36, 0)];
    let uses = alone(rt.alloc(), worked(rt.alloc())?)?;
    for (name, length, changes, fails, why) in [
        ("a.afr", 37, none, 9, None),
        (
            "a.afr",
            36,
            none,
            9,
            Some(LoadError::Refused {
                index: 0,
                why: short,
            }),
        ),
        (
            "a.afr",
            38,
            none,
            9,
            Some(LoadError::Refused {
                index: 0,
                why: ClipError::Trailing { extra: 1 },
            }),
        ),
        (
            "a.afr",
            137,
            none,
            9,
            Some(LoadError::Refused {
                index: 0,
                why: ClipError::Trailing { extra: 100 },
            }),
        ),
        (
            "a.afr",
            37,
            second,
            9,
            Some(LoadError::Refused { index: 0, why: bad }),
        ),
        ("b.afr", 37, none, 9, Some(LoadError::Missing { index: 0 })),
        ("a.afr", 37, none, 0, Some(LoadError::Fault { index: 0 })),
        ("a.afr", 37, none, 1, Some(LoadError::Fault { index: 0 })),
    ] {
        let bytes = changed(rt.alloc(), length, changes)?;
        let mut store = store_of(rt.alloc(), name, bytes, fails)?;
        let loaded = fault(load_clips(rt.alloc(), &mut store, &uses));
        assert_eq!(rt; loaded, why, "at {length} bytes of {name}");
    }
    Ok(())
}

// A missing clip behind one that is there, and before one whose length would fail.
#[test]
fn clips_are_loaded_in_order(rt: HostRuntime) -> Result<(), Fail> {
    let uses = three(rt.alloc())?;
    for (fails, why) in [
        (2, LoadError::Fault { index: 1 }),
        (3, LoadError::Missing { index: 1 }),
    ] {
        let bytes = changed(rt.alloc(), 37, &[])?;
        let mut store = store_of(rt.alloc(), "a.afr", bytes, fails)?;
        let loaded = fault(load_clips(rt.alloc(), &mut store, &uses));
        assert_eq!(rt; loaded, Some(why), "where call {fails} fails");
    }
    Ok(())
}

// A refused clip before one whose length would fail.
#[test]
fn nothing_is_asked_for_behind_a_refused_clip(rt: HostRuntime) -> Result<(), Fail> {
    let uses = three(rt.alloc())?;
    for (fails, why) in [
        (1, LoadError::Fault { index: 0 }),
        (
            2,
            LoadError::Refused {
                index: 0,
                why: ClipError::BadMagic,
            },
        ),
    ] {
        let bytes = changed(rt.alloc(), 37, &[(3, b'2')])?;
        let mut store = store_of(rt.alloc(), "a.afr", bytes, fails)?;
        let loaded = fault(load_clips(rt.alloc(), &mut store, &uses));
        assert_eq!(rt; loaded, Some(why), "where call {fails} fails");
    }
    Ok(())
}

// The channels of a pixel.
fn channels<const MAX: u32>(pixel: Pixel<MAX>) -> (u32, u32, u32, u32) {
    (pixel.a(), pixel.r(), pixel.g(), pixel.b())
}

#[test]
fn pixels_are_read_in_both_depths(rt: HostRuntime) -> Result<(), Fail> {
    let eight = declared(rt.alloc(), "a.afr", 2, 1, 8, 2)?;
    let pixels = [9, 8, 7, 6, 128, 128, 0, 1, 255, 255, 0, 10, 0, 0, 0, 0];
    let bytes = file(rt.alloc(), &eight, 0, &pixels)?;
    let clip = read_clip(rt.alloc(), &bytes, &eight)?;
    assert_eq!(rt; channels(clip.pixel::<255>(0, 0, 0)), (9, 8, 7, 6));
    assert_eq!(rt; channels(clip.pixel::<255>(0, 1, 0)), (128, 128, 0, 1));
    assert_eq!(rt; channels(clip.pixel::<255>(1, 0, 0)), (255, 255, 0, 10));
    assert_eq!(rt; channels(clip.pixel::<255>(1, 1, 0)), (0, 0, 0, 0));
    assert_eq!(rt;
        channels(clip.pixel::<32768>(0, 1, 0)),
        (16448, 16448, 0, 129)
    );
    Ok(())
}

#[test]
fn pixels_of_16_bits_are_read_in_both_depths(rt: HostRuntime) -> Result<(), Fail> {
    let sixteen = declared(rt.alloc(), "a.afr", 1, 2, 16, 1)?;
    let pixels = [128, 0, 64, 64, 0, 0, 0, 1, 64, 64, 64, 64, 0, 129, 0, 0];
    let bytes = file(rt.alloc(), &sixteen, 3, &pixels)?;
    let clip = read_clip(rt.alloc(), &bytes, &sixteen)?;
    assert_eq!(rt;
        channels(clip.pixel::<32768>(0, 0, 0)),
        (32768, 16448, 0, 1)
    );
    assert_eq!(rt;
        channels(clip.pixel::<32768>(0, 0, 1)),
        (16448, 16448, 129, 0)
    );
    assert_eq!(rt; channels(clip.pixel::<255>(0, 0, 0)), (255, 128, 0, 0));
    assert_eq!(rt; channels(clip.pixel::<255>(0, 0, 1)), (128, 128, 1, 0));
    Ok(())
}

#[test]
fn rows_are_read_in_both_depths(rt: HostRuntime) -> Result<(), Fail> {
    let eight = declared(rt.alloc(), "a.afr", 2, 2, 8, 2)?;
    let pixels = [
        0, 0, 0, 0, 0, 0, 0, 0, 0, 0, 0, 0, 0, 0, 0, 0, 0, 0, 0, 0, 0, 0, 0, 0, 9, 8, 7, 6, 128,
        128, 0, 1,
    ];
    let bytes = file(rt.alloc(), &eight, 0, &pixels)?;
    let clip = read_clip(rt.alloc(), &bytes, &eight)?;
    let mut row = [Pixel::<255>::CLEAR; 2];
    clip.read_row(1, 1, &mut row);
    assert_eq!(rt; channels(row[0]), (9, 8, 7, 6));
    assert_eq!(rt; channels(row[1]), (128, 128, 0, 1));
    clip.read_row(1, 0, &mut row);
    assert_eq!(rt; channels(row[0]), (0, 0, 0, 0));
    assert_eq!(rt; channels(row[1]), (0, 0, 0, 0));
    let mut deep = [Pixel::<32768>::CLEAR; 2];
    clip.read_row(1, 1, &mut deep);
    assert_eq!(rt; channels(deep[1]), (16448, 16448, 0, 129));
    Ok(())
}

// So many bytes, each of them 7.
fn sevens(alloc: Global, count: usize) -> Result<Vec<u8>, Fail> {
    Ok(vec![in alloc; 7u8; count]?)
}

// 160,000 bytes of pixels in two pictures, more than one read gives.
#[test]
fn long_clips_are_read_in_pieces(rt: HostRuntime) -> Result<(), Fail> {
    let long = declared(rt.alloc(), "a.afr", 200, 100, 8, 2)?;
    let uses = alone(rt.alloc(), declared(rt.alloc(), "a.afr", 200, 100, 8, 2)?)?;
    for (place, why) in [
        (0, None),
        (
            79_996,
            Some(ClipError::BadPixel {
                frame: 0,
                index: 19_999,
            }),
        ),
        (
            159_996,
            Some(ClipError::BadPixel {
                frame: 1,
                index: 19_999,
            }),
        ),
    ] {
        let mut pixels = sevens(rt.alloc(), 160_000)?;
        if let Some(alpha) = pixels.get_mut(place) {
            *alpha = if place == 0 { 8 } else { 6 };
        }
        let bytes = file(rt.alloc(), &long, 0, &pixels)?;
        let mut store = store_of(rt.alloc(), "a.afr", bytes, 9)?;
        let want = why.map(|why| LoadError::Refused { index: 0, why });
        let loaded = fault(load_clips(rt.alloc(), &mut store, &uses));
        assert_eq!(rt; loaded, want, "with a change at {place}");
    }
    Ok(())
}

// A store that says one length of every name and has fewer bytes; it notes how far it was read.
#[derive(Drop)]
struct Liar<'a> {
    length: u64,
    bytes: &'a [u8],
    read: u64,
}

impl ClipStore for Liar<'_> {
    ghost clips = { λ _. None };

    ghost faults = { λ _. 0 };

    fn length(&mut self, _name: &str) -> Result<Option<u64>, Failed> {
        Ok(Some(self.length))
    }

    fn read_at(&mut self, _name: &str, place: u64, into: &mut [u8]) -> Result<usize, Failed> {
        let from = (place.min(self.bytes.len() as u64)) as usize;
        let count = into.len().min(self.bytes.len() - from);
        into[..count].copy_from_slice(&self.bytes[from..from + count]);
        self.read = self.read.max(place.saturating_add(into.len() as u64));
        Ok(count)
    }
}

// What is said to be there and what is handed out decide, and at most one byte more than declared is asked for.
#[test]
fn stores_that_do_not_tell_are_judged_by_what_they_give(rt: HostRuntime) -> Result<(), Fail> {
    let uses = alone(rt.alloc(), worked(rt.alloc())?)?;
    for (length, given, read, why) in [
        (37, 37, 37, None),
        (37, 36, 37, Some(ClipError::Short { have: 36, want: 37 })),
        (36, 37, 36, Some(ClipError::Short { have: 36, want: 37 })),
        (40, 36, 38, Some(ClipError::Short { have: 36, want: 37 })),
        (40, 37, 38, Some(ClipError::Short { have: 37, want: 40 })),
        (
            u64::MAX,
            37,
            38,
            Some(ClipError::Short {
                have: 37,
                want: u64::MAX,
            }),
        ),
        (40, 28, 38, Some(ClipError::Short { have: 28, want: 29 })),
        (40, 40, 38, Some(ClipError::Trailing { extra: 3 })),
    ] {
        let bytes = changed(rt.alloc(), given, &[])?;
        let mut store = Liar {
            length,
            bytes: &bytes,
            read: 0,
        };
        let want = why.map(|why| LoadError::Refused { index: 0, why });
        let loaded = fault(load_clips(rt.alloc(), &mut store, &uses));
        assert_eq!(rt; loaded, want, "at {given} of {length}");
        assert_eq!(rt; store.read, read, "at {given} of {length}");
    }
    Ok(())
}
