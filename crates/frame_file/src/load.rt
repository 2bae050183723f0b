//! Clips from a store.
ghost use Rattle.std.specs.Prelude.{◌≡◌, ◌+◌, ◌<◌, ◌≤◌, ℕ, List, length, take, min, IfOk, IfErr, OnOk, OnErr, Option, Some, None, ◌⊎◌};
ghost use Rattle.std.specs.List.{All, AllZip};
ghost use Rattle.host_io.specs.Cause.{Rose};
ghost use Rattle.host_io.specs.Clips.{EndsThere};
ghost use Rattle.project_model.specs.Clip.{IsReadable};
ghost use Rattle.frame_file.specs.Clip.{pictures_of};
ghost use Rattle.frame_file.specs.Load.{Loads, LoadsOne, CountsLoad, IsFront, AddsFrom, with_list};

use crate::clip::Clip;
use crate::judge::judge;
use crate::{ClipError, LoadError};
use host_io::{ClipStore, Failed};
use project_model::ClipUse;
use std::alloc::Global;

// The most that one read asks for, in bytes.
const PIECE: usize = 65_536;

/// Reads the clips of these declarations from a store, in order. Of each at most one byte more is read than is declared, and
/// no more than the length that the store says. After a refusal no further clip is asked for.
///
/// - `Fault`: the store failed at that clip, and counted it;
/// - `Missing`: no file has that clip's name;
/// - `Refused`: the bytes of its file are refused, as `read_clip` does it. Where the store ends before the length that it
///   said, the clip is `Short` by what was handed out: of the declared bytes, or, where these are all there, of those that
///   were said.
///
/// Each clip that is loaded has the sides, the depth and as many pictures as its declaration says. The numbers of each
/// declaration are those that a project may have.
pub fn load_clips<C: ClipStore>(
    alloc: Global,
    clips: &mut C,
    uses: &[ClipUse],
) -> Result<Vec<Clip>, LoadError>
    requires { All IsReadable uses.now }
    ensures loads { Loads (C.clips clips.old) uses.now (with_list result) }
    ensures declared { IfOk result (λ clips. AllZip (λ declared clip. clip ≡ pictures_of declared clip.pixels) uses.now clips.items) }
    ensures cause { CountsLoad result (C.faults clips.old) (C.faults clips.new) }
    ensures kept { C.clips clips.new ≡ C.clips clips.old }
{
    let mut loaded = Vec::new(alloc);
    for (index, declared) in uses.iter().enumerate() {
        match load_clip(alloc, clips, declared, index) {
            Ok(clip) => loaded.push(clip).map_err(|_| LoadError::Memory)?,
            Err(why) => return Err(why),
        }
    }
    Ok(loaded)
}

// The clip of a declaration, which has this index.
fn load_clip<C: ClipStore>(
    alloc: Global,
    clips: &mut C,
    declared: &ClipUse,
    index: usize,
) -> Result<Clip, LoadError>
    requires { IsReadable declared.now }
    ensures loads { LoadsOne (C.clips clips.old) declared.now index result }
    ensures cause { CountsLoad result (C.faults clips.old) (C.faults clips.new) }
    ensures kept { C.clips clips.new ≡ C.clips clips.old }
{
    let there = match clips.length(declared.name.as_str()) {
        Ok(Some(there)) => there,
        Ok(None) => return Err(LoadError::Missing { index }),
        Err(Failed) => return Err(LoadError::Fault { index }),
    };
    let most = there.min(declared.file_length() + 1) as usize;
    let bytes = read_front(alloc, clips, declared.name.as_str(), most, index)?;
    match judge(declared, &bytes, there) {
        Ok(()) => Ok(Clip::of_judged(declared, bytes)),
        Err(why) => Err(LoadError::Refused { index, why }),
    }
}

// The bytes under the name, at most so many, up to their end.
fn read_front<C: ClipStore>(
    alloc: Global,
    clips: &mut C,
    name: &str,
    most: usize,
    index: usize,
) -> Result<Vec<u8>, LoadError>
    ensures front { IfOk result (λ bytes. IsFront (C.clips clips.old) name.now most bytes.items) }
    ensures refused { IfErr result (λ why. (why ≡ LoadError.Fault index) ⊎ (why ≡ LoadError.Memory)) }
    ensures cause { CountsLoad result (C.faults clips.old) (C.faults clips.new) }
    ensures kept { C.clips clips.new ≡ C.clips clips.old }
{
    let mut piece = piece_of_zeros(alloc)?;
    let mut bytes = Vec::with_capacity(alloc, most).map_err(|_| LoadError::Memory)?;
    'pieces: while bytes.len() < most {
        let room = PIECE.min(most - bytes.len());
        let count = read_more(clips, name, &mut piece[..room], &mut bytes, index)?;
        if count == 0 {
            break;
        }
    }
    Ok(bytes)
}

// Room for one read.
fn piece_of_zeros(alloc: Global) -> Result<Vec<u8>, LoadError>
    ensures room { IfOk result (λ piece. length piece.items ≡ PIECE) }
    ensures memory { IfErr result (λ why. why ≡ LoadError.Memory) }
{
    vec![in alloc; 0u8; PIECE].map_err(|_| LoadError::Memory)
}

// Reads once behind the bytes so far, and adds what was read.
fn read_more<C: ClipStore>(
    clips: &mut C,
    name: &str,
    piece: &mut [u8],
    bytes: &mut Vec<u8>,
    index: usize,
) -> Result<usize, LoadError>
    requires room { 0 < length piece.old }
    ensures bound { IfOk result (λ count. count ≤ length piece.old) }
    ensures long { IfOk result (λ count. length bytes.new.items ≡ length bytes.old.items + count) }
    ensures more { IfOk result (λ count. AddsFrom (C.clips clips.old) name.now count bytes.old.items bytes.new.items) }
    ensures end { IfOk result (λ count. EndsThere (C.clips clips.old) name.now (length bytes.old.items) count) }
    ensures refused { IfErr result (λ why. (why ≡ LoadError.Fault index) ⊎ (why ≡ LoadError.Memory)) }
    ensures cause { CountsLoad result (C.faults clips.old) (C.faults clips.new) }
    ensures kept { C.clips clips.new ≡ C.clips clips.old }
{
    let place = bytes.len() as u64;
    let count = clips
        .read_at(name, place, piece)
        .map_err(|_| LoadError::Fault { index })?;
    bytes
        .extend_from_slice(&piece[..count])
        .map_err(|_| LoadError::Memory)?;
    Ok(count)
}
