ghost use Rattle.std.specs.Prelude.{◌≡◌, ◌<◌, ◌≤◌, length, vec_len, IfOk, OnOk, OnErr, IsErrOf, IfSome};
ghost use Rattle.std.specs.Io.KnownBytes.{Consumes, IsAtEnd, Keeps};
ghost use Rattle.host_run.specs.Input.{IsTooLong, IsShort, AddsRead, TakesSome, CountsFault};

use host_io::{Failed, Source};
use std::alloc::Global;

/// The longest project text, in bytes.
const LONGEST_TEXT: usize = 67_108_864;

/// The most that one read asks for, in bytes.
const PIECE: usize = 65_536;

/// Why a source was not read to its end.
#[derive(Clone, Copy, Debug, PartialEq, Eq)]
pub(crate) enum ReadError {
    Fault,
    TooLong,
    Memory,
}

/// Reads a source to its end, in pieces.
pub(crate) fn read_to_end<S: Source>(alloc: Global, source: &mut S) -> Result<Vec<u8>, ReadError>
    ensures bytes { IfOk result (λ v. Consumes (S.left source.old) (S.left source.new) v.items) }
    ensures end { OnOk result (IsAtEnd (S.left source.new)) }
    ensures bound { IfOk result (λ v. vec_len v ≤ LONGEST_TEXT) }

    ensures too_long { IsErrOf result ReadError.TooLong → IsTooLong (S.left source.old) (S.left source.new) }
    ensures short { IsErrOf result ReadError.Fault → IsShort (S.left source.old) (S.left source.new) }
    ensures none_lost { OnErr result (TakesSome (S.left source.old) (S.left source.new)) }

    // The count rises where a read failed, unless it stands at its end, and nowhere else.
    ensures later { S.faults source.old ≤ S.faults source.new }
    ensures cause { CountsFault result (S.faults source.old) (S.faults source.new) }
{
    let mut piece = piece_of_zeros(alloc)?;
    let mut bytes = Vec::new(alloc);
    'pieces: while bytes.len() <= LONGEST_TEXT {
        let count = read_more(source, &mut piece, &mut bytes)?;
        if count == 0 {
            return Ok(bytes);
        }
    }
    Err(ReadError::TooLong)
}

// Room for one read.
fn piece_of_zeros(alloc: Global) -> Result<Vec<u8>, ReadError>
    ensures room { IfOk result (λ piece. 0 < vec_len piece) }
    ensures memory { OnErr result (IsErrOf result ReadError.Memory) }
{
    vec![in alloc; 0u8; PIECE].map_err(|_| ReadError::Memory)
}

// Reads once, and adds what was read to the bytes.
fn read_more<S: Source>(
    source: &mut S,
    piece: &mut [u8],
    bytes: &mut Vec<u8>,
) -> Result<usize, ReadError>
    requires { 0 < length piece.old }
    ensures more { IfOk result (λ count. AddsRead count (S.left source.old) (S.left source.new) bytes.old.items bytes.new.items) }
    ensures end { IfOk result (λ count. count ≡ 0 → IsAtEnd (S.left source.new)) }
    ensures none_lost { OnErr result (TakesSome (S.left source.old) (S.left source.new)) }
    ensures kept { IsErrOf result ReadError.Fault → Keeps (S.left source.old) (S.left source.new) }
    ensures not_long { IsErrOf result ReadError.TooLong → ⊥ }
    ensures later { S.faults source.old ≤ S.faults source.new }
    ensures cause { CountsFault result (S.faults source.old) (S.faults source.new) }
{
    let count = match source.read(piece) {
        Ok(count) => count,
        Err(Failed) => return Err(ReadError::Fault),
    };
    match bytes.extend_from_slice(&piece[..count]) {
        Ok(()) => Ok(count),
        Err(_) => Err(ReadError::Memory),
    }
}
