ghost use Rattle.std.specs.Prelude.{◌≡◌, ℕ, ◌≤◌, length, take, OnOk, OnErr};
ghost use Rattle.std.specs.Io.KnownBytes.{Appends};
ghost use Rattle.host_io.specs.Cause.{HasWriteCause};
ghost use Rattle.frame_span.specs.Written.{AppendsFront};

use host_io::{Sink, SinkError};

/// Writes a whole piece: the rest again where only a part was taken.
pub fn write_whole<K: Sink>(out: &mut K, piece: &[u8]) -> Result<(), SinkError>
    ensures whole { OnOk result (Appends (K.written out.old) (K.written out.new) piece.now) }
    ensures front { OnErr result (AppendsFront (K.written out.old) (K.written out.new) piece.now) }
    ensures cause { HasWriteCause (K.faults out.old) (K.faults out.new) result }
{
    let mut rest = piece;
    'rest: while !rest.is_empty() {
        let count = out.write(rest)?;
        rest = &rest[count..];
    }
    Ok(())
}
