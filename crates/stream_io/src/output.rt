ghost use Rattle.std.specs.Prelude.{◌≡◌, OnErr, OnOk};
ghost use Rattle.std.specs.Io.KnownBytes.{Appends};
ghost use Rattle.world_traits.specs.Causes.{HasCause};
ghost use Rattle.stream_io.specs.Streams.{AppendsFront};

use world_traits::{Sink, WriteFailed};

/// Writes all of the bytes.
pub fn write_whole<O: Sink>(sink: &mut O, bytes: &[u8]) -> Result<(), WriteFailed>
    ensures cause { HasCause (O.faults sink.old) (O.faults sink.new) result }
    ensures all { OnOk result (Appends (O.taken sink.old) (O.taken sink.new) bytes.now) }
    ensures front { OnErr result (AppendsFront (O.taken sink.old) (O.taken sink.new) bytes.now) }

    // After a write that failed nothing more is written.
    ensures stops { O.faults sink.old ≡ 0 → O.late sink.new ≡ O.late sink.old }
{
    let mut rest = bytes;
    while !rest.is_empty() {
        let count = sink.write(rest)?;
        rest = &rest[count..];
    }
    Ok(())
}
