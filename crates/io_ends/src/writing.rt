//! Writing to a sink.

ghost use Rattle.std.specs.Prelude.{◌≡◌, OnOk, OnErr};
ghost use Rattle.std.specs.Io.KnownBytes.{Appends};
ghost use Rattle.io_ends.specs.Causes.{HasCause, AppendsFront};

use crate::ends::{Failed, Sink};

/// Writes all of the bytes. After a fault a front of them is written.
pub fn write_all<O: Sink>(sink: &mut O, bytes: &[u8]) -> Result<(), Failed>
    ensures ok { OnOk result (Appends (O.written sink.old) (O.written sink.new) bytes.now) }
    ensures err { OnErr result (AppendsFront (O.written sink.old) (O.written sink.new) bytes.now) }
    ensures cause { HasCause (O.faults sink.old) (O.faults sink.new) result }
    ensures source_side { O.source_side sink.new ≡ O.source_side sink.old }
{
    let mut done = 0;
    while done < bytes.len() {
        done += sink.write(&bytes[done..])?;
    }
    Ok(())
}
