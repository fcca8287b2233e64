ghost use Rattle.std.specs.Prelude.{◌≡◌, false, OnOk};
ghost use Rattle.std.specs.Io.KnownBytes.{Appends};
ghost use Rattle.link_io.specs.Causes.{HasCause};
ghost use Rattle.link_io.specs.Device.{AppendsSome};

use crate::{Failed, Sink};

/// Writes all of `bytes`, in as many calls as the sink wants.
///
/// # Errors
///
/// `Failed` at the first write that fails. What was written then is a beginning of `bytes`.
pub fn write_whole<K: Sink>(sink: &mut K, bytes: &[u8]) -> Result<(), Failed>
    requires { K.finished sink.old ≡ false }
    ensures whole { OnOk result (Appends (K.written sink.old) (K.written sink.new) bytes.now) }
    ensures begun { AppendsSome (K.written sink.old) (K.written sink.new) bytes.now }
    ensures cause { HasCause (K.faults sink.old) (K.faults sink.new) result }
    ensures open { K.finished sink.new ≡ false }
{
    let mut done = 0;
    'pieces: while done < bytes.len() {
        done += sink.write(&bytes[done..])?;
    }
    Ok(())
}
