ghost use Rattle.std.specs.Prelude.{◌≡◌, ◌≢◌, ◌≤◌, false, OnOk};
ghost use Rattle.std.specs.Io.KnownBytes.{Appends};
ghost use Rattle.link_io.specs.Causes.{HasCause, Rose};
ghost use Rattle.link_io.specs.Device.{AppendsSome};
ghost use Rattle.pw_run.specs.declared.outcome.Outcome.TheVariants.{SinkFault};
ghost use Rattle.pw_run.specs.Writes.{Writes};

use crate::Outcome;
use link_io::{Failed, Sink, write_whole};

/// Writes all of a text, and then flushes the output. Where that succeeds the outcome is the one given.
pub(crate) fn write_text<O: Sink>(output: &mut O, text: &[u8], outcome: Outcome) -> Outcome
    requires outcome { outcome ≢ SinkFault }
    requires open { O.finished output.old ≡ false }
    ensures writes { Writes (O.written output.old) (O.written output.new) text.now outcome result }
    ensures sink { result ≡ SinkFault → Rose (O.faults output.old) (O.faults output.new) }
    ensures sink_later { O.faults output.old ≤ O.faults output.new }
{
    match write_out(output, text) {
        Ok(()) => outcome,
        Err(_) => Outcome::SinkFault,
    }
}

/// Writes all of a text, and then flushes the output.
pub(crate) fn write_out<O: Sink>(output: &mut O, text: &[u8]) -> Result<(), Failed>
    requires open { O.finished output.old ≡ false }
    ensures whole { OnOk result (Appends (O.written output.old) (O.written output.new) text.now) }
    ensures begun { AppendsSome (O.written output.old) (O.written output.new) text.now }
    ensures cause { HasCause (O.faults output.old) (O.faults output.new) result }
    ensures open { O.finished output.new ≡ false }
{
    write_whole(output, text)?;
    output.flush()
}
