//! The command `dump`: what is in a recorded stream of either direction is told.
ghost use Rattle.std.specs.Prelude.{◌≡◌, ◌≢◌, ◌≤◌, false, length};
ghost use Rattle.link_io.specs.Causes.{Rose};
ghost use Rattle.link_io.specs.Reading.{ConsumesUpTo};
ghost use Rattle.rpc_schedule.specs.declared.stream.TheConstants.{INPUT_LIMIT};
ghost use Rattle.stream_dump.specs.declared.named.TheConstants.{MAX_NAMED};
ghost use Rattle.pw_run.specs.declared.outcome.Outcome.TheVariants.{BadWords, LinkFault, SinkFault, SourceFault, StoreFault};
ghost use Rattle.pw_run.specs.Dump.{DidDump};
ghost use Rattle.pw_run.specs.Outcome.{IsSilent};

use crate::Outcome;
use link_io::{Sink, Source};
use stream_dump::MethodNames;

/// Tells what is in the input, with the names of these methods and of those that the program knows. Each line is written as soon as
/// its segment was read, and no memory is taken.
pub(crate) fn dump<I: Source, O: Sink>(
    mut names: MethodNames<'_>,
    input: &mut I,
    output: &mut O,
) -> Outcome
    requires few { length names ≤ MAX_NAMED }
    requires open { O.finished output.old ≡ false }
    ensures words { result ≢ BadWords }
    ensures link { result ≢ LinkFault }
    ensures store { result ≢ StoreFault }
    ensures read { ConsumesUpTo INPUT_LIMIT (I.left input.old) (I.left input.new) }
    ensures did { DidDump names.entry (I.left input.old) (I.left input.new) (O.written output.old) (O.written output.new) result }
    ensures silent { IsSilent result → output.new ≡ output.old }
    ensures source { result ≡ SourceFault → Rose (I.faults input.old) (I.faults input.new) }
    ensures sink { result ≡ SinkFault → Rose (O.faults output.old) (O.faults output.new) }
    ensures source_later { I.faults input.old ≤ I.faults input.new }
    ensures sink_later { O.faults output.old ≤ O.faults output.new }
{
    names.add_known();
    Outcome::of_session(stream_dump::dump(names.as_slice(), input, output))
}
