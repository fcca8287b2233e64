//! The text of a session, written where there was memory.
ghost use Rattle.std.specs.Prelude.{◌≡◌, ◌≢◌, ◌≤◌, ◌⊎◌, false};
ghost use Rattle.link_io.specs.Causes.{Rose};
ghost use Rattle.link_io.specs.declared.why.Why.TheVariants.{Source as Read, Sink as Link, Store as Depot, Memory};
ghost use Rattle.pw_run.specs.declared.outcome.Outcome.TheVariants.{BadWords, LinkFault, SinkFault, SourceFault, StoreFault};
ghost use Rattle.pw_run.specs.LinkServed.{WritesServed};
ghost use Rattle.pw_run.specs.Outcome.{IsSilent};
ghost use Rattle.pw_run.specs.Writes.{WritesOrFails};

use crate::Outcome;
use crate::writing::write_out;
use link_io::{Sink, Why};

/// Writes the text of a session, with which a run that writes all of it ends so.
pub(crate) fn write_ended<O: Sink>(output: &mut O, text: &str, own: Outcome) -> Outcome
    requires open { O.finished output.old ≡ false }
    ensures writes { WritesOrFails (O.written output.old) (O.written output.new) (O.faults output.old) (O.faults output.new) text.now own result }
    ensures own { result ≢ SinkFault → result ≡ own }
    ensures sink { result ≡ SinkFault → (own ≡ SinkFault) ⊎ Rose (O.faults output.old) (O.faults output.new) }
    ensures sink_later { O.faults output.old ≤ O.faults output.new }
    ensures open { O.finished output.new ≡ false }
{
    match write_out(output, text.as_bytes()) {
        Ok(()) => own,
        Err(_) => Outcome::SinkFault,
    }
}

/// Writes the text of a session that ended for this reason.
pub(crate) fn write_served<O: Sink>(output: &mut O, text: &str, why: Why) -> Outcome
    requires open { O.finished output.old ≡ false }
    requires memory { why ≢ Memory }
    ensures writes { WritesServed text.now why (O.written output.old) (O.written output.new) (O.faults output.old) (O.faults output.new) result }
    ensures words { result ≢ BadWords }
    ensures source { result ≡ SourceFault → why ≡ Read }
    ensures store { result ≡ StoreFault → why ≡ Depot }
    ensures link { result ≢ LinkFault }
    ensures loud { IsSilent result → ⊥ }
    ensures sink { result ≡ SinkFault → (why ≡ Link) ⊎ Rose (O.faults output.old) (O.faults output.new) }
    ensures sink_later { O.faults output.old ≤ O.faults output.new }
    ensures open { O.finished output.new ≡ false }
{
    write_ended(output, text, Outcome::of_session(why))
}
