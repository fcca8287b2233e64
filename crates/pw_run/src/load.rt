//! The command `load`: a stream of calls, made from a number, is served.
ghost use Rattle.std.specs.Prelude.{◌≡◌, ◌≢◌, ◌≤◌, false};
ghost use Rattle.link_io.specs.Causes.{Rose};
ghost use Rattle.run_report.specs.Load.{load_report};
ghost use Rattle.pw_run.specs.declared.command.TheConstants.{MAX_LOAD};
ghost use Rattle.pw_run.specs.declared.outcome.Outcome.TheVariants.{BadWords, LinkFault, SinkFault, SourceFault, StoreFault};
ghost use Rattle.pw_run.specs.Load.{DidLoad, WritesLoad};
ghost use Rattle.pw_run.specs.Outcome.{IsSilent};

use crate::no_store::NoStore;
use crate::writing::write_text;
use crate::{Outcome, demo};
use link_io::Sink;
use load_stream::LoadSource;
use rpc_journal::Item;
use rpc_schedule::Ending;
use run_report::load_text;
use std::alloc::{AllocError, Global};

/// Serves the stream of so many calls that is made from this seed, and writes the totals of what was answered. No read of
/// that stream fails, it is far shorter than an input may be, and what it brings never fills the journal.
pub(crate) fn load<O: Sink>(alloc: Global, calls: u32, seed: u64, output: &mut O) -> Outcome
    requires fits { calls ≤ MAX_LOAD }
    requires open { O.finished output.old ≡ false }
    ensures words { result ≢ BadWords }
    ensures link { result ≢ LinkFault }
    ensures store { result ≢ StoreFault }
    ensures fault { result ≢ SourceFault }
    ensures did { DidLoad calls seed (O.written output.old) (O.written output.new) result }
    ensures silent { IsSilent result → output.new ≡ output.old }
    ensures sink { result ≡ SinkFault → Rose (O.faults output.old) (O.faults output.new) }
    ensures sink_later { O.faults output.old ≤ O.faults output.new }
{
    let Ok(mut server) = demo::server(alloc, demo::no_shelf(alloc)) else {
        return Outcome::NoMemory;
    };
    let Ok(mut source) = LoadSource::new(alloc, calls, seed) else {
        return Outcome::NoMemory;
    };
    let mut store = NoStore { alloc };
    let mut items = Vec::new(alloc);
    match rpc_schedule::replay(&mut server, &mut source, &mut store, &mut items) {
        Ok(Ending::AtEnd) => write_load(alloc, calls, seed, &items, output),
        Ok(Ending::SourceFault) => unreachable!(),
        Ok(Ending::StoreFault) => unreachable!(),
        Ok(Ending::InputLimit) => unreachable!(),
        Ok(Ending::JournalLimit) => unreachable!(),
        Err(_) => Outcome::NoMemory,
    }
}

// Writes the totals of the run.
fn write_load<O: Sink>(
    alloc: Global,
    calls: u32,
    seed: u64,
    items: &[Item],
    output: &mut O,
) -> Outcome
    requires open { O.finished output.old ≡ false }
    ensures link { result ≢ LinkFault }
    ensures writes { WritesLoad (load_report calls seed items.now) Outcome.Done (O.written output.old) (O.written output.new) result }
    ensures silent { IsSilent result → output.new ≡ output.old }
    ensures sink { result ≡ SinkFault → Rose (O.faults output.old) (O.faults output.new) }
    ensures sink_later { O.faults output.old ≤ O.faults output.new }
{
    match load_text(alloc, calls, seed, items) {
        Err(_) => Outcome::NoMemory,
        Ok(text) => write_text(output, text.as_bytes(), Outcome::Done),
    }
}
