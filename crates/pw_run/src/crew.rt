//! The command `crew`: a recorded stream of a client is served on threads.
ghost use Rattle.std.specs.Prelude.{◌≡◌, ◌≢◌, ◌≤◌, ◌⊎◌, false};
ghost use Rattle.link_io.specs.declared.why.Why.TheVariants.{Source as Read, Sink as Link, Store as Depot};
ghost use Rattle.link_io.specs.Causes.{Rose};
ghost use Rattle.link_io.specs.Links.{Links};
ghost use Rattle.run_report.specs.CrewReport.{crew_report};
ghost use Rattle.pw_run.specs.declared.outcome.Outcome.TheVariants.{BadWords, LinkFault, SinkFault, SourceFault, StoreFault};
ghost use Rattle.pw_run.specs.Crew.{DidCrew};
ghost use Rattle.pw_run.specs.Devices.{devices};
ghost use Rattle.pw_run.specs.LinkServed.{WritesServed};
ghost use Rattle.pw_run.specs.LiveCommand.{IsCrewSize};
ghost use Rattle.pw_run.specs.Outcome.{IsSilent};

use crate::Outcome;
use crate::link_served::serve_link;
use crate::nowhere::Nowhere;
use crate::served_text::write_served;
use demo_services::DemoCall;
use link_io::{Clock, Sink, Source, Store, Why};
use rpc_crew::{Gate, Served};
use run_report::crew_text;
use std::alloc::Global;
use std::sync::Wait;
use std::thread::Threads;

/// Lists the store, serves the input over its shelf by so many workers, whose packets go nowhere, and writes the report by call. The
/// text is made whole before its first byte is written.
pub(crate) fn crew<
    R: Threads + Wait + Sync,
    I: Source + Send,
    O: Sink,
    S: Store + Send,
    C: Clock + Send,
    G: Gate + Sync,
>(
    rt: &R,
    alloc: Global,
    workers: u32,
    input: &mut I,
    output: &mut O,
    store: &mut S,
    clock: &mut C,
    gate: &G,
) -> Outcome
    requires workers { IsCrewSize workers }
    requires open { O.finished output.old ≡ false }
    ensures words { result ≢ BadWords }
    ensures link { result ≢ LinkFault }
    ensures did { (links : Links) → DidCrew workers
        (devices (I.left input.old) (O.written output.old) (O.faults output.old) (S.holds store.old) links (C.last clock.old))
        (devices (I.left input.new) (O.written output.new) (O.faults output.new) (S.holds store.new) links (C.last clock.new)) result }
    ensures silent { IsSilent result → output.new ≡ output.old }
    ensures source { result ≡ SourceFault → Rose (I.faults input.old) (I.faults input.new) }
    ensures sink { result ≡ SinkFault → Rose (O.faults output.old) (O.faults output.new) }
    ensures store { result ≡ StoreFault → Rose (S.faults store.old) (S.faults store.new) }
    ensures source_later { I.faults input.old ≤ I.faults input.new }
    ensures sink_later { O.faults output.old ≤ O.faults output.new }
    ensures store_later { S.faults store.old ≤ S.faults store.new }
{
    match serve_link(
        rt,
        alloc,
        workers,
        input,
        &mut Nowhere::new(),
        store,
        clock,
        gate,
    ) {
        Err(_) => Outcome::NoMemory,
        Ok(served) => write_report(alloc, &served, output),
    }
}

// Writes the report of what was served.
fn write_report<O: Sink>(alloc: Global, served: &Served<DemoCall>, output: &mut O) -> Outcome
    requires open { O.finished output.old ≡ false }
    ensures writes { WritesServed (crew_report served.now.calls served.now.counts served.now.items.items served.now.why) served.now.why
        (O.written output.old) (O.written output.new) (O.faults output.old) (O.faults output.new) result }
    ensures words { result ≢ BadWords }
    ensures link { result ≢ LinkFault }
    ensures silent { IsSilent result → output.new ≡ output.old }
    ensures source { result ≡ SourceFault → served.now.why ≡ Read }
    ensures store { result ≡ StoreFault → served.now.why ≡ Depot }
    ensures sink { result ≡ SinkFault → (served.now.why ≡ Link) ⊎ Rose (O.faults output.old) (O.faults output.new) }
    ensures sink_later { O.faults output.old ≤ O.faults output.new }
{
    if served.why == Why::Memory {
        return Outcome::NoMemory;
    }
    match crew_text(
        alloc,
        served.counts,
        &served.calls,
        &served.items,
        served.why,
    ) {
        Err(_) => Outcome::NoMemory,
        Ok(text) => write_served(output, text.as_str(), served.why),
    }
}
