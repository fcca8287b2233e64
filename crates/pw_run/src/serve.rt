//! The commands `serve` and `host`: connections are served in turn, each on threads.
ghost use Rattle.std.specs.Prelude.{◌≡◌, ◌≢◌, ℕ, ◌≤◌, ◌⊎◌, true, false, List, Option, IfOk, OnErr};
ghost use Rattle.link_io.specs.Causes.{Rose};
ghost use Rattle.link_io.specs.declared.why.Why.TheVariants.{Source as Read, Sink as Link, Store as Depot};
ghost use Rattle.run_report.specs.ConnectionReport.{connection_report};
ghost use Rattle.pw_run.specs.declared.outcome.Outcome.TheVariants.{BadWords, LinkFault, NoMemory, SinkFault, SourceFault, StoreFault};
ghost use Rattle.pw_run.specs.Devices.{devices};
ghost use Rattle.pw_run.specs.LinkServed.{WritesEnded};
ghost use Rattle.pw_run.specs.LiveCommand.{IsCrewSize};
ghost use Rattle.pw_run.specs.Outcome.{IsSilent};
ghost use Rattle.pw_run.specs.Serve.{KeepsMoment, ServesAt, ServesBy, ServesConnection, ServesInTurn, outcome_by};

use crate::Outcome;
use crate::hosted::host_link;
use crate::link_served::serve_link;
use crate::served_text::write_ended;
use crate::way::Way;
use demo_services::DemoCall;
use link_io::{Clock, Linker, Sink, Source, Store, Why};
use rpc_crew::{Gate, Served};
use run_report::connection_text;
use std::alloc::{AllocError, Global};
use std::sync::Wait;
use std::thread::Threads;

/// Listens at a path, and serves so many connections in turn, each by so many workers. The first that ends the run, or can't be
/// accepted, is the last.
pub(crate) fn serve<
    R: Threads + Wait + Sync,
    O: Sink,
    S: Store + Send,
    N: Linker,
    C: Clock + Send,
    G: Gate + Sync,
>(
    rt: &R,
    alloc: Global,
    path: &str,
    way: Way,
    workers: u32,
    connections: u32,
    output: &mut O,
    store: &mut S,
    net: &mut N,
    clock: &mut C,
    gate: &G,
) -> Outcome
    requires workers { IsCrewSize workers }
    requires open { O.finished output.old ≡ false }
    ensures words { result ≢ BadWords }
    ensures did { (left : Option (List ℕ)) → ServesAt way workers connections
        (devices left (O.written output.old) (O.faults output.old) (S.holds store.old) (N.links net.old) (C.last clock.old))
        (devices left (O.written output.new) (O.faults output.new) (S.holds store.new) (N.links net.new) (C.last clock.new)) result }
    ensures sink { result ≡ SinkFault →
        Rose (N.links net.old).out_faults (N.links net.new).out_faults ⊎ Rose (O.faults output.old) (O.faults output.new) }
    ensures source { result ≡ SourceFault → Rose (N.links net.old).in_faults (N.links net.new).in_faults }
    ensures store { result ≡ StoreFault → Rose (S.faults store.old) (S.faults store.new) }
    ensures linker { result ≡ LinkFault → Rose (N.links net.old).faults (N.links net.new).faults }
    ensures linker_later { (N.links net.old).faults ≤ (N.links net.new).faults }
    ensures sink_later { O.faults output.old ≤ O.faults output.new }
    ensures store_later { S.faults store.old ≤ S.faults store.new }
{
    match net.listen(path) {
        Err(_) => Outcome::LinkFault,
        Ok(()) => serve_all(
            rt,
            alloc,
            way,
            workers,
            connections,
            output,
            store,
            net,
            clock,
            gate,
        ),
    }
}

// Serves so many connections in turn.
fn serve_all<
    R: Threads + Wait + Sync,
    O: Sink,
    S: Store + Send,
    N: Linker,
    C: Clock + Send,
    G: Gate + Sync,
>(
    rt: &R,
    alloc: Global,
    way: Way,
    workers: u32,
    connections: u32,
    output: &mut O,
    store: &mut S,
    net: &mut N,
    clock: &mut C,
    gate: &G,
) -> Outcome
    requires workers { IsCrewSize workers }
    requires open { O.finished output.old ≡ false }
    requires listens { (N.links net.old).listens ≡ true }
    ensures words { result ≢ BadWords }
    ensures serves { (left : Option (List ℕ)) → ServesInTurn way workers connections
        (devices left (O.written output.old) (O.faults output.old) (S.holds store.old) (N.links net.old) (C.last clock.old))
        (devices left (O.written output.new) (O.faults output.new) (S.holds store.new) (N.links net.new) (C.last clock.new)) result }
    ensures source { result ≡ SourceFault → Rose (N.links net.old).in_faults (N.links net.new).in_faults }
    ensures sink { result ≡ SinkFault →
        Rose (N.links net.old).out_faults (N.links net.new).out_faults ⊎ Rose (O.faults output.old) (O.faults output.new) }
    ensures store { result ≡ StoreFault → Rose (S.faults store.old) (S.faults store.new) }
    ensures linker { result ≡ LinkFault → Rose (N.links net.old).faults (N.links net.new).faults }
    ensures linker_later { (N.links net.old).faults ≤ (N.links net.new).faults }
    ensures sink_later { O.faults output.old ≤ O.faults output.new }
    ensures store_later { S.faults store.old ≤ S.faults store.new }
{
    for number in 1..=connections {
        match serve_next(
            rt, alloc, way, workers, number, output, store, net, clock, gate,
        ) {
            Outcome::Done => {}
            outcome => return outcome,
        }
    }
    Outcome::Done
}

// Accepts a connection, serves it, gives its ends back and writes its lines.
fn serve_next<
    R: Threads + Wait + Sync,
    O: Sink,
    S: Store + Send,
    N: Linker,
    C: Clock + Send,
    G: Gate + Sync,
>(
    rt: &R,
    alloc: Global,
    way: Way,
    workers: u32,
    number: u32,
    output: &mut O,
    store: &mut S,
    net: &mut N,
    clock: &mut C,
    gate: &G,
) -> Outcome
    requires workers { IsCrewSize workers }
    requires open { O.finished output.old ≡ false }
    requires listens { (N.links net.old).listens ≡ true }
    ensures words { result ≢ BadWords }
    ensures did { (left : Option (List ℕ)) → ServesConnection way workers number
        (devices left (O.written output.old) (O.faults output.old) (S.holds store.old) (N.links net.old) (C.last clock.old))
        (devices left (O.written output.new) (O.faults output.new) (S.holds store.new) (N.links net.new) (C.last clock.new)) result }
    ensures source { result ≡ SourceFault → Rose (N.links net.old).in_faults (N.links net.new).in_faults }
    ensures sink { result ≡ SinkFault →
        Rose (N.links net.old).out_faults (N.links net.new).out_faults ⊎ Rose (O.faults output.old) (O.faults output.new) }
    ensures store { result ≡ StoreFault → Rose (S.faults store.old) (S.faults store.new) }
    ensures linker { result ≡ LinkFault → Rose (N.links net.old).faults (N.links net.new).faults }
    ensures linker_later { (N.links net.old).faults ≤ (N.links net.new).faults }
    ensures sink_later { O.faults output.old ≤ O.faults output.new }
    ensures store_later { S.faults store.old ≤ S.faults store.new }
    ensures open { O.finished output.new ≡ false }
    ensures listens { (N.links net.new).listens ≡ true }
{
    let Ok((mut link_in, mut link_out)) = net.accept() else {
        return Outcome::LinkFault;
    };
    let served = serve_by(
        rt,
        alloc,
        way,
        workers,
        &mut link_in,
        &mut link_out,
        store,
        clock,
        gate,
    );
    net.back(link_in, link_out);
    match served {
        Err(_) => Outcome::NoMemory,
        Ok(served) => write_lines(alloc, way, number, &served, output),
    }
}

// Serves a link.
fn serve_by<
    R: Threads + Wait + Sync,
    I: Source + Send,
    O: Sink + Send,
    S: Store + Send,
    C: Clock + Send,
    G: Gate + Sync,
>(
    rt: &R,
    alloc: Global,
    way: Way,
    workers: u32,
    link_in: &mut I,
    link_out: &mut O,
    store: &mut S,
    clock: &mut C,
    gate: &G,
) -> Result<Served<DemoCall>, AllocError>
    requires workers { IsCrewSize workers }
    requires open { O.finished link_out.old ≡ false }
    ensures serves { IfOk result (λ s. ServesBy way workers
        (record { left = I.left link_in.old; sent = O.written link_out.old; held = S.holds store.old; moment = C.last clock.old })
        (record { left = I.left link_in.new; sent = O.written link_out.new; held = S.holds store.new; moment = C.last clock.new })
        s.why s.counts s.calls s.items.items) }
    ensures source { IfOk result (λ s. s.why ≡ Read → Rose (I.faults link_in.old) (I.faults link_in.new)) }
    ensures sink { IfOk result (λ s. s.why ≡ Link → Rose (O.faults link_out.old) (O.faults link_out.new)) }
    ensures store { IfOk result (λ s. s.why ≡ Depot → Rose (S.faults store.old) (S.faults store.new)) }
    ensures later { (I.faults link_in.old ≤ I.faults link_in.new) × (S.faults store.old ≤ S.faults store.new) }
    ensures untouched { OnErr result ((link_in.new ≡ link_in.old) × (link_out.new ≡ link_out.old) × (S.holds store.new ≡ S.holds store.old)) }
    ensures moment { OnErr result (KeepsMoment way (C.last clock.old) (C.last clock.new)) }
{
    match way {
        Way::Serve => serve_link(rt, alloc, workers, link_in, link_out, store, clock, gate),
        Way::Host => host_link(rt, alloc, workers, link_in, link_out, store, clock, gate),
    }
}

// Writes the lines of a connection.
fn write_lines<O: Sink>(
    alloc: Global,
    way: Way,
    number: u32,
    served: &Served<DemoCall>,
    output: &mut O,
) -> Outcome
    requires open { O.finished output.old ≡ false }
    ensures writes { WritesEnded (connection_report number served.now.calls served.now.counts served.now.why) served.now.why (outcome_by way served.now.why)
        (O.written output.old) (O.written output.new) (O.faults output.old) (O.faults output.new) result }
    ensures words { result ≢ BadWords }
    ensures link { result ≢ LinkFault }
    ensures silent { IsSilent result → output.new ≡ output.old }
    ensures source { result ≡ SourceFault → served.now.why ≡ Read }
    ensures store { result ≡ StoreFault → served.now.why ≡ Depot }
    ensures sink { result ≡ SinkFault → (served.now.why ≡ Link) ⊎ Rose (O.faults output.old) (O.faults output.new) }
    ensures sink_later { O.faults output.old ≤ O.faults output.new }
    ensures open { O.finished output.new ≡ false }
{
    if served.why == Why::Memory {
        return Outcome::NoMemory;
    }
    match connection_text(alloc, number, served.counts, &served.calls, served.why) {
        Err(_) => Outcome::NoMemory,
        Ok(text) => write_ended(output, text.as_str(), way.outcome(served.why)),
    }
}
