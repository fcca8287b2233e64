//! The command `bridge`: frames go between two links.
ghost use Rattle.std.specs.Prelude.{◌≡◌, ◌≢◌, ℕ, ◌≤◌, ◌⊎◌, false, List, Option};
ghost use Rattle.link_io.specs.Causes.{Rose};
ghost use Rattle.link_io.specs.Stored.{Stored};
ghost use Rattle.link_io.specs.declared.why.Why.TheVariants.{Source as Read, Sink as Link, Store as Depot};
ghost use Rattle.frame_router.specs.bridge.Bridges.{reason_of};
ghost use Rattle.frame_router.specs.bridge.Printed.{bridge_text};
ghost use Rattle.pw_run.specs.declared.outcome.Outcome.TheVariants.{BadWords, LinkFault, SinkFault, SourceFault, StoreFault};
ghost use Rattle.pw_run.specs.Bridge.{DidBridge};
ghost use Rattle.pw_run.specs.Devices.{devices};
ghost use Rattle.pw_run.specs.LinkServed.{WritesServed};
ghost use Rattle.pw_run.specs.Outcome.{IsSilent};

use crate::Outcome;
use crate::served_text::write_served;
use frame_router::bridge::{Bridged, bridge_text};
use link_io::{Linker, Sink, Why};
use std::alloc::Global;
use std::thread::Threads;

/// Connects to both paths, the left one first, lets frames go between the two links until both directions have ended, gives the
/// links back and writes what became of them.
pub(crate) fn bridge<R: Threads, O: Sink, N: Linker>(
    rt: &R,
    alloc: Global,
    left: &str,
    right: &str,
    at_right: u32,
    at_left: u32,
    output: &mut O,
    net: &mut N,
) -> Outcome
    requires addresses { at_right ≢ at_left }
    requires open { O.finished output.old ≡ false }
    ensures words { result ≢ BadWords }
    ensures store { result ≢ StoreFault }
    ensures did { (unread : Option (List ℕ)) (held : Option Stored) (moment : ℕ) → DidBridge at_right at_left
        (devices unread (O.written output.old) (O.faults output.old) held (N.links net.old) moment)
        (devices unread (O.written output.new) (O.faults output.new) held (N.links net.new) moment) result }
    ensures silent { IsSilent result → output.new ≡ output.old }
    ensures source { result ≡ SourceFault → Rose (N.links net.old).in_faults (N.links net.new).in_faults }
    ensures sink { result ≡ SinkFault →
        Rose (N.links net.old).out_faults (N.links net.new).out_faults ⊎ Rose (O.faults output.old) (O.faults output.new) }
    ensures linker { result ≡ LinkFault → Rose (N.links net.old).faults (N.links net.new).faults }
    ensures linker_later { (N.links net.old).faults ≤ (N.links net.new).faults }
    ensures sink_later { O.faults output.old ≤ O.faults output.new }
{
    match frame_router::bridge::bridge(rt, alloc, net, left, right, at_right, at_left) {
        Err(_) => Outcome::LinkFault,
        Ok(done) => write_bridge(alloc, done, output),
    }
}

// Writes what became of the links.
fn write_bridge<O: Sink>(alloc: Global, done: Bridged, output: &mut O) -> Outcome
    requires open { O.finished output.old ≡ false }
    requires storeless { reason_of done ≢ Depot }
    ensures writes { WritesServed (bridge_text done) (reason_of done) (O.written output.old) (O.written output.new) (O.faults output.old) (O.faults output.new) result }
    ensures words { result ≢ BadWords }
    ensures link { result ≢ LinkFault }
    ensures store { result ≢ StoreFault }
    ensures silent { IsSilent result → output.new ≡ output.old }
    ensures source { result ≡ SourceFault → reason_of done ≡ Read }
    ensures sink { result ≡ SinkFault → (reason_of done ≡ Link) ⊎ Rose (O.faults output.old) (O.faults output.new) }
    ensures sink_later { O.faults output.old ≤ O.faults output.new }
{
    let why = done.why();
    if why == Why::Memory {
        return Outcome::NoMemory;
    }
    match bridge_text(alloc, done) {
        Err(_) => Outcome::NoMemory,
        Ok(text) => write_served(output, text.as_str(), why),
    }
}
