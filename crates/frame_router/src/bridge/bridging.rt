//! Both directions of a bridge, over the links of a linker.

ghost use Rattle.std.specs.Prelude.{◌≡◌, ◌≢◌, ◌<◌, ◌≤◌, [], ◌∷◌, ◌++◌, false, length, List, Some, IfOk, OnOk, OnErr, IsNone};
ghost use Rattle.link_io.specs.Causes.{Rose};
ghost use Rattle.link_io.specs.Links.{Ends};
ghost use Rattle.frame_router.specs.Pumped.{Pumps};
ghost use Rattle.frame_router.specs.Routes.{port_of};
ghost use Rattle.frame_router.specs.bridge.Bridges.{Bridges, IsNoBridge, TellsBridge, bridge_routes, nothing_pumped, reason_of};

use crate::bridge::Bridged;
use crate::{Port, Pumped, RouteRefused, Routes, Tally, pump};
use link_io::{Failed, Linker, Sink, Source, Why};
use std::alloc::{AllocError, Global};
use std::thread::{Threads, join_mut};

/// Connects to both paths, the left one first, and pumps frames in both directions until each has ended: those to the
/// address `at_right` go from the left to the right, and those to `at_left` from the right to the left. Then it gives the
/// ends of both links back, those of the left one first. Each direction has a thread of its own. Where the system can make
/// none, the one from the right is pumped to its end first, and then the one from the left. Want of memory ends a direction
/// with `Why::Memory`.
///
/// # Errors
///
/// `Failed` where a link couldn't be made. Where that is the right one, the ends of the left one are given back as they
/// were.
pub fn bridge<R: Threads, N: Linker>(
    rt: &R,
    alloc: Global,
    net: &mut N,
    left: &str,
    right: &str,
    at_right: u32,
    at_left: u32,
) -> Result<Bridged, Failed>
    requires { at_right ≢ at_left }
    ensures bridges { IfOk result (λ done. Bridges (bridge_routes at_right at_left) (N.links net.old) (N.links net.new) done) }
    ensures tells { IfOk result (λ done. (left right : Ends) (rest gone : List Ends) →
        (N.links net.old).coming ≡ Some (left ∷ right ∷ rest) → (N.links net.old).gone ≡ Some gone →
        TellsBridge (bridge_routes at_right at_left) left right rest gone (N.links net.new) done) }
    ensures refused { OnErr result (IsNoBridge (N.links net.old) (N.links net.new)) }

    // A fault is told only where the device that it blames counted one.
    ensures cause { OnErr result (Rose (N.links net.old).faults (N.links net.new).faults) }
    ensures source { IfOk result (λ done. reason_of done ≡ Why.Source → Rose (N.links net.old).in_faults (N.links net.new).in_faults) }
    ensures sink { IfOk result (λ done. reason_of done ≡ Why.Sink → Rose (N.links net.old).out_faults (N.links net.new).out_faults) }
    ensures later { (N.links net.old).faults ≤ (N.links net.new).faults }
    ensures endings { IfOk result (λ done. (reason_of done ≢ Why.Store) × (reason_of done ≢ Why.JournalLimit)) }
{
    let (mut left_in, mut left_out) = net.connect(left)?;
    let (mut right_in, mut right_out) = match net.connect(right) {
        Ok(ends) => ends,
        Err(failed) => {
            net.back(left_in, left_out);
            return Err(failed);
        }
    };
    let plan = Plan {
        alloc,
        at_right,
        at_left,
    };
    let done = pump_both(
        rt,
        &plan,
        &mut left_in,
        &mut left_out,
        &mut right_in,
        &mut right_out,
    );
    net.back(left_in, left_out);
    net.back(right_in, right_out);
    Ok(done)
}

// What each direction begins with: the memory, and where the two addresses lie.
#[derive(Clone, Copy)]
struct Plan {
    alloc: Global,
    at_right: u32,
    at_left: u32,
}

// Both directions, each in a thread of its own where one can be made.
fn pump_both<'a, R: Threads, I: Source + Send, O: Sink + Send>(
    rt: &R,
    plan: &'a Plan,
    left_in: &'a mut I,
    left_out: &'a mut O,
    right_in: &'a mut I,
    right_out: &'a mut O,
) -> Bridged
    requires addresses { plan.now.at_right ≢ plan.now.at_left }
    requires left_open { O.finished left_out.old ≡ false }
    requires right_open { O.finished right_out.old ≡ false }
    ensures from_left { Pumps (bridge_routes plan.now.at_right plan.now.at_left) Port.Left (I.left left_in.old) (I.left left_in.new) (O.written right_out.old) (O.written right_out.new) result.from_left }
    ensures left_source { result.from_left.why ≡ Why.Source → Rose (I.faults left_in.old) (I.faults left_in.new) }
    ensures left_sink { result.from_left.why ≡ Why.Sink → Rose (O.faults right_out.old) (O.faults right_out.new) }
    ensures left_endings { (result.from_left.why ≢ Why.Store) × (result.from_left.why ≢ Why.JournalLimit) }
    ensures from_right { Pumps (bridge_routes plan.now.at_right plan.now.at_left) Port.Right (I.left right_in.old) (I.left right_in.new) (O.written left_out.old) (O.written left_out.new) result.from_right }
    ensures right_source { result.from_right.why ≡ Why.Source → Rose (I.faults right_in.old) (I.faults right_in.new) }
    ensures right_sink { result.from_right.why ≡ Why.Sink → Rose (O.faults left_out.old) (O.faults left_out.new) }
    ensures right_endings { (result.from_right.why ≢ Why.Store) × (result.from_right.why ≢ Why.JournalLimit) }
{
    let (from_left, from_right) = join_mut(
        rt,
        &mut || -> Pumped
            requires { (plan.now.at_right ≢ plan.now.at_left) × (O.finished right_out.now ≡ false) }
            ensures { Pumps (bridge_routes plan.entry.now.at_right plan.entry.now.at_left) Port.Left (I.left left_in.entry.now) (I.left left_in.exit.now) (O.written right_out.entry.now) (O.written right_out.exit.now) result
                × (result.why ≡ Why.Source → Rose (I.faults left_in.entry.now) (I.faults left_in.exit.now))
                × (result.why ≡ Why.Sink → Rose (O.faults right_out.entry.now) (O.faults right_out.exit.now))
                × ((result.why ≢ Why.Store) × (result.why ≢ Why.JournalLimit)) }
        { pump_from(*plan, Port::Left, left_in, right_out) },
        &mut || -> Pumped
            requires { (plan.now.at_right ≢ plan.now.at_left) × (O.finished left_out.now ≡ false) }
            ensures { Pumps (bridge_routes plan.entry.now.at_right plan.entry.now.at_left) Port.Right (I.left right_in.entry.now) (I.left right_in.exit.now) (O.written left_out.entry.now) (O.written left_out.exit.now) result
                × (result.why ≡ Why.Source → Rose (I.faults right_in.entry.now) (I.faults right_in.exit.now))
                × (result.why ≡ Why.Sink → Rose (O.faults left_out.entry.now) (O.faults left_out.exit.now))
                × ((result.why ≢ Why.Store) × (result.why ≢ Why.JournalLimit)) }
        { pump_from(*plan, Port::Right, right_in, left_out) },
    );
    Bridged {
        from_left,
        from_right,
    }
}

// Pumps one direction. Where there was no memory to begin, it has pumped nothing.
fn pump_from<I: Source, O: Sink>(
    plan: Plan,
    from: Port,
    link_in: &mut I,
    link_out: &mut O,
) -> Pumped
    requires addresses { plan.at_right ≢ plan.at_left }
    requires open { O.finished link_out.old ≡ false }
    ensures pumps { Pumps (bridge_routes plan.at_right plan.at_left) from (I.left link_in.old) (I.left link_in.new) (O.written link_out.old) (O.written link_out.new) result }
    ensures source { result.why ≡ Why.Source → Rose (I.faults link_in.old) (I.faults link_in.new) }
    ensures sink { result.why ≡ Why.Sink → Rose (O.faults link_out.old) (O.faults link_out.new) }
    ensures endings { (result.why ≢ Why.Store) × (result.why ≢ Why.JournalLimit) }
{
    let Plan {
        alloc,
        at_right,
        at_left,
    } = plan;
    let Ok(routes) = routes_between(alloc, at_right, at_left) else {
        return nothing_pumped();
    };
    match pump(alloc, &routes, from, link_in, link_out) {
        Ok(pumped) => pumped,
        Err(_) => nothing_pumped(),
    }
}

// What a pump did that had no memory to begin.
fn nothing_pumped() -> Pumped
    ensures { result ≡ nothing_pumped }
{
    Pumped {
        why: Why::Memory,
        tally: Tally::none(),
        read: 0,
    }
}

// The routes of a bridge.
fn routes_between(alloc: Global, at_right: u32, at_left: u32) -> Result<Routes, AllocError>
    requires { at_right ≢ at_left }
    ensures { IfOk result (λ routes. routes ≡ bridge_routes at_right at_left) }
{
    let mut routes = Routes::new(alloc);
    add_route(&mut routes, at_right, Port::Right)?;
    add_route(&mut routes, at_left, Port::Left)?;
    Ok(routes)
}

// Adds a route for an address that has none, where there is room: memory alone can be wanting.
fn add_route(routes: &mut Routes, address: u32, port: Port) -> Result<(), AllocError>
    requires new { IsNone (port_of routes.old address) }
    requires room { length routes.old < 64 }
    ensures { OnOk result (routes.new ≡ routes.old ++ record { address = address; port = port } ∷ []) }
{
    match routes.add(address, port) {
        Ok(()) => Ok(()),
        Err(RouteRefused::Memory) => Err(AllocError),
        Err(RouteRefused::There) => unreachable!(),
        Err(RouteRefused::Full) => unreachable!(),
    }
}
