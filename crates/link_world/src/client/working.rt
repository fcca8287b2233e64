//! What the client does with what comes to it, until it is idle.
ghost use Rattle.std.specs.Prelude.{◌≡◌, ℕ, ◌<◌, ◌≤◌, true, false, List, ◌++◌, Option, Some, None, IfSome, IfErr, OnOk};
ghost use Rattle.std.specs.List.{AllByRecursion};
ghost use Rattle.link_io.specs.Stored.{Stored};
ghost use Rattle.rpc_handlers.specs.Limits.{is_long_out};
ghost use Rattle.rpc_ids.specs.declared.method.Role.TheVariants.{Client as client_role};
ghost use Rattle.rpc_journal.specs.Calls.{call_count};
ghost use Rattle.rpc_journal.specs.Items.{items_flushed, items_waiting};
ghost use Rattle.rpc_journal.specs.Refusals.{is_full};
ghost use Rattle.rpc_schedule.specs.Kept.{Holds};
ghost use Rattle.rpc_schedule.specs.Serving.{deeds};
ghost use Rattle.rpc_schedule.specs.Settling.{IsOrderly};
ghost use Rattle.rpc_schedule.specs.ends.EndState.{WasFed};
ghost use Rattle.link_laws.specs.world.Client.{all_said_in, said_in};
ghost use Rattle.link_laws.specs.world.Stops.{ClientStops, saying_stops};
ghost use Rattle.link_laws.specs.world.Setup.{client_setting};
ghost use Rattle.link_laws.specs.world.World.{under_with};
ghost use Rattle.link_world.specs.server.Resting.{IsResting};
ghost use Rattle.link_world.specs.server.GoesOut.{GoesOut};
ghost use Rattle.link_world.specs.client.ClientSide.{ClientStopsHearing};
ghost use Rattle.link_world.specs.client.Speaking.{SayingStops, polled_with, said_with};
ghost use Rattle.link_world.specs.client.Underway.{call_seen, last_poll, task_seen, under_seen};
ghost use Rattle.link_world.specs.client.Working.{ClientFlushes, ClientRuns, ClientRunsFull, ClientSays, IsKept, Settled, ClientTakesMore, stop_of};

use crate::client::desk::Desk;
use crate::client::quiet::Quiet;
use crate::client::under::Under;
use crate::server::{Stopped, Wires, take_out};
use rpc_calls::SayRefused;
use rpc_client::{Client, work_until_idle};
use rpc_handlers::{Event, Out};
use rpc_ids::Role;
use rpc_journal::StartRefused;
use std::alloc::AllocError;

/// Feeds a frame, and does the client's work after each packet that is heard in it.
pub(crate) fn feed_all(
    desk: &mut Desk,
    frame: &[u8],
    under: &mut Option<Under>,
    now: u64,
    wires: &mut Wires,
) -> Result<(), Stopped>
    requires rest { IsResting desk.old.client.serving }
    requires kept { IsKept desk.old.client.serving desk.old.items.items desk.old.events.items }
    requires there { IfSome (call_seen under.old) (λ c. c < call_count (deeds desk.old.client.serving)) }
    requires past { last_poll under.old ≤ now }
    ensures rest { OnOk result (IsResting desk.new.client.serving) }
    ensures kept { OnOk result (IsKept desk.new.client.serving desk.new.items.items desk.new.events.items) }
    ensures takes { OnOk result (ClientTakesMore now desk.old.client.serving under.old desk.new.client.serving under.new) }
    ensures there { OnOk result (IfSome (call_seen under.new) (λ c. c < call_count (deeds desk.new.client.serving))) }
    ensures past { OnOk result (last_poll under.new ≤ now) }
    ensures out { OnOk result (GoesOut client_role desk.old.items.items wires.old desk.new.items.items wires.new) }
    ensures holds { OnOk result ((st : Option Stored) → Holds desk.old.items.items st (Some desk.old.store) → Holds desk.new.items.items st (Some desk.new.store)) }
    ensures fed { OnOk result ((bytes : List ℕ) → WasFed client_role desk.old.client bytes → WasFed client_role desk.new.client (bytes ++ frame.now)) }
    ensures full { IfErr result (λ why. why ≡ Stopped.Journal → (bytes : List ℕ) → WasFed client_role desk.old.client bytes → ClientStopsHearing now desk.old.client.serving under.old bytes frame.now) }
{
    let mut done = 0;
    'frames: while done < frame.len() {
        let count = desk.client.calls().journal().len();
        done += desk.client.feed(&frame[done..])?;
        if count < desk.client.calls().journal().len() {
            settle(desk, under, now, wires)?;
        }
    }
    Ok(())
}

/// Does the client's work once: its calls run, the task that speaks is polled, and all goes out.
pub(crate) fn settle(
    desk: &mut Desk,
    under: &mut Option<Under>,
    now: u64,
    wires: &mut Wires,
) -> Result<(), Stopped>
    requires few { items_waiting (deeds desk.old.client.serving) < 65536 }
    requires kept { IsKept desk.old.client.serving desk.old.items.items desk.old.events.items }
    requires there { IfSome (call_seen under.old) (λ c. c < call_count (deeds desk.old.client.serving)) }
    requires past { last_poll under.old ≤ now }
    ensures settled { OnOk result (Settled now desk.old.client.serving under.old desk.new.client.serving under.new) }
    ensures kept { OnOk result (IsKept desk.new.client.serving desk.new.items.items desk.new.events.items) }
    ensures past { OnOk result (last_poll under.new ≤ now) }
    ensures out { OnOk result (GoesOut client_role desk.old.items.items wires.old desk.new.items.items wires.new) }
    ensures holds { OnOk result ((st : Option Stored) → Holds desk.old.items.items st (Some desk.old.store) → Holds desk.new.items.items st (Some desk.new.store)) }
    ensures full { IfErr result (λ why. why ≡ Stopped.Journal → ClientStops client_setting now desk.old.client.serving.table.entries (task_seen under.old)) }
    ensures fed { (bytes : List ℕ) → WasFed client_role desk.old.client bytes → WasFed client_role desk.new.client bytes }
{
    let from = desk.events.len();
    match run_all(&mut desk.client, &mut desk.events) {
        Ok(()) => {}
        Err(refused) => return Err(Stopped::from(refused)),
    }
    // Its journal is legal and so few items wait that each call with an event is ready: none has one now.
    let _legal = desk.client.calls();
    match speak(
        &mut desk.client,
        &desk.events.as_slice()[from..],
        under,
        now,
    ) {
        Ok(()) => {}
        Err(stopped) => return Err(stopped),
    }
    flush_all(desk, wires)?;
    Ok(())
}

// Runs calls until none is ready. The events that they take come behind the list.
fn run_all(client: &mut Client<Quiet>, events: &mut Vec<(u32, Event)>) -> Result<(), StartRefused>
    requires { IsOrderly client.old.serving }
    ensures ran { OnOk result (ClientRuns client.old.serving events.old.items client.new.serving events.new.items) }
    ensures full { IfErr result (λ why. why ≡ StartRefused.JournalFull → ClientRunsFull client.old.serving client.new.serving) }
    ensures fed { (bytes : List ℕ) → WasFed client_role client.old bytes → WasFed client_role client.new bytes }
{
    work_until_idle(client, events)
}

// Polls the task that speaks with what came to its call among these events, and says what it says.
fn speak(
    client: &mut Client<Quiet>,
    events: &[(u32, Event)],
    under: &mut Option<Under>,
    now: u64,
) -> Result<(), Stopped>
    requires orderly { IsOrderly client.old.serving }
    requires there { IfSome (call_seen under.old) (λ c. c < call_count (deeds client.old.serving)) }
    requires past { last_poll under.old ≤ now }
    ensures says { OnOk result (ClientSays client.old.serving (said_with client.old.serving.table.setting now events.now (task_seen under.old) client.old.serving.table.entries) client.new.serving) }
    ensures under { OnOk result (under_seen under.new ≡ under_with (polled_with now events.now (task_seen under.old)) (under_seen under.old)) }
    ensures past { OnOk result (last_poll under.new ≤ now) }
    ensures full { IfErr result (λ why. why ≡ Stopped.Journal → SayingStops client.old.serving.table.setting now events.now (task_seen under.old) client.old.serving.table.entries) }
    ensures fed { (bytes : List ℕ) → WasFed client_role client.old bytes → WasFed client_role client.new bytes }
{
    match under.take() {
        None => Ok(()),
        Some(Under::Transferring(speaker)) => {
            let call = speaker.call();
            let (speaker, outs) = speaker.poll(events, now)?;
            *under = Some(Under::Transferring(speaker));
            say_all(client, call, outs.as_slice())
        }
        Some(Under::Lacking(resource)) => {
            *under = Some(Under::Lacking(resource));
            Ok(())
        }
        Some(Under::Calling(plain, call)) => {
            *under = Some(Under::Calling(plain, call));
            Ok(())
        }
        Some(Under::Closing(channel, ended)) => {
            *under = Some(Under::Closing(channel, ended));
            Ok(())
        }
    }
}

// Says these in a call, each unless the call doesn't take it.
fn say_all(client: &mut Client<Quiet>, call: u32, outs: &[Out]) -> Result<(), Stopped>
    requires orderly { IsOrderly client.old.serving }
    requires there { call < call_count (deeds client.old.serving) }
    requires short { AllByRecursion (λ out. is_long_out out ≡ false) outs.now }
    ensures says { OnOk result (ClientSays client.old.serving (all_said_in client.old.serving.table.setting call outs.now client.old.serving.table.entries) client.new.serving) }
    ensures full { IfErr result (λ why. why ≡ Stopped.Journal → saying_stops client.old.serving.table.setting call outs.now client.old.serving.table.entries ≡ true) }
    ensures fed { (bytes : List ℕ) → WasFed client_role client.old bytes → WasFed client_role client.new bytes }
{
    'outs: for out in outs {
        match say(client, call, out.clone()?) {
            Ok(()) => {}
            Err(stopped) => return Err(stopped),
        }
    }
    Ok(())
}

// Says this in a call, unless the call doesn't take it.
fn say(client: &mut Client<Quiet>, call: u32, out: Out) -> Result<(), Stopped>
    requires orderly { IsOrderly client.old.serving }
    requires there { call < call_count (deeds client.old.serving) }
    requires short { is_long_out out ≡ false }
    ensures says { OnOk result (ClientSays client.old.serving (said_in client.old.serving.table.setting call client.old.serving.table.entries out) client.new.serving) }
    ensures full { IfErr result (λ why. why ≡ Stopped.Journal → is_full client.old.serving.table.entries ≡ true) }
    ensures fed { (bytes : List ℕ) → WasFed client_role client.old bytes → WasFed client_role client.new bytes }
{
    match client.say(call, out) {
        Ok(()) => Ok(()),
        Err(refused) => match stop_of(refused) {
            None => Ok(()),
            Some(stopped) => Err(stopped),
        },
    }
}

// Why the client stops where a call doesn't take something, if it does.
fn stop_of(refused: SayRefused) -> Option<Stopped>
    ensures { result ≡ stop_of refused }
{
    match refused {
        SayRefused::JournalFull => Some(Stopped::Journal),
        SayRefused::Memory => Some(Stopped::Memory),
        SayRefused::Closed(_) | SayRefused::NoStream | SayRefused::Completed => None,
    }
}

// Flushes each item that waits.
fn flush_all(desk: &mut Desk, wires: &mut Wires) -> Result<(), AllocError>
    requires orderly { IsOrderly desk.old.client.serving }
    requires items { desk.old.items.items ≡ items_flushed (deeds desk.old.client.serving) }
    ensures flushes { OnOk result (ClientFlushes desk.old.client.serving desk.new.client.serving) }
    ensures same { desk.new.events.items ≡ desk.old.events.items }
    ensures items { OnOk result (desk.new.items.items ≡ items_flushed (deeds desk.new.client.serving)) }
    ensures out { OnOk result (GoesOut client_role desk.old.items.items wires.old desk.new.items.items wires.new) }
    ensures holds { OnOk result ((st : Option Stored) → Holds desk.old.items.items st (Some desk.old.store) → Holds desk.new.items.items st (Some desk.new.store)) }
    ensures fed { (bytes : List ℕ) → WasFed client_role desk.old.client bytes → WasFed client_role desk.new.client bytes }
{
    'items: while let Some(item) = desk.client.next_out() {
        take_out(Role::Client, item, &mut desk.store, &mut desk.items, wires)?;
    }
    Ok(())
}
