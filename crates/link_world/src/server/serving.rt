//! What a server does with what comes to it, until nothing is left to do.
ghost use Rattle.std.specs.Prelude.{◌≡◌, ℕ, ◌∷◌, [], ◌++◌, List, IfErr, OnOk, Option, Some};
ghost use Rattle.link_io.specs.Stored.{Stored};
ghost use Rattle.rpc_ids.specs.declared.method.Role.TheVariants.{Server as server_role};
ghost use Rattle.rpc_journal.specs.Items.{items_flushed, packet_of};
ghost use Rattle.rpc_schedule.specs.Kept.{Holds};
ghost use Rattle.rpc_schedule.specs.Serving.{deeds};
ghost use Rattle.rpc_schedule.specs.Settling.{FlushesAll, Grows, IsOrderly, RunsAll, RunsAndFlushes, SettlesAll, StopsFull};
ghost use Rattle.link_world.specs.server.Resting.{IsResting, StopsWithin, ServerTakesMore};
ghost use Rattle.link_world.specs.server.GoesOut.{GoesOut};
ghost use Rattle.link_laws.specs.world.Wiring.{with_all_sent};

use crate::server::stopped::Stopped;
use crate::server::wires::Wires;
use crate::server::world_store::WorldStore;
use link_io::StoreRefused;
use rpc_ids::Role;
use rpc_journal::{Item, StartRefused};
use rpc_schedule::{Serves, make_action};
use std::alloc::AllocError;

/// Feeds a frame, and settles after each packet that is heard in it.
pub(crate) fn feed_all<T: Serves>(
    server: &mut T,
    frame: &[u8],
    store: &mut WorldStore,
    items: &mut Vec<Item>,
    wires: &mut Wires,
) -> Result<(), Stopped>
    requires rest { IsResting (T.seen server.old) }
    requires items { items.old.items ≡ items_flushed (deeds (T.seen server.old)) }
    ensures rest { OnOk result (IsResting (T.seen server.new)) }
    ensures takes { OnOk result (ServerTakesMore T.rule (T.seen server.old) (T.seen server.new)) }
    ensures items { OnOk result (items.new.items ≡ items_flushed (deeds (T.seen server.new))) }
    ensures out { OnOk result (GoesOut server_role items.old.items wires.old items.new.items wires.new) }
    ensures holds { OnOk result ((st : Option Stored) → Holds items.old.items st (Some store.old) → Holds items.new.items st (Some store.new)) }
    ensures fed { OnOk result ((s : List ℕ) → T.stands server.old s → T.stands server.new (s ++ frame.now)) }
    ensures full { IfErr result (λ why. why ≡ Stopped.Journal → (s : List ℕ) → T.stands server.old s → StopsWithin T.rule T.heard (T.seen server.old) s frame.now) }
{
    let mut done = 0;
    'frames: while done < frame.len() {
        let count = server.feed(&frame[done..])?;
        done += count;
        settle(server, store, items, wires)?;
    }
    Ok(())
}

/// Runs the calls that are ready and flushes the items that wait, until nothing is left to do.
pub(crate) fn settle<T: Serves>(
    server: &mut T,
    store: &mut WorldStore,
    items: &mut Vec<Item>,
    wires: &mut Wires,
) -> Result<(), Stopped>
    requires orderly { IsOrderly (T.seen server.old) }
    requires items { items.old.items ≡ items_flushed (deeds (T.seen server.old)) }
    ensures ok { OnOk result (SettlesAll T.rule (T.seen server.old) (T.seen server.new)) }
    ensures items { OnOk result (items.new.items ≡ items_flushed (deeds (T.seen server.new))) }
    ensures out { OnOk result (GoesOut server_role items.old.items wires.old items.new.items wires.new) }
    ensures holds { OnOk result ((st : Option Stored) → Holds items.old.items st (Some store.old) → Holds items.new.items st (Some store.new)) }
    ensures full { IfErr result (λ why. why ≡ Stopped.Journal → StopsFull T.rule (T.seen server.old) (T.seen server.new)) }
    ensures fed { OnOk result ((s : List ℕ) → T.stands server.old s → T.stands server.new s) }
{
    match run_and_flush(server, store, items, wires) {
        Ok(()) => {}
        Err(stopped) => return Err(stopped),
    }
    'rounds: while !server.idle() {
        match run_and_flush(server, store, items, wires) {
            Ok(()) => {}
            Err(stopped) => return Err(stopped),
        }
    }
    Ok(())
}

// Runs calls until none is ready, and then flushes each item that waits.
fn run_and_flush<T: Serves>(
    server: &mut T,
    store: &mut WorldStore,
    items: &mut Vec<Item>,
    wires: &mut Wires,
) -> Result<(), Stopped>
    requires orderly { IsOrderly (T.seen server.old) }
    requires items { items.old.items ≡ items_flushed (deeds (T.seen server.old)) }
    ensures ok { OnOk result (RunsAndFlushes T.rule (T.seen server.old) (T.seen server.new)) }
    ensures grows { OnOk result (Grows (T.seen server.old) (T.seen server.new)) }
    ensures items { OnOk result (items.new.items ≡ items_flushed (deeds (T.seen server.new))) }
    ensures out { OnOk result (GoesOut server_role items.old.items wires.old items.new.items wires.new) }
    ensures holds { OnOk result ((st : Option Stored) → Holds items.old.items st (Some store.old) → Holds items.new.items st (Some store.new)) }
    ensures full { IfErr result (λ why. why ≡ Stopped.Journal → StopsFull T.rule (T.seen server.old) (T.seen server.new)) }
    ensures fed { OnOk result ((s : List ℕ) → T.stands server.old s → T.stands server.new s) }
{
    match run_all(server) {
        Ok(()) => {}
        Err(refused) => return Err(Stopped::from(refused)),
    }
    flush_all(server, store, items, wires)?;
    Ok(())
}

// Runs calls until none is ready.
fn run_all<T: Serves>(server: &mut T) -> Result<(), StartRefused>
    requires { IsOrderly (T.seen server.old) }
    ensures ok { OnOk result (RunsAll T.rule (T.seen server.old) (T.seen server.new)) }
    ensures full { IfErr result (λ why. why ≡ StartRefused.JournalFull → StopsFull T.rule (T.seen server.old) (T.seen server.new)) }
    ensures fed { (s : List ℕ) → T.stands server.old s → T.stands server.new s }
{
    'runs: loop {
        match server.work() {
            Ok(true) => {}
            Ok(false) => return Ok(()),
            Err(refused) => return Err(refused),
        }
    }
}

// Flushes each item that waits.
fn flush_all<T: Serves>(
    server: &mut T,
    store: &mut WorldStore,
    items: &mut Vec<Item>,
    wires: &mut Wires,
) -> Result<(), AllocError>
    requires orderly { IsOrderly (T.seen server.old) }
    requires items { items.old.items ≡ items_flushed (deeds (T.seen server.old)) }
    ensures ok { OnOk result (FlushesAll T.rule (T.seen server.old) (T.seen server.new)) }
    ensures items { OnOk result (items.new.items ≡ items_flushed (deeds (T.seen server.new))) }
    ensures out { OnOk result (GoesOut server_role items.old.items wires.old items.new.items wires.new) }
    ensures holds { OnOk result ((st : Option Stored) → Holds items.old.items st (Some store.old) → Holds items.new.items st (Some store.new)) }
    ensures fed { OnOk result ((s : List ℕ) → T.stands server.old s → T.stands server.new s) }
{
    'items: while let Some(item) = server.next_out() {
        take_out(Role::Server, item, store, items, wires)?;
    }
    Ok(())
}

/// An item goes out of the end of this role: a store action is made, and a packet is sent.
pub fn take_out(
    sender: Role,
    item: Item,
    store: &mut WorldStore,
    items: &mut Vec<Item>,
    wires: &mut Wires,
) -> Result<(), AllocError>
    ensures items { OnOk result (items.new.items ≡ items.old.items ++ item ∷ []) }
    ensures wires { OnOk result (wires.new ≡ with_all_sent sender (packet_of item.act) wires.old) }
    ensures holds { OnOk result ((st : Option Stored) → Holds items.old.items st (Some store.old) → Holds items.new.items st (Some store.new)) }
{
    match make_action(store, item.call, &item.act) {
        Ok(()) => {}
        Err(StoreRefused::Memory) => return Err(AllocError),
        Err(StoreRefused::Failed) => unreachable!(),
    }
    wires.take_out(sender, &item)?;
    items.push(item)?;
    Ok(())
}
