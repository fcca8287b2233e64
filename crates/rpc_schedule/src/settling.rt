//! What is done between two packets: calls run and items go out, until nothing is left to do.
ghost use Rattle.std.specs.Prelude.{◌≡◌, ℕ, ◌≤◌, Err, List, OnErr, OnOk, Option};
ghost use mathlib.Core.List.{IsPrefix};
ghost use Rattle.link_io.specs.Causes.{Rose};
ghost use Rattle.link_io.specs.Stored.{Stored};
ghost use Rattle.rpc_journal.specs.declared.answers.StartRefused.TheVariants.{JournalFull};
ghost use Rattle.link_io.specs.declared.store.StoreRefused.TheVariants.{Failed};
ghost use Rattle.rpc_journal.specs.Items.{items_flushed, items_sent};
ghost use Rattle.rpc_schedule.specs.declared.stop.Stop.TheVariants as stop;
ghost use Rattle.rpc_schedule.specs.Kept.{Holds};
ghost use Rattle.rpc_schedule.specs.Schedule.Stage.{running, flushing};
ghost use Rattle.rpc_schedule.specs.Serving.{deeds};
ghost use Rattle.rpc_schedule.specs.Settling.{FlushesAll, Grows, IsOrderly, RunsAll, RunsAndFlushes, SettlesAll, StopsAtStore, StopsFull};

use crate::outlet::take;
use crate::{Serves, Stop};
use link_io::{Store, StoreRefused};
use rpc_journal::{Item, StartRefused};

/// Runs the calls that are ready and flushes the items that wait, until nothing is left to do.
pub(crate) fn settle<T: Serves, S: Store>(
    server: &mut T,
    store: &mut S,
    items: &mut Vec<Item>,
) -> Result<(), Stop>
    requires orderly { IsOrderly (T.seen server.old) }
    requires items { items.old.items ≡ items_flushed (deeds (T.seen server.old)) }
    ensures ok { OnOk result (SettlesAll T.rule (T.seen server.old) (T.seen server.new)) }
    ensures items { OnOk result (items.new.items ≡ items_flushed (deeds (T.seen server.new))) }
    ensures sent { OnErr result (IsPrefix items.new.items (items_sent (deeds (T.seen server.new)))) }
    ensures full { result ≡ Err stop.Journal → StopsFull T.rule (T.seen server.old) (T.seen server.new) }
    ensures full_items { result ≡ Err stop.Journal → items.new.items ≡ items_flushed (deeds (T.seen server.new)) }
    ensures fails { result ≡ Err stop.Store → StopsAtStore T.rule (T.seen server.old) (running (T.seen server.old).table.entries) (T.seen server.new) items.new.items }
    ensures setting { (T.seen server.new).table.setting ≡ (T.seen server.old).table.setting }
    ensures fed { (s : List ℕ) → T.stands server.old s → T.stands server.new s }
    ensures later { S.faults store.old ≤ S.faults store.new }
    ensures rose { result ≡ Err stop.Store → Rose (S.faults store.old) (S.faults store.new) }
    ensures holds { (st : Option Stored) → Holds items.old.items st (S.holds store.old) → Holds items.new.items st (S.holds store.new) }
{
    run_and_flush(server, store, items)?;
    'rounds: while !server.idle() {
        run_and_flush(server, store, items)?;
    }
    Ok(())
}

// Runs calls until none is ready, and then flushes each item that waits.
fn run_and_flush<T: Serves, S: Store>(
    server: &mut T,
    store: &mut S,
    items: &mut Vec<Item>,
) -> Result<(), Stop>
    requires orderly { IsOrderly (T.seen server.old) }
    requires items { items.old.items ≡ items_flushed (deeds (T.seen server.old)) }
    ensures ok { OnOk result (RunsAndFlushes T.rule (T.seen server.old) (T.seen server.new)) }
    ensures grows { OnOk result (Grows (T.seen server.old) (T.seen server.new)) }
    ensures items { OnOk result (items.new.items ≡ items_flushed (deeds (T.seen server.new))) }
    ensures sent { OnErr result (IsPrefix items.new.items (items_sent (deeds (T.seen server.new)))) }
    ensures full { result ≡ Err stop.Journal → StopsFull T.rule (T.seen server.old) (T.seen server.new) }
    ensures full_items { result ≡ Err stop.Journal → items.new.items ≡ items_flushed (deeds (T.seen server.new)) }
    ensures fails { result ≡ Err stop.Store → StopsAtStore T.rule (T.seen server.old) (running (T.seen server.old).table.entries) (T.seen server.new) items.new.items }
    ensures setting { (T.seen server.new).table.setting ≡ (T.seen server.old).table.setting }
    ensures fed { (s : List ℕ) → T.stands server.old s → T.stands server.new s }
    ensures later { S.faults store.old ≤ S.faults store.new }
    ensures rose { result ≡ Err stop.Store → Rose (S.faults store.old) (S.faults store.new) }
    ensures holds { (st : Option Stored) → Holds items.old.items st (S.holds store.old) → Holds items.new.items st (S.holds store.new) }
{
    run_all(server)?;
    flush_all(server, store, items)?;
    Ok(())
}

// Runs calls until none is ready.
fn run_all<T: Serves>(server: &mut T) -> Result<(), StartRefused>
    requires { IsOrderly (T.seen server.old) }
    ensures ok { OnOk result (RunsAll T.rule (T.seen server.old) (T.seen server.new)) }
    ensures full { result ≡ Err JournalFull → StopsFull T.rule (T.seen server.old) (T.seen server.new) }
    ensures sent { OnErr result (IsPrefix (items_sent (deeds (T.seen server.old))) (items_sent (deeds (T.seen server.new)))) }
    ensures same_items { result ≡ Err JournalFull → items_flushed (deeds (T.seen server.new)) ≡ items_flushed (deeds (T.seen server.old)) }
    ensures setting { (T.seen server.new).table.setting ≡ (T.seen server.old).table.setting }
    ensures fed { (s : List ℕ) → T.stands server.old s → T.stands server.new s }
{
    'runs: loop {
        match server.work() {
            Ok(true) => {}
            Ok(false) => return Ok(()),
            Err(refused) => return Err(refused),
        }
    }
}

// Flushes each item that waits. A store action is made before the next item is flushed.
fn flush_all<T: Serves, S: Store>(
    server: &mut T,
    store: &mut S,
    items: &mut Vec<Item>,
) -> Result<(), StoreRefused>
    requires orderly { IsOrderly (T.seen server.old) }
    requires items { items.old.items ≡ items_flushed (deeds (T.seen server.old)) }
    ensures ok { OnOk result (FlushesAll T.rule (T.seen server.old) (T.seen server.new)) }
    ensures items { OnOk result (items.new.items ≡ items_flushed (deeds (T.seen server.new))) }
    ensures sent { OnErr result (IsPrefix items.new.items (items_sent (deeds (T.seen server.new)))) }
    ensures fails { result ≡ Err Failed → StopsAtStore T.rule (T.seen server.old) (flushing (T.seen server.old).table.entries) (T.seen server.new) items.new.items }
    ensures setting { (T.seen server.new).table.setting ≡ (T.seen server.old).table.setting }
    ensures fed { (s : List ℕ) → T.stands server.old s → T.stands server.new s }
    ensures later { S.faults store.old ≤ S.faults store.new }
    ensures rose { result ≡ Err Failed → Rose (S.faults store.old) (S.faults store.new) }
    ensures holds { (st : Option Stored) → Holds items.old.items st (S.holds store.old) → Holds items.new.items st (S.holds store.new) }
{
    'items: while let Some(item) = server.next_out() {
        take(store, items, item)?;
    }
    Ok(())
}
