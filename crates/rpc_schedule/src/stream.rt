//! A stream from its source to a server, and what comes of it.
ghost use Rattle.std.specs.Prelude.{◌≡◌, ℕ, ◌≤◌, true, [], ◌++◌, Err, IfOk, List, OnErr, OnOk, Ok, Option};
ghost use mathlib.Core.List.{IsPrefix};
ghost use Rattle.link_io.specs.Causes.{Rose};
ghost use Rattle.link_io.specs.Reading.{ConsumesUpTo};
ghost use Rattle.link_io.specs.declared.reading.Ending.TheVariants.{Failed};
ghost use Rattle.link_io.specs.Stored.{Stored};
ghost use Rattle.rpc_journal.specs.Items.{input_ended, items_flushed, items_sent};
ghost use Rattle.rpc_schedule.specs.declared.ending.Ending.TheVariants.{SourceFault, StoreFault};
ghost use Rattle.rpc_schedule.specs.declared.stop.Stop.TheVariants as stop;
ghost use Rattle.rpc_schedule.specs.Fresh.{IsFresh};
ghost use Rattle.rpc_schedule.specs.Kept.{Holds};
ghost use Rattle.rpc_schedule.specs.Replays.{BreaksOff, FailsStore, FillsJournal, Reads, Replayed};
ghost use Rattle.rpc_schedule.specs.Serving.{deeds};
ghost use Rattle.rpc_schedule.specs.Settling.{BreaksWithin, FailsWithin, FillsWithin, IsCalm, IsDone, IsFullFor, IsStoreStopFor};

use crate::settling::settle;
use crate::{Ending, Serves, Stop};
use link_io::{Ending as Reading, Source, Store};
use rpc_journal::Item;
use std::alloc::AllocError;

/// So many bytes of a stream are read at most.
pub const INPUT_LIMIT: usize = 67_108_864;

// How many bytes are asked for in one read.
const PIECE: usize = 65_536;

/// Feeds the stream of a source to a server that was fed nothing yet, and works it until nothing is left to do. The items
/// that go out are kept in order, and the store action that one may be is made before the next one goes out. After a
/// fault of the source, and at the limit, the input ends there.
///
/// # Errors
///
/// For want of memory. The items that went out, and what they made of the store, are then a beginning of what the table has sent.
pub fn replay<T: Serves, I: Source, S: Store>(
    server: &mut T,
    input: &mut I,
    store: &mut S,
    items: &mut Vec<Item>,
) -> Result<Ending, AllocError>
    requires fresh { IsFresh (T.seen server.old) }
    requires unfed { T.stands server.old [] }
    requires items { items.old.items ≡ [] }
    ensures replayed { IfOk result (λ ending. Replayed T.rule T.heard (T.stands server.new) (I.left input.old) (I.left input.new) ending
        (T.seen server.new).table items.new.items) }
    ensures broken { OnErr result (BreaksOff T.heard (T.stands server.new) (I.left input.old) (I.left input.new)
        (T.seen server.new).table items.new.items) }
    ensures setting { (T.seen server.new).table.setting ≡ (T.seen server.old).table.setting }
    ensures read { ConsumesUpTo INPUT_LIMIT (I.left input.old) (I.left input.new) }
    ensures fault { result ≡ Ok SourceFault → Rose (I.faults input.old) (I.faults input.new) }
    ensures later { I.faults input.old ≤ I.faults input.new }
    ensures holds { Holds items.new.items (S.holds store.old) (S.holds store.new) }
    ensures store_fault { result ≡ Ok StoreFault → Rose (S.faults store.old) (S.faults store.new) }
    ensures store_later { S.faults store.old ≤ S.faults store.new }
{
    match replay_all(server, input, store, items) {
        Ok(Reading::AtEnd) => Ok(Ending::AtEnd),
        Ok(Reading::Failed) => Ok(Ending::SourceFault),
        Ok(Reading::AtLimit) => Ok(Ending::InputLimit),
        Err(Stop::Journal) => Ok(Ending::JournalLimit),
        Err(Stop::Store) => Ok(Ending::StoreFault),
        Err(Stop::Memory) => Err(AllocError),
    }
}

// Feeds the stream, and then ends the input.
fn replay_all<T: Serves, I: Source, S: Store>(
    server: &mut T,
    input: &mut I,
    store: &mut S,
    items: &mut Vec<Item>,
) -> Result<Reading, Stop>
    requires calm { IsCalm T.rule (T.seen server.old) }
    requires unfed { T.stands server.old [] }
    requires items { items.old.items ≡ items_flushed (deeds (T.seen server.old)) }
    ensures reads { IfOk result (λ ending. Reads (T.stands server.new) (I.left input.old) (I.left input.new) ending) }
    ensures done { OnOk result (IsDone T.rule (T.seen server.new)) }
    ensures items { OnOk result (items.new.items ≡ items_sent (deeds (T.seen server.new))) }
    ensures full { result ≡ Err stop.Journal → FillsJournal T.rule T.heard (T.stands server.new) (I.left input.old) (I.left input.new)
        (T.seen server.new).table items.new.items }
    ensures fails { result ≡ Err stop.Store → FailsStore T.rule T.heard (T.stands server.new) (I.left input.old) (I.left input.new)
        (T.seen server.new).table items.new.items }
    ensures broken { OnErr result (BreaksOff T.heard (T.stands server.new) (I.left input.old) (I.left input.new)
        (T.seen server.new).table items.new.items) }
    ensures setting { (T.seen server.new).table.setting ≡ (T.seen server.old).table.setting }
    ensures read { ConsumesUpTo INPUT_LIMIT (I.left input.old) (I.left input.new) }
    ensures fault { result ≡ Ok Failed → Rose (I.faults input.old) (I.faults input.new) }
    ensures later { I.faults input.old ≤ I.faults input.new }
    ensures store_later { S.faults store.old ≤ S.faults store.new }
    ensures store_rose { result ≡ Err stop.Store → Rose (S.faults store.old) (S.faults store.new) }
    ensures holds { (st : Option Stored) → Holds items.old.items st (S.holds store.old) → Holds items.new.items st (S.holds store.new) }
{
    let ending = feed_stream(server, input, store, items)?;
    close(server, store, items)?;
    Ok(ending)
}

// Feeds the stream piece by piece.
fn feed_stream<T: Serves, I: Source, S: Store>(
    server: &mut T,
    input: &mut I,
    store: &mut S,
    items: &mut Vec<Item>,
) -> Result<Reading, Stop>
    requires calm { IsCalm T.rule (T.seen server.old) }
    requires unfed { T.stands server.old [] }
    requires items { items.old.items ≡ items_flushed (deeds (T.seen server.old)) }
    ensures reads { IfOk result (λ ending. Reads (T.stands server.new) (I.left input.old) (I.left input.new) ending) }
    ensures calm { OnOk result (IsCalm T.rule (T.seen server.new)) }
    ensures items { OnOk result (items.new.items ≡ items_flushed (deeds (T.seen server.new))) }
    ensures full { result ≡ Err stop.Journal → FillsJournal T.rule T.heard (T.stands server.new) (I.left input.old) (I.left input.new)
        (T.seen server.new).table items.new.items }
    ensures fails { result ≡ Err stop.Store → FailsStore T.rule T.heard (T.stands server.new) (I.left input.old) (I.left input.new)
        (T.seen server.new).table items.new.items }
    ensures broken { OnErr result (BreaksOff T.heard (T.stands server.new) (I.left input.old) (I.left input.new)
        (T.seen server.new).table items.new.items) }
    ensures setting { (T.seen server.new).table.setting ≡ (T.seen server.old).table.setting }
    ensures read { ConsumesUpTo INPUT_LIMIT (I.left input.old) (I.left input.new) }
    ensures fault { result ≡ Ok Failed → Rose (I.faults input.old) (I.faults input.new) }
    ensures later { I.faults input.old ≤ I.faults input.new }
    ensures store_later { S.faults store.old ≤ S.faults store.new }
    ensures store_rose { result ≡ Err stop.Store → Rose (S.faults store.old) (S.faults store.new) }
    ensures holds { (st : Option Stored) → Holds items.old.items st (S.holds store.old) → Holds items.new.items st (S.holds store.new) }
{
    let mut buffer = [0; PIECE];
    let mut total = 0;
    'pieces: while total < INPUT_LIMIT {
        let room = PIECE.min(INPUT_LIMIT - total);
        match input.read(&mut buffer[..room]) {
            Ok(0) => return Ok(Reading::AtEnd),
            Ok(count) => {
                feed_all(server, &buffer[..count], store, items)?;
                total += count;
            }
            Err(_) => return Ok(Reading::Failed),
        }
    }
    Ok(Reading::AtLimit)
}

// Feeds a piece packet by packet, and settles after each.
fn feed_all<T: Serves, S: Store>(
    server: &mut T,
    piece: &[u8],
    store: &mut S,
    items: &mut Vec<Item>,
) -> Result<(), Stop>
    requires calm { IsCalm T.rule (T.seen server.old) }
    requires items { items.old.items ≡ items_flushed (deeds (T.seen server.old)) }
    ensures calm { OnOk result (IsCalm T.rule (T.seen server.new)) }
    ensures items { OnOk result (items.new.items ≡ items_flushed (deeds (T.seen server.new))) }
    ensures fed { OnOk result ((s : List ℕ) → T.stands server.old s → T.stands server.new (s ++ piece.now)) }
    ensures full { result ≡ Err stop.Journal →
        FillsWithin T.rule T.heard (T.stands server.old) (T.stands server.new) piece.now (T.seen server.new) items.new.items }
    ensures fails { result ≡ Err stop.Store →
        FailsWithin T.rule T.heard (T.stands server.old) (T.stands server.new) piece.now (T.seen server.new) items.new.items }
    ensures broken { OnErr result (BreaksWithin (T.stands server.old) (T.stands server.new) piece.now (T.seen server.new) items.new.items) }
    ensures setting { (T.seen server.new).table.setting ≡ (T.seen server.old).table.setting }
    ensures store_later { S.faults store.old ≤ S.faults store.new }
    ensures store_rose { result ≡ Err stop.Store → Rose (S.faults store.old) (S.faults store.new) }
    ensures holds { (st : Option Stored) → Holds items.old.items st (S.holds store.old) → Holds items.new.items st (S.holds store.new) }
{
    let mut done = 0;
    'frames: while done < piece.len() {
        done += server.feed(&piece[done..])?;
        settle(server, store, items)?;
    }
    Ok(())
}

// Ends the input, and settles what is left.
fn close<T: Serves, S: Store>(
    server: &mut T,
    store: &mut S,
    items: &mut Vec<Item>,
) -> Result<(), Stop>
    requires calm { IsCalm T.rule (T.seen server.old) }
    requires items { items.old.items ≡ items_flushed (deeds (T.seen server.old)) }
    ensures done { OnOk result (IsDone T.rule (T.seen server.new)) }
    ensures items { OnOk result (items.new.items ≡ items_sent (deeds (T.seen server.new))) }
    ensures full { result ≡ Err stop.Journal → IsFullFor T.rule (T.seen server.new) }
    ensures full_items { result ≡ Err stop.Journal → items.new.items ≡ items_flushed (deeds (T.seen server.new)) }
    ensures full_ended { result ≡ Err stop.Journal → input_ended (deeds (T.seen server.new)) ≡ true }
    ensures fails { result ≡ Err stop.Store → IsStoreStopFor T.rule (T.seen server.new) items.new.items }
    ensures sent { OnErr result (IsPrefix items.new.items (items_sent (deeds (T.seen server.new)))) }
    ensures fails_ended { result ≡ Err stop.Store → input_ended (deeds (T.seen server.new)) ≡ true }
    ensures setting { (T.seen server.new).table.setting ≡ (T.seen server.old).table.setting }
    ensures fed { (s : List ℕ) → T.stands server.old s → T.stands server.new s }
    ensures store_later { S.faults store.old ≤ S.faults store.new }
    ensures store_rose { result ≡ Err stop.Store → Rose (S.faults store.old) (S.faults store.new) }
    ensures holds { (st : Option Stored) → Holds items.old.items st (S.holds store.old) → Holds items.new.items st (S.holds store.new) }
{
    server.end_in();
    settle(server, store, items)
}
