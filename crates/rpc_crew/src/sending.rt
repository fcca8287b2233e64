//! The frames of a batch are written, and their items count as made where they are whole.

ghost use Rattle.std.specs.Prelude.{◌≡◌, ℕ, ◌+◌, ◌<◌, ◌≤◌, false, IfErr, OnErr, OnOk, Option, length, take};
ghost use Rattle.std.specs.Io.Iter.{u64_saturate};
ghost use Rattle.std.specs.Io.KnownBytes.{Appends};
ghost use Rattle.link_io.specs.Causes.{Rose};
ghost use Rattle.link_io.specs.Stored.{Stored};
ghost use Rattle.rpc_shared.specs.session.Log.{HasPlaces, Logs};
ghost use Rattle.rpc_shared.specs.session.Ring.{MakesSome};
ghost use Rattle.rpc_crew.specs.Batches.{EndsPast, IsBatch, TakesWhole, items_in, no_batch};

use crate::batch::Batch;
use link_io::{Failed, Sink};
use rpc_shared::session::item_log::ItemLog;

/// Writes a batch by as few writes as the link takes, and lets its frames go. The items whose frames were written whole are logged
/// and counted.
pub(crate) fn write_batch<O: Sink>(
    batch: &mut Batch,
    output: &mut O,
    log: &mut ItemLog,
    done: &mut u64,
) -> Result<(), Failed>
    requires open { O.finished output.old ≡ false }
    requires batch { IsBatch batch.old }
    requires places { HasPlaces log.old (length batch.old.framed) }
    ensures empty { batch.new ≡ no_batch }
    ensures written { OnOk result (Appends (O.written output.old) (O.written output.new) batch.old.bytes) }
    ensures logged { OnOk result (Logs log.old log.new (items_in batch.old.framed)) }
    ensures counted { OnOk result (done.new ≡ u64_saturate (done.old + length batch.old.framed)) }
    ensures places { OnOk result ((n : ℕ) → HasPlaces log.old (length batch.old.framed + n) → HasPlaces log.new n) }
    ensures part { OnErr result ((d : Option Stored) → MakesSome (O.written output.old) (O.written output.new) d d log.old log.new (items_in batch.old.framed) done.old done.new) }
    ensures cause { OnErr result (Rose (O.faults output.old) (O.faults output.new)) }
    ensures later { O.faults output.old ≤ O.faults output.new }
    ensures open { O.finished output.new ≡ false }
{
    match write_bytes(output, batch.bytes()) {
        Ok(()) => {
            let all = batch.bytes().len();
            take_whole(batch, all, log, done);
            batch.clear();
            Ok(())
        }
        Err(written) => {
            take_whole(batch, written, log, done);
            batch.clear();
            Err(Failed)
        }
    }
}

// Writes all of these bytes, or tells how many were written before a write that failed.
fn write_bytes<O: Sink>(output: &mut O, bytes: &[u8]) -> Result<(), usize>
    requires open { O.finished output.old ≡ false }
    ensures whole { OnOk result (Appends (O.written output.old) (O.written output.new) bytes.now) }
    ensures part { IfErr result (λ n. (n < length bytes.now) × Appends (O.written output.old) (O.written output.new) (take n bytes.now)) }
    ensures cause { OnErr result (Rose (O.faults output.old) (O.faults output.new)) }
    ensures later { O.faults output.old ≤ O.faults output.new }
    ensures open { O.finished output.new ≡ false }
{
    let mut done = 0;
    'writes: while done < bytes.len() {
        match output.write(&bytes[done..]) {
            Ok(count) => done += count,
            Err(_) => return Err(done),
        }
    }
    Ok(())
}

// Logs and counts the items whose frames end within so many bytes, and takes them out.
fn take_whole(batch: &mut Batch, written: usize, log: &mut ItemLog, done: &mut u64)
    requires places { HasPlaces log.old (length batch.old.framed) }
    ensures takes { TakesWhole written batch.old.framed batch.new.framed log.old log.new done.old done.new }
    ensures past { EndsPast written batch.new.framed }
    ensures places { (n : ℕ) → HasPlaces log.old (length batch.old.framed + n) → HasPlaces log.new (length batch.new.framed + n) }
{
    let mut count: u64 = 0;
    'items: while let Some(item) = batch.take_whole(written) {
        log.add(item);
        count = count.saturating_add(1);
    }
    *done = done.saturating_add(count);
}
