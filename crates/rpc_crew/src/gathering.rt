//! The writer gathers what came through the ring.

ghost use Rattle.std.specs.Prelude.{◌≡◌, ℕ, ◌+◌, [], IfOk, IfSome, None, Ok, OnErr, OnOk, length};
ghost use Rattle.rtrb.specs.Ring.{SameConsumer, received};
ghost use Rattle.rpc_shared.specs.session.Log.{HasPlaces, Logs};
ghost use Rattle.rpc_crew.specs.Batches.{Gathers, IsAction, IsPacket, no_batch, with_frame};

use crate::batch::Batch;
use crate::serving::PLACES;
use rpc_journal::Item;
use rpc_shared::session::item_log::ItemLog;
use rpc_shared::session::parcel::Parcel;
use rtrb::Consumer;
use std::alloc::{AllocError, Global};

/// What came of the ring behind the frames of a batch.
#[derive(Drop)]
pub(crate) enum Behind {
    /// Nothing was looked for: the batch is full, or as many parcels came as the ring has places.
    Full,
    /// Nothing: the ring is empty.
    Nothing,
    /// An item that is no packet. The log has a place for it.
    Act(Item),
    /// An item for which there was no memory.
    Unfit,
    /// The end of all items.
    Close,
}

/// Takes what is in the ring, as long as it is packets whose frames go into the batch, and tells what came behind them.
pub(crate) fn gather(
    alloc: Global,
    ring: &mut Consumer<Parcel>,
    batch: &mut Batch,
    log: &mut ItemLog,
) -> Behind
    requires empty { batch.old ≡ no_batch }
    ensures gathers { Gathers (received ring.old) (received ring.new) batch.new result log.old log.new }
    ensures ring { SameConsumer ring.old ring.new }
{
    'parcels: for _ in 0..PLACES {
        if batch.is_full() {
            return Behind::Full;
        }
        match ring.pop() {
            Err(_) => return Behind::Nothing,
            Ok(Parcel::End) => return Behind::Close,
            Ok(Parcel::Put(item)) => match add(alloc, item, batch, log) {
                Ok(None) => {}
                Ok(Some(item)) => return Behind::Act(item),
                Err(_) => return Behind::Unfit,
            },
        }
    }
    Behind::Full
}

// Adds the frame of an item that is a packet, and hands another item back. The log has places for all of them then.
fn add(
    alloc: Global,
    item: Item,
    batch: &mut Batch,
    log: &mut ItemLog,
) -> Result<Option<Item>, AllocError>
    ensures added { result ≡ Ok None → IsPacket item × (batch.new ≡ with_frame item batch.old) }
    ensures back { IfOk result (λ o. IfSome o (λ other. (other ≡ item) × IsAction item × (batch.new ≡ batch.old))) }
    ensures err { OnErr result (batch.new ≡ batch.old) }
    ensures log { Logs log.old log.new [] }
    ensures places { OnOk result (HasPlaces log.new (length batch.old.framed + 1)) }
    ensures still { (n : ℕ) → HasPlaces log.old n → HasPlaces log.new n }
{
    log.reserve(batch.len() + 1)?;
    batch.push(alloc, item)
}
