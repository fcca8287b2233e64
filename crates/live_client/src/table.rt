//! The table of a live client: one channel, one method, and two passes.
ghost use Rattle.std.specs.Prelude.{◌≡◌, ◌≤◌, [], ◌∷◌, IfOk, vec_len, vec_capacity};
ghost use Rattle.turn_cell.specs.Passes.{AreAll, IsNew};
ghost use Rattle.live_client.specs.Ask.{setting_with};

use crate::halting::{Seat, Table};
use crate::silent::Silent;
use rpc_calls::Calls;
use rpc_channel::Channels;
use rpc_handlers::{Maker, Nobody};
use rpc_ids::{Registry, Role};
use rpc_shared::Shared;
use std::alloc::{AllocError, Global};

/// The passes of the table: pass 0 feeds the input, and pass 1 drives the call.
#[derive(Drop)]
pub(crate) struct Seats {
    pub reader: Seat,
    pub driver: Seat,
    /// Where they come together again.
    pub room: Vec<Seat>,
}

/// The table that knows these methods, and its passes.
pub(crate) fn new_table(
    alloc: Global,
    maker: &Nobody<Silent>,
    registry: Registry,
) -> Result<(Table, Vec<Seat>), AllocError>
    ensures turn { IfOk result (λ made. (made.0.count ≡ 2) × (made.0.base ≡ setting_with registry)) }
    ensures passes { IfOk result (λ made. AreAll made.0 (IsNew made.0) made.1.items) }
{
    let calls = new_calls(alloc, maker, registry)?;
    match Shared::with(alloc, calls, 2) {
        Ok(made) => Ok(made),
        Err(_) => Err(AllocError),
    }
}

// A table of calls without an entry.
fn new_calls(
    alloc: Global,
    maker: &Nobody<Silent>,
    registry: Registry,
) -> Result<Calls<Silent>, AllocError>
    ensures setting { IfOk result (λ calls. calls.setting ≡ setting_with registry) }
    ensures entries { IfOk result (λ calls. calls.entries ≡ []) }
{
    let channels = live_channels(alloc)?;
    let seed = maker.seed()?;
    Calls::new(alloc, Role::Client, channels, registry, seed)
}

fn live_channels(alloc: Global) -> Result<Channels, AllocError>
    ensures { IfOk result (λ channels. channels ≡ 1 ∷ []) }
{
    let mut channels = Channels::new(alloc);
    match channels.add(1) {
        Ok(()) => Ok(channels),
        Err(_) => Err(AllocError),
    }
}

/// Takes both passes apart.
pub(crate) fn apart(mut passes: Vec<Seat>) -> Seats
    requires { vec_len passes ≡ 2 }
    ensures parts { passes.items ≡ result.reader ∷ result.driver ∷ [] }
    ensures room { (result.room.items ≡ []) × (2 ≤ vec_capacity result.room) }
{
    let driver = passes.remove(1);
    let reader = passes.remove(0);
    Seats {
        reader,
        driver,
        room: passes,
    }
}

/// Both passes again, in the order of their numbers.
pub(crate) fn together(seats: Seats) -> Vec<Seat>
    requires { (seats.room.items ≡ []) × (2 ≤ vec_capacity seats.room) }
    ensures { result.items ≡ seats.reader ∷ seats.driver ∷ [] }
{
    let Seats {
        reader,
        driver,
        mut room,
    } = seats;
    room.push_reserved(reader);
    room.push_reserved(driver);
    room
}
