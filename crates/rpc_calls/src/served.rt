//! The calls that arrivals open.
ghost use Rattle.std.specs.Prelude.{◌≡◌, ◌<◌, IfOk, length};
ghost use Rattle.std.specs.VecDeque.{deque_capacity};
ghost use Rattle.rpc_journal.specs.table.Touch.{IsServed};

use crate::replies::copy_packet;
use rpc_ids::MethodRef;
use rpc_journal::table::CallState;
use rpc_packet::Packet;
use std::alloc::{AllocError, Global};

/// A copy of a packet, and the state of the call that it opens, with a place for one more event.
pub fn serve(
    alloc: Global,
    p: &Packet,
    method: MethodRef,
    at: u64,
) -> Result<(Packet, CallState), AllocError>
    ensures packet { IfOk result (λ q. q.0 ≡ p.now) }
    ensures state { IfOk result (λ q. IsServed at p.now method q.1) }
    ensures place { IfOk result (λ q. length q.1.waiting.items < deque_capacity q.1.waiting) }
{
    let state = CallState::served(alloc, p, method, at)?;
    match copy_packet(p) {
        Ok(packet) => Ok((packet, state)),
        Err(e) => Err(e),
    }
}
