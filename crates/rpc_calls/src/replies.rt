//! Packets copied, and replies to packets of no call.
ghost use Rattle.std.specs.Prelude.{◌≡◌, ◌<◌, ◌++◌, IfOk};
ghost use Rattle.std.specs.VecDeque.{deque_len, deque_capacity};
ghost use Rattle.rpc_packet.specs.declared.owned.Packet.{Packet};
ghost use Rattle.rpc_journal.specs.Changes.{request};
ghost use Rattle.rpc_journal.specs.ClientTable.{refuses_stream};
ghost use Rattle.rpc_journal.specs.Rows.{replied_row};
ghost use Rattle.rpc_calls.specs.Arrivals.{event_put};

use crate::packets::{send_item, status_packet};
use bytes::Bytes;
use rpc_handlers::Event;
use rpc_ids::Status;
use rpc_journal::{Act, Item};
use rpc_packet::{CallName, Packet, PacketType};
use std::alloc::AllocError;
use std::collections::VecDeque;

/// Adds a packet of this type and status, in reply to one of this name and of no call. There is a place for it.
pub fn reply(items: &mut VecDeque<Item>, ptype: PacketType, name: CallName, status: Status)
    requires { deque_len items.old < deque_capacity items.old }
    ensures items { (p : Packet) → p.name ≡ name → items.new.items ≡ items.old.items ++ (replied_row ptype p status).does.says }
    ensures capacity { deque_capacity items.new ≡ deque_capacity items.old }
{
    items.push_back_reserved(Item {
        call: None,
        act: Act::Send(status_packet(ptype, name, status)),
    });
}

/// Adds the CLIENT_ERROR by which a client refuses a stream of this call. There is a place for it.
pub fn refuse_stream(items: &mut VecDeque<Item>, call: u32, name: CallName)
    requires { deque_len items.old < deque_capacity items.old }
    ensures items { (p : Packet) → p.name ≡ name → items.new.items ≡ items.old.items ++ (refuses_stream p call).says }
    ensures capacity { deque_capacity items.new ≡ deque_capacity items.old }
{
    let packet = status_packet(PacketType::ClientError, name, Status::InvalidArgument);
    items.push_back_reserved(send_item(call, packet));
}

/// A copy of a packet.
pub fn copy_packet(p: &Packet) -> Result<Packet, AllocError>
    ensures { IfOk result (λ q. q ≡ p.now) }
{
    p.clone()
}

/// A copy of a packet, and the event that it puts to its call.
pub fn copy_with_event(p: &Packet, completes: bool) -> Result<(Packet, Event), AllocError>
    ensures { IfOk result (λ q. (q.0 ≡ p.now) × (q.1 ≡ event_put completes p.now)) }
{
    let event = event_of(p, completes)?;
    match copy_packet(p) {
        Ok(packet) => Ok((packet, event)),
        Err(e) => Err(e),
    }
}

/// A copy of a packet, and one of its payload.
pub fn copy_with_payload(p: &Packet) -> Result<(Packet, Bytes), AllocError>
    ensures { IfOk result (λ q. (q.0 ≡ p.now) × (q.1 ≡ p.now.payload)) }
{
    let payload = p.payload.clone()?;
    match copy_packet(p) {
        Ok(packet) => Ok((packet, payload)),
        Err(e) => Err(e),
    }
}

fn event_of(p: &Packet, completes: bool) -> Result<Event, AllocError>
    ensures { IfOk result (λ e. e ≡ event_put completes p.now) }
{
    if completes {
        return Ok(Event::Completion);
    }
    let payload = p.payload.clone()?;
    Ok(Event::Message(payload))
}

/// A REQUEST of this name and payload, and a copy of it.
pub fn ask(name: CallName, payload: Bytes) -> Result<(Packet, Packet), AllocError>
    ensures { IfOk result (λ q. (q.0 ≡ request name payload) × (q.1 ≡ request name payload)) }
{
    let packet = Packet {
        ptype: PacketType::Request,
        name,
        payload,
        status: 0,
    };
    match copy_packet(&packet) {
        Ok(copy) => Ok((packet, copy)),
        Err(e) => Err(e),
    }
}
