//! Packets and items that a table makes.
ghost use Rattle.std.specs.Prelude.{◌≡◌};
ghost use Rattle.rpc_journal.specs.Entries.{error_type, leave_item, message_item, stream_type};
ghost use Rattle.rpc_journal.specs.Rows.{packet_item, status_packet as packet_with};

use bytes::Bytes;
use rpc_ids::{Role, Status};
use rpc_journal::{Act, Item};
use rpc_packet::{CallName, Packet, PacketType};

/// A packet with a status and no payload.
pub fn status_packet(ptype: PacketType, name: CallName, status: Status) -> Packet
    ensures { result ≡ packet_with ptype name status }
{
    Packet {
        ptype,
        name,
        payload: Bytes::new(),
        status: status.number(),
    }
}

/// The packet goes out, for this call.
pub fn send_item(call: u32, packet: Packet) -> Item
    ensures { result ≡ packet_item call packet }
{
    Item {
        call: Some(call),
        act: Act::Send(packet),
    }
}

/// A message of the stream that this role sends.
pub fn message_item(role: Role, call: u32, name: CallName, payload: Bytes) -> Item
    ensures { result ≡ message_item role call name payload }
{
    send_item(
        call,
        Packet {
            ptype: stream_type(role),
            name,
            payload,
            status: 0,
        },
    )
}

/// All works of the call are left.
pub fn leave_item(call: u32) -> Item
    ensures { result ≡ leave_item call }
{
    Item {
        call: Some(call),
        act: Act::LeaveCall,
    }
}

/// The packets by which this role ends a call before its time.
pub fn error_type(role: Role) -> PacketType
    ensures { result ≡ error_type role }
{
    match role {
        Role::Server => PacketType::ServerError,
        Role::Client => PacketType::ClientError,
    }
}

// The packets of the stream that this role sends.
fn stream_type(role: Role) -> PacketType
    ensures { result ≡ stream_type role }
{
    match role {
        Role::Server => PacketType::ServerStream,
        Role::Client => PacketType::ClientStream,
    }
}
