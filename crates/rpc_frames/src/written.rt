//! The writer of the frames that carry packets.

ghost use Rattle.std.specs.Prelude.{◌≡◌, ◌++◌, OnOk, OnErr};
ghost use Rattle.rpc_ids.specs.declared.method.Role.{Role};
ghost use Rattle.rpc_packet.specs.Hearing.{Hears};
ghost use Rattle.rpc_packet.specs.Message.{message_of};
ghost use Rattle.rpc_frames.specs.Laws.{IsHeardBack};
ghost use Rattle.rpc_frames.specs.Written.{FitsFrame, frame_of_packet};

use crate::limits::{ADDRESS, MOST_BESIDES_PAYLOAD};
use hdlc_frame::encode_ui;
use rpc_packet::Packet;
use std::alloc::{AllocError, Global};

/// Appends the frame that carries the packet. Want of memory leaves `out` as it was.
///
/// Any packet is written. Its receiver hears it where the frame's content has at most `LARGEST_CONTENT` bytes.
pub fn write_frame(alloc: Global, packet: &Packet, out: &mut Vec<u8>) -> Result<(), AllocError>
    ensures ok { OnOk result (out.new.items ≡ out.old.items ++ frame_of_packet (message_of packet.now)) }
    ensures err { OnErr result (out.new.items ≡ out.old.items) }
    ensures heard { (role : Role) → Hears role (message_of packet.now) packet.now.ptype → FitsFrame (message_of packet.now) → IsHeardBack role packet.now }
{
    let mut spelled = Vec::new(alloc);
    // One allocation for most packets. Where it is refused, `write` asks for what it needs.
    let _ = spelled.reserve(packet.payload.len().saturating_add(MOST_BESIDES_PAYLOAD));
    packet.write(&mut spelled)?;
    encode_ui(ADDRESS, &spelled, out)
}
