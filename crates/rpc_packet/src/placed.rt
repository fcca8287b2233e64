//! Packets that are told by where their payload stands in the bytes that they were read from.
ghost use Rattle.std.specs.Prelude.{◌≡◌, ◌+◌, ◌≤◌, IfOk, length};
ghost use Rattle.proto_wire.specs.Places.{StandsAt};
ghost use Rattle.proto_wire.specs.Reads.{answered};
ghost use Rattle.rpc_packet.specs.Message.{lent_message, placed_message};
ghost use Rattle.rpc_packet.specs.Reading.{packet_of};

use crate::field_number::PAYLOAD;
use crate::{CallName, PacketRef};
use proto_wire::{Fields, Malformed};

/// A packet with no loan: its payload is `payload_len` bytes from `payload_at` on of those that it was read from.
#[derive(Clone, Copy, Debug, PartialEq, Eq)]
pub struct PlacedPacket {
    /// The number of the type. Not every number is that of a `PacketType`.
    pub ptype: u64,
    pub name: CallName,
    pub payload_at: usize,
    pub payload_len: usize,
    /// The number of the status.
    pub status: u32,
}

impl PlacedPacket {
    /// The packet in these bytes, as `PacketRef::read` reads it.
    pub fn read(bytes: &[u8]) -> Result<PlacedPacket, Malformed>
        ensures value { answered (placed_message bytes.now) result ≡ packet_of bytes.now }
        ensures inside { IfOk result (λ p. p.payload_at + p.payload_len ≤ length bytes.now) }
    {
        match read_placed(bytes) {
            Ok((packet, payload_at)) => Ok(PlacedPacket {
                ptype: packet.ptype,
                name: packet.name,
                payload_at,
                payload_len: packet.payload.len(),
                status: packet.status,
            }),
            Err(malformed) => Err(malformed),
        }
    }
}

/// Reads the packet in these bytes field by field, and tells the offset of its payload.
pub(crate) fn read_placed(bytes: &[u8]) -> Result<(PacketRef<'_>, usize), Malformed>
    ensures value { answered (λ read. lent_message read.0) result ≡ packet_of bytes.now }
    ensures place { IfOk result (λ read. StandsAt bytes.now read.0.payload.now read.1) }
{
    let mut packet = PacketRef::unsaid();
    let mut payload_at = 0usize;
    let mut fields = Fields::new(bytes);
    'fields: loop {
        let at = fields.at();
        let Some(next) = fields.next() else {
            return Ok((packet, payload_at));
        };
        let field = next?;
        let Some(longer) = packet.with_field(field) else {
            return Err(Malformed { at });
        };
        if field.number == PAYLOAD {
            payload_at = fields.at() - longer.payload.len();
        }
        packet = longer;
    }
}
