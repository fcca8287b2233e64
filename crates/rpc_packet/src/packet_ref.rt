ghost use Rattle.std.specs.Prelude.{◌≡◌, ◌<◌, ◌≤◌, IfOk, IfErr, IfSome, IsNone, Ok, Some, length, option_map, take};
ghost use Rattle.proto_wire.specs.Views.{wire_field};
ghost use Rattle.rpc_packet.specs.Message.{Message, message_of, lent_message};
ghost use Rattle.rpc_packet.specs.PacketType.{type_number};
ghost use Rattle.rpc_packet.specs.Hearing.{Hears, heard_as};
ghost use Rattle.rpc_packet.specs.Reading.{IsPacket, IsFaultAt, packet_of, seen};
ghost use Rattle.rpc_packet.specs.Spelling.{spelling_of};
ghost use Rattle.rpc_packet.specs.Steps.{nothing_said, with_field};

use crate::field_number::{CALL_ID, CHANNEL_ID, METHOD_ID, PAYLOAD, SERVICE_ID, STATUS, TYPE};
use crate::placed::read_placed;
use crate::spelling::optional_fields;
use crate::{CallName, Packet, PacketType};
use bytes::Bytes;
use proto_wire::{Field, Malformed, write_fields_into};
use rpc_ids::Role;
use std::alloc::{AllocError, Global};

/// A packet whose payload is lent from the bytes that it was read from.
#[derive(Clone, Copy, Debug, PartialEq, Eq)]
pub struct PacketRef<'a> {
    /// The number of the type. Not every number is that of a `PacketType`.
    pub ptype: u64,
    pub name: CallName,
    pub payload: &'a [u8],
    /// The number of the status.
    pub status: u32,
}

impl<'a> PacketRef<'a> {
    /// The packet in these bytes, by the Protocol Buffers encoding. Of a repeated field the last counts, a field that
    /// is missing is 0 or empty, and fields with other numbers are skipped. `Malformed` tells the offset of the first
    /// field that can't be read, has another wire type than RpcPacket declares, or is a `uint32` of 2^32 or more.
    ///
    /// Reading takes no memory, and the payload is a part of `bytes`.
    pub fn read(bytes: &'a [u8]) -> Result<PacketRef<'a>, Malformed>
        ensures packet { IfOk result (λ p. IsPacket bytes.now (lent_message p)) }
        ensures fault { IfErr result (λ e. IsFaultAt bytes.now e.at) }
        ensures only { (m : Message) → IsPacket bytes.now m → seen result ≡ Ok m }
        ensures value { seen result ≡ packet_of bytes.now }
    {
        PacketRef::read_fields(bytes)
    }

    // The answer of `read`.
    fn read_fields(bytes: &'a [u8]) -> Result<PacketRef<'a>, Malformed>
        ensures { seen result ≡ packet_of bytes.now }
    {
        match read_placed(bytes) {
            Ok((packet, _)) => Ok(packet),
            Err(malformed) => Err(malformed),
        }
    }

    /// The type as which an endpoint of this role takes the packet. `None` where the channel, service or method id
    /// is 0, and where the type isn't one that the role receives.
    #[tactic(auto, unfolding(crate::specs::Hearing::heard_as))]
    pub fn hear(&self, role: Role) -> Option<PacketType>
        ensures heard { IfSome result (λ t. Hears role (lent_message self.now) t) }
        ensures only { (t : PacketType) → Hears role (lent_message self.now) t → result ≡ Some t }
        ensures value { result ≡ heard_as role (lent_message self.now) }
    {
        let CallName {
            channel,
            service,
            method,
            ..
        } = self.name;
        if channel == 0 || service == 0 || method == 0 {
            return None;
        }
        let ptype = PacketType::of(self.ptype)?;
        if ptype.receiver() == role {
            Some(ptype)
        } else {
            None
        }
    }

    /// Writes the packet's one spelling to the front of `out`, as `Packet::write` does. Answers how many bytes it has,
    /// and `None` where `out` is shorter than that: some of the packet may then stand in it.
    #[tactic(auto, unfolding(crate::specs::Spelling::spelling_of))]
    pub fn write_into(&self, out: &mut [u8]) -> Option<usize>
        ensures written { IfSome result (λ n. (n ≤ length out.new) × (take n out.new ≡ spelling_of (lent_message self.now))) }
        ensures short { IsNone result → length out.new < length (spelling_of (lent_message self.now)) }
        ensures again { packet_of (spelling_of (lent_message self.now)) ≡ Ok (lent_message self.now) }
    {
        let fields = optional_fields(self.ptype, self.name, self.payload, self.status);
        write_fields_into(out, &fields)
    }

    /// The packet with a payload of its own, as one of this type.
    pub fn own(&self, alloc: Global, ptype: PacketType) -> Result<Packet, AllocError>
        ensures { IfOk result (λ p. message_of p ≡ record (lent_message self.now) { ptype = type_number ptype }) }
    {
        Ok(Packet {
            ptype,
            name: self.name,
            payload: Bytes::copy_from_slice(alloc, self.payload)?,
            status: self.status,
        })
    }

    // The packet that no field says anything of.
    pub(crate) fn unsaid() -> PacketRef<'a>
        ensures { lent_message result ≡ nothing_said }
    {
        let name = CallName {
            channel: 0,
            service: 0,
            method: 0,
            call: 0,
        };
        PacketRef {
            ptype: 0,
            name,
            payload: &[],
            status: 0,
        }
    }

    // The packet with one more field, or `None` where the field isn't as RpcPacket declares it.
    #[tactic(auto, unfolding(crate::specs::Steps::with_field))]
    pub(crate) fn with_field(self, field: Field<'a>) -> Option<PacketRef<'a>>
        ensures { option_map lent_message result ≡ with_field (lent_message self.entry) (wire_field field.entry) }
    {
        match field.number {
            TYPE => Some(PacketRef {
                ptype: field.value.as_uint64()?,
                ..self
            }),
            CHANNEL_ID => Some(PacketRef {
                name: CallName {
                    channel: field.value.as_uint32()?,
                    ..self.name
                },
                ..self
            }),
            SERVICE_ID => Some(PacketRef {
                name: CallName {
                    service: field.value.as_fixed32()?,
                    ..self.name
                },
                ..self
            }),
            METHOD_ID => Some(PacketRef {
                name: CallName {
                    method: field.value.as_fixed32()?,
                    ..self.name
                },
                ..self
            }),
            PAYLOAD => Some(PacketRef {
                payload: field.value.as_bytes()?,
                ..self
            }),
            STATUS => Some(PacketRef {
                status: field.value.as_uint32()?,
                ..self
            }),
            CALL_ID => Some(PacketRef {
                name: CallName {
                    call: field.value.as_uint32()?,
                    ..self.name
                },
                ..self
            }),
            _ => Some(self),
        }
    }
}
