ghost use Rattle.std.specs.Prelude.{◌≡◌, ◌++◌, Ok, OnOk, OnErr};
ghost use Rattle.rpc_packet.specs.Message.{message_of};
ghost use Rattle.rpc_packet.specs.Reading.{packet_of};
ghost use Rattle.rpc_packet.specs.Spelling.{spelling_of};

use crate::spelling::optional_fields;
use crate::{CallName, PacketType};
use bytes::Bytes;
use proto_wire::write_fields;
use std::alloc::AllocError;

/// A packet that owns its payload, to be kept or sent.
#[derive(Clone, Debug, PartialEq, Eq, Drop)]
pub struct Packet {
    pub ptype: PacketType,
    pub name: CallName,
    /// The number of the status.
    pub status: u32,
    pub payload: Bytes,
}

impl Packet {
    /// Appends the packet's one spelling: its fields by rising number, those that are 0 or empty left out, each
    /// varint as short as it can be. `PacketRef::read` reads it as this packet. Where memory runs out, `out` is as it
    /// was.
    #[tactic(auto, unfolding(crate::specs::Spelling::spelling_of))]
    pub fn write(&self, out: &mut Vec<u8>) -> Result<(), AllocError>
        ensures ok { OnOk result (out.new.items ≡ out.old.items ++ spelling_of (message_of self.now)) }
        ensures err { OnErr result (out.new.items ≡ out.old.items) }
        ensures again { packet_of (spelling_of (message_of self.now)) ≡ Ok (message_of self.now) }
    {
        let fields = optional_fields(self.ptype.number(), self.name, &self.payload, self.status);
        write_fields(out, &fields)
    }
}
