//! What a segment is to an end of the link.

ghost use Rattle.std.specs.Prelude.{◌≡◌, IfOk, OnErr, Some};
ghost use Rattle.hdlc_frame.specs.Lent.{found_of, parts_of};

use crate::limits::ADDRESS;
use hdlc_frame::{Frame, Got, UI_CONTROL};
use rpc_ids::Role;
use rpc_packet::{Packet, PacketRef, PacketType};
use std::alloc::{AllocError, Global};

/// What is heard in a segment.
#[derive(Clone, Copy)]
pub(crate) enum Heard<'a> {
    /// No frame: the segment has a fault.
    Fault,
    /// A frame for another address, or with another control octet.
    Other,
    /// A frame for this end, but no packet that it hears.
    Dropped,
    /// A packet, taken as one of this type.
    Packet(PacketType, PacketRef<'a>),
}

ghost use Rattle.rpc_frames.specs.HeardAs.{HearsIn, HearsInFrame, packet_in};

impl<'a> Heard<'a> {
    /// The packet with a payload of its own, where one was heard.
    pub(crate) fn own(&self, alloc: Global) -> Result<Option<Packet>, AllocError>
        ensures ok { IfOk result (λ packet. packet ≡ packet_in self.now) }
        ensures err { OnErr result ((packet : Packet) × (packet_in self.now ≡ Some packet)) }
    {
        match self {
            Heard::Packet(ptype, packet) => Ok(Some(packet.own(alloc, *ptype)?)),
            Heard::Fault | Heard::Other | Heard::Dropped => Ok(None),
        }
    }
}

/// What an end of this role hears in a segment.
pub(crate) fn hear<'a>(role: Role, got: &Got<'a>) -> Heard<'a>
    ensures { HearsIn role (found_of got.now) result }
{
    match got {
        Got::Bad(_) => Heard::Fault,
        Got::Frame(frame) => hear_frame(role, frame),
    }
}

fn hear_frame<'a>(role: Role, frame: &Frame<'a>) -> Heard<'a>
    ensures { HearsInFrame role (parts_of frame.now) result }
{
    if frame.address != ADDRESS {
        return Heard::Other;
    }
    if frame.control != UI_CONTROL {
        return Heard::Other;
    }
    match PacketRef::read(frame.payload) {
        Err(_) => Heard::Dropped,
        Ok(packet) => match packet.hear(role) {
            None => Heard::Dropped,
            Some(ptype) => Heard::Packet(ptype, packet),
        },
    }
}
