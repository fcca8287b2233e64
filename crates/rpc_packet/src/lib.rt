//! Packets of pw_rpc, in the Protocol Buffers encoding.
//! A `PacketRef` lends its payload from the bytes that it was read from; a `Packet` owns its payload.
//! `Packet::write` appends the one spelling of a packet: rising field numbers, no zero or empty field, shortest varints.
//! `PlacedPacket` and `PacketRef::write_into` read and write packets in their caller's memory.
#![tactic(auto)]

mod call_name;
mod field_number;
mod owned;
mod packet_ref;
mod packet_type;
mod placed;
mod spelling;

pub use call_name::CallName;
pub use owned::Packet;
pub use packet_ref::PacketRef;
pub use packet_type::PacketType;
pub use placed::PlacedPacket;
