//! Packets of pw_rpc.
ghost use Rattle.std.specs.Prelude.{◌≡◌, ◌+◌, ◌<◌, ◌≤◌, ◌⊎◌, ℕ, Err, Ok, length, take};
ghost use Rattle.hdlc_frame.specs.Encoded.{encoded_ui};
ghost use Rattle.rpc_packet.specs.Message.{placed_message};
ghost use Rattle.rpc_packet.specs.Reading.{packet_of};
ghost use Rattle.rpc_packet.specs.Spelling.{spelling_of};
ghost use Rattle.c_codec.specs.Packet.{packet_placed, packet_with};

use crate::frame::{KF_NO_ROOM, kf_encode_ui};
use rpc_packet::{CallName, PacketRef, PlacedPacket};

/// A packet, as C keeps it. A packet that was read has its payload in the bytes that it was read from.
#[repr(C)]
#[derive(Clone, Copy, Debug, PartialEq, Eq)]
pub struct KfPacket {
    /// The number of the type. Not every number is that of a type.
    pub ptype: u64,
    pub payload_at: usize,
    pub payload_len: usize,
    pub channel: u32,
    pub service: u32,
    pub method: u32,
    pub call: u32,
    /// The number of the status.
    pub status: u32,
}

/// Reads the packet in some bytes. Answers 0, or 1 where they are none: `packet` is then as it was.
#[unsafe(no_mangle)]
pub extern "C" fn kf_packet_read(bytes: &[u8], packet: &mut KfPacket) -> u8
    ensures answers { result ≤ 1 }
    ensures read { result ≡ 0 → packet_of bytes.now ≡ Ok (placed_message bytes.now (packet_placed packet.new)) }
    ensures inside { result ≡ 0 → packet.new.payload_at + packet.new.payload_len ≤ length bytes.now }
    ensures malformed { result ≡ 1 → (at : ℕ) × (packet_of bytes.now ≡ Err at) }
    ensures kept { result ≡ 1 → packet.new ≡ packet.old }
{
    match PlacedPacket::read(bytes) {
        Ok(read) => {
            *packet = KfPacket {
                ptype: read.ptype,
                payload_at: read.payload_at,
                payload_len: read.payload_len,
                channel: read.name.channel,
                service: read.name.service,
                method: read.name.method,
                call: read.name.call,
                status: read.status,
            };
            0
        }
        Err(_) => 1,
    }
}

/// Writes the one spelling of a packet to the front of `out`, with a payload of its own: `payload_at` and `payload_len`
/// don't count. Answers how many bytes it has, or `KF_NO_ROOM`: some of the packet may then stand in `out`.
#[unsafe(no_mangle)]
pub extern "C" fn kf_packet_write(packet: &KfPacket, payload: &[u8], out: &mut [u8]) -> usize
    ensures written { result < KF_NO_ROOM → (result ≤ length out.new) × (take result out.new ≡ spelling_of (packet_with packet.now payload.now)) }
    ensures short { result ≡ KF_NO_ROOM → length out.new < length (spelling_of (packet_with packet.now payload.now)) }
    ensures again { packet_of (spelling_of (packet_with packet.now payload.now)) ≡ Ok (packet_with packet.now payload.now) }
{
    let written = PacketRef {
        ptype: packet.ptype,
        name: CallName {
            channel: packet.channel,
            service: packet.service,
            method: packet.method,
            call: packet.call,
        },
        payload,
        status: packet.status,
    };
    match written.write_into(out) {
        Some(len) => len,
        None => KF_NO_ROOM,
    }
}

/// Writes a frame that carries a packet, with `scratch` as room for the packet's own bytes. Answers how many bytes the
/// frame has, or `KF_NO_ROOM` where either slice is too short: some of both may then be written.
#[unsafe(no_mangle)]
pub extern "C" fn kf_write_frame(
    address: u32,
    packet: &KfPacket,
    payload: &[u8],
    scratch: &mut [u8],
    out: &mut [u8],
) -> usize
    ensures written { result < KF_NO_ROOM → (result ≤ length out.new) × (take result out.new ≡ encoded_ui address (spelling_of (packet_with packet.now payload.now))) }
    ensures short { result ≡ KF_NO_ROOM → (length scratch.new < length (spelling_of (packet_with packet.now payload.now))) ⊎ (length out.new < length (encoded_ui address (spelling_of (packet_with packet.now payload.now)))) }
{
    let len = kf_packet_write(packet, payload, scratch);
    if len == KF_NO_ROOM {
        return KF_NO_ROOM;
    }
    kf_encode_ui(address, &scratch[..len], out)
}
