//! The frames of one call of the stream.

ghost use Rattle.std.specs.Prelude.{◌≡◌, ◌<◌, ◌^◌, ◌+◌, ◌++◌, OnOk};
ghost use Rattle.rpc_packet.specs.declared.packet_type.PacketType.TheVariants.{Request};
ghost use Rattle.rpc_packet.specs.Message.{message_of};
ghost use Rattle.rpc_frames.specs.Written.{frame_of_packet, frames_of_packets};
ghost use Rattle.load_stream.specs.Load.{call_name, call_packets, count_in, highest_bytes, packet, streamed};

use bytes::Bytes;
use demo_services::ids;
use rpc_frames::write_frame;
use rpc_packet::{CallName, Packet, PacketType};
use std::alloc::{AllocError, Global};

/// The channel of all calls.
pub const CHANNEL: u32 = 1;

/// How many of the bytes of a number a call sends.
pub const SENT_BYTES: usize = 3;

/// No call's frames have more bytes.
pub const LONGEST_CALL: usize = 1_540;

/// Appends the frames of the call with this number, counted from 0, for which the generator gave `x`.
pub(crate) fn write_call(
    alloc: Global,
    number: u32,
    x: u64,
    out: &mut Vec<u8>,
) -> Result<(), AllocError>
    requires { number + 1 < 2 ^ 32 }
    ensures { OnOk result (out.new.items ≡ out.old.items ++ frames_of_packets (call_packets number x)) }
{
    let sent = top_bytes(x);
    match number % 4 {
        0 => write_request(alloc, name(number, ids::ECHO), &sent, out),
        1 => write_request(alloc, name(number, ids::COUNT), &[count(x)], out),
        2 => write_streamed(alloc, name(number, ids::SUM), &sent, out),
        _ => write_streamed(alloc, name(number, ids::CHAT), &sent, out),
    }
}

fn top_bytes(x: u64) -> [u8; SENT_BYTES]
    ensures { result ≡ highest_bytes x }
{
    let [first, second, third, ..] = x.to_be_bytes();
    [first, second, third]
}

fn name(number: u32, method: u32) -> CallName
    requires { number + 1 < 2 ^ 32 }
    ensures { result ≡ call_name number method }
{
    CallName {
        channel: CHANNEL,
        service: ids::DEMO,
        method,
        call: number + 1,
    }
}

// How far a call of Count counts.
fn count(x: u64) -> u8
    ensures { result ≡ count_in x }
{
    1 + ((x >> 32) % 64) as u8
}

fn write_request(
    alloc: Global,
    name: CallName,
    payload: &[u8],
    out: &mut Vec<u8>,
) -> Result<(), AllocError>
    ensures { OnOk result (out.new.items ≡ out.old.items ++ frame_of_packet (message_of (packet Request name payload.now))) }
{
    write_packet(alloc, PacketType::Request, name, payload, out)
}

// A call that sends each byte as a message.
#[tactic(auto, unfolding(crate::specs::Load::streamed))]
fn write_streamed(
    alloc: Global,
    name: CallName,
    bytes: &[u8],
    out: &mut Vec<u8>,
) -> Result<(), AllocError>
    ensures { OnOk result (out.new.items ≡ out.old.items ++ frames_of_packets (streamed name bytes.now)) }
{
    write_request(alloc, name, &[], out)?;
    for byte in bytes {
        write_packet(alloc, PacketType::ClientStream, name, &[*byte], out)?;
    }
    write_packet(alloc, PacketType::Completion, name, &[], out)
}

fn write_packet(
    alloc: Global,
    ptype: PacketType,
    name: CallName,
    payload: &[u8],
    out: &mut Vec<u8>,
) -> Result<(), AllocError>
    ensures { OnOk result (out.new.items ≡ out.old.items ++ frame_of_packet (message_of (packet ptype name payload.now))) }
{
    let packet = Packet {
        ptype,
        name,
        payload: Bytes::copy_from_slice(alloc, payload)?,
        status: 0,
    };
    write_frame(alloc, &packet, out)
}
