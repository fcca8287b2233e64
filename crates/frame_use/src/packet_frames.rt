use bytes::Bytes;
use rpc_frames::{Counts, Listener, write_frame};
use rpc_ids::Role;
use rpc_packet::{CallName, Packet, PacketType};
use std::alloc::{AllocError, Global};
use std::process::Abort;

// Empty payloads to addresses 82 and 123, and the payload `7E` to address 82.
const EMPTY: &[u8] = b"\x7E\xA5\x03\xE9\x0B\xA0\x0B\x7E";

const OTHER_ADDRESS: &[u8] = b"\x7E\xF7\x03\x3F\x34\x2D\x83\x7E";

const ESCAPED: &[u8] = b"\x7E\xA5\x03\x7D\x5E\x61\x49\x62\xBC\x7E";
// REQUESTs of Echo with payload `abc`, call 1 and call 2, and the RESPONSEs to them.
const REQUEST: &[u8] =
    b"\x7E\xA5\x03\x10\x01\x1D\xFB\x5C\xF4\x70\x25\xE9\x0E\x47\x8B\x2A\x03\x61\x62\x63\x38\x01\x03\xED\xCE\x63\x7E";

const RESPONSE: &[u8] =
    b"\x7E\xA5\x03\x08\x01\x10\x01\x1D\xFB\x5C\xF4\x70\x25\xE9\x0E\x47\x8B\x2A\x03\x61\x62\x63\x38\x01\x97\x94\x28\x3C\x7E";

const REQUEST_2: &[u8] =
    b"\x7E\xA5\x03\x10\x01\x1D\xFB\x5C\xF4\x70\x25\xE9\x0E\x47\x8B\x2A\x03\x61\x62\x63\x38\x02\xB9\xBC\xC7\xFA\x7E";

const RESPONSE_2: &[u8] =
    b"\x7E\xA5\x03\x08\x01\x10\x01\x1D\xFB\x5C\xF4\x70\x25\xE9\x0E\x47\x8B\x2A\x03\x61\x62\x63\x38\x02\x2D\xC5\x21\xA5\x7E";
// The first request without its last flag, and with another payload than its check sequence is of.
const UNFINISHED: &[u8] =
    b"\x7E\xA5\x03\x10\x01\x1D\xFB\x5C\xF4\x70\x25\xE9\x0E\x47\x8B\x2A\x03\x61\x62\x63\x38\x01\x03\xED\xCE\x63";

const DAMAGED: &[u8] =
    b"\x7E\xA5\x03\x10\x01\x1D\xFB\x5C\xF4\x70\x25\xE9\x0E\x47\x8B\x2A\x03\x61\x62\x62\x38\x01\x03\xED\xCE\x63\x7E";
// An escape at a segment's end, and one in front of an escape. The next flag ends the segment.
const CUT_ESCAPE: &[u8] = b"\x7E\xA5\x03\x7D";

const TWO_ESCAPES: &[u8] = b"\x7E\xA5\x03\x7D\x7D\x00";
// A REQUEST with another control octet, and one on channel 0.
const OTHER_CONTROL: &[u8] =
    b"\x7E\xA5\x13\x10\x01\x1D\xFB\x5C\xF4\x70\x25\xE9\x0E\x47\x8B\x2A\x01\x78\x38\x03\x8F\x26\xD3\xA9\x7E";

const CHANNEL_ZERO: &[u8] =
    b"\x7E\xA5\x03\x1D\xFB\x5C\xF4\x70\x25\xE9\x0E\x47\x8B\x2A\x01\x78\x38\x03\x59\x15\x7D\x5E\x0C\x7E";

// The counts of a stream that comes in pieces of at most this size, and the packets heard in it.
fn heard(
    alloc: Global,
    role: Role,
    stream: &[u8],
    size: usize,
) -> Result<(Counts, Vec<Packet>), AllocError> {
    let mut listener = Listener::new(alloc, role)?;
    let mut packets = Vec::new(alloc);
    let mut rest = stream;
    for _ in 0..stream.len() {
        if rest.is_empty() {
            break;
        }
        let piece = &rest[..rest.len().min(size.max(1))];
        let listened = listener.listen(piece)?;
        rest = &rest[listened.taken..];
        if let Some(packet) = listened.packet {
            packets.push(packet)?;
        }
    }
    Ok((listener.counts(), packets))
}

fn counts([valid, bad, other, dropped]: [u64; 4]) -> Counts {
    Counts {
        valid,
        bad,
        other,
        dropped,
    }
}

// A packet of Echo on channel 1.
fn echo(alloc: Global, ptype: PacketType, call: u32, payload: &[u8]) -> Result<Packet, AllocError> {
    Ok(Packet {
        ptype,
        name: CallName {
            channel: 1,
            service: 0x70F4_5CFB,
            method: 0x8B47_0EE9,
            call,
        },
        payload: Bytes::copy_from_slice(alloc, payload)?,
        status: 0,
    })
}

// The stream in two parts, the counts, and the calls of the requests heard.
type StreamRow = (&'static [u8], &'static [u8], [u64; 4], &'static [u32]);

const STREAMS: &[StreamRow] = &[
    (b"", b"", [0, 0, 0, 0], &[]),
    (REQUEST, b"", [1, 0, 0, 0], &[1]),
    (REQUEST, REQUEST_2, [2, 0, 0, 0], &[1, 2]),
    (b"\0", REQUEST, [1, 0, 0, 0], &[1]),
    (UNFINISHED, REQUEST, [2, 0, 0, 0], &[1, 1]),
    (UNFINISHED, b"", [0, 0, 0, 0], &[]),
    (CUT_ESCAPE, REQUEST, [1, 1, 0, 0], &[1]),
    (TWO_ESCAPES, REQUEST, [1, 1, 0, 0], &[1]),
    (b"\x7E\0", REQUEST_2, [1, 1, 0, 0], &[2]),
    (DAMAGED, REQUEST, [1, 1, 0, 0], &[1]),
    (OTHER_ADDRESS, EMPTY, [2, 0, 1, 1], &[]),
    (OTHER_CONTROL, CHANNEL_ZERO, [2, 0, 1, 1], &[]),
    (ESCAPED, RESPONSE, [2, 0, 0, 2], &[]),
    (b"\x7E\x7E\x7E", REQUEST, [1, 0, 0, 0], &[1]),
];

fn counted(rt: &impl Abort, found: Counts, want: [u64; 4], size: usize) {
    assert_eq!(rt; found, counts(want), "by {size}");
}

fn is_packet(rt: &impl Abort, found: &Packet, want: &Packet) {
    assert_eq!(rt; found, want);
}

// The packets are the requests of these calls.
fn are_requests(
    rt: &impl Abort,
    alloc: Global,
    packets: &[Packet],
    calls: &[u32],
) -> Result<(), AllocError> {
    assert_eq!(rt; packets.len(), calls.len());
    for (packet, call) in packets.iter().zip(calls) {
        let request = echo(alloc, PacketType::Request, *call, b"abc")?;
        is_packet(rt, packet, &request);
    }
    Ok(())
}

fn is_heard(
    rt: &impl Abort,
    alloc: Global,
    row: &StreamRow,
    size: usize,
) -> Result<(), AllocError> {
    let (front, behind, count, calls) = *row;
    let mut stream = Vec::from_slice(alloc, front)?;
    stream.extend_from_slice(behind)?;
    let (found, packets) = heard(alloc, Role::Server, &stream, size)?;
    counted(rt, found, count, size);
    are_requests(rt, alloc, &packets, calls)
}

#[test]
fn each_stream_is_heard_and_counted(rt: HostRuntime) -> Result<(), AllocError> {
    for row in STREAMS {
        is_heard(&rt, rt.alloc(), row, 1)?;
        is_heard(&rt, rt.alloc(), row, 7)?;
        is_heard(&rt, rt.alloc(), row, 4_096)?;
    }
    Ok(())
}

// The frames of a piece, how many of its bytes are taken up to the first packet, and the call of that packet.
const FIRST_PACKETS: &[(&[&[u8]], usize, Option<u32>)] = &[
    (&[], 0, None),
    (&[UNFINISHED], 26, None),
    (&[OTHER_ADDRESS, EMPTY], 16, None),
    (&[REQUEST, REQUEST_2], 27, Some(1)),
    (
        &[OTHER_ADDRESS, DAMAGED, ESCAPED, REQUEST_2, REQUEST],
        72,
        Some(2),
    ),
];

// So many bytes are taken of the frames up to the first packet, which is of this call.
fn are_taken(
    rt: &impl Abort,
    alloc: Global,
    frames: &[&[u8]],
    want: (usize, Option<u32>),
) -> Result<(), AllocError> {
    let mut piece = Vec::new(alloc);
    for frame in frames {
        piece.extend_from_slice(frame)?;
    }
    let mut listener = Listener::new(alloc, Role::Server)?;
    let listened = listener.listen_for_packet(&piece)?;
    let call = match &listened.packet {
        Some(packet) => Some(packet.name.call),
        None => None,
    };
    assert_eq!(rt; (listened.taken, call), want);
    Ok(())
}

#[test]
fn a_piece_is_taken_up_to_its_first_packet(rt: HostRuntime) -> Result<(), AllocError> {
    for (frames, taken, call) in FIRST_PACKETS {
        are_taken(&rt, rt.alloc(), frames, (*taken, *call))?;
    }
    Ok(())
}

// A frame, the type and the call of the packet in it, the role that hears it, and the other one.
const ROLES: &[(&[u8], PacketType, u32, Role, Role)] = &[
    (REQUEST, PacketType::Request, 1, Role::Server, Role::Client),
    (
        REQUEST_2,
        PacketType::Request,
        2,
        Role::Server,
        Role::Client,
    ),
    (
        RESPONSE,
        PacketType::Response,
        1,
        Role::Client,
        Role::Server,
    ),
    (
        RESPONSE_2,
        PacketType::Response,
        2,
        Role::Client,
        Role::Server,
    ),
];

// What an end of this role hears in a frame.
fn hears(
    rt: &impl Abort,
    alloc: Global,
    role: Role,
    frame: &[u8],
    want: &[Packet],
) -> Result<(), AllocError> {
    let (found, packets) = heard(alloc, role, frame, 4_096)?;
    let dropped = if want.is_empty() { 1 } else { 0 };
    counted(rt, found, [1, 0, 0, dropped], 4_096);
    assert_eq!(rt; packets.as_slice(), want, "{frame:?}");
    Ok(())
}

fn one_hears(
    rt: &impl Abort,
    alloc: Global,
    row: &(&[u8], PacketType, u32, Role, Role),
) -> Result<(), AllocError> {
    let (frame, ptype, call, receiver, sender) = *row;
    let packets = vec![in alloc; echo(alloc, ptype, call, b"abc")?]?;
    hears(rt, alloc, receiver, frame, &packets)?;
    hears(rt, alloc, sender, frame, &[])
}

#[test]
fn each_role_hears_its_packets(rt: HostRuntime) -> Result<(), AllocError> {
    for row in ROLES {
        one_hears(&rt, rt.alloc(), row)?;
    }
    Ok(())
}

const FRAMES: &[(PacketType, u32, &[u8])] = &[
    (PacketType::Request, 1, REQUEST),
    (PacketType::Response, 1, RESPONSE),
    (PacketType::Request, 2, REQUEST_2),
    (PacketType::Response, 2, RESPONSE_2),
];

fn are_frames(rt: &impl Abort, written: &[u8], frames: &[u8]) {
    assert_eq!(rt; written, frames);
}

#[test]
fn each_packet_has_its_frame(rt: HostRuntime) -> Result<(), AllocError> {
    let alloc = rt.alloc();
    let mut written = Vec::new(alloc);
    let mut frames = Vec::new(alloc);
    for (ptype, call, frame) in FRAMES {
        write_frame(alloc, &echo(alloc, *ptype, *call, b"abc")?, &mut written)?;
        frames.extend_from_slice(frame)?;
        are_frames(&rt, &written, &frames);
    }
    Ok(())
}

fn is_heard_whole(
    rt: &impl Abort,
    alloc: Global,
    length: usize,
    want: [u64; 4],
) -> Result<(), AllocError> {
    let payload = vec![in alloc; 0x7E; length]?;
    let request = echo(alloc, PacketType::Request, 1, &payload)?;
    let mut frame = Vec::new(alloc);
    write_frame(alloc, &request, &mut frame)?;
    let (found, packets) = heard(alloc, Role::Server, &frame, 4_096)?;
    counted(rt, found, want, length);
    let is_whole = want[0] == 1;
    assert_eq!(rt;
        packets.first(),
        if is_whole { Some(&request) } else { None },
        "{length} bytes"
    );
    Ok(())
}

#[test]
fn the_largest_content_is_heard(rt: HostRuntime) -> Result<(), AllocError> {
    // The content of the first has 8,192 bytes, that of the second one more.
    is_heard_whole(&rt, rt.alloc(), 8_169, [1, 0, 0, 0])?;
    is_heard_whole(&rt, rt.alloc(), 8_170, [0, 1, 0, 0])
}
