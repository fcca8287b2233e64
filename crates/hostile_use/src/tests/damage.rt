//! Damaged streams. Each costs its own segment or packet alone: how the segments of a stream are counted, and that the call behind
//! it is answered.

use self::Damage::{Channel, Chunk, Cut, Sealed, Stream, Zeros};
use super::checks::{count_is, is_so, row_of, status_is};
use super::{FIRST, Ran, run_over};
use bytes::Bytes;
use demo_services::ids;
use hdlc_frame::{ESCAPE, ESCAPE_BIT, FLAG, crc32, encode_ui};
use rpc_frames::write_frame;
use rpc_packet::{CallName, Packet, PacketType};
use std::alloc::{AllocError, Global};
use std::process::Abort;
use std::sync::Wait;
use std::thread::Threads;

// What comes of `FIRST`'s payload: its channel, and the fields behind it.
const FIELDS: &[u8] =
    b"\x10\x01\x1D\xFB\x5C\xF4\x70\x25\xE9\x0E\x47\x8B\x2A\x03\x61\x62\x63\x38\x01";

const BEHIND_CHANNEL: usize = 2;

// The address of the server.
const ADDRESS: u32 = 82;

// A damaged stream.
enum Damage {
    // These bytes.
    Stream(&'static [u8]),
    // A frame with these bytes in front of its check sequence, which is right.
    Sealed(&'static [u8]),
    // A frame to the server with so many zeros as its payload, but for a flag at one place.
    Zeros(usize, usize),
    // A frame to the server with the first bytes of `FIRST`'s payload.
    Cut(usize),
    // A frame to the server with `FIRST`'s payload, but these bytes in place of its channel.
    Channel(&'static [u8]),
    // A REQUEST of the transfer service's Write, and then a message of it with this payload.
    Chunk(&'static [u8]),
}

// How the segments of a damaged stream are counted: valid frames, bad segments, frames for others, and packets that nobody hears.
type Counted = [u64; 4];

const NONE: Counted = [0, 0, 0, 0];

const BAD: Counted = [0, 1, 0, 0];

const OTHER: Counted = [1, 0, 1, 0];

const UNHEARD: Counted = [1, 0, 0, 1];

const HEARD: Counted = [1, 0, 0, 0];

const BOTH_HEARD: Counted = [2, 0, 0, 0];

// A damaged stream, how its segments are counted, and how many calls it opens.
type Row = (Damage, Counted, usize);

const ROWS: &[Row] = &[
    // An escape in front of an escape, at the first byte, an inner one and the last; and one at the segment's end.
    (Stream(b"\x7E\x7D\x7D\x03\x10\x01\x7E"), BAD, 0),
    (Stream(b"\x7E\xA5\x03\x10\x7D\x7D\x01\x1D\x7E"), BAD, 0),
    (Stream(b"\x7E\xA5\x03\xE9\x0B\xA0\x0B\x7D\x7D\x7E"), BAD, 0),
    (Stream(b"\x7E\xA5\x03\xE9\x0B\xA0\x0B\x7D\x7E"), BAD, 0),
    (Stream(b"\x7E\x7D\x7E"), BAD, 0),
    // A content of one byte, and of five: bare, and with an escape at the first, an inner and the last byte.
    (Stream(b"\x7E\xA5\x7E"), BAD, 0),
    (Stream(b"\x7E\xA5\x03\x00\x00\x00\x7E"), BAD, 0),
    (Stream(b"\x7E\x7D\x5E\x03\x00\x00\x00\x7E"), BAD, 0),
    (Stream(b"\x7E\xA5\x03\x7D\x5E\x00\x00\x7E"), BAD, 0),
    (Stream(b"\x7E\xA5\x03\x00\x00\x7D\x5D\x7E"), BAD, 0),
    // A bit turned over in an empty frame's address, control byte, and the first, an inner and the last byte of its check sequence.
    (Stream(b"\x7E\xA4\x03\xE9\x0B\xA0\x0B\x7E"), BAD, 0),
    (Stream(b"\x7E\xA5\x13\xE9\x0B\xA0\x0B\x7E"), BAD, 0),
    (Stream(b"\x7E\xA5\x03\xE8\x0B\xA0\x0B\x7E"), BAD, 0),
    (Stream(b"\x7E\xA5\x03\xE9\x0B\xA1\x0B\x7E"), BAD, 0),
    (Stream(b"\x7E\xA5\x03\xE9\x0B\xA0\x8B\x7E"), BAD, 0),
    // The first, an inner and the last byte left out of a frame with one byte more.
    (Stream(b"\x7E\x03\x7D\x5E\x61\x49\x62\xBC\x7E"), BAD, 0),
    (Stream(b"\x7E\xA5\x03\x61\x49\x62\xBC\x7E"), BAD, 0),
    (Stream(b"\x7E\xA5\x03\x7D\x5E\x61\x49\x62\x7E"), BAD, 0),
    // The first flag damaged, so that nothing stands between flags; the last one, so that the segment is longer.
    (Stream(b"\x5E\xA5\x03\xE9\x0B\xA0\x0B\x7E"), NONE, 0),
    (Stream(b"\x7E\xA5\x03\xE9\x0B\xA0\x0B\x5E"), BAD, 0),
    // An address that isn't over where the payload begins, one in front of no control byte, one of six bytes, and the numbers 2^32
    // and 2^32 - 1. Then the server's, spelled with two bytes, and another address and control byte.
    (Sealed(b"\xA4\xA4"), BAD, 0),
    (Sealed(b"\xA4\x03"), BAD, 0),
    (Sealed(b"\xA4\x00\x00\x00\x00\x01\x03"), BAD, 0),
    (Sealed(b"\x00\x00\x00\x00\x21\x03"), BAD, 0),
    (Sealed(b"\xFE\xFE\xFE\xFE\x1F\x03"), OTHER, 0),
    (Sealed(b"\xA4\x01\x03"), UNHEARD, 0),
    (Sealed(b"\xF7\x03"), OTHER, 0),
    (Sealed(b"\xA5\x13"), OTHER, 0),
    // Contents of 8,192 bytes, and of 8,193, with an escape at the payload's first, an inner and its last byte.
    (Zeros(8_186, 0), UNHEARD, 0),
    (Zeros(8_186, 4_000), UNHEARD, 0),
    (Zeros(8_186, 8_185), UNHEARD, 0),
    (Zeros(8_187, 0), BAD, 0),
    (Zeros(8_187, 4_000), BAD, 0),
    (Zeros(8_187, 8_186), BAD, 0),
    // A payload cut at each byte. Behind a whole field it is a packet: behind the channel and the service it has a method of 0, and
    // is heard by nobody; behind the method and the payload it opens a call with the id 0.
    (Cut(0), UNHEARD, 0),
    (Cut(1), UNHEARD, 0),
    (Cut(2), UNHEARD, 0),
    (Cut(3), UNHEARD, 0),
    (Cut(4), UNHEARD, 0),
    (Cut(5), UNHEARD, 0),
    (Cut(6), UNHEARD, 0),
    (Cut(7), UNHEARD, 0),
    (Cut(8), UNHEARD, 0),
    (Cut(9), UNHEARD, 0),
    (Cut(10), UNHEARD, 0),
    (Cut(11), UNHEARD, 0),
    (Cut(12), HEARD, 1),
    (Cut(13), UNHEARD, 0),
    (Cut(14), UNHEARD, 0),
    (Cut(15), UNHEARD, 0),
    (Cut(16), UNHEARD, 0),
    (Cut(17), HEARD, 1),
    (Cut(18), UNHEARD, 0),
    // The wire types 3, 4, 6 and 7, of a field that is known and of one that isn't.
    (Channel(b"\x13\x01"), UNHEARD, 0),
    (Channel(b"\x14\x01"), UNHEARD, 0),
    (Channel(b"\x16\x01"), UNHEARD, 0),
    (Channel(b"\x17\x01"), UNHEARD, 0),
    (Channel(b"\x10\x01\x7B\x01"), UNHEARD, 0),
    (Channel(b"\x10\x01\x7C\x01"), UNHEARD, 0),
    (Channel(b"\x10\x01\x7E\x01"), UNHEARD, 0),
    (Channel(b"\x10\x01\x7F\x01"), UNHEARD, 0),
    // Each field with the wire type of another.
    (Channel(b"\x10\x01\x0A\x00"), UNHEARD, 0),
    (Channel(b"\x15\x01\x00\x00\x00"), UNHEARD, 0),
    (Channel(b"\x10\x01\x18\x01"), UNHEARD, 0),
    (Channel(b"\x10\x01\x22\x00"), UNHEARD, 0),
    (Channel(b"\x10\x01\x28\x01"), UNHEARD, 0),
    (
        Channel(b"\x10\x01\x31\x00\x00\x00\x00\x00\x00\x00\x00"),
        UNHEARD,
        0,
    ),
    (Channel(b"\x10\x01\x3A\x00"), UNHEARD, 0),
    // The field 0, a tag of 2^32, and a length past the end.
    (Channel(b"\x10\x01\x00\x01"), UNHEARD, 0),
    (Channel(b"\x10\x01\x80\x80\x80\x80\x10\x01"), UNHEARD, 0),
    (Channel(b"\x10\x01\x2A\x7F"), UNHEARD, 0),
    // The channel 1 in ten bytes and in eleven; 2^64 in ten; 2^32, and 2^32 - 1, which isn't in.
    (
        Channel(b"\x10\x81\x80\x80\x80\x80\x80\x80\x80\x80\x00"),
        HEARD,
        1,
    ),
    (
        Channel(b"\x10\x81\x80\x80\x80\x80\x80\x80\x80\x80\x80\x00"),
        UNHEARD,
        0,
    ),
    (
        Channel(b"\x10\x80\x80\x80\x80\x80\x80\x80\x80\x80\x02"),
        UNHEARD,
        0,
    ),
    (Channel(b"\x10\x80\x80\x80\x80\x10"), UNHEARD, 0),
    (Channel(b"\x10\xFF\xFF\xFF\xFF\x0F"), HEARD, 0),
    // A channel told twice, of which the last counts; an unknown field, which is skipped; types that no server hears, and channel 0.
    (Channel(b"\x10\x00\x10\x01"), HEARD, 1),
    (Channel(b"\x10\x01\x10\x00"), UNHEARD, 0),
    (Channel(b"\x10\x01\x7A\x01\x00"), HEARD, 1),
    (Channel(b"\x08\x01\x10\x01"), UNHEARD, 0),
    (Channel(b"\x08\x03\x10\x01"), UNHEARD, 0),
    (Channel(b"\x08\x06\x10\x01"), UNHEARD, 0),
    (Channel(b"\x10\x00"), UNHEARD, 0),
    // A chunk with each of its fields in the wire type of another: the packet is heard, whatever its payload says.
    (Chunk(b"\x0A\x00"), BOTH_HEARD, 1),
    (Chunk(b"\x12\x00"), BOTH_HEARD, 1),
    (Chunk(b"\x1A\x00"), BOTH_HEARD, 1),
    (Chunk(b"\x22\x00"), BOTH_HEARD, 1),
    (Chunk(b"\x2A\x00"), BOTH_HEARD, 1),
    (Chunk(b"\x30\x01"), BOTH_HEARD, 1),
    (Chunk(b"\x3A\x00"), BOTH_HEARD, 1),
    (Chunk(b"\x42\x00"), BOTH_HEARD, 1),
    (Chunk(b"\x4A\x00"), BOTH_HEARD, 1),
    (Chunk(b"\x52\x00"), BOTH_HEARD, 1),
    (Chunk(b"\x5A\x00"), BOTH_HEARD, 1),
    (Chunk(b"\x62\x00"), BOTH_HEARD, 1),
    (Chunk(b"\x6A\x00"), BOTH_HEARD, 1),
    (Chunk(b"\x72\x00"), BOTH_HEARD, 1),
    (Chunk(b"\x7A\x00"), BOTH_HEARD, 1),
];

// The stream that is damaged so.
fn stream_of(alloc: Global, damage: &Damage) -> Result<Vec<u8>, AllocError> {
    match *damage {
        Stream(bytes) => Vec::from_slice(alloc, bytes),
        Sealed(content) => seal(alloc, content),
        Zeros(count, flag) => zeros(alloc, count, flag),
        Cut(count) => frame(alloc, &FIELDS[..count.min(FIELDS.len())]),
        Channel(bytes) => {
            let mut payload = Vec::from_slice(alloc, bytes)?;
            payload.extend_from_slice(&FIELDS[BEHIND_CHANNEL..])?;
            frame(alloc, &payload)
        }
        Chunk(payload) => {
            let mut stream = Vec::new(alloc);
            write_packet(alloc, PacketType::Request, b"", &mut stream)?;
            write_packet(alloc, PacketType::ClientStream, payload, &mut stream)?;
            Ok(stream)
        }
    }
}

// These bytes and their check sequence, between flags.
fn seal(alloc: Global, content: &[u8]) -> Result<Vec<u8>, AllocError> {
    let mut stream = Vec::from_slice(alloc, &[FLAG])?;
    for &byte in content {
        push_escaped(byte, &mut stream)?;
    }
    for byte in crc32(content).to_le_bytes() {
        push_escaped(byte, &mut stream)?;
    }
    stream.push(FLAG)?;
    Ok(stream)
}

fn push_escaped(byte: u8, stream: &mut Vec<u8>) -> Result<(), AllocError> {
    if byte == FLAG || byte == ESCAPE {
        stream.push(ESCAPE)?;
        stream.push(byte ^ ESCAPE_BIT)?;
    } else {
        stream.push(byte)?;
    }
    Ok(())
}

fn frame(alloc: Global, payload: &[u8]) -> Result<Vec<u8>, AllocError> {
    let mut stream = Vec::new(alloc);
    encode_ui(ADDRESS, payload, &mut stream)?;
    Ok(stream)
}

fn zeros(alloc: Global, count: usize, flag: usize) -> Result<Vec<u8>, AllocError> {
    let mut payload = vec![in alloc; 0u8; count]?;
    if flag < payload.len() {
        payload[flag] = FLAG;
    }
    frame(alloc, &payload)
}

fn write_packet(
    alloc: Global,
    ptype: PacketType,
    payload: &[u8],
    stream: &mut Vec<u8>,
) -> Result<(), AllocError> {
    let packet = Packet {
        ptype,
        name: CallName {
            channel: 1,
            service: ids::TRANSFER,
            method: ids::WRITE,
            call: 1,
        },
        payload: Bytes::copy_from_slice(alloc, payload)?,
        status: 0,
    };
    write_frame(alloc, &packet, stream)
}

// How many lines of calls a report has.
fn call_lines(report: Vec<u8>) -> Result<usize, AllocError> {
    let report = String::from_utf8(report).map_err(|_| AllocError)?;
    let mut count: usize = 0;
    for line in report.lines() {
        if line.starts_with("call ") {
            count = count.saturating_add(1);
        }
    }
    Ok(count)
}

// The first line of a report, where one more frame is valid than is counted here.
fn frames_line(alloc: Global, counted: Counted) -> Result<String, AllocError> {
    let [valid, bad, other, dropped] = counted;
    let valid = valid.saturating_add(1);
    format!(in alloc; "frames {valid} bad {bad} other {other} dropped {dropped}\n")
}

// The report of a stream begins with this line, and has so many lines of calls.
fn reports<R: Threads + Wait + Sync + Abort>(
    rt: &R,
    alloc: Global,
    row: &str,
    line: &str,
    stream: &[u8],
    frames: &str,
    calls: usize,
) -> Result<(), AllocError> {
    let Ran { status, output } = run_over(rt, alloc, line, stream)?;
    status_is(rt, row, status, 0);
    is_so(rt, row, output.starts_with(frames.as_bytes()));
    is_so(rt, row, output.ends_with(b"\ndone\n"));
    count_is(rt, row, call_lines(output)?, calls);
    Ok(())
}

// A damaged stream in front of a call is counted so, and the call is answered.
fn costs_its_segment<R: Threads + Wait + Sync + Abort>(
    rt: &R,
    alloc: Global,
    number: usize,
    row: &Row,
) -> Result<(), AllocError> {
    let (ref damage, counted, calls) = *row;
    let mut stream = stream_of(alloc, damage)?;
    stream.extend_from_slice(FIRST)?;
    let frames = frames_line(alloc, counted)?;
    let calls = calls.saturating_add(1);
    for line in ["replay", "crew 2"] {
        let row = row_of(alloc, line, number as u64)?;
        reports(
            rt,
            alloc,
            row.as_str(),
            line,
            &stream,
            frames.as_str(),
            calls,
        )?;
    }
    Ok(())
}

#[test]
fn damage_costs_its_segment_alone(rt: HostRuntime) -> Result<(), AllocError> {
    for (number, row) in ROWS.iter().enumerate() {
        costs_its_segment(&rt, rt.alloc(), number, row)?;
    }
    Ok(())
}
