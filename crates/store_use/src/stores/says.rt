//! What a client and a server say of an upload, chunk by chunk.

use self::Says::*;
use bytes::Bytes;
use demo_services::ids;
use rpc_frames::write_frame;
use rpc_packet::{CallName, Packet, PacketType};
use std::alloc::{AllocError, Global};
use transfer_chunk::ChunkRef;

/// A chunk of a session, which is the first number of each.
pub(super) enum Says {
    /// START of a resource, from an offset on; and one of version 1.
    Start(u32, u32, u64),
    OldStart(u32, u32),
    /// START_ACK with an offset, and its confirmation.
    StartAck(u32, u64),
    Confirmation(u32),
    /// A confirmation that tells no version.
    BareConfirmation(u32),
    /// DATA at an offset behind which more comes, and the last.
    Data(u32, u64, &'static [u8]),
    Rest(u32, u64, &'static [u8]),
    /// DATA that tells how many bytes come behind it.
    DataBefore(u32, u64, &'static [u8], u64),
    /// PARAMETERS_RETRANSMIT of chunks of 256 bytes: the offset, and the end of the window.
    Asks(u32, u64, u32),
    /// COMPLETION with a status, and its acknowledgment.
    Completed(u32, u32),
    Seen(u32),
}

// A chunk of this type of a session.
fn of(ctype: u64, session: u32) -> ChunkRef<'static> {
    ChunkRef {
        ctype: Some(ctype),
        session: Some(session),
        ..ChunkRef::empty()
    }
}

fn opening(session: u32, resource: u32, initial: u64, version: u32) -> ChunkRef<'static> {
    ChunkRef {
        ctype: Some(1),
        resource: Some(resource),
        version: Some(version),
        desired: Some(session),
        initial,
        ..ChunkRef::empty()
    }
}

fn part(
    session: u32,
    offset: u64,
    bytes: &'static [u8],
    remaining: Option<u64>,
) -> ChunkRef<'static> {
    ChunkRef {
        offset,
        bytes,
        remaining,
        ..of(0, session)
    }
}

// START_ACK, or its confirmation.
fn agreed(ctype: u64, session: u32, initial: u64) -> ChunkRef<'static> {
    ChunkRef {
        version: Some(2),
        initial,
        ..of(ctype, session)
    }
}

fn chunk(says: &Says) -> ChunkRef<'static> {
    match *says {
        Start(session, resource, initial) => opening(session, resource, initial, 2),
        OldStart(session, resource) => opening(session, resource, 0, 1),
        StartAck(session, initial) => agreed(6, session, initial),
        Confirmation(session) => agreed(7, session, 0),
        BareConfirmation(session) => of(7, session),
        Data(session, offset, bytes) => part(session, offset, bytes, None),
        Rest(session, offset, bytes) => part(session, offset, bytes, Some(0)),
        DataBefore(session, offset, bytes, remaining) => {
            part(session, offset, bytes, Some(remaining))
        }
        Asks(session, offset, window_end) => ChunkRef {
            offset,
            window_end,
            max_chunk: Some(256),
            ..of(2, session)
        },
        Completed(session, status) => ChunkRef {
            status: Some(status),
            ..of(4, session)
        },
        Seen(session) => of(5, session),
    }
}

// Appends the frame of a packet of the method Write, channel 1, call 1.
fn write_packet(
    alloc: Global,
    ptype: PacketType,
    payload: &[u8],
    stream: &mut Vec<u8>,
) -> Result<(), AllocError> {
    let packet = Packet {
        ptype,
        name: CallName {
            channel: 1,
            service: ids::TRANSFER,
            method: ids::WRITE,
            call: 1,
        },
        payload: Bytes::copy_from_slice(alloc, payload)?,
        status: 0,
    };
    write_frame(alloc, &packet, stream)
}

// Appends the frame of a message that is this chunk.
fn write_chunk(
    alloc: Global,
    ptype: PacketType,
    chunk: &ChunkRef<'_>,
    stream: &mut Vec<u8>,
) -> Result<(), AllocError> {
    let mut text = Vec::new(alloc);
    chunk.write(&mut text)?;
    write_packet(alloc, ptype, &text, stream)
}

/// The frames of messages that are these chunks, and what a client says behind its REQUEST.
pub(super) fn frames(
    alloc: Global,
    ptype: PacketType,
    says: &[Says],
) -> Result<Vec<u8>, AllocError> {
    let mut stream = Vec::new(alloc);
    if ptype == PacketType::ClientStream {
        write_packet(alloc, PacketType::Request, b"", &mut stream)?;
    }
    for each in says {
        write_chunk(alloc, ptype, &chunk(each), &mut stream)?;
    }
    Ok(stream)
}
