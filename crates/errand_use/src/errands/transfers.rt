//! A resource that is read behind what was left, and transfers whose link is shut.

use super::checks::{gone_are, is_so, told};
use super::{one_link, run_client, store};
use bytes::Bytes;
use demo_services::ids;
use rpc_frames::write_frame;
use rpc_packet::{CallName, Packet, PacketType};
use std::alloc::{AllocError, Global};
use std::process::Abort;
use std::sync::Wait;
use std::thread::Threads;
use transfer_chunk::ChunkRef;

// The command, and what is written.
const SHUT: &[(&str, &str)] = &[
    ("get p 7 0", "get 7 0 UNAVAILABLE 0\ndone\n"),
    ("get p 9 2", "get 9 2 UNAVAILABLE 0\ndone\n"),
    ("get p 9 16777216", "get 9 3 UNAVAILABLE 0\ndone\n"),
    ("put p 7 2", "put 7 2 UNAVAILABLE 0\ndone\n"),
    ("put p 7 16777216", "put 7 5 UNAVAILABLE 0\ndone\n"),
];

// Nothing comes over the link.
fn is_unavailable<R: Threads + Wait + Sync + Abort>(
    rt: &R,
    alloc: Global,
    line: &str,
    written: &str,
) -> Result<(), AllocError> {
    let mut net = one_link(alloc, Vec::new(alloc))?;
    let ran = run_client(rt, alloc, line, &mut store(alloc, &[])?, &mut net, &[])?;
    told(rt, line, &ran, 9, written.as_bytes());
    gone_are(rt, line, &net, 1);
    Ok(())
}

#[test]
fn a_transfer_whose_link_is_shut_is_told_as_unavailable(rt: HostRuntime) -> Result<(), AllocError> {
    for &(line, written) in SHUT {
        is_unavailable(&rt, rt.alloc(), line, written)?;
    }
    Ok(())
}

// A chunk of this type of session 1.
fn of(ctype: u64) -> ChunkRef<'static> {
    ChunkRef {
        ctype: Some(ctype),
        session: Some(1),
        ..ChunkRef::empty()
    }
}

// START_ACK from byte 3 on.
fn start_ack() -> ChunkRef<'static> {
    ChunkRef {
        version: Some(2),
        initial: 3,
        ..of(6)
    }
}

// The last bytes, `de`.
fn last() -> ChunkRef<'static> {
    ChunkRef {
        offset: 3,
        bytes: b"de",
        remaining: Some(0),
        ..of(0)
    }
}

// Appends the frame of a message of the server in call 1 of Read on channel 1 that is this chunk.
fn say(alloc: Global, chunk: &ChunkRef<'_>, frames: &mut Vec<u8>) -> Result<(), AllocError> {
    let mut text = Vec::new(alloc);
    chunk.write(&mut text)?;
    let packet = Packet {
        ptype: PacketType::ServerStream,
        name: CallName {
            channel: 1,
            service: ids::TRANSFER,
            method: ids::READ,
            call: 1,
        },
        payload: Bytes::copy_from_slice(alloc, &text)?,
        status: 0,
    };
    write_frame(alloc, &packet, frames)
}

// What a server says that sends the rest of resource 9, and knows that the client has it.
fn rest_of_nine(alloc: Global) -> Result<Vec<u8>, AllocError> {
    let mut frames = Vec::new(alloc);
    say(alloc, &start_ack(), &mut frames)?;
    say(alloc, &last(), &mut frames)?;
    say(alloc, &of(5), &mut frames)?;
    Ok(frames)
}

#[test]
fn a_resource_is_read_behind_what_was_left(rt: HostRuntime) -> Result<(), AllocError> {
    let alloc = rt.alloc();
    let mut net = one_link(alloc, rest_of_nine(alloc)?)?;
    let mut store = store(alloc, &[])?;
    let ran = run_client(&rt, alloc, "get p 9 400", &mut store, &mut net, &[])?;
    told(&rt, "get", &ran, 0, b"get 9 3 OK 5\ndone\n");
    let is_whole = match store.full(9) {
        Some(bytes) => bytes.as_slice() == b"abcde".as_slice(),
        None => false,
    };
    is_so(&rt, "it is whole", is_whole);
    is_so(&rt, "nothing is left", store.left(9).is_none());
    Ok(())
}
