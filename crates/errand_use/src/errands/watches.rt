//! A watch of a stream of messages.

use super::checks::{gone_are, told};
use super::{one_link, run_client, store};
use bytes::Bytes;
use rpc_frames::write_frame;
use rpc_packet::{CallName, Packet, PacketType};
use std::alloc::{AllocError, Global};
use std::process::Abort;
use std::sync::Wait;
use std::thread::Threads;

// What a server says in the call of Count: its packet's type, payload and status.
type Said = (PacketType, &'static [u8], u32);

const FIRST: Said = (PacketType::ServerStream, b"\x01", 0);

const SECOND: Said = (PacketType::ServerStream, b"\x02", 0);

const ENDED: Said = (PacketType::Response, b"", 0);

const REFUSED: Said = (PacketType::Response, b"", 3);

// The command, what the server says, the status, and what is written.
const WATCHES: &[(&str, &[Said], u8, &str)] = &[
    (
        "watch p 2 64",
        &[FIRST, SECOND, ENDED],
        0,
        "watch OK 2\ndone\n",
    ),
    ("watch p 2 1", &[FIRST], 9, "watch CANCELLED 1\ndone\n"),
    (
        "watch p 2 1",
        &[FIRST, SECOND],
        9,
        "watch CANCELLED 1\ndone\n",
    ),
    ("watch p 2 2", &[FIRST], 9, "watch UNAVAILABLE 1\ndone\n"),
    (
        "watch p 255 64",
        &[REFUSED],
        9,
        "watch INVALID_ARGUMENT 0\ndone\n",
    ),
];

// The frames of these packets in call 1 of Count on channel 1.
fn frames(alloc: Global, says: &[Said]) -> Result<Vec<u8>, AllocError> {
    let mut frames = Vec::new(alloc);
    for &(ptype, payload, status) in says {
        let packet = Packet {
            ptype,
            name: CallName {
                channel: 1,
                service: 0x70F4_5CFB,
                method: 0xB636_13B6,
                call: 1,
            },
            payload: Bytes::copy_from_slice(alloc, payload)?,
            status,
        };
        write_frame(alloc, &packet, &mut frames)?;
    }
    Ok(frames)
}

fn counts<R: Threads + Wait + Sync + Abort>(
    rt: &R,
    alloc: Global,
    line: &str,
    says: &[Said],
    status: u8,
    written: &str,
) -> Result<(), AllocError> {
    let mut net = one_link(alloc, frames(alloc, says)?)?;
    let ran = run_client(rt, alloc, line, &mut store(alloc, &[])?, &mut net, &[])?;
    told(rt, line, &ran, status, written.as_bytes());
    gone_are(rt, line, &net, 1);
    Ok(())
}

#[test]
fn a_watch_counts_until_the_end_or_its_limit(rt: HostRuntime) -> Result<(), AllocError> {
    for &(line, says, status, written) in WATCHES {
        counts(&rt, rt.alloc(), line, says, status, written)?;
    }
    Ok(())
}
