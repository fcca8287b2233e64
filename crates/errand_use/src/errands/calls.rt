//! A call of a method by its names or its ids.

use super::checks::{gone_are, told};
use super::{one_link, run_client, store};
use bytes::Bytes;
use rpc_frames::write_frame;
use rpc_packet::{CallName, Packet, PacketType};
use std::alloc::{AllocError, Global};
use std::process::Abort;
use std::sync::Wait;
use std::thread::Threads;

// What a server says in the call: its packet's type, payload and status.
type Said = (PacketType, &'static [u8], u32);

const ECHO: u32 = 0x8B47_0EE9;

const COUNT: u32 = 0xB636_13B6;

const SUM: u32 = 0x0957_0BB8;

const CHAT: u32 = 0x9BA9_81BC;

const ECHOED: Said = (PacketType::Response, b"abc", 0);

const EMPTY: Said = (PacketType::Response, b"", 0);

const REFUSED: Said = (PacketType::Response, b"abc", 3);

const SUMMED: Said = (PacketType::Response, b"\x00\x02", 0);

const UNKNOWN: Said = (PacketType::ServerError, b"", 5);

const FIRST: Said = (PacketType::ServerStream, b"\x01", 0);

const SECOND: Said = (PacketType::ServerStream, b"", 0);

// The command, the id of the method, what the server says, the status, and what is written.
const CALLS: &[(&str, u32, &[Said], u8, &str)] = &[
    (
        "call p demo.Demo Echo unary 616263",
        ECHO,
        &[ECHOED],
        0,
        "message 616263\ncall OK 1\ndone\n",
    ),
    (
        "call p demo.Demo Echo unary -",
        ECHO,
        &[EMPTY],
        0,
        "message -\ncall OK 1\ndone\n",
    ),
    (
        "call p demo.Demo Echo unary 00",
        ECHO,
        &[REFUSED],
        9,
        "call INVALID_ARGUMENT 0\ndone\n",
    ),
    (
        "call p demo.Demo Echo unary 00 limit 65536",
        ECHO,
        &[UNKNOWN],
        9,
        "call NOT_FOUND 0\ndone\n",
    ),
    (
        "call p demo.Demo Echo unary 00",
        ECHO,
        &[],
        9,
        "call UNAVAILABLE 0\ndone\n",
    ),
    (
        "call p demo.Demo Count server 02",
        COUNT,
        &[FIRST, SECOND, EMPTY],
        0,
        "message 01\nmessage -\ncall OK 2\ndone\n",
    ),
    (
        "call p demo.Demo Count server 02 limit 1",
        COUNT,
        &[FIRST, SECOND],
        9,
        "message 01\ncall CANCELLED 1\ndone\n",
    ),
    (
        "call p 0x70f45cfb 0x8b470ee9 unary 616263 limit 1 within 3600000",
        ECHO,
        &[ECHOED],
        0,
        "message 616263\ncall OK 1\ndone\n",
    ),
    (
        "call p demo.Demo Sum client 0102 ff",
        SUM,
        &[SUMMED],
        0,
        "message 0002\ncall OK 1\ndone\n",
    ),
    (
        "call p demo.Demo Chat bidi",
        CHAT,
        &[FIRST, EMPTY],
        0,
        "message 01\ncall OK 1\ndone\n",
    ),
    (
        "call p demo.Demo Chat bidi - within 1",
        CHAT,
        &[UNKNOWN],
        9,
        "call NOT_FOUND 0\ndone\n",
    ),
];

// The frames of these packets in call 1 of a method of demo.Demo on channel 1.
fn frames(alloc: Global, method: u32, says: &[Said]) -> Result<Vec<u8>, AllocError> {
    let mut frames = Vec::new(alloc);
    for &(ptype, payload, status) in says {
        let packet = Packet {
            ptype,
            name: CallName {
                channel: 1,
                service: 0x70F4_5CFB,
                method,
                call: 1,
            },
            payload: Bytes::copy_from_slice(alloc, payload)?,
            status,
        };
        write_frame(alloc, &packet, &mut frames)?;
    }
    Ok(frames)
}

fn calls<R: Threads + Wait + Sync + Abort>(
    rt: &R,
    alloc: Global,
    line: &str,
    input: Vec<u8>,
    status: u8,
    written: &str,
    gone: usize,
) -> Result<(), AllocError> {
    let mut net = one_link(alloc, input)?;
    let ran = run_client(rt, alloc, line, &mut store(alloc, &[])?, &mut net, &[])?;
    told(rt, line, &ran, status, written.as_bytes());
    gone_are(rt, line, &net, gone);
    Ok(())
}

#[test]
fn a_call_tells_its_messages_and_its_end(rt: HostRuntime) -> Result<(), AllocError> {
    let alloc = rt.alloc();
    for &(line, method, says, status, written) in CALLS {
        calls(
            &rt,
            alloc,
            line,
            frames(alloc, method, says)?,
            status,
            written,
            1,
        )?;
    }
    Ok(())
}

// One message too many.
const MANY: &str =
    "call p demo.Demo Sum client 00 00 00 00 00 00 00 00 00 00 00 00 00 00 00 00 00 00 00 00 00 00 00 00 00 00 00 00 00 00 00 00 00 00 00 00 00 00 00 00 00 00 00 00 00 00 00 00 00 00 00 00 00 00 00 00 00 00 00 00 00 00 00 00 00";

// Words that ask for nothing.
const OTHERS: &[&str] = &[
    "call p demo.Demo Echo unary",
    "call p demo.Demo Echo unary 00 01",
    "call p demo.Demo Echo one 00",
    "call p demo.Demo Sum clients 00",
    "call p demo.Demo Sum client 000",
    "call p demo.Demo Chat bidi 00 within 0",
    "call p demo.Demo Chat bidi 00 within 3600001",
    "call p demo.Demo Chat bidi 00 within 1 limit 1",
    "call p demo.Demo Chat bidi within",
    "call p demo.Demo",
    "call p 0x70f45cf 0x8b470ee9 unary -",
    "call p 0x70f45cfb 0x00000000 unary -",
    "call p 0x70f45cfb 0x8b470eeg unary -",
    MANY,
    "call p demo.Demo Echo unary 0",
    "call p demo.Demo Echo unary 0g",
    "call p demo.Demo Echo unary 0A",
    "call p demo.Demo Echo unary --",
    "call p demo.Demo Echo unary 00 limit 0",
    "call p demo.Demo Echo unary 00 limit 65537",
    "call p demo.Demo Echo unary 00 limit 01",
    "call p demo.Demo Echo unary 00 most 1",
    "call p demo.Demo Echo unary 00 limit",
];

#[test]
fn other_words_call_nothing(rt: HostRuntime) -> Result<(), AllocError> {
    let alloc = rt.alloc();
    for line in OTHERS {
        calls(&rt, alloc, line, Vec::new(alloc), 2, "", 0)?;
    }
    Ok(())
}
