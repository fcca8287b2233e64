//! Calls of methods, whose messages are kept.
ghost use Rattle.std.specs.Prelude.{◌≢◌, ◌<◌, ◌≤◌, IfOk};
ghost use Rattle.live_client.specs.Ask.{CanAsk};

use super::does;
use super::facts::Fact::{self, *};
use bytes::Bytes;
use demo_services::ids::{CHAT, COUNT, DEMO, ECHO, SUM};
use link_io::Why;
use live_client::{LiveAsk, Messages, Opening};
use rpc_frames::write_frame;
use rpc_ids::{Kind, Status};
use rpc_packet::{CallName, Packet, PacketType};
use std::alloc::{AllocError, Global};
use std::process::Abort;
use std::sync::Wait;
use std::test::Fail;
use std::thread::Threads;

// What the board says in the one call: the type, the number of the status, and the payload.
type Answer = (PacketType, u32, &'static [u8]);

const ECHOED: &[Answer] = &[(PacketType::Response, 0, b"abc")];

const EMPTY: &[Answer] = &[(PacketType::Response, 0, b"")];

const UNKNOWN: &[Answer] = &[(PacketType::ServerError, 5, b"")];

// An end that tells no message, and what a unary method should not say.
const REFUSED: &[Answer] = &[(PacketType::Response, 3, b"abc")];

const STREAMED: &[Answer] = &[(PacketType::ServerStream, 0, b"abc")];

const COUNTED: &[Answer] = &[
    (PacketType::ServerStream, 0, b"1"),
    (PacketType::ServerStream, 0, b""),
    (PacketType::ServerStream, 0, b"3"),
    (PacketType::Response, 0, b""),
];

// The frames of these answers in the call of a method of demo.Demo.
fn answers(alloc: Global, method: u32, rows: &[Answer]) -> Result<Vec<u8>, AllocError> {
    let mut stream = Vec::new(alloc);
    for (ptype, status, payload) in rows {
        let packet = Packet {
            ptype: *ptype,
            name: CallName {
                channel: 1,
                service: DEMO,
                method,
                call: 1,
            },
            payload: Bytes::from_static(payload),
            status: *status,
        };
        write_frame(alloc, &packet, &mut stream)?;
    }
    Ok(stream)
}

fn echo(alloc: Global) -> LiveAsk
    ensures { CanAsk result }
{
    LiveAsk::Call {
        opening: Opening {
            service: DEMO,
            method: ECHO,
            kind: Kind::Unary,
            payload: Bytes::from_static(b"abc"),
            messages: Messages::new(alloc),
        },
        limit: 65_536,
        within: None,
    }
}

fn count(alloc: Global, limit: u32) -> LiveAsk
    requires { (0 < limit) × (limit ≤ 65536) }
    ensures { CanAsk result }
{
    LiveAsk::Call {
        opening: Opening {
            service: DEMO,
            method: COUNT,
            kind: Kind::ServerStream,
            payload: Bytes::from_static(b"\x03"),
            messages: Messages::new(alloc),
        },
        limit,
        within: None,
    }
}

// A call that streams two messages, and waits for so many milliseconds.
pub(super) fn stream(
    alloc: Global,
    method: u32,
    kind: Kind,
    within: Option<u32>,
) -> Result<LiveAsk, AllocError>
    requires { method ≢ 0 }
    ensures { IfOk result CanAsk }
{
    let mut messages = Messages::new(alloc);
    if matches!(kind, Kind::ClientStream | Kind::Bidi) {
        messages.push(Bytes::from_static(b"\x01\x02"))?;
        messages.push(Bytes::from_static(b"\xFF"))?;
    }
    Ok(LiveAsk::Call {
        opening: Opening {
            service: DEMO,
            method,
            kind,
            payload: Bytes::new(),
            messages,
        },
        limit: 65_536,
        within,
    })
}

// Of what a client does that was asked this, and is answered so in the one call of a method, these facts hold.
fn calls<R: Threads + Wait + Sync + Abort>(
    rt: &R,
    alloc: Global,
    method: u32,
    says: &[Answer],
    ask: LiveAsk,
    facts: &[Fact],
) -> Result<(), Fail>
    requires { CanAsk ask }
{
    does(rt, alloc, answers(alloc, method, says)?, ask, facts)
}

/// What the board says in a call of Echo, and what holds of the call then.
type Case = (&'static [Answer], &'static [Fact]);

fn each_echoes<R: Threads + Wait + Sync + Abort>(
    rt: &R,
    alloc: Global,
    cases: &[Case],
) -> Result<(), Fail> {
    for (says, facts) in cases {
        calls(rt, alloc, ECHO, says, echo(alloc), facts)?;
    }
    Ok(())
}

const KEPT: &[Case] = &[
    (
        ECHOED,
        &[
            Stopped(Why::Settled),
            Ended(Status::Okay),
            Messages(&[b"abc"]),
        ],
    ),
    (
        EMPTY,
        &[Stopped(Why::Settled), Ended(Status::Okay), Messages(&[b""])],
    ),
];

#[test]
fn a_unary_call_keeps_its_response(rt: HostRuntime) -> Result<(), Fail> {
    each_echoes(&rt, rt.alloc(), KEPT)
}

const ENDED: &[Case] = &[
    (
        UNKNOWN,
        &[
            Stopped(Why::Settled),
            Ended(Status::NotFound),
            Messages(&[]),
        ],
    ),
    (
        REFUSED,
        &[
            Stopped(Why::Settled),
            Ended(Status::InvalidArgument),
            Messages(&[]),
        ],
    ),
    (
        STREAMED,
        &[
            Stopped(Why::Settled),
            Ended(Status::InvalidArgument),
            Messages(&[]),
        ],
    ),
    (
        &[],
        &[
            Stopped(Why::Settled),
            Ended(Status::Unavailable),
            Messages(&[]),
        ],
    ),
];

#[test]
fn a_unary_call_ends_as_the_board_says(rt: HostRuntime) -> Result<(), Fail> {
    each_echoes(&rt, rt.alloc(), ENDED)
}

const IN_ORDER: &[Fact] = &[
    Stopped(Why::Settled),
    Ended(Status::Okay),
    Messages(&[b"1", b"", b"3"]),
];

#[test]
fn a_stream_is_kept_in_order(rt: HostRuntime) -> Result<(), Fail> {
    let alloc = rt.alloc();
    let ask = count(alloc, 65_536);
    calls(&rt, alloc, COUNT, COUNTED, ask, IN_ORDER)
}

const UP_TO_THE_LIMIT: &[Fact] = &[Messages(&[b"1", b""])];

#[test]
fn a_call_is_cancelled_at_its_limit(rt: HostRuntime) -> Result<(), Fail> {
    let alloc = rt.alloc();
    calls(&rt, alloc, COUNT, COUNTED, count(alloc, 2), UP_TO_THE_LIMIT)
}

// The sum of what was streamed, and two answers to it.
const SUMMED: &[Answer] = &[(PacketType::Response, 0, b"\x00\x02")];

const CHATTED: &[Answer] = &[
    (PacketType::ServerStream, 0, b"\x01\x02"),
    (PacketType::ServerStream, 0, b"\xFF"),
    (PacketType::Response, 0, b""),
];

const A_SUM: &[Fact] = &[
    Stopped(Why::Settled),
    Ended(Status::Okay),
    Messages(&[b"\x00\x02"]),
];

const A_CHAT: &[Fact] = &[
    Stopped(Why::Settled),
    Ended(Status::Okay),
    Messages(&[b"\x01\x02", b"\xFF"]),
];

#[test]
fn a_stream_of_messages_is_answered(rt: HostRuntime) -> Result<(), Fail> {
    let alloc = rt.alloc();
    let ask = stream(alloc, SUM, Kind::ClientStream, None)?;
    calls(&rt, alloc, SUM, SUMMED, ask, A_SUM)?;
    let ask = stream(alloc, CHAT, Kind::Bidi, None)?;
    calls(&rt, alloc, CHAT, CHATTED, ask, A_CHAT)
}
