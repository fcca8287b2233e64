//! What a transfer says to its board, frame by frame.
ghost use Rattle.live_client.specs.Ask.{CanAsk};

use super::{FETCHED, RESOURCE, does_over, fetch, say, say_words, told};
use bytes::Bytes;
use demo_services::ids::{READ, TRANSFER, WRITE};
use link_io::{MemSink, MemSource, Still};
use live_client::LiveAsk;
use rpc_ids::Status;
use rpc_packet::PacketType;
use std::alloc::{AllocError, Global};
use std::process::Abort;
use std::sync::Wait;
use std::test::Fail;
use std::thread::Threads;
use transfer_base::Ask;
use transfer_words::WordRef;

// Two chunks as the board takes them, of which the first has 32 bytes.
const CONTENT: &[u8] = b"0123456789abcdefghijklmnopqrstuvwxyzABCD";

// The board takes all of it.
const ACCEPTED: &[WordRef<'static>] = &[
    WordRef::StartAck { offset: 0 },
    WordRef::Parameters(Ask {
        again: true,
        offset: 0,
        window_end: 64,
        max_chunk: 32,
    }),
    WordRef::Completion(Status::Okay),
];

// All that a put says: what it asks for, that it knows the board's answer, the content, and that it knows the end.
const SENT: &[WordRef<'static>] = &[
    WordRef::Start {
        resource: RESOURCE,
        offset: 0,
    },
    WordRef::Confirmation(Ask {
        again: true,
        offset: 0,
        window_end: 0,
        max_chunk: 0,
    }),
    WordRef::Data {
        offset: 0,
        bytes: b"0123456789abcdefghijklmnopqrstuv",
        last: false,
    },
    WordRef::Data {
        offset: 32,
        bytes: b"wxyzABCD",
        last: true,
    },
    WordRef::CompletionAck,
];

// All that a fetch says: what it asks for, its first window, and that it has all of it.
const ASKED: &[WordRef<'static>] = &[
    WordRef::Start {
        resource: RESOURCE,
        offset: 0,
    },
    WordRef::Confirmation(Ask {
        again: true,
        offset: 0,
        window_end: 1_024,
        max_chunk: 256,
    }),
    WordRef::Completion(Status::Okay),
];

// The request of a method, and these words of the client behind it.
fn asked(alloc: Global, method: u32, words: &[WordRef<'static>]) -> Result<Vec<u8>, AllocError> {
    let mut stream = Vec::new(alloc);
    say(
        alloc,
        TRANSFER,
        method,
        PacketType::Request,
        Bytes::new(),
        &mut stream,
    )?;
    say_words(alloc, method, PacketType::ClientStream, words, &mut stream)?;
    Ok(stream)
}

// The link of a client that was asked this, once it has read this input.
fn writes<R: Threads + Wait + Sync + Abort>(
    rt: &R,
    alloc: Global,
    input: Vec<u8>,
    ask: LiveAsk,
) -> Result<MemSink, Fail>
    requires { CanAsk ask }
{
    let mut link_in = MemSource::new(input, Vec::new(alloc));
    let mut link_out = MemSink::new(Vec::new(alloc), Vec::new(alloc));
    does_over(
        rt,
        alloc,
        &mut link_in,
        &mut link_out,
        &mut Still::new(),
        ask,
        &[],
    )?;
    Ok(link_out)
}

pub(super) fn bytes_are(rt: &impl Abort, bytes: &[u8], wanted: &[u8]) {
    assert_eq!(rt; bytes, wanted);
}

#[test]
fn a_put_says_what_it_sends(rt: HostRuntime) -> Result<(), Fail> {
    let alloc = rt.alloc();
    let wanted = asked(alloc, WRITE, SENT)?;
    let ask = LiveAsk::Put {
        resource: RESOURCE,
        offset: 0,
        bytes: Bytes::from_static(CONTENT),
    };
    let link_out = writes(&rt, alloc, told(alloc, WRITE, ACCEPTED)?, ask)?;
    bytes_are(&rt, link_out.bytes(), &wanted);
    Ok(())
}

#[test]
fn a_fetch_says_what_it_has(rt: HostRuntime) -> Result<(), Fail> {
    let alloc = rt.alloc();
    let wanted = asked(alloc, READ, ASKED)?;
    let link_out = writes(&rt, alloc, told(alloc, READ, FETCHED)?, fetch(0))?;
    bytes_are(&rt, link_out.bytes(), &wanted);
    Ok(())
}
