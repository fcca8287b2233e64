//! What a live client did, over devices in memory, with a board whose answers are all there before it asks.
ghost use Rattle.std.specs.Prelude.{◌≡◌, ◌<◌, ◌≤◌, false};
ghost use Rattle.live_client.specs.Ask.{CanAsk};

use bytes::Bytes;
use demo_services::ids::{COUNT, DEMO, READ, TRANSFER, WRITE};
use link_io::{Clock, Fulls, MemSink, MemSource, MemStore, Sink, Source, Still, Why};
use live_client::{LiveAsk, live};
use rpc_frames::write_frame;
use rpc_ids::Status;
use rpc_packet::{CallName, Packet, PacketType};
use std::alloc::{AllocError, Global};
use std::process::Abort;
use std::sync::Wait;
use std::test::Fail;
use std::thread::Threads;
use transfer_base::Ask;
use transfer_words::{WordRef, text_of};

mod calls;
mod facts;
mod frames;
mod silence;

use facts::Fact::{self, *};
use facts::hold;

// The resource that is fetched and sent.
const RESOURCE: u32 = 7;

// Writes a frame of the board in the one call of this method.
fn say(
    alloc: Global,
    service: u32,
    method: u32,
    ptype: PacketType,
    payload: Bytes,
    stream: &mut Vec<u8>,
) -> Result<(), AllocError> {
    say_status(alloc, service, method, ptype, payload, 0, stream)
}

// The same, with the number of a status.
fn say_status(
    alloc: Global,
    service: u32,
    method: u32,
    ptype: PacketType,
    payload: Bytes,
    status: u32,
    stream: &mut Vec<u8>,
) -> Result<(), AllocError> {
    let packet = Packet {
        ptype,
        name: CallName {
            channel: 1,
            service,
            method,
            call: 1,
        },
        payload,
        status,
    };
    write_frame(alloc, &packet, stream)
}

// The stream of Count: so many messages, and the end of the call where it is told.
fn counted(alloc: Global, messages: u8, told: bool) -> Result<Vec<u8>, AllocError> {
    let mut stream = Vec::new(alloc);
    for message in 0..messages {
        let payload = Bytes::copy_from_slice(alloc, &[message])?;
        say(
            alloc,
            DEMO,
            COUNT,
            PacketType::ServerStream,
            payload,
            &mut stream,
        )?;
    }
    if told {
        say(
            alloc,
            DEMO,
            COUNT,
            PacketType::Response,
            Bytes::new(),
            &mut stream,
        )?;
    }
    Ok(stream)
}

// Writes frames with these words of session 1 of a transfer by this method. A window that ends past all numbers is left out.
fn say_words(
    alloc: Global,
    method: u32,
    ptype: PacketType,
    words: &[WordRef<'static>],
    stream: &mut Vec<u8>,
) -> Result<(), AllocError> {
    for word in words {
        if let WordRef::Parameters(ask) | WordRef::Confirmation(ask) = *word {
            if ask.window_end > 4_294_967_295 {
                continue;
            }
        }
        let text = text_of(alloc, 1, *word)?;
        say(alloc, TRANSFER, method, ptype, text, stream)?;
    }
    Ok(())
}

// What the board says in a transfer by this method.
fn told(alloc: Global, method: u32, words: &[WordRef<'static>]) -> Result<Vec<u8>, AllocError> {
    let mut stream = Vec::new(alloc);
    say_words(alloc, method, PacketType::ServerStream, words, &mut stream)?;
    Ok(stream)
}

// `0123456789` from the start, in two chunks, and that the board knows the end.
const FETCHED: &[WordRef<'static>] = &[
    WordRef::StartAck { offset: 0 },
    WordRef::Data {
        offset: 0,
        bytes: b"012345",
        last: false,
    },
    WordRef::Data {
        offset: 6,
        bytes: b"6789",
        last: true,
    },
    WordRef::CompletionAck,
];

// The same, of a board that closes behind the last chunk.
const UNACKNOWLEDGED: &[WordRef<'static>] = &[
    WordRef::StartAck { offset: 0 },
    WordRef::Data {
        offset: 0,
        bytes: b"0123456789",
        last: true,
    },
];

// The board takes all of it.
const TAKEN: &[WordRef<'static>] = &[
    WordRef::StartAck { offset: 0 },
    WordRef::Parameters(Ask {
        again: true,
        offset: 0,
        window_end: 64,
        max_chunk: 16,
    }),
    WordRef::Completion(Status::Okay),
];

// Of what a client does over these ends of a link and by this clock, with an empty store, these facts hold.
fn does_over<R: Threads + Wait + Sync + Abort, I: Source + Send, O: Sink + Send, C: Clock + Send>(
    rt: &R,
    alloc: Global,
    link_in: &mut I,
    link_out: &mut O,
    clock: &mut C,
    ask: LiveAsk,
    facts: &[Fact],
) -> Result<(), Fail>
    requires ask { CanAsk ask }
    requires open { O.finished link_out.old ≡ false }
{
    let mut store = MemStore::new(alloc, Fulls::new(alloc), Fulls::new(alloc), Vec::new(alloc))?;
    let did = live(rt, alloc, link_in, link_out, &mut store, clock, ask)?;
    hold(rt, &did, facts);
    Ok(())
}

// The same over this input, whose reads with these numbers fail, and an output whose writes with these numbers fail.
fn does_failing<R: Threads + Wait + Sync + Abort>(
    rt: &R,
    alloc: Global,
    link: (Vec<u8>, &[u64], &[u64]),
    ask: LiveAsk,
    facts: &[Fact],
) -> Result<(), Fail>
    requires { CanAsk ask }
{
    let (input, reads, writes) = link;
    let mut link_in = MemSource::new(input, Vec::from_slice(alloc, reads)?);
    let mut link_out = MemSink::new(Vec::new(alloc), Vec::from_slice(alloc, writes)?);
    does_over(
        rt,
        alloc,
        &mut link_in,
        &mut link_out,
        &mut Still::new(),
        ask,
        facts,
    )
}

// The same over this input, where nothing fails.
fn does<R: Threads + Wait + Sync + Abort>(
    rt: &R,
    alloc: Global,
    input: Vec<u8>,
    ask: LiveAsk,
    facts: &[Fact],
) -> Result<(), Fail>
    requires { CanAsk ask }
{
    does_failing(rt, alloc, (input, &[], &[]), ask, facts)
}

fn fetch(offset: u64) -> LiveAsk
    requires { offset ≤ 16777216 }
    ensures { CanAsk result }
{
    LiveAsk::Get {
        resource: RESOURCE,
        offset,
    }
}

fn watch(limit: u32) -> LiveAsk
    requires { (0 < limit) × (limit ≤ 64) }
    ensures { CanAsk result }
{
    LiveAsk::Watch { n: 2, limit }
}

// The store has these bytes of the resource.
fn stores(rt: &impl Abort, store: &MemStore, wanted: &[u8]) -> Result<(), Fail> {
    match store.full(RESOURCE) {
        Some(bytes) => assert_eq!(rt; bytes.as_slice(), wanted),
        None => return Err(Fail::new(format_args!("nothing is stored"))),
    }
    Ok(())
}

const TEN_BYTES: &[Fact] = &[
    Stopped(Why::Settled),
    Ended(Status::Okay),
    From(0),
    Length(10),
];

// A fetch over this input, whose store is in the test's hands.
fn fetches_into<R: Threads + Wait + Sync + Abort>(
    rt: &R,
    alloc: Global,
    input: Vec<u8>,
    store: &mut MemStore,
    facts: &[Fact],
) -> Result<(), Fail> {
    let mut link_in = MemSource::new(input, Vec::new(alloc));
    let mut link_out = MemSink::new(Vec::new(alloc), Vec::new(alloc));
    let clock = &mut Still::new();
    let did = live(
        rt,
        alloc,
        &mut link_in,
        &mut link_out,
        store,
        clock,
        fetch(0),
    )?;
    hold(rt, &did, facts);
    Ok(())
}

#[test]
fn a_resource_is_fetched(rt: HostRuntime) -> Result<(), Fail> {
    let alloc = rt.alloc();
    let input = told(alloc, READ, FETCHED)?;
    let mut store = MemStore::new(alloc, Fulls::new(alloc), Fulls::new(alloc), Vec::new(alloc))?;
    fetches_into(&rt, alloc, input, &mut store, TEN_BYTES)?;
    stores(&rt, &store, b"0123456789")
}

#[test]
fn a_resource_is_sent(rt: HostRuntime) -> Result<(), Fail> {
    let alloc = rt.alloc();
    let ask = LiveAsk::Put {
        resource: RESOURCE,
        offset: 0,
        bytes: Bytes::from_static(b"0123456789"),
    };
    does(&rt, alloc, told(alloc, WRITE, TAKEN)?, ask, TEN_BYTES)
}

// Nothing of a resource came.
const UNAVAILABLE: &[Fact] = &[Stopped(Why::Settled), Ended(Status::Unavailable), Length(0)];

#[test]
fn a_board_that_closes_is_unavailable(rt: HostRuntime) -> Result<(), Fail> {
    let alloc = rt.alloc();
    let mut half = told(alloc, READ, FETCHED)?;
    half.truncate(half.len() / 2);
    does(&rt, alloc, Vec::new(alloc), fetch(3), UNAVAILABLE)?;
    does(&rt, alloc, half, fetch(3), UNAVAILABLE)
}

const ALL_OF_IT: &[Fact] = &[
    Stopped(Why::Settled),
    Ended(Status::Unavailable),
    Length(10),
];

#[test]
fn a_board_that_closes_behind_the_last_chunk_has_sent_all_of_it(
    rt: HostRuntime,
) -> Result<(), Fail> {
    let input = told(rt.alloc(), READ, UNACKNOWLEDGED)?;
    does(&rt, rt.alloc(), input, fetch(0), ALL_OF_IT)
}

const TWO_TO_THE_END: &[Fact] = &[Stopped(Why::Settled), Ended(Status::Okay), Kept(2)];

#[test]
fn a_stream_is_watched_to_its_end(rt: HostRuntime) -> Result<(), Fail> {
    let input = counted(rt.alloc(), 2, true)?;
    does(&rt, rt.alloc(), input, watch(64), TWO_TO_THE_END)
}

const ONE_AND_CANCELLED: &[Fact] = &[Stopped(Why::Settled), Kept(1), Ended(Status::Cancelled)];

const SIXTY_THREE_AND_CANCELLED: &[Fact] = &[
    Stopped(Why::Settled),
    Kept(63),
    Ended(Status::Cancelled),
];

const SIXTY_FOUR_AND_CANCELLED: &[Fact] = &[
    Stopped(Why::Settled),
    Kept(64),
    Ended(Status::Cancelled),
];

// A watch of a stream of so many messages, whose end isn't told, up to a limit.
fn watches<R: Threads + Wait + Sync + Abort>(
    rt: &R,
    messages: u8,
    limit: u32,
    alloc: Global,
    facts: &[Fact],
) -> Result<(), Fail>
    requires { (0 < limit) × (limit ≤ 64) }
{
    let input = counted(alloc, messages, false)?;
    does(rt, alloc, input, watch(limit), facts)
}

#[test]
fn a_watch_is_cancelled_at_its_limit(rt: HostRuntime) -> Result<(), Fail> {
    watches(&rt, 1, 1, rt.alloc(), ONE_AND_CANCELLED)?;
    watches(&rt, 64, 63, rt.alloc(), SIXTY_THREE_AND_CANCELLED)?;
    watches(&rt, 64, 64, rt.alloc(), SIXTY_FOUR_AND_CANCELLED)
}

const A_FAULT_BEHIND_ONE: &[Fact] = &[Stopped(Why::Source), Ended(Status::Unavailable), Kept(1)];

#[test]
fn a_fault_of_the_source_ends_the_input(rt: HostRuntime) -> Result<(), Fail> {
    let input = counted(rt.alloc(), 1, false)?;
    does_failing(
        &rt,
        rt.alloc(),
        (input, &[2], &[]),
        watch(64),
        A_FAULT_BEHIND_ONE,
    )
}

const A_FAULT_OF_THE_SINK: &[Fact] = &[Stopped(Why::Sink)];

#[test]
fn a_fault_of_the_sink_halts(rt: HostRuntime) -> Result<(), Fail> {
    let input = counted(rt.alloc(), 1, true)?;
    does_failing(
        &rt,
        rt.alloc(),
        (input, &[], &[1]),
        watch(64),
        A_FAULT_OF_THE_SINK,
    )
}
