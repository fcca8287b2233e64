//! What a client makes of packets, and journals of a client, judged.

use crate::world::Method::*;
use crate::world::Step::*;
use crate::world::{Asked, Case, Method, Step, World, each_found, found, judged};
use link_io::Why;
use rpc_ids::{Role, Status};
use rpc_journal::Broken::*;
use rpc_journal::Journal;
use rpc_journal::table::{CallState, CallStates, Move, move_at};
use rpc_packet::Packet;
use rpc_packet::PacketType::{self, *};
use std::alloc::AllocError;
use std::process::Abort;
use std::test::Fail;

// A client opens a call of this method.
fn open(w: &World, states: &mut CallStates, method: Method) -> Result<(), AllocError> {
    states.room_for(1)?;
    let name = w.packet(1, 1, Request, method).name;
    let state = CallState::invoked(w.alloc, name, w.method(method))?;
    states.invoke(state)
}

// A client that has opened call 0 of Echo, 1 of Count, 2 of Sum and 3 of Chat.
fn four_calls(w: &World) -> Result<CallStates, AllocError> {
    let mut states = CallStates::new(w.alloc);
    open(w, &mut states, Echo)?;
    open(w, &mut states, Count)?;
    open(w, &mut states, Sum)?;
    open(w, &mut states, Chat)?;
    Ok(states)
}

// A packet of this channel, call, type, method and status, and what the client with four calls makes of it.
type MoveRow = (u32, u32, PacketType, Method, u32, Move);

const MOVES: &[MoveRow] = &[
    // The channel isn't in.
    (9, 1, ServerStream, Chat, 0, Move::Drop),
    // There is no such method, or no live call of the name.
    (1, 1, ServerStream, Unknown, 0, Move::Stray),
    (1, 7, ServerStream, Chat, 0, Move::Stray),
    (1, 7, Response, Chat, 0, Move::Drop),
    (2, 1, ServerError, Chat, 0, Move::Drop),
    // SERVER_STREAM to a method with and without a server stream.
    (1, 1, ServerStream, Count, 0, Move::Queue(1)),
    (1, 1, ServerStream, Chat, 0, Move::Queue(3)),
    (1, 1, ServerStream, Echo, 0, Move::Refuse(0)),
    (1, 1, ServerStream, Sum, 0, Move::Refuse(2)),
    // RESPONSE with and without an error.
    (1, 1, Response, Echo, 0, Move::Answer(0, Status::Okay)),
    (1, 1, Response, Sum, 0, Move::Answer(2, Status::Okay)),
    (1, 1, Response, Echo, 5, Move::End(0, Status::NotFound)),
    (1, 1, Response, Count, 0, Move::End(1, Status::Okay)),
    (1, 1, Response, Chat, 5, Move::End(3, Status::NotFound)),
    (1, 1, ServerError, Sum, 13, Move::End(2, Status::Internal)),
    (1, 1, ServerError, Chat, 0, Move::End(3, Status::Okay)),
];

fn move_is(rt: &impl Abort, w: &World, states: &CallStates, row: &MoveRow, at: usize) {
    let (channel, call, ptype, method, status, want) = *row;
    let packet = Packet {
        status,
        ..w.packet(channel, call, ptype, method)
    };
    let made = move_at(Role::Client, states, &packet, &w.channels, &w.registry);
    assert_eq!(rt; made, want, "row {at}");
}

#[test]
fn each_row_of_the_client_table(rt: HostRuntime) -> Result<(), Fail> {
    let w = World::new(rt.alloc(), Role::Client)?;
    let states = four_calls(&w)?;
    for (at, row) in MOVES.iter().enumerate() {
        move_is(&rt, &w, &states, row, at);
    }
    Ok(())
}

// A packet with a status to a new call, how many events wait behind it, and how many items behind the REQUEST.
type WaitRow = (Method, PacketType, u32, u32, u32);

const WAITS: &[WaitRow] = &[
    (Echo, Response, 0, 2, 0),
    (Echo, Response, 5, 1, 0),
    (Echo, ServerStream, 0, 1, 1),
    (Echo, ServerError, 5, 1, 0),
    (Chat, Response, 0, 1, 0),
    (Chat, ServerStream, 0, 1, 0),
];

// So many flushes.
fn flush_often(w: &World, journal: &mut Journal, count: u32) -> Result<(), AllocError> {
    for _ in 0..count {
        w.step(journal, Flush)?;
    }
    Ok(())
}

// So many runs of call 0.
fn run_often(w: &World, journal: &mut Journal, count: u32) -> Result<(), AllocError> {
    for _ in 0..count {
        w.step(journal, Start(2, 0))?;
        w.step(journal, Finish(2, 0))?;
    }
    Ok(())
}

fn waits(rt: &impl Abort, w: &World, row: &WaitRow, at: usize) -> Result<(), AllocError> {
    let (method, ptype, status, events, items) = *row;
    let mut journal = Journal::new(w.alloc);
    w.step(&mut journal, Opens(method))?;
    w.step(&mut journal, ComesWith(status, ptype, method))?;
    w.step(&mut journal, Flush)?;
    flush_often(w, &mut journal, items)?;
    run_often(w, &mut journal, events)?;
    let next = journal.len();
    w.step(&mut journal, Start(2, 0))?;
    judged(rt, w, &journal, Some((next, NotReady)), at);
    Ok(())
}

#[test]
fn what_waits_and_goes_out_as_a_packet_comes(rt: HostRuntime) -> Result<(), Fail> {
    let w = World::new(rt.alloc(), Role::Client)?;
    for (at, row) in WAITS.iter().enumerate() {
        waits(&rt, &w, row, at)?;
    }
    Ok(())
}

const STREAM: &[Step] = &[Opens(Chat), Says(0, 1), Done(0), Flush, Flush, Flush, Flush];

#[test]
fn a_client_says_its_stream_to_the_end(rt: HostRuntime) -> Result<(), Fail> {
    let w = World::new(rt.alloc(), Role::Client)?;
    found(&rt, &w, &[], STREAM, Some((6, Nothing)), 0);
    Ok(())
}

const ANSWERS: &[Case] = &[
    // An OK completes the stream of a call, once; the call lives on.
    (
        &[
            Opens(Chat),
            Comes(ServerStream, Chat),
            Start(2, 0),
            Ends(Some(Status::Okay)),
            Done(0),
        ],
        Some((4, Refused)),
    ),
    (
        &[
            Opens(Chat),
            Comes(ServerStream, Chat),
            Start(2, 0),
            Ends(None),
            Done(0),
        ],
        None,
    ),
    (
        &[
            Opens(Count),
            Comes(ServerStream, Count),
            Start(2, 0),
            Ends(Some(Status::Okay)),
            Replace(3, 0),
        ],
        None,
    ),
    // An error ends the call.
    (
        &[
            Opens(Chat),
            Comes(ServerStream, Chat),
            Start(2, 0),
            Ends(Some(Status::Internal)),
            Replace(3, 0),
        ],
        Some((4, Refused)),
    ),
];

#[test]
fn an_answer_of_a_client_ends_its_call_or_its_stream(rt: HostRuntime) -> Result<(), Fail> {
    let w = World::new(rt.alloc(), Role::Client)?;
    each_found(&rt, &w, &[], ANSWERS);
    Ok(())
}

const ONE_FOR_EACH_RULE: &[Case] = &[
    (&[Opens(Chat), FlushBy(2)], Some((1, Seat))),
    (&[EndIn(0), Comes(Response, Chat)], Some((1, AfterEnd))),
    (&[Opens(Chat), Done(1)], Some((1, UnknownCall))),
    (&[Opens(Chat), Start(2, 0)], Some((1, NotReady))),
    (&[Opens(Chat), Finish(2, 0)], Some((1, NotRunning))),
    (&[Tick(5), Flush], Some((1, Nothing))),
];

#[test]
fn one_wrong_client_journal_for_each_rule(rt: HostRuntime) -> Result<(), Fail> {
    let w = World::new(rt.alloc(), Role::Client)?;
    each_found(&rt, &w, &[], ONE_FOR_EACH_RULE);
    Ok(())
}

// A second call of Chat.
const ASKED: Asked = Asked {
    channel: 1,
    call: 2,
    ptype: Request,
    method: Chat,
    status: 0,
    length: 0,
};

const ONE_CALL: &[Step] = &[Opens(Chat)];

const INVOKES: &[Case] = &[
    (&[Invokes(Asked { status: 1, ..ASKED })], Some((1, Refused))),
    (
        &[Invokes(Asked {
            ptype: Response,
            ..ASKED
        })],
        Some((1, Refused)),
    ),
    (
        &[Invokes(Asked {
            channel: 0,
            ..ASKED
        })],
        Some((1, Refused)),
    ),
    (
        &[Invokes(Asked {
            channel: 9,
            ..ASKED
        })],
        Some((1, Refused)),
    ),
    (&[Invokes(Asked { call: 1, ..ASKED })], Some((1, Refused))),
    (
        &[Invokes(Asked {
            method: Unknown,
            ..ASKED
        })],
        Some((1, Refused)),
    ),
    (
        &[Invokes(Asked {
            length: 8_001,
            ..ASKED
        })],
        Some((1, Refused)),
    ),
    (
        &[Invokes(Asked {
            length: 8_000,
            ..ASKED
        })],
        None,
    ),
];

#[test]
fn each_invoke_that_is_refused(rt: HostRuntime) -> Result<(), Fail> {
    let w = World::new(rt.alloc(), Role::Client)?;
    each_found(&rt, &w, ONE_CALL, INVOKES);
    Ok(())
}

// The first opens a call, and the last is refused.
const REFUSED: &[&[Step]] = &[
    // Packets that a client isn't sent.
    &[Opens(Chat), Opens(Echo), Comes(Request, Chat)],
    &[Opens(Chat), Opens(Echo), Comes(Completion, Chat)],
    // Messages: behind the completion, of a method without a client stream, behind the end, and too long.
    &[Opens(Chat), Done(0), Says(0, 0)],
    &[Opens(Count), Opens(Echo), Says(0, 0)],
    &[Opens(Chat), Comes(ServerError, Chat), Says(0, 0)],
    &[Opens(Chat), Opens(Echo), Says(0, 8_001)],
    // Completions: of a unary call, twice, and behind the end.
    &[Opens(Echo), Opens(Chat), Done(0)],
    &[Opens(Chat), Done(0), Done(0)],
    &[Opens(Chat), Comes(ServerError, Chat), Done(0)],
    // Others.
    &[Opens(Chat), Comes(ServerError, Chat), Replace(3, 0)],
    &[Opens(Chat), Cancel(3, 0), Cancel(4, 0)],
    &[Opens(Chat), Halt(3, Why::Memory), Halt(4, Why::Memory)],
    &[Opens(Chat), Close(3, 1), Close(4, 1)],
];

#[test]
fn what_a_call_table_of_a_client_refuses(rt: HostRuntime) -> Result<(), Fail> {
    let w = World::new(rt.alloc(), Role::Client)?;
    for (at, steps) in REFUSED.iter().enumerate() {
        found(&rt, &w, &[], steps, Some((2, Refused)), at);
    }
    Ok(())
}
