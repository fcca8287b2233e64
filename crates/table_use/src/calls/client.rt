//! A client's table at work.

use super::claims::{counts, sends, waits};
use super::client_desk::{from_server, hears_from, invokes, name_on, open_client};
use super::client_steps::client_follows;
use super::steps::Method::*;
use super::steps::Step::*;
use super::steps::{
    ENDS, GOES_ON, Heard, ITS_COMPLETION, ITS_MESSAGE, ITS_REQUEST, Method, Said, Sent, Step,
};
use rpc_ids::Status;
use rpc_journal::Arrived::{self, *};
use rpc_journal::{Cancelled, InvokeRefused, SayRefused};
use rpc_packet::PacketType::{self, *};
use std::alloc::Global;
use std::process::Abort;
use std::test::Fail;

const A_STREAM: &[Step] = &[
    Asks(1, Chat, Ok(0)),
    Says(0, Said::Letter, Ok(())),
    Completes(0, Ok(())),
    Says(0, Said::Letter, Err(SayRefused::Completed)),
    Sends(ITS_REQUEST),
    Sends(ITS_MESSAGE),
    Sends(ITS_COMPLETION),
    Sends(None),
    LengthIs(6),
];

#[test]
fn a_stream_of_a_client_goes_out_and_ends(rt: HostRuntime) -> Result<(), Fail> {
    client_follows(&rt, rt.alloc(), GOES_ON, A_STREAM)
}

const A_LIVE_NAME: &[Step] = &[
    Asks(1, Count, Ok(0)),
    Asks(1, Count, Err(InvokeRefused::Live(0))),
    Says(0, Said::Letter, Err(SayRefused::NoStream)),
    Completes(0, Ok(())),
    Completes(0, Err(SayRefused::Completed)),
    Asks(9, Echo, Err(InvokeRefused::NoChannel)),
    Asks(1, Unknown, Err(InvokeRefused::NoMethod)),
    Counts(1),
];

#[test]
fn a_name_is_invoked_once_while_it_is_live(rt: HostRuntime) -> Result<(), Fail> {
    client_follows(&rt, rt.alloc(), GOES_ON, A_LIVE_NAME)
}

const A_UNARY_CALL: &[Step] = &[
    Asks(1, Echo, Ok(0)),
    Completes(0, Err(SayRefused::NoStream)),
    Says(0, Said::StoreAction, Ok(())),
    Counts(1),
    Cancels(3, 0, Cancelled::Quiet(Status::Cancelled)),
    Says(
        0,
        Said::StoreAction,
        Err(SayRefused::Closed(Status::Cancelled)),
    ),
    Completes(0, Err(SayRefused::Closed(Status::Cancelled))),
    Sends(ITS_REQUEST),
    Sends(None),
    Sends(Some((ClientError, Status::Cancelled, 0))),
];

#[test]
fn a_unary_call_of_a_client_has_no_stream_to_end(rt: HostRuntime) -> Result<(), Fail> {
    client_follows(&rt, rt.alloc(), GOES_ON, A_UNARY_CALL)
}

// An arrival at a client by its type, method and status, what it answers, what goes out, and how many events then wait
// for call 0.
type Row = (PacketType, Method, Status, Arrived, Sent, u32);

// What arrives at a client with one call of the method, on a table of its own.
fn row_holds(
    rt: &impl Abort,
    alloc: Global,
    row: &Row,
    invoked: Method,
    at: usize,
) -> Result<(), Fail> {
    let (ptype, method, status, answer, sent, waiting) = *row;
    let (mut calls, methods) = open_client(alloc)?;
    let name = name_on(1, methods.of(invoked), 1);
    invokes(rt, &mut calls, alloc, name, false, Ok(0), at);
    sends(rt, &mut calls, ITS_REQUEST, at);
    let p = from_server(ptype, methods.of(method), 1, status);
    hears_from(rt, &mut calls, alloc, &p, Ok(answer), at);
    sends(rt, &mut calls, sent, at);
    counts(rt, &calls, 1, at);
    waits(rt, &calls, 0, waiting, at);
    Ok(())
}

// The rows of packets of the call's own name.
const OWN: &[Row] = &[
    (
        ServerStream,
        Count,
        Status::Okay,
        Arrived::Queued(0),
        None,
        1,
    ),
    (
        ServerStream,
        Chat,
        Status::Okay,
        Arrived::Queued(0),
        None,
        1,
    ),
    (
        ServerStream,
        Echo,
        Status::Okay,
        Arrived::Closed(0),
        Some((ClientError, Status::InvalidArgument, 0)),
        1,
    ),
    (Response, Echo, Status::Okay, Arrived::Closed(0), None, 2),
    (Response, Sum, Status::NotFound, Arrived::Closed(0), None, 1),
    (Response, Count, Status::Okay, Arrived::Closed(0), None, 1),
    (
        Response,
        Chat,
        Status::Internal,
        Arrived::Closed(0),
        None,
        1,
    ),
    (
        ServerError,
        Echo,
        Status::Internal,
        Arrived::Closed(0),
        None,
        1,
    ),
];

#[test]
fn each_packet_of_a_live_call_has_its_row(rt: HostRuntime) -> Result<(), Fail> {
    for (at, row) in OWN.iter().enumerate() {
        row_holds(&rt, rt.alloc(), row, row.1, at)?;
    }
    Ok(())
}

const OF_NO_CALL: &[Row] = &[
    (
        ServerStream,
        Chat,
        Status::Okay,
        Arrived::Answered,
        Some((ClientError, Status::FailedPrecondition, 0)),
        0,
    ),
    (Response, Chat, Status::Okay, Arrived::Dropped, None, 0),
    (
        ServerError,
        Chat,
        Status::Internal,
        Arrived::Dropped,
        None,
        0,
    ),
];

#[test]
fn packets_of_no_call_of_a_client(rt: HostRuntime) -> Result<(), Fail> {
    for (at, row) in OF_NO_CALL.iter().enumerate() {
        row_holds(&rt, rt.alloc(), row, Echo, at)?;
    }
    Ok(())
}

const A_RESPONSE: &[Step] = &[
    Asks(1, Echo, Ok(0)),
    Hears(Response, Echo, Closed(0)),
    RunsAndHears(Heard::Message, None),
    RunsAndHears(Heard::End(Status::Okay), Some(b'h')),
    Counts(1),
    StatusIs(0, Some(Status::Okay)),
];

#[test]
fn a_response_waits_before_the_end_of_its_call(rt: HostRuntime) -> Result<(), Fail> {
    client_follows(&rt, rt.alloc(), ENDS, A_RESPONSE)
}

const TWO_ANSWERS: &[Step] = &[
    Asks(1, Chat, Ok(0)),
    Hears(ServerStream, Chat, Queued(0)),
    Hears(ServerStream, Chat, Queued(0)),
    Runs(None),
    Runs(None),
    Sends(ITS_REQUEST),
    Sends(ITS_MESSAGE),
    Sends(ITS_COMPLETION),
    Sends(None),
    Counts(1),
    StatusIs(0, None),
];

#[test]
fn an_answer_of_a_client_ends_its_stream_once(rt: HostRuntime) -> Result<(), Fail> {
    client_follows(&rt, rt.alloc(), ENDS, TWO_ANSWERS)
}
