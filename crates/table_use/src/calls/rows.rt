//! What arrives at a server, what its arrival answers, and what goes out.

use super::server_steps::server_follows;
use super::steps::Method::*;
use super::steps::Step::*;
use super::steps::{GOES_ON, Heard, Sent, Step};
use rpc_ids::Status;
use rpc_journal::Arrived::*;
use rpc_packet::PacketType::*;
use std::test::Fail;

const TWO_REQUESTS: &[Step] = &[
    Comes(Request, Chat, Opened(0), None),
    Comes(Request, Chat, Opened(1), None),
    Counts(2),
    StatusIs(0, Some(Status::Cancelled)),
    StatusIs(1, None),
    Begins(0, Heard::End(Status::Cancelled)),
];

#[test]
fn a_request_of_a_live_name_cancels_the_old_call(rt: HostRuntime) -> Result<(), Fail> {
    server_follows(&rt, rt.alloc(), GOES_ON, TWO_REQUESTS)
}

const NO_STREAM: Sent = Some((ServerError, Status::FailedPrecondition, 0));

const BEHIND_THE_COMPLETION: &[Step] = &[
    Comes(Request, Sum, Opened(0), None),
    Comes(Completion, Sum, Queued(0), None),
    Comes(ClientStream, Sum, Answered, NO_STREAM),
    Counts(1),
    StatusIs(0, None),
    Waits(0, 2),
];

#[test]
fn a_message_behind_the_completion_is_refused(rt: HostRuntime) -> Result<(), Fail> {
    server_follows(&rt, rt.alloc(), GOES_ON, BEHIND_THE_COMPLETION)
}

const NO_SUCH_MESSAGE: Sent = Some((ServerError, Status::InvalidArgument, 0));

const TO_A_UNARY_CALL: &[Step] = &[
    Comes(Request, Echo, Opened(0), None),
    Comes(ClientStream, Echo, Answered, NO_SUCH_MESSAGE),
];

#[test]
fn a_message_to_a_unary_call_is_refused(rt: HostRuntime) -> Result<(), Fail> {
    server_follows(&rt, rt.alloc(), GOES_ON, TO_A_UNARY_CALL)
}

const NO_METHOD: Sent = Some((ServerError, Status::NotFound, 0));

const NO_CHANNEL: Sent = Some((ServerError, Status::Unavailable, 0));

const UNKNOWN: &[Step] = &[
    Comes(ClientError, Unknown, Dropped, None),
    Comes(Request, Unknown, Answered, NO_METHOD),
    Comes(ClientStream, Unknown, Answered, NO_METHOD),
    Comes(Completion, Unknown, Answered, NO_METHOD),
    ComesOn(9, ClientError, Chat, Dropped, None),
    ComesOn(9, Request, Chat, Answered, NO_CHANNEL),
    ComesOn(9, ClientStream, Chat, Answered, NO_CHANNEL),
    ComesOn(9, Completion, Chat, Answered, NO_CHANNEL),
    Counts(0),
];

#[test]
fn packets_of_unknown_methods_and_channels_open_nothing(rt: HostRuntime) -> Result<(), Fail> {
    server_follows(&rt, rt.alloc(), GOES_ON, UNKNOWN)
}

const AN_ERROR: &[Step] = &[
    Comes(Request, Chat, Opened(0), None),
    Comes(ClientStream, Chat, Queued(0), None),
    Comes(ClientError, Chat, Closed(0), None),
    Counts(1),
    StatusIs(0, Some(Status::Okay)),
    Waits(0, 1),
];

#[test]
fn an_error_of_the_client_ends_its_call(rt: HostRuntime) -> Result<(), Fail> {
    server_follows(&rt, rt.alloc(), GOES_ON, AN_ERROR)
}

const OF_NO_CALL: &[Step] = &[
    Comes(ClientError, Chat, Dropped, None),
    Comes(ClientStream, Chat, Answered, NO_STREAM),
    Comes(Completion, Chat, Answered, NO_STREAM),
    Counts(0),
];

#[test]
fn packets_of_no_live_call_open_nothing(rt: HostRuntime) -> Result<(), Fail> {
    server_follows(&rt, rt.alloc(), GOES_ON, OF_NO_CALL)
}

const COMPLETIONS: &[Step] = &[
    Comes(Request, Echo, Opened(0), None),
    Comes(Completion, Echo, Dropped, None),
    Comes(Request, Chat, Opened(1), None),
    Comes(Completion, Chat, Queued(1), None),
    Comes(Completion, Chat, Dropped, None),
    Counts(2),
    Waits(0, 1),
    Waits(1, 2),
];

#[test]
fn a_completion_of_a_unary_call_and_a_second_one_are_dropped(rt: HostRuntime) -> Result<(), Fail> {
    server_follows(&rt, rt.alloc(), GOES_ON, COMPLETIONS)
}
