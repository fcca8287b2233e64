//! What a table takes and refuses while as many events wait for a call as may.

use super::server_steps::server_follows;
use super::steps::Method::*;
use super::steps::Step::*;
use super::steps::{GOES_ON, Step};
use rpc_ids::Status;
use rpc_journal::ArriveRefused;
use rpc_journal::Arrived::*;
use rpc_packet::PacketType::*;
use std::test::Fail;

const ONE_MESSAGE_TOO_MANY: &[Step] = &[
    Opens(Chat, 0),
    ComeOften(63, Chat, 0),
    Refuses(ClientStream, Chat, ArriveRefused::QueueFull(0)),
    LengthIs(64),
    Ticks(5, Ok(())),
    Counts(1),
    Waits(0, 64),
];

#[test]
fn sixty_four_events_wait_for_a_call_and_no_more(rt: HostRuntime) -> Result<(), Fail> {
    server_follows(&rt, rt.alloc(), GOES_ON, ONE_MESSAGE_TOO_MANY)
}

const THE_END_OF_INPUT: &[Step] = &[
    Opens(Chat, 0),
    ComeOften(63, Chat, 0),
    InputEnds,
    Counts(1),
    StatusIs(0, None),
    Waits(0, 65),
];

#[test]
fn the_end_of_input_waits_behind_sixty_four_events(rt: HostRuntime) -> Result<(), Fail> {
    server_follows(&rt, rt.alloc(), GOES_ON, THE_END_OF_INPUT)
}

const AN_ERROR: &[Step] = &[
    Opens(Chat, 0),
    ComeOften(63, Chat, 0),
    Comes(ClientError, Chat, Closed(0), None),
    Counts(1),
    StatusIs(0, Some(Status::Okay)),
    Waits(0, 1),
];

#[test]
fn an_error_ends_a_call_for_which_sixty_four_events_wait(rt: HostRuntime) -> Result<(), Fail> {
    server_follows(&rt, rt.alloc(), GOES_ON, AN_ERROR)
}

const THE_REQUEST_AGAIN: &[Step] = &[
    Opens(Chat, 0),
    ComeOften(63, Chat, 0),
    Comes(Request, Chat, Opened(1), None),
    Counts(2),
    StatusIs(0, Some(Status::Cancelled)),
    Waits(0, 1),
    Waits(1, 1),
];

#[test]
fn a_request_cancels_a_call_for_which_sixty_four_events_wait(rt: HostRuntime) -> Result<(), Fail> {
    server_follows(&rt, rt.alloc(), GOES_ON, THE_REQUEST_AGAIN)
}

const A_TICK: &[Step] = &[
    Opens(Chat, 0),
    ComeOften(62, Chat, 0),
    Counts(1),
    Waits(0, 63),
    Ticks(5, Ok(())),
    Counts(1),
    Waits(0, 64),
];

#[test]
fn a_tick_waits_as_the_sixty_fourth_event(rt: HostRuntime) -> Result<(), Fail> {
    server_follows(&rt, rt.alloc(), GOES_ON, A_TICK)
}
