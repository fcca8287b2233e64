//! Channels are closed.

use super::client_steps::client_follows;
use super::server_steps::server_follows;
use super::steps::Method::*;
use super::steps::Step::*;
use super::steps::{GOES_ON, ITS_REQUEST, Sent, Step};
use rpc_ids::Status;
use rpc_journal::Arrived::*;
use rpc_journal::{CloseRefused, InvokeRefused};
use rpc_packet::PacketType::*;
use std::test::Fail;

const ITS_ABORT: Sent = Some((ServerError, Status::Aborted, 0));

const UNAVAILABLE: Sent = Some((ServerError, Status::Unavailable, 0));

const ONE_OF_TWO_CHANNELS: &[Step] = &[
    Opens(Chat, 0),
    Opens(Echo, 1),
    OpensOn(2, Chat, 2),
    Closes(1, Ok(2)),
    Closes(1, Err(CloseRefused::NotIn)),
    Counts(3),
    StatusIs(0, Some(Status::Aborted)),
    StatusIs(1, Some(Status::Aborted)),
    StatusIs(2, None),
    Waits(0, 1),
    Waits(1, 1),
    Waits(2, 1),
    Sends(ITS_ABORT),
    Sends(ITS_ABORT),
    Sends(None),
    Comes(Request, Chat, Answered, UNAVAILABLE),
];

#[test]
fn a_channel_that_is_closed_ends_its_calls_alone(rt: HostRuntime) -> Result<(), Fail> {
    server_follows(&rt, rt.alloc(), GOES_ON, ONE_OF_TWO_CHANNELS)
}

const THE_CHANNEL_OF_A_CLIENT: &[Step] = &[
    Asks(1, Chat, Ok(0)),
    Closes(1, Ok(1)),
    Asks(1, Chat, Err(InvokeRefused::NoChannel)),
    Sends(ITS_REQUEST),
    Sends(Some((ClientError, Status::Aborted, 0))),
    Sends(None),
];

#[test]
fn a_client_invokes_nothing_on_a_closed_channel(rt: HostRuntime) -> Result<(), Fail> {
    client_follows(&rt, rt.alloc(), GOES_ON, THE_CHANNEL_OF_A_CLIENT)
}
