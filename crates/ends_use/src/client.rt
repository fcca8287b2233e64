//! What a client sends, and what it hands on of what comes.
mod desk;

use crate::checks::number_is;
use bytes::Bytes;
use desk::{Quiet, completes, feeds, idles, invokes, open_client, says, sends};
use rpc_client::{Client, work_until_idle};
use rpc_handlers::Event;
use rpc_ids::Status;
use rpc_journal::{InvokeRefused, SayRefused, StartRefused};
use rpc_packet::PacketType;
use std::process::Abort;
use std::test::Fail;

// A RESPONSE of Echo with payload `abc` on channel 1, call 1.
const ECHO_RESPONSE: &[u8] =
    b"\x7E\xA5\x03\x08\x01\x10\x01\x1D\xFB\x5C\xF4\x70\x25\xE9\x0E\x47\x8B\x2A\x03\x61\x62\x63\x38\x01\x97\x94\x28\x3C\x7E";

// A SERVER_STREAM of Count with payload `00` on channel 1, call 1.
const COUNT_STREAM: &[u8] =
    b"\x7E\xA5\x03\x08\x07\x10\x01\x1D\xFB\x5C\xF4\x70\x25\xB6\x13\x36\xB6\x2A\x01\x00\x38\x01\xEF\xD0\xD9\x17\x7E";

// The call and the payload of the message that is handed on next.
fn next_message(client: &mut Client<Quiet>) -> Result<Option<(u32, Bytes)>, StartRefused> {
    match client.work()? {
        Some((call, Event::Message(payload))) => Ok(Some((call, payload))),
        Some(_) | None => Ok(None),
    }
}

// This message of call 0 is handed on next.
fn hands_message(rt: &impl Abort, client: &mut Client<Quiet>, payload: &'static [u8]) {
    let want = Some((0, Bytes::from_static(payload)));
    assert_eq!(rt; next_message(client), Ok(want));
}

// The good end of call 0 is handed on next.
fn hands_end(rt: &impl Abort, client: &mut Client<Quiet>) {
    assert!(rt; matches!(client.work(), Ok(Some((0, Event::Ended(Status::Okay))))));
}

// Nothing is handed on.
fn hands_nothing(rt: &impl Abort, client: &mut Client<Quiet>) {
    assert!(rt; matches!(client.work(), Ok(None)));
}

const ITS_REQUEST: Option<(PacketType, Status)> = Some((PacketType::Request, Status::Okay));

const ITS_MESSAGE: Option<(PacketType, Status)> = Some((PacketType::ClientStream, Status::Okay));

const ITS_COMPLETION: Option<(PacketType, Status)> = Some((PacketType::Completion, Status::Okay));

const OF_NO_CALL: Option<(PacketType, Status)> = Some((
    PacketType::ClientError,
    Status::FailedPrecondition,
));

#[test]
fn a_call_goes_out_in_order(rt: HostRuntime) -> Result<(), Fail> {
    let (mut client, methods) = open_client(rt.alloc())?;
    invokes(&rt, &mut client, rt.alloc(), methods.chat, Ok(0));
    says(&rt, &mut client, Ok(()));
    completes(&rt, &mut client, Ok(()));
    sends(&rt, &mut client, ITS_REQUEST);
    sends(&rt, &mut client, ITS_MESSAGE);
    sends(&rt, &mut client, ITS_COMPLETION);
    sends(&rt, &mut client, None);
    hands_nothing(&rt, &mut client);
    idles(&rt, &client, true);
    Ok(())
}

#[test]
fn a_name_is_live_once_and_its_stream_ends_once(rt: HostRuntime) -> Result<(), Fail> {
    let (mut client, methods) = open_client(rt.alloc())?;
    invokes(&rt, &mut client, rt.alloc(), methods.count, Ok(0));
    let live = Err(InvokeRefused::Live(0));
    invokes(&rt, &mut client, rt.alloc(), methods.count, live);
    says(&rt, &mut client, Err(SayRefused::NoStream));
    completes(&rt, &mut client, Ok(()));
    completes(&rt, &mut client, Err(SayRefused::Completed));
    Ok(())
}

#[test]
fn packets_of_no_call(rt: HostRuntime) -> Result<(), Fail> {
    let (mut client, _) = open_client(rt.alloc())?;
    feeds(&rt, &mut client, COUNT_STREAM);
    sends(&rt, &mut client, OF_NO_CALL);
    feeds(&rt, &mut client, ECHO_RESPONSE);
    sends(&rt, &mut client, None);
    hands_nothing(&rt, &mut client);
    number_is(&rt, u64::from(client.calls().count()), 0);
    Ok(())
}

#[test]
fn a_message_of_a_stream_is_handed_on(rt: HostRuntime) -> Result<(), Fail> {
    let (mut client, methods) = open_client(rt.alloc())?;
    invokes(&rt, &mut client, rt.alloc(), methods.count, Ok(0));
    feeds(&rt, &mut client, COUNT_STREAM);
    idles(&rt, &client, false);
    hands_message(&rt, &mut client, b"\x00");
    hands_nothing(&rt, &mut client);
    Ok(())
}

#[test]
fn a_response_is_handed_on_before_the_end(rt: HostRuntime) -> Result<(), Fail> {
    let (mut client, methods) = open_client(rt.alloc())?;
    invokes(&rt, &mut client, rt.alloc(), methods.echo, Ok(0));
    feeds(&rt, &mut client, ECHO_RESPONSE);
    hands_message(&rt, &mut client, b"abc");
    hands_end(&rt, &mut client);
    hands_nothing(&rt, &mut client);
    Ok(())
}

#[test]
fn a_client_works_until_nothing_is_ready(rt: HostRuntime) -> Result<(), Fail> {
    let (mut client, methods) = open_client(rt.alloc())?;
    invokes(&rt, &mut client, rt.alloc(), methods.echo, Ok(0));
    feeds(&rt, &mut client, ECHO_RESPONSE);
    hands_an_answer(&rt, &mut client, &mut Vec::new(rt.alloc()));
    idles(&rt, &client, true);
    Ok(())
}

// What is ready is handed on: a message of call 0, its good end, and nothing else.
fn hands_an_answer(rt: &impl Abort, client: &mut Client<Quiet>, handed: &mut Vec<(u32, Event)>) {
    assert_eq!(rt; work_until_idle(client, handed), Ok(()));
    ended(rt, handed.pop());
    had_message(rt, handed.pop());
    assert!(rt; handed.is_empty());
}

// The good end of call 0 was handed on.
fn ended(rt: &impl Abort, last: Option<(u32, Event)>) {
    assert!(rt; matches!(last, Some((0, Event::Ended(Status::Okay)))));
}

// A message of call 0 was handed on.
fn had_message(rt: &impl Abort, last: Option<(u32, Event)>) {
    assert!(rt; matches!(last, Some((0, Event::Message(_)))));
}
