//! Calls that are no transfers.

ghost use Rattle.link_world.specs.client.ClientSide.{Attends, ClientRests};
ghost use Rattle.link_world.specs.server.ServerSide.{ServerRests};

use super::desk::Begins::Empty;
use super::desk::{Pair, begin, exchange};
use crate::checks::{bytes_are, count_is, end_is, is_so};
use bytes::Bytes;
use link_script::Command;
use link_world::client::{Plain, Under};
use rpc_ids::Status;
use std::alloc::AllocError;
use std::process::Abort;
use std::test::Fail;

// The first message of the client's call is this.
fn begins(rt: &impl Abort, pair: &Pair, wanted: &[u8]) -> Result<(), AllocError> {
    let message = pair.client.first_message(0)?;
    bytes_are(rt, message.as_slice(), wanted);
    Ok(())
}

fn plain_is(rt: &impl Abort, plain: Plain, wanted: Plain) {
    assert_eq!(rt; plain, wanted);
}

// This call is under way.
fn calls(rt: &impl Abort, under: &Option<Under>, wanted: Plain, number: u64) {
    match under {
        Some(Under::Calling(plain, call)) => {
            plain_is(rt, *plain, wanted);
            count_is(rt, "call", u64::from(*call), number);
        }
        _ => is_so(rt, "no call is under way", false),
    }
}

// The one call is answered by one message.
fn echoes(rt: &impl Abort, pair: &mut Pair) -> Result<(), Fail>
    requires rest { ClientRests pair.old.client }
    requires attends { Attends pair.old.client pair.old.under 0 }
    requires server { ServerRests pair.old.server }
{
    end_is(rt, pair.client.end_of(0), None);
    exchange(pair, 0)?;
    end_is(rt, pair.client.end_of(0), Some(Status::Okay));
    count_is(rt, "messages", pair.client.messages(0), 1);
    begins(rt, pair, b"abc")?;
    count_is(rt, "frames", pair.wires.frames(), 2);
    Ok(())
}

#[test]
fn an_echo_is_answered(rt: HostRuntime) -> Result<(), Fail> {
    let echo = Command::Echo(Bytes::from_static(b"abc"));
    let mut pair = begin(rt.alloc(), Empty, Empty, &[], &echo)?;
    echoes(&rt, &mut pair)
}

// The one call is answered by a message for each of two.
fn chats(rt: &impl Abort, pair: &mut Pair) -> Result<(), Fail>
    requires rest { ClientRests pair.old.client }
    requires attends { Attends pair.old.client pair.old.under 0 }
    requires server { ServerRests pair.old.server }
{
    exchange(pair, 0)?;
    count_is(rt, "messages", pair.client.messages(0), 2);
    Ok(begins(rt, pair, b"a")?)
}

#[test]
fn a_chat_answers_each_message(rt: HostRuntime) -> Result<(), Fail> {
    let chat = Command::Chat(Bytes::from_static(b"ab"));
    let mut pair = begin(rt.alloc(), Empty, Empty, &[], &chat)?;
    chats(&rt, &mut pair)
}

#[test]
fn a_count_is_under_way_and_its_link_ends(rt: HostRuntime) -> Result<(), Fail> {
    let mut pair = begin(rt.alloc(), Empty, Empty, &[], &Command::Count(3))?;
    calls(&rt, &pair.under, Plain::Count, 0);
    pair.client.end_in(0, &mut pair.wires)?;
    let (journal, _) = pair.client.into_parts();
    is_so(&rt, "a journal", journal.len() > 0);
    Ok(())
}

// The one call is cancelled, which the server is told.
fn cancels(rt: &impl Abort, pair: &mut Pair) -> Result<(), Fail>
    requires rest { ClientRests pair.old.client }
{
    let frames = pair.wires.frames();
    // What `cancel` asks for.
    assert!(rt; pair.client.name(0).is_some());
    assert!(rt; pair.client.end_of(0).is_none());
    pair.client.cancel(0, 0, &mut pair.wires)?;
    end_is(rt, pair.client.end_of(0), Some(Status::Cancelled));
    count_is(rt, "frames", pair.wires.frames(), frames.saturating_add(1));
    Ok(())
}

#[test]
fn a_sum_is_cancelled(rt: HostRuntime) -> Result<(), Fail> {
    let sum = Command::Sum(Bytes::from_static(b"ab"));
    let mut pair = begin(rt.alloc(), Empty, Empty, &[], &sum)?;
    cancels(&rt, &mut pair)
}
