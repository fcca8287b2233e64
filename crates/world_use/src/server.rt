//! A server between things that come to it, and what a store begins with.

ghost use Rattle.link_world.specs.server.ServerSide.{ServerRests};

use crate::checks::{bytes_are, count_is, is_so};
use bytes::Bytes;
use link_script::{Loss, Stock};
use link_world::server::{ServerEnd, Stopped, Wires, lengths, stock_bytes, store_of};
use std::alloc::AllocError;
use std::process::Abort;
use std::test::Fail;
use transfer_base::Tuning;

// A REQUEST of Echo with payload `abc` on channel 1, call 1.
const ECHO_REQUEST: &[u8] =
    b"\x7E\xA5\x03\x10\x01\x1D\xFB\x5C\xF4\x70\x25\xE9\x0E\x47\x8B\x2A\x03\x61\x62\x63\x38\x01\x03\xED\xCE\x63\x7E";

// Its RESPONSE.
const ECHO_RESPONSE: &[u8] =
    b"\x7E\xA5\x03\x08\x01\x10\x01\x1D\xFB\x5C\xF4\x70\x25\xE9\x0E\x47\x8B\x2A\x03\x61\x62\x63\x38\x01\x97\x94\x28\x3C\x7E";

const TUNING: Tuning = Tuning {
    window: 4,
    chunk: 256,
};

// A frame is this.
fn frame_is(rt: &impl Abort, frame: Option<Bytes>, wanted: &[u8]) {
    match frame {
        Some(frame) => bytes_are(rt, frame.as_slice(), wanted),
        None => is_so(rt, "a frame is missing", false),
    }
}

// One answer went out, and another one was lost.
fn one_answer_goes_out(rt: &impl Abort, wires: &mut Wires) -> Result<(), AllocError> {
    count_is(rt, "frames", wires.frames(), 2);
    count_is(rt, "chunks", wires.chunks(), 0);
    frame_is(rt, wires.take_for_client(), ECHO_RESPONSE);
    is_so(rt, "none to the client", wires.to_client().is_empty());
    is_so(rt, "none to the server", wires.to_server().is_empty());
    is_so(rt, "no frame", wires.take_for_server().is_none());
    wires.release()
}

fn request_twice(server: &mut ServerEnd, wires: &mut Wires) -> Result<(), Stopped>
    requires { ServerRests server.old }
{
    server.deliver(ECHO_REQUEST, wires)?;
    server.deliver(ECHO_REQUEST, wires)
}

#[test]
fn a_request_is_answered_once_and_its_answer_lost(rt: HostRuntime) -> Result<(), Fail> {
    let store = store_of(rt.alloc(), &[], &[])?;
    let mut server = ServerEnd::new(rt.alloc(), store, TUNING)?;
    let mut wires = Wires::new(rt.alloc(), &[(2, Loss::Lose)])?;
    request_twice(&mut server, &mut wires)?;
    one_answer_goes_out(&rt, &mut wires)?;
    Ok(())
}

// How many calls were open on a channel that was closed.
fn closes(rt: &impl Abort, open: Option<u32>, wanted: Option<u32>) {
    assert_eq!(rt; open, wanted);
}

// A channel is closed twice, and the end of input comes behind a tick.
fn close_twice(rt: &impl Abort, server: &mut ServerEnd, wires: &mut Wires) -> Result<(), Stopped>
    requires { ServerRests server.old }
{
    closes(rt, server.close_channel(1, wires)?, Some(0));
    closes(rt, server.close_channel(1, wires)?, None);
    server.tick(2_000, wires)?;
    server.end_in(wires)
}

#[test]
fn a_channel_is_closed_once(rt: HostRuntime) -> Result<(), Fail> {
    let store = store_of(rt.alloc(), &[], &[])?;
    let mut server = ServerEnd::new(rt.alloc(), store, TUNING)?;
    let mut wires = Wires::new(rt.alloc(), &[])?;
    close_twice(&rt, &mut server, &mut wires)?;
    let (journal, _) = server.into_parts();
    count_is(&rt, "entries", journal.len() as u64, 3);
    Ok(())
}

#[test]
fn a_store_begins_with_bytes_made_from_a_seed(rt: HostRuntime) -> Result<(), Fail> {
    let stock = Stock {
        id: 7,
        len: 3,
        seed: 1,
    };
    let bytes = stock_bytes(rt.alloc(), stock)?;
    bytes_are(&rt, bytes.as_slice(), b"\x6C\x82\xA5");
    Ok(())
}

#[test]
fn a_store_without_a_resource_has_no_lengths(rt: HostRuntime) -> Result<(), Fail> {
    let mut store = store_of(rt.alloc(), &[], &[])?;
    let lengths = lengths(rt.alloc(), &mut store)?;
    is_so(&rt, "no lengths", lengths.as_slice().is_empty());
    Ok(())
}
