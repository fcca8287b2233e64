//! A server closes a channel.

use super::{SparingMaker, feeds, status_is, works};
use crate::checks::{is_sent, number_is};
use rpc_calls::CloseRefused;
use rpc_channel::Channels;
use rpc_ids::{Kind, Registry, Status};
use rpc_journal::StartRefused;
use rpc_packet::PacketType;
use rpc_server::Server;
use std::alloc::Global;
use std::cell::Cell;
use std::process::Abort;
use std::rc::Rc;
use std::test::Fail;

// REQUESTs of Chat without a payload: on channel 1 calls 1, 2 and 3, and on channel 2 call 1.
const CHAT_1_1: &[u8] =
    b"\x7E\xA5\x03\x10\x01\x1D\xFB\x5C\xF4\x70\x25\xBC\x81\xA9\x9B\x38\x01\x44\x37\xF8\x56\x7E";

const CHAT_1_2: &[u8] =
    b"\x7E\xA5\x03\x10\x01\x1D\xFB\x5C\xF4\x70\x25\xBC\x81\xA9\x9B\x38\x02\xFE\x66\xF1\xCF\x7E";

const CHAT_1_3: &[u8] =
    b"\x7E\xA5\x03\x10\x01\x1D\xFB\x5C\xF4\x70\x25\xBC\x81\xA9\x9B\x38\x03\x68\x56\xF6\xB8\x7E";

const CHAT_2_1: &[u8] =
    b"\x7E\xA5\x03\x10\x02\x1D\xFB\x5C\xF4\x70\x25\xBC\x81\xA9\x9B\x38\x01\x8A\x5B\x32\xEB\x7E";

// A server of Chat on channels 1 and 2, whose handlers answer nothing.
fn open_server(alloc: Global) -> Result<Server<SparingMaker>, Fail> {
    let maker = SparingMaker {
        alloc,
        ends: false,
        has_memory: Rc::new(alloc, Cell::new(true))?,
    };
    let mut channels = Channels::new(alloc);
    channels.add(1)?;
    channels.add(2)?;
    let mut registry = Registry::new(alloc);
    registry.add(b"demo.Demo", b"Chat", Kind::Bidi, false)?;
    Ok(Server::new(alloc, channels, registry, maker)?)
}

// Feeds a frame, and works once with this answer.
fn serves(
    rt: &impl Abort,
    server: &mut Server<SparingMaker>,
    frame: &[u8],
    want: Result<bool, StartRefused>,
) {
    feeds(rt, server, frame);
    works(rt, server, want);
}

// A channel closes, with this answer.
fn closes(
    rt: &impl Abort,
    server: &mut Server<SparingMaker>,
    channel: u32,
    want: Result<u32, CloseRefused>,
) {
    assert_eq!(rt; server.close_channel(channel), want);
}

// This goes out next.
fn tells(rt: &impl Abort, server: &mut Server<SparingMaker>, want: Option<(PacketType, Status)>) {
    is_sent(rt, server.next_out(), want);
}

const ITS_ABORT: Option<(PacketType, Status)> = Some((PacketType::ServerError, Status::Aborted));

const UNAVAILABLE: Option<(PacketType, Status)> = Some((
    PacketType::ServerError,
    Status::Unavailable,
));

#[test]
fn a_channel_that_is_closed_ends_its_calls_alone(rt: HostRuntime) -> Result<(), Fail> {
    let mut server = open_server(rt.alloc())?;
    serves(&rt, &mut server, CHAT_1_1, Ok(true));
    serves(&rt, &mut server, CHAT_1_2, Ok(true));
    serves(&rt, &mut server, CHAT_2_1, Ok(true));
    closes(&rt, &mut server, 1, Ok(2));
    closes(&rt, &mut server, 1, Err(CloseRefused::NotIn));
    status_is(&rt, server.calls(), 0, Some(Status::Aborted));
    status_is(&rt, server.calls(), 1, Some(Status::Aborted));
    status_is(&rt, server.calls(), 2, None);
    tells(&rt, &mut server, ITS_ABORT);
    tells(&rt, &mut server, ITS_ABORT);
    tells(&rt, &mut server, None);
    Ok(())
}

#[test]
fn a_request_on_a_closed_channel_is_answered(rt: HostRuntime) -> Result<(), Fail> {
    let mut server = open_server(rt.alloc())?;
    closes(&rt, &mut server, 1, Ok(0));
    serves(&rt, &mut server, CHAT_1_3, Ok(false));
    number_is(&rt, u64::from(server.calls().count()), 0);
    tells(&rt, &mut server, UNAVAILABLE);
    Ok(())
}
