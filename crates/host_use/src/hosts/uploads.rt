//! An upload whose connection a fault ends goes on in the next one.

use super::checks::{holds, hosted, is_so};
use super::{link, serve};
use bytes::Bytes;
use demo_services::ids;
use link_io::MemLinker;
use rpc_frames::write_frame;
use rpc_packet::{CallName, Packet, PacketType};
use std::alloc::{AllocError, Global};
use transfer_chunk::ChunkRef;

// A packet of a call of Write on channel 1 with the id 1.
fn write_packet(
    alloc: Global,
    ptype: PacketType,
    payload: &[u8],
    stream: &mut Vec<u8>,
) -> Result<(), AllocError> {
    let packet = Packet {
        ptype,
        name: CallName {
            channel: 1,
            service: ids::TRANSFER,
            method: ids::WRITE,
            call: 1,
        },
        payload: Bytes::copy_from_slice(alloc, payload)?,
        status: 0,
    };
    write_frame(alloc, &packet, stream)
}

/// The frames of a client that opens the call and sends these chunks.
pub(super) fn frames(alloc: Global, chunks: &[ChunkRef<'_>]) -> Result<Vec<u8>, AllocError> {
    let mut stream = Vec::new(alloc);
    write_packet(alloc, PacketType::Request, b"", &mut stream)?;
    for chunk in chunks {
        let mut text = Vec::new(alloc);
        chunk.write(&mut text)?;
        write_packet(alloc, PacketType::ClientStream, &text, &mut stream)?;
    }
    Ok(stream)
}

// A chunk of this type of a session.
fn of(ctype: u64, session: u32) -> ChunkRef<'static> {
    ChunkRef {
        ctype: Some(ctype),
        session: Some(session),
        ..ChunkRef::empty()
    }
}

/// START of resource 7 from an offset on.
pub(super) fn start(session: u32, initial: u64) -> ChunkRef<'static> {
    ChunkRef {
        ctype: Some(1),
        resource: Some(7),
        version: Some(2),
        desired: Some(session),
        initial,
        ..ChunkRef::empty()
    }
}

/// START_ACK_CONFIRMATION.
pub(super) fn confirmation(session: u32) -> ChunkRef<'static> {
    ChunkRef {
        version: Some(2),
        ..of(7, session)
    }
}

fn data(session: u32, offset: u64, bytes: &'static [u8], last: bool) -> ChunkRef<'static> {
    ChunkRef {
        offset,
        bytes,
        remaining: last.then_some(0),
        ..of(0, session)
    }
}

// The linker of two connections. Over the first one the beginning of an upload comes, and then a piece behind a gap, whose answer is
// the third write, which fails. Over the second one the rest comes.
fn cut_and_rest(alloc: Global) -> Result<MemLinker, AllocError> {
    let cut = [
        start(1, 0),
        confirmation(1),
        data(1, 0, b"abc", false),
        data(1, 100, b"z", false),
    ];
    let rest = [
        start(1, 400),
        confirmation(1),
        data(1, 3, b"de", true),
        of(5, 1),
    ];
    let mut links = Vec::new(alloc);
    links.push(link(alloc, &frames(alloc, &cut)?, 0, 3)?)?;
    links.push(link(alloc, &frames(alloc, &rest)?, 0, 0)?)?;
    MemLinker::new(alloc, links, Vec::new(alloc))
}

const CUT: &str = "conn 1
frames 5 bad 0 other 0 dropped 0
call 0 1 5bd6c87b d4630586 1 bidi open
sink fault
";

const CUT_AND_REST: &str = "conn 1
frames 5 bad 0 other 0 dropped 0
call 0 1 5bd6c87b d4630586 1 bidi open
sink fault
conn 2
frames 5 bad 0 other 0 dropped 0
call 0 1 5bd6c87b d4630586 1 bidi open
done
";

const CUT_FOR_THE_STORE: &str = "conn 1
frames 5 bad 0 other 0 dropped 0
call 0 1 5bd6c87b d4630586 1 bidi open
store fault
";

#[test]
fn what_a_fault_cut_goes_on(rt: HostRuntime) -> Result<(), AllocError> {
    let alloc = rt.alloc();
    let run = serve(&rt, alloc, "host p 1", cut_and_rest(alloc)?, 0, 0)?;
    hosted(&rt, "host", &run, 6, CUT_AND_REST, 2);
    holds(&rt, "the resource", run.store.full(7), b"abcde");
    is_so(&rt, "what is left of it", run.store.left(7).is_none());
    Ok(())
}

#[test]
fn what_is_under_way_is_left(rt: HostRuntime) -> Result<(), AllocError> {
    let alloc = rt.alloc();
    // The output fails behind the first connection.
    let run = serve(&rt, alloc, "host p 1", cut_and_rest(alloc)?, 1, 0)?;
    hosted(&rt, "host", &run, 4, "", 1);
    holds(&rt, "what is left", run.store.left(7), b"abc");
    is_so(&rt, "the resource", run.store.full(7).is_none());
    Ok(())
}

#[test]
fn serve_leaves_it_to_the_store(rt: HostRuntime) -> Result<(), AllocError> {
    let alloc = rt.alloc();
    let run = serve(&rt, alloc, "serve p 1 2", cut_and_rest(alloc)?, 0, 0)?;
    hosted(&rt, "serve", &run, 4, CUT, 1);
    is_so(&rt, "what is left", run.store.left(7).is_none());
    Ok(())
}

#[test]
fn a_store_that_cannot_leave_it_ends_the_run(rt: HostRuntime) -> Result<(), AllocError> {
    let alloc = rt.alloc();
    // The list, the begin and the append go well.
    let run = serve(&rt, alloc, "host p 1", cut_and_rest(alloc)?, 0, 4)?;
    hosted(&rt, "host", &run, 5, CUT_FOR_THE_STORE, 1);
    is_so(&rt, "what is left", run.store.left(7).is_none());
    Ok(())
}
