//! Uploads in a recorded stream, and the store in which they end.

use super::checks::{is_so, status_is, stores};
use super::says::Says::{self, *};
use super::says::frames;
use super::{empty_store, run_storing};
use rpc_packet::PacketType;
use std::alloc::{AllocError, Global};
use std::process::Abort;

// What a client sends that uploads `abcde` as resource 7 in two parts, and then knows that it has ended.
const UPLOAD: &[Says] = &[
    Start(1, 7, 0),
    BareConfirmation(1),
    DataBefore(1, 0, b"abc", 2),
    Rest(1, 3, b"de"),
    Seen(1),
];

// The number of the store's call that fails, the status, the end of the report, and what the store has of resource 7.
type Row = (u64, u8, &'static [u8], Option<&'static [u8]>);

// The calls of the store are list, begin, append, append and commit.
const ROWS: &[Row] = &[
    (9, 0, b"\ndone\n", Some(b"abcde")),
    (1, 5, b"\nstore fault\n", None),
    (2, 5, b"\nstore fault\n", None),
    (3, 5, b"\nstore fault\n", None),
    (4, 5, b"\nstore fault\n", None),
    (5, 5, b"\nstore fault\n", None),
];

fn ends_so(rt: &impl Abort, alloc: Global, row: &Row) -> Result<(), AllocError> {
    let (fail, status, end, stored) = *row;
    let mut store = empty_store(alloc, fail)?;
    let content = frames(alloc, PacketType::ClientStream, UPLOAD)?;
    let ran = run_storing(alloc, "replay", content, &mut store)?;
    status_is(rt, "replay", fail, ran.status, status);
    is_so(rt, "replay", fail, ran.output.bytes().ends_with(end));
    stores(rt, "replay", fail, &store, 7, stored);
    Ok(())
}

#[test]
fn an_upload_ends_in_the_store(rt: HostRuntime) -> Result<(), AllocError> {
    for row in ROWS {
        ends_so(&rt, rt.alloc(), row)?;
    }
    Ok(())
}
