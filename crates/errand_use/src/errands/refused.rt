//! Transfers that make no link, and devices that fail.

use super::checks::{gone_are, is_so, status_is, told};
use super::{failing_link, one_link, run_client, store};
use bytes::Bytes;
use link_io::{Fulls, MemStore};
use std::alloc::{AllocError, Global};
use std::process::Abort;
use std::sync::Wait;
use std::thread::Threads;

// So many zeros. The number stays out of what is known of them.
fn zeros(alloc: Global, length: usize) -> Result<Vec<u8>, AllocError> {
    vec![in alloc; 0; length]
}

// A store that has resource 8, of so many bytes.
fn store_of_eight(alloc: Global, length: usize) -> Result<MemStore, AllocError> {
    let bytes = zeros(alloc, length)?;
    let mut full = Fulls::new(alloc);
    full.push((8, Bytes::copy_from_slice(alloc, &bytes)?))?;
    MemStore::new(alloc, full, Fulls::new(alloc), Vec::new(alloc))
}

fn makes_no_link<R: Threads + Wait + Sync + Abort>(
    rt: &R,
    alloc: Global,
    line: &str,
    written: &[u8],
) -> Result<(), AllocError> {
    let mut net = one_link(alloc, Vec::new(alloc))?;
    // One byte more than a resource may have.
    let mut store = store_of_eight(alloc, 16_777_217)?;
    let ran = run_client(rt, alloc, line, &mut store, &mut net, &[])?;
    told(rt, line, &ran, 9, written);
    gone_are(rt, line, &net, 0);
    Ok(())
}

#[test]
fn what_cannot_be_sent_makes_no_link(rt: HostRuntime) -> Result<(), AllocError> {
    makes_no_link(&rt, rt.alloc(), "put p 7 3", b"put 7 0 NOT_FOUND 0\n")?;
    makes_no_link(&rt, rt.alloc(), "put p 8 3", b"put 8 3 OUT_OF_RANGE 0\n")
}

// The failing calls of the store, of the linker, of the link's reads and writes, and of the output; then the status, how the
// output ends, and how many links were given back.
type Row = ([&'static [u64]; 5], u8, &'static str, usize);

const FAULTS: &[Row] = &[
    ([&[1], &[], &[], &[], &[]], 5, "store fault\n", 0),
    ([&[], &[1], &[], &[], &[]], 6, "", 0),
    (
        [&[], &[], &[1], &[], &[]],
        3,
        "get 7 0 UNAVAILABLE 0\nsource fault\n",
        1,
    ),
    ([&[], &[], &[], &[1], &[]], 4, "sink fault\n", 1),
    ([&[], &[], &[], &[], &[1]], 4, "", 1),
];

fn has_its_status<R: Threads + Wait + Sync + Abort>(
    rt: &R,
    alloc: Global,
    row: &Row,
) -> Result<(), AllocError> {
    let &([stores, links, reads, writes, outputs], status, written, gone) = row;
    let mut net = failing_link(alloc, Vec::new(alloc), reads, writes, links)?;
    let mut store = store(alloc, stores)?;
    let ran = run_client(rt, alloc, "get p 7 0", &mut store, &mut net, outputs)?;
    status_is(rt, written, ran.status, status);
    is_so(rt, written, ran.output.ends_with(written.as_bytes()));
    gone_are(rt, written, &net, gone);
    Ok(())
}

#[test]
fn a_device_that_fails_has_its_status(rt: HostRuntime) -> Result<(), AllocError> {
    for row in FAULTS {
        has_its_status(&rt, rt.alloc(), row)?;
    }
    Ok(())
}
