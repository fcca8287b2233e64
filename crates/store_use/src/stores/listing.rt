//! Stores that can't be listed, and commands that touch none.

use super::checks::{is_unread, status_is, stores, told};
use super::{FIRST, FIRST_REPORT, run_failing, run_storing};
use bytes::Bytes;
use link_io::{Fulls, MemSource, MemStore};
use std::alloc::{AllocError, Global};
use std::process::Abort;

// A store with resource 7, whose call with this number fails.
fn store(alloc: Global, fail: u64) -> Result<MemStore, AllocError> {
    let mut full = Fulls::new(alloc);
    full.push((7, Bytes::copy_from_slice(alloc, b"seven")?))?;
    let fails = Vec::from_slice(alloc, &[fail])?;
    MemStore::new(alloc, full, Fulls::new(alloc), fails)
}

// The command ends at the list, with nothing read, and writes this.
fn ends_at_list(
    rt: &impl Abort,
    alloc: Global,
    line: &str,
    written: &[u8],
) -> Result<(), AllocError> {
    let mut input = MemSource::new(Vec::from_slice(alloc, FIRST)?, Vec::new(alloc));
    let ran = run_failing(alloc, line, &mut input, 0, &mut store(alloc, 1)?)?;
    told(rt, line, 0, &ran, 5, written);
    is_unread(rt, line, &mut input);
    Ok(())
}

#[test]
fn a_store_that_cannot_be_listed_is_told(rt: HostRuntime) -> Result<(), AllocError> {
    let report = b"frames 0 bad 0 other 0 dropped 0\nstore fault\n";
    ends_at_list(&rt, rt.alloc(), "replay", report)?;
    ends_at_list(&rt, rt.alloc(), "replay raw", b"")?;
    ends_at_list(&rt, rt.alloc(), "replay journal", b"journal\n")
}

#[test]
fn a_store_is_listed_once_and_kept(rt: HostRuntime) -> Result<(), AllocError> {
    let alloc = rt.alloc();
    let mut store = store(alloc, 2)?;
    let content = Vec::from_slice(alloc, FIRST)?;
    let ran = run_storing(alloc, "replay", content, &mut store)?;
    told(&rt, "replay", 0, &ran, 0, FIRST_REPORT);
    stores(&rt, "stored", 0, &store, 7, Some(b"seven"));
    Ok(())
}

// Each call of the store would fail.
fn touches_no_store(rt: &impl Abort, alloc: Global, line: &str) -> Result<(), AllocError> {
    let content = Vec::from_slice(alloc, b"journal")?;
    let ran = run_storing(alloc, line, content, &mut store(alloc, 1)?)?;
    status_is(rt, line, 0, ran.status, 0);
    Ok(())
}

#[test]
fn other_commands_touch_no_store(rt: HostRuntime) -> Result<(), AllocError> {
    touches_no_store(&rt, rt.alloc(), "check")?;
    touches_no_store(&rt, rt.alloc(), "load 4 7")
}
