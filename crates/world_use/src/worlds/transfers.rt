//! Transfers over a link that loses nothing.

use super::desk::{ends, tells, told};
use std::alloc::{AllocError, Global};
use std::test::Fail;

// So many reads of one byte.
fn short_reads(alloc: Global, count: u32) -> Result<String, AllocError> {
    let mut text = String::new(alloc);
    text.push_str("server 7 1 1\n")?;
    for _ in 0..count {
        text.push_str("read 7 0\n")?;
    }
    Ok(text)
}

#[test]
fn a_resource_is_read(rt: HostRuntime) -> Result<(), Fail> {
    let script = "server 7 1000 1\nread 7 0\n";
    let report =
        "read 7 0 OK 1000\nframes 11 delivered 11\nchunks 10\nserver 7 1000\nclient 7 1000\n";
    tells(&rt, rt.alloc(), script, report)?;
    Ok(())
}

#[test]
fn a_read_goes_on_at_its_end(rt: HostRuntime) -> Result<(), Fail> {
    let script = "server 7 1000 1\nleft client 7 1000 1\nread 7 1000\n";
    let report =
        "read 7 1000 OK 1000\nframes 7 delivered 7\nchunks 6\nserver 7 1000\nclient 7 1000\n";
    tells(&rt, rt.alloc(), script, report)?;
    Ok(())
}

#[test]
fn a_large_resource_is_read_in_wide_windows(rt: HostRuntime) -> Result<(), Fail> {
    let script = "server 9 65536 1\nread 9 0\n";
    let report =
        "read 9 0 OK 65536\nframes 273 delivered 273\nchunks 272\nserver 9 65536\nclient 9 65536\n";
    tells(&rt, rt.alloc(), script, report)?;
    Ok(())
}

#[test]
fn a_resource_is_written(rt: HostRuntime) -> Result<(), Fail> {
    let script = "client 7 1000 1\nwrite 7 0\n";
    let report =
        "write 7 0 OK 1000\nframes 12 delivered 12\nchunks 11\nserver 7 1000\nclient 7 1000\n";
    tells(&rt, rt.alloc(), script, report)?;
    Ok(())
}

#[test]
fn what_the_client_has_not_is_not_written(rt: HostRuntime) -> Result<(), Fail> {
    let script = "write 7 0\n";
    let report = "write 7 0 NOT_FOUND 0\nframes 0 delivered 0\nchunks 0\n";
    tells(&rt, rt.alloc(), script, report)?;
    Ok(())
}

#[test]
fn what_was_read_is_written(rt: HostRuntime) -> Result<(), Fail> {
    let script = "server 7 300 1\nread 7 0\nwrite 7 0\nread 8 0\n";
    let report =
        "read 7 0 OK 300\nwrite 7 0 OK 300\nread 8 0 NOT_FOUND 0\nframes 20 delivered 20\nchunks 18\nserver 7 300\nclient 7 300\n";
    tells(&rt, rt.alloc(), script, report)?;
    Ok(())
}

// Each read is a session of the one call of Read, which has 256 of them.
#[test]
fn the_256th_read_of_a_call_is_its_last(rt: HostRuntime) -> Result<(), Fail> {
    let text = told(rt.alloc(), short_reads(rt.alloc(), 256)?.as_str())?;
    ends(
        &rt,
        text.as_str(),
        "read 7 0 OK 1\nframes 1537 delivered 1537\nchunks 1536\nserver 7 1\nclient 7 1\n",
    );
    let text = told(rt.alloc(), short_reads(rt.alloc(), 257)?.as_str())?;
    ends(
        &rt,
        text.as_str(),
        "read 7 0 OK 1\nread 7 0 RESOURCE_EXHAUSTED 0\nframes 1540 delivered 1540\nchunks 1539\nserver 7 1\nclient 7 1\n",
    );
    Ok(())
}
