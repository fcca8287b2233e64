//! Calls that are no transfers, and channels that are closed.

use super::desk::tells;
use std::test::Fail;

#[test]
fn calls_of_each_kind(rt: HostRuntime) -> Result<(), Fail> {
    let script = "echo 616263\ncount 3\nsum 010203\nchat 6162\n";
    let report =
        "echo OK 616263\ncount OK 3\nsum OK 0000000000000006\nchat OK 2\nframes 20 delivered 20\nchunks 0\n";
    tells(&rt, rt.alloc(), script, report)?;
    Ok(())
}

#[test]
fn the_longest_count(rt: HostRuntime) -> Result<(), Fail> {
    let script = "count 64\n";
    let report = "count OK 64\nframes 66 delivered 66\nchunks 0\n";
    tells(&rt, rt.alloc(), script, report)?;
    Ok(())
}

#[test]
fn calls_whose_answers_are_lost(rt: HostRuntime) -> Result<(), Fail> {
    let script = "drop 2\necho 616263\ncount 65\n";
    let report = "echo CANCELLED -\ncount INVALID_ARGUMENT 0\nframes 5 delivered 4\nchunks 0\n";
    tells(&rt, rt.alloc(), script, report)?;
    Ok(())
}

#[test]
fn a_channel_is_closed(rt: HostRuntime) -> Result<(), Fail> {
    let script = "server 7 10 1\nread 7 0\nclose 1\ncount 3\n";
    let report =
        "read 7 0 OK 10\nclose 1 1\ncount UNAVAILABLE 0\nframes 10 delivered 10\nchunks 6\nserver 7 10\nclient 7 10\n";
    tells(&rt, rt.alloc(), script, report)?;
    Ok(())
}

#[test]
fn a_channel_is_closed_again(rt: HostRuntime) -> Result<(), Fail> {
    let script = "close 1\nclose 1\nread 7 0\n";
    let report =
        "close 1 0\nclose 1 NOT_IN\nread 7 0 UNAVAILABLE 0\nframes 4 delivered 4\nchunks 1\n";
    tells(&rt, rt.alloc(), script, report)?;
    Ok(())
}
