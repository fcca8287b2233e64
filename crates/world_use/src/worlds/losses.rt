//! Transfers over a link that loses, repeats, holds back and damages frames.

use super::desk::{begins, ends, tells, told};
use std::test::Fail;

#[test]
fn the_last_piece_is_lost(rt: HostRuntime) -> Result<(), Fail> {
    let script = "server 7 1000 1\ndrop 8\nread 7 0\n";
    let report =
        "read 7 0 OK 1000\nframes 13 delivered 12\nchunks 12\nserver 7 1000\nclient 7 1000\n";
    tells(&rt, rt.alloc(), script, report)?;
    Ok(())
}

#[test]
fn a_start_is_repeated(rt: HostRuntime) -> Result<(), Fail> {
    let script = "server 7 1000 1\nrepeat 2\nread 7 0\n";
    let report =
        "read 7 0 OK 1000\nframes 12 delivered 13\nchunks 11\nserver 7 1000\nclient 7 1000\n";
    tells(&rt, rt.alloc(), script, report)?;
    Ok(())
}

#[test]
fn pieces_are_swapped(rt: HostRuntime) -> Result<(), Fail> {
    let text = told(rt.alloc(), "server 7 1000 1\nswap 5\nread 7 0\n")?;
    begins(&rt, text.as_str(), "read 7 0 OK 1000\n");
    ends(&rt, text.as_str(), "server 7 1000\nclient 7 1000\n");
    Ok(())
}

#[test]
fn a_start_is_lost_three_times(rt: HostRuntime) -> Result<(), Fail> {
    let script = "server 7 1000 1\ndrop 2\ndrop 3\ndrop 4\nread 7 0\n";
    let report =
        "read 7 0 OK 1000\nframes 14 delivered 11\nchunks 13\nserver 7 1000\nclient 7 1000\n";
    tells(&rt, rt.alloc(), script, report)?;
    Ok(())
}

#[test]
fn a_start_is_lost_four_times(rt: HostRuntime) -> Result<(), Fail> {
    let text = told(
        rt.alloc(),
        "server 7 1000 1\ndrop 2\ndrop 3\ndrop 4\ndrop 5\nread 7 0\n",
    )?;
    begins(&rt, text.as_str(), "read 7 0 DEADLINE_EXCEEDED 0\n");
    Ok(())
}

#[test]
fn the_confirmation_of_a_write_is_lost(rt: HostRuntime) -> Result<(), Fail> {
    let script = "client 7 1000 1\ndrop 4\nwrite 7 0\n";
    let report =
        "write 7 0 OK 1000\nframes 13 delivered 12\nchunks 12\nserver 7 1000\nclient 7 1000\n";
    tells(&rt, rt.alloc(), script, report)?;
    Ok(())
}

#[test]
fn a_lost_piece_halves_the_window(rt: HostRuntime) -> Result<(), Fail> {
    let script = "server 7 2560 1\ndrop 7\nread 7 0\n";
    let report =
        "read 7 0 OK 2560\nframes 28 delivered 27\nchunks 27\nserver 7 2560\nclient 7 2560\n";
    tells(&rt, rt.alloc(), script, report)?;
    Ok(())
}

#[test]
fn the_end_of_a_write_is_never_heard(rt: HostRuntime) -> Result<(), Fail> {
    let text = told(
        rt.alloc(),
        "client 7 10 1\ndrop 7\ndrop 8\ndrop 9\ndrop 10\nwrite 7 0\n",
    )?;
    begins(&rt, text.as_str(), "write 7 0 DEADLINE_EXCEEDED 10\n");
    Ok(())
}

#[test]
fn a_piece_is_damaged(rt: HostRuntime) -> Result<(), Fail> {
    let text = told(rt.alloc(), "server 7 1000 1\nflip 6 100\nread 7 0\n")?;
    begins(&rt, text.as_str(), "read 7 0 OK 1000\n");
    Ok(())
}
