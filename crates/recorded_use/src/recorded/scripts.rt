//! Scripts of both ends over a lossy link, run by `link`.

use super::{is_silent_at_a_fault, tells};
use std::alloc::AllocError;

// The text, the status, and what is written.
const SCRIPTS: &[(&str, u8, &str)] = &[
    (
        "server 7 1000 1\ndrop 8\nread 7 0\n",
        0,
        "read 7 0 OK 1000\nframes 13 delivered 12\nchunks 12\nserver 7 1000\nclient 7 1000\n",
    ),
    (
        "client 7 1000 1\nwrite 7 0",
        0,
        "write 7 0 OK 1000\nframes 12 delivered 12\nchunks 11\nserver 7 1000\nclient 7 1000\n",
    ),
    (
        "drop 2\necho 616263\n",
        0,
        "echo CANCELLED -\nframes 3 delivered 2\nchunks 0\n",
    ),
    ("", 0, "frames 0 delivered 0\nchunks 0\n"),
    ("count 3\ndrop 1\n", 7, "script line 2\n"),
    ("server 7 1000 1\n\nread 7 0\n", 7, "script line 2\n"),
    ("window 65\n", 7, "script line 1\n"),
];

#[test]
fn a_script_is_run(rt: HostRuntime) -> Result<(), AllocError> {
    for &(text, status, written) in SCRIPTS {
        tells(&rt, rt.alloc(), "link", text, status, written)?;
    }
    Ok(())
}

#[test]
fn no_script_is_run_at_a_source_fault(rt: HostRuntime) -> Result<(), AllocError> {
    is_silent_at_a_fault(&rt, rt.alloc(), "link", "echo 616263\n")
}
