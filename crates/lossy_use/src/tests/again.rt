//! A write whose last acknowledgement is lost tells its end again while a later transfer waits, and that comes to nothing.

use super::{is_made, is_so, told};
use link_script::{Report, ReportLine};
use link_world::Outcome;
use rpc_ids::Status;
use std::alloc::{AllocError, Global};
use std::process::Abort;
use std::test::Fail;

/// Both resources have three chunks, of which the last is short.
const SIZE: u64 = 600;

/// The frame of the write's COMPLETION_ACK, the last one of its ten chunks, behind the one that opens the call.
const ACK: u32 = 11;

/// The frames of the read that carry its pieces and what follows them begin here, behind its REQUEST, START, START_ACK and
/// confirmation.
const FIRST_PIECE: u32 = 16;

/// One loss comes before this frame, and one from it on.
const MIDDLE: u32 = 20;

const LAST: u32 = 26;

// Where these two frames are lost beside the acknowledgement, both transfers end well.
fn end_well(rt: &impl Abort, alloc: Global, first: u32, second: u32) -> Result<(), AllocError> {
    let script = format!(in alloc;
        "client 7 {SIZE} 1\nserver 8 {SIZE} 2\ndrop {ACK}\ndrop {first}\ndrop {second}\nwrite 7 0\nread 8 0\n"
    )?;
    let outcome = told(alloc, script.as_str())?;
    is_so(
        rt,
        script.as_str(),
        outcome.is_some_and(|outcome| all_end_well(&outcome.report) && are_stored(&outcome)),
    );
    Ok(())
}

#[test]
fn a_write_that_is_not_acknowledged_disturbs_no_read(rt: HostRuntime) -> Result<(), Fail> {
    for first in FIRST_PIECE..MIDDLE {
        for second in MIDDLE..=LAST {
            end_well(&rt, rt.alloc(), first, second)?;
        }
    }
    Ok(())
}

/// Whether the write and the read ended OK with all bytes.
fn all_end_well(report: &Report) -> bool {
    match report.lines.as_slice() {
        [
            ReportLine::Write {
                resource: 7,
                status: Status::Okay,
                length: SIZE,
                ..
            },
            ReportLine::Read {
                resource: 8,
                status: Status::Okay,
                length: SIZE,
                ..
            },
        ] => true,
        _ => false,
    }
}

/// Whether the server has what was written, and the client what was read.
fn are_stored(outcome: &Outcome) -> bool {
    match (outcome.server_store.full(7), outcome.client_store.full(8)) {
        (Some(written), Some(read)) => {
            is_made(written.as_slice(), 1, SIZE) && is_made(read.as_slice(), 2, SIZE)
        }
        _ => false,
    }
}
