//! Losses round by round: what lies between two turns of time is a round, and one that loses no chunk among the first four is enough.

use super::{ends_well_with, filled, is_so, is_stored, told};
use link_script::{Report, ReportLine};
use link_world::Outcome;
use rpc_ids::Status;
use std::alloc::{AllocError, Global};
use std::process::Abort;
use std::test::Fail;

/// No burst is longer, in frames.
const MOST: u32 = 12;

/// The resource has sixteen chunks, all of which go out in one round.
const LONG: u64 = 4000;

/// The resource has three chunks, of which the last is short.
const SHORT: u64 = 600;

/// The first frames of a read and of a write that carry a piece.
const FIRST_READ: u32 = 5;

const FIRST_WRITE: u32 = 6;

/// How a transfer of resource 7 ends, and the length that its line tells.
struct Row {
    script: &'static str,
    status: Status,
    length: u64,
}

/// Three lossy rounds, and the fourth: START is asked with again at each turn of time.
const START_LOST: &[Row] = &[
    Row {
        script: "server 7 600 1\ndrop 2\ndrop 3\ndrop 4\nread 7 0\n",
        status: Status::Okay,
        length: SHORT,
    },
    Row {
        script: "server 7 600 1\ndrop 2\ndrop 3\ndrop 4\ndrop 5\nread 7 0\n",
        status: Status::DeadlineExceeded,
        length: 0,
    },
    Row {
        script: "client 7 600 1\ndrop 2\ndrop 3\ndrop 4\nwrite 7 0\n",
        status: Status::Okay,
        length: SHORT,
    },
    Row {
        script: "client 7 600 1\ndrop 2\ndrop 3\ndrop 4\ndrop 5\nwrite 7 0\n",
        status: Status::DeadlineExceeded,
        length: 0,
    },
    Row {
        script: "drop 2\ndrop 3\ndrop 4\nread 7 0\n",
        status: Status::NotFound,
        length: 0,
    },
    Row {
        script: "drop 2\ndrop 3\ndrop 4\ndrop 5\nread 7 0\n",
        status: Status::DeadlineExceeded,
        length: 0,
    },
];

/// As many turns of time as a transfer of one chunk can take: a read ten, a write twelve with OK and fourteen else.
const MOST_TURNS: &[Row] = &[
    Row {
        script: "chunk 8\nserver 7 7 1\ndrop 2\ndrop 3\ndrop 4\ndrop 8\ndrop 9\ndrop 10\ndrop 13\ndrop 14\ndrop 15\ndrop 16\nread 7 0\n",
        status: Status::Okay,
        length: 7,
    },
    Row {
        script: "chunk 8\nclient 7 7 1\ndrop 2\ndrop 3\ndrop 4\ndrop 7\ndrop 8\ndrop 9\ndrop 12\ndrop 13\ndrop 14\ndrop 17\ndrop 18\ndrop 19\nwrite 7 0\n",
        status: Status::Okay,
        length: 7,
    },
    Row {
        script: "chunk 8\nclient 7 7 1\ndrop 2\ndrop 3\ndrop 4\ndrop 7\ndrop 8\ndrop 9\ndrop 12\ndrop 13\ndrop 14\ndrop 17\ndrop 18\ndrop 19\ndrop 20\nwrite 7 0\n",
        status: Status::DeadlineExceeded,
        length: 7,
    },
];

/// What no promise holds for. The REQUEST and a read's confirmation aren't sent again. Where frames are kept back, a round without a
/// drop may end nothing, and then three drops are too many. A write that was told DEADLINE_EXCEEDED may have been stored.
const NOT_PROMISED: &[Row] = &[
    Row {
        script: "server 7 600 1\ndrop 1\nread 7 0\n",
        status: Status::FailedPrecondition,
        length: 0,
    },
    Row {
        script: "server 7 600 1\ndrop 4\nread 7 0\n",
        status: Status::DeadlineExceeded,
        length: 0,
    },
    Row {
        script: "window 2\nserver 7 700 1\nswap 5\nswap 7\nread 7 0\n",
        status: Status::Okay,
        length: 700,
    },
    Row {
        script: "window 2\nserver 7 700 1\nswap 5\nswap 7\ndrop 10\ndrop 11\ndrop 12\nread 7 0\n",
        status: Status::DeadlineExceeded,
        length: 0,
    },
    Row {
        script: "window 2\nclient 7 700 1\nswap 6\nswap 8\ndrop 11\ndrop 12\ndrop 13\nwrite 7 0\n",
        status: Status::DeadlineExceeded,
        length: 0,
    },
    Row {
        script: "client 7 200 1\ndrop 7\ndrop 8\ndrop 9\ndrop 10\nwrite 7 0\n",
        status: Status::DeadlineExceeded,
        length: 200,
    },
];

/// Whether the script's one transfer ended so, and what its line tells stands in the store.
fn ended_so(outcome: &Outcome, status: Status, size: u64) -> bool {
    is_told(&outcome.report, status, size) && (size == 0 || is_stored(outcome, size))
}

/// Whether the line of the script's one transfer says so.
fn is_told(report: &Report, status: Status, size: u64) -> bool {
    match report.lines.as_slice() {
        [
            ReportLine::Read {
                resource: 7,
                status: told,
                length,
                ..
            }
            | ReportLine::Write {
                resource: 7,
                status: told,
                length,
                ..
            },
        ] => *told == status && *length == size,
        _ => false,
    }
}

// The transfer of a script ends so.
fn ends_so(
    rt: &impl Abort,
    alloc: Global,
    script: &str,
    status: Status,
    length: u64,
) -> Result<(), AllocError> {
    let outcome = told(alloc, script)?;
    is_so(
        rt,
        script,
        outcome.is_some_and(|outcome| ended_so(&outcome, status, length)),
    );
    Ok(())
}

// The transfer of each row ends as it says.
fn all_end_so(rt: &impl Abort, alloc: Global, rows: &[Row]) -> Result<(), AllocError> {
    for row in rows {
        ends_so(rt, alloc, row.script, row.status, row.length)?;
    }
    Ok(())
}

#[test]
fn three_lossy_rounds_are_survived_and_four_are_not(rt: HostRuntime) -> Result<(), Fail> {
    all_end_so(&rt, rt.alloc(), START_LOST)?;
    Ok(())
}

#[test]
fn each_ends_though_it_takes_the_most_turns(rt: HostRuntime) -> Result<(), Fail> {
    all_end_so(&rt, rt.alloc(), MOST_TURNS)?;
    Ok(())
}

#[test]
fn what_is_not_promised_of_losses(rt: HostRuntime) -> Result<(), Fail> {
    all_end_so(&rt, rt.alloc(), NOT_PROMISED)?;
    Ok(())
}

// The lines of so many losses, one behind the other.
fn burst(alloc: Global, first: u32, many: u32) -> Result<String, AllocError> {
    let mut lines = String::new(alloc);
    for lost in 0..many {
        let frame = first.saturating_add(lost);
        write!(lines, "drop {frame}\n")?;
    }
    Ok(lines)
}

// Where so many frames from the first on are lost, whose lines stand at the script's `#`, the transfer ends OK.
fn survives(
    rt: &impl Abort,
    alloc: Global,
    script: &str,
    first: u32,
    many: u32,
) -> Result<(), AllocError> {
    let drops = burst(alloc, first, many)?;
    ends_well_with(rt, alloc, script, drops.as_str(), LONG)
}

fn survives_each(
    rt: &impl Abort,
    alloc: Global,
    script: &str,
    first: u32,
) -> Result<(), AllocError> {
    for many in 1..=MOST {
        survives(rt, alloc, script, first, many)?;
    }
    Ok(())
}

#[test]
fn a_read_survives_a_burst_in_one_round(rt: HostRuntime) -> Result<(), AllocError> {
    let script = "window 16\nserver 7 4000 1\n#read 7 0\n";
    survives_each(&rt, rt.alloc(), script, FIRST_READ)
}

#[test]
fn a_write_survives_a_burst_in_one_round(rt: HostRuntime) -> Result<(), AllocError> {
    let script = "window 16\nclient 7 4000 1\n#write 7 0\n";
    survives_each(&rt, rt.alloc(), script, FIRST_WRITE)
}

// Three frames of a burst are the pieces, and each further one is the ask of a round.
fn short_status(many: u32) -> Status {
    if many <= 5 {
        Status::Okay
    } else {
        Status::DeadlineExceeded
    }
}

// The transfer of a short resource ends so behind a burst.
fn burst_ends_so(
    rt: &impl Abort,
    alloc: Global,
    script: &str,
    first: u32,
    many: u32,
) -> Result<(), AllocError> {
    let drops = burst(alloc, first, many)?;
    let script = filled(rt, alloc, script, drops.as_str())?;
    let length = if many <= 5 { SHORT } else { 0 };
    ends_so(rt, alloc, script.as_str(), short_status(many), length)
}

fn each_burst_ends_so(
    rt: &impl Abort,
    alloc: Global,
    script: &str,
    first: u32,
) -> Result<(), AllocError> {
    for many in 1..=MOST {
        burst_ends_so(rt, alloc, script, first, many)?;
    }
    Ok(())
}

#[test]
fn a_burst_over_the_rounds_is_survived_up_to_the_third(rt: HostRuntime) -> Result<(), AllocError> {
    let read = "server 7 600 1\n#read 7 0\n";
    let write = "client 7 600 1\n#write 7 0\n";
    each_burst_ends_so(&rt, rt.alloc(), read, FIRST_READ)?;
    each_burst_ends_so(&rt, rt.alloc(), write, FIRST_WRITE)
}

/// One loss, by which 64 pieces of a wide window are thrown away, and two asks more: 66 chunks above the bound.
const WIDE: &str = "chunk 128\nwindow 1\nclient 7 32000 1\ndrop 110\nwrite 7 0\n";

/// The bound of 250 pieces where nothing is lost.
const WIDE_BOUND: u64 = 268;

#[test]
fn one_loss_may_cost_66_chunks(rt: HostRuntime) -> Result<(), Fail> {
    let outcome = told(rt.alloc(), WIDE)?;
    is_so(
        &rt,
        WIDE,
        outcome.is_some_and(|outcome| {
            ended_so(&outcome, Status::Okay, 32_000) && outcome.report.chunks == WIDE_BOUND + 66
        }),
    );
    Ok(())
}
