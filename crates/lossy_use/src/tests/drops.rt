//! Up to three chunk frames of a short transfer are lost, and it ends OK.

use super::{ends_well_at_each, ends_well_with};
use std::alloc::{AllocError, Global};
use std::process::Abort;

/// The resource has three chunks, of which the last is short.
const SIZE: u64 = 600;

/// The first frame that carries a chunk is the second, behind the one that opens the call. A write says no more than its
/// eleven chunks and, with three of them lost, what is said again.
const FIRST: u32 = 2;

const LAST: u32 = 14;

/// The frames of a read that carry its pieces and what follows them, behind its confirmation, which is frame 4.
const FIRST_PIECE: u32 = 5;

// A read's confirmation is frame 4, which isn't sent again.
#[test]
fn a_read_ends_well_without_any_one_chunk(rt: HostRuntime) -> Result<(), AllocError> {
    let script = "server 7 600 1\ndrop #\nread 7 0\n";
    ends_well_at_each(&rt, rt.alloc(), script, FIRST, 3, SIZE)?;
    ends_well_at_each(&rt, rt.alloc(), script, FIRST_PIECE, LAST, SIZE)
}

#[test]
fn a_write_ends_well_without_any_one_chunk(rt: HostRuntime) -> Result<(), AllocError> {
    let script = "client 7 600 1\ndrop #\nwrite 7 0\n";
    ends_well_at_each(&rt, rt.alloc(), script, FIRST, LAST, SIZE)
}

// The transfer without these frames, whose lines stand at the script's `#`.
fn ends_well_without(
    rt: &impl Abort,
    alloc: Global,
    script: &str,
    first: u32,
    second: u32,
    third: u32,
) -> Result<(), AllocError> {
    let drops = drops(alloc, first, second, third)?;
    ends_well_with(rt, alloc, script, drops.as_str(), SIZE)
}

// The transfer without any three frames from this one on.
fn ends_well_without_any(
    rt: &impl Abort,
    alloc: Global,
    script: &str,
    from: u32,
) -> Result<(), AllocError> {
    for first in from..=LAST {
        for second in first..=LAST {
            for third in second..=LAST {
                ends_well_without(rt, alloc, script, first, second, third)?;
            }
        }
    }
    Ok(())
}

#[test]
fn a_read_ends_well_without_any_pieces(rt: HostRuntime) -> Result<(), AllocError> {
    let script = "server 7 600 1\n#read 7 0\n";
    ends_well_without_any(&rt, rt.alloc(), script, FIRST_PIECE)
}

#[test]
fn a_write_ends_well_without_any_three_chunks(rt: HostRuntime) -> Result<(), AllocError> {
    let script = "client 7 600 1\n#write 7 0\n";
    ends_well_without_any(&rt, rt.alloc(), script, FIRST)
}

// The lines of these losses, each frame once: a single frame and pairs are among the triples.
fn drops(alloc: Global, first: u32, second: u32, third: u32) -> Result<String, AllocError> {
    let mut lines = format!(in alloc; "drop {first}\n")?;
    if second != first {
        write!(lines, "drop {second}\n")?;
    }
    if third != second {
        write!(lines, "drop {third}\n")?;
    }
    Ok(lines)
}
