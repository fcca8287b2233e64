//! Scripts of one transfer, and of several where an older one still speaks.

ghost use Rattle.std.specs.Prelude.{◌<◌, ◌^◌, length};

mod again;
mod damage;
mod drops;
mod lossless;
mod rounds;

use link_script::text::read_script;
use link_script::{Report, ReportLine};
use link_world::{Outcome, World};
use rpc_ids::Status;
use std::alloc::{AllocError, Global};
use std::process::Abort;

// No script here is longer.
const TEXT_LIMIT: usize = 1_048_576;

/// What the run of a script's text gives, where it is a script and meets no limit.
fn told(alloc: Global, text: &str) -> Result<Option<Outcome>, AllocError> {
    let text = text.as_bytes();
    if text.len() < TEXT_LIMIT {
        told_of(alloc, text)
    } else {
        Ok(None)
    }
}

fn told_of(alloc: Global, text: &[u8]) -> Result<Option<Outcome>, AllocError>
    requires { length text.now < 2 ^ 20 }
{
    let Ok(script) = read_script(alloc, text)? else {
        return Ok(None);
    };
    match World::new(alloc, script)?.run() {
        Ok(outcome) => Ok(Some(outcome)),
        Err(_) => Ok(None),
    }
}

/// Whether the script's one transfer, of resource 7, ended OK, and made it so long.
fn is_whole(report: &Report, size: u64) -> bool {
    match report.lines.as_slice() {
        [
            ReportLine::Read {
                resource: 7,
                status: Status::Okay,
                length,
                ..
            }
            | ReportLine::Write {
                resource: 7,
                status: Status::Okay,
                length,
                ..
            },
        ] => *length == size,
        _ => false,
    }
}

/// Whether these are so many bytes of a script's resource with this seed: the highest eight bits of each number behind it.
fn is_made(bytes: &[u8], seed: u64, size: u64) -> bool {
    let mut x = seed;
    for byte in bytes {
        x = x
            .wrapping_mul(6_364_136_223_846_793_005)
            .wrapping_add(1_442_695_040_888_963_407);
        if u64::from(*byte) != x >> 56 {
            return false;
        }
    }
    bytes.len() as u64 == size
}

/// Whether both ends have the script's resource 7, of seed 1, with so many bytes.
fn is_stored(outcome: &Outcome, size: u64) -> bool {
    match (outcome.server_store.full(7), outcome.client_store.full(7)) {
        (Some(server), Some(client)) => {
            is_made(server.as_slice(), 1, size) && is_made(client.as_slice(), 1, size)
        }
        _ => false,
    }
}

/// Whether the transfer of a script ends OK with all bytes, and these stand in the store.
fn ends_whole(alloc: Global, script: &str, size: u64) -> Result<bool, AllocError> {
    match told(alloc, script)? {
        Some(outcome) => Ok(is_whole(&outcome.report, size) && is_stored(&outcome, size)),
        None => Ok(false),
    }
}

/// The transfer of a script ends OK with all bytes.
fn ends_well(rt: &impl Abort, alloc: Global, script: &str, size: u64) -> Result<(), AllocError> {
    let is_whole = ends_whole(alloc, script, size)?;
    is_so(rt, script, is_whole);
    Ok(())
}

/// The script with this text at its `#`.
fn filled(rt: &impl Abort, alloc: Global, script: &str, text: &str) -> Result<String, AllocError> {
    let Some((front, back)) = script.split_once('#') else {
        panic!(rt; "no place in {script}")
    };
    format!(in alloc; "{front}{text}{back}")
}

/// The transfer of a script ends OK with all bytes, where this text stands at the script's `#`.
fn ends_well_with(
    rt: &impl Abort,
    alloc: Global,
    script: &str,
    text: &str,
    size: u64,
) -> Result<(), AllocError> {
    let script = filled(rt, alloc, script, text)?;
    ends_well(rt, alloc, script.as_str(), size)
}

fn ends_well_at(
    rt: &impl Abort,
    alloc: Global,
    script: &str,
    number: u32,
    size: u64,
) -> Result<(), AllocError> {
    let text = format!(in alloc; "{number}")?;
    ends_well_with(rt, alloc, script, text.as_str(), size)
}

/// So it does where each number from the first to the last stands there.
fn ends_well_at_each(
    rt: &impl Abort,
    alloc: Global,
    script: &str,
    first: u32,
    last: u32,
    size: u64,
) -> Result<(), AllocError> {
    for number in first..=last {
        ends_well_at(rt, alloc, script, number, size)?;
    }
    Ok(())
}

/// It is so of a script's run.
fn is_so(rt: &impl Abort, script: &str, fact: bool) {
    assert!(rt; fact, "{script}");
}
