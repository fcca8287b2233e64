//! What `bench/crew` measures: a session of calls whose handlers turn a number over and over.

mod timed;
mod turning;

use std::alloc::Global;
use std::sync::Wait;
use std::thread::Threads;
use std::time::Clock;
use timed::{Timing, Work, timed};

/// Serves so many calls by so many workers, each handler turning its number so often.
pub fn measure<R: Threads + Wait + Clock + Sync>(
    rt: &R,
    alloc: Global,
    workers: u32,
    calls: u32,
    rounds: u32,
) -> anyhow::Result<Timing> {
    timed(
        rt,
        alloc,
        Work {
            workers,
            calls,
            rounds,
        },
    )
}

/// Prints how many replies were written and their octets, and to standard error the nanoseconds that the session took.
pub fn tell(rt: &HostRuntime, did: Timing) -> anyhow::Result<()> {
    println!(rt; "replies {} octets {}", did.replies, did.octets)?;
    eprintln!(rt; "{}", did.taken.as_nanos())?;
    Ok(())
}
