//! A script of which a run fills a journal.

use super::desk::tells;
use std::alloc::{AllocError, Global};
use std::test::Fail;

// Requests that come too late leave 2,000 calls of Read open at the server, and each moment runs them all.
fn many_open_calls(alloc: Global) -> Result<String, AllocError> {
    let mut text = String::new(alloc);
    for read in 0..2_000_u32 {
        writeln!(text, "swap {}", read.saturating_mul(3).saturating_add(1))?;
    }
    for frame in 6_002..6_282 {
        writeln!(text, "drop {frame}")?;
    }
    for _ in 0..2_070 {
        text.push_str("read 7 0\n")?;
    }
    Ok(text)
}

#[test]
fn many_open_calls_fill_a_journal(rt: HostRuntime) -> Result<(), Fail> {
    let script = many_open_calls(rt.alloc())?;
    tells(&rt, rt.alloc(), script.as_str(), "limit journal")?;
    Ok(())
}
