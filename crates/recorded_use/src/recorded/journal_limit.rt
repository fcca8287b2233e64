//! The report of an input of more packets than a journal has room for. A call of Echo adds four entries: its Arrive, Start, Finish and
//! Flush. So the first packet behind 250,000 of them is refused. `store_use` has the frames that are written then.

use super::checks::{is_so, status_is};
use super::{FIRST, run, unhex};
use std::alloc::{AllocError, Global};

// So many REQUESTs of Echo.
fn requests(alloc: Global, times: usize) -> Result<Vec<u8>, AllocError> {
    let once = unhex(alloc, FIRST)?;
    let mut all = Vec::new(alloc);
    for _ in 0..times {
        all.extend_from_slice(&once)?;
    }
    Ok(all)
}

#[test]
fn the_report_tells_that_the_journal_is_full(rt: HostRuntime) -> Result<(), AllocError> {
    let ran = run(rt.alloc(), "replay", requests(rt.alloc(), 250_001)?)?;
    let output = ran.output.as_slice();
    let begins = output.starts_with(b"frames 250001 bad 0 other 0 dropped 0\ncall 0 1 ");
    let ends = output.ends_with(b"\nlimit journal 1000000\n");
    status_is(&rt, "replay", ran.status, 8);
    is_so(&rt, "it begins so", begins);
    is_so(&rt, "it ends so", ends);
    Ok(())
}
