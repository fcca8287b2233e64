//! An input of more packets than a journal has room for. A call of Echo adds four entries: its Arrive, Start, Finish and Flush. So the
//! first packet behind 250,000 of them is refused. `recorded_use` has the report of such an input.

use super::checks::{is_so, status_is};
use super::{FIRST, FIRST_FRAME, empty_store, run_storing};
use std::alloc::{AllocError, Global};

// These bytes, so many times.
fn repeated(alloc: Global, once: &[u8], times: usize) -> Result<Vec<u8>, AllocError> {
    let mut all = Vec::new(alloc);
    for _ in 0..times {
        all.extend_from_slice(once)?;
    }
    Ok(all)
}

#[test]
fn the_frames_end_where_the_journal_is_full(rt: HostRuntime) -> Result<(), AllocError> {
    let alloc = rt.alloc();
    let content = repeated(alloc, FIRST, 250_001)?;
    let mut store = empty_store(alloc, 0)?;
    let ran = run_storing(alloc, "replay raw", content, &mut store)?;
    let wanted = repeated(alloc, FIRST_FRAME, 250_000)?;
    status_is(&rt, "replay raw", 0, ran.status, 8);
    is_so(
        &rt,
        "replay raw",
        0,
        ran.output.bytes() == wanted.as_slice(),
    );
    Ok(())
}
