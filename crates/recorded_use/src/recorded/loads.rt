//! Streams that are made from a number.

use super::checks::told;
use super::run_on;
use link_io::MemSource;
use std::alloc::{AllocError, Global};
use std::process::Abort;

// The command, and what it writes.
const LOADS: &[(&str, &str)] = &[
    ("load 0 1", "load 0 1\ncalls 0\npackets 0\npayload 0\n"),
    ("load 1 1", "load 1 1\ncalls 1\npackets 1\npayload 3\n"),
    (
        "load 40 7",
        "load 40 7\ncalls 40\npackets 411\npayload 481\n",
    ),
    // The same at each run.
    (
        "load 3000 7",
        "load 3000 7\ncalls 3000\npackets 30301\npayload 35551\n",
    ),
    (
        "load 3000 7",
        "load 3000 7\ncalls 3000\npackets 30301\npayload 35551\n",
    ),
    (
        "load 10000 1",
        "load 10000 1\ncalls 10000\npackets 99579\npayload 117079\n",
    ),
];

// The input isn't read: each read of it would fail.
fn is_loaded(rt: &impl Abort, alloc: Global, line: &str, lines: &str) -> Result<(), AllocError> {
    let mut input = MemSource::new(Vec::new(alloc), Vec::from_slice(alloc, &[1])?);
    let ran = run_on(alloc, line, &mut input)?;
    told(rt, line, &ran, 0, lines.as_bytes());
    Ok(())
}

#[test]
fn a_load_has_its_four_lines(rt: HostRuntime) -> Result<(), AllocError> {
    for &(line, lines) in LOADS {
        is_loaded(&rt, rt.alloc(), line, lines)?;
    }
    Ok(())
}
