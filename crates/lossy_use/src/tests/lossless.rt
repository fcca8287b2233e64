//! Over a link that loses nothing each transfer whose resource is there and whose offset fits ends OK, within its number of chunks.

use super::{is_so, is_stored, is_whole, told};
use std::alloc::{AllocError, Global};
use std::process::Abort;

/// The sizes of a chunk in bytes.
const CHUNKS: &[u64] = &[1, 16, 100, 256];

/// The first windows, in chunks.
const WINDOWS: &[u64] = &[1, 4, 64];

/// How many chunks a resource has, but for a byte.
const MULTIPLES: &[u64] = &[1, 3, 9];

/// A transfer of a resource of so many bytes, from an offset on.
#[derive(Drop)]
struct Row {
    chunk: u64,
    window: u64,
    size: u64,
    offset: u64,
}

// The lengths of resources that are a multiple of a chunk, or one byte beside it.
fn sizes(alloc: Global, chunk: u64) -> Result<Vec<u64>, AllocError> {
    let mut sizes = Vec::new(alloc);
    for multiple in MULTIPLES {
        let size = multiple.saturating_mul(chunk);
        sizes.push(size.saturating_sub(1))?;
        sizes.push(size)?;
        sizes.push(size.saturating_add(1))?;
    }
    Ok(sizes)
}

// Each length with this chunk and window, from its first byte, from its middle and at its end.
fn add_rows(alloc: Global, chunk: u64, window: u64, rows: &mut Vec<Row>) -> Result<(), AllocError> {
    for &size in &sizes(alloc, chunk)? {
        add_row(chunk, window, size, 0, rows)?;
        add_row(chunk, window, size, size / 2, rows)?;
        add_row(chunk, window, size, size, rows)?;
    }
    Ok(())
}

fn add_row(
    chunk: u64,
    window: u64,
    size: u64,
    offset: u64,
    rows: &mut Vec<Row>,
) -> Result<(), AllocError> {
    rows.push(Row {
        chunk,
        window,
        size,
        offset,
    })?;
    Ok(())
}

// The rows of each chunk and window.
fn rows(alloc: Global) -> Result<Vec<Row>, AllocError> {
    let mut rows = Vec::new(alloc);
    for &chunk in CHUNKS {
        for &window in WINDOWS {
            add_rows(alloc, chunk, window, &mut rows)?;
        }
    }
    Ok(rows)
}

// How many chunks the rest of a resource needs, and how many frames carry one at most.
fn most_chunks(row: &Row) -> u64 {
    let rest = row.size.saturating_sub(row.offset);
    let need = rest.div_ceil(row.chunk.max(1)).max(1);
    let twice = need.saturating_mul(2).saturating_add(6);
    let wide = need.saturating_add(need / 32).saturating_add(11);
    twice.min(wide)
}

// Whether the transfer of a script ends OK, its bytes are stored, and each of its frames is delivered, with no more chunks than
// promised.
fn keeps_promise(alloc: Global, row: &Row, script: &str) -> Result<bool, AllocError> {
    let Some(outcome) = told(alloc, script)? else {
        return Ok(false);
    };
    let report = &outcome.report;
    Ok(
        is_whole(report, row.size)
            && is_stored(&outcome, row.size)
            && report.delivered == report.frames
            && report.chunks <= most_chunks(row),
    )
}

/// The end that has the resource, the end where an upload was cut, and what is asked of the transfer.
struct Way {
    owner: &'static str,
    other: &'static str,
    asks: &'static str,
}

const READ: Way = Way {
    owner: "server",
    other: "client",
    asks: "read",
};

const WRITE: Way = Way {
    owner: "client",
    other: "server",
    asks: "write",
};

// The transfer of a row keeps the promise.
fn keeps(rt: &impl Abort, alloc: Global, way: &Way, row: &Row) -> Result<(), AllocError> {
    let Way { owner, other, asks } = way;
    let Row {
        chunk,
        window,
        size,
        offset,
    } = row;
    let script = format!(in alloc;
        "chunk {chunk}\nwindow {window}\n{owner} 7 {size} 1\nleft {other} 7 {size} 1\n{asks} 7 {offset}\n"
    )?;
    let keeps = keeps_promise(alloc, row, script.as_str())?;
    is_so(rt, script.as_str(), keeps);
    Ok(())
}

// So does the transfer of each row.
fn all_keep(rt: &impl Abort, alloc: Global, way: &Way, rows: &[Row]) -> Result<(), AllocError> {
    for row in rows {
        keeps(rt, alloc, way, row)?;
    }
    Ok(())
}

#[test]
fn each_read_ends_well(rt: HostRuntime) -> Result<(), AllocError> {
    let rows = rows(rt.alloc())?;
    assert_eq!(rt; rows.len(), 324);
    all_keep(&rt, rt.alloc(), &READ, &rows)
}

#[test]
fn each_write_ends_well(rt: HostRuntime) -> Result<(), AllocError> {
    all_keep(&rt, rt.alloc(), &WRITE, &rows(rt.alloc())?)
}
