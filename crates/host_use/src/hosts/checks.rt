//! What a test asserts, with one assertion in each function. `row` names the run in its message.

use super::Hosted;
use bytes::Bytes;
use std::process::Abort;

/// A run ended with this status, wrote these lines, and gave so many links back.
pub(super) fn hosted(
    rt: &impl Abort,
    row: &str,
    run: &Hosted,
    status: u8,
    lines: &str,
    back: usize,
) {
    status_is(rt, row, run.status, status);
    wrote(rt, row, run.output.bytes(), lines.as_bytes());
    count_is(rt, row, run.net.gone().len(), back);
}

/// A run ended with this status.
pub(super) fn status_is(rt: &impl Abort, row: &str, status: u8, wanted: u8) {
    assert_eq!(rt; status, wanted, "{row}");
}

/// These bytes were written.
pub(super) fn wrote(rt: &impl Abort, row: &str, written: &[u8], wanted: &[u8]) {
    assert_eq!(rt; written, wanted, "{row}");
}

/// There are so many of them.
pub(super) fn count_is(rt: &impl Abort, row: &str, count: usize, wanted: usize) {
    assert_eq!(rt; count, wanted, "{row}");
}

/// The store has just these bytes there.
pub(super) fn holds(rt: &impl Abort, row: &str, found: Option<&Bytes>, wanted: &[u8]) {
    let is_held = match found {
        Some(bytes) => bytes.as_slice() == wanted,
        None => false,
    };
    is_so(rt, row, is_held);
}

/// It is so.
pub(super) fn is_so(rt: &impl Abort, row: &str, fact: bool) {
    assert!(rt; fact, "{row}");
}
