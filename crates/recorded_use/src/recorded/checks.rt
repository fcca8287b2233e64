//! What a test asserts, with one assertion in each function. `row` names the run in its message.

use super::Ran;
use std::process::Abort;

/// A run ended with this status, and wrote just these bytes.
pub(super) fn told(rt: &impl Abort, row: &str, ran: &Ran, status: u8, written: &[u8]) {
    status_is(rt, row, ran.status, status);
    wrote(rt, row, &ran.output, written);
}

/// A run ended with this status.
pub(super) fn status_is(rt: &impl Abort, row: &str, status: u8, wanted: u8) {
    assert_eq!(rt; status, wanted, "{row}");
}

/// These bytes were written.
pub(super) fn wrote(rt: &impl Abort, row: &str, output: &[u8], wanted: &[u8]) {
    assert_eq!(rt; output, wanted, "{row}");
}

/// There are so many of them.
pub(super) fn count_is(rt: &impl Abort, row: &str, count: usize, wanted: usize) {
    assert_eq!(rt; count, wanted, "{row}");
}

/// It is so.
pub(super) fn is_so(rt: &impl Abort, row: &str, fact: bool) {
    assert!(rt; fact, "{row}");
}
