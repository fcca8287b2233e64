//! What a test asserts, with one assertion in each function. `row` names the run in its message.

use super::Ran;
use link_io::MemStore;
use std::alloc::{AllocError, Global};
use std::process::Abort;

/// A run ended with this status, and wrote just these bytes.
pub(super) fn told(rt: &impl Abort, row: &str, ran: &Ran, status: u8, written: &[u8]) {
    status_is(rt, row, ran.status, status);
    wrote(rt, row, &ran.output, written);
}

/// A run ended with this status.
pub(super) fn status_is(rt: &impl Abort, row: &str, status: u8, wanted: u8) {
    assert_eq!(rt; status, wanted, "{row}");
}

/// These bytes were written.
pub(super) fn wrote(rt: &impl Abort, row: &str, output: &[u8], wanted: &[u8]) {
    assert_eq!(rt; output, wanted, "{row}");
}

/// There are so many of them.
pub(super) fn count_is(rt: &impl Abort, row: &str, count: usize, wanted: usize) {
    assert_eq!(rt; count, wanted, "{row}");
}

/// These lines were told.
pub(super) fn lines_are(rt: &impl Abort, row: &str, lines: &[String], wanted: &[String]) {
    assert_eq!(rt; lines, wanted, "{row}");
}

/// It is so.
pub(super) fn is_so(rt: &impl Abort, row: &str, fact: bool) {
    assert!(rt; fact, "{row}");
}

/// The store has resource 7.
pub(super) fn is_stored(rt: &impl Abort, row: &str, store: &MemStore) {
    assert!(rt; store.full(7).is_some(), "{row}");
}

/// The store has no resource 7.
pub(super) fn is_not_stored(rt: &impl Abort, row: &str, store: &MemStore) {
    assert!(rt; store.full(7).is_none(), "{row}");
}

/// The store has these bytes of resource 7.
pub(super) fn stores(rt: &impl Abort, row: &str, store: &MemStore, wanted: &[u8]) {
    let is_whole = match store.full(7) {
        Some(bytes) => bytes.as_slice() == wanted,
        None => false,
    };
    assert!(rt; is_whole, "{row}");
}

/// A row's name: what was run, and a number of it.
pub(super) fn row_of(alloc: Global, line: &str, number: u64) -> Result<String, AllocError> {
    format!(in alloc; "{line}, {number}")
}
