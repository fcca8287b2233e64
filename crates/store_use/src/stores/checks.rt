//! What a test asserts, with one assertion in each function. The message has the row of a table, or the words of a command, and a number
//! of it.

use super::Ran;
use bytes::Bytes;
use link_io::{MemSource, MemStore, Source};
use std::process::Abort;

/// A run ended with this status, and wrote just these bytes.
pub(super) fn told(rt: &impl Abort, row: &str, number: u64, ran: &Ran, status: u8, written: &[u8]) {
    status_is(rt, row, number, ran.status, status);
    wrote(rt, row, number, ran.output.bytes(), written);
}

/// A run ended with this status.
pub(super) fn status_is(rt: &impl Abort, row: &str, number: u64, status: u8, wanted: u8) {
    assert_eq!(rt; status, wanted, "{row}, {number}");
}

/// These bytes were written.
pub(super) fn wrote(rt: &impl Abort, row: &str, number: u64, output: &[u8], wanted: &[u8]) {
    assert_eq!(rt; output, wanted, "{row}, {number}");
}

/// There are so many of them.
pub(super) fn count_is(rt: &impl Abort, row: &str, number: u64, count: usize, wanted: usize) {
    assert_eq!(rt; count, wanted, "{row}, {number}");
}

/// It is so.
pub(super) fn is_so(rt: &impl Abort, row: &str, number: u64, fact: bool) {
    assert!(rt; fact, "{row}, {number}");
}

/// No byte of the input was read.
pub(super) fn is_unread(rt: &impl Abort, row: &str, input: &mut MemSource) {
    is_so(rt, row, 0, matches!(input.read(&mut [0]), Ok(1)));
}

/// A store has found just these bytes of a resource, or none.
pub(super) fn is_found(found: Option<&Bytes>, wanted: Option<&[u8]>) -> bool {
    match (found, wanted) {
        (Some(bytes), Some(wanted)) => bytes.as_slice() == wanted,
        (None, None) => true,
        _ => false,
    }
}

/// The store has just these bytes of a resource, or none of it.
pub(super) fn stores(
    rt: &impl Abort,
    row: &str,
    number: u64,
    store: &MemStore,
    resource: u32,
    wanted: Option<&[u8]>,
) {
    is_so(rt, row, number, is_found(store.full(resource), wanted));
}
