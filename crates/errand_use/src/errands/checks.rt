//! What a test asserts, with one assertion in each function. `row` names the run in its message.

use super::Ran;
use link_io::MemLinker;
use std::process::Abort;

/// A run ended with this status, and wrote just these bytes.
pub(super) fn told(rt: &impl Abort, row: &str, ran: &Ran, status: u8, written: &[u8]) {
    status_is(rt, row, ran.status, status);
    wrote(rt, row, &ran.output, written);
}

/// A run ended with this status.
pub(super) fn status_is(rt: &impl Abort, row: &str, status: u8, wanted: u8) {
    assert_eq!(rt; status, wanted, "{row}");
}

/// These bytes were written.
pub(super) fn wrote(rt: &impl Abort, row: &str, output: &[u8], wanted: &[u8]) {
    assert_eq!(rt; output, wanted, "{row}");
}

/// It is so.
pub(super) fn is_so(rt: &impl Abort, row: &str, fact: bool) {
    assert!(rt; fact, "{row}");
}

/// So many links were given back.
pub(super) fn gone_are(rt: &impl Abort, row: &str, net: &MemLinker, count: usize) {
    assert_eq!(rt; net.gone().len(), count, "{row}");
}
