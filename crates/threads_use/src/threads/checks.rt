//! What a test asserts, with one assertion in each function. The message names what is asked by the numbers of its case and its step.

use std::process::Abort;
use std::sync::atomic::{AtomicU64, Ordering};

/// A run ended with this status.
pub(super) fn status_is(rt: &impl Abort, case: usize, step: usize, status: u8, wanted: u8) {
    assert_eq!(rt; status, wanted, "case {case}, step {step}");
}

/// These bytes were written.
pub(super) fn wrote(rt: &impl Abort, case: usize, step: usize, output: &[u8], wanted: &[u8]) {
    assert_eq!(rt; output, wanted, "case {case}, step {step}");
}

/// There are so many of them.
pub(super) fn count_is(rt: &impl Abort, case: usize, step: usize, count: usize, wanted: usize) {
    assert_eq!(rt; count, wanted, "case {case}, step {step}");
}

/// It is so.
pub(super) fn is_so(rt: &impl Abort, case: usize, step: usize, fact: bool) {
    assert!(rt; fact, "case {case}, step {step}");
}

/// A gate or a device counted so much.
pub(super) fn word_is(rt: &impl Abort, what: &str, word: &AtomicU64, wanted: u64) {
    assert_eq!(rt; word.load(Ordering::SeqCst), wanted, "{what}");
}
