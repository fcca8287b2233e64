//! What a test asserts, with one assertion in each function. `row` is the number of a step, a case or an assertion in its message.
use rpc_ids::Status;
use std::process::Abort;

/// It is so.
pub fn is_so(rt: &impl Abort, fact: bool, row: usize) {
    assert!(rt; fact, "row {row}");
}

/// So a call or a task has ended, if it has.
pub fn end_is(rt: &impl Abort, end: Option<Status>, wanted: Option<Status>, row: usize) {
    assert_eq!(rt; end, wanted, "row {row}");
}

/// There are so many of them.
pub fn count_is(rt: &impl Abort, count: usize, wanted: usize, row: usize) {
    assert_eq!(rt; count, wanted, "row {row}");
}

/// An offset, a length, a name or a word of bells is this.
pub fn number_is(rt: &impl Abort, number: u64, wanted: u64, row: usize) {
    assert_eq!(rt; number, wanted, "row {row}");
}
