//! What a test asserts, with one assertion in each function.
use rpc_ids::Status;
use std::process::Abort;

/// It is so. `what` says in the message what is.
pub fn is_so(rt: &impl Abort, what: &str, fact: bool) {
    assert!(rt; fact, "{what}");
}

/// There are so many of them.
pub fn count_is(rt: &impl Abort, what: &str, count: u64, wanted: u64) {
    assert_eq!(rt; count, wanted, "{what}");
}

/// A call or a transfer has ended so.
pub fn end_is(rt: &impl Abort, end: Option<Status>, wanted: Option<Status>) {
    assert_eq!(rt; end, wanted);
}

/// These are the bytes.
pub fn bytes_are(rt: &impl Abort, bytes: &[u8], wanted: &[u8]) {
    assert_eq!(rt; bytes, wanted);
}
