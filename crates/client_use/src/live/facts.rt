//! What is asked of what a live client did.
use crate::checks::{count_is, end_is, number_is};
use bytes::Bytes;
use link_io::Why;
use live_client::Live;
use rpc_ids::Status;
use std::process::Abort;

/// One thing about what it did.
#[derive(Clone, Copy)]
pub enum Fact {
    /// It ended for this reason.
    Stopped(Why),
    /// So its transfer or its call ended.
    Ended(Status),
    /// Its transfer began at this offset.
    From(u64),
    /// Its transfer made a resource of so many bytes whole, or none where it is 0.
    Length(u64),
    /// It kept so many messages.
    Kept(usize),
    /// It kept these messages, in this order.
    Messages(&'static [&'static [u8]]),
}

pub fn why_is(rt: &impl Abort, why: Why, wanted: Why, row: usize) {
    assert_eq!(rt; why, wanted, "row {row}");
}

fn messages_are(rt: &impl Abort, messages: &[Bytes], wanted: &[&[u8]], row: usize) {
    let same = messages.len() == wanted.len()
        && messages
            .iter()
            .zip(wanted.iter())
            .all(|(message, want)| message.as_slice() == *want);
    assert!(rt; same, "row {row}");
}

fn holds(rt: &impl Abort, did: &Live, fact: Fact, row: usize) {
    match fact {
        Fact::Stopped(why) => why_is(rt, did.why, why, row),
        Fact::Ended(end) => end_is(rt, did.ended, Some(end), row),
        Fact::From(offset) => number_is(rt, did.from, offset, row),
        Fact::Length(length) => number_is(rt, did.length, length, row),
        Fact::Kept(count) => count_is(rt, did.messages.len(), count, row),
        Fact::Messages(wanted) => messages_are(rt, &did.messages, wanted, row),
    }
}

/// All of these hold.
pub fn hold(rt: &impl Abort, did: &Live, facts: &[Fact]) {
    for (row, fact) in facts.iter().enumerate() {
        holds(rt, did, *fact, row);
    }
}
