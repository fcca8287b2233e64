//! What a test asserts, with one assertion in each function.

use rpc_ids::Status;
use rpc_journal::{Act, Item, StartRefused};
use rpc_packet::PacketType;
use std::process::Abort;

/// This is the text.
pub fn is_text(rt: &impl Abort, text: &str, want: &str) {
    assert_eq!(rt; text, want);
}

/// These are the bytes.
pub fn are_bytes(rt: &impl Abort, bytes: &[u8], want: &[u8]) {
    assert_eq!(rt; bytes, want);
}

/// This is the number.
pub fn number_is(rt: &impl Abort, number: u64, want: u64) {
    assert_eq!(rt; number, want);
}

/// It is so, or it isn't.
pub fn fact_is(rt: &impl Abort, fact: bool, want: bool) {
    assert_eq!(rt; fact, want);
}

/// All of a piece of so many bytes was taken.
pub fn took(rt: &impl Abort, answer: Result<usize, StartRefused>, length: usize) {
    assert_eq!(rt; answer, Ok(length));
}

// The type and the status of an item that is a packet.
fn told(out: Option<Item>) -> Option<(PacketType, Status)> {
    match out?.act {
        Act::Send(packet) => Some((packet.ptype, Status::of(packet.status))),
        Act::Keep(_) | Act::LeaveCall => None,
    }
}

/// What went out is a packet of this type and status, or nothing.
pub fn is_sent(rt: &impl Abort, out: Option<Item>, want: Option<(PacketType, Status)>) {
    assert_eq!(rt; told(out), want);
}
