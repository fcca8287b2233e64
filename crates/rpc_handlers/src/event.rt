//! What a handler is given: an event, and its own state.

use crate::lists::{Parts, Words};
use bytes::Bytes;
use rpc_ids::Status;

/// What happens to a call, as its handler is told of it.
#[derive(Clone, Debug, Drop)]
pub enum Event {
    /// The call began, at a server, with this payload.
    Request(Bytes),
    /// A message of the peer's stream came, or the one response of a unary call.
    Message(Bytes),
    /// The peer has ended its stream of messages.
    Completion,
    /// The call has ended with this status. No answer to it is sent.
    Ended(Status),
    /// The time has come to this moment, in milliseconds.
    Tick(u64),
}

/// A handler's state as plain data. What stands where is the handler type's own matter.
#[derive(Clone, Debug, Drop)]
pub struct Memo {
    /// Numbers.
    pub words: Words,
    /// Texts of bytes.
    pub parts: Parts,
}
