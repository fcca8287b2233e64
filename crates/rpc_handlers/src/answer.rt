//! What a handler answers to an event.

use crate::lists::Outs;
use bytes::Bytes;
use rpc_ids::Status;

/// How many items an answer can have: two for each of 256 transfer sessions at a tick.
pub const MAX_ANSWER_ITEMS: usize = 512;

/// How many bytes the payload of a message or of an end can have, so that its packet fits one frame.
pub const MAX_PAYLOAD: usize = 8000;

/// One thing that a handler does: it sends a message, or it acts on the store of resources.
#[derive(Clone, Debug, Drop)]
pub enum Out {
    /// Send a message on the call's stream, of at most `MAX_PAYLOAD` bytes.
    Say(Bytes),
    /// Begin a work on a resource, from an offset in bytes.
    Begin {
        session: u32,
        resource: u32,
        offset: u64,
    },
    /// Add bytes to the session's work.
    Append {
        session: u32,
        bytes: Bytes,
    },
    /// Make the session's work the resource.
    Commit {
        session: u32,
    },
    /// Leave the session's work where it is, to be resumed.
    Leave {
        session: u32,
    },
}

/// The end that a handler gives to its call.
#[derive(Clone, Debug, Drop)]
pub struct End {
    pub status: Status,
    /// At a server the payload of the response, of at most `MAX_PAYLOAD` bytes.
    pub payload: Bytes,
}

/// What a handler answers to one event: at most `MAX_ANSWER_ITEMS` items, and then the call's end, where it gives one.
#[derive(Debug, Drop)]
pub struct Answer {
    pub items: Outs,
    pub end: Option<End>,
}
