//! What a live client is asked to do, and what it did.

use crate::messages::Messages;
use bytes::Bytes;
use link_io::Why;
use rpc_ids::{Kind, Status};
use rpc_journal::Journal;

/// The most messages that are waited for in one call.
pub const MAX_MESSAGES: u32 = 65_536;

/// The call that a client opens.
#[derive(Debug, Drop)]
pub struct Opening {
    /// The id of the service.
    pub service: u32,
    /// The id of the method.
    pub method: u32,
    pub kind: Kind,
    /// The payload of the request.
    pub payload: Bytes,
    /// What the client streams, in order.
    pub messages: Messages,
}

/// What a live client is asked to do.
#[derive(Debug, Drop)]
pub enum LiveAsk {
    /// Reads a resource from the board into the store, from an offset on, in bytes.
    Get {
        resource: u32,
        offset: u64,
    },
    /// Writes these bytes, which are a resource, to the board, from an offset on.
    Put {
        resource: u32,
        offset: u64,
        bytes: Bytes,
    },
    /// Calls Count with a number, and cancels the call after so many messages.
    Watch {
        n: u8,
        limit: u32,
    },
    /// Opens a call, says its messages and that none comes after them, and cancels the call after so many messages of the
    /// board, or when the clock has gone on by so many milliseconds.
    Call {
        opening: Opening,
        limit: u32,
        within: Option<u32>,
    },
}

/// What a live client did.
#[derive(Debug, Drop)]
pub struct Live {
    /// All that its table did, in order.
    pub journal: Journal,
    /// Why it ended: the reason of the table's halt, else how the reading of the source ended.
    pub why: Why,
    /// How the transfer or the call ended, where it did.
    pub ended: Option<Status>,
    /// Where a transfer began: at the offset agreed, or asked where none was. In bytes; 0 for a Watch and a Call.
    pub from: u64,
    /// How long the resource is that a transfer made whole, in bytes; 0 where it made none.
    pub length: u64,
    /// The messages of a Watch or a Call, in the order in which they came.
    pub messages: Vec<Bytes>,
    /// How many bytes the source gave.
    pub read: u64,
}
