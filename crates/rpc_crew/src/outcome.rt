//! What a session hands back.

use link_io::Why;
use rpc_calls::Calls;
use rpc_frames::Counts;
use rpc_handlers::Handler;
use rpc_journal::{Item, Journal};

/// What a session did.
#[derive(Debug, Drop)]
pub struct Session {
    /// All that the table did, in order.
    pub journal: Journal,
    /// Why the session ended: the reason of the table's halt, else how the reading of the source ended.
    pub why: Why,
    /// How the segments of the bytes fed were counted.
    pub counts: Counts,
    /// How many bytes the source gave.
    pub read: u64,
    /// How many items were written or made whole.
    pub done: u64,
    /// The first moment that the clock gave: the first Tick is due 500 ms past it.
    pub began: u64,
}

/// The same with the table itself, and the items that were made, in order: what a report of the calls takes.
#[derive(Drop)]
pub struct Served<H: Handler> {
    /// The table, with its journal.
    pub calls: Calls<H>,
    /// Why the session ended, as in [`Session`].
    pub why: Why,
    /// How the segments of the bytes fed were counted.
    pub counts: Counts,
    /// How many bytes the source gave.
    pub read: u64,
    /// How many items were written or made whole.
    pub done: u64,
    /// The first moment that the clock gave, as in [`Session`].
    pub began: u64,
    /// These items.
    pub items: Vec<Item>,
}
