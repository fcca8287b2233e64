//! One entry of a history.

use link_io::Why;
use rpc_handlers::{Answer, Memo, Out};
use rpc_packet::Packet;

/// How many entries a journal can have before calls that may be refused are refused.
pub const MAX_ENTRIES: u64 = 1_000_000;

/// One entry of a history: a change of the call table, and the seat that made it.
#[derive(Debug, Drop)]
pub struct Entry {
    /// The number of who made the change: 0 feeds the input, 1 flushes, others run handlers.
    pub seat: u32,
    pub kind: EntryKind,
}

/// What one change of the call table is. A `u32` on its own is the number of a call, from 0 in the order of their
/// openings.
#[derive(Debug, Drop)]
pub enum EntryKind {
    /// A packet came.
    Arrive(Packet),
    /// A client opened a call with this REQUEST; the handler has this state.
    Invoke(Packet, Memo),
    /// A call's owner sent a message, or acted on the store, outside of a run.
    Say(u32, Out),
    /// A client ended the stream of its messages.
    Done(u32),
    /// A run of the call began, with the oldest event that waited for it.
    Start(u32),
    /// The run of the call ended with this answer.
    Finish(u32, Answer),
    /// The call has a new handler, in this state.
    Replace(u32, Memo),
    /// The call was cancelled.
    Cancel(u32),
    /// The time has come to this moment, in milliseconds.
    Tick(u64),
    /// The oldest item that was not flushed went out.
    Flush,
    /// The input has ended.
    EndIn,
    /// The table was halted for this reason.
    Halt(Why),
    /// A channel was closed: its live calls ended.
    Close(u32),
}
