//! What the calls of a call table answer.

use rpc_ids::Status;
use thiserror::Error;

/// What the arrival of a packet did.
#[derive(Clone, Copy, Debug, PartialEq, Eq)]
pub enum Arrived {
    /// It opened this call.
    Opened(u32),
    /// An event waits for this call.
    Queued(u32),
    /// It ended this call.
    Closed(u32),
    /// A reply goes out, of no call.
    Answered,
    /// Nothing.
    Dropped,
}

/// Why an arrival was refused.
#[derive(Clone, Copy, Debug, PartialEq, Eq, Error)]
pub enum ArriveRefused {
    #[error("the journal is full")]
    JournalFull,
    /// The packet would wait for this call, for which too many events wait.
    #[error("too many events wait for call {0}")]
    QueueFull(u32),
    #[error("out of memory")]
    Memory,
}

/// Why a client's call was not opened.
#[derive(Clone, Copy, Debug, PartialEq, Eq, Error)]
pub enum InvokeRefused {
    #[error("the journal is full")]
    JournalFull,
    #[error("the channel isn't in")]
    NoChannel,
    #[error("the method isn't known")]
    NoMethod,
    /// This live call has the name.
    #[error("call {0} has this name")]
    Live(u32),
    #[error("out of memory")]
    Memory,
}

/// Why a message, a store action or the end of a stream was refused.
#[derive(Clone, Copy, Debug, PartialEq, Eq, Error)]
pub enum SayRefused {
    #[error("the journal is full")]
    JournalFull,
    /// The call has ended with this status.
    #[error("the call has ended")]
    Closed(Status),
    #[error("the method has no such stream")]
    NoStream,
    #[error("the stream is complete")]
    Completed,
    #[error("out of memory")]
    Memory,
}

/// Why no run was begun, or no tick made.
#[derive(Clone, Copy, Debug, PartialEq, Eq, Error)]
pub enum StartRefused {
    #[error("the journal is full")]
    JournalFull,
    #[error("out of memory")]
    Memory,
}

/// Why no run of a given call was begun.
#[derive(Clone, Copy, Debug, PartialEq, Eq, Error)]
pub enum StartOfRefused {
    #[error("the journal is full")]
    JournalFull,
    #[error("the call isn't ready")]
    NotReady,
    #[error("out of memory")]
    Memory,
}

/// Why a handler was not replaced.
#[derive(Clone, Copy, Debug, PartialEq, Eq, Error)]
pub enum ReplaceRefused {
    #[error("the journal is full")]
    JournalFull,
    #[error("there is no such call")]
    Unknown,
    /// The call has ended with this status.
    #[error("the call has ended")]
    Closed(Status),
    #[error("out of memory")]
    Memory,
}

/// Why a channel was not closed.
#[derive(Clone, Copy, Debug, PartialEq, Eq, Error)]
pub enum CloseRefused {
    #[error("the journal is full")]
    JournalFull,
    #[error("the channel isn't in")]
    NotIn,
    #[error("out of memory")]
    Memory,
}

/// What a cancel answers: the call's status, and whether a seat runs it.
#[derive(Clone, Copy, Debug, PartialEq, Eq)]
pub enum Cancelled {
    /// No run of the call is on, and none will begin.
    Quiet(Status),
    /// This seat still runs the call.
    Running(Status, u32),
}
