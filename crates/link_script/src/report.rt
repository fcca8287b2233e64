use crate::lists::{ReportLines, Resources};
use bytes::Bytes;
use rpc_ids::Status;

/// How a command ended.
#[derive(Debug, Drop)]
pub enum ReportLine {
    Read {
        resource: u32,
        /// The offset that was agreed, or asked for where none was.
        from: u64,
        status: Status,
        /// The bytes that the store has of the resource since then, or 0.
        length: u64,
    },
    /// As `Read`, for the server's store.
    Write {
        resource: u32,
        from: u64,
        status: Status,
        length: u64,
    },
    /// The bytes that came back.
    Echo(Status, Bytes),
    /// The messages that came.
    Count(Status, u64),
    /// The bytes that came back.
    Sum(Status, Bytes),
    /// The messages that came.
    Chat(Status, u64),
    /// The channel, and the calls that ended as it was closed; `None` where it was closed before.
    Close(u32, Option<u32>),
}

/// What is told of a run.
#[derive(Debug, Drop)]
pub struct Report {
    /// A line for each command, in order.
    pub lines: ReportLines,
    /// The frames that were numbered.
    pub frames: u64,
    /// The deliveries.
    pub delivered: u64,
    /// The numbered frames that carry a chunk.
    pub chunks: u64,
    /// The whole resources of the server's store then, by rising id.
    pub server: Resources,
    /// The same of the client's store.
    pub client: Resources,
}
