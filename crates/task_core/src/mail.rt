//! What is posted to a task.

use bytes::Bytes;
use rpc_ids::Status;

/// One piece of mail of a task.
#[derive(Clone, Debug, Drop)]
pub enum Mail {
    /// A message of the peer's stream.
    Text(Bytes),
    /// The call behind the task has ended with this status.
    Closed(Status),
}
