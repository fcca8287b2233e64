//! The client's end of a transfer as a task that is polled: one that reads a resource from the service, and one that
//! writes a resource to it. A task has no clock and no link: it is handed mail and moments, and says what is to be sent
//! and what is to be done with the store.
//! Enter at [`ReadTask`] and [`WriteTask`].
#![tactic(auto)]

mod download;
mod heard;
mod laws;
mod machine;
mod polling;
mod read_task;
mod stages;
mod upload;
mod write_task;

pub use laws::{polls_hear_words, waits_in_peace};
pub use read_task::ReadTask;
pub use write_task::WriteTask;
