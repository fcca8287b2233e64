//! The client's end of a world: what comes to it, what it asks of the service by the commands of a script, and the task
//! that speaks while a transfer is under way.
//! Enter at [`ClientEnd`].
mod asking;
mod client_end;
mod desk;
mod polling;
mod questions;
mod quiet;
mod speaker;
mod starting;
mod transfer_task;
mod under;
mod working;

pub use client_end::ClientEnd;
pub use speaker::Speaker;
pub use under::{Plain, Under};
