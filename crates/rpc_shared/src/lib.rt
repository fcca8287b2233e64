//! One table of calls for many threads: each pass takes the lock, makes one step of the table, and gives it back. Handlers
//! run outside the lock.
//! Enter at [`Shared::with`]; docs/THREADS.md shows a run that is cancelled and one whose handler is replaced.
#![tactic(auto)]

mod desk;
pub mod laws;
mod look;
pub mod session;
mod shared;

pub use desk::Desk;
pub use look::Look;
pub use shared::{Pass, Shared};
pub use turn_cell::Busy;
