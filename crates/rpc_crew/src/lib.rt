//! A session of a server over one link, by threads that share one table: a reader, workers that run handlers, a pump that takes
//! what goes out, and a writer. docs/THREADS.md shows who holds what, and how a session ends. Enter at [`session`].
#![tactic(auto)]

mod batch;
mod bell;
mod gate;
mod gathering;
mod halting;
mod outcome;
mod pumping;
mod reading;
mod running;
mod sending;
mod serving;
mod table;
mod threads;
mod working;
mod writing;

pub use gate::{Free, Gate};
pub use outcome::{Served, Session};
pub use serving::{session, session_with_items};
