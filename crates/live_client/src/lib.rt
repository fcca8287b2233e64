//! A live client: one call over a link, by a thread that reads and one that drives the call. It fetches a resource, sends one, or
//! keeps the messages of a call. docs/THREADS.md shows a fetch. Enter at [`live`]; [`asks`] has what one call is for.
#![tactic(auto)]

mod ask;
pub mod asks;
mod calling;
mod calls;
mod driver;
mod driving;
mod halting;
pub mod laws;
mod length;
mod messages;
mod methods;
mod opening;
mod reading;
mod running;
mod signal;
mod silent;
mod stepping;
mod table;
mod threads;
mod transfers;
mod wakes;
mod writing;

pub use ask::{Live, LiveAsk, MAX_MESSAGES, Opening};
pub use calling::live;
pub use messages::Messages;
