//! The client of one end of a link, on one thread.
//!
//! Enter at `Client`: invoke calls, feed it the bytes of the link, let it work, and take out what is to be sent.
#![tactic(auto)]

mod client;
mod copies;
mod settling;

pub use client::Client;
pub use settling::work_until_idle;
