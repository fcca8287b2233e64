//! The server of one end of a link, on one thread.
//!
//! Enter at `Server`: feed it the bytes of the link, let it work, and take out what is to be sent.
#![tactic(auto)]

mod server;
mod serves;

pub use rpc_frames::Counts;
pub use server::Server;
