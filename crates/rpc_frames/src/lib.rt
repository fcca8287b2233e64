//! The packets in the frames of a byte stream. A [`Listener`] reads the stream in pieces, gives the packets that its end
//! of the link hears, in order, and counts the segments; [`write_frame`] writes the frame of a packet.
//! Nothing here reads or writes a device, or keeps the time. Enter at `Listener::listen`.
#![tactic(auto)]

mod counts;
mod heard;
pub mod laws;
mod limits;
mod listener;
mod written;

pub use counts::Counts;
pub use limits::{ADDRESS, LARGEST_CONTENT, MOST_BESIDES_PAYLOAD};
pub use listener::{Listened, Listener};
pub use written::write_frame;
