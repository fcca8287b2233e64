//! The schedule of one thread: what a server does with its input, packet by packet, and the loops that carry it out over
//! any server that [`Serves`], any source of bytes and any store. No code here knows of frames or of a device. Enter at
//! [`replay`].
//!
//! `specs/ends/` has what a server and a client on one thread share, with the role as an argument: that an end was fed a
//! stream, how it takes a packet in, which run it keeps, and what waits aside.
#![tactic(auto)]

mod ending;
pub mod laws;
mod outlet;
mod seats;
mod serves;
mod settling;
mod stop;
mod stream;

pub use ending::Ending;
pub use outlet::make_action;
pub use seats::{ARRIVALS, FLUSHES, RUNS};
pub use serves::Serves;
pub(crate) use stop::Stop;
pub use stream::{INPUT_LIMIT, replay};
