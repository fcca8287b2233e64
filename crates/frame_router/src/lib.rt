//! A router of frames between two links: which frame goes on to the other side, by its address.
//! It reads no payload. Enter at [`Routes::add`] and [`Router::feed`], or at [`pump`] with a source and a sink; [`text`] runs a
//! router over lines of text, and [`bridge`] is both directions at once.
#![tactic(auto)]

mod batch;
pub mod bridge;
mod fate;
mod intake;
mod lane;
mod port;
mod pumping;
mod router;
mod routes;
mod tally;
pub mod text;

pub use port::Port;
pub use pumping::{INPUT_LIMIT, Pumped, pump};
pub use router::Router;
pub use routes::{Route, RouteRefused, Routes};
pub use tally::Tally;
