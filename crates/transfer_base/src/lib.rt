//! What both ends of a transfer speak of: asks, pieces, how a receiver asks, and the limits of a transfer.
//! It has no rule of either end; its definitions say what pieces of one resource are, and when they join.
//! Enter at [`Ask`] and [`Piece`].
#![tactic(auto)]

mod ask;
mod deadline;
mod laws;
mod limits;
mod piece;
mod tuning;

pub use ask::Ask;
pub use deadline::deadline_after;
pub use laws::numbers_of_a_transfer;
pub use limits::{MAX_CHUNK, MAX_RESOURCE, MAX_WINDOW, TIMEOUT};
pub use piece::Piece;
pub use tuning::Tuning;
