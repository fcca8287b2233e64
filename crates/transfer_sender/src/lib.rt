//! The sending end of a transfer: which pieces of its resource answer an ask, and when it gives up.
//! It holds the resource and no clock: asks and moments are handed in, and each answer says what to send.
//! Enter at [`SenderCore`].
#![tactic(auto)]

mod cut;
mod laws;
mod pieces;
mod sender;

pub use cut::MAX_PIECES;
pub use laws::{cut_is_exact, numbers_of_a_sender, sends_parts};
pub use pieces::Pieces;
pub use sender::{MAX_TIMEOUTS, SenderCore};
