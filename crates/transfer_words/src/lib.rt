//! What the two ends of a transfer say to each other in a session, apart from the session's number, and what they do
//! for the answers of their cores. Service and client stand on it alike.
//! Enter at [`WordRef`], and at [`say`].
#![tactic(auto)]

mod core_answers;
mod laws;
mod saying;
mod word;

pub use core_answers::{act_on_piece, act_on_tick, say_pieces};
pub use laws::{words_are_heard, words_are_short};
pub use saying::{say, text_of};
pub use word::WordRef;
