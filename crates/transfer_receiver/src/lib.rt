//! The receiving end of a transfer: which pieces it keeps, what it asks of the sender, and when it gives up.
//! It holds no data and no clock: pieces and moments are handed in, and each answer says what to send.
//! Enter at [`ReceiverCore`].
#![tactic(auto)]

mod answers;
mod laws;
mod phase;
mod receiver;

pub use answers::{Received, Ticked};
pub use laws::{
    joined_parts_are_the_resource, keeps_the_resource, kept_pieces_join, numbers_of_a_receiver,
};
pub use phase::Phase;
pub use receiver::{MAX_RESENDS, ReceiverCore};
