//! One direction of a link that loses, repeats, holds back and damages frames as a script says, by their numbers.
//! Enter at [`LossyLink`]; `specs/Link.antt` says what each loss does.
mod link;
mod losses;
mod turning;

pub use link::LossyLink;
pub use losses::loss_of;
