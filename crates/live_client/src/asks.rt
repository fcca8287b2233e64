//! What the one call of a live client is for: an errand, that hears the call's events and says what is to be said there.
pub mod call;
pub mod errand;
pub mod transfer;
pub mod utterance;

pub use call::CallErrand;
pub use errand::Errand;
pub use transfer::TaskErrand;
pub use utterance::Utterance;
