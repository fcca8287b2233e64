//! The channels of an endpoint: a set of at most 64 channel ids, kept in rising order.
//!
//! A channel id names one logical link of pw_rpc. A packet is handled only where its channel is in the set.
#![tactic(auto)]

mod channels;

pub use channels::{ChannelRefused, Channels, MAX_CHANNELS};
