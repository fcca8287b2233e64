//! Streams over which no schedule changes what a server tells: calm ones. Which streams these are, and that the calls, their
//! ends, the items of each call and the replies are then those of one thread. It has laws, which are functions that do
//! nothing and promise something of the definitions. Enter at [`laws::calm_histories_are_alike`].
pub mod laws;
