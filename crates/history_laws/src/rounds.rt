//! Rounds of calls on one thread: what follows, once all is done, from a message to a call whose stream is open, and from a
//! request that opens one.
//! It has laws, which are functions that do nothing and promise something of the definitions. Enter at
//! [`laws::messages_settle`].
pub mod laws;
