//! How long a journal becomes: what bounds the number of entries that a server on one thread makes of given packets.
//! It has laws, which are functions that do nothing and promise something of the definitions.
//! Enter at [`laws::entries`].
pub mod laws;
