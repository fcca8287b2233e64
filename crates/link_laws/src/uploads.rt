//! What the uploads of a server's history are: of each upload that went into the store the history has the beginning, and
//! the data chunks of which it joins. It has laws, which are functions that do nothing and promise something of the
//! definitions. Enter at [`laws::uploads_join`].
pub mod laws;
