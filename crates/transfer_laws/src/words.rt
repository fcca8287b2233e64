//! What the two ends of a transfer say, whatever comes to them: the sessions of the service, and the client's tasks. It has
//! laws, which are functions that do nothing and promise something of the definitions. Enter at [`laws::reads_are_honest`].
pub mod laws;
