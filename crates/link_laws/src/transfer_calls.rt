//! What the transfer calls of a server's history say and do, where what came to them was said by a client. It has laws, which
//! are functions that do nothing and promise something of the definitions. Enter at [`laws::uploads_are_whole`].
pub mod laws;
