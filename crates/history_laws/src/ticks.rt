//! What follows, once all is done, where a server at rest is told the time: each live call of a ticking method runs once.
//! It has laws, which are functions that do nothing and promise something of the definitions. Enter at
//! [`laws::ticks_settle`].
pub mod laws;
