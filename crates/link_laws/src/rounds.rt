//! Rounds of a world's client: what follows, once all is done, where the task that speaks is polled. It has laws, which are
//! functions that do nothing and promise something of the definitions. Enter at [`laws::messages_are_polled`].
pub mod laws;
