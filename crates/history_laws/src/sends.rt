//! What goes out of an end is heard at the other. It has a law, which is a function that does nothing and promises something
//! of the definitions. Enter at [`laws::sends_are_heard`].
pub mod laws;
