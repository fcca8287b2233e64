//! Worlds whose link loses nothing: each command of a script comes to its line, and each transfer ends well. It has laws, which
//! are functions that do nothing and promise something of the definitions. Enter at [`laws::lossless_runs_end_well`].
pub mod laws;
