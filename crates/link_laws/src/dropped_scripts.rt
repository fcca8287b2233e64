//! Worlds whose link drops three chunk frames at most: each command of a script comes to its line, and each transfer ends well. It
//! has a law, which is a function that does nothing and promises something of the definitions. Enter at
//! [`laws::lossy_runs_end_well`].
pub mod laws;
