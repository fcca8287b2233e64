//! What fits in a run of the world: the client's store keeps its resources small enough, so each transfer fits that starts,
//! and what OK means in the run of a script. It has laws, which are functions that do nothing and promise something of the
//! definitions. Enter at [`laws::scripts_mean_the_bytes`].
pub mod laws;
