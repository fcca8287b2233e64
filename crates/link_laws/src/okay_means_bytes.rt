//! What a line with OK tells of a run of the world: the bytes are in the store. It has laws, which are functions that do
//! nothing and promise something of the definitions. Enter at [`laws::okay_means_the_bytes`].
pub mod laws;
