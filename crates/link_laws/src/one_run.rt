//! What holds of every run of the world that [`crate::world`] defines.
pub mod laws;
