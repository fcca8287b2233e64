//! Wakes that other threads count: a word for each task, to which a [`Bell`] adds one, and which the [`Ear`] loads.
//! A ring is one atomic addition; it waits for nobody and takes no memory. `docs/THREADS.md` says what wakes are for.
pub mod bell;
pub mod bells;
pub mod ear;
mod rule;
pub mod view;

pub use bell::Bell;
pub use bells::Bells;
pub use ear::Ear;
