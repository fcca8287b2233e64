//! Tables behind the lock, with four passes and with threads.

mod claims;
mod client;
mod crew;
mod desk;
mod jobs;
mod journals;
mod letters;
mod limits;
mod rows;
mod runs;
mod two_threads;
