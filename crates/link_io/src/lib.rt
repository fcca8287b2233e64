//! The outside world of the endpoint, as traits: where bytes come from and where they go, where uploads end, what tells
//! the time, and what makes connections. Each device counts its faults, and an error comes only where that count rose.
//! Nothing here knows of frames or packets. Enter at [`Source`], [`Sink`], [`Store`], [`Clock`] and [`Linker`]. Each has
//! a form for tests ([`MemSource`], [`MemSink`], [`MemStore`], [`StepClock`], [`MemLinker`]) and one over the system's
//! own ([`StdIn`], [`StdOut`], [`FolderStore`], [`WallClock`], [`UnixLinker`]).
#![tactic(auto)]

mod clock;
mod failed;
mod folder_store;
mod linker;
mod mem_linker;
mod mem_sink;
mod mem_source;
mod mem_store;
mod reading;
mod shelf;
mod sink;
mod source;
mod standard;
mod store;
mod unix_linker;
mod wall_clock;
mod why;
mod writing;

pub use clock::{Clock, StepClock, Still};
pub use failed::Failed;
pub use folder_store::FolderStore;
pub use linker::Linker;
pub use mem_linker::MemLinker;
pub use mem_sink::MemSink;
pub use mem_source::MemSource;
pub use mem_store::MemStore;
pub use reading::{Ending, Taken, read_to_limit};
pub use shelf::{Fulls, Lefts, Shelf};
pub use sink::Sink;
pub use source::Source;
pub use standard::{StdIn, StdOut};
pub use store::{Store, StoreKey, StoreRefused};
pub use unix_linker::{UnixLinker, UnixOut};
pub use wall_clock::WallClock;
pub use why::Why;
pub use writing::write_whole;
