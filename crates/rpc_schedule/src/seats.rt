//! The seats of an end on one thread.

/// The seat of what arrives.
pub const ARRIVALS: u32 = 0;
/// The seat of flushes and ticks.
pub const FLUSHES: u32 = 1;
/// The seat of the runs of handlers, and of what an end does by itself.
pub const RUNS: u32 = 2;
