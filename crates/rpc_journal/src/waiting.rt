//! An event that waits.

use rpc_handlers::Event;

/// An event that waits for a call's next run, and the place of the entry that put it there.
#[derive(Debug, Drop)]
pub struct Waiting {
    pub at: u64,
    pub event: Event,
}
