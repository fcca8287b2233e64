//! How a thread of a live client waits for the other.

use std::sync::Wait;
use std::sync::atomic::{AtomicU64, Ordering};
use std::time::Duration;

/// A thread that waits looks for itself after so many milliseconds at most.
pub(crate) const ROUND: u64 = 2;

/// Counts its rings, for a thread that waits for the next one. Take the count before you look for something to do, and wait with it
/// where you find nothing: where a ring came in between, the wait is over at once, so none is lost. A wait may also end for no
/// reason.
#[derive(Drop)]
pub(crate) struct Signal {
    rings: AtomicU64,
    waiting: AtomicU64,
}

impl Signal {
    pub fn new() -> Signal {
        Signal {
            rings: AtomicU64::new(0),
            waiting: AtomicU64::new(0),
        }
    }

    /// How often it was rung, modulo 2^32.
    pub fn rings(&self) -> u32 {
        (self.rings.load(Ordering::SeqCst) % 4_294_967_296) as u32
    }

    /// Rings, and wakes the thread that sleeps. Where none does, that is no call of the system.
    pub fn ring(&self) {
        self.rings.fetch_add(1, Ordering::SeqCst);
        if self.waiting.load(Ordering::SeqCst) != 0 {
            self.rings.wake_one();
        }
    }

    /// Sleeps while the count is this one, for so many milliseconds at most. Where it is another one already, that is no call of the
    /// system.
    pub fn wait_for<R: Wait>(&self, rt: &R, heard: u32, millis: u64) {
        if self.rings() != heard {
            return;
        }
        self.waiting.fetch_add(1, Ordering::SeqCst);
        self.rings
            .park_timeout(rt, heard, Duration::from_millis(millis));
        self.waiting.fetch_sub(1, Ordering::SeqCst);
    }
}

/// The signals of a live client, by who waits for them.
pub(crate) struct Signals {
    /// The driver waits where no event does.
    pub driver: Signal,
    /// The reader waits where the call's queue is full.
    pub reader: Signal,
    /// The driver waits for the reader to begin.
    pub begun: Signal,
}

impl Drop for Signals {
    fn drop(self) {
        let Self {
            driver: _,
            reader: _,
            begun: _,
        } = self;
    }
}

impl Signals {
    pub fn new() -> Signals {
        Signals {
            driver: Signal::new(),
            reader: Signal::new(),
            begun: Signal::new(),
        }
    }
}
