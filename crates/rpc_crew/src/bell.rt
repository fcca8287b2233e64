//! A bell for threads that have nothing to do.
ghost use Rattle.std.specs.Prelude.{◌≡◌, ◌<◌, ◌≤◌};

use std::sync::Wait;
use std::sync::atomic::{AtomicU64, Ordering};
use std::time::Duration;

/// Counts its rings, for threads that wait for the next one. Take the count before you look for something to do, and wait with it
/// where you find nothing: where a ring came in between, the wait is over at once, so none is lost. A wait may also end for no
/// reason.
#[derive(Drop)]
pub(crate) struct Bell {
    rings: AtomicU64,
    waiting: AtomicU64,
}

impl Bell {
    pub fn new() -> Bell {
        Bell {
            rings: AtomicU64::new(0),
            waiting: AtomicU64::new(0),
        }
    }

    /// How often it was rung, modulo 2^32.
    pub fn rings(&self) -> u32 {
        (self.rings.load(Ordering::SeqCst) % 4_294_967_296) as u32
    }

    /// Rings for so many of those who wait.
    pub fn ring_for(&self, count: u32) -> Rung {
        self.rings.fetch_add(1, Ordering::SeqCst);
        let waiting = self.waiting.load(Ordering::SeqCst);
        if waiting <= u64::from(count) {
            if waiting != 0 {
                self.rings.wake_all();
            }
            return Rung { _private: () };
        }
        for _ in 0..count {
            self.rings.wake_one();
        }
        Rung { _private: () }
    }

    /// Rings for all who wait.
    pub fn ring(&self) -> Rung {
        self.rings.fetch_add(1, Ordering::SeqCst);
        if self.waiting.load(Ordering::SeqCst) != 0 {
            self.rings.wake_all();
        }
        Rung { _private: () }
    }

    /// Sleeps while the count is this one. Where it is another one already, that is no call of the system.
    pub fn wait<R: Wait>(&self, rt: &R, heard: u32) {
        if self.rings() != heard {
            return;
        }
        self.waiting.fetch_add(1, Ordering::SeqCst);
        self.rings.park(rt, heard);
        self.waiting.fetch_sub(1, Ordering::SeqCst);
    }

    /// The same, for so many milliseconds at most.
    pub fn wait_for<R: Wait>(&self, rt: &R, heard: u32, millis: u64) {
        if self.rings() != heard {
            return;
        }
        self.waiting.fetch_add(1, Ordering::SeqCst);
        self.rings
            .park_timeout(rt, heard, Duration::from_millis(millis));
        self.waiting.fetch_sub(1, Ordering::SeqCst);
    }
}

/// A bell was rung. Only a bell makes one.
#[derive(Clone, Copy, Debug)]
pub(crate) struct Rung {
    _private: (),
}

/// For how many threads something was done since a bell was last rung for them. A thread that rings once for a burst owes so many
/// rings in between; it owes none before it waits.
#[derive(Clone, Copy, Debug)]
pub(crate) struct Owed {
    pub rings: u32,
}

impl Owed {
    /// None.
    pub fn none() -> Owed
        ensures { result.rings ≡ 0 }
    {
        Owed { rings: 0 }
    }

    /// So many more.
    pub fn add(&mut self, count: u32)
        requires { 0 < count }
        ensures owed { 0 < self.new.rings }
        ensures more { self.old.rings ≤ self.new.rings }
    {
        self.rings = self.rings.saturating_add(count);
    }

    /// The bell was rung for all of them.
    pub fn pay(&mut self, _rung: Rung)
        ensures { self.new.rings ≡ 0 }
    {
        self.rings = 0;
    }
}

/// The bells of a session, by who waits for them.
pub(crate) struct Bells {
    /// A worker waits where no call is ready.
    pub workers: Bell,
    /// The reader waits where a queue is full.
    pub reader: Bell,
    /// The pump waits where no item does.
    pub pump: Bell,
    /// The writer waits where the ring is empty.
    pub writer: Bell,
    /// Each thread but the reader rings it when it begins, and the reader waits for all.
    pub begun: Bell,
}

impl Drop for Bells {
    fn drop(self) {
        let Self {
            workers: _,
            reader: _,
            pump: _,
            writer: _,
            begun: _,
        } = self;
    }
}

impl Bells {
    pub fn new() -> Bells {
        Bells {
            workers: Bell::new(),
            reader: Bell::new(),
            pump: Bell::new(),
            writer: Bell::new(),
            begun: Bell::new(),
        }
    }

    /// Rings for each thread.
    pub fn ring_all(&self) {
        self.workers.ring();
        self.reader.ring();
        self.pump.ring();
        self.writer.ring();
    }
}
