ghost use Rattle.std.specs.Prelude.{◌≡◌, ℕ};

use crate::Clock;
use std::marker::Model;
use std::time;
use std::time::Instant;

/// A clock over the system's monotonic clock. It counts the milliseconds since it was made, and begins at 0. Where the
/// system's clock can't be read it gives the moment that it gave last.
#[derive(Drop)]
pub struct WallClock<'a, T: time::Clock> {
    system: &'a T,
    start: Option<Instant>,
    last: u64,
}

impl<'a, T: time::Clock> Model for WallClock<'a, T> {
    ghost Value = { ℕ };

    ghost view = { λ c. c.last };
}

impl<'a, T: time::Clock> WallClock<'a, T> {
    /// A clock that begins now.
    pub fn new(system: &'a T) -> WallClock<'a, T>
        ensures { result ≡ 0 }
    {
        WallClock {
            system,
            start: Instant::now(system).ok(),
            last: 0,
        }
    }

    // The milliseconds since the start, as far as the system tells.
    fn elapsed(&self) -> Option<u64> {
        let elapsed = self.start?.elapsed(self.system).ok()?;
        Some(u64::try_from(elapsed.as_millis()).unwrap_or(u64::MAX))
    }
}

impl<'a, T: time::Clock> Clock for WallClock<'a, T> {
    ghost last = { λ c. c };

    fn now(&mut self) -> u64 {
        if let Some(elapsed) = self.elapsed() {
            self.last = self.last.max(elapsed);
        }
        self.last
    }
}
