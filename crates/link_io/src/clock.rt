ghost use Rattle.std.specs.Prelude.{◌≡◌, ℕ, ◌<◌, ◌≤◌, length};
ghost use Rattle.link_io.specs.Moments.{Moments, DoNotFall, fresh_clock, stepped, next_of};

use std::marker::Model;

/// What tells the time, in milliseconds.
pub trait Clock {
    // The moment last given.
    ghost last: { Self → ℕ };

    /// The moment now. It is never before one that was given already.
    fn now(&mut self) -> u64
        ensures later { last self.old ≤ result }
        ensures last { last self.new ≡ result };
}

/// A clock that gives chosen moments, one at each call, and then the last one again and again.
#[derive(Drop)]
pub struct StepClock {
    moments: Vec<u64>,
    at: usize,
    last: u64,
}

impl Model for StepClock {
    ghost use Rattle.std.specs.Prelude.{◌<◌, drop, vec_len};
    ghost use Rattle.link_io.specs.Moments.{Moments, DoNotFall};

    ghost Value = { Moments };

    ghost view = { λ s. record { last = s.last; ahead = drop s.at s.moments.items } };

    ghost invariant = { λ s. (s.at < vec_len s.moments) × DoNotFall s.last (drop s.at s.moments.items) };
}

impl StepClock {
    /// A clock that gives these moments, in milliseconds. Its last moment is the first of them before any was given.
    pub fn new(moments: Vec<u64>) -> StepClock
        requires some { 0 < length moments.items }
        requires order { DoNotFall 0 moments.items }
        ensures { result ≡ fresh_clock moments.items }
    {
        let last = moments[0];
        StepClock {
            moments,
            at: 0,
            last,
        }
    }
}

impl Clock for StepClock {
    ghost last = { λ s. s.last };

    fn now(&mut self) -> u64
        ensures later { self.old.last ≤ result }
        ensures last { self.new.last ≡ result }
        ensures moment { result ≡ next_of self.old.ahead }
        ensures steps { self.new ≡ stepped self.old }
    {
        self.last = self.moments[self.at];
        if self.at + 1 < self.moments.len() {
            self.at += 1;
        }
        self.last
    }
}

/// A clock that stands still at 0.
#[derive(Clone, Copy, Debug)]
pub struct Still;

impl Still {
    /// A clock that stands still.
    pub fn new() -> Still {
        Still
    }
}

impl Clock for Still {
    ghost last = { λ _. 0 };

    fn now(&mut self) -> u64
        ensures later { 0 ≤ result }
        ensures last { 0 ≡ result }
    {
        0
    }
}
