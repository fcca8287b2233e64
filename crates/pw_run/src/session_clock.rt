//! The clock of a session.
ghost use Rattle.std.specs.Prelude.{◌≡◌, ◌≤◌, ◌-◌, max};

use link_io::Clock;

/// A clock that counts from a moment of another one, in milliseconds.
#[derive(Drop)]
pub(crate) struct SessionClock<'a, C: Clock> {
    clock: &'a mut C,
    began: u64,
    passed: u64,
}

impl<'a, C: Clock> SessionClock<'a, C> {
    /// A clock that is at 0 when the other one is at this moment.
    pub(crate) fn new(clock: &'a mut C, began: u64) -> SessionClock<'a, C>
        ensures { result.passed ≡ 0 }
    {
        SessionClock {
            clock,
            began,
            passed: 0,
        }
    }

    /// The moment that it gave last, 0 at first.
    pub(crate) fn passed(&self) -> u64
        ensures { result ≡ self.now.passed }
    {
        self.passed
    }
}

impl<'a, C: Clock> Clock for SessionClock<'a, C> {
    ghost last = { λ s. s.passed };

    fn now(&mut self) -> u64
        ensures later { self.old.passed ≤ result }
        ensures last { self.new.passed ≡ result }
        ensures counts { result ≡ max self.old.passed (C.last self.new.clock.now - self.old.began) }
        ensures same { self.new.began ≡ self.old.began }
    {
        let passed = self.clock.now().saturating_sub(self.began);
        self.passed = self.passed.max(passed);
        self.passed
    }
}
