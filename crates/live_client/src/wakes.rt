//! What the reader wakes the driver by.
ghost use Rattle.std.specs.Prelude.{◌≡◌, ◌∷◌, [], IfOk};
ghost use Rattle.live_client.specs.asks.Telling.{HasWord};
ghost use Rattle.live_client.specs.Waking.{CanRing};

use crate::signal::Signals;
use std::alloc::{AllocError, Global};
use task_core::bells::{Bell, Bells, Ear};

/// The word of the driver's task, which the reader's bell rings, and the signals of the threads.
pub(crate) struct Wakes {
    pub bells: Bells,
    pub signals: Signals,
}

impl Drop for Wakes {
    fn drop(self) {
        let Self {
            bells: _,
            signals: _,
        } = self;
    }
}

impl Wakes {
    /// The word of one task, with its ear and the one bell.
    pub fn with(alloc: Global) -> Result<(Wakes, Ear, Bell), AllocError>
        ensures bell { IfOk result (λ made. CanRing made.0.bells made.2) }
        ensures ear { IfOk result (λ made. HasWord made.1 made.0.bells) }
        ensures new { IfOk result (λ made. made.1.looks ≡ []) }
    {
        let (bells, ear, mut ringers) = Bells::with(alloc, 1, 1)?;
        let Some(bell) = ringers.pop() else {
            unreachable!()
        };
        let signals = Signals::new();
        Ok((Wakes { bells, signals }, ear, bell))
    }

    /// Rings for the one task, and for the driver that polls it.
    pub fn call(&self, bell: &mut Bell)
        requires { CanRing self.now.bells bell.old }
        ensures { bell.new ≡ record bell.old { rings = 0 ∷ bell.old.rings } }
    {
        self.bells.ring(bell, 0);
        self.signals.driver.ring();
    }
}
