//! Why an end stops.
ghost use Rattle.std.specs.Prelude.{◌≡◌};

use rpc_journal::StartRefused;
use std::alloc::AllocError;

/// Why an end stops. What it has done until then is lost.
#[derive(Clone, Copy, Debug, PartialEq, Eq)]
pub enum Stopped {
    /// Its journal has no room for what is to be done next.
    Journal,
    Memory,
}

impl From<AllocError> for Stopped {
    ghost use Rattle.link_world.specs.declared.server.stopped.Stopped.TheVariants.{Memory};

    ghost from_gives = { λ _ e. e ≡ Memory };

    fn from(_: AllocError) -> Stopped {
        Stopped::Memory
    }
}

impl From<StartRefused> for Stopped {
    ghost use Rattle.link_world.specs.server.Stops.{stopped_by};

    ghost from_gives = { λ refused e. e ≡ stopped_by refused };

    fn from(refused: StartRefused) -> Stopped {
        match refused {
            StartRefused::JournalFull => Stopped::Journal,
            StartRefused::Memory => Stopped::Memory,
        }
    }
}
