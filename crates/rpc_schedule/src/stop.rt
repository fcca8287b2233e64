ghost use Rattle.std.specs.Prelude.{◌≡◌};

use link_io::StoreRefused;
use rpc_journal::StartRefused;

/// Why a server on one thread stopped.
#[derive(Clone, Copy, Debug, PartialEq, Eq)]
pub(crate) enum Stop {
    /// The journal had no room for an Arrive or a Start.
    Journal,
    /// The store failed at an action.
    Store,
    /// There was no memory.
    Memory,
}

impl From<StartRefused> for Stop {
    ghost use Rattle.rpc_schedule.specs.Stops.{stop_of};

    ghost from_gives = { λ refused stop. stop ≡ stop_of refused };

    fn from(refused: StartRefused) -> Stop {
        match refused {
            StartRefused::JournalFull => Stop::Journal,
            StartRefused::Memory => Stop::Memory,
        }
    }
}

impl From<StoreRefused> for Stop {
    ghost use Rattle.rpc_schedule.specs.Stops.{stop_by_store};

    ghost from_gives = { λ refused stop. stop ≡ stop_by_store refused };

    fn from(refused: StoreRefused) -> Stop {
        match refused {
            StoreRefused::Failed => Stop::Store,
            StoreRefused::Memory => Stop::Memory,
        }
    }
}
