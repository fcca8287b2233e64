//! What a run gives.
ghost use Rattle.std.specs.Prelude.{◌≡◌};

use crate::server::Stopped;
use link_io::MemStore;
use link_script::Report;
use rpc_journal::Journal;
use std::alloc::AllocError;

/// The run of a script: what is told of it, also as a text, the journals of both ends, and what their stores hold then.
#[derive(Drop)]
pub struct Outcome {
    pub report: Report,
    pub text: String,
    pub server: Journal,
    pub client: Journal,
    pub server_store: MemStore,
    pub client_store: MemStore,
}

/// Why a script has no outcome. Which of the first two it is, is the one that is met first.
#[derive(Clone, Copy, Debug, PartialEq, Eq)]
pub enum WorldRefused {
    /// So many frames were delivered as a run may have, and something was left to do.
    Frames,
    /// The journal of an end had no room for what was to be done next.
    Journal,
    Memory,
}

impl From<AllocError> for WorldRefused {
    ghost use Rattle.link_world.specs.declared.outcome.WorldRefused.TheVariants.{Memory};

    ghost from_gives = { λ _ e. e ≡ Memory };

    fn from(_: AllocError) -> WorldRefused {
        WorldRefused::Memory
    }
}

impl From<Stopped> for WorldRefused {
    ghost use Rattle.link_world.specs.Refused.{refused_by};

    ghost from_gives = { λ stopped e. e ≡ refused_by stopped };

    fn from(stopped: Stopped) -> WorldRefused {
        match stopped {
            Stopped::Journal => WorldRefused::Journal,
            Stopped::Memory => WorldRefused::Memory,
        }
    }
}
