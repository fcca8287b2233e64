//! The state of a call, for clauses alone.
ghost use Rattle.std.specs.Prelude.{◌≡◌, true};

use crate::last_state::LastState;
use rpc_journal::table::CallState;
use std::marker::Model;

/// The state of a call as clauses see it. It takes no bytes.
#[derive(Drop)]
pub struct ShownState {
    last: LastState,
}

impl Model for ShownState {
    ghost use Rattle.rpc_journal.specs.declared.table.call_state.CallState.{CallState};

    ghost Value = { CallState };

    ghost view = { λ s. s.last.value };
}

impl ShownState {
    /// That of this state.
    pub fn of(state: &CallState) -> ShownState
        ensures { result ≡ state.now }
    {
        ShownState {
            last: LastState::of(state),
        }
    }

    /// The same, once the call is cancelled.
    pub fn cancelled(&self) -> ShownState
        ensures { result ≡ record self.now { cancelled = true } }
    {
        ShownState {
            last: self.last.cancelled(),
        }
    }
}
