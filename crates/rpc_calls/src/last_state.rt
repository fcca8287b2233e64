//! What the state of a call was when its record left, for clauses alone.
ghost use Rattle.std.specs.Prelude.{◌≡◌, true};
ghost use base.Fml.{ftrue};
ghost use Rattle.rpc_journal.specs.declared.table.call_state.CallState.{CallState};

use rpc_journal::table::CallState;
use std::marker::{Model, PhantomData};

/// The state that a call had when its record left. It takes no bytes and owns nothing, so only clauses see it.
pub struct LastState {
    marker: PhantomData<()>,
    pub ghost value: { CallState },
}

impl Model for LastState {
    ghost also_owns = { λ _. ftrue };
}

impl LastState {
    /// That of this state.
    pub fn of(state: &CallState) -> LastState
        ensures { result.value ≡ state.now }
    {
        let _ = state;
        LastState {
            marker: PhantomData,
        }
    }

    /// The same, once the call is cancelled.
    pub fn cancelled(&self) -> LastState
        ensures { result.value ≡ record self.now.value { cancelled = true } }
    {
        LastState {
            marker: PhantomData,
        }
    }
}

impl Drop for LastState {
    fn drop(self) {
        let Self { marker: _ } = self;
    }
}

// A struct with `also_owns` has neither by itself. This one owns nothing.
unsafe impl Send for LastState {}

unsafe impl Sync for LastState {}
