//! The record of a call that can still be used, in a slab of them.
ghost use Rattle.std.specs.Prelude.{◌≡◌, Some, is_some, IfSome, OnOk};
ghost use Rattle.slab.specs.Slab.{ContainsKey, get};
ghost use Rattle.rpc_journal.specs.table.Turns.{Turns};
ghost use Rattle.rpc_calls.specs.Records.{CanTurnUnder, ChangesHandler, ChangesRecord, TakesOldest, handler_of, state_in};
ghost use Rattle.rpc_calls.specs.StateChanges.{is_start, touch_of};
ghost use Rattle.rpc_calls.specs.Widened.{HasTwoPlaces, IsWider};

use crate::state_change::StateChange;
use rpc_journal::Waiting;
use rpc_journal::table::CallState;
use slab::Slab;
use std::alloc::AllocError;

/// What is kept of a call that can still be used.
#[derive(Drop)]
pub struct CallRecord<H> {
    /// The call's number.
    pub number: u32,
    pub state: CallState,
    /// What answers the call's next event, but for a run that has it out.
    pub handler: Option<H>,
}

/// The state in the record under this key.
pub fn state_under<H>(records: &Slab<CallRecord<H>>, key: usize) -> &CallState
    requires { ContainsKey records.now key }
    ensures { state_in (get records.now key) ≡ Some result.now }
{
    &records[key].state
}

/// Whether there is a handler in the record under this key.
pub fn has_handler_under<H>(records: &Slab<CallRecord<H>>, key: usize) -> bool
    requires { ContainsKey records.now key }
    ensures { result ≡ is_some (handler_of (get records.now key)) }
{
    records[key].handler.is_some()
}

/// The state in the record under this key changes so, by the entry at this place.
pub fn change_under<H>(
    records: &mut Slab<CallRecord<H>>,
    key: usize,
    at: u64,
    change: StateChange,
) -> Option<Waiting>
    requires there { ContainsKey records.old key }
    requires can { CanTurnUnder change (get records.old key) }
    ensures change { ChangesRecord key (λ r x. Turns at (touch_of change r) r x) records.old records.new }
    ensures oldest { TakesOldest result (get records.old key) (get records.new key) }
    ensures starts { is_some result ≡ is_start change }
{
    change.apply(&mut records[key].state, at)
}

/// Makes two places for events in the record under this key.
pub fn widen_under<H>(records: &mut Slab<CallRecord<H>>, key: usize) -> Result<(), AllocError>
    requires { ContainsKey records.old key }
    ensures change { ChangesRecord key IsWider records.old records.new }
    ensures room { OnOk result (IfSome (state_in (get records.new key)) HasTwoPlaces) }
{
    widen(&mut records[key].state)
}

fn widen(state: &mut CallState) -> Result<(), AllocError>
    ensures same { IsWider state.old state.new }
    ensures room { OnOk result (HasTwoPlaces state.new) }
{
    state.make_rooms()
}

/// The record under this key gets another handler, or none. Answers the one before.
pub fn swap_under<H: Drop>(
    records: &mut Slab<CallRecord<H>>,
    key: usize,
    handler: Option<H>,
) -> Option<H>
    requires { ContainsKey records.old key }
    ensures was { result ≡ handler_of (get records.old key) }
    ensures change { ChangesHandler key handler records.old records.new }
{
    std::mem::replace(&mut records[key].handler, handler)
}
