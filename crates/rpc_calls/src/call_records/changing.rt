//! Changes of one call.
ghost use Rattle.std.specs.Prelude.{◌≡◌, ℕ, ◌∷◌, ◌<◌, OnOk, true, false, length, slice_get, slice_set, is_some, IfSome, Some};
ghost use Rattle.slab.specs.Slab.{ContainsKey, get};
ghost use Rattle.rpc_journal.specs.declared.table.call_state.CallState.{CallState};
ghost use Rattle.rpc_calls.specs.declared.call_place.CallPlace.TheVariants.{Kept};
ghost use Rattle.rpc_calls.specs.Kept.{is_kept_at};
ghost use Rattle.rpc_calls.specs.Records.{state_in};
ghost use Rattle.rpc_calls.specs.Shown.{ShowsAt, NamesAfter};

use super::CallRecords;
use crate::call_place::{CallPlace, place_of};
use crate::call_record::{CallRecord, change_under, state_under, swap_under, widen_under};
use crate::live_names::LiveNames;
use crate::shown_state::ShownState;
use crate::state_change::StateChange;
use rpc_journal::Waiting;
use slab::Slab;
use std::alloc::AllocError;

impl<H> CallRecords<H> {
    ghost use Rattle.rpc_journal.specs.table.Turns.{Turns};
    ghost use Rattle.rpc_calls.specs.Roll.{Changes};
    ghost use Rattle.rpc_calls.specs.StateChanges.{CanTurn, is_start, touch_of};
    ghost use Rattle.rpc_calls.specs.Widened.{HasTwoPlaces, IsWider};

    /// The state of a call that is kept changes so, by the entry at this place.
    pub fn change(&mut self, call: u32, at: u64, change: StateChange) -> Option<Waiting>
        requires kept { is_kept_at (slice_get self.old.places call) ≡ true }
        requires can { (r : CallState) → slice_get self.old.states.calls.items call ≡ Some r → CanTurn change r }
        ensures changes { Changes call (λ r x. Turns at (touch_of change r) r x) self.old self.new }
        ensures oldest { (r x : CallState) → slice_get self.old.states.calls.items call ≡ Some r → slice_get self.new.states.calls.items call ≡ Some x → IfSome result (λ w. r.waiting.items ≡ w ∷ x.waiting.items) }
        ensures starts { is_some result ≡ is_start change }
    {
        let key = key_of(&self.places, call);
        let oldest = change_under(&mut self.records, key, at, change);
        show(&mut self.shown, &mut self.names, &self.records, call, key);
        oldest
    }

    /// Makes two places for events of a call that is kept.
    pub fn widen(&mut self, call: u32) -> Result<(), AllocError>
        requires { is_kept_at (slice_get self.old.places call) ≡ true }
        ensures changes { Changes call IsWider self.old self.new }
        ensures room { OnOk result ((r : CallState) → slice_get self.new.states.calls.items call ≡ Some r → HasTwoPlaces r) }
    {
        let key = key_of(&self.places, call);
        let widened = widen_under(&mut self.records, key);
        show(&mut self.shown, &mut self.names, &self.records, call, key);
        widened
    }

    /// A call that is kept gets another handler, or none. Answers the one before.
    pub fn swap_handler(&mut self, call: u32, handler: Option<H>) -> Option<H>
    where
        H: Drop,
        requires { is_kept_at (slice_get self.old.places call) ≡ true }
        ensures was { slice_get self.old.handlers call ≡ Some result }
        ensures handlers { self.new.handlers ≡ slice_set self.old.handlers call handler }
        ensures states { self.new.states ≡ self.old.states }
        ensures places { self.new.places ≡ self.old.places }
    {
        let key = key_of(&self.places, call);
        swap_under(&mut self.records, key, handler)
    }
}

/// The key of a call that is kept.
pub(super) fn key_of(places: &Vec<CallPlace>, call: u32) -> usize
    requires { is_kept_at (slice_get places.now.items call) ≡ true }
    ensures { slice_get places.now.items call ≡ Some (Kept result) }
{
    match place_of(places, call as usize) {
        Some(CallPlace::Kept(key)) => key,
        _ => 0,
    }
}

// Shows the state in the record of this call, and lets its name go where it has an end.
fn show<H>(
    shown: &mut Vec<ShownState>,
    names: &mut LiveNames,
    records: &Slab<CallRecord<H>>,
    call: u32,
    key: usize,
)
    requires call { call < length shown.old.items }
    requires there { ContainsKey records.now key }
    ensures shown { ShowsAt call (state_in (get records.now key)) shown.old.items shown.new.items }
    ensures names { NamesAfter call (state_in (get records.now key)) names.old names.new }
{
    let state = state_under(records, key);
    shown[call as usize] = ShownState::of(state);
    if state.status.is_some() && names.get(state.name) == Some(call) {
        names.forget(state.name);
    }
}
