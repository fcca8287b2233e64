//! Calls that leave their records.
ghost use Rattle.std.specs.Prelude.{◌≡◌, ℕ, true, length, slice_get, Some, None, is_some};

use super::CallRecords;
use super::changing::key_of;
use crate::call_place::{CallFacts, CallPlace, facts_left};

impl<H> CallRecords<H> {
    ghost use Rattle.std.specs.Prelude.{◌<◌, false};
    ghost use Rattle.rpc_journal.specs.declared.table.call_state.CallState.{CallState};
    ghost use Rattle.rpc_journal.specs.table.Touch.{cancelling};
    ghost use Rattle.rpc_journal.specs.table.Turns.{Turns};
    ghost use Rattle.rpc_calls.specs.Facts.{is_done_with};
    ghost use Rattle.rpc_calls.specs.Outside.{SameOutside};
    ghost use Rattle.rpc_calls.specs.Places.{ChangesAt};
    ghost use Rattle.rpc_calls.specs.Kept.{is_kept_at};
    ghost use Rattle.rpc_calls.specs.Roll.{Leaves};

    /// A call that is done with leaves its record. It takes no memory.
    pub fn leave(&mut self, call: u32)
    where
        H: Drop,
        requires kept { is_kept_at (slice_get self.old.places call) ≡ true }
        requires done { (r : CallState) → slice_get self.old.states.calls.items call ≡ Some r → is_done_with r ≡ true }
        ensures { Leaves call self.old self.new }
    {
        let key = key_of(&self.places, call);
        let record = self.records.remove(key);
        self.places[call as usize] = CallPlace::Left(CallFacts::of(&record.state));
    }

    /// A call that has left is cancelled.
    pub fn cancel_left(&mut self, call: u32)
        requires there { call < length self.old.states.calls.items }
        requires gone { is_kept_at (slice_get self.old.places call) ≡ false }
        ensures change { (at : ℕ) → ChangesAt call (λ r x. Turns at (cancelling r.status) r x) self.old.states.calls.items self.new.states.calls.items }
        ensures outside { SameOutside self.old.states self.new.states }
        ensures handlers { self.new.handlers ≡ self.old.handlers }
        ensures many { length self.new.places ≡ length self.old.places }
        ensures kept { (k : ℕ) → is_kept_at (slice_get self.new.places k) ≡ is_kept_at (slice_get self.old.places k) }
    {
        let facts = facts_left(&self.places, call).unwrap();
        self.places[call as usize] = CallPlace::Left(CallFacts {
            name: facts.name,
            method: facts.method,
            status: facts.status,
            cancelled: true,
            done: facts.done,
        });
        self.shown[call as usize] = self.shown[call as usize].cancelled();
    }
}
