//! Calls that open.
ghost use Rattle.std.specs.Prelude.{◌≡◌, ◌<◌, ◌+◌, ◌^◌, ◌++◌, ◌∷◌, [], OnOk, OnErr, IfErr, length, ℕ, Some, None, vec_len, vec_capacity};
ghost use Rattle.slab.specs.Slab.{HasRoomFor, get};

use super::CallRecords;
use crate::call_place::CallPlace;
use crate::call_record::CallRecord;
use crate::shown_state::ShownState;
use rpc_journal::table::CallState;
use slab::Slab;
use std::alloc::AllocError;

impl<H> CallRecords<H> {
    ghost use Rattle.rpc_calls.specs.Opening.{OpensRecord, IsSameRoll};

    /// One more call is there, in this state, which has no end, and with this handler. Refused, the handler comes back.
    pub fn open(&mut self, state: CallState, handler: H) -> Result<(), (H, AllocError)>
        requires few { length self.old.states.calls.items + 1 < 2 ^ 32 }
        requires live { state.status ≡ None }
        ensures opens { OnOk result (OpensRecord state handler self.old self.new) }
        ensures back { IfErr result (λ e. e.0 ≡ handler) }
        ensures err { OnErr result (IsSameRoll self.old self.new) }
    {
        if let Err(e) = make_room(&mut self.records, &mut self.places, &mut self.shown) {
            return Err((handler, e));
        }
        let call = self.places.len();
        if let Err(e) = self.names.set(state.name, call as u32) {
            return Err((handler, e));
        }
        self.shown.push_reserved(ShownState::of(&state));
        let key = self.records.insert_reserved(CallRecord {
            number: call as u32,
            state,
            handler: Some(handler),
        });
        self.places.push_reserved(CallPlace::Kept(key));
        Ok(())
    }
}

// Makes room for one more call.
fn make_room<H>(
    records: &mut Slab<CallRecord<H>>,
    places: &mut Vec<CallPlace>,
    shown: &mut Vec<ShownState>,
) -> Result<(), AllocError>
    ensures records { (key : ℕ) → get records.new key ≡ get records.old key }
    ensures places { places.new.items ≡ places.old.items }
    ensures shown { shown.new.items ≡ shown.old.items }
    ensures record_room { OnOk result (HasRoomFor records.new 1) }
    ensures place_room { OnOk result (vec_len places.new < vec_capacity places.new) }
    ensures shown_room { OnOk result (vec_len shown.new < vec_capacity shown.new) }
{
    records.reserve(1)?;
    places.reserve(1)?;
    shown.reserve(1)
}
