//! Calls that open.
ghost use Rattle.std.specs.Prelude.{◌≡◌, ◌<◌, ◌+◌, ◌^◌, ◌++◌, ◌∷◌, [], IfErr, OnOk, OnErr, length, slice_get, Some, None};
ghost use Rattle.std.specs.VecDeque.{deque_capacity};
ghost use Rattle.rpc_ids.specs.declared.status.Status.TheVariants.{Cancelled};
ghost use Rattle.rpc_journal.specs.declared.table.call_state.CallState.{CallState};
ghost use Rattle.rpc_calls.specs.Opened.{OpensAnew};
ghost use Rattle.rpc_journal.specs.table.Newest.{IsNamed, IsSameNewest};
ghost use Rattle.rpc_calls.specs.Outside.{SameRest};

use super::IndexedStates;
use crate::marks::Marks;
use rpc_ids::Status;
use rpc_journal::table::CallState;
use std::alloc::AllocError;

impl<H> IndexedStates<H> {
    ghost use Rattle.rpc_calls.specs.Opening.{IsSameRoll};

    /// One more call is there, in this state and with this handler. Refused, the handler comes back.
    pub fn open(&mut self, state: CallState, handler: H) -> Result<(), (H, AllocError)>
        requires few { length self.old.states.calls.items + 1 < 2 ^ 32 }
        requires live { state.status ≡ None }
        ensures calls { OnOk result (self.new.states.calls.items ≡ self.old.states.calls.items ++ state ∷ []) }
        ensures newest { OnOk result (IsNamed state.name (length self.old.states.calls.items) self.old.states.newest self.new.states.newest) }
        ensures handlers { OnOk result (self.new.handlers ≡ self.old.handlers ++ Some handler ∷ []) }
        ensures rest { SameRest self.old.states self.new.states }
        ensures back { IfErr result (λ e. e.0 ≡ handler) }
        ensures err { OnErr result (IsSameRoll self.old self.new) }
    {
        let call = self.calls.len();
        if let Err(e) = self.index.waiting.make_places(call + 1) {
            return Err((handler, e));
        }
        if let Err(e) = self.kept.insert(call as u32) {
            return Err((handler, e));
        }
        let marks = Marks::of(&state);
        match self.calls.open(state, handler) {
            Ok(()) => {
                self.index.change(call as u32, Marks::none(), marks);
                Ok(())
            }
            Err(refused) => {
                self.kept.remove(call as u32);
                Err(refused)
            }
        }
    }

    /// One more call is there, in this state and with this handler, and the peer has ended an older one, for whose end
    /// there is a place.
    pub fn open_anew(
        &mut self,
        old: u32,
        at: u64,
        state: CallState,
        handler: H,
    ) -> Result<(), AllocError>
    where
        H: Drop,
        requires few { length self.old.states.calls.items + 1 < 2 ^ 32 }
        requires opened { state.status ≡ None }
        requires there { old < length self.old.states.calls.items }
        requires live { (r : CallState) → slice_get self.old.states.calls.items old ≡ Some r → r.status ≡ None }
        requires place { (r : CallState) → slice_get self.old.states.calls.items old ≡ Some r → 0 < deque_capacity r.waiting }
        ensures calls { OnOk result (OpensAnew old at Cancelled state self.old.states.calls.items self.new.states.calls.items) }
        ensures newest { OnOk result (IsNamed state.name (length self.old.states.calls.items) self.old.states.newest self.new.states.newest) }
        ensures handlers { OnOk result (self.new.handlers ≡ self.old.handlers ++ Some handler ∷ []) }
        ensures rest { SameRest self.old.states self.new.states }
        ensures err { OnErr result (IsSameRoll self.old self.new) }
    {
        if let Err((_, e)) = self.open(state, handler) {
            return Err(e);
        }
        self.close(old, at, Status::Cancelled);
        Ok(())
    }
}
