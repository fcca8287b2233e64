//! Changes of one call.
ghost use Rattle.std.specs.Prelude.{◌≡◌, ℕ, ◌<◌, ◌≤◌, ◌+◌, ◌∷◌, Option, OnOk, IfSome, false, true, length, slice_get, slice_set, is_some, Some, None};
ghost use Rattle.std.specs.VecDeque.{deque_capacity};
ghost use Rattle.rpc_handlers.specs.declared.event.Event.TheVariants.{Message};
ghost use Rattle.rpc_journal.specs.declared.table.call_state.CallState.{CallState};
ghost use Rattle.rpc_journal.specs.Kinds.{is_empty};
ghost use Rattle.rpc_journal.specs.table.Touch.{starting, finishing_so, cancelling, closing, putting, ending, answering, completing};
ghost use Rattle.rpc_journal.specs.table.Turns.{Turns};

use super::IndexedStates;
use super::handlers::{cancel_one, leave_if_done, put_back};
use crate::state_change::StateChange;
use bytes::Bytes;
use rpc_handlers::Event;
use rpc_ids::Status;
use rpc_journal::Waiting;
use std::alloc::AllocError;

/// The event with which a run begins, and what answers it.
#[derive(Drop)]
pub struct Begun<H> {
    pub oldest: Waiting,
    pub handler: H,
}

impl<H> IndexedStates<H> {
    ghost use Rattle.rpc_calls.specs.Facts.{is_done_with};
    ghost use Rattle.rpc_calls.specs.Outside.{SameOutside};
    ghost use Rattle.rpc_calls.specs.Places.{ChangesAt};
    ghost use Rattle.rpc_calls.specs.Roll.{Changes};
    ghost use Rattle.rpc_calls.specs.RunEnds.{CutsHandler, EndsRun};
    ghost use Rattle.rpc_calls.specs.StateChanges.{CanTurn, is_start, touch_of};
    ghost use Rattle.rpc_calls.specs.Widened.{HasTwoPlaces, IsWidened};

    /// A run of this seat begins, with the oldest event that waits. It takes the handler out.
    pub fn start(&mut self, call: u32, seat: u32) -> Begun<H>
    where
        H: Drop,
        requires there { call < length self.old.states.calls.items }
        requires waits { (r : CallState) → slice_get self.old.states.calls.items call ≡ Some r → is_empty r.waiting.items ≡ false }
        requires handled { (slot : Option H) → slice_get self.old.handlers call ≡ Some slot → is_some slot ≡ true }
        ensures change { (at : ℕ) → ChangesAt call (Turns at (starting seat)) self.old.states.calls.items self.new.states.calls.items }
        ensures oldest { (r x : CallState) → slice_get self.old.states.calls.items call ≡ Some r → slice_get self.new.states.calls.items call ≡ Some x → r.waiting.items ≡ result.oldest ∷ x.waiting.items }
        ensures outside { SameOutside self.old.states self.new.states }
        ensures handler { slice_get self.old.handlers call ≡ Some (Some result.handler) }
        ensures handlers { self.new.handlers ≡ slice_set self.old.handlers call None }
    {
        let was = self.calls.marks(call);
        let oldest = self
            .calls
            .change(call, 0, StateChange::Start(seat))
            .unwrap();
        let is = self.calls.marks(call);
        self.index.change(call, was, is);
        let handler = self.calls.swap_handler(call, None).unwrap();
        Begun { oldest, handler }
    }

    /// The run of the call ends, and with it the call where its answer gives an end; or it completes the stream that a
    /// client sends. The handler is put back, but where the call is over or has another one. A call that is done with
    /// leaves its record.
    pub fn finish(
        &mut self,
        call: u32,
        end: Option<Status>,
        completes: bool,
        handler: H,
    ) -> Option<H>
    where
        H: Drop,
        requires there { call < length self.old.states.calls.items }
        requires runs { (r : CallState) → slice_get self.old.states.calls.items call ≡ Some r → is_some r.run ≡ true }
        requires once { is_some end ≡ true → (r : CallState) → slice_get self.old.states.calls.items call ≡ Some r → r.status ≡ None }
        ensures change { (at : ℕ) → ChangesAt call (Turns at (finishing_so end completes)) self.old.states.calls.items self.new.states.calls.items }
        ensures outside { SameOutside self.old.states self.new.states }
        ensures handlers { EndsRun call handler result self.old.handlers self.new }
    {
        let was = self.calls.marks(call);
        let _ = self
            .calls
            .change(call, 0, StateChange::Finish(end, completes));
        let is = self.calls.marks(call);
        self.index.change(call, was, is);
        let back = put_back(&mut self.calls, call, handler);
        leave_if_done(&mut self.calls, &mut self.kept, call);
        back
    }

    /// The call is cancelled: no event waits for it any more, and it has an end. Its handler goes, but where the call
    /// runs. A call that is done with leaves its record.
    pub fn cancel(&mut self, call: u32)
    where
        H: Drop,
        requires { call < length self.old.states.calls.items }
        ensures change { (at : ℕ) → ChangesAt call (λ r x. Turns at (cancelling r.status) r x) self.old.states.calls.items self.new.states.calls.items }
        ensures outside { SameOutside self.old.states self.new.states }
        ensures handlers { CutsHandler call self.old self.new.handlers }
    {
        let _ = self.calls.len();
        let was = self.calls.marks(call);
        cancel_one(&mut self.calls, call);
        let is = self.calls.marks(call);
        self.index.change(call, was, is);
        leave_if_done(&mut self.calls, &mut self.kept, call);
    }

    /// The peer ends the call: what waits goes, and its end waits. There is a place for it.
    pub fn close(&mut self, call: u32, at: u64, status: Status)
        requires there { call < length self.old.states.calls.items }
        requires live { (r : CallState) → slice_get self.old.states.calls.items call ≡ Some r → r.status ≡ None }
        requires place { (r : CallState) → slice_get self.old.states.calls.items call ≡ Some r → 0 < deque_capacity r.waiting }
        ensures { Changes call (Turns at (closing status)) self.old self.new }
    {
        let _ = self.change(call, at, StateChange::Close(status));
    }

    /// An event waits for the call. There is a place for it.
    pub fn put(&mut self, call: u32, at: u64, event: Event)
        requires there { call < length self.old.states.calls.items }
        requires live { (r : CallState) → slice_get self.old.states.calls.items call ≡ Some r → r.status ≡ None }
        requires place { (r : CallState) → slice_get self.old.states.calls.items call ≡ Some r → length r.waiting.items < deque_capacity r.waiting }
        ensures { Changes call (Turns at (putting event)) self.old self.new }
    {
        let _ = self.change(call, at, StateChange::Put(event));
    }

    /// The server ends the call: its end waits after its other events. There is a place for it.
    pub fn end(&mut self, call: u32, at: u64, status: Status)
        requires there { call < length self.old.states.calls.items }
        requires live { (r : CallState) → slice_get self.old.states.calls.items call ≡ Some r → r.status ≡ None }
        requires place { (r : CallState) → slice_get self.old.states.calls.items call ≡ Some r → length r.waiting.items < deque_capacity r.waiting }
        ensures { Changes call (Turns at (ending status)) self.old self.new }
    {
        let _ = self.change(call, at, StateChange::End(status));
    }

    /// The server answers the call: a message waits, and then its end. There are places for both.
    pub fn answer(&mut self, call: u32, at: u64, payload: Bytes, status: Status)
        requires there { call < length self.old.states.calls.items }
        requires live { (r : CallState) → slice_get self.old.states.calls.items call ≡ Some r → r.status ≡ None }
        requires places { (r : CallState) → slice_get self.old.states.calls.items call ≡ Some r → length r.waiting.items + 1 < deque_capacity r.waiting }
        ensures { Changes call (Turns at (answering (Message payload) status)) self.old self.new }
    {
        let _ = self.change(call, at, StateChange::Answer(payload, status));
    }

    /// The client has completed its stream of the call.
    pub fn complete(&mut self, call: u32)
        requires there { call < length self.old.states.calls.items }
        requires live { (r : CallState) → slice_get self.old.states.calls.items call ≡ Some r → r.status ≡ None }
        ensures change { (at : ℕ) → ChangesAt call (Turns at completing) self.old.states.calls.items self.new.states.calls.items }
        ensures outside { SameOutside self.old.states self.new.states }
        ensures handlers { self.new.handlers ≡ self.old.handlers }
    {
        let _ = self.change(call, 0, StateChange::Complete);
    }

    /// Makes two places for events of a live call. The states tell of what they told before.
    pub fn widen(&mut self, call: u32) -> Result<(), AllocError>
        requires there { call < length self.old.states.calls.items }
        requires used { (r : CallState) → slice_get self.old.states.calls.items call ≡ Some r → is_done_with r ≡ false }
        ensures same { IsWidened call self.old.states self.new.states }
        ensures handlers { self.new.handlers ≡ self.old.handlers }
        ensures room { OnOk result ((r : CallState) → slice_get self.new.states.calls.items call ≡ Some r → HasTwoPlaces r) }
    {
        let _ = self.calls.marks(call);
        self.calls.widen(call)
    }

    /// The state of a call that isn't done with changes so, by the entry at this place, and isn't done with after it.
    pub(super) fn change(&mut self, call: u32, at: u64, change: StateChange) -> Option<Waiting>
        requires there { call < length self.old.states.calls.items }
        requires used { (r : CallState) → slice_get self.old.states.calls.items call ≡ Some r → is_done_with r ≡ false }
        requires can { (r : CallState) → slice_get self.old.states.calls.items call ≡ Some r → CanTurn change r }
        requires stays { (r x : CallState) → slice_get self.old.states.calls.items call ≡ Some r → Turns at (touch_of change r) r x → is_done_with x ≡ false }
        ensures changes { Changes call (λ r x. Turns at (touch_of change r) r x) self.old self.new }
        ensures oldest { (r x : CallState) → slice_get self.old.states.calls.items call ≡ Some r → slice_get self.new.states.calls.items call ≡ Some x → IfSome result (λ w. r.waiting.items ≡ w ∷ x.waiting.items) }
        ensures starts { is_some result ≡ is_start change }
    {
        let was = self.calls.marks(call);
        let oldest = self.calls.change(call, at, change);
        let is = self.calls.marks(call);
        self.index.change(call, was, is);
        oldest
    }
}
