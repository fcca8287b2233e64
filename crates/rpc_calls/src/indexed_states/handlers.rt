//! The handlers of calls, and calls that leave with theirs.
ghost use Rattle.std.specs.Prelude.{◌≡◌, ◌<◌, ℕ, true, length, slice_get, slice_set, Option, IfNone, IfSome, is_some, Some, None, if◌then◌else◌};
ghost use Rattle.rpc_journal.specs.declared.table.call_state.CallState.{CallState};
ghost use Rattle.rpc_journal.specs.table.Touch.{cancelling};
ghost use Rattle.rpc_journal.specs.table.Turns.{Turns};
ghost use Rattle.rpc_calls.specs.Handlers.{over_state};
ghost use Rattle.rpc_calls.specs.Facts.{IsDoneWith, is_done_with};
ghost use Rattle.rpc_calls.specs.InUse.{AreKept};
ghost use Rattle.rpc_calls.specs.Outside.{SameOutside};
ghost use Rattle.rpc_calls.specs.Places.{ChangesAt};
ghost use Rattle.rpc_calls.specs.Kept.{is_kept_at};
ghost use Rattle.rpc_calls.specs.RunEnds.{CutsHandler, LeavesIfDone, PutsBack};

use super::IndexedStates;
use crate::call_records::CallRecords;
use crate::kept_calls::KeptCalls;
use crate::run_end::is_over;
use crate::state_change::StateChange;
use rpc_journal::table::CallState;

impl<H> IndexedStates<H> {
    /// Gives a live call another handler. The old one comes back where the call doesn't run.
    pub fn swap_handler(&mut self, call: u32, handler: H) -> Option<H>
    where
        H: Drop,
        requires there { call < length self.old.states.calls.items }
        requires live { (r : CallState) → slice_get self.old.states.calls.items call ≡ Some r → r.status ≡ None }
        ensures states { self.new.states ≡ self.old.states }
        ensures handlers { self.new.handlers ≡ slice_set self.old.handlers call (Some handler) }
        ensures back { (r : CallState) (slot : Option H) → slice_get self.old.states.calls.items call ≡ Some r → slice_get self.old.handlers call ≡ Some slot → result ≡ (if is_some r.run then None else slot) }
    {
        let marks = self.calls.marks(call);
        let old = self.calls.swap_handler(call, Some(handler));
        if marks.runs { None } else { old }
    }
}

/// Puts the handler of a call whose run has ended back, but where the call is over or has another one.
pub(super) fn put_back<H: Drop>(calls: &mut CallRecords<H>, call: u32, handler: H) -> Option<H>
    requires { is_kept_at (slice_get calls.old.places call) ≡ true }
    ensures { PutsBack call handler result calls.old calls.new }
{
    if is_over_at(calls, call) || calls.has_handler(call) {
        return Some(handler);
    }
    let _ = calls.swap_handler(call, Some(handler));
    None
}

// Whether no further run of a call that is kept can begin.
fn is_over_at<H>(calls: &CallRecords<H>, call: u32) -> bool
    requires { is_kept_at (slice_get calls.now.places call) ≡ true }
    ensures { (x : CallState) → slice_get calls.now.states.calls.items call ≡ Some x → result ≡ over_state x }
{
    match calls.state(call as usize) {
        Some(state) => is_over(state),
        None => false,
    }
}

/// The call is cancelled, and its handler goes, but where the call runs.
pub(super) fn cancel_one<H: Drop>(calls: &mut CallRecords<H>, call: u32)
    requires { call < length calls.old.states.calls.items }
    ensures change { (at : ℕ) → ChangesAt call (λ r x. Turns at (cancelling r.status) r x) calls.old.states.calls.items calls.new.states.calls.items }
    ensures outside { SameOutside calls.old.states calls.new.states }
    ensures handlers { CutsHandler call calls.old calls.new.handlers }
    ensures kept { (k : ℕ) → is_kept_at (slice_get calls.new.places k) ≡ is_kept_at (slice_get calls.old.places k) }
{
    match run_of(calls, call) {
        None => calls.cancel_left(call),
        Some(true) => {
            let _ = calls.change(call, 0, StateChange::Cancel);
        }
        Some(false) => {
            let _ = calls.change(call, 0, StateChange::Cancel);
            let _ = calls.swap_handler(call, None);
        }
    }
}

// Whether a call that is kept runs; None of one that has left.
fn run_of<H>(calls: &CallRecords<H>, call: u32) -> Option<bool>
    ensures kept { is_some result ≡ is_kept_at (slice_get calls.now.places call) }
    ensures runs { (r : CallState) → slice_get calls.now.states.calls.items call ≡ Some r → IfSome result (λ runs. runs ≡ is_some r.run) }
    ensures left { IfNone result ((r : CallState) → slice_get calls.now.states.calls.items call ≡ Some r → IsDoneWith r) }
    ensures empty { IfNone result ((slot : Option H) → slice_get calls.now.handlers call ≡ Some slot → slot ≡ None) }
{
    match calls.state(call as usize) {
        Some(state) => Some(state.run.is_some()),
        None => None,
    }
}

/// A call that is kept and done with leaves its record.
pub(super) fn leave_if_done<H: Drop>(calls: &mut CallRecords<H>, kept: &mut KeptCalls, call: u32)
    ensures leaves { LeavesIfDone call calls.old calls.new }
    ensures kept { AreKept kept.old calls.old.places → AreKept kept.new calls.new.places }
{
    if can_leave(calls, call) {
        calls.leave(call);
        kept.remove(call);
    }
}

// Whether this call is kept and done with.
fn can_leave<H>(calls: &CallRecords<H>, call: u32) -> bool
    ensures kept { result ≡ true → is_kept_at (slice_get calls.now.places call) ≡ true }
    ensures done { (r : CallState) → slice_get calls.now.states.calls.items call ≡ Some r → is_kept_at (slice_get calls.now.places call) ≡ true → result ≡ is_done_with r }
{
    match calls.state(call as usize) {
        Some(state) => has_nothing_left(state),
        None => false,
    }
}

// Whether it has ended, isn't run and has no event that waits.
fn has_nothing_left(state: &CallState) -> bool
    ensures { result ≡ is_done_with state.now }
{
    state.status.is_some() && state.run.is_none() && state.waiting.is_empty()
}
