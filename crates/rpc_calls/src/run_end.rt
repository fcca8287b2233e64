//! The end of a run, in the states of the calls and the items.
ghost use Rattle.std.specs.Prelude.{◌≡◌, ℕ, ◌+◌, ◌<◌, ◌++◌, true, length, slice_get, is_some, Some};
ghost use Rattle.std.specs.VecDeque.{deque_len, deque_capacity};
ghost use Rattle.rpc_journal.specs.declared.table.call_state.CallState.{CallState};
ghost use Rattle.rpc_journal.specs.table.Touch.{finishing_so, completes_given, end_given};
ghost use Rattle.rpc_calls.specs.AnswerItems.{answer_items};
ghost use Rattle.rpc_calls.specs.Handlers.{over_state};
ghost use Rattle.rpc_calls.specs.Places.{ChangesAt};
ghost use Rattle.rpc_calls.specs.RunEnds.{EndsRun};
ghost use Rattle.rpc_journal.specs.table.Turns.{Turns};

use crate::answer_items::say_answer;
use crate::copies::Copies;
use crate::indexed_states::IndexedStates;
use rpc_ids::Role;
use rpc_journal::Item;
use rpc_journal::table::CallState;
use std::collections::VecDeque;

/// Ends the run of this call with this answer. Its handler comes back where the table has no further use for it.
pub fn end_run<H: Drop>(
    states: &mut IndexedStates<H>,
    items: &mut VecDeque<Item>,
    role: Role,
    call: u32,
    copies: Copies,
    handler: H,
) -> Option<H>
    requires there { call < length states.old.states.calls.items }
    requires runs { (r : CallState) → slice_get states.old.states.calls.items call ≡ Some r → is_some r.run ≡ true }
    requires room { deque_len items.old + deque_len copies.outs < deque_capacity items.old }
    ensures items { (r : CallState) → slice_get states.old.states.calls.items call ≡ Some r → items.new.items ≡ items.old.items ++ answer_items role call r copies.outs.items copies.end }
    ensures capacity { deque_capacity items.new ≡ deque_capacity items.old }
    ensures change { (at : ℕ) (r : CallState) → slice_get states.old.states.calls.items call ≡ Some r → ChangesAt call (Turns at (finishing_so (end_given role r copies.end) (completes_given role r copies.end))) states.old.states.calls.items states.new.states.calls.items }
    ensures newest { states.new.states.newest ≡ states.old.states.newest }
    ensures unflushed { states.new.states.unflushed ≡ length items.new.items }
    ensures input { states.new.states.input_ended ≡ states.old.states.input_ended }
    ensures halt { states.new.states.halted ≡ states.old.states.halted }
    ensures closed { states.new.states.closed.items ≡ states.old.states.closed.items }
    ensures handlers { EndsRun call handler result states.old.handlers states.new }
{
    let state = states.state(call).unwrap();
    let end = say_answer(items, role, call, state, copies);
    let back = states.finish(call, end.status, end.completes, handler);
    states.set_unflushed(items.len() as u64);
    back
}

/// Whether no further run of a call in this state can begin.
pub fn is_over(state: &CallState) -> bool
    ensures { result ≡ over_state state.now }
{
    state.cancelled || (state.status.is_some() && state.waiting.is_empty())
}
