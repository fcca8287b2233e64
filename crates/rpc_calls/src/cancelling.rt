//! A cancel, in the calls and the items.
ghost use Rattle.std.specs.Prelude.{◌≡◌, ℕ, ◌+◌, ◌<◌, ◌≤◌, ◌++◌, length, slice_get, Some, is_some};
ghost use Rattle.std.specs.VecDeque.{deque_len, deque_capacity};
ghost use Rattle.rpc_journal.specs.declared.table.call_state.CallState.{CallState};
ghost use Rattle.rpc_journal.specs.table.Touch.{cancelling};
ghost use Rattle.rpc_calls.specs.CancelItems.{cancel_items};
ghost use Rattle.rpc_calls.specs.Places.{ChangesAt};
ghost use Rattle.rpc_calls.specs.RunEnds.{CutsHandler};
ghost use Rattle.rpc_journal.specs.table.Turns.{Turns};

use crate::call_place::CallFacts;
use crate::indexed_states::IndexedStates;
use crate::packets::{error_type, leave_item, send_item, status_packet};
use rpc_ids::{Role, Status};
use rpc_journal::Item;
use std::collections::VecDeque;

/// Cancels this call. There is room for two items.
pub fn cancel_call<H: Drop>(
    states: &mut IndexedStates<H>,
    items: &mut VecDeque<Item>,
    role: Role,
    call: u32,
)
    requires there { call < length states.old.states.calls.items }
    requires room { deque_len items.old + 2 ≤ deque_capacity items.old }
    ensures items { (r : CallState) → slice_get states.old.states.calls.items call ≡ Some r → items.new.items ≡ items.old.items ++ cancel_items role call r.name (is_some r.status) (is_some r.run) }
    ensures capacity { deque_capacity items.new ≡ deque_capacity items.old }
    ensures change { (at : ℕ) → ChangesAt call (λ r x. Turns at (cancelling r.status) r x) states.old.states.calls.items states.new.states.calls.items }
    ensures newest { states.new.states.newest ≡ states.old.states.newest }
    ensures unflushed { states.new.states.unflushed ≡ length items.new.items }
    ensures input { states.new.states.input_ended ≡ states.old.states.input_ended }
    ensures halt { states.new.states.halted ≡ states.old.states.halted }
    ensures closed { states.new.states.closed.items ≡ states.old.states.closed.items }
    ensures handlers { CutsHandler call states.old states.new.handlers }
{
    let runs = states.runs(call);
    let facts = states.facts(call).unwrap();
    say_cancel(facts, runs, items, role, call);
    states.cancel(call);
    states.set_unflushed(items.len() as u64);
}

fn say_cancel(facts: CallFacts, runs: bool, items: &mut VecDeque<Item>, role: Role, call: u32)
    requires { deque_len items.old + 2 ≤ deque_capacity items.old }
    ensures items { items.new.items ≡ items.old.items ++ cancel_items role call facts.name (is_some facts.status) runs }
    ensures capacity { deque_capacity items.new ≡ deque_capacity items.old }
{
    if facts.status.is_none() {
        let packet = status_packet(error_type(role), facts.name, Status::Cancelled);
        items.push_back_reserved(send_item(call, packet));
    }
    if !runs {
        items.push_back_reserved(leave_item(call));
    }
}
