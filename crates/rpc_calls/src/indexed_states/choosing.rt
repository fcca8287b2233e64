//! Which call runs next.
ghost use Rattle.std.specs.Prelude.{◌≡◌, ◌==◌, ◌&&◌, List, IfSome, IfNone};
ghost use Rattle.rpc_journal.specs.Calls.{call_count};
ghost use Rattle.rpc_journal.specs.Choice.{IsFirstReady, NoneReady, first_place};
ghost use Rattle.rpc_journal.specs.Effect.{Deed};
ghost use Rattle.rpc_journal.specs.Kinds.{is_empty};
ghost use Rattle.rpc_journal.specs.Queues.{waiting_of};
ghost use Rattle.rpc_journal.specs.Quiet.{all_below, none_runs};
ghost use Rattle.rpc_journal.specs.table.Agrees.{Agrees};
ghost use Rattle.rpc_journal.specs.table.Touch.{is_startable};
ghost use Rattle.rpc_calls.specs.First.{FirstToStart, starts_since as starts_now};

use super::IndexedStates;
use crate::call_records::CallRecords;
use crate::waiting_calls::WaitingCall;
use rpc_journal::table::CallState;
use std::collections::VecDeque;

impl<H> IndexedStates<H> {
    /// The ready call whose oldest waiting event was put first, the one of the lower number at a tie.
    pub fn first_ready(&self) -> Option<u32>
        ensures first { IfSome result (λ c. (ds : List Deed) → Agrees ds self.now.states → IsFirstReady ds c) }
        ensures none { IfNone result ((ds : List Deed) → Agrees ds self.now.states → NoneReady ds) }
    {
        let listed = &self.index.waiting.calls;
        match first_to_start(&self.calls, listed) {
            Some(place) => Some(listed[place].call),
            None => None,
        }
    }

    /// Whether no call runs.
    pub fn none_running(&self) -> bool
        ensures { (ds : List Deed) → Agrees ds self.now.states → result ≡ none_runs ds }
    {
        self.index.owed.running == 0
    }

    /// Whether no event waits for any call.
    pub fn none_waiting(&self) -> bool
        ensures { (ds : List Deed) → Agrees ds self.now.states → result ≡ all_below (call_count ds) (λ c. is_empty (waiting_of ds c)) }
    {
        self.index.owed.queued == 0
    }
}

// The first place of this list whose call can start.
fn first_to_start<H>(calls: &CallRecords<H>, listed: &VecDeque<WaitingCall>) -> Option<usize>
    ensures { FirstToStart calls.now.states listed.now.items result }
{
    listed.iter().position(
        |waiting: &WaitingCall| -> bool
            ensures { result ≡ starts_now calls.entry.now.states waiting.now }
        { starts_since(calls, waiting) },
    )
}

// Whether this call can start, with an event of this place.
fn starts_since<H>(calls: &CallRecords<H>, waiting: &WaitingCall) -> bool
    ensures { result ≡ starts_now calls.entry.now.states waiting.now }
{
    match calls.state(waiting.call as usize) {
        Some(state) => {
            let halted = calls.halted().is_some();
            can_start(state, waiting.since, calls.unflushed(), halted)
        }
        None => false,
    }
}

fn can_start(state: &CallState, since: u64, unflushed: u64, halted: bool) -> bool
    ensures { result ≡ (is_startable state.now unflushed halted && (first_place state.now.waiting.items == since)) }
{
    state.is_ready(unflushed, halted) && state.oldest_place() == since
}
