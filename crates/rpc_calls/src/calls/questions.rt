//! What a table tells of its calls.
ghost use Rattle.std.specs.Prelude.{◌≡◌, ◌≤◌, ◌&&◌, length, Some, option_map};
ghost use Rattle.rpc_journal.specs.Calls.{call_at, call_count, end_of};
ghost use Rattle.rpc_journal.specs.Conditions.{IsCall};
ghost use Rattle.rpc_journal.specs.Items.{halt_reason, input_ended as no_input_left};
ghost use Rattle.rpc_journal.specs.Queues.{waiting_of};
ghost use Rattle.rpc_journal.specs.Kinds.{is_empty};
ghost use Rattle.rpc_journal.specs.Quiet.{all_below, is_settled as settles, none_runs};
ghost use Rattle.rpc_journal.specs.CallTable.{past};

use super::Calls;
use link_io::Why;
use rpc_handlers::Handler;
use rpc_ids::{MethodRef, Status};
use rpc_journal::table::CallState;
use rpc_packet::CallName;

impl<H: Handler> Calls<H> {
    /// How many calls were opened. They are numbered from 0 in the order of their openings.
    pub fn count(&self) -> u32
        ensures { result ≡ call_count (past self.now) }
    {
        self.calls.count() as u32
    }

    /// The name of this call.
    pub fn name(&self, call: u32) -> CallName
        requires { IsCall self.now.setting self.now.entries call }
        ensures { option_map (λ o. o.name) (call_at (past self.now) call) ≡ Some result }
    {
        self.calls.facts(call).unwrap().name
    }

    /// The method of this call.
    pub fn method(&self, call: u32) -> MethodRef
        requires { IsCall self.now.setting self.now.entries call }
        ensures { option_map (λ o. o.method) (call_at (past self.now) call) ≡ Some result }
    {
        self.calls.facts(call).unwrap().method
    }

    /// The status with which this call ended.
    pub fn status(&self, call: u32) -> Option<Status>
        requires { IsCall self.now.setting self.now.entries call }
        ensures { result ≡ end_of (past self.now) call }
    {
        self.calls.facts(call).unwrap().status
    }

    /// Why the table was halted, where it was.
    pub fn halted(&self) -> Option<Why>
        ensures { result ≡ halt_reason (past self.now) }
    {
        self.calls.halted()
    }

    /// Whether the input has ended.
    pub fn input_ended(&self) -> bool
        ensures { result ≡ no_input_left (past self.now) }
    {
        self.calls.input_ended()
    }

    /// How many events wait for this call: at most 64 other than `Ended`, and one `Ended`.
    pub fn waiting(&self, call: u32) -> u32
        requires { IsCall self.now.setting self.now.entries call }
        ensures { result ≡ length (waiting_of (past self.now) call) }
    {
        match self.calls.state(call) {
            Some(state) => count_waiting(state),
            None => 0,
        }
    }

    /// Whether no event waits for any call.
    pub fn none_waiting(&self) -> bool
        ensures { result ≡ all_below (call_count (past self.now)) (λ c. is_empty (waiting_of (past self.now) c)) }
    {
        self.calls.none_waiting()
    }

    /// Whether no call runs.
    pub fn none_running(&self) -> bool
        ensures { result ≡ none_runs (past self.now) }
    {
        self.calls.none_running()
    }

    /// Whether no handler has anything left to do: the input has ended, no call runs, and no event waits.
    pub fn idle(&self) -> bool
        ensures { result ≡ (no_input_left (past self.now) && none_runs (past self.now) && all_below (call_count (past self.now)) (λ c. is_empty (waiting_of (past self.now) c))) }
    {
        self.input_ended() && self.none_running() && self.none_waiting()
    }

    /// Whether nothing is left to do: the input has ended, no call runs, no event of a call that wasn't cancelled waits,
    /// and no item does.
    pub fn settled(&self) -> bool
        ensures { result ≡ settles (past self.now) }
    {
        let idle = self.idle();
        let flushed = self.items.is_empty();
        is_settled(idle, flushed)
    }
}

// How many events wait for a call in this state.
fn count_waiting(state: &CallState) -> u32
    requires { length state.now.waiting.items ≤ 65 }
    ensures { result ≡ length state.now.waiting.items }
{
    state.waiting.len() as u32
}

fn is_settled(idle: bool, flushed: bool) -> bool
    ensures { result ≡ (idle && flushed) }
{
    idle && flushed
}
