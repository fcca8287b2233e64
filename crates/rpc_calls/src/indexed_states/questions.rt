//! What a table's calls tell.
ghost use Rattle.std.specs.Prelude.{◌≡◌, ◌<◌, ◌≤◌, ◌+◌, ◌^◌, ℕ, List, false, length, slice_get, Some, None, nat_le, IfSome, IfNone, is_some, option_map, if◌then◌else◌};

use super::IndexedStates;
use crate::call_place::CallFacts;
use link_io::Why;
use rpc_channel::Channels;
use rpc_ids::Role;
use rpc_journal::table::{CallState, MAX_WAITING, Move};
use rpc_journal::{is_unary, streams_out};
use rpc_packet::CallName;

impl<H> IndexedStates<H> {
    ghost use Rattle.rpc_channel.specs.Rising.{has_id};
    ghost use Rattle.rpc_packet.specs.declared.owned.Packet.{Packet};
    ghost use Rattle.rpc_journal.specs.declared.setting.Setting.{Setting};
    ghost use Rattle.rpc_journal.specs.declared.table.call_state.CallState.{CallState};
    ghost use Rattle.rpc_journal.specs.Calls.{call_at, call_count, is_cancelled, live_call, runner_of};
    ghost use Rattle.rpc_journal.specs.Effect.{Deed};
    ghost use Rattle.rpc_journal.specs.Items.{is_done, is_ready};
    ghost use Rattle.rpc_journal.specs.Lawful.{full_among, has_stream, is_unary_call};
    ghost use Rattle.rpc_journal.specs.Queues.{is_completed, messages_waiting};
    ghost use Rattle.rpc_journal.specs.Rows.{channels_in};
    ghost use Rattle.rpc_journal.specs.table.Agrees.{Agrees, IsOpenAt};
    ghost use Rattle.rpc_journal.specs.table.Moves.{row_of};
    ghost use Rattle.rpc_calls.specs.Facts.{IsDoneWith, facts_of, is_done_with};

    /// How many calls were opened.
    pub fn count(&self) -> usize
        ensures { result ≡ length self.now.states.calls.items }
    {
        self.calls.len()
    }

    /// What is told of this call, where there is such a call.
    pub fn facts(&self, call: u32) -> Option<CallFacts>
        ensures { result ≡ option_map facts_of (slice_get self.now.states.calls.items call) }
    {
        self.calls.facts(call)
    }

    /// The state of this call, where it isn't done with.
    pub fn state(&self, call: u32) -> Option<&CallState>
        ensures state { IfSome result (λ r. slice_get self.now.states.calls.items call ≡ Some r.now) }
        ensures left { IfNone result ((r : CallState) → slice_get self.now.states.calls.items call ≡ Some r → IsDoneWith r) }
    {
        self.state_at(call as usize)
    }

    fn state_at(&self, call: usize) -> Option<&CallState>
        ensures state { IfSome result (λ r. slice_get self.now.states.calls.items call ≡ Some r.now) }
        ensures left { IfNone result ((r : CallState) → slice_get self.now.states.calls.items call ≡ Some r → IsDoneWith r) }
    {
        self.calls.state(call)
    }

    /// The first call from this number on that isn't done with. All between are.
    pub fn next_in_use(&self, from: u32) -> Option<u32>
        ensures there { IfSome result (λ c. c < length self.now.states.calls.items) }
        ensures small { IfSome result (λ c. c + 1 < 2 ^ 32) }
        ensures from { IfSome result (λ c. from ≤ c) }
        ensures used { IfSome result (λ c. (r : CallState) → slice_get self.now.states.calls.items c ≡ Some r → is_done_with r ≡ false) }
        ensures first { IfSome result (λ c. (k : ℕ) (r : CallState) → from ≤ k → k < c → slice_get self.now.states.calls.items k ≡ Some r → IsDoneWith r) }
        ensures none { IfNone result ((k : ℕ) (r : CallState) → from ≤ k → slice_get self.now.states.calls.items k ≡ Some r → IsDoneWith r) }
    {
        let _ = self.calls.len();
        self.kept.next(from)
    }

    /// How many items wait to be flushed.
    pub fn unflushed(&self) -> u64
        ensures { result ≡ self.now.states.unflushed }
    {
        self.calls.unflushed()
    }

    /// Whether the input has ended.
    pub fn input_ended(&self) -> bool
        ensures { result ≡ self.now.states.input_ended }
    {
        self.calls.input_ended()
    }

    /// Why the table was halted, where it was.
    pub fn halted(&self) -> Option<Why>
        ensures { result ≡ self.now.states.halted }
    {
        self.calls.halted()
    }

    /// Whether this channel is in: it is one of those that the history begins with, and wasn't closed.
    pub fn is_in(&self, channels: &Channels, channel: u32) -> bool
        ensures { (set : Setting) (ds : List Deed) → set.channels ≡ channels.now → Agrees ds self.now.states → result ≡ has_id (channels_in set ds) channel }
    {
        self.calls.is_in(channels, channel)
    }

    /// The last call of this name, where it has no end.
    pub fn live(&self, name: CallName) -> Option<usize>
        ensures call { (ds : List Deed) → Agrees ds self.now.states → result ≡ live_call ds name }
        ensures there { IfSome result (λ c. IsOpenAt self.now.states.calls.items c) }
    {
        match self.calls.live(name) {
            Some(call) => Some(call as usize),
            None => None,
        }
    }

    /// Whether a run of this call can begin.
    pub fn is_ready(&self, call: u32) -> bool
        ensures { (ds : List Deed) → Agrees ds self.now.states → result ≡ is_ready ds call }
    {
        match self.state(call) {
            Some(state) => state.is_ready(self.unflushed(), self.halted().is_some()),
            None => false,
        }
    }

    /// The seat that runs this call.
    pub fn runner(&self, call: u32) -> Option<u32>
        ensures { (ds : List Deed) → Agrees ds self.now.states → result ≡ runner_of ds call }
    {
        match self.state(call) {
            Some(state) => state.run,
            None => None,
        }
    }

    /// Whether this call runs.
    pub fn runs(&self, call: u32) -> bool
        ensures { (r : CallState) → slice_get self.now.states.calls.items call ≡ Some r → result ≡ is_some r.run }
    {
        match self.state(call) {
            Some(state) => state.run.is_some(),
            None => false,
        }
    }

    /// Whether this call was cancelled.
    pub fn is_cancelled(&self, call: u32) -> bool
        ensures { (ds : List Deed) → Agrees ds self.now.states → result ≡ is_cancelled ds call }
    {
        match self.facts(call) {
            Some(facts) => facts.cancelled,
            None => false,
        }
    }

    /// Whether the method of this call has a stream in the direction in which this role sends.
    pub fn has_stream(&self, role: Role, call: u32) -> bool
        ensures { (ds : List Deed) → Agrees ds self.now.states → result ≡ has_stream role (call_at ds call) }
    {
        match self.facts(call) {
            Some(facts) => streams_out(role, facts.method.kind),
            None => false,
        }
    }

    /// Whether the method of this call is unary, or there is no such call.
    pub fn is_unary(&self, call: u32) -> bool
        ensures { (ds : List Deed) → Agrees ds self.now.states → result ≡ is_unary_call (call_at ds call) }
    {
        match self.facts(call) {
            Some(facts) => is_unary(facts.method.kind),
            None => true,
        }
    }

    /// Whether this client has completed its stream of this call.
    pub fn is_done(&self, call: u32) -> bool
        ensures { (ds : List Deed) → Agrees ds self.now.states → result ≡ is_done ds call }
    {
        match self.facts(call) {
            Some(facts) => facts.done,
            None => false,
        }
    }

    /// The call for which an arrival would wait, and which has no place for it.
    pub fn full_queue(&self, arrival: Move) -> Option<usize>
        ensures { (ds : List Deed) (p : Packet) → Agrees ds self.now.states → result ≡ full_among ds (row_of arrival p (call_count ds)).does.puts }
    {
        match arrival {
            Move::Queue(c) | Move::Complete(c) | Move::Answer(c, _) => self.full_at(c),
            _ => None,
        }
    }

    // This call, where it has no place for a message.
    fn full_at(&self, call: usize) -> Option<usize>
        ensures { (ds : List Deed) → Agrees ds self.now.states → result ≡ (if nat_le 64 (messages_waiting ds call) then Some call else None) }
    {
        match self.state_at(call) {
            Some(state) => {
                if state.messages() >= MAX_WAITING {
                    Some(call)
                } else {
                    None
                }
            }
            None => None,
        }
    }

    /// Whether the client's stream of this call, where there is one, was completed.
    pub fn is_completed(&self, call: Option<usize>) -> bool
        requires { IfSome call (λ c. IsOpenAt self.now.states.calls.items c) }
        ensures { (ds : List Deed) → Agrees ds self.now.states → IfSome call (λ c. is_completed ds c ≡ result) }
    {
        match call {
            None => false,
            Some(c) => self.completed_at(c),
        }
    }

    // Whether the client's stream of this live call was completed.
    fn completed_at(&self, call: usize) -> bool
        requires { IsOpenAt self.now.states.calls.items call }
        ensures { (ds : List Deed) → Agrees ds self.now.states → is_completed ds call ≡ result }
    {
        match self.state_at(call) {
            Some(state) => state.completed,
            None => false,
        }
    }
}
