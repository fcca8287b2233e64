//! What a history says of all its calls: a plain table.
ghost use Rattle.std.specs.Prelude.{◌≡◌, ◌<◌, List, [], slice_get, Some, None, nat_le, IfSome, option_copied, if◌then◌else◌};
ghost use Rattle.rpc_packet.specs.declared.call_name.CallName.{CallName};
ghost use Rattle.rpc_journal.specs.Calls.{call_at, call_count, has_end, is_cancelled, live_call, runner_of};
ghost use Rattle.rpc_journal.specs.Items.{is_done, is_ready};
ghost use Rattle.rpc_channel.specs.Rising.{has_id};
ghost use Rattle.rpc_journal.specs.declared.setting.Setting.{Setting};
ghost use Rattle.rpc_journal.specs.table.Closing.{live_on};
ghost use Rattle.rpc_journal.specs.Rows.{channels_in};
ghost use Rattle.rpc_journal.specs.Lawful.{full_among, has_stream, is_unary_call};
ghost use Rattle.rpc_journal.specs.table.Moves.{row_of};
ghost use Rattle.rpc_packet.specs.declared.owned.Packet.{Packet};
ghost use Rattle.rpc_journal.specs.Effect.{Deed};
ghost use Rattle.rpc_journal.specs.Queues.{is_completed, messages_waiting};
ghost use Rattle.rpc_journal.specs.table.Agrees.{IsOpenAt, Agrees};

use crate::kinds::{is_unary, streams_out};
use crate::table::arrival_move::Move;
use crate::table::call_state::{CallState, MAX_WAITING};
use crate::table::newest_calls::NewestCalls;
use crate::table::notice::Notice;
use link_io::Why;
use rpc_channel::Channels;
use rpc_ids::Role;
use rpc_packet::CallName;
use std::alloc::Global;

/// What a history says of all its calls.
#[derive(Debug, Drop)]
pub struct CallStates {
    /// The calls, each at its number.
    pub calls: Vec<CallState>,
    /// The newest call of each name.
    pub newest: NewestCalls,
    /// The channels that were closed.
    pub closed: Vec<u32>,
    /// How many items wait to be flushed.
    pub unflushed: u64,
    /// An `EndIn` is there.
    pub input_ended: bool,
    /// The reason of the `Halt`.
    pub halted: Option<Why>,
}

impl CallStates {
    /// Before the first entry.
    pub fn new(alloc: Global) -> CallStates
        ensures { Agrees [] result }
    {
        CallStates {
            calls: Vec::new(alloc),
            newest: NewestCalls::new(alloc),
            closed: Vec::new(alloc),
            unflushed: 0,
            input_ended: false,
            halted: None,
        }
    }

    /// Whether this channel is in: it is one of those that the history begins with, and wasn't closed.
    pub fn is_in(&self, channels: &Channels, channel: u32) -> bool
        ensures { (set : Setting) (ds : List Deed) → set.channels ≡ channels.now → Agrees ds self.now → result ≡ has_id (channels_in set ds) channel }
    {
        channels.is_in(channel) && !self.closed.contains(&channel)
    }

    /// How many live calls are on this channel.
    pub fn live_on(&self, channel: u32) -> usize
        ensures { result ≡ live_on channel self.now.calls.items }
    {
        let closed = Notice::ChannelClosed(channel);
        self.calls.iter().filter(|r| r.is_told(closed)).count()
    }

    /// The last call of this name, where it has no end.
    pub fn live(&self, name: CallName) -> Option<usize>
        ensures call { (ds : List Deed) → Agrees ds self.now → result ≡ live_call ds name }
        ensures there { IfSome result (λ c. IsOpenAt self.now.calls.items c) }
    {
        let call = self.newest.get(name)?;
        let state = self.state_at(call)?;
        if state.status.is_some() {
            return None;
        }
        Some(call)
    }

    /// The state of this call.
    pub fn state(&self, call: u32) -> Option<&CallState>
        ensures { option_copied result ≡ slice_get self.now.calls.items call }
    {
        self.state_at(call as usize)
    }

    fn state_at(&self, call: usize) -> Option<&CallState>
        ensures { option_copied result ≡ slice_get self.now.calls.items call }
    {
        self.calls.get(call)
    }

    /// Whether a run of this call can begin.
    pub fn is_ready(&self, call: u32) -> bool
        ensures { (ds : List Deed) → Agrees ds self.now → result ≡ is_ready ds call }
    {
        match self.state(call) {
            Some(state) => state.is_ready(self.unflushed, self.halted.is_some()),
            None => false,
        }
    }

    /// The seat that runs this call.
    pub fn runner(&self, call: u32) -> Option<u32>
        ensures { (ds : List Deed) → Agrees ds self.now → result ≡ runner_of ds call }
    {
        match self.state(call) {
            Some(state) => state.run,
            None => None,
        }
    }

    /// Whether this call has an end.
    pub fn has_end(&self, call: u32) -> bool
        ensures { (ds : List Deed) → Agrees ds self.now → result ≡ has_end ds call }
    {
        match self.state(call) {
            Some(state) => state.status.is_some(),
            None => false,
        }
    }

    /// Whether this call was cancelled.
    pub fn is_cancelled(&self, call: u32) -> bool
        ensures { (ds : List Deed) → Agrees ds self.now → result ≡ is_cancelled ds call }
    {
        match self.state(call) {
            Some(state) => state.cancelled,
            None => false,
        }
    }

    /// Whether the method of this call has a stream in the direction in which this role sends.
    pub fn has_stream(&self, role: Role, call: u32) -> bool
        ensures { (ds : List Deed) → Agrees ds self.now → result ≡ has_stream role (call_at ds call) }
    {
        match self.state(call) {
            Some(state) => streams_out(role, state.method.kind),
            None => false,
        }
    }

    /// Whether the method of this call is unary, or there is no such call.
    pub fn is_unary(&self, call: u32) -> bool
        ensures { (ds : List Deed) → Agrees ds self.now → result ≡ is_unary_call (call_at ds call) }
    {
        match self.state(call) {
            Some(state) => is_unary(state.method.kind),
            None => true,
        }
    }

    /// Whether this client has completed its stream of this call.
    pub fn is_done(&self, call: u32) -> bool
        ensures { (ds : List Deed) → Agrees ds self.now → result ≡ is_done ds call }
    {
        match self.state(call) {
            Some(state) => state.done,
            None => false,
        }
    }

    /// The call for which an arrival would wait, and which has no place for it.
    pub fn full_queue(&self, arrival: Move) -> Option<usize>
        ensures { (ds : List Deed) (p : Packet) → Agrees ds self.now → result ≡ full_among ds (row_of arrival p (call_count ds)).does.puts }
    {
        match arrival {
            Move::Queue(c) | Move::Complete(c) | Move::Answer(c, _) => self.full_at(c),
            _ => None,
        }
    }

    // This call, where it has no place for a message.
    fn full_at(&self, call: usize) -> Option<usize>
        ensures { (ds : List Deed) → Agrees ds self.now → result ≡ (if nat_le 64 (messages_waiting ds call) then Some call else None) }
    {
        match self.state_at(call) {
            Some(state) => {
                if state.messages() >= MAX_WAITING {
                    Some(call)
                } else {
                    None
                }
            }
            None => None,
        }
    }

    /// Whether the client's stream of this call, where there is one, was completed.
    pub fn is_completed(&self, call: Option<usize>) -> bool
        requires { IfSome call (λ c. IsOpenAt self.now.calls.items c) }
        ensures { (ds : List Deed) → Agrees ds self.now → IfSome call (λ c. is_completed ds c ≡ result) }
    {
        match call {
            None => false,
            Some(c) => self.calls[c].completed,
        }
    }
}
