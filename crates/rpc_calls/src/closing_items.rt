//! What goes out as a channel is closed.
ghost use Rattle.std.specs.Prelude.{◌≡◌, ◌+◌, ◌<◌, ◌≤◌, ◌^◌, ◌++◌, ◌∷◌, [], true, length, if◌then◌else◌};
ghost use Rattle.std.specs.VecDeque.{deque_capacity};
ghost use Rattle.rpc_ids.specs.declared.status.Status.TheVariants.{Aborted};
ghost use Rattle.rpc_journal.specs.declared.table.notice.Notice.TheVariants.{ChannelClosed};
ghost use Rattle.rpc_journal.specs.table.Closing.{closing_items, live_on};
ghost use Rattle.rpc_journal.specs.Entries.{error_type as ends_by};
ghost use Rattle.rpc_journal.specs.Rows.{packet_item, status_packet as packet_with};
ghost use Rattle.rpc_journal.specs.table.Touch.{is_told};
ghost use Rattle.rpc_calls.specs.Marks.{one_if};

use crate::indexed_states::IndexedStates;
use crate::packets::{error_type, send_item, status_packet};
use rpc_ids::{Role, Status};
use rpc_journal::Item;
use rpc_journal::table::{CallState, Notice};
use std::collections::VecDeque;

/// Adds, for each live call on this channel, the packet by which the peer is told of its end. There are places for them.
pub fn say_closing<H>(
    items: &mut VecDeque<Item>,
    states: &IndexedStates<H>,
    role: Role,
    channel: u32,
)
    requires room { length items.old.items + live_on channel states.now.states.calls.items ≤ deque_capacity items.old }
    requires few { length states.now.states.calls.items < 2 ^ 32 }
    ensures items { items.new.items ≡ items.old.items ++ closing_items role channel 0 states.now.states.calls.items }
    ensures capacity { deque_capacity items.new ≡ deque_capacity items.old }
{
    let count = states.count();
    let mut from = 0;
    for step in 0..count {
        let Some(call) = states.next_in_use(from) else {
            return;
        };
        let state = states.state(call).unwrap();
        say_closed(items, state, role, call, channel);
        from = call + 1;
    }
}

/// How many live calls are on this channel.
pub fn count_live<H>(states: &IndexedStates<H>, channel: u32) -> u32
    requires { length states.now.states.calls.items < 2 ^ 32 }
    ensures { result ≡ live_on channel states.now.states.calls.items }
{
    let count = states.count();
    let mut from = 0;
    let mut live = 0u32;
    for step in 0..count {
        let Some(call) = states.next_in_use(from) else {
            return live;
        };
        live += one_if_told(states.state(call).unwrap(), channel);
        from = call + 1;
    }
    live
}

// 1 where a call in this state is live on this channel.
fn one_if_told(state: &CallState, channel: u32) -> u32
    ensures { result ≡ one_if (is_told (ChannelClosed channel) state.now) }
{
    if state.is_told(Notice::ChannelClosed(channel)) {
        1
    } else {
        0
    }
}

// What goes out of one call.
fn say_closed(items: &mut VecDeque<Item>, state: &CallState, role: Role, call: u32, channel: u32)
    requires { is_told (ChannelClosed channel) state.now ≡ true → length items.old.items < deque_capacity items.old }
    ensures items { items.new.items ≡ items.old.items ++ (if is_told (ChannelClosed channel) state.now then packet_item call (packet_with (ends_by role) state.now.name Aborted) ∷ [] else []) }
    ensures capacity { deque_capacity items.new ≡ deque_capacity items.old }
{
    if state.is_told(Notice::ChannelClosed(channel)) {
        let packet = status_packet(error_type(role), state.name, Status::Aborted);
        items.push_back_reserved(send_item(call, packet));
    }
}
