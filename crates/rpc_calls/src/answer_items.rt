//! The items of a run's answer.
ghost use Rattle.std.specs.Prelude.{◌≡◌, ◌≤◌, ◌+◌, ◌<◌, ◌++◌, ℕ, false, flat_map, map, option_to_list, Some, None};
ghost use Rattle.rpc_handlers.specs.declared.answer.End.{End};
ghost use Rattle.std.specs.VecDeque.{deque_len, deque_capacity};
ghost use Rattle.rpc_journal.specs.Entries.{answer_item, end_effect, out_item as item_of};
ghost use Rattle.rpc_journal.specs.Rows.{packet_item};
ghost use Rattle.rpc_journal.specs.table.Touch.{end_by as ends_by, completes_by as completes_so, completes_given, end_given};
ghost use Rattle.rpc_calls.specs.AnswerItems.{answer_items};

use crate::copies::Copies;
use crate::packets::{leave_item, message_item, send_item, status_packet};
use rpc_handlers::{End, Out};
use rpc_ids::{Role, Status};
use rpc_journal::table::{CallState, completes_by, end_by};
use rpc_journal::{Act, Item, is_okay, is_unary};
use rpc_packet::{CallName, Packet, PacketType};
use std::collections::VecDeque;

/// How many items one run adds at most: those of its answer, its end, or `LeaveCall`.
pub const MAX_RUN_ITEMS: u32 = 513;

/// What the end of a run does to its call.
#[derive(Clone, Copy, Debug, Drop)]
pub struct RunEnd {
    /// The status with which the call ends, where it does.
    pub status: Option<Status>,
    /// The stream that a client sends is complete.
    pub completes: bool,
}

impl RunEnd {
    // The call goes on.
    fn none() -> RunEnd
        ensures { result ≡ record { status = None; completes = false } }
    {
        RunEnd {
            status: None,
            completes: false,
        }
    }
}

/// Adds what the answer of a run of a call in this state says, and tells what its end does to the call. There must be
/// room for all items of the answer and one more.
pub fn say_answer(
    items: &mut VecDeque<Item>,
    role: Role,
    call: u32,
    state: &CallState,
    copies: Copies,
) -> RunEnd
    requires { deque_len items.old + deque_len copies.outs < deque_capacity items.old }
    ensures items { items.new.items ≡ items.old.items ++ answer_items role call state.now copies.outs.items copies.end }
    ensures status { result.status ≡ end_given role state.now copies.end }
    ensures completes { result.completes ≡ completes_given role state.now copies.end }
    ensures capacity { deque_capacity items.new ≡ deque_capacity items.old }
{
    if state.cancelled {
        items.push_back_reserved(leave_item(call));
        return RunEnd::none();
    }
    let says = state.says_messages(role);
    say_outs(items, role, call, state.name, says, copies.outs);
    if !state.hears_answer() {
        return RunEnd::none();
    }
    say_end(items, role, call, state, copies.end)
}

fn say_outs(
    items: &mut VecDeque<Item>,
    role: Role,
    call: u32,
    name: CallName,
    says: bool,
    outs: VecDeque<Out>,
)
    requires { deque_len items.old + deque_len outs ≤ deque_capacity items.old }
    ensures items { items.new.items ≡ items.old.items ++ flat_map (answer_item role call name says) outs.items }
    ensures len { deque_len items.new ≤ deque_len items.old + deque_len outs }
    ensures capacity { deque_capacity items.new ≡ deque_capacity items.old }
{
    let mut outs = outs;
    while let Some(out) = outs.pop_front() {
        say_out(items, role, call, name, says, out);
    }
}

fn say_out(items: &mut VecDeque<Item>, role: Role, call: u32, name: CallName, says: bool, out: Out)
    requires { deque_len items.old < deque_capacity items.old }
    ensures items { items.new.items ≡ items.old.items ++ answer_item role call name says out }
    ensures len { deque_len items.new ≤ deque_len items.old + 1 }
    ensures capacity { deque_capacity items.new ≡ deque_capacity items.old }
{
    if let Out::Say(payload) = out {
        if says {
            items.push_back_reserved(message_item(role, call, name, payload));
        }
    } else {
        items.push_back_reserved(keep_item(call, out));
    }
}

/// A message or a store action of this call.
pub fn out_item(role: Role, call: u32, name: CallName, out: Out) -> Item
    ensures { result ≡ item_of role call name out }
{
    if let Out::Say(payload) = out {
        message_item(role, call, name, payload)
    } else {
        keep_item(call, out)
    }
}

// A store action of this call.
fn keep_item(call: u32, out: Out) -> Item
    ensures { result ≡ record { call = Some call; act = Act.Keep out } }
{
    Item {
        call: Some(call),
        act: Act::Keep(out),
    }
}

fn say_end(
    items: &mut VecDeque<Item>,
    role: Role,
    call: u32,
    state: &CallState,
    end: Option<End>,
) -> RunEnd
    requires { deque_len items.old < deque_capacity items.old }
    ensures items { items.new.items ≡ items.old.items ++ (end_effect role call state.now.name state.now.method.kind state.now.done end).says }
    ensures status { result.status ≡ ends_by role end }
    ensures completes { result.completes ≡ completes_so role state.now.method.kind state.now.done end }
    ensures capacity { deque_capacity items.new ≡ deque_capacity items.old }
{
    let status = end_by(role, &end);
    let completes = completes_by(role, state.method.kind, state.done, &end);
    if let Some(packet) = end_packet(role, state, end) {
        items.push_back_reserved(send_item(call, packet));
    }
    RunEnd { status, completes }
}

// The packet by which the peer is told of the end of an answer.
fn end_packet(role: Role, state: &CallState, end: Option<End>) -> Option<Packet>
    ensures { (c : ℕ) → (end_effect role c state.now.name state.now.method.kind state.now.done end).says ≡ map (packet_item c) (option_to_list result) }
{
    let end = end?;
    match role {
        Role::Server => Some(Packet {
            ptype: PacketType::Response,
            name: state.name,
            payload: end.payload,
            status: end.status.number(),
        }),
        Role::Client => client_packet(state, end.status),
    }
}

// The same at a client: an end with `OK` completes the stream, where there is one that isn't complete.
fn client_packet(state: &CallState, status: Status) -> Option<Packet>
    ensures { (c : ℕ) (end : End) → end.status ≡ status → (end_effect Role.Client c state.now.name state.now.method.kind state.now.done (Some end)).says ≡ map (packet_item c) (option_to_list result) }
{
    if !is_okay(status) {
        return Some(status_packet(PacketType::ClientError, state.name, status));
    }
    if is_unary(state.method.kind) || state.done {
        return None;
    }
    Some(status_packet(PacketType::Completion, state.name, Status::Okay))
}
