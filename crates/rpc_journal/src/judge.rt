//! Which rule an entry breaks, by a plain table that agrees with the entries before it.
ghost use Rattle.std.specs.Prelude.{◌≡◌, ◌<◌, List, is_some};
ghost use Rattle.rpc_handlers.specs.Limits.{is_long_out, is_long_end as ends_long, is_past_limits as passes_limits};
ghost use Rattle.rpc_journal.specs.declared.setting.Setting.{Setting};
ghost use Rattle.rpc_journal.specs.Calls.{call_count};
ghost use Rattle.rpc_journal.specs.Effect.{Deed};
ghost use Rattle.rpc_journal.specs.Lawful.{broken as first_broken, call_named as named_call, flushes_nothing as has_nothing, finishes_unrun as is_unrun, has_zero as names_zero, hears as is_heard, is_input as takes_input, is_refused as refuses, is_refused_invoke as refuses_invoke, is_refused_say as refuses_say, is_request as asks, is_settled_reason as is_settling, is_unknown as unknown_among, is_wrong_seat as sits_wrong, starts_unready as is_unready};
ghost use Rattle.std.specs.List.{list_any};
ghost use Rattle.rpc_journal.specs.Items.{is_for};
ghost use Rattle.rpc_journal.specs.Faults.{IsSettingOf};
ghost use Rattle.rpc_journal.specs.table.Agrees.{Agrees};

use crate::entry::{Entry, EntryKind};
use crate::fault::Broken;
use crate::kinds::is_server;
use crate::table::{CallStates, move_at};
use link_io::Why;
use rpc_channel::Channels;
use rpc_handlers::{Answer, End, MAX_ANSWER_ITEMS, MAX_PAYLOAD, Out};
use rpc_ids::{Registry, Role};
use rpc_packet::{CallName, Packet, PacketType};

/// The first rule that an entry breaks, at an endpoint of this role with these channels and methods.
#[tactic(auto, unfolding(crate::specs::Lawful::broken))]
pub fn broken_rule(
    states: &CallStates,
    entry: &Entry,
    role: Role,
    channels: &Channels,
    registry: &Registry,
) -> Option<Broken>
    ensures { (set : Setting) (ds : List Deed) → IsSettingOf set role channels.now registry.now → Agrees ds states.now → result ≡ first_broken set ds entry.now }
{
    if is_wrong_seat(entry.seat, &entry.kind) {
        return Some(Broken::Seat);
    }
    if is_input(&entry.kind) && states.input_ended {
        return Some(Broken::AfterEnd);
    }
    if is_unknown(states, &entry.kind) {
        return Some(Broken::UnknownCall);
    }
    if starts_unready(states, &entry.kind) {
        return Some(Broken::NotReady);
    }
    if finishes_unrun(states, entry.seat, &entry.kind) {
        return Some(Broken::NotRunning);
    }
    if is_refused(states, &entry.kind, role, channels, registry) {
        return Some(Broken::Refused);
    }
    if flushes_nothing(states, &entry.kind) {
        return Some(Broken::Nothing);
    }
    None
}

fn is_wrong_seat(seat: u32, kind: &EntryKind) -> bool
    ensures { result ≡ sits_wrong seat kind.now }
{
    match kind {
        EntryKind::Arrive(_) | EntryKind::EndIn => seat != 0,
        EntryKind::Flush | EntryKind::Tick(_) => seat != 1,
        _ => false,
    }
}

fn is_input(kind: &EntryKind) -> bool
    ensures { result ≡ takes_input kind.now }
{
    match kind {
        EntryKind::Arrive(_) | EntryKind::EndIn => true,
        _ => false,
    }
}

fn call_named(kind: &EntryKind) -> Option<u32>
    ensures { result ≡ named_call kind.now }
{
    match kind {
        EntryKind::Say(c, _)
        | EntryKind::Done(c)
        | EntryKind::Start(c)
        | EntryKind::Finish(c, _)
        | EntryKind::Replace(c, _)
        | EntryKind::Cancel(c) => Some(*c),
        _ => None,
    }
}

fn is_unknown(states: &CallStates, kind: &EntryKind) -> bool
    ensures { (ds : List Deed) → Agrees ds states.now → result ≡ unknown_among (call_count ds) (named_call kind.now) }
{
    match call_named(kind) {
        Some(c) => states.calls.len() <= c as usize,
        None => false,
    }
}

fn starts_unready(states: &CallStates, kind: &EntryKind) -> bool
    ensures { (ds : List Deed) → Agrees ds states.now → result ≡ is_unready ds kind.now }
{
    match kind {
        EntryKind::Start(c) => !states.is_ready(*c),
        _ => false,
    }
}

fn finishes_unrun(states: &CallStates, seat: u32, kind: &EntryKind) -> bool
    ensures { (ds : List Deed) → Agrees ds states.now → result ≡ is_unrun ds seat kind.now }
{
    match kind {
        EntryKind::Finish(c, _) => !is_seat(states.runner(*c), seat),
        _ => false,
    }
}

fn is_seat(runner: Option<u32>, seat: u32) -> bool
    ensures { result ≡ is_for seat runner }
{
    match runner {
        Some(s) => s == seat,
        None => false,
    }
}

fn flushes_nothing(states: &CallStates, kind: &EntryKind) -> bool
    ensures { (ds : List Deed) → Agrees ds states.now → result ≡ has_nothing ds kind.now }
{
    match kind {
        EntryKind::Flush => states.unflushed == 0 || states.halted.is_some(),
        _ => false,
    }
}

fn is_refused(
    states: &CallStates,
    kind: &EntryKind,
    role: Role,
    channels: &Channels,
    registry: &Registry,
) -> bool
    ensures { (set : Setting) (ds : List Deed) → IsSettingOf set role channels.now registry.now → Agrees ds states.now → result ≡ refuses set ds kind.now }
{
    match kind {
        EntryKind::Arrive(p) => is_refused_packet(states, p, role, channels, registry),
        EntryKind::Invoke(p, _) => is_refused_invoke(states, p, role, channels, registry),
        EntryKind::Done(c) => is_refused_done(states, role, *c),
        EntryKind::Say(c, out) => is_refused_say(states, role, *c, out),
        EntryKind::Finish(_, a) => is_past_limits(a),
        EntryKind::Replace(c, _) => states.has_end(*c),
        EntryKind::Cancel(c) => states.is_cancelled(*c),
        EntryKind::Halt(why) => states.halted.is_some() || is_settled(*why),
        EntryKind::Close(channel) => !states.is_in(channels, *channel),
        EntryKind::Start(_) | EntryKind::Tick(_) | EntryKind::Flush | EntryKind::EndIn => false,
    }
}

fn is_settled(why: Why) -> bool
    ensures { result ≡ is_settling why }
{
    match why {
        Why::Settled => true,
        _ => false,
    }
}

fn is_refused_packet(
    states: &CallStates,
    p: &Packet,
    role: Role,
    channels: &Channels,
    registry: &Registry,
) -> bool
    ensures { (set : Setting) (ds : List Deed) → IsSettingOf set role channels.now registry.now → Agrees ds states.now → result ≡ refuses set ds (EntryKind.Arrive p.now) }
{
    if !hears(role, p.ptype) || has_zero(p.name) {
        return true;
    }
    let arrival = move_at(role, states, p, channels, registry);
    states.full_queue(arrival).is_some()
}

fn is_refused_invoke(
    states: &CallStates,
    p: &Packet,
    role: Role,
    channels: &Channels,
    registry: &Registry,
) -> bool
    ensures { (set : Setting) (ds : List Deed) → IsSettingOf set role channels.now registry.now → Agrees ds states.now → result ≡ refuses_invoke set ds p.now }
{
    is_server(role)
        || !is_request(p.ptype)
        || p.status != 0
        || has_zero(p.name)
        || p.payload.len() > MAX_PAYLOAD
        || !states.is_in(channels, p.name.channel)
        || registry.find(p.name.service, p.name.method).is_none()
        || states.live(p.name).is_some()
}

fn is_request(ptype: PacketType) -> bool
    ensures { result ≡ asks ptype }
{
    match ptype {
        PacketType::Request => true,
        _ => false,
    }
}

fn is_refused_done(states: &CallStates, role: Role, call: u32) -> bool
    ensures { (set : Setting) (ds : List Deed) → set.role ≡ role → Agrees ds states.now → result ≡ refuses set ds (EntryKind.Done call) }
{
    is_server(role) || states.has_end(call) || states.is_unary(call) || states.is_done(call)
}

// This role is sent packets of this type.
fn hears(role: Role, ptype: PacketType) -> bool
    ensures { result ≡ is_heard role ptype }
{
    match role {
        Role::Server => hears_server(ptype),
        Role::Client => hears_client(ptype),
    }
}

fn hears_server(ptype: PacketType) -> bool
    ensures { result ≡ is_heard Role.Server ptype }
{
    match ptype {
        PacketType::Request
        | PacketType::ClientStream
        | PacketType::ClientError
        | PacketType::Completion => true,
        PacketType::Response | PacketType::ServerError | PacketType::ServerStream => false,
    }
}

fn hears_client(ptype: PacketType) -> bool
    ensures { result ≡ is_heard Role.Client ptype }
{
    match ptype {
        PacketType::Response | PacketType::ServerError | PacketType::ServerStream => true,
        PacketType::Request
        | PacketType::ClientStream
        | PacketType::ClientError
        | PacketType::Completion => false,
    }
}

fn has_zero(name: CallName) -> bool
    ensures { result ≡ names_zero name }
{
    name.channel == 0 || name.service == 0 || name.method == 0
}

fn is_refused_say(states: &CallStates, role: Role, call: u32, out: &Out) -> bool
    ensures { (set : Setting) (ds : List Deed) → set.role ≡ role → Agrees ds states.now → result ≡ refuses_say set ds call out.now }
{
    match out {
        Out::Say(payload) => {
            payload.len() > MAX_PAYLOAD
                || states.has_end(call)
                || !states.has_stream(role, call)
                || (!is_server(role) && states.is_done(call))
        }
        _ => states.is_cancelled(call),
    }
}

/// Whether an answer is past the limits on answers.
pub fn is_past_limits(a: &Answer) -> bool
    ensures { result ≡ passes_limits a.now }
{
    a.items.as_slice().len() > MAX_ANSWER_ITEMS || has_long_item(a) || is_long_end(&a.end)
}

fn has_long_item(a: &Answer) -> bool
    ensures { result ≡ list_any is_long_out a.now.items }
{
    a.items.as_slice().iter().any(|out| is_long_out(out))
}

fn is_long_out(out: &Out) -> bool
    ensures { result ≡ is_long_out out.now }
{
    match out {
        Out::Say(payload) => payload.len() > MAX_PAYLOAD,
        _ => false,
    }
}

fn is_long_end(end: &Option<End>) -> bool
    ensures { result ≡ ends_long end.now }
{
    match end {
        Some(end) => end.payload.len() > MAX_PAYLOAD,
        None => false,
    }
}
