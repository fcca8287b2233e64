//! A server's table follows steps.
ghost use Rattle.std.specs.Prelude.{◌≡◌};
ghost use Rattle.rpc_ids.specs.declared.method.Role.TheVariants.{Server};

use super::claims::sends;
use super::desk::{Methods, arrives, letters, open_table, packet_on};
use super::letters::{Letter, Letters};
use super::steps::{Sent, Step};
use super::taking::take;
use rpc_calls::Calls;
use rpc_handlers::Maker;
use rpc_ids::Role;
use rpc_journal::{ArriveRefused, Arrived};
use rpc_packet::Packet;
use rpc_packet::PacketType::*;
use std::alloc::Global;
use std::process::Abort;
use std::test::Fail;

// A packet that comes, so often, what that answers each time, and what then goes out, where this is asked.
#[derive(Drop)]
struct Arrival {
    packet: Packet,
    times: u32,
    answer: Result<Arrived, ArriveRefused>,
    sent: Option<Sent>,
}

// The packet comes once, and nothing is asked of what goes out.
fn once(packet: Packet, answer: Result<Arrived, ArriveRefused>) -> Arrival {
    Arrival {
        packet,
        times: 1,
        answer,
        sent: None,
    }
}

// The packet comes so often, and each time this goes out.
fn answered(packet: Packet, times: u32, answer: Arrived, sent: Sent) -> Arrival {
    Arrival {
        packet,
        times,
        answer: Ok(answer),
        sent: Some(sent),
    }
}

// What comes in a step, if anything does.
fn arrival_of(methods: Methods, step: Step) -> Option<Arrival> {
    let on_one = |ptype, method| packet_on(1, ptype, methods.of(method));
    Some(match step {
        Step::Comes(ptype, method, answer, sent) => {
            answered(on_one(ptype, method), 1, answer, sent)
        }
        Step::ComesOn(channel, ptype, method, answer, sent) => {
            let packet = packet_on(channel, ptype, methods.of(method));
            answered(packet, 1, answer, sent)
        }
        Step::ComeOften(times, method, call) => {
            let message = on_one(ClientStream, method);
            answered(message, times, Arrived::Queued(call), None)
        }
        Step::Opens(method, call) => once(on_one(Request, method), Ok(Arrived::Opened(call))),
        Step::OpensOn(channel, method, call) => {
            let packet = packet_on(channel, Request, methods.of(method));
            once(packet, Ok(Arrived::Opened(call)))
        }
        Step::OpensAs(id, method, call) => {
            let mut packet = on_one(Request, method);
            packet.name.call = id;
            once(packet, Ok(Arrived::Opened(call)))
        }
        Step::Queues(method, call) => {
            let message = on_one(ClientStream, method);
            once(message, Ok(Arrived::Queued(call)))
        }
        Step::Refuses(ptype, method, why) => once(on_one(ptype, method), Err(why)),
        _ => return None,
    })
}

// It comes once, and what is said of it holds.
fn come(rt: &impl Abort, calls: &mut Calls<Letter>, maker: &Letters, arrival: &Arrival, step: usize)
    requires role { calls.old.setting.role ≡ Server }
    requires seed { ⟦<Letters as Maker>⟧.seed_memo maker.now ≡ calls.old.setting.seed }
    ensures { calls.new.setting ≡ calls.old.setting }
{
    arrives(rt, calls, maker, &arrival.packet, arrival.answer, step);
    if let Some(sent) = arrival.sent {
        sends(rt, calls, sent, step);
    }
}

// It comes as often as it does.
fn come_often(
    rt: &impl Abort,
    calls: &mut Calls<Letter>,
    maker: &Letters,
    arrival: &Arrival,
    step: usize,
)
    requires role { calls.old.setting.role ≡ Server }
    requires seed { ⟦<Letters as Maker>⟧.seed_memo maker.now ≡ calls.old.setting.seed }
    ensures { calls.new.setting ≡ calls.old.setting }
{
    'times: for _ in 0..arrival.times {
        come(rt, calls, maker, arrival, step);
    }
}

// A step is taken.
fn take_step(
    rt: &impl Abort,
    calls: &mut Calls<Letter>,
    maker: &Letters,
    methods: Methods,
    step: Step,
    at: usize,
)
    requires role { calls.old.setting.role ≡ Server }
    requires seed { ⟦<Letters as Maker>⟧.seed_memo maker.now ≡ calls.old.setting.seed }
    ensures { calls.new.setting ≡ calls.old.setting }
{
    match arrival_of(methods, step) {
        Some(arrival) => come_often(rt, calls, maker, &arrival, at),
        None => take(rt, maker.alloc, calls, step, at),
    }
}

// The steps are taken, one after another.
fn take_steps(
    rt: &impl Abort,
    calls: &mut Calls<Letter>,
    maker: &Letters,
    methods: Methods,
    steps: &[Step],
)
    requires role { calls.old.setting.role ≡ Server }
    requires seed { ⟦<Letters as Maker>⟧.seed_memo maker.now ≡ calls.old.setting.seed }
    ensures { calls.new.setting ≡ calls.old.setting }
{
    'steps: for (at, step) in steps.iter().enumerate() {
        take_step(rt, calls, maker, methods, *step, at);
    }
}

/// The table of a server that has followed these steps. Its handlers say `a` and go on, or `z` and end their calls.
pub fn server_behind(
    rt: &impl Abort,
    alloc: Global,
    ends: bool,
    steps: &[Step],
) -> Result<Calls<Letter>, Fail> {
    let letter = if ends { b'z' } else { b'a' };
    let maker = letters(alloc, letter, ends);
    let (mut calls, methods) = open_table(alloc, &maker)?;
    take_steps(rt, &mut calls, &maker, methods, steps);
    Ok(calls)
}

/// A server follows these steps.
pub fn server_follows(
    rt: &impl Abort,
    alloc: Global,
    ends: bool,
    steps: &[Step],
) -> Result<(), Fail> {
    let _ = server_behind(rt, alloc, ends, steps)?;
    Ok(())
}
