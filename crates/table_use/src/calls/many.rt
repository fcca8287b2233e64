//! Tables of many calls, and the order in which calls run.
ghost use Rattle.std.specs.Prelude.{◌≡◌};
ghost use Rattle.rpc_ids.specs.declared.method.Role.TheVariants.{Server};

use super::claims::{none_waits, sends, ticks};
use super::desk::{arrives, letters, open_table, packet_on};
use super::letters::{Letter, Letters};
use super::running::{run, run_of};
use super::server_steps::server_follows;
use super::steps::Method::*;
use super::steps::Step::*;
use super::steps::{GOES_ON, ITS_END, ITS_LETTER, Step};
use super::taking::take_all;
use rpc_calls::Calls;
use rpc_handlers::Maker;
use rpc_journal::Arrived;
use rpc_packet::{Packet, PacketType};
use std::process::Abort;
use std::test::Fail;

// A request arrives, and its call is answered with its end.
fn answer(rt: &impl Abort, calls: &mut Calls<Letter>, maker: &Letters, request: &Packet, call: u32)
    requires role { calls.old.setting.role ≡ Server }
    requires seed { ⟦<Letters as Maker>⟧.seed_memo maker.now ≡ calls.old.setting.seed }
    ensures { calls.new.setting ≡ calls.old.setting }
{
    let step = call as usize;
    arrives(rt, calls, maker, request, Ok(Arrived::Opened(call)), step);
    none_waits(rt, calls, false, step);
    run(rt, calls, Some(maker.letter), step);
    none_waits(rt, calls, true, step);
    sends(rt, calls, ITS_LETTER, step);
    sends(rt, calls, ITS_END, step);
}

// A request arrives so often, and each time its call is answered with its end before the next one opens.
fn answer_each(
    rt: &impl Abort,
    calls: &mut Calls<Letter>,
    maker: &Letters,
    request: &Packet,
    count: u32,
)
    requires role { calls.old.setting.role ≡ Server }
    requires seed { ⟦<Letters as Maker>⟧.seed_memo maker.now ≡ calls.old.setting.seed }
    ensures { calls.new.setting ≡ calls.old.setting }
{
    for call in 0..count {
        answer(rt, calls, maker, request, call);
    }
}

// A call opens so often, each under a name of its own, and its handler takes the request.
fn open_each(
    rt: &impl Abort,
    calls: &mut Calls<Letter>,
    maker: &Letters,
    mut request: Packet,
    count: u32,
)
    requires role { calls.old.setting.role ≡ Server }
    requires seed { ⟦<Letters as Maker>⟧.seed_memo maker.now ≡ calls.old.setting.seed }
    ensures { calls.new.setting ≡ calls.old.setting }
{
    for call in 0..count {
        request.name.call = call;
        let step = call as usize;
        arrives(rt, calls, maker, &request, Ok(Arrived::Opened(call)), step);
        run(rt, calls, None, step);
    }
}

// So many calls run, by their numbers.
fn run_each(rt: &impl Abort, calls: &mut Calls<Letter>, count: u32)
    ensures { calls.new.setting ≡ calls.old.setting }
{
    for call in 0..count {
        run_of(rt, calls, call, None, call as usize);
    }
}

#[test]
fn twenty_thousand_open_calls_run_by_their_numbers(rt: HostRuntime) -> Result<(), Fail> {
    let maker = letters(rt.alloc(), b'a', false);
    let (mut calls, methods) = open_table(rt.alloc(), &maker)?;
    let request = packet_on(1, PacketType::Request, methods.chat);
    open_each(&rt, &mut calls, &maker, request, 20_000);
    ticks(&rt, &mut calls, 5, Ok(()), 0);
    none_waits(&rt, &calls, false, 1);
    run_each(&rt, &mut calls, 20_000);
    none_waits(&rt, &calls, true, 2);
    Ok(())
}

const AFTER_ALL: &[Step] = &[Counts(20_000), LengthIs(100_000), Starts(Ok(None))];

#[test]
fn twenty_thousand_calls_come_one_after_another(rt: HostRuntime) -> Result<(), Fail> {
    let maker = letters(rt.alloc(), b'z', true);
    let (mut calls, methods) = open_table(rt.alloc(), &maker)?;
    let request = packet_on(1, PacketType::Request, methods.chat);
    answer_each(&rt, &mut calls, &maker, &request, 20_000);
    take_all(&rt, rt.alloc(), &mut calls, AFTER_ALL);
    Ok(())
}

const ONE_RUNS_AND_HEARS_MORE: &[Step] = &[
    Opens(Chat, 0),
    Opens(Sum, 1),
    Opens(Echo, 2),
    Runs(None),
    Queues(Chat, 0),
    Starts(Ok(Some(1))),
    Starts(Ok(Some(2))),
    NoneWaits(false),
    Starts(Ok(Some(0))),
    NoneWaits(true),
    Starts(Ok(None)),
];

#[test]
fn the_call_that_waits_longest_runs_first(rt: HostRuntime) -> Result<(), Fail> {
    server_follows(&rt, rt.alloc(), GOES_ON, ONE_RUNS_AND_HEARS_MORE)
}

const TWO_HEAR_ONE_TICK: &[Step] = &[
    Opens(Chat, 0),
    OpensAs(2, Chat, 1),
    Runs(None),
    Runs(None),
    Opens(Echo, 2),
    Ticks(5, Ok(())),
    Starts(Ok(Some(2))),
    Starts(Ok(Some(0))),
    Starts(Ok(Some(1))),
    Starts(Ok(None)),
];

#[test]
fn calls_that_wait_since_one_tick_run_by_their_numbers(rt: HostRuntime) -> Result<(), Fail> {
    server_follows(&rt, rt.alloc(), GOES_ON, TWO_HEAR_ONE_TICK)
}
