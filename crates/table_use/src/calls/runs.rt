//! Runs of calls, from their start to what goes out.

use super::server_steps::{server_behind, server_follows};
use super::steps::Method::*;
use super::steps::Step::*;
use super::steps::{ENDS, GOES_ON, Heard, ITS_END, ITS_LETTER, Sent, Step};
use link_io::Why;
use rpc_ids::Status;
use rpc_journal::{Cancelled, ReplaceRefused, StartOfRefused};
use rpc_packet::PacketType;
use std::test::Fail;

const ITS_CANCEL: Sent = Some((PacketType::ServerError, Status::Cancelled, 0));

const AN_ANSWER: &[Step] = &[Opens(Chat, 0), Runs(None), Sends(ITS_LETTER), Sends(None)];

#[test]
fn a_run_says_its_answer(rt: HostRuntime) -> Result<(), Fail> {
    server_follows(&rt, rt.alloc(), GOES_ON, AN_ANSWER)
}

const AN_END: &[Step] = &[
    Opens(Chat, 0),
    Runs(Some(b'z')),
    Sends(ITS_LETTER),
    Sends(ITS_END),
    Sends(None),
    Counts(1),
    StatusIs(0, Some(Status::Okay)),
];

#[test]
fn a_run_that_ends_its_call_gives_the_handler_back(rt: HostRuntime) -> Result<(), Fail> {
    server_follows(&rt, rt.alloc(), ENDS, AN_END)
}

const NOTHING_TO_DO: &[Step] = &[
    Starts(Ok(None)),
    StartsCall(9, Err(StartOfRefused::NotReady)),
    Sends(None),
    Ticks(5, Ok(())),
    LengthIs(1),
    RefusesHandler(9, b'h', ReplaceRefused::Unknown),
];

#[test]
fn a_new_table_has_nothing_to_do(rt: HostRuntime) -> Result<(), Fail> {
    server_follows(&rt, rt.alloc(), GOES_ON, NOTHING_TO_DO)
}

const TWO_TICKS: &[Step] = &[
    Opens(Chat, 0),
    Opens(Sum, 1),
    Ticks(500, Ok(())),
    Ticks(1000, Ok(())),
    Counts(2),
    Waits(0, 2),
    Waits(1, 1),
    Runs(None),
    Runs(None),
    Begins(0, Heard::Tick(500)),
];

#[test]
fn one_tick_at_a_time_waits_for_a_call_of_a_ticking_method(rt: HostRuntime) -> Result<(), Fail> {
    server_follows(&rt, rt.alloc(), GOES_ON, TWO_TICKS)
}

const ONE_RUN: &[Step] = &[Opens(Chat, 0), Counts(1), RunsAlone(0, 1, b'a')];

#[test]
fn a_call_that_runs_is_not_ready(rt: HostRuntime) -> Result<(), Fail> {
    server_follows(&rt, rt.alloc(), GOES_ON, ONE_RUN)
}

const CANCELLED_MEANWHILE: &[Step] = &[
    Opens(Chat, 0),
    RunsCancelled(Cancelled::Running(Status::Cancelled, 2), Some(b'a')),
    Sends(ITS_CANCEL),
    Sends(None),
    Counts(1),
    Cancels(3, 0, Cancelled::Quiet(Status::Cancelled)),
    LengthIs(6),
];

#[test]
fn a_run_that_is_cancelled_gives_its_handler_back(rt: HostRuntime) -> Result<(), Fail> {
    server_follows(&rt, rt.alloc(), GOES_ON, CANCELLED_MEANWHILE)
}

const REPLACED_MEANWHILE: &[Step] = &[
    Opens(Chat, 0),
    RunsReplaced(b'n', Some(b'a')),
    Queues(Chat, 0),
    BeginsWith(b'n'),
];

#[test]
fn a_run_goes_on_with_its_own_handler_while_the_call_gets_another(
    rt: HostRuntime,
) -> Result<(), Fail> {
    server_follows(&rt, rt.alloc(), GOES_ON, REPLACED_MEANWHILE)
}

const THE_END_OF_INPUT: &[Step] = &[
    Opens(Chat, 0),
    InputEnds,
    Counts(1),
    Waits(0, 2),
    Settles(false),
    Runs(None),
    Runs(None),
    Sends(ITS_LETTER),
    Settles(true),
];

#[test]
fn the_end_of_input_settles_a_table(rt: HostRuntime) -> Result<(), Fail> {
    let calls = server_behind(&rt, rt.alloc(), GOES_ON, THE_END_OF_INPUT)?;
    assert_eq!(rt; calls.into_journal().len(), 7);
    Ok(())
}

const TWO_HALTS: &[Step] = &[
    Opens(Chat, 0),
    Halts(2, Why::Sink),
    Halts(1, Why::Memory),
    IsHalted(Some(Why::Sink)),
    LengthIs(2),
    StartsCall(0, Err(StartOfRefused::NotReady)),
    Starts(Ok(None)),
];

#[test]
fn a_halted_table_starts_and_flushes_nothing(rt: HostRuntime) -> Result<(), Fail> {
    server_follows(&rt, rt.alloc(), GOES_ON, TWO_HALTS)
}
