//! What a table with four passes refuses.
ghost use Rattle.rpc_shared.specs.Helpers.{IsSeat};

use super::claims::length_is;
use super::desk::Method::*;
use super::desk::{arrives, close, open_table, opens, packet_on, sends, share};
use super::jobs::{begin, refused, replace, start};
use super::letters::{Letter, Letters};
use super::rows::{Step, follow};
use rpc_calls::{ArriveRefused, Arrived, ReplaceRefused, StartOfRefused, StartRefused};
use rpc_packet::PacketType;
use rpc_shared::{Pass, Shared};
use std::process::Abort;
use std::sync::Wait;
use std::test::Fail;

const MESSAGES: &[Step] = &[(1, PacketType::ClientStream, Chat, Arrived::Queued(0), None); 63];

#[test]
fn sixty_four_events_wait_for_a_call_and_no_more(rt: HostRuntime) -> Result<(), Fail> {
    let maker = Letters::new(rt.alloc(), b'a', false)?;
    let (calls, methods) = open_table(rt.alloc(), &maker)?;
    let (shared, mut passes) = share(&rt, rt.alloc(), calls);
    opens(&rt, &shared, &mut passes.reader, &maker, methods.chat);
    follow(
        &rt,
        &shared,
        &mut passes.reader,
        &mut passes.writer,
        &maker,
        methods,
        MESSAGES,
    );
    let one_more = packet_on(1, PacketType::ClientStream, methods.chat, 1);
    let full = Err(ArriveRefused::QueueFull(0));
    arrives(&rt, &shared, &mut passes.reader, &maker, &one_more, full);
    let calls = close(&rt, rt.alloc(), shared, passes)?;
    length_is(&rt, calls.journal(), 64);
    Ok(())
}

// No call is ready.
fn none_starts<R: Abort + Wait>(rt: &R, shared: &Shared<Letter>, pass: &mut Pass<Letter>)
    requires seat { IsSeat shared.now pass.old }
    ensures seat { IsSeat shared.now pass.new }
{
    if let Some(running) = start(rt, shared, pass) {
        let _ = running.spill();
        panic!(rt; "a run of no call");
    }
}

// This call isn't ready.
fn is_not_ready<R: Abort + Wait>(
    rt: &R,
    shared: &Shared<Letter>,
    pass: &mut Pass<Letter>,
    call: u32,
)
    requires seat { IsSeat shared.now pass.old }
{
    match shared.start_of(rt, pass, call) {
        Ok(second) => {
            let _ = second.spill();
            panic!(rt; "a second run")
        }
        Err(refusal) => assert_eq!(rt; refusal, StartOfRefused::NotReady),
    }
}

// The time is told by the pass that writes, which this must be.
fn ticks<R: Abort + Wait>(
    rt: &R,
    shared: &Shared<Letter>,
    writer: &mut Pass<Letter>,
    now: u64,
    want: Result<(), StartRefused>,
)
    requires seat { IsSeat shared.now writer.old }
{
    assert!(rt; writer.number() == 1);
    assert_eq!(rt; shared.tick(rt, writer, now), want);
}

#[test]
fn a_new_table_has_nothing_to_do(rt: HostRuntime) -> Result<(), Fail> {
    let maker = Letters::new(rt.alloc(), b'a', false)?;
    let (calls, _) = open_table(rt.alloc(), &maker)?;
    let (shared, mut passes) = share(&rt, rt.alloc(), calls);
    none_starts(&rt, &shared, &mut passes.worker);
    sends(&rt, &shared, &mut passes.writer, None);
    ticks(&rt, &shared, &mut passes.writer, 5, Ok(()));

    let newer = maker.make_other(b'h')?;
    match replace(&rt, &shared, &mut passes.worker, 9, newer) {
        Ok(_) => panic!(rt; "call 9 is there"),
        Err(back) => refused(&rt, back, b'h', ReplaceRefused::Unknown),
    }
    Ok(())
}

#[test]
fn a_call_that_runs_is_not_ready(rt: HostRuntime) -> Result<(), Fail> {
    let maker = Letters::new(rt.alloc(), b'a', false)?;
    let (calls, methods) = open_table(rt.alloc(), &maker)?;
    let (shared, mut passes) = share(&rt, rt.alloc(), calls);
    opens(&rt, &shared, &mut passes.reader, &maker, methods.chat);
    let running = begin(&rt, &shared, &mut passes.worker);
    is_not_ready(&rt, &shared, &mut passes.worker, 0);
    let _ = running.spill();
    Ok(())
}
