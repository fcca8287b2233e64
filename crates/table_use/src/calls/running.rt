//! Runs of calls, from their start to their end.
ghost use Rattle.std.specs.Prelude.{◌≡◌, None};
ghost use Rattle.rpc_journal.specs.Runs.{IsRunning};

use super::claims::{came_back, hears, letter_is, place_is, runs, seat_is};
use super::letters::Letter;
use super::steps::Heard;
use link_io::Why;
use rpc_calls::{Calls, Running};
use rpc_handlers::Handler;
use rpc_journal::{Cancelled, ReplaceRefused, StartOfRefused, StartRefused};
use std::process::Abort;

/// Seat 2 begins a run of the call that is ready first.
pub fn start_next(rt: &impl Abort, calls: &mut Calls<Letter>, step: usize) -> Running<Letter>
    ensures on { IsRunning ⟦<Letter as Handler>⟧.rule calls.new.setting calls.new.entries result.run }
    ensures seat { result.run.seat ≡ 2 }
    ensures unasked { result.answer ≡ None }
    ensures setting { calls.new.setting ≡ calls.old.setting }
{
    let Ok(Some(running)) = calls.start(2) else {
        panic!(rt; "step {step}: no run")
    };
    running
}

/// The handler of a run is asked, and the run ends. Gives the handler where it comes back.
pub fn end_run(
    rt: &impl Abort,
    calls: &mut Calls<Letter>,
    mut running: Running<Letter>,
) -> Option<Letter>
    requires on { IsRunning ⟦<Letter as Handler>⟧.rule calls.old.setting calls.old.entries running.run }
    requires unasked { running.answer ≡ None }
    ensures { calls.new.setting ≡ calls.old.setting }
{
    if running.call().is_err() {
        panic!(rt; "no memory");
    }
    calls.finish(running)
}

/// The call that is ready first runs. Its handler comes back with this letter, or doesn't.
pub fn run(rt: &impl Abort, calls: &mut Calls<Letter>, back: Option<u8>, step: usize)
    ensures { calls.new.setting ≡ calls.old.setting }
{
    let running = start_next(rt, calls, step);
    came_back(rt, end_run(rt, calls, running), back, step);
}

/// The call that is ready first runs, which is this one.
pub fn run_of(rt: &impl Abort, calls: &mut Calls<Letter>, call: u32, back: Option<u8>, step: usize)
    ensures { calls.new.setting ≡ calls.old.setting }
{
    let running = start_next(rt, calls, step);
    runs(rt, &running, call, step);
    came_back(rt, end_run(rt, calls, running), back, step);
}

/// The call that is ready first runs, and its handler hears this.
pub fn run_and_hear(
    rt: &impl Abort,
    calls: &mut Calls<Letter>,
    heard: Heard,
    back: Option<u8>,
    step: usize,
)
    ensures { calls.new.setting ≡ calls.old.setting }
{
    let running = start_next(rt, calls, step);
    hears(rt, &running, heard, step);
    came_back(rt, end_run(rt, calls, running), back, step);
}

/// A run of the call that is ready first, this one, begins for good. Its handler is to hear this.
pub fn begins(rt: &impl Abort, calls: &mut Calls<Letter>, call: u32, heard: Heard, step: usize)
    ensures { calls.new.setting ≡ calls.old.setting }
{
    let running = start_next(rt, calls, step);
    runs(rt, &running, call, step);
    hears(rt, &running, heard, step);
    let _ = running.spill();
}

/// A run of the call that is ready first begins for good. Its handler has this letter.
pub fn begins_with(rt: &impl Abort, calls: &mut Calls<Letter>, letter: u8, step: usize)
    ensures { calls.new.setting ≡ calls.old.setting }
{
    let running = start_next(rt, calls, step);
    letter_is(rt, &running.spill(), letter, step);
}

// The call that is ready first. Its run is left as it is, for good.
fn try_start(calls: &mut Calls<Letter>) -> Result<Option<u32>, StartRefused>
    ensures { calls.new.setting ≡ calls.old.setting }
{
    match calls.start(2)? {
        Some(running) => {
            let call = running.call_number();
            let _ = running.spill();
            Ok(Some(call))
        }
        None => Ok(None),
    }
}

// This call, where a run of it can begin. Its run is left as it is, for good.
fn try_start_of(calls: &mut Calls<Letter>, call: u32) -> Result<u32, StartOfRefused>
    ensures { calls.new.setting ≡ calls.old.setting }
{
    let running = calls.start_of(2, call)?;
    let number = running.call_number();
    let _ = running.spill();
    Ok(number)
}

/// Seat 2 begins a run of the call that is ready first, with this answer.
pub fn starts(
    rt: &impl Abort,
    calls: &mut Calls<Letter>,
    want: Result<Option<u32>, StartRefused>,
    step: usize,
)
    ensures { calls.new.setting ≡ calls.old.setting }
{
    assert_eq!(rt; try_start(calls), want, "step {step}");
}

/// Seat 2 begins a run of this call, with this answer.
pub fn starts_of(
    rt: &impl Abort,
    calls: &mut Calls<Letter>,
    call: u32,
    want: Result<u32, StartOfRefused>,
    step: usize,
)
    ensures { calls.new.setting ≡ calls.old.setting }
{
    assert_eq!(rt; try_start_of(calls, call), want, "step {step}");
}

/// Seat 2 begins a run of this call, with this entry of the journal, and no other beside it. Its handler has this
/// letter.
pub fn run_alone(
    rt: &impl Abort,
    calls: &mut Calls<Letter>,
    call: u32,
    place: u64,
    letter: u8,
    step: usize,
)
    ensures { calls.new.setting ≡ calls.old.setting }
{
    let Ok(running) = calls.start_of(2, call) else {
        panic!(rt; "step {step}: no run")
    };
    seat_is(rt, &running, 2, step);
    place_is(rt, &running, place, step);
    starts_of(rt, calls, call, Err(StartOfRefused::NotReady), step);
    letter_is(rt, &running.spill(), letter, step);
}

/// Seat 2 gives a call this handler, which comes back with this refusal.
pub fn refuses(
    rt: &impl Abort,
    calls: &mut Calls<Letter>,
    call: u32,
    letter: Letter,
    want: ReplaceRefused,
    step: usize,
)
    ensures { calls.new.setting ≡ calls.old.setting }
{
    let same = letter.letter;
    match calls.replace(2, call, letter) {
        Ok(_) => panic!(rt; "step {step}: the call has the handler"),
        Err((letter, refusal)) => {
            letter_is(rt, &letter, same, step);
            assert_eq!(rt; refusal, want, "step {step}");
        }
    }
}

/// The input ends, which it must not have done before.
pub fn end_input(rt: &impl Abort, calls: &mut Calls<Letter>, step: usize)
    ensures { calls.new.setting ≡ calls.old.setting }
{
    assert!(rt; !calls.input_ended(), "step {step}");
    calls.end_in(0);
}

/// This seat halts the table. A table that has settled isn't halted.
pub fn halt(rt: &impl Abort, calls: &mut Calls<Letter>, seat: u32, why: Why, step: usize)
    ensures { calls.new.setting ≡ calls.old.setting }
{
    match why {
        Why::Settled => panic!(rt; "step {step}: no seat halts a settled table"),
        other => calls.halt(seat, other),
    }
}

// Seat 3 cancels the call that seat 2 runs.
fn cancel_meanwhile(
    rt: &impl Abort,
    calls: &mut Calls<Letter>,
    running: &Running<Letter>,
) -> Cancelled
    requires on { IsRunning ⟦<Letter as Handler>⟧.rule calls.old.setting calls.old.entries running.now.run }
    requires seat { running.now.run.seat ≡ 2 }
    ensures on { IsRunning ⟦<Letter as Handler>⟧.rule calls.new.setting calls.new.entries running.now.run }
    ensures setting { calls.new.setting ≡ calls.old.setting }
{
    let call = running.call_number();
    assert!(rt; call < calls.count());
    calls.cancel(3, call)
}

fn is_told(rt: &impl Abort, told: Cancelled, want: Cancelled, step: usize) {
    assert_eq!(rt; told, want, "step {step}");
}

/// The call that is ready first runs, and meanwhile seat 3 cancels it, with this answer.
pub fn run_cancelled(
    rt: &impl Abort,
    calls: &mut Calls<Letter>,
    want: Cancelled,
    back: Option<u8>,
    step: usize,
)
    ensures { calls.new.setting ≡ calls.old.setting }
{
    let running = start_next(rt, calls, step);
    let told = cancel_meanwhile(rt, calls, &running);
    let letter = end_run(rt, calls, running);
    is_told(rt, told, want, step);
    came_back(rt, letter, back, step);
}

// Seat 3 gives the call that seat 2 runs this handler.
fn replace_meanwhile(
    calls: &mut Calls<Letter>,
    running: &Running<Letter>,
    letter: Letter,
) -> Result<Option<Letter>, (Letter, ReplaceRefused)>
    requires on { IsRunning ⟦<Letter as Handler>⟧.rule calls.old.setting calls.old.entries running.now.run }
    requires seat { running.now.run.seat ≡ 2 }
    ensures on { IsRunning ⟦<Letter as Handler>⟧.rule calls.new.setting calls.new.entries running.now.run }
    ensures setting { calls.new.setting ≡ calls.old.setting }
{
    calls.replace(3, running.call_number(), letter)
}

/// The call that is ready first runs, and meanwhile seat 3 gives it this handler, for which none comes back.
pub fn run_replaced(
    rt: &impl Abort,
    calls: &mut Calls<Letter>,
    newer: Letter,
    back: Option<u8>,
    step: usize,
)
    ensures { calls.new.setting ≡ calls.old.setting }
{
    let running = start_next(rt, calls, step);
    let replaced = replace_meanwhile(calls, &running, newer);
    let letter = end_run(rt, calls, running);
    assert!(rt; matches!(replaced, Ok(None)), "step {step}");
    came_back(rt, letter, back, step);
}
