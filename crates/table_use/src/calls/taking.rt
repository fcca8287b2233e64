//! Takes the steps that a server's table and a client's have in common.
ghost use Rattle.std.specs.Prelude.{◌≡◌};

use super::claims::{
    cancels, closes, counts, is_halted, length_is, none_waits, sends, settles, status_is, ticks,
    waits,
};
use super::letters::{Letter, letter_of};
use super::running::{
    begins, begins_with, end_input, halt, refuses, run, run_alone, run_and_hear, run_cancelled,
    run_replaced, starts, starts_of,
};
use super::steps::Step;
use rpc_calls::Calls;
use std::alloc::Global;
use std::process::Abort;

/// A step is taken that is a run, or one that comes below.
pub fn take(rt: &impl Abort, alloc: Global, calls: &mut Calls<Letter>, step: Step, at: usize)
    ensures { calls.new.setting ≡ calls.old.setting }
{
    match step {
        Step::Runs(back) => run(rt, calls, back, at),
        Step::RunsAndHears(heard, back) => run_and_hear(rt, calls, heard, back, at),
        Step::RunsCancelled(told, back) => run_cancelled(rt, calls, told, back, at),
        Step::RunsReplaced(letter, back) => {
            run_replaced(rt, calls, letter_of(alloc, letter), back, at);
        }
        Step::Begins(call, heard) => begins(rt, calls, call, heard, at),
        Step::BeginsWith(letter) => begins_with(rt, calls, letter, at),
        Step::RunsAlone(call, place, letter) => run_alone(rt, calls, call, place, letter, at),
        Step::RefusesHandler(call, letter, want) => {
            refuses(rt, calls, call, letter_of(alloc, letter), want, at);
        }
        other => take_turn(rt, calls, other, at),
    }
}

// A step is taken that changes the table in another way, or asks something of it.
fn take_turn(rt: &impl Abort, calls: &mut Calls<Letter>, step: Step, at: usize)
    ensures { calls.new.setting ≡ calls.old.setting }
{
    match step {
        Step::Starts(want) => starts(rt, calls, want, at),
        Step::StartsCall(call, want) => starts_of(rt, calls, call, want, at),
        Step::Cancels(seat, call, want) => cancels(rt, calls, seat, call, want, at),
        Step::Closes(channel, want) => closes(rt, calls, channel, want, at),
        Step::Ticks(now, want) => ticks(rt, calls, now, want, at),
        Step::TicksOften(count) => tick_often(rt, calls, count, at),
        Step::InputEnds => end_input(rt, calls, at),
        Step::Halts(seat, why) => halt(rt, calls, seat, why, at),
        Step::Sends(want) => sends(rt, calls, want, at),
        claim => holds(rt, calls, claim, at),
    }
}

// What is asked of the table is so.
fn holds(rt: &impl Abort, calls: &Calls<Letter>, claim: Step, at: usize) {
    match claim {
        Step::Counts(want) => counts(rt, calls, want, at),
        Step::StatusIs(call, want) => status_is(rt, calls, call, want, at),
        Step::Waits(call, want) => waits(rt, calls, call, want, at),
        Step::NoneWaits(want) => none_waits(rt, calls, want, at),
        Step::Settles(want) => settles(rt, calls, want, at),
        Step::LengthIs(want) => length_is(rt, calls, want, at),
        Step::IsHalted(want) => is_halted(rt, calls, want, at),
        _ => panic!(rt; "step {at} isn't one of this table"),
    }
}

// The time is told so often, from 0 on.
fn tick_often(rt: &impl Abort, calls: &mut Calls<Letter>, count: u64, at: usize)
    ensures { calls.new.setting ≡ calls.old.setting }
{
    for now in 0..count {
        ticks(rt, calls, now, Ok(()), at);
    }
}

/// These steps are taken, none of which is a server's or a client's own.
pub fn take_all(rt: &impl Abort, alloc: Global, calls: &mut Calls<Letter>, steps: &[Step]) {
    for (at, step) in steps.iter().enumerate() {
        take(rt, alloc, calls, *step, at);
    }
}
