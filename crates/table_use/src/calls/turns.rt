//! What is done to a table at work and to the plain one alike, and what must then be the same of both.
ghost use Rattle.std.specs.Prelude.{◌≡◌};

use super::claims::{cancels, closes, counts, length_is, runs, status_is, ticks, waits};
use super::letters::Letter;
use super::plain::{Made, Plain, made_of};
use super::running::{end_input, end_run, start_next, starts};
use rpc_calls::Calls;
use rpc_ids::Status;
use rpc_journal::{Act, Journal, ReplaceRefused, check};
use rpc_packet::PacketType;
use std::alloc::{AllocError, Global};
use std::process::Abort;
use std::test::Fail;

/// A change of a table that doesn't come from its peer or its owner's asking.
#[derive(Clone, Copy)]
pub enum Turn {
    /// The call that is ready first runs.
    Runs,
    /// A run of it begins, and never ends.
    Begins,
    Cancels(u32),
    Ticks(u64),
    InputEnds,
    Replaces(u32),
    /// This channel is closed.
    Closes(u32),
}

/// What goes out.
#[derive(Clone, Copy, Debug, PartialEq, Eq)]
pub enum Gone {
    Sent(PacketType, Status),
    Kept,
    Left,
}

/// What goes out, and of which call.
pub type Goes = (Option<u32>, Gone);

/// A handler of this kind that says a letter.
pub fn handler(alloc: Global, ends: bool) -> Letter {
    Letter {
        alloc,
        letter: b'h',
        ends,
    }
}

// The call that is ready first runs.
fn both_run(rt: &impl Abort, calls: &mut Calls<Letter>, want: Option<u32>, step: usize)
    ensures { calls.new.setting ≡ calls.old.setting }
{
    match want {
        Some(call) => {
            let running = start_next(rt, calls, step);
            runs(rt, &running, call, step);
            let _ = end_run(rt, calls, running);
        }
        None => starts(rt, calls, Ok(None), step),
    }
}

// Seat 2 gives a call a handler, with this answer.
fn replaces(
    rt: &impl Abort,
    calls: &mut Calls<Letter>,
    call: u32,
    handler: Letter,
    want: Result<(), ReplaceRefused>,
    step: usize,
)
    ensures { calls.new.setting ≡ calls.old.setting }
{
    let got = match calls.replace(2, call, handler) {
        Ok(_) => Ok(()),
        Err((_, refusal)) => Err(refusal),
    };
    assert_eq!(rt; got, want, "step {step}");
}

/// The change is made to both, with the same answer.
pub fn take_turn(
    rt: &impl Abort,
    alloc: Global,
    calls: &mut Calls<Letter>,
    plain: &mut Plain,
    ends: bool,
    turn: Turn,
    step: usize,
) -> Result<(), AllocError>
    ensures { calls.new.setting ≡ calls.old.setting }
{
    match turn {
        Turn::Runs => {
            both_run(rt, calls, plain.run(2, &mut handler(alloc, ends))?, step);
            Ok(())
        }
        Turn::Begins => {
            starts(rt, calls, Ok(plain.start(2)?), step);
            Ok(())
        }
        Turn::Cancels(call) => {
            cancels(rt, calls, 3, call, plain.cancel(3, call)?, step);
            Ok(())
        }
        Turn::Ticks(now) => {
            plain.tick(now)?;
            ticks(rt, calls, now, Ok(()), step);
            Ok(())
        }
        Turn::InputEnds => {
            plain.end_in()?;
            end_input(rt, calls, step);
            Ok(())
        }
        Turn::Replaces(call) => {
            let want = plain.replace(2, call)?;
            replaces(rt, calls, call, handler(alloc, ends), want, step);
            Ok(())
        }
        Turn::Closes(channel) => {
            closes(rt, calls, channel, plain.close_channel(2, channel)?, step);
            Ok(())
        }
    }
}

/// Both tell the same of their calls, and have as many entries.
pub fn agree(rt: &impl Abort, calls: &Calls<Letter>, plain: &Plain, step: usize) {
    counts(rt, calls, plain.count(), step);
    for call in 0..plain.count() {
        status_is(rt, calls, call, plain.status(call), step);
        waits(rt, calls, call, plain.waiting(call), step);
    }
    length_is(rt, calls, plain.made().len() as u64, step);
}

// What goes out next.
fn next_gone(calls: &mut Calls<Letter>) -> Option<Goes>
    ensures { calls.new.setting ≡ calls.old.setting }
{
    let item = calls.flush_front(1)?;
    Some((item.call, gone_of(&item.act)))
}

fn gone_of(act: &Act) -> Gone {
    match act {
        Act::Send(p) => Gone::Sent(p.ptype, Status::of(p.status)),
        Act::Keep(_) => Gone::Kept,
        Act::LeaveCall => Gone::Left,
    }
}

// This goes out next.
fn goes_out(rt: &impl Abort, calls: &mut Calls<Letter>, want: Option<Goes>)
    ensures { calls.new.setting ≡ calls.old.setting }
{
    assert_eq!(rt; next_gone(calls), want);
}

// Whether an item of the plain table goes out.
fn flushes(rt: &impl Abort, plain: &mut Plain, want: bool) -> Result<(), AllocError> {
    assert_eq!(rt; plain.flush()?, want);
    Ok(())
}

/// All items go out, which are these.
pub fn all_go_out(
    rt: &impl Abort,
    calls: &mut Calls<Letter>,
    plain: &mut Plain,
    sent: &[Goes],
) -> Result<(), AllocError>
    ensures { calls.new.setting ≡ calls.old.setting }
{
    for goes in sent {
        flushes(rt, plain, true)?;
        goes_out(rt, calls, Some(*goes));
    }
    flushes(rt, plain, false)?;
    goes_out(rt, calls, None);
    Ok(())
}

// The entry at this place.
fn entry_is(rt: &impl Abort, journal: &Journal, at: u64, want: (u32, Made)) {
    let written = match journal.get(at) {
        Some(entry) => Some((entry.seat, made_of(&entry.kind))),
        None => None,
    };
    assert_eq!(rt; written, Some(want));
}

/// The journal has the entries that the plain table made, and no fault.
pub fn same_journal(
    rt: &impl Abort,
    alloc: Global,
    calls: &Calls<Letter>,
    plain: &Plain,
) -> Result<(), Fail> {
    let journal = calls.journal();
    let mut at = 0u64;
    for made in plain.made() {
        entry_is(rt, journal, at, *made);
        at = at.saturating_add(1);
    }
    length_is(rt, calls, at, at as usize);
    let fault = check(
        alloc,
        journal,
        plain.role(),
        plain.channels(),
        plain.registry(),
    )?;
    assert!(rt; fault.is_none());
    Ok(())
}
