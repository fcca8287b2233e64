//! What is said of a table, a claim at a time, each of a step of a test.
ghost use Rattle.std.specs.Prelude.{◌≡◌};

use super::letters::Letter;
use super::steps::{Heard, Sent};
use link_io::Why;
use rpc_calls::{Calls, Running};
use rpc_handlers::Event;
use rpc_ids::Status;
use rpc_journal::{Act, Cancelled, CloseRefused, StartRefused};
use std::process::Abort;

// It is so.
fn is_so(rt: &impl Abort, fact: bool, step: usize) {
    assert!(rt; fact, "step {step}");
}

// A count, a number or a letter is this.
fn number_is(rt: &impl Abort, number: u64, want: u64, step: usize) {
    assert_eq!(rt; number, want, "step {step}");
}

/// It has so many calls.
pub fn counts(rt: &impl Abort, calls: &Calls<Letter>, want: u32, step: usize) {
    number_is(rt, u64::from(calls.count()), u64::from(want), step);
}

/// This call, which must be there, has ended so, or lives.
pub fn status_is(
    rt: &impl Abort,
    calls: &Calls<Letter>,
    call: u32,
    want: Option<Status>,
    step: usize,
) {
    assert!(rt; call < calls.count(), "step {step}");
    assert_eq!(rt; calls.status(call), want, "step {step}");
}

/// So many events wait for this call, which must be there.
pub fn waits(rt: &impl Abort, calls: &Calls<Letter>, call: u32, want: u32, step: usize) {
    assert!(rt; call < calls.count(), "step {step}");
    number_is(rt, u64::from(calls.waiting(call)), u64::from(want), step);
}

/// Whether no event waits.
pub fn none_waits(rt: &impl Abort, calls: &Calls<Letter>, want: bool, step: usize) {
    is_so(rt, calls.none_waiting() == want, step);
}

/// Whether nothing is left to do.
pub fn settles(rt: &impl Abort, calls: &Calls<Letter>, want: bool, step: usize) {
    is_so(rt, calls.settled() == want, step);
}

/// Its journal has so many entries.
pub fn length_is(rt: &impl Abort, calls: &Calls<Letter>, want: u64, step: usize) {
    number_is(rt, calls.journal().len(), want, step);
}

/// Why it halted, or that it didn't.
pub fn is_halted(rt: &impl Abort, calls: &Calls<Letter>, want: Option<Why>, step: usize) {
    assert_eq!(rt; calls.halted(), want, "step {step}");
}

// The type, the status and the length of the packet that goes out next.
fn next_sent(calls: &mut Calls<Letter>) -> Sent
    ensures { calls.new.setting ≡ calls.old.setting }
{
    match calls.flush_front(1)?.act {
        Act::Send(p) => Some((p.ptype, Status::of(p.status), p.payload.len())),
        Act::Keep(_) | Act::LeaveCall => None,
    }
}

/// This goes out next.
pub fn sends(rt: &impl Abort, calls: &mut Calls<Letter>, want: Sent, step: usize)
    ensures { calls.new.setting ≡ calls.old.setting }
{
    assert_eq!(rt; next_sent(calls), want, "step {step}");
}

/// The time is told.
pub fn ticks(
    rt: &impl Abort,
    calls: &mut Calls<Letter>,
    now: u64,
    want: Result<(), StartRefused>,
    step: usize,
)
    ensures { calls.new.setting ≡ calls.old.setting }
{
    assert_eq!(rt; calls.tick(1, now), want, "step {step}");
}

/// A seat cancels a call, which must be there.
pub fn cancels(
    rt: &impl Abort,
    calls: &mut Calls<Letter>,
    seat: u32,
    call: u32,
    want: Cancelled,
    step: usize,
)
    ensures { calls.new.setting ≡ calls.old.setting }
{
    assert!(rt; call < calls.count(), "step {step}");
    assert_eq!(rt; calls.cancel(seat, call), want, "step {step}");
}

/// Seat 2 closes a channel.
pub fn closes(
    rt: &impl Abort,
    calls: &mut Calls<Letter>,
    channel: u32,
    want: Result<u32, CloseRefused>,
    step: usize,
)
    ensures { calls.new.setting ≡ calls.old.setting }
{
    assert_eq!(rt; calls.close_channel(2, channel), want, "step {step}");
}

/// The handler is one of this letter.
pub fn letter_is(rt: &impl Abort, letter: &Letter, want: u8, step: usize) {
    number_is(rt, u64::from(letter.letter), u64::from(want), step);
}

/// The handler came back with this letter, or didn't.
pub fn came_back(rt: &impl Abort, back: Option<Letter>, want: Option<u8>, step: usize) {
    let letter = match back {
        Some(letter) => Some(letter.letter),
        None => None,
    };
    assert_eq!(rt; letter, want, "step {step}");
}

/// It is a run of this call.
pub fn runs(rt: &impl Abort, running: &Running<Letter>, call: u32, step: usize) {
    number_is(rt, u64::from(running.call_number()), u64::from(call), step);
}

/// This seat runs it.
pub fn seat_is(rt: &impl Abort, running: &Running<Letter>, want: u32, step: usize) {
    number_is(rt, u64::from(running.seat()), u64::from(want), step);
}

/// It began with this entry of the journal.
pub fn place_is(rt: &impl Abort, running: &Running<Letter>, want: u64, step: usize) {
    number_is(rt, running.place(), want, step);
}

// Whether an event is what a handler hears.
fn is_heard(event: &Event, heard: Heard) -> bool {
    match heard {
        Heard::Message => matches!(event, Event::Message(_)),
        Heard::Tick(want) => matches!(event, Event::Tick(now) if *now == want),
        Heard::End(want) => matches!(event, Event::Ended(status) if *status == want),
    }
}

/// The handler is to hear this.
pub fn hears(rt: &impl Abort, running: &Running<Letter>, want: Heard, step: usize) {
    is_so(rt, is_heard(running.event(), want), step);
}
