//! What an errand does and says, step by step.
use crate::checks::{count_is, end_is, is_so, number_is};
use Come::*;
use Step::*;
use bytes::Bytes;
use live_client::asks::{CallErrand, Errand, TaskErrand, Utterance};
use rpc_handlers::{Event, Out};
use rpc_ids::Status;
use std::alloc::{AllocError, Global};
use std::collections::VecDeque;
use std::process::Abort;
use std::test::Fail;
use task_core::bells::Bells;
use transfer_client::WriteTask;

/// What comes to a call.
#[derive(Clone, Copy)]
enum Come {
    Message,
    End(Status),
}

/// What comes to a call that is cancelled at two messages, and what is asked of it.
#[derive(Clone, Copy)]
enum Step {
    /// The call takes it.
    Takes(Come),
    /// The call doesn't take it.
    Ignores(Come),
    /// Whether the call is to be cancelled. Where it is, it is cancelled.
    IsCut(bool),
    /// So the call has ended, if it has.
    Ended(Option<Status>),
    /// The call has kept so many messages.
    Keeps(usize),
}

fn event_of(come: Come) -> Event {
    match come {
        Message => Event::Message(Bytes::from_static(b"1")),
        End(status) => Event::Ended(status),
    }
}

// Whether the call took the event.
fn took(call: &mut CallErrand, event: Event) -> Result<bool, AllocError> {
    if !call.listens() {
        return Ok(false);
    }
    call.hear(event)?;
    Ok(true)
}

fn takes(rt: &impl Abort, call: &mut CallErrand, come: Come, wanted: bool, row: usize) {
    let is_taken = took(call, event_of(come));
    assert_eq!(rt; is_taken, Ok(wanted), "row {row}");
}

// Cancels the call where it is to be cancelled, which answers this.
fn cut_with(call: &mut CallErrand, status: Status) -> bool {
    if !call.cuts() {
        return false;
    }
    call.cut(status);
    true
}

fn step_holds(rt: &impl Abort, call: &mut CallErrand, step: Step, row: usize) {
    match step {
        Takes(come) => takes(rt, call, come, true, row),
        Ignores(come) => takes(rt, call, come, false, row),
        IsCut(wanted) => is_so(rt, cut_with(call, Status::Cancelled) == wanted, row),
        Ended(end) => end_is(rt, call.end(), end, row),
        Keeps(count) => count_is(rt, call.messages.len(), count, row),
    }
}

// A new call goes through these steps.
fn follows(rt: &impl Abort, alloc: Global, steps: &[Step]) {
    let mut call = CallErrand::new(alloc, VecDeque::new(alloc), 2, None);
    for (row, step) in steps.iter().enumerate() {
        step_holds(rt, &mut call, *step, row);
    }
}

const TO_ITS_LIMIT: &[Step] = &[
    Takes(Message),
    IsCut(false),
    Takes(Message),
    Ignores(Message),
    IsCut(true),
    Ended(Some(Status::Cancelled)),
    Keeps(2),
    IsCut(false),
];

#[test]
fn a_call_is_cut_at_its_limit(rt: HostRuntime) {
    follows(&rt, rt.alloc(), TO_ITS_LIMIT);
}

const TO_ITS_END: &[Step] = &[
    Takes(Message),
    Ended(None),
    Takes(End(Status::Okay)),
    Ended(Some(Status::Okay)),
    Ignores(Message),
    IsCut(false),
    Keeps(1),
];

#[test]
fn a_call_ends_with_its_call(rt: HostRuntime) {
    follows(&rt, rt.alloc(), TO_ITS_END);
}

#[test]
fn a_call_says_what_it_was_given(rt: HostRuntime) -> Result<(), Fail> {
    let alloc = rt.alloc();
    let mut given = VecDeque::new(alloc);
    given.push_back(Utterance::Says(Out::Say(Bytes::from_static(b"1"))))?;
    given.push_back(Utterance::Completes)?;
    let mut call = CallErrand::new(alloc, given, 2, None);
    says(&rt, call.next_out(), true, 0);
    is_so(
        &rt,
        matches!(call.next_out(), Some(Utterance::Completes)),
        1,
    );
    is_so(&rt, call.next_out().is_none(), 2);
    Ok(())
}

// Whether this is what is said next, a message.
fn is_say(out: Option<Utterance>) -> bool {
    match out {
        Some(Utterance::Says(Out::Say(_))) => true,
        _ => false,
    }
}

fn says(rt: &impl Abort, out: Option<Utterance>, wanted: bool, row: usize) {
    is_so(rt, is_say(out) == wanted, row);
}

#[test]
fn a_task_asks_and_ends_with_its_call(rt: HostRuntime) -> Result<(), Fail> {
    let alloc = rt.alloc();
    let (bells, ear, _ringers) = Bells::with(alloc, 1, 1)?;
    let task = WriteTask::new(alloc, 1, 7, Bytes::from_static(b"0123"), 0);
    let mut errand = TaskErrand::new(alloc, task, ear)?;
    says(&rt, errand.next_out(), false, 0);
    errand.go_on(&bells, 5)?;
    says(&rt, errand.next_out(), true, 1);
    says(&rt, errand.next_out(), false, 2);
    end_is(&rt, errand.end(), None, 3);
    errand.hear(Event::Ended(Status::Aborted))?;
    errand.go_on(&bells, 6)?;
    end_is(&rt, errand.end(), Some(Status::Aborted), 4);
    is_so(&rt, !errand.cuts(), 5);
    number_is(&rt, errand.task().offset(), 0, 6);
    Ok(())
}
