ghost use Rattle.std.specs.Prelude.{◌≡◌, ⊤, Ok, IfOk};
ghost use Rattle.task_core.specs.Tasks.{Keeps};

mod crew;
mod memory;
mod ringing;

use crate::checks::number_is;
use crew::Crew;
use crew::Step::{self, *};
use rpc_handlers::Out;
use rpc_ids::Status;
use std::alloc::AllocError;
use std::process::Abort;
use std::test::Fail;
use task_core::{Cx, Dispatcher, Mail, Poll, Stop, Task, TaskRefused};

// A task that says its name at each poll. It ends when a call is closed, or when its moment has come.
#[derive(Drop)]
struct Worker {
    name: u32,
    until: Option<u64>,
}

impl Task for Worker {
    ghost polls = { λ _ _ _. ⊤ };

    fn poll(&mut self, cx: &mut Cx) -> Result<Poll, AllocError> {
        cx.say(Out::Commit { session: self.name })?;
        match self.until {
            None => {
                if let Some(Mail::Closed(status)) = cx.mail() {
                    return Ok(Poll::Ready(status));
                }
                cx.wait_mail();
                Ok(Poll::Pending)
            }
            Some(at) => {
                if at <= cx.now() {
                    return Ok(Poll::Ready(Status::Okay));
                }
                cx.sleep_until(at);
                Ok(Poll::Pending)
            }
        }
    }
}

fn waits(name: u32) -> Worker {
    Worker { name, until: None }
}

fn sleeps(name: u32, at: u64) -> Worker {
    Worker {
        name,
        until: Some(at),
    }
}

// The key of the task that said the next item.
fn speaker(tasks: &mut Dispatcher<Worker>) -> Option<usize>
    ensures { Keeps tasks.old tasks.new }
{
    match tasks.take_out() {
        Some((key, _)) => Some(key),
        None => None,
    }
}

fn taken<T: Drop>(added: Result<usize, (T, TaskRefused)>) -> Result<usize, Fail>
    ensures { IfOk result (λ key. added ≡ Ok key) }
{
    match added {
        Ok(key) => Ok(key),
        Err((_, why)) => Err(Fail::new(format_args!("refused: {why:?}"))),
    }
}

fn stop_is(rt: &impl Abort, stop: Result<Stop, AllocError>, wanted: Stop, row: usize) {
    assert_eq!(rt; stop, Ok(wanted), "row {row}");
}

fn key_is(rt: &impl Abort, key: Option<usize>, wanted: Option<usize>, row: usize) {
    assert_eq!(rt; key, wanted, "row {row}");
}

fn cause_is(rt: &impl Abort, cause: TaskRefused, wanted: TaskRefused) {
    assert_eq!(rt; cause, wanted);
}

const TO_ITS_MAIL: &[Step] = &[
    FirstIs(0),
    Runs(1, Stop::Stalled),
    Says(Some(0)),
    Says(None),
    Ended(None),
    Closes(Status::Okay),
    Runs(8, Stop::AllDone),
    Says(Some(0)),
    Says(None),
    Ended(Some(Status::Okay)),
];

#[test]
fn mail_wakes_a_task_and_ends_it(rt: HostRuntime) -> Result<(), Fail> {
    let mut crew = Crew::of(rt.alloc(), waits(0))?;
    crew.follow(&rt, TO_ITS_MAIL);
    Ok(())
}

const BEHIND_ITS_END: &[Step] = &[
    Runs(8, Stop::AllDone),
    Says(Some(0)),
    WakesFirst,
    Closes(Status::Aborted),
    Runs(8, Stop::AllDone),
    Says(None),
    Ended(Some(Status::Okay)),
];

#[test]
fn an_ended_task_is_left_alone(rt: HostRuntime) -> Result<(), Fail> {
    let mut crew = Crew::of(rt.alloc(), sleeps(0, 0))?;
    crew.follow(&rt, BEHIND_ITS_END);
    Ok(())
}

const TO_THE_MOMENT: &[Step] = &[
    Runs(8, Stop::Stalled),
    Says(Some(0)),
    Says(Some(1)),
    Says(Some(2)),
    Advances(1999),
    Runs(8, Stop::Stalled),
    Says(None),
    Advances(2000),
    Runs(8, Stop::Stalled),
    Says(Some(0)),
    Says(Some(2)),
    Says(None),
];

#[test]
fn a_timer_comes_at_its_moment(rt: HostRuntime) -> Result<(), Fail> {
    let mut crew = Crew::of(rt.alloc(), sleeps(0, 2000))?;
    crew.add(sleeps(1, 2500))?;
    crew.add(sleeps(2, 2000))?;
    crew.follow(&rt, TO_THE_MOMENT);
    Ok(())
}

const WOKEN_TWICE: &[Step] = &[
    Runs(1, Stop::Budget),
    Runs(1, Stop::Stalled),
    WakesLast,
    WakesFirst,
    WakesFirst,
    Runs(8, Stop::Stalled),
    Says(Some(0)),
    Says(Some(1)),
    Says(Some(0)),
    Says(Some(1)),
    Says(None),
];

#[test]
fn two_wakes_are_one_poll(rt: HostRuntime) -> Result<(), Fail> {
    let mut crew = Crew::of(rt.alloc(), waits(0))?;
    crew.add(waits(1))?;
    crew.follow(&rt, WOKEN_TWICE);
    Ok(())
}

#[test]
fn the_last_of_too_many_comes_back(rt: HostRuntime) -> Result<(), Fail> {
    let mut tasks = Dispatcher::new(rt.alloc())?;
    for name in 0..1024 {
        taken(tasks.add(waits(name)))?;
    }
    match tasks.add(waits(1024)) {
        Ok(key) => Err(Fail::new(format_args!("taken in under {key}"))),
        Err((task, why)) => {
            number_is(&rt, u64::from(task.name), 1024, 0);
            cause_is(&rt, why, TaskRefused::Full);
            Ok(())
        }
    }
}
