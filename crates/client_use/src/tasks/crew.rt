//! Tasks on a dispatcher of their own, followed step by step.
use crate::checks::{end_is, is_so};
use crate::tasks::{key_is, stop_is};
use Step::*;
use rpc_ids::Status;
use std::alloc::{AllocError, Global};
use std::marker::Model;
use std::process::Abort;
use std::test::Fail;
use task_core::{Dispatcher, Mail, Stop, Task};

/// What is done with tasks, and what is asked of them.
#[derive(Clone, Copy)]
pub enum Step {
    /// The first task has this key.
    FirstIs(usize),
    /// A run of at most so many polls ends so.
    Runs(u64, Stop),
    /// The next item was said by the task with this key, or nothing more was said.
    Says(Option<usize>),
    /// So the first task has ended, if it has.
    Ended(Option<Status>),
    /// The first task hears that its call ended so.
    Closes(Status),
    WakesFirst,
    WakesLast,
    /// The time goes on to this moment, in milliseconds.
    Advances(u64),
}

/// Tasks, of which the first and the last can be named, and the moment.
#[derive(Drop)]
pub struct Crew<T> {
    tasks: Dispatcher<T>,
    first: usize,
    last: usize,
    moment: u64,
}

impl<T> Model for Crew<T> {
    ghost use Rattle.std.specs.Prelude.{◌≡◌};
    ghost use Rattle.task_core.specs.Tasks.{HasKey, Tasks};

    ghost Value = { Tasks T };

    ghost view = { λ c. c.tasks };

    ghost invariant = { λ c. HasKey c.tasks c.first × HasKey c.tasks c.last × (c.tasks.moment ≡ c.moment) };
}

impl<T: Task + Drop> Crew<T> {
    /// One task.
    pub fn of(alloc: Global, task: T) -> Result<Crew<T>, Fail> {
        let mut tasks = Dispatcher::new(alloc)?;
        match tasks.add(task) {
            Ok(key) => Ok(Crew {
                tasks,
                first: key,
                last: key,
                moment: 0,
            }),
            Err((_, why)) => Err(Fail::new(format_args!("refused: {why:?}"))),
        }
    }

    /// Another task, which is the last then.
    pub fn add(&mut self, task: T) -> Result<(), Fail> {
        match self.tasks.add(task) {
            Ok(key) => {
                self.last = key;
                Ok(())
            }
            Err((_, why)) => Err(Fail::new(format_args!("refused: {why:?}"))),
        }
    }

    /// These steps are gone.
    pub fn follow(&mut self, rt: &impl Abort, steps: &[Step]) {
        for (row, step) in steps.iter().enumerate() {
            self.goes(rt, *step, row);
        }
    }

    fn goes(&mut self, rt: &impl Abort, step: Step, row: usize) {
        match step {
            FirstIs(key) => key_is(rt, Some(self.first), Some(key), row),
            Runs(budget, stop) => stop_is(rt, self.run(budget), stop, row),
            Says(key) => key_is(rt, self.speaker(), key, row),
            Ended(end) => end_is(rt, self.result(), end, row),
            Closes(status) => is_so(rt, self.close(status).is_ok(), row),
            WakesFirst => self.wake_first(),
            WakesLast => self.wake_last(),
            Advances(moment) => is_so(rt, self.advance(moment), row),
        }
    }

    fn run(&mut self, budget: u64) -> Result<Stop, AllocError> {
        self.tasks.run_until_stalled(budget)
    }

    // The key of the task that said the next item.
    fn speaker(&mut self) -> Option<usize> {
        match self.tasks.take_out() {
            Some((key, _)) => Some(key),
            None => None,
        }
    }

    fn result(&self) -> Option<Status> {
        self.tasks.result(self.first)
    }

    fn close(&mut self, status: Status) -> Result<(), AllocError> {
        self.tasks.post(self.first, Mail::Closed(status))
    }

    fn wake_first(&mut self) {
        self.tasks.wake(self.first);
    }

    fn wake_last(&mut self) {
        self.tasks.wake(self.last);
    }

    // Whether the time went on to this moment, which isn't past.
    fn advance(&mut self, moment: u64) -> bool {
        if moment < self.moment {
            return false;
        }
        self.tasks.advance(moment);
        self.moment = moment;
        true
    }
}
