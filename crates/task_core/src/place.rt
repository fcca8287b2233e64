//! The place of one task.
ghost use Rattle.std.specs.Prelude.{◌≡◌, ◌||◌, true, false, [], ◌∷◌, ◌++◌, Some, None, is_none, is_ok, is_err, IsSome, IfSome, if◌then◌else◌};
ghost use Rattle.task_core.specs.Visit.{Visit};
ghost use Rattle.task_core.specs.Places.{due_in, due_with, come_at, IsPolled};
ghost use Rattle.task_core.specs.Due.{has_come};
ghost use Rattle.task_core.specs.Timers.{has_timer, KeepsOthers};

use crate::cx::Cx;
use crate::mail::Mail;
use crate::task::{Poll, Task};
use crate::timers::Timers;
use rpc_ids::Status;
use std::alloc::{AllocError, Global};
use std::collections::VecDeque;

/// A task with what a dispatcher keeps of it.
#[derive(Drop)]
pub struct Place<T> {
    pub task: T,
    /// The status with which it ended.
    pub result: Option<Status>,
    pub mail: VecDeque<Mail>,
    /// It is due, whatever it waits for: it is new, was refused for memory or woken, or its time has come.
    pub marked: bool,
    /// Its last poll waits for mail.
    pub waits_mail: bool,
    /// Until when its last poll sleeps.
    pub alarm: Option<u64>,
    /// The word of its wakes by other threads, as it was loaded last.
    pub latest: u64,
    /// That word, as it was at the last poll.
    pub heard: u64,
}

impl<T> Place<T> {
    /// A new task.
    pub fn new(alloc: Global, task: T) -> Place<T>
        ensures task { result.task ≡ task }
        ensures lives { result.result ≡ None }
        ensures mail { result.mail.items ≡ [] }
        ensures marked { result.marked ≡ true }
        ensures waits { result.waits_mail ≡ false }
        ensures alarm { result.alarm ≡ None }
        ensures latest { result.latest ≡ 0 }
        ensures heard { result.heard ≡ 0 }
    {
        Place {
            task,
            result: None,
            mail: VecDeque::new(alloc),
            marked: true,
            waits_mail: false,
            alarm: None,
            latest: 0,
            heard: 0,
        }
    }

    /// Whether the task is due.
    pub fn is_due(&self) -> bool
        ensures { result ≡ due_in (Some self.now) }
    {
        self.is_due_with(self.latest)
    }

    /// Whether the task is due if the word of its wakes is this.
    pub fn is_due_with(&self, word: u64) -> bool
        ensures { result ≡ due_with word self.now }
    {
        self.result.is_none()
            && (self.marked || word != self.heard || self.waits_mail && !self.mail.is_empty())
    }

    /// The task alone.
    pub fn into_task(self) -> T
        ensures { result ≡ self.task }
    {
        self.task
    }

    /// Mail comes for the task. For one that has ended nothing changes.
    pub fn post(&mut self, mail: Mail) -> Result<(), AllocError>
        ensures ended { IsSome self.old.result → self.new ≡ self.old }
        ensures mail { self.old.result ≡ None → self.new.mail.items ≡ (if is_ok result then self.old.mail.items ++ mail ∷ [] else self.old.mail.items) }
        ensures rest { self.new ≡ record self.old { mail = self.new.mail } }
    {
        if self.result.is_none() {
            self.mail.push_back(mail)?;
        }
        Ok(())
    }

    /// The task is due. For one that has ended nothing changes.
    pub fn wake(&mut self)
        ensures { self.new ≡ record self.old { marked = is_none self.old.result || self.old.marked } }
    {
        if self.result.is_none() {
            self.marked = true;
        }
    }

    /// The time has come to this moment.
    pub fn come_to(&mut self, now: u64)
        ensures { self.new ≡ come_at now self.old }
    {
        if let Some(at) = self.alarm
            && at <= now
        {
            self.alarm = None;
            self.marked = true;
        }
    }

    // A poll has answered `Pending`, and has asked to sleep so long. The place is marked until that is done.
    fn sleep(
        &mut self,
        alarm: Option<u64>,
        now: u64,
        timers: &mut Timers,
        key: usize,
    ) -> Result<(), AllocError>
        requires marked { self.old.marked ≡ true }
        requires alarm { self.old.alarm ≡ None }
        ensures place { self.new ≡ record self.old { marked = self.new.marked; alarm = self.new.alarm } }
        ensures marked { self.new.marked ≡ (is_err result || has_come now alarm) }
        ensures alarm { self.new.marked ≡ false → self.new.alarm ≡ alarm }
        ensures timer { IfSome self.new.alarm (λ at. has_timer timers.new at key ≡ true) }
        ensures others { KeepsOthers key timers.old timers.new }
    {
        if let Some(at) = alarm {
            if at <= now {
                return Ok(());
            }
            timers.add(at, key)?;
        }
        self.alarm = alarm;
        self.marked = false;
        Ok(())
    }
}

impl<T: Task> Place<T> {
    /// Polls the task once, and sets its timer.
    pub fn poll(&mut self, cx: &mut Cx, timers: &mut Timers, key: usize) -> Result<(), AllocError>
        requires { self.old.result ≡ None }
        ensures polled { (visit : Visit) × IsPolled T.polls key self.old self.new cx.old cx.new visit (is_err result) }
        ensures timer { IfSome self.new.alarm (λ at. has_timer timers.new at key ≡ true) }
        ensures others { KeepsOthers key timers.old timers.new }
    {
        timers.remove(self.alarm, key);
        cx.begin(key);
        cx.swap_mail(&mut self.mail);
        let answer = self.task.poll(cx);
        cx.swap_mail(&mut self.mail);
        self.heard = self.latest;
        self.waits_mail = cx.awaits_mail();
        self.alarm = None;
        self.marked = true;
        match answer? {
            Poll::Ready(status) => {
                self.result = Some(status);
                Ok(())
            }
            Poll::Pending => self.sleep(cx.alarm(), cx.now(), timers, key),
        }
    }
}
