//! A task that speaks through a call.
ghost use Rattle.std.specs.Prelude.{◌≡◌, ℕ, List, [], None, Some, true, false, map, IfOk, OnOk, OnErr};
ghost use Rattle.task_core.specs.Log.{Step, posted, task_of};
ghost use Rattle.task_core.specs.Tasks.{AddsNothing, Keeps, StandsFor};
ghost use Rattle.live_client.specs.asks.Tasks.{mail_of};
ghost use Rattle.live_client.specs.asks.Telling.{AllAdd, HasWord, IsAlone, Tells, told_weaker, unknown};

use crate::asks::errand::Errand;
use crate::asks::utterance::Utterance;
use rpc_handlers::Event;
use rpc_ids::Status;
use std::alloc::{AllocError, Global};
use std::snapshot::Snapshot;
use task_core::bells::Bells;
use task_core::{Dispatcher, Ear, Mail, Task};

// The key of the one task.
const KEY: usize = 0;

// A step polls the task so often at most.
const POLLS: u64 = 8;

/// A task behind a dispatcher, which is told the events of a call as its mail.
pub struct TaskErrand<T: Task + Drop> {
    pub tasks: Dispatcher<T>,
    pub ear: Ear,
    /// The task as it began.
    pub first: Snapshot<T>,
    /// Whether its last poll found too little memory.
    pub short: Snapshot<bool>,
}

impl<T: Task + Drop> Drop for TaskErrand<T> {
    fn drop(self) {
        let Self {
            tasks: _,
            ear: _,
            first: _,
            short: _,
        } = self;
    }
}

impl<T: Task + Drop> TaskErrand<T> {
    /// A new task, at moment 0. Its word of wakes is the first that the ear hears.
    pub fn new(alloc: Global, task: T, ear: Ear) -> Result<TaskErrand<T>, AllocError>
        requires new { ear.looks ≡ [] }
        ensures first { IfOk result (λ e. e.first.value ≡ task) }
        ensures ear { IfOk result (λ e. e.ear ≡ ear) }
        ensures moment { IfOk result (λ e. e.tasks.moment ≡ 0) }
        ensures there { IfOk result (λ e. IsAlone e.tasks) }
        ensures whole { IfOk result (λ e. e.short.value ≡ false) }
        ensures told { IfOk result (λ e. (start upto : ℕ) → Tells T.polls task e.tasks ear false unknown start upto None [] [] None) }
    {
        let first = Snapshot::of(&task);
        let short = Snapshot::of(&false);
        let mut tasks = Dispatcher::new(alloc)?;
        match tasks.add(task) {
            Ok(_) => Ok(TaskErrand {
                tasks,
                ear,
                first,
                short,
            }),
            Err(_) => Err(AllocError),
        }
    }

    /// The task as its last poll left it.
    pub fn task(&self) -> &T
        requires { IsAlone self.now.tasks }
        ensures { (log : List (Step T)) → StandsFor self.now.tasks log → task_of log 0 ≡ Some result.now }
    {
        self.tasks.task(KEY)
    }

    // The event as mail, where it is any.
    fn post(&mut self, event: Event) -> Result<(), AllocError>
        requires { IsAlone self.old.tasks }
        ensures posts { OnOk result (AllAdd self.old.tasks self.new.tasks (map (posted 0) (mail_of event))) }
        ensures refused { OnErr result (AddsNothing self.old.tasks self.new.tasks) }
        ensures rest { self.new ≡ record self.old { tasks = self.new.tasks } }
        ensures keeps { Keeps self.old.tasks self.new.tasks }
    {
        match event {
            Event::Message(text) => self.tasks.post(KEY, Mail::Text(text)),
            Event::Ended(status) => self.tasks.post(KEY, Mail::Closed(status)),
            Event::Request(_) | Event::Completion | Event::Tick(_) => Ok(()),
        }
    }
}

impl<T: Task + Drop> Errand for TaskErrand<T> {
    ghost use Rattle.std.specs.Prelude.{◌≡◌, true, false};

    ghost watches = { false };

    ghost ready = { λ x. IsAlone x.tasks };

    ghost fits = { λ x tower. HasWord x.ear tower };

    ghost moment = { λ x. x.tasks.moment };

    ghost Origin = { T };

    ghost origin = { λ x. x.first.value };

    ghost listens = { λ _. true };

    ghost short = { λ x. x.short.value };

    ghost cuts = { λ _. false };

    ghost did = { λ x. Tells T.polls x.first.value x.tasks x.ear x.short.value };

    ghost weaker = { λ x. told_weaker T.polls x.first.value x.tasks x.ear x.short.value };

    fn hear(&mut self, event: Event) -> Result<(), AllocError> {
        self.post(event)
    }

    fn go_on(&mut self, bells: &Bells, now: u64) -> Result<(), AllocError> {
        self.tasks.advance(now);
        match self.tasks.run_with(bells, &mut self.ear, POLLS) {
            Ok(_) => Ok(()),
            Err(refused) => {
                self.short = Snapshot::of(&true);
                Err(refused)
            }
        }
    }

    fn next_out(&mut self) -> Option<Utterance> {
        match self.tasks.take_out() {
            Some((_, out)) => Some(Utterance::Says(out)),
            None => None,
        }
    }

    fn listens(&self) -> bool {
        true
    }

    fn cuts(&self) -> bool {
        false
    }

    fn cut(&mut self, status: Status) {
        let _ = status;
    }

    fn end(&self) -> Option<Status> {
        self.tasks.result(KEY)
    }
}
