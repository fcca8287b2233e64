//! The dispatcher.
ghost use Rattle.std.specs.Prelude.{◌≡◌, ◌↔◌, ℕ, ◌<◌, ◌≤◌, List, [], ◌++◌, Some, IsSome, IfOk, IfErr, OnOk, OnErr, option_to_list};
ghost use Rattle.task_core.specs.Log.{Step, added, posted, woken, advanced, took, task_of};
ghost use Rattle.task_core.specs.Due.{result_of};
ghost use Rattle.task_core.specs.Tasks.{StandsFor, HasKey, has_key, next_key, task_count, Keeps, Adds, AddsNothing};

mod hearing;
mod polling;
mod timing;

use crate::cx::Cx;
use crate::mail::Mail;
use crate::place::Place;
use crate::stop::TaskRefused;
use crate::task::Task;
use crate::timers::Timers;
use rpc_handlers::Out;
use rpc_ids::Status;
use slab::Slab;
use std::alloc::{AllocError, Global};
use std::marker::Model;
use timing::come_all;

/// How many tasks a dispatcher takes in all. A task that has ended keeps its key, and counts.
pub const MAX_TASKS: usize = 1024;

/// Tasks under keys, polled when they are due.
///
/// It keeps no record of what happened. Contracts speak of every list of steps for which it stands (`StandsFor`): what
/// those say of a task, the dispatcher does.
pub struct Dispatcher<T> {
    alloc: Global,
    places: Slab<Place<T>>,
    timers: Timers,
    cx: Cx,
}

impl<T: Drop> Drop for Dispatcher<T> {
    fn drop(self) {
        let Self {
            alloc: _,
            places: _,
            timers: _,
            cx: _,
        } = self;
    }
}

impl<T> Model for Dispatcher<T> {
    ghost use Rattle.task_core.specs.Context.{all_outs};
    ghost use Rattle.task_core.specs.Tasks.{Tasks, HasTimers};

    ghost Value = { Tasks T };

    ghost view = { λ d. record { moment = d.cx.moment; places = d.places; outs = all_outs d.cx } };

    ghost invariant = { λ d. HasTimers d.places d.timers };
}

impl<T: Task> Dispatcher<T> {
    /// Without a task, at moment 0. The first key is 0.
    pub fn new(alloc: Global) -> Result<Dispatcher<T>, AllocError>
        ensures stands { IfOk result (λ tasks. StandsFor tasks []) }
        ensures first { IfOk result (λ tasks. next_key tasks ≡ 0) }
        ensures moment { IfOk result (λ tasks. tasks.moment ≡ 0) }
    {
        Ok(Dispatcher {
            alloc,
            places: Slab::new(alloc),
            timers: Timers::new(alloc),
            cx: Cx::new(alloc),
        })
    }

    /// Takes a task in, and answers its key. A new task is due. A task that isn't taken in comes back.
    pub fn add(&mut self, task: T) -> Result<usize, (T, TaskRefused)>
        ensures key { IfOk result (λ key. key ≡ next_key self.old) }
        ensures new_key { IfOk result (λ key. HasKey self.old key → ⊥) }
        ensures room { OnOk result (task_count self.old < 1024) }
        ensures adds { IfOk result (λ key. Adds self.old self.new (added key task)) }
        ensures there { IfOk result (λ key. HasKey self.new key) }
        ensures keys { (key : ℕ) → HasKey self.old key → HasKey self.new key }
        ensures moment { self.new.moment ≡ self.old.moment }
        ensures task { IfErr result (λ refused. refused.0 ≡ task) }
        ensures full { IfErr result (λ refused. (refused.1 ≡ TaskRefused.Full) ↔ (1024 ≤ task_count self.old)) }
        ensures refused { OnErr result (AddsNothing self.old self.new) }
    {
        if self.places.len() >= MAX_TASKS {
            return Err((task, TaskRefused::Full));
        }
        match self.places.insert(Place::new(self.alloc, task)) {
            Ok(key) => Ok(key),
            Err(failed) => Err((failed.value.into_task(), TaskRefused::Memory)),
        }
    }

    /// Gives a task mail, after what it has. For a task that has ended nothing changes.
    pub fn post(&mut self, key: usize, mail: Mail) -> Result<(), AllocError>
        requires { HasKey self.old key }
        ensures posts { OnOk result (Adds self.old self.new (posted key mail)) }
        ensures refused { OnErr result (AddsNothing self.old self.new) }
        ensures ended { (log : List (Step T)) → StandsFor self.old log → IsSome (result_of log key) → self.new ≡ self.old }
        ensures keeps { Keeps self.old self.new }
    {
        self.places[key].post(mail)?;
        Ok(())
    }

    /// Makes a task due. For a task that has ended nothing changes.
    pub fn wake(&mut self, key: usize)
        requires { HasKey self.old key }
        ensures wakes { Adds self.old self.new (woken key) }
        ensures ended { (log : List (Step T)) → StandsFor self.old log → IsSome (result_of log key) → self.new ≡ self.old }
        ensures keeps { Keeps self.old self.new }
    {
        self.places[key].wake();
    }

    /// The time goes on to this moment, in milliseconds. Tasks that sleep until it or an earlier one are due.
    pub fn advance(&mut self, now: u64)
        requires { self.old.moment ≤ now }
        ensures advances { Adds self.old self.new (advanced now) }
        ensures moment { self.new.moment ≡ now }
        ensures keys { (key : ℕ) → has_key self.new key ≡ has_key self.old key }
    {
        self.cx.set_moment(now);
        come_all(&mut self.places, &mut self.timers, now);
    }

    /// Takes out the oldest item that a task said, with the task's key.
    pub fn take_out(&mut self) -> Option<(usize, Out)>
        ensures first { self.old.outs ≡ option_to_list result ++ self.new.outs }
        ensures takes { Adds self.old self.new took }
        ensures keeps { Keeps self.old self.new }
    {
        self.cx.take_out()
    }

    /// The task as its last poll left it; one that wasn't polled yet as it was added.
    pub fn task(&self, key: usize) -> &T
        requires { HasKey self.now key }
        ensures { (log : List (Step T)) → StandsFor self.now log → task_of log key ≡ Some result.now }
    {
        &self.places[key].task
    }

    /// The status with which a task has ended; `None` while it lives.
    pub fn result(&self, key: usize) -> Option<Status>
        requires { HasKey self.now key }
        ensures { (log : List (Step T)) → StandsFor self.now log → result ≡ result_of log key }
    {
        self.places[key].result
    }
}
