//! A run: turn by turn the first task that is due is polled.
ghost use Rattle.std.specs.Prelude.{◌≡◌, ℕ, ◌<◌, List, true, false, MatchOption, MatchBool, is_err};
ghost use Rattle.task_core.specs.Log.{Step};
ghost use Rattle.task_core.specs.Due.{IsFirstDue};
ghost use Rattle.task_core.specs.Places.{lives_in, due_in};
ghost use Rattle.task_core.specs.Runs.{Turn, Ran, IsIdle};
ghost use Rattle.task_core.specs.Tasks.{StandsFor, Keeps};
ghost use Rattle.slab.specs.Slab.{get};

use crate::dispatcher::Dispatcher;
use crate::stop::Stop;
use crate::task::Task;
use std::alloc::AllocError;

impl<T: Task> Dispatcher<T> {
    /// Polls tasks that are due, the lowest key first, one in each turn, at most `budget` times. Where a poll finds too
    /// little memory, or its timer does, the run ends, and the next one polls that task again.
    pub fn run_until_stalled(&mut self, budget: u64) -> Result<Stop, AllocError>
        ensures ran { (log : List (Step T)) → StandsFor self.old log → Ran T.polls log self.new budget result }
        ensures keeps { Keeps self.old self.new }
    {
        'turns: for _turn in 0..budget {
            match self.first_due() {
                None => return Ok(self.idle()),
                Some(key) => self.poll_at(key)?,
            }
        }
        match self.first_due() {
            None => Ok(self.idle()),
            Some(_) => Ok(Stop::Budget),
        }
    }

    // Polls the first task that is due, which has this key.
    pub(crate) fn poll_at(&mut self, key: usize) -> Result<(), AllocError>
        requires { due_in (get self.old.places key) ≡ true }
        ensures keeps { Keeps self.old self.new }
        ensures turn { (log : List (Step T)) → StandsFor self.old log → IsFirstDue log key → (new : List (Step T)) × Turn T.polls log new (is_err result) × StandsFor self.new new }
    {
        self.places[key].poll(&mut self.cx, &mut self.timers, key)
    }

    // Why a run stops where no task is due.
    pub(crate) fn idle(&self) -> Stop
        ensures { IsIdle (λ key. lives_in (get self.now.places key)) result }
    {
        if self.any_lives() {
            Stop::Stalled
        } else {
            Stop::AllDone
        }
    }

    // The key of the first task that is due.
    fn first_due(&self) -> Option<usize>
        ensures { MatchOption result ((k : ℕ) → due_in (get self.now.places k) ≡ false) (λ key. (due_in (get self.now.places key) ≡ true) × ((k : ℕ) → k < key → due_in (get self.now.places k) ≡ false)) }
    {
        'keys: for key in 0..self.places.capacity() {
            if self.is_due_at(key) {
                return Some(key);
            }
        }
        None
    }

    // Whether a task lives.
    fn any_lives(&self) -> bool
        ensures { MatchBool result ((key : ℕ) × (lives_in (get self.now.places key) ≡ true)) ((k : ℕ) → lives_in (get self.now.places k) ≡ false) }
    {
        'keys: for key in 0..self.places.capacity() {
            if self.lives_at(key) {
                return true;
            }
        }
        false
    }

    // Whether there is a task with this key, and it is due.
    pub(crate) fn is_due_at(&self, key: usize) -> bool
        ensures { result ≡ due_in (get self.now.places key) }
    {
        match self.places.get(key) {
            Some(place) => place.is_due(),
            None => false,
        }
    }

    // Whether there is a task with this key, and it lives.
    pub(crate) fn lives_at(&self, key: usize) -> bool
        ensures { result ≡ lives_in (get self.now.places key) }
    {
        match self.places.get(key) {
            Some(place) => place.result.is_none(),
            None => false,
        }
    }
}
