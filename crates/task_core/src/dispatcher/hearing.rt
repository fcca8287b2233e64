//! A run that looks for the wakes of other threads.
ghost use Rattle.std.specs.Prelude.{◌≡◌, ◌≢◌, ℕ, ◌+◌, ◌%◌, ◌^◌, ◌<◌, List, ◌∷◌, true, false, Some, None, slice_get, length, MatchOption};
ghost use Rattle.slab.specs.Slab.{get};
ghost use Rattle.task_core.specs.bells.Bells.{Rung, rung_by, HasSums, NoneLost};
ghost use Rattle.task_core.specs.Log.{Step, heard, looks_of, poll_heard};
ghost use Rattle.task_core.specs.Due.{lives, is_due};
ghost use Rattle.task_core.specs.Places.{due_in, lives_in};
ghost use Rattle.task_core.specs.Hearing.{IsSameEar, HearsOne, Scanned, RanHearing};
ghost use Rattle.task_core.specs.Tasks.{StandsFor, HasKey, Keeps};

use crate::bells::{Bells, Ear};
use crate::dispatcher::Dispatcher;
use crate::stop::Stop;
use crate::task::Task;
use std::alloc::AllocError;

impl<T: Task> Dispatcher<T> {
    /// A run as `run_until_stalled`, which loads the words of wakes first: in each turn that of each task that lives, up to
    /// the first that is due. Each key of the dispatcher is below the number of words.
    pub fn run_with(
        &mut self,
        bells: &Bells,
        ear: &mut Ear,
        budget: u64,
    ) -> Result<Stop, AllocError>
        requires own { ear.old.table ≡ bells.now.table }
        requires keys { (key : ℕ) → HasKey self.old key → key < bells.now.table.words }
        ensures ran { (log : List (Step T)) → StandsFor self.old log → looks_of log ≡ ear.old.looks → (new : List (Step T)) × RanHearing T.polls log new self.new budget result × (looks_of new ≡ ear.new.looks) }
        ensures ear { IsSameEar ear.old ear.new }
        ensures keeps { Keeps self.old self.new }
    {
        'turns: for _turn in 0..budget {
            match self.first_heard(bells, ear) {
                None => return Ok(self.idle()),
                Some(key) => self.poll_at(key)?,
            }
        }
        match self.first_heard(bells, ear) {
            None => Ok(self.idle()),
            Some(_) => Ok(Stop::Budget),
        }
    }

    /// Whether a task is due if these are the words of wakes, as `Bells::close` gives them.
    pub fn due_at(&self, words: &[u64], key: u32) -> bool
        requires there { HasKey self.now key }
        requires words { key < length words.now }
        ensures due { (log : List (Step T)) → StandsFor self.now log → (word total : ℕ) → slice_get words.now key ≡ Some word → word ≡ total % 2 ^ 64 → result ≡ is_due (heard key total ∷ log) key }
        ensures rung { (log : List (Step T)) → StandsFor self.now log → (word total : ℕ) → slice_get words.now key ≡ Some word → word ≡ total % 2 ^ 64 → poll_heard log key < total → total < poll_heard log key + 2 ^ 64 → lives log key ≡ true → result ≡ true }
        // No wake between the last poll and the end is lost, where they are fewer than 2^64.
        ensures none_lost { (log : List (Step T)) (bells : List Rung) → StandsFor self.now log → HasSums bells words.now → NoneLost (looks_of log) bells words.now → poll_heard log key ≢ rung_by key bells → rung_by key bells < poll_heard log key + 2 ^ 64 → lives log key ≡ true → result ≡ true }
    {
        let word = words[key as usize];
        self.places[key as usize].is_due_with(word)
    }

    // Loads the words of the tasks that live, up to the first that is due by them, and answers its key.
    fn first_heard(&mut self, bells: &Bells, ear: &mut Ear) -> Option<usize>
        requires own { ear.old.table ≡ bells.now.table }
        requires keys { (key : ℕ) → HasKey self.old key → key < bells.now.table.words }
        ensures first { MatchOption result ((k : ℕ) → due_in (get self.new.places k) ≡ false) (λ key. (due_in (get self.new.places key) ≡ true) × ((k : ℕ) → k < key → due_in (get self.new.places k) ≡ false)) }
        ensures scanned { MatchOption result ((upto : ℕ) × ((k : ℕ) → HasKey self.new k → k < upto) × Scanned upto self.old self.new ear.old.looks ear.new.looks) (λ key. Scanned (key + 1) self.old self.new ear.old.looks ear.new.looks) }
        ensures ear { IsSameEar ear.old ear.new }
        ensures keeps { Keeps self.old self.new }
    {
        'keys: for key in 0..self.places.capacity() {
            if self.hear_at(bells, ear, key) {
                return Some(key);
            }
        }
        None
    }

    // Loads the word of a task, if it lives, and answers whether it is due.
    fn hear_at(&mut self, bells: &Bells, ear: &mut Ear, key: usize) -> bool
        requires own { ear.old.table ≡ bells.now.table }
        requires keys { HasKey self.old key → key < bells.now.table.words }
        ensures due { result ≡ due_in (get self.new.places key) }
        ensures others { (k : ℕ) → k ≢ key → get self.new.places k ≡ get self.old.places k }
        ensures hears { HearsOne key self.old self.new ear.old.looks ear.new.looks }
        ensures ear { IsSameEar ear.old ear.new }
        ensures keeps { Keeps self.old self.new }
    {
        if !self.lives_at(key) {
            return false;
        }
        let word = bells.load(ear, key);
        self.places[key].latest = word;
        self.is_due_at(key)
    }
}
