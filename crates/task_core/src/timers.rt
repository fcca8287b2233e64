//! The timers of sleeping tasks, in an ordered set.
ghost use Rattle.std.specs.Prelude.{◌≡◌, ◌<◌, true, false, OnOk, IfSome, OnSome, IfNone, [], length};
ghost use Rattle.task_core.specs.Timers.{has_timer, KeepsOthers, KeepsLater, AreLater};

use std::alloc::{AllocError, Global};
use std::collections::BTreeSet;

/// The moments for which tasks have timers, each with the task's key, ordered by the moment and then by the key.
#[derive(Drop)]
pub struct Timers {
    pub set: BTreeSet<(u64, usize)>,
}

impl Timers {
    /// No timer.
    pub fn new(alloc: Global) -> Timers
        ensures { result.set.keys ≡ [] }
    {
        Timers {
            set: BTreeSet::new(alloc),
        }
    }

    /// The task has a timer for this moment.
    pub fn add(&mut self, at: u64, key: usize) -> Result<(), AllocError>
        ensures added { OnOk result (has_timer self.new at key ≡ true) }
        ensures others { KeepsOthers key self.old self.new }
    {
        self.set.insert((at, key))?;
        Ok(())
    }

    /// The task sleeps no more, if it slept until this moment.
    pub fn remove(&mut self, alarm: Option<u64>, key: usize)
        ensures gone { IfSome alarm (λ at. has_timer self.new at key ≡ false) }
        ensures others { KeepsOthers key self.old self.new }
    {
        if let Some(at) = alarm {
            self.set.remove(&(at, key));
        }
    }

    /// Takes out the earliest timer, if its moment has come, and answers the task's key.
    pub fn take_come(&mut self, now: u64) -> Option<usize>
        ensures others { IfSome result (λ key. KeepsOthers key self.old self.new) }
        ensures later { KeepsLater now self.old self.new }
        ensures fewer { OnSome result (length self.new.set.keys < length self.old.set.keys) }
        ensures all { IfNone result (AreLater now self.new) }
        ensures kept { IfNone result (self.new.set.keys ≡ self.old.set.keys) }
    {
        let &(at, _) = self.set.first()?;
        if now < at {
            return None;
        }
        let (_, key) = self.set.pop_first()?;
        Some(key)
    }
}
