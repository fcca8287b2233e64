//! How many calls still owe items and entries that are never refused, and for how many an event waits.
ghost use Rattle.std.specs.Prelude.{◌≡◌, ◌+◌, ◌<◌, ◌≤◌, ◌^◌, []};
ghost use Rattle.rpc_calls.specs.Marks.{one_if};
ghost use Rattle.rpc_calls.specs.Owed.{Counts, Recounts, owed_by};

use crate::marks::Marks;

/// How many calls still owe items and entries that are never refused, those of a cancel and those of a finish, and for
/// how many an event waits.
#[derive(Clone, Copy, Debug)]
pub struct Owed {
    /// The calls that can still be cancelled.
    pub uncancelled: u64,
    /// The calls that run.
    pub running: u64,
    /// The calls for which an event waits.
    pub queued: u64,
}

impl Owed {
    /// Those of no call.
    pub fn none() -> Owed
        ensures { result ≡ owed_by [] }
    {
        Owed {
            uncancelled: 0,
            running: 0,
            queued: 0,
        }
    }

    /// A call has changed from the first of these marks to the second.
    pub fn change(&mut self, was: Marks, is: Marks)
        requires { Counts was self.old }
        ensures { Recounts was is self.old self.new }
    {
        self.uncancelled = recount(self.uncancelled, was.uncancelled, is.uncancelled);
        self.running = recount(self.running, was.runs, is.runs);
        self.queued = recount(self.queued, was.queued, is.queued);
    }
}

// The count after one of those counted has changed.
fn recount(count: u64, was: bool, is: bool) -> u64
    requires counted { one_if was ≤ count }
    requires few { count < 2 ^ 32 }
    ensures { result + one_if was ≡ count + one_if is }
{
    let others = if was { count - 1 } else { count };
    if is { others + 1 } else { others }
}
