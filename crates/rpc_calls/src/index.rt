//! What a table keeps beside the states of its calls, so that it needn't go over all of them.
ghost use Rattle.std.specs.Prelude.{[]};
ghost use Rattle.rpc_calls.specs.Indexed.{CanReindex, IsIndexed, Reindexes};

use crate::marks::Marks;
use crate::owed::Owed;
use crate::waiting_calls::WaitingCalls;
use std::alloc::Global;

/// How many calls can still be cancelled, run, and have an event that waits, and the list of those that can run next.
#[derive(Drop)]
pub struct Index {
    pub owed: Owed,
    pub waiting: WaitingCalls,
}

impl Index {
    /// That of no call.
    pub fn new(alloc: Global) -> Index
        ensures { IsIndexed [] result }
    {
        Index {
            owed: Owed::none(),
            waiting: WaitingCalls::new(alloc),
        }
    }

    /// This call has changed from the first of these marks to the second.
    pub fn change(&mut self, call: u32, was: Marks, is: Marks)
        requires { CanReindex call was self.old }
        ensures { Reindexes call was is self.old self.new }
    {
        self.owed.change(was, is);
        self.waiting.change(call, was.since, is.since);
    }
}
