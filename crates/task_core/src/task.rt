//! What a task is.
ghost use Rattle.std.specs.Prelude.{◌≡◌, Ok};
ghost use Rattle.task_core.specs.Visit.{Visit, visit_of, IsFresh, Uses, AwaitsSomething};

use crate::cx::Cx;
use rpc_ids::Status;
use std::alloc::AllocError;

/// How far a task has come.
#[derive(Clone, Copy, Debug, PartialEq, Eq)]
pub enum Poll {
    /// The task has ended with this status, and isn't polled again.
    Ready(Status),
    /// It goes on when what it waits for has come.
    Pending,
}

/// Work that goes on a step at a time.
pub trait Task {
    /// What one poll may be: the task before it, what the poll was given and gave, and the task after it.
    ghost polls: { Self → Visit → Self → Type 0 };

    /// Goes on as far as it can without waiting. A poll that answers `Pending` has called `Cx::wait_mail` or
    /// `Cx::sleep_until`. After a poll that found too little memory the task is polled again: what it said stays, and the
    /// mail that it took is gone.
    fn poll(&mut self, cx: &mut Cx) -> Result<Poll, AllocError>
        requires { IsFresh cx.old }
        ensures polls { polls self.old (visit_of cx.old cx.new result) self.new }
        ensures uses { Uses cx.old cx.new }
        ensures waits { result ≡ Ok Poll.Pending → AwaitsSomething cx.new };
}
