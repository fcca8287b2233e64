//! The task of a transfer, whichever way its bytes go.
ghost use Rattle.std.specs.Prelude.{◌≡◌};
ghost use Rattle.task_core.specs.Visit.{AwaitsSomething, IsFresh, Uses, visit_of};
ghost use Rattle.link_world.specs.client.Speaking.{PollsWay, is_read, offset_in, transfer_in};

use std::alloc::AllocError;
use task_core::{Cx, Poll, Task};
use transfer_client::{ReadTask, WriteTask};

/// A read, or a write.
#[derive(Drop)]
pub enum Way {
    Read(ReadTask),
    Write(WriteTask),
}

impl Way {
    /// Whether it reads from the service.
    pub fn reads(&self) -> bool
        ensures { result ≡ is_read (transfer_in self.now) }
    {
        match self {
            Way::Read(_) => true,
            Way::Write(_) => false,
        }
    }

    /// Where both ends begin, in bytes: what was agreed, or asked where nothing was.
    pub fn offset(&self) -> u64
        ensures { result ≡ offset_in (transfer_in self.now) }
    {
        match self {
            Way::Read(task) => task.offset(),
            Way::Write(task) => task.offset(),
        }
    }

    // A poll of it.
    fn poll(&mut self, cx: &mut Cx) -> Result<Poll, AllocError>
        requires { IsFresh cx.old }
        ensures polls { PollsWay self.old (visit_of cx.old cx.new result) self.new }
        ensures uses { Uses cx.old cx.new }
        ensures waits { result ≡ Ok Poll.Pending → AwaitsSomething cx.new }
    {
        match self {
            Way::Read(task) => task.poll(cx),
            Way::Write(task) => task.poll(cx),
        }
    }
}

/// The task of a transfer.
#[derive(Drop)]
pub struct TransferTask {
    pub way: Way,
    /// Its last poll found too little memory.
    pub is_short: bool,
}

impl Task for TransferTask {
    ghost use Rattle.link_world.specs.client.Speaking.{PollsTransfer};

    ghost polls = { PollsTransfer };

    fn poll(&mut self, cx: &mut Cx) -> Result<Poll, AllocError> {
        let answer = self.way.poll(cx);
        self.is_short = answer.is_err();
        answer
    }
}
