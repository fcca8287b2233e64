ghost use Rattle.std.specs.Prelude.{◌≡◌, ◌≤◌};
ghost use Rattle.transfer_base.specs.declared.limits.TheConstants.{MAX_RESOURCE};
ghost use Rattle.transfer_client.specs.Read.{new_download, read_offset};

use crate::download::Download;
use crate::polling::poll;
use std::alloc::{AllocError, Global};
use std::marker::Model;
use task_core::{Cx, Poll, Task};
use transfer_base::Tuning;

/// A task that reads a resource from the transfer service, in one session of a call of Read.
///
/// Its mail are the messages of that call, and its end. What it says are the messages to be sent on the call, and what is
/// to be done with the store: the resource is whole at `Commit`, which comes before the end `Okay`, unless the service
/// tells that end first.
#[derive(Debug, Drop)]
pub struct ReadTask {
    alloc: Global,
    session: u32,
    download: Download,
}

impl Model for ReadTask {
    ghost use Rattle.transfer_client.specs.Tasks.{Reads};

    ghost Value = { Reads };

    ghost view = { λ t. record { session = t.session; download = t.download } };
}

impl ReadTask {
    /// Reads the resource from `offset` on, in bytes. It says nothing before its first poll.
    pub fn new(alloc: Global, session: u32, resource: u32, offset: u64, tuning: Tuning) -> ReadTask
        requires { offset ≤ MAX_RESOURCE }
        ensures session { result.session ≡ session }
        ensures download { result.download ≡ new_download resource offset tuning.window tuning.chunk }
    {
        ReadTask {
            alloc,
            session,
            download: Download::new(resource, offset, tuning),
        }
    }

    /// Where both ends begin, in bytes: what was agreed, or asked where nothing was.
    pub fn offset(&self) -> u64
        ensures { result ≡ read_offset self.now.download }
    {
        self.download.offset()
    }
}

impl Task for ReadTask {
    ghost use Rattle.transfer_client.specs.Tasks.{PollsRead};

    ghost polls = { PollsRead };

    fn poll(&mut self, cx: &mut Cx) -> Result<Poll, AllocError> {
        poll(self.alloc, self.session, &mut self.download, cx)
    }
}
