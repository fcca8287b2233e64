ghost use Rattle.std.specs.Prelude.{◌≡◌, ◌≤◌, length};
ghost use Rattle.transfer_base.specs.declared.limits.TheConstants.{MAX_RESOURCE};
ghost use Rattle.transfer_client.specs.Write.{new_upload, write_offset};

use crate::polling::poll;
use crate::upload::Upload;
use bytes::Bytes;
use std::alloc::{AllocError, Global};
use std::marker::Model;
use task_core::{Cx, Poll, Task};

/// A task that writes a resource to the transfer service, in one session of a call of Write.
///
/// Its mail are the messages of that call, and its end. What it says are the messages to be sent on the call.
#[derive(Debug, Drop)]
pub struct WriteTask {
    alloc: Global,
    session: u32,
    upload: Upload,
}

impl Model for WriteTask {
    ghost use Rattle.transfer_client.specs.Tasks.{Writes};

    ghost Value = { Writes };

    ghost view = { λ t. record { session = t.session; upload = t.upload } };
}

impl WriteTask {
    /// Writes the resource with these bytes, from `offset` on, in bytes. It says nothing before its first poll.
    pub fn new(alloc: Global, session: u32, resource: u32, bytes: Bytes, offset: u64) -> WriteTask
        requires size { length bytes ≤ MAX_RESOURCE }
        requires within { offset ≤ length bytes }
        ensures session { result.session ≡ session }
        ensures upload { result.upload ≡ new_upload resource bytes offset }
    {
        WriteTask {
            alloc,
            session,
            upload: Upload::new(resource, bytes, offset),
        }
    }

    /// Where both ends begin, in bytes: what was agreed, or asked where nothing was.
    pub fn offset(&self) -> u64
        ensures { result ≡ write_offset self.now.upload }
    {
        self.upload.offset()
    }
}

impl Task for WriteTask {
    ghost use Rattle.transfer_client.specs.Tasks.{PollsWrite};

    ghost polls = { PollsWrite };

    fn poll(&mut self, cx: &mut Cx) -> Result<Poll, AllocError> {
        poll(self.alloc, self.session, &mut self.upload, cx)
    }
}
