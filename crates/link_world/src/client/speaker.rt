//! A transfer under way: its task, and how it is polled.
ghost use Rattle.std.specs.Prelude.{◌≡◌, ◌≤◌, None, IfOk};
ghost use Rattle.link_laws.specs.world.Client.{task_polled, transfer_says};
ghost use Rattle.link_laws.specs.world.Lines.{line_telling, transfer_end};
ghost use Rattle.link_world.specs.client.Speaking.{is_read, mail_among, resource_in, session_in, transfer_in};

use crate::client::polling::{poll_once, post_all, take_outs};
use crate::client::transfer_task::{TransferTask, Way};
use link_script::ReportLine;
use rpc_handlers::{Event, Out};
use rpc_ids::Status;
use std::alloc::{AllocError, Global};
use std::marker::Model;
use task_core::{Dispatcher, TaskRefused};

/// A transfer under way: the task that speaks in a session, through a call of the client.
#[derive(Drop)]
pub struct Speaker {
    alloc: Global,
    call: u32,
    session: u32,
    resource: u32,
    polled_at: u64,
    tasks: Dispatcher<TransferTask>,
    key: usize,
}

impl Model for Speaker {
    ghost use Rattle.slab.specs.Slab.{get};
    ghost use Rattle.link_world.specs.client.Speaking.{IsSpeaker, Speaking, transfer_at};

    ghost Value = { Speaking };

    ghost view = { λ s. record {
      task = record { call = s.call; session = s.session; transfer = transfer_at (get s.tasks.places s.key) };
      polled_at = s.polled_at;
    } };

    ghost invariant = { λ s. IsSpeaker s.session s.resource s.polled_at s.tasks s.key };
}

impl Speaker {
    /// A transfer of this resource, whose task wasn't polled yet.
    pub(crate) fn new(
        alloc: Global,
        call: u32,
        session: u32,
        resource: u32,
        way: Way,
    ) -> Result<Speaker, AllocError>
        requires is_of { session_in way ≡ session }
        requires is_for { resource_in (transfer_in way) ≡ resource }
        requires goes_on { transfer_end (transfer_in way) ≡ None }
        ensures task { IfOk result (λ s. s.task ≡ record { call = call; session = session; transfer = transfer_in way }) }
        ensures unpolled { IfOk result (λ s. s.polled_at ≡ 0) }
    {
        let task = TransferTask {
            way,
            is_short: false,
        };
        let mut tasks = Dispatcher::new(alloc)?;
        match tasks.add(task) {
            Ok(key) => Ok(Speaker {
                alloc,
                call,
                session,
                resource,
                polled_at: 0,
                tasks,
                key,
            }),
            Err((_, TaskRefused::Memory)) => Err(AllocError),
            Err((_, TaskRefused::Full)) => unreachable!(),
        }
    }

    /// The call of the client through which it speaks.
    pub fn call(&self) -> u32
        ensures { result ≡ self.now.task.call }
    {
        self.call
    }

    /// The id of the session that the transfer speaks in.
    pub fn session(&self) -> u32
        ensures { result ≡ self.now.task.session }
    {
        self.session
    }

    /// Whether it reads from the service.
    pub fn reads(&self) -> bool
        ensures { result ≡ is_read self.now.task.transfer }
    {
        self.tasks.task(self.key).way.reads()
    }

    /// The status with which it ended.
    pub fn end(&self) -> Option<Status>
        ensures { result ≡ transfer_end self.now.task.transfer }
    {
        self.tasks.result(self.key)
    }

    /// The line that tells of it where it has ended so, with this length.
    pub fn line(&self, status: Status, length: u64) -> ReportLine
        ensures { result ≡ line_telling self.now.task.transfer status length }
    {
        let resource = self.resource;
        let way = &self.tasks.task(self.key).way;
        let from = way.offset();
        if way.reads() {
            ReportLine::Read {
                resource,
                from,
                status,
                length,
            }
        } else {
            ReportLine::Write {
                resource,
                from,
                status,
                length,
            }
        }
    }

    /// The task is polled once, at this moment, with the mail to its call among these events. Answers what it says, too.
    pub(crate) fn poll(
        self,
        events: &[(u32, Event)],
        now: u64,
    ) -> Result<(Speaker, Vec<Out>), AllocError>
        requires { self.polled_at ≤ now }
        ensures task { IfOk result (λ r. r.0.task ≡ task_polled self.task (mail_among self.task.call events.now) now) }
        ensures at { IfOk result (λ r. r.0.polled_at ≡ now) }
        ensures says { IfOk result (λ r. r.1.items ≡ transfer_says self.task.session self.task.transfer (mail_among self.task.call events.now) now) }
    {
        let Speaker {
            alloc,
            call,
            session,
            resource,
            polled_at: _,
            mut tasks,
            key,
        } = self;
        post_all(&mut tasks, key, call, events)?;
        poll_once(&mut tasks, key, now)?;
        let outs = take_outs(alloc, &mut tasks)?;
        let speaker = Speaker {
            alloc,
            call,
            session,
            resource,
            polled_at: now,
            tasks,
            key,
        };
        Ok((speaker, outs))
    }
}
