//! The methods Read and Write of the transfer service.
ghost use Rattle.std.specs.Prelude.{◌≡◌, false, [], IfOk, OnOk, OnErr};
ghost use Rattle.rpc_handlers.specs.Limits.{is_past_limits};
ghost use Rattle.transfer_resume.specs.Book.{new_book};
ghost use Rattle.transfer_chunk.specs.Reading.{chunk_of};
ghost use Rattle.transfer_resume.specs.Limits.{IsWithin};
ghost use Rattle.demo_services.specs.Answers.{ends};
ghost use Rattle.demo_services.specs.Transfer.{giving, message_after, message_answer, transfer_after, transfer_answer, transfer_memo};

use crate::answers::say_nothing;
use bytes::Bytes;
use link_io::Shelf;
use rpc_handlers::{Answer, End, Event, Memo, Outs, Parts, Words};
use rpc_ids::Status;
use std::alloc::{AllocError, Global};
use std::marker::Model;
use transfer_chunk::{ChunkRef, Tuning};
use transfer_resume::{Sessions, Side};

const TRANSFER_STATE: u64 = 4;

/// A call of Read or of Write, seen as all its sessions.
///
/// Each message is a chunk. The completion and the end of the call leave all sessions.
#[derive(Debug, Drop)]
pub struct Transfer {
    alloc: Global,
    sessions: Sessions,
}

impl Model for Transfer {
    ghost use Rattle.transfer_resume.specs.Book.{Book};

    ghost Value = { Book };

    ghost view = { λ t. t.sessions };
}

impl Transfer {
    /// A call without sessions: Read sends what the shelf has, and Write goes on from what is left there.
    pub fn new(
        alloc: Global,
        side: Side,
        shelf: Shelf,
        tuning: Tuning,
    ) -> Result<Transfer, AllocError>
        ensures { IfOk result (λ t. t ≡ new_book side shelf tuning.window tuning.chunk) }
    {
        Ok(Transfer {
            alloc,
            sessions: Sessions::new(alloc, side, shelf, tuning)?,
        })
    }

    /// Answers an event. The only error is want of memory; the sessions then stay.
    pub fn on(&mut self, ev: &Event) -> Result<Answer, AllocError>
        ensures answer { IfOk result (λ a. a ≡ transfer_answer self.old ev.now) }
        ensures limits { IfOk result (λ a. is_past_limits a ≡ false) }
        ensures moved { OnOk result (self.new ≡ transfer_after self.old ev.now) }
        ensures err { OnErr result (self.new ≡ self.old) }
    {
        match ev {
            Event::Message(payload) => self.hear(payload),
            Event::Completion => Ok(ending(self.sessions.on_end()?)),
            Event::Ended(_) => Ok(giving(self.sessions.on_end()?)),
            Event::Tick(now) => Ok(giving(self.sessions.on_tick(*now)?)),
            Event::Request(_) => Ok(say_nothing(self.alloc)),
        }
    }

    // A message is a chunk; one that is malformed is ignored.
    fn hear(&mut self, payload: &Bytes) -> Result<Answer, AllocError>
        ensures answer { IfOk result (λ a. a ≡ message_answer self.old (chunk_of payload.now)) }
        ensures limits { IfOk result (λ a. is_past_limits a ≡ false) }
        ensures moved { OnOk result (self.new ≡ message_after self.old (chunk_of payload.now)) }
        ensures err { OnErr result (self.new ≡ self.old) }
    {
        match ChunkRef::read(payload.as_slice()) {
            Ok(chunk) => Ok(giving(self.sessions.on_chunk(&chunk)?)),
            Err(_) => Ok(say_nothing(self.alloc)),
        }
    }

    /// Its state as plain data.
    pub fn memo(&self) -> Result<Memo, AllocError>
        ensures { IfOk result (λ m. m ≡ transfer_memo self.now) }
    {
        let mut words = Words::new(self.alloc);
        let mut parts = Parts::new(self.alloc);
        words.push(TRANSFER_STATE)?;
        self.sessions.add_to(&mut words, &mut parts)?;
        Ok(Memo { words, parts })
    }
}

// These items, and the call goes on.
#[tactic(auto, using(crate::proofs::Limits::within_limits))]
fn giving(items: Outs) -> Answer
    ensures answer { result ≡ giving items }
    ensures limits { IsWithin items → is_past_limits result ≡ false }
{
    Answer { items, end: None }
}

// These items, and the call ends well.
#[tactic(auto, using(crate::proofs::Limits::within_limits))]
fn ending(items: Outs) -> Answer
    ensures answer { result ≡ record (ends Status.Okay []) { items = items } }
    ensures limits { IsWithin items → is_past_limits result ≡ false }
{
    let end = End {
        status: Status::Okay,
        payload: Bytes::new(),
    };
    Answer {
        items,
        end: Some(end),
    }
}
