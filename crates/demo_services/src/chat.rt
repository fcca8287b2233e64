//! The method Chat, with streams in both directions.
ghost use Rattle.std.specs.Prelude.{◌≡◌, IfOk};
ghost use Rattle.demo_services.specs.Chat.{chat_answer};

use crate::answers::{end_call, refuse_length, say, say_nothing};
use bytes::Bytes;
use rpc_handlers::{Answer, Event, MAX_PAYLOAD};
use rpc_ids::Status;
use std::alloc::{AllocError, Global};
use std::marker::Model;

/// A call of Chat, which says each message back until the completion. It has no state.
///
/// A message of more than `MAX_PAYLOAD` bytes ends it with RESOURCE_EXHAUSTED.
#[derive(Debug, Drop)]
pub struct Chat {
    pub(crate) alloc: Global,
}

impl Model for Chat {
    ghost Value = { Unit {0} };

    ghost view = { λ _. tt };
}

impl Chat {
    /// A new call of Chat.
    pub fn new(alloc: Global) -> Chat {
        Chat { alloc }
    }

    /// Answers an event. The only error is want of memory.
    pub fn on(&self, ev: &Event) -> Result<Answer, AllocError>
        ensures { IfOk result (λ a. a ≡ chat_answer ev.now) }
    {
        match ev {
            Event::Message(payload) if payload.len() > MAX_PAYLOAD => Ok(refuse_length(self.alloc)),
            Event::Message(payload) => say(self.alloc, payload.clone()?),
            Event::Completion => Ok(end_call(self.alloc, Status::Okay, Bytes::new())),
            Event::Request(_) | Event::Ended(_) | Event::Tick(_) => Ok(say_nothing(self.alloc)),
        }
    }
}
