//! The unary method Echo.
ghost use Rattle.std.specs.Prelude.{◌≡◌, IfOk};
ghost use Rattle.demo_services.specs.Echo.{echo_answer};

use crate::answers::{end_call, refuse_length, say_nothing};
use rpc_handlers::{Answer, Event, MAX_PAYLOAD};
use rpc_ids::Status;
use std::alloc::{AllocError, Global};
use std::marker::Model;

/// A call of Echo, which ends with the payload of its request. It has no state.
///
/// A payload of more than `MAX_PAYLOAD` bytes ends it with RESOURCE_EXHAUSTED.
#[derive(Debug, Drop)]
pub struct Echo {
    pub(crate) alloc: Global,
}

impl Model for Echo {
    ghost Value = { Unit {0} };

    ghost view = { λ _. tt };
}

impl Echo {
    /// A new call of Echo.
    pub fn new(alloc: Global) -> Echo {
        Echo { alloc }
    }

    /// Answers an event. The only error is want of memory.
    pub fn on(&self, ev: &Event) -> Result<Answer, AllocError>
        ensures { IfOk result (λ a. a ≡ echo_answer ev.now) }
    {
        match ev {
            Event::Request(payload) if payload.len() > MAX_PAYLOAD => Ok(refuse_length(self.alloc)),
            Event::Request(payload) => Ok(end_call(self.alloc, Status::Okay, payload.clone()?)),
            Event::Message(_) | Event::Completion | Event::Ended(_) | Event::Tick(_) => {
                Ok(say_nothing(self.alloc))
            }
        }
    }
}
