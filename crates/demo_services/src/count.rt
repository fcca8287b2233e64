//! The method Count, with a stream of responses.
ghost use Rattle.std.specs.Prelude.{◌≡◌, IfOk};
ghost use Rattle.demo_services.specs.Count.{count_answer, count_to};

use crate::answers::{end_call, say_nothing};
use bytes::Bytes;
use rpc_handlers::{Answer, End, Event, Out, Outs};
use rpc_ids::Status;
use std::alloc::{AllocError, Global};
use std::marker::Model;

/// How far Count counts at most.
pub const MAX_COUNT: u8 = 64;

/// A call of Count, which is asked with one byte n and says n messages of one byte each, 1 to n. It has no state.
///
/// A request of another length, or of a byte above `MAX_COUNT`, ends it with INVALID_ARGUMENT.
#[derive(Debug, Drop)]
pub struct Count {
    pub(crate) alloc: Global,
}

impl Model for Count {
    ghost Value = { Unit {0} };

    ghost view = { λ _. tt };
}

impl Count {
    /// A new call of Count.
    pub fn new(alloc: Global) -> Count {
        Count { alloc }
    }

    /// Answers an event. The only error is want of memory.
    pub fn on(&self, ev: &Event) -> Result<Answer, AllocError>
        ensures { IfOk result (λ a. a ≡ count_answer ev.now) }
    {
        match ev {
            Event::Request(payload) => self.count(payload.as_slice()),
            Event::Message(_) | Event::Completion | Event::Ended(_) | Event::Tick(_) => {
                Ok(say_nothing(self.alloc))
            }
        }
    }

    fn count(&self, payload: &[u8]) -> Result<Answer, AllocError>
        ensures { IfOk result (λ a. a ≡ count_answer (Event.Request payload.now)) }
    {
        match payload {
            [n] if *n <= MAX_COUNT => Ok(Answer {
                items: numbers_to(self.alloc, *n)?,
                end: Some(End {
                    status: Status::Okay,
                    payload: Bytes::new(),
                }),
            }),
            _ => Ok(end_call(self.alloc, Status::InvalidArgument, Bytes::new())),
        }
    }
}

/// Messages of one byte each, 1 to n.
fn numbers_to(alloc: Global, n: u8) -> Result<Outs, AllocError>
    ensures { IfOk result (λ items. items ≡ count_to n) }
{
    let mut items = Outs::new(alloc);
    for below in 0..n {
        let number = Bytes::copy_from_slice(alloc, &[below + 1])?;
        items.push(Out::Say(number))?;
    }
    Ok(items)
}
