//! The method Sum, with a stream of requests.
ghost use Rattle.std.specs.Prelude.{◌≡◌, ◌+◌, ◌%◌, ◌^◌, sum, IfOk, OnOk, OnErr};
ghost use Rattle.demo_services.specs.Sum.{sum_answer, total_after};

use crate::answers::{end_call, say_nothing};
use bytes::Bytes;
use rpc_handlers::{Answer, Event};
use rpc_ids::Status;
use std::alloc::{AllocError, Global};
use std::marker::Model;

/// A call of Sum, seen as its total: the sum of the bytes of its messages so far, modulo 2^64.
///
/// The completion ends it with the total in eight bytes, of which the highest is the first.
#[derive(Debug, Drop)]
pub struct Sum {
    pub(crate) alloc: Global,
    total: u64,
}

impl Model for Sum {
    ghost use Rattle.std.specs.Prelude.{ℕ};

    ghost Value = { ℕ };

    ghost view = { λ s. s.total };
}

impl Sum {
    /// A new call of Sum, whose total is 0.
    pub fn new(alloc: Global) -> Sum
        ensures { result ≡ 0 }
    {
        Sum { alloc, total: 0 }
    }

    /// The sum of the bytes so far, modulo 2^64.
    pub fn total(&self) -> u64
        ensures { result ≡ self.now }
    {
        self.total
    }

    /// Answers an event. The only error is want of memory; the total then stays.
    pub fn on(&mut self, ev: &Event) -> Result<Answer, AllocError>
        ensures answer { IfOk result (λ a. a ≡ sum_answer self.old ev.now) }
        ensures moved { OnOk result (self.new ≡ total_after self.old ev.now) }
        ensures err { OnErr result (self.new ≡ self.old) }
    {
        match ev {
            Event::Message(payload) => {
                self.total = add_bytes(self.total, payload.as_slice());
                Ok(say_nothing(self.alloc))
            }
            Event::Completion => {
                let payload = Bytes::copy_from_slice(self.alloc, &self.total.to_be_bytes())?;
                Ok(end_call(self.alloc, Status::Okay, payload))
            }
            Event::Request(_) | Event::Ended(_) | Event::Tick(_) => Ok(say_nothing(self.alloc)),
        }
    }
}

/// A total with these bytes added, modulo 2^64.
fn add_bytes(mut total: u64, bytes: &[u8]) -> u64
    ensures { result ≡ (total + sum bytes.now) % 2 ^ 64 }
{
    for byte in bytes {
        total = total.wrapping_add(u64::from(*byte));
    }
    total
}
