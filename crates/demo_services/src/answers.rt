//! The answers that the methods share.
ghost use Rattle.std.specs.Prelude.{◌≡◌, IfOk};
ghost use Rattle.demo_services.specs.Answers.{empty_answer, says, ends, too_long};

use bytes::Bytes;
use rpc_handlers::{Answer, End, Out, Outs};
use rpc_ids::Status;
use std::alloc::{AllocError, Global};

/// Nothing is said, and the call goes on.
pub(crate) fn say_nothing(alloc: Global) -> Answer
    ensures { result ≡ empty_answer }
{
    Answer {
        items: Outs::new(alloc),
        end: None,
    }
}

/// One message, and the call goes on.
pub(crate) fn say(alloc: Global, payload: Bytes) -> Result<Answer, AllocError>
    ensures { IfOk result (λ a. a ≡ says payload) }
{
    let mut items = Outs::new(alloc);
    items.push(Out::Say(payload))?;
    Ok(Answer { items, end: None })
}

/// The end of the call, with no message before it.
pub(crate) fn end_call(alloc: Global, status: Status, payload: Bytes) -> Answer
    ensures { result ≡ ends status payload }
{
    Answer {
        items: Outs::new(alloc),
        end: Some(End { status, payload }),
    }
}

/// The end of a call whose payload is too long to be sent.
pub(crate) fn refuse_length(alloc: Global) -> Answer
    ensures { result ≡ too_long }
{
    end_call(alloc, Status::ResourceExhausted, Bytes::new())
}
