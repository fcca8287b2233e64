//! Copies of an answer, made while memory may still be refused.
ghost use Rattle.std.specs.Prelude.{◌≡◌, IfOk};

use rpc_handlers::{Answer, End, Out};
use std::alloc::{AllocError, Global};
use std::collections::VecDeque;

/// An answer's items and its end, to be made into items that go out.
#[derive(Drop)]
pub struct Copies {
    pub outs: VecDeque<Out>,
    pub end: Option<End>,
}

/// A copy of a message or of a store action.
pub fn copy_out(out: &Out) -> Result<Out, AllocError>
    ensures { IfOk result (λ copy. copy ≡ out.now) }
{
    out.clone()
}

/// A copy of an answer.
pub fn copy_answer(alloc: Global, answer: &Answer) -> Result<Copies, AllocError>
    ensures items { IfOk result (λ k. k.outs.items ≡ answer.now.items) }
    ensures end { IfOk result (λ k. k.end ≡ answer.now.end) }
{
    let mut outs = VecDeque::new(alloc);
    for out in answer.items.as_slice() {
        outs.push_back(out.clone()?)?;
    }
    let end = answer.end.clone()?;
    Ok(Copies { outs, end })
}
