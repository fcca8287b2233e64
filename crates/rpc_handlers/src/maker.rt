//! Who makes the handlers of the calls that arrive.
ghost use Rattle.std.specs.Prelude.{◌≡◌, IfOk, IsErr};
ghost use Rattle.rpc_handlers.specs.declared.event.Memo.{Memo};
ghost use Rattle.rpc_handlers.specs.HandlerRule.{empty_memo};

use crate::acts::Handler;
use crate::event::Memo;
use crate::lists::{Parts, Words};
use rpc_ids::MethodRef;
use std::alloc::{AllocError, Global};
use std::marker::PhantomData;

/// Makes the handlers of the calls that arrive at a server.
pub trait Maker {
    /// The type of the handlers.
    type H: Handler;

    /// What the first states of its handlers are made of, beside the method.
    ghost seed_memo: { Self → Memo };

    /// What the first states are made of, as plain data.
    fn seed(&self) -> Result<Memo, AllocError>
        ensures { IfOk result (λ m. m ≡ seed_memo self.now) };

    /// A handler for a call of this method.
    fn make(&self, m: MethodRef) -> Result<Self::H, AllocError>
        ensures first { IfOk result (λ h. Self.H.now h ≡ Self.H.rule.first (seed_memo self.now) m) }
        ensures able { IfOk result (λ h. Self.H.can_act h) };
}

/// A maker that makes no handler. It stands at a client, where no call arrives.
#[derive(Drop)]
pub struct Nobody<H> {
    alloc: Global,
    handler: PhantomData<H>,
}

impl<H: Handler> Nobody<H> {
    /// A maker of no handlers, for a table that opens no calls by itself.
    pub fn new(alloc: Global) -> Nobody<H> {
        Nobody {
            alloc,
            handler: PhantomData,
        }
    }
}

impl<H: Handler> Maker for Nobody<H> {
    type H = H;

    ghost seed_memo = { λ _. empty_memo };

    fn seed(&self) -> Result<Memo, AllocError> {
        Ok(Memo {
            words: Words::new(self.alloc),
            parts: Parts::new(self.alloc),
        })
    }

    fn make(&self, m: MethodRef) -> Result<H, AllocError>
        ensures first { IfOk result (λ h. H.now h ≡ H.rule.first empty_memo m) }
        ensures able { IfOk result (λ h. H.can_act h) }
        ensures never { IsErr result }
    {
        let _ = m;
        Err(AllocError)
    }
}
