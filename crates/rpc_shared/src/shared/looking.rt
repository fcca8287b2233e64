//! A pass looks at the table.

ghost use Rattle.std.specs.Prelude.{◌≡◌};
ghost use Rattle.rpc_shared.specs.Looks.{LookDid};
ghost use Rattle.rpc_shared.specs.Steps.{IsOwn, Steps};

use super::{Pass, Shared};
use crate::Look;
use rpc_handlers::Handler;
use std::sync::Wait;

impl<H: Handler> Shared<H> {
    /// Tells how the table stands, from counts: it takes the lock for a moment and adds nothing. What it tells of the number of
    /// calls makes each lower number one of a call, to this pass.
    pub fn look<R: Wait>(&self, rt: &R, pass: &mut Pass<H>) -> Look
        requires own { IsOwn self.now pass.old }
        ensures did { Steps H.rule self.now pass.old pass.new (λ set _. LookDid set result) }
    {
        let mut held = self.hold(rt, pass);
        let answer = held.value().look();
        self.turn.give(pass, held);
        answer
    }
}
