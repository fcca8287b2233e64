//! A call gets another handler.

ghost use Rattle.std.specs.Prelude.{IfErr, IfOk, IfSome, ◌≡◌};
ghost use Rattle.rpc_journal.specs.Changes.{ReplaceDid};
ghost use Rattle.rpc_shared.specs.Steps.{ComesBack, IsBusy, IsOwn, Steps};

use super::{Pass, Shared};
use rpc_calls::ReplaceRefused;
use rpc_handlers::Handler;
use std::sync::Wait;
use turn_cell::Busy;

impl<H: Handler> Shared<H> {
    /// Gives a call another handler, which takes its next event. The old one comes back where the call doesn't run; where it
    /// runs, `finish` gives it back. Refused, the new one comes back.
    pub fn replace<R: Wait>(
        &self,
        rt: &R,
        pass: &mut Pass<H>,
        call: u32,
        handler: H,
    ) -> Result<Option<H>, (H, ReplaceRefused)>
        requires own { IsOwn self.now pass.old }
        requires able { H.can_act handler }
        ensures did { Steps H.rule self.now pass.old pass.new (λ set seat old new. ReplaceDid set seat call (H.now handler) result old new × ComesBack H.rule H.now set call result old) }
        ensures able { IfOk result (λ old. IfSome old H.can_act) }
        ensures back { IfErr result (λ refused. refused.0 ≡ handler) }
    {
        let mut held = self.hold(rt, pass);
        let seat = pass.number();
        let answer = held.value().replace(seat, call, handler);
        self.turn.give(pass, held);
        answer
    }

    /// `replace`, or `Busy` where another pass has the lock. It never waits, and then hands back the handler.
    pub fn try_replace(
        &self,
        pass: &mut Pass<H>,
        call: u32,
        handler: H,
    ) -> Result<Result<Option<H>, (H, ReplaceRefused)>, (H, Busy)>
        requires own { IsOwn self.now pass.old }
        requires able { H.can_act handler }
        ensures did { IfOk result (λ a. Steps H.rule self.now pass.old pass.new (λ set seat old new. ReplaceDid set seat call (H.now handler) a old new × ComesBack H.rule H.now set call a old)) }
        ensures able { IfOk result (λ a. IfOk a (λ old. IfSome old H.can_act)) }
        ensures back { IfOk result (λ a. IfErr a (λ refused. refused.0 ≡ handler)) }
        ensures busy { IfErr result (λ e. (e.0 ≡ handler) × IsBusy self.now pass.old pass.new e.1.loaded e.1.word) }
    {
        let mut held = match self.try_hold(pass) {
            Ok(held) => held,
            Err(busy) => return Err((handler, busy)),
        };
        let seat = pass.number();
        let answer = held.value().replace(seat, call, handler);
        self.turn.give(pass, held);
        Ok(answer)
    }
}
