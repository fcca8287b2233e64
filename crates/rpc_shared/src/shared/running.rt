//! Runs begin and end; between them the handler runs outside the lock.

ghost use Rattle.std.specs.Prelude.{IfErr, IfOk, IfSome, Some, ◌≡◌};
ghost use Rattle.rpc_journal.specs.Ran.{run_in};
ghost use Rattle.rpc_journal.specs.Changes.{FinishDid, StartDid, StartOfDid};
ghost use Rattle.rpc_journal.specs.Runs.{IsRunning};
ghost use Rattle.rpc_shared.specs.OwnRuns.{Runs};
ghost use Rattle.rpc_shared.specs.Steps.{IsBusy, IsOwn, Steps};

use super::{Pass, Shared};
use rpc_calls::{Running, StartOfRefused, StartRefused};
use rpc_handlers::Handler;
use std::sync::Wait;
use turn_cell::Busy;

impl<H: Handler> Shared<H> {
    /// Begins a run of the ready call whose oldest waiting event was put first; `None` where no call is ready. Ask the run's
    /// handler, and then `finish` it with the same pass.
    pub fn start<R: Wait>(
        &self,
        rt: &R,
        pass: &mut Pass<H>,
    ) -> Result<Option<Running<H>>, StartRefused>
        requires own { IsOwn self.now pass.old }
        ensures did { Steps H.rule self.now pass.old pass.new (λ set seat. StartDid H.rule run_in set seat result) }
        ensures runs { IfOk result (λ o. IfSome o (Runs H.rule self.now.base pass.new)) }
    {
        let mut held = self.hold(rt, pass);
        let seat = pass.number();
        let answer = held.value().start(seat);
        self.turn.give(pass, held);
        answer
    }

    /// `start`, or `Busy` where another pass has the lock. It never waits.
    pub fn try_start(
        &self,
        pass: &mut Pass<H>,
    ) -> Result<Result<Option<Running<H>>, StartRefused>, Busy>
        requires own { IsOwn self.now pass.old }
        ensures did { IfOk result (λ a. Steps H.rule self.now pass.old pass.new (λ set seat. StartDid H.rule run_in set seat a)) }
        ensures runs { IfOk result (λ a. IfOk a (λ o. IfSome o (Runs H.rule self.now.base pass.new))) }
        ensures busy { IfErr result (λ b. IsBusy self.now pass.old pass.new b.loaded b.word) }
    {
        let mut held = self.try_hold(pass)?;
        let seat = pass.number();
        let answer = held.value().start(seat);
        self.turn.give(pass, held);
        Ok(answer)
    }

    /// Begins a run of this call, where it is ready.
    pub fn start_of<R: Wait>(
        &self,
        rt: &R,
        pass: &mut Pass<H>,
        call: u32,
    ) -> Result<Running<H>, StartOfRefused>
        requires own { IsOwn self.now pass.old }
        ensures did { Steps H.rule self.now pass.old pass.new (λ set seat. StartOfDid H.rule run_in set seat call result) }
        ensures runs { IfOk result (Runs H.rule self.now.base pass.new) }
    {
        let mut held = self.hold(rt, pass);
        let seat = pass.number();
        let answer = held.value().start_of(seat, call);
        self.turn.give(pass, held);
        answer
    }

    /// Ends a run of this pass with what its handler answered. The handler that ran comes back where the table has no further
    /// use for it: the call was cancelled, its handler was replaced meanwhile, or it has an end and no event waits.
    pub fn finish<R: Wait>(&self, rt: &R, pass: &mut Pass<H>, running: Running<H>) -> Option<H>
        requires own { IsOwn self.now pass.old }
        requires on { IsRunning H.rule self.now.base pass.old.view.known.seen running.run }
        requires seat { running.run.seat ≡ pass.old.view.known.number }
        requires answered { running.answer ≡ Some running.gives }
        ensures did { (h : H) × (H.now h ≡ running.moves) × Steps H.rule self.now pass.old pass.new (λ set _. FinishDid set running.run running.gives h result) }
        ensures able { IfSome result H.can_act }
    {
        let mut held = self.hold(rt, pass);
        let answer = held.value().finish(running);
        self.turn.give(pass, held);
        answer
    }

    /// `finish`, or `Busy` where another pass has the lock. It never waits, and then hands back the run.
    pub fn try_finish(
        &self,
        pass: &mut Pass<H>,
        running: Running<H>,
    ) -> Result<Option<H>, (Running<H>, Busy)>
        requires own { IsOwn self.now pass.old }
        requires on { IsRunning H.rule self.now.base pass.old.view.known.seen running.run }
        requires seat { running.run.seat ≡ pass.old.view.known.number }
        requires answered { running.answer ≡ Some running.gives }
        ensures did { IfOk result (λ a. (h : H) × (H.now h ≡ running.moves) × Steps H.rule self.now pass.old pass.new (λ set _. FinishDid set running.run running.gives h a)) }
        ensures able { IfOk result (λ a. IfSome a H.can_act) }
        ensures busy { IfErr result (λ e. (e.0 ≡ running) × IsBusy self.now pass.old pass.new e.1.loaded e.1.word) }
    {
        let mut held = match self.try_hold(pass) {
            Ok(held) => held,
            Err(busy) => return Err((running, busy)),
        };
        let answer = held.value().finish(running);
        self.turn.give(pass, held);
        Ok(answer)
    }
}
