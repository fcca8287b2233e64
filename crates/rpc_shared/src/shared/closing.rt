//! A table is halted, and channels are closed.

ghost use Rattle.std.specs.Prelude.{IfErr, IfOk, ◌≡◌};
ghost use Rattle.rpc_journal.specs.Changes.{CloseDid, HaltDid};
ghost use Rattle.rpc_journal.specs.Conditions.{CanHalt};
ghost use Rattle.rpc_shared.specs.Steps.{IsBusy, IsOwn, Steps};

use super::{Pass, Shared};
use link_io::Why;
use rpc_calls::CloseRefused;
use rpc_handlers::Handler;
use std::sync::Wait;
use turn_cell::Busy;

impl<H: Handler> Shared<H> {
    /// Halts the table: no run begins and no item goes out any more. A second halt changes nothing.
    pub fn halt<R: Wait>(&self, rt: &R, pass: &mut Pass<H>, why: Why)
        requires own { IsOwn self.now pass.old }
        requires can { CanHalt why }
        ensures did { Steps H.rule self.now pass.old pass.new (λ set seat. HaltDid set seat why) }
    {
        let mut held = self.hold(rt, pass);
        let seat = pass.number();
        held.value().halt(seat, why);
        self.turn.give(pass, held);
    }

    /// Closes a channel: its live calls end with ABORTED. Answers how many calls this ended.
    pub fn close_channel<R: Wait>(
        &self,
        rt: &R,
        pass: &mut Pass<H>,
        channel: u32,
    ) -> Result<u32, CloseRefused>
        requires own { IsOwn self.now pass.old }
        ensures did { Steps H.rule self.now pass.old pass.new (λ set seat. CloseDid set seat channel result) }
    {
        let mut held = self.hold(rt, pass);
        let seat = pass.number();
        let answer = held.value().close_channel(seat, channel);
        self.turn.give(pass, held);
        answer
    }

    /// `close_channel`, or `Busy` where another pass has the lock. It never waits.
    pub fn try_close_channel(
        &self,
        pass: &mut Pass<H>,
        channel: u32,
    ) -> Result<Result<u32, CloseRefused>, Busy>
        requires own { IsOwn self.now pass.old }
        ensures did { IfOk result (λ a. Steps H.rule self.now pass.old pass.new (λ set seat. CloseDid set seat channel a)) }
        ensures busy { IfErr result (λ b. IsBusy self.now pass.old pass.new b.loaded b.word) }
    {
        let mut held = self.try_hold(pass)?;
        let seat = pass.number();
        let answer = held.value().close_channel(seat, channel);
        self.turn.give(pass, held);
        Ok(answer)
    }
}
