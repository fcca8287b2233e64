//! Packets arrive, and the input ends.

ghost use Rattle.std.specs.Prelude.{IfErr, IfOk, ◌≡◌};
ghost use Rattle.rpc_journal.specs.Changes.{ArriveDid, EndInDid};
ghost use Rattle.rpc_journal.specs.Conditions.{IsHeard, IsInputOpen};
ghost use Rattle.rpc_shared.specs.Steps.{IsBusy, IsOwn, Steps};

use super::{Pass, Shared};
use rpc_calls::{ArriveRefused, Arrived};
use rpc_handlers::{Handler, Maker};
use rpc_packet::Packet;
use std::sync::Wait;
use turn_cell::Busy;

impl<H: Handler> Shared<H> {
    /// A packet arrives. Pass 0 alone may, and only until the input has ended; the packet is one that this role hears,
    /// and none of its ids is 0. The maker makes the handler of a call that opens.
    pub fn arrive<M: Maker<H = H>, R: Wait>(
        &self,
        rt: &R,
        pass: &mut Pass<H>,
        p: &Packet,
        maker: &M,
    ) -> Result<Arrived, ArriveRefused>
        requires own { IsOwn self.now pass.old }
        requires input { IsInputOpen self.now.base pass.old.view.known.seen pass.old.view.known.number }
        requires heard { IsHeard self.now.base p.now }
        requires seed { M.seed_memo maker.now ≡ self.now.base.seed }
        ensures did { Steps H.rule self.now pass.old pass.new (λ set seat. ArriveDid set seat p.now result) }
        ensures open { IsInputOpen self.now.base pass.new.view.known.seen pass.new.view.known.number }
    {
        let mut held = self.hold(rt, pass);
        let seat = pass.number();
        let answer = held.value().arrive(seat, p, maker);
        self.turn.give(pass, held);
        answer
    }

    /// `arrive`, or `Busy` where another pass has the lock. It never waits.
    pub fn try_arrive<M: Maker<H = H>>(
        &self,
        pass: &mut Pass<H>,
        p: &Packet,
        maker: &M,
    ) -> Result<Result<Arrived, ArriveRefused>, Busy>
        requires own { IsOwn self.now pass.old }
        requires input { IsInputOpen self.now.base pass.old.view.known.seen pass.old.view.known.number }
        requires heard { IsHeard self.now.base p.now }
        requires seed { M.seed_memo maker.now ≡ self.now.base.seed }
        ensures did { IfOk result (λ a. Steps H.rule self.now pass.old pass.new (λ set seat. ArriveDid set seat p.now a)) }
        ensures open { IfOk result (λ _. IsInputOpen self.now.base pass.new.view.known.seen pass.new.view.known.number) }
        ensures busy { IfErr result (λ b. IsBusy self.now pass.old pass.new b.loaded b.word) }
    {
        let mut held = self.try_hold(pass)?;
        let seat = pass.number();
        let answer = held.value().arrive(seat, p, maker);
        self.turn.give(pass, held);
        Ok(answer)
    }

    /// The input has ended. Pass 0 alone may say so, once.
    pub fn end_in<R: Wait>(&self, rt: &R, pass: &mut Pass<H>)
        requires own { IsOwn self.now pass.old }
        requires input { IsInputOpen self.now.base pass.old.view.known.seen pass.old.view.known.number }
        ensures did { Steps H.rule self.now pass.old pass.new (λ _ seat. EndInDid seat) }
    {
        let mut held = self.hold(rt, pass);
        let seat = pass.number();
        held.value().end_in(seat);
        self.turn.give(pass, held);
    }
}
