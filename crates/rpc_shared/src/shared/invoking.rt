//! A client opens calls and speaks in them.

ghost use Rattle.std.specs.Prelude.{IfErr, ◌≡◌};
ghost use Rattle.rpc_journal.specs.Changes.{DoneDid, InvokeDid, SayDid};
ghost use Rattle.rpc_journal.specs.Conditions.{CanComplete, CanInvoke, CanSay};
ghost use Rattle.rpc_shared.specs.Steps.{IsOwn, Steps};

use super::{Pass, Shared};
use bytes::Bytes;
use rpc_calls::{InvokeRefused, SayRefused};
use rpc_handlers::{Handler, Out};
use rpc_packet::CallName;
use std::sync::Wait;

impl<H: Handler> Shared<H> {
    /// A client opens a call of this name, which this handler answers. Refused, the handler comes back.
    pub fn invoke<R: Wait>(
        &self,
        rt: &R,
        pass: &mut Pass<H>,
        name: CallName,
        payload: Bytes,
        handler: H,
    ) -> Result<u32, (H, InvokeRefused)>
        requires own { IsOwn self.now pass.old }
        requires can { CanInvoke self.now.base name payload }
        requires able { H.can_act handler }
        ensures did { Steps H.rule self.now pass.old pass.new (λ set seat. InvokeDid set seat name payload (H.now handler) result) }
        ensures back { IfErr result (λ refused. refused.0 ≡ handler) }
    {
        let mut held = self.hold(rt, pass);
        let seat = pass.number();
        let answer = held.value().invoke(seat, name, payload, handler);
        self.turn.give(pass, held);
        answer
    }

    /// A message of a call goes out, or a store action of it is made.
    pub fn say<R: Wait>(
        &self,
        rt: &R,
        pass: &mut Pass<H>,
        call: u32,
        out: Out,
    ) -> Result<(), SayRefused>
        requires own { IsOwn self.now pass.old }
        requires can { CanSay self.now.base pass.old.view.known.seen call out }
        ensures did { Steps H.rule self.now pass.old pass.new (λ set seat. SayDid set seat call out result) }
    {
        let mut held = self.hold(rt, pass);
        let seat = pass.number();
        let answer = held.value().say(seat, call, out);
        self.turn.give(pass, held);
        answer
    }

    /// A client ends its stream of a call.
    pub fn done<R: Wait>(&self, rt: &R, pass: &mut Pass<H>, call: u32) -> Result<(), SayRefused>
        requires own { IsOwn self.now pass.old }
        requires can { CanComplete self.now.base pass.old.view.known.seen call }
        ensures did { Steps H.rule self.now pass.old pass.new (λ set seat. DoneDid set seat call result) }
    {
        let mut held = self.hold(rt, pass);
        let seat = pass.number();
        let answer = held.value().done(seat, call);
        self.turn.give(pass, held);
        answer
    }
}
