//! What pass 1 alone does: it tells the time and takes what goes out.

ghost use Rattle.std.specs.Prelude.{◌≡◌};
ghost use Rattle.rpc_journal.specs.Changes.{FlushDid, TickDid};
ghost use Rattle.rpc_shared.specs.Steps.{IsOwn, Steps};

use super::{Pass, Shared};
use rpc_calls::StartRefused;
use rpc_handlers::Handler;
use rpc_journal::Item;
use std::sync::Wait;

impl<H: Handler> Shared<H> {
    /// The time has come to this moment, in milliseconds. Pass 1 alone may say so.
    pub fn tick<R: Wait>(&self, rt: &R, pass: &mut Pass<H>, now: u64) -> Result<(), StartRefused>
        requires own { IsOwn self.now pass.old }
        requires writer { pass.old.view.known.number ≡ 1 }
        ensures did { Steps H.rule self.now pass.old pass.new (λ _ seat. TickDid seat now result) }
    {
        let mut held = self.hold(rt, pass);
        let seat = pass.number();
        let answer = held.value().tick(seat, now);
        self.turn.give(pass, held);
        answer
    }

    /// Takes the oldest item that waits to go out; `None` where none waits, or the table is halted. Pass 1 alone may.
    pub fn flush_front<R: Wait>(&self, rt: &R, pass: &mut Pass<H>) -> Option<Item>
        requires own { IsOwn self.now pass.old }
        requires writer { pass.old.view.known.number ≡ 1 }
        ensures did { Steps H.rule self.now pass.old pass.new (λ set seat. FlushDid set seat result) }
    {
        let mut held = self.hold(rt, pass);
        let seat = pass.number();
        let answer = held.value().flush_front(seat);
        self.turn.give(pass, held);
        answer
    }
}
