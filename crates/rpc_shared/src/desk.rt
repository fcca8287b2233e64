//! The table as the lock guards it: one method for each of its calls, with what the call adds.

ghost use Rattle.std.specs.Prelude.{◌≡◌, IfErr, IfOk, IfSome, None, Some};
ghost use Rattle.rpc_journal.specs.Ran.{run_in};
ghost use Rattle.rpc_journal.specs.Changes.{ArriveDid, CancelDid, CloseDid, DoneDid, EndInDid, FinishDid, FlushDid, HaltDid, InvokeDid, ReplaceDid, SayDid, StartDid, StartOfDid, TickDid};
ghost use Rattle.rpc_journal.specs.Conditions.{CanComplete, CanHalt, CanInvoke, CanSay, IsCall, IsHeard, IsInputOpen};
ghost use Rattle.rpc_journal.specs.Lawful.{IsLegal};
ghost use Rattle.rpc_journal.specs.Runs.{IsRunning};
ghost use Rattle.rpc_shared.specs.Looks.{LookDid};
ghost use Rattle.rpc_shared.specs.Steps.{ComesBack, Made};

use crate::Look;
use bytes::Bytes;
use link_io::Why;
use rpc_calls::{
    ArriveRefused, Arrived, Calls, Cancelled, CloseRefused, InvokeRefused, ReplaceRefused, Running,
    SayRefused, StartOfRefused, StartRefused,
};
use rpc_handlers::{Handler, Maker, Out};
use rpc_journal::{Entry, Item, Setting};
use rpc_packet::{CallName, Packet};
use std::marker::Model;
use turn_cell::Logged;

/// A table of calls whose journal is the log that the lock guards. It has no public method: it stands in the type of a
/// pass alone.
pub struct Desk<H: Handler> {
    calls: Calls<H>,
}

impl<H: Handler> Drop for Desk<H> {
    fn drop(self) {
        let Self { calls: _ } = self;
    }
}

impl<H: Handler> Model for Desk<H> {
    ghost use Rattle.rpc_journal.specs.CallTable.{Table};

    ghost Value = { Table };

    ghost view = { λ d. d.calls };
}

impl<H: Handler> Logged for Desk<H> {
    ghost use Rattle.rpc_journal.specs.Laws.{seat_of};
    ghost use Rattle.rpc_shared.specs.Steps.{base_of, log_of};

    type Entry = Entry;

    type Base = Setting;

    ghost log = { log_of };

    ghost maker = { seat_of };

    ghost base = { base_of };

    fn log_len(&self) -> u64 {
        self.calls.journal().len()
    }
}

impl<H: Handler> Desk<H> {
    pub(crate) fn new(calls: Calls<H>) -> Desk<H>
        ensures { result ≡ calls }
    {
        Desk { calls }
    }

    pub(crate) fn into_calls(self) -> Calls<H>
        ensures { result ≡ self }
    {
        let Self { calls } = self;
        calls
    }

    /// Does nothing at run time. Calling it tells the prover that the table's journal is legal.
    pub(crate) fn note_legal(&self)
        ensures { IsLegal H.rule self.now.setting self.now.entries }
    {
        let _journal = self.calls.journal();
    }

    pub(crate) fn arrive<M: Maker<H = H>>(
        &mut self,
        seat: u32,
        p: &Packet,
        maker: &M,
    ) -> Result<Arrived, ArriveRefused>
        requires input { IsInputOpen self.old.setting self.old.entries seat }
        requires heard { IsHeard self.old.setting p.now }
        requires seed { M.seed_memo maker.now ≡ self.old.setting.seed }
        ensures made { Made H.rule seat self.old self.new (λ set by. ArriveDid set by p.now result) }
    {
        self.calls.arrive(seat, p, maker)
    }

    pub(crate) fn end_in(&mut self, seat: u32)
        requires input { IsInputOpen self.old.setting self.old.entries seat }
        ensures made { Made H.rule seat self.old self.new (λ _ by. EndInDid by) }
    {
        self.calls.end_in(seat)
    }

    pub(crate) fn invoke(
        &mut self,
        seat: u32,
        name: CallName,
        payload: Bytes,
        handler: H,
    ) -> Result<u32, (H, InvokeRefused)>
        requires can { CanInvoke self.old.setting name payload }
        requires able { H.can_act handler }
        ensures made { Made H.rule seat self.old self.new (λ set by. InvokeDid set by name payload (H.now handler) result) }
        ensures back { IfErr result (λ refused. refused.0 ≡ handler) }
    {
        self.calls.invoke(seat, name, payload, handler)
    }

    pub(crate) fn say(&mut self, seat: u32, call: u32, out: Out) -> Result<(), SayRefused>
        requires can { CanSay self.old.setting self.old.entries call out }
        ensures made { Made H.rule seat self.old self.new (λ set by. SayDid set by call out result) }
    {
        self.calls.say(seat, call, out)
    }

    pub(crate) fn done(&mut self, seat: u32, call: u32) -> Result<(), SayRefused>
        requires can { CanComplete self.old.setting self.old.entries call }
        ensures made { Made H.rule seat self.old self.new (λ set by. DoneDid set by call result) }
    {
        self.calls.done(seat, call)
    }

    pub(crate) fn start(&mut self, seat: u32) -> Result<Option<Running<H>>, StartRefused>
        ensures made { Made H.rule seat self.old self.new (λ set by. StartDid H.rule run_in set by result) }
        ensures unasked { IfOk result (λ o. IfSome o (λ r. r.answer ≡ None)) }
    {
        self.calls.start(seat)
    }

    pub(crate) fn start_of(&mut self, seat: u32, call: u32) -> Result<Running<H>, StartOfRefused>
        ensures made { Made H.rule seat self.old self.new (λ set by. StartOfDid H.rule run_in set by call result) }
        ensures unasked { IfOk result (λ r. r.answer ≡ None) }
    {
        self.calls.start_of(seat, call)
    }

    pub(crate) fn finish(&mut self, running: Running<H>) -> Option<H>
        requires on { IsRunning H.rule self.old.setting self.old.entries running.run }
        requires answered { running.answer ≡ Some running.gives }
        ensures made { (h : H) × (H.now h ≡ running.moves) × Made H.rule running.run.seat self.old self.new (λ set _. FinishDid set running.run running.gives h result) }
        ensures able { IfSome result H.can_act }
    {
        self.calls.finish(running)
    }

    pub(crate) fn replace(
        &mut self,
        seat: u32,
        call: u32,
        handler: H,
    ) -> Result<Option<H>, (H, ReplaceRefused)>
        requires able { H.can_act handler }
        ensures made { Made H.rule seat self.old self.new (λ set by old new. ReplaceDid set by call (H.now handler) result old new × ComesBack H.rule H.now set call result old) }
        ensures able { IfOk result (λ old. IfSome old H.can_act) }
        ensures back { IfErr result (λ refused. refused.0 ≡ handler) }
    {
        self.calls.replace(seat, call, handler)
    }

    pub(crate) fn cancel(&mut self, seat: u32, call: u32) -> Cancelled
        requires call { IsCall self.old.setting self.old.entries call }
        ensures made { Made H.rule seat self.old self.new (λ set by. CancelDid set by call result) }
    {
        self.calls.cancel(seat, call)
    }

    pub(crate) fn tick(&mut self, seat: u32, now: u64) -> Result<(), StartRefused>
        requires writer { seat ≡ 1 }
        ensures made { Made H.rule seat self.old self.new (λ _ by. TickDid by now result) }
    {
        self.calls.tick(seat, now)
    }

    pub(crate) fn flush_front(&mut self, seat: u32) -> Option<Item>
        requires writer { seat ≡ 1 }
        ensures made { Made H.rule seat self.old self.new (λ set by. FlushDid set by result) }
    {
        self.calls.flush_front(seat)
    }

    pub(crate) fn halt(&mut self, seat: u32, why: Why)
        requires can { CanHalt why }
        ensures made { Made H.rule seat self.old self.new (λ set by. HaltDid set by why) }
    {
        self.calls.halt(seat, why)
    }

    pub(crate) fn close_channel(&mut self, seat: u32, channel: u32) -> Result<u32, CloseRefused>
        ensures made { Made H.rule seat self.old self.new (λ set by. CloseDid set by channel result) }
    {
        self.calls.close_channel(seat, channel)
    }

    pub(crate) fn look(&self) -> Look
        ensures did { LookDid self.now.setting result self.now.entries self.now.entries }
    {
        Look {
            settled: self.calls.settled(),
            idle: self.calls.idle(),
            halted: self.calls.halted(),
            calls: self.calls.count(),
        }
    }
}
