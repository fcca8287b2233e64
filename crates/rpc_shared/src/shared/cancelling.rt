//! Calls are cancelled.

ghost use Rattle.std.specs.Prelude.{IfErr, IfOk, true, ◌≡◌};
ghost use Rattle.rpc_ids.specs.declared.status.Status.{Status};
ghost use Rattle.rpc_journal.specs.Calls.{is_cancelled};
ghost use Rattle.rpc_journal.specs.Changes.{CancelDid};
ghost use Rattle.rpc_journal.specs.Conditions.{IsCall};
ghost use Rattle.rpc_journal.specs.History.{history};
ghost use Rattle.rpc_journal.specs.Lawful.{IsLegal};
ghost use Rattle.rpc_journal.specs.Quiet.{is_quiet};
ghost use Rattle.rpc_shared.specs.Steps.{IsBusy, IsOwn, Steps};
ghost use Rattle.rpc_shared.specs.Waits.{CancelsAndWaits, IsQuietWith, SeesMore};

use super::{Pass, Shared};
use rpc_calls::Cancelled;
use rpc_handlers::Handler;
use rpc_ids::Status;
use std::sync::Wait;
use turn_cell::Busy;

impl<H: Handler> Shared<H> {
    /// Cancels a call. Where it answers `Quiet`, no run of the call begins or ends from then on; where it answers `Running`, the
    /// seat that it names still runs the call.
    pub fn cancel<R: Wait>(&self, rt: &R, pass: &mut Pass<H>, call: u32) -> Cancelled
        requires own { IsOwn self.now pass.old }
        requires call { IsCall self.now.base pass.old.view.known.seen call }
        ensures did { Steps H.rule self.now pass.old pass.new (λ set seat. CancelDid set seat call result) }
        ensures quiet { (s : Status) → result ≡ Cancelled.Quiet s → is_quiet (history self.now.base pass.new.view.known.seen) call ≡ true }
    {
        let mut held = self.hold(rt, pass);
        let seat = pass.number();
        let answer = held.value().cancel(seat, call);
        self.turn.give(pass, held);
        answer
    }

    /// `cancel`, or `Busy` where another pass has the lock. It never waits.
    pub fn try_cancel(&self, pass: &mut Pass<H>, call: u32) -> Result<Cancelled, Busy>
        requires own { IsOwn self.now pass.old }
        requires call { IsCall self.now.base pass.old.view.known.seen call }
        ensures did { IfOk result (λ a. Steps H.rule self.now pass.old pass.new (λ set seat. CancelDid set seat call a)) }
        ensures quiet { IfOk result (λ a. (s : Status) → a ≡ Cancelled.Quiet s → is_quiet (history self.now.base pass.new.view.known.seen) call ≡ true) }
        ensures busy { IfErr result (λ b. IsBusy self.now pass.old pass.new b.loaded b.word) }
    {
        let mut held = self.try_hold(pass)?;
        let seat = pass.number();
        let answer = held.value().cancel(seat, call);
        self.turn.give(pass, held);
        Ok(answer)
    }

    /// Cancels a call, and waits until no pass runs it. It answers the call's status. From then on no run of the call begins
    /// or ends.
    pub fn cancel_wait<R: Wait>(&self, rt: &R, pass: &mut Pass<H>, call: u32) -> Status
        requires own { IsOwn self.now pass.old }
        requires call { IsCall self.now.base pass.old.view.known.seen call }
        ensures did { CancelsAndWaits H.rule self.now call result pass.old pass.new }
    {
        match self.cancel(rt, pass, call) {
            Cancelled::Quiet(status) => status,
            Cancelled::Running(_, _) => self.wait_quiet(rt, pass, call),
        }
    }

    // A second cancel adds nothing and tells who runs, so it serves as a look.
    fn wait_quiet<R: Wait>(&self, rt: &R, pass: &mut Pass<H>, call: u32) -> Status
        requires own { IsOwn self.now pass.old }
        requires call { IsCall self.now.base pass.old.view.known.seen call }
        requires cancelled { is_cancelled (history self.now.base pass.old.view.known.seen) call ≡ true }
        requires legal { IsLegal H.rule self.now.base pass.old.view.known.seen }
        ensures waits { SeesMore H.rule self.now pass.old pass.new }
        ensures ends { IsQuietWith self.now.base call result pass.new }
    {
        'looks: for _ in rt.forever() {
            if let Cancelled::Quiet(status) = self.cancel(rt, pass, call) {
                return status;
            }
        }
        unreachable!()
    }
}
