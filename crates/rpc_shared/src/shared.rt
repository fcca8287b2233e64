//! The table behind the lock.

ghost use Rattle.std.specs.Prelude.{◌≡◌, ◌<◌, ◌≤◌, [], IfErr, IfOk};
ghost use Rattle.turn_cell.specs.Passes.{AllFit, AreAll, IsIdle, IsNew};
ghost use Rattle.rpc_journal.specs.Lawful.{IsLegal};
ghost use Rattle.rpc_journal.specs.Laws.{seat_of};
ghost use Rattle.rpc_shared.specs.Steps.{Holds, IsBusy, IsOwn, base_of, log_of};

use crate::Desk;
use rpc_calls::Calls;
use rpc_handlers::Handler;
use std::alloc::{AllocError, Global};
use std::marker::Model;
use std::sync::Wait;
use turn_cell::{Busy, Held, Turn};

mod arriving;
mod cancelling;
mod closing;
mod invoking;
mod looking;
mod replacing;
mod running;
mod writing;

/// The right to one table of calls, which one thread has at a time. Its number is the seat of what it adds: pass 0 feeds
/// the input, pass 1 flushes and tells the time, and any pass does the rest.
pub type Pass<H> = turn_cell::Pass<Desk<H>>;

/// A table of calls for many threads. Each call takes the lock, makes one step of the table by the pass's number, and gives
/// the lock back; handlers run outside it. The calls without `try_` may wait; those with it never do.
///
/// What a call asks of the table is asked of what its pass has seen, which never becomes untrue.
pub struct Shared<H: Handler> {
    turn: Turn<Desk<H>>,
}

impl<H: Handler> Drop for Shared<H> {
    fn drop(self) {
        let Self { turn: _ } = self;
    }
}

impl<H: Handler> Model for Shared<H> {
    ghost use Rattle.std.specs.Prelude.{◌<◌};
    ghost use Rattle.turn_cell.specs.Passes.{LockView};
    ghost use Rattle.rpc_journal.specs.declared.setting.Setting.{Setting};

    ghost Value = { LockView Setting };

    ghost view = { λ s. s.turn };

    ghost invariant = { λ s. 0 < s.turn.count };
}

impl<H: Handler> Shared<H> {
    /// A table with no entry yet, behind a lock with n passes, of the numbers 0 to n - 1 in order.
    ///
    /// # Errors
    ///
    /// `AllocError`, with the table.
    pub fn with(
        alloc: Global,
        calls: Calls<H>,
        n: u32,
    ) -> Result<(Shared<H>, Vec<Pass<H>>), (Calls<H>, AllocError)>
        requires count { (0 < n) × (n ≤ 64) }
        requires empty { calls.entries ≡ [] }
        ensures turn { IfOk result (λ made. (made.0.count ≡ n) × (made.0.base ≡ calls.setting)) }
        ensures passes { IfOk result (λ made. AreAll made.0 (IsNew made.0) made.1.items) }
        ensures back { IfErr result (λ refused. refused.0 ≡ calls) }
    {
        match Turn::with(alloc, Desk::new(calls), n) {
            Ok((turn, passes)) => Ok((Shared { turn }, passes)),
            Err((desk, refused)) => Err((desk.into_calls(), refused)),
        }
    }

    /// The table again, once all passes are back, in order.
    pub fn close(self, passes: Vec<Pass<H>>) -> Calls<H>
        requires all { AreAll self (IsIdle self) passes.items }
        ensures fits { AllFit log_of seat_of base_of passes.items result }
        ensures setting { result.setting ≡ self.base }
        ensures legal { IsLegal H.rule result.setting result.entries }
    {
        let Shared { turn } = self;
        let desk = turn.close(passes);
        desk.note_legal();
        desk.into_calls()
    }

    // Takes the lock.
    fn hold<R: Wait>(&self, rt: &R, pass: &mut Pass<H>) -> Held<Desk<H>>
        requires own { IsOwn self.now pass.old }
        ensures holds { Holds H.rule self.now pass.old pass.new result }
    {
        let mut held = self.turn.take(rt, pass);
        held.value().note_legal();
        held
    }

    // Tries once to take it.
    fn try_hold(&self, pass: &mut Pass<H>) -> Result<Held<Desk<H>>, Busy>
        requires own { IsOwn self.now pass.old }
        ensures holds { IfOk result (λ held. Holds H.rule self.now pass.old pass.new held) }
        ensures busy { IfErr result (λ b. IsBusy self.now pass.old pass.new b.loaded b.word) }
    {
        match self.turn.try_take(pass) {
            Ok(mut held) => {
                held.value().note_legal();
                Ok(held)
            }
            Err(busy) => Err(busy),
        }
    }
}
