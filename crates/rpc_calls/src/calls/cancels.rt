//! Calls are cancelled.
ghost use Rattle.std.specs.Prelude.{◌≡◌, false, unwrap_or};
ghost use Rattle.rpc_journal.specs.declared.entry.EntryKind.TheVariants.{Cancel};
ghost use Rattle.rpc_journal.specs.Calls.{end_of, is_cancelled, runner_of};
ghost use Rattle.rpc_journal.specs.Changes.{CancelDid, cancel_answer};
ghost use Rattle.rpc_journal.specs.Conditions.{IsCall};
ghost use Rattle.rpc_journal.specs.History.{adding};
ghost use Rattle.rpc_journal.specs.Lawful.{IsLegal};
ghost use Rattle.rpc_journal.specs.CallTable.{past};

use super::Calls;
use crate::cancelling::cancel_call;
use rpc_handlers::Handler;
use rpc_ids::Status;
use rpc_journal::{Cancelled, Entry, EntryKind};

impl<H: Handler> Calls<H> {
    /// Cancels a call. It is never refused, and takes no memory; a second cancel changes nothing. Answers the call's
    /// status, which is CANCELLED where it had no end before, and the seat that still runs it.
    pub fn cancel(&mut self, seat: u32, call: u32) -> Cancelled
        requires { IsCall self.old.setting self.old.entries call }
        ensures did { CancelDid self.old.setting seat call result self.old.entries self.new.entries }
        ensures setting { self.new.setting ≡ self.old.setting }
        ensures legal { IsLegal H.rule self.new.setting self.new.entries }
    {
        let answer = self.answer_cancel(call);
        if !self.was_cancelled(call) {
            self.cut(seat, call);
        }
        answer
    }

    // What a cancel answers.
    fn answer_cancel(&self, call: u32) -> Cancelled
        requires { IsCall self.now.setting self.now.entries call }
        ensures { result ≡ cancel_answer (unwrap_or (end_of (past self.now) call) Status.Cancelled) (runner_of (past self.now) call) }
    {
        let status = self.status(call).unwrap_or(Status::Cancelled);
        match self.runner(call) {
            None => Cancelled::Quiet(status),
            Some(seat) => Cancelled::Running(status, seat),
        }
    }

    // The seat that runs the call.
    fn runner(&self, call: u32) -> Option<u32>
        ensures { result ≡ runner_of (past self.now) call }
    {
        self.calls.runner(call)
    }

    // Whether the call was cancelled.
    fn was_cancelled(&self, call: u32) -> bool
        ensures is { result ≡ is_cancelled (past self.now) call }
        ensures legal { IsLegal H.rule self.now.setting self.now.entries }
    {
        self.calls.is_cancelled(call)
    }

    // A call that wasn't cancelled is.
    fn cut(&mut self, seat: u32, call: u32)
        requires call { IsCall self.old.setting self.old.entries call }
        requires uncut { is_cancelled (past self.old) call ≡ false }
        ensures adds { self.new.entries ≡ adding self.old.entries seat (Cancel call) }
        ensures setting { self.new.setting ≡ self.old.setting }
        ensures legal { IsLegal H.rule self.new.setting self.new.entries }
    {
        cancel_call(&mut self.calls, &mut self.items, self.setting.role, call);
        self.journal.push(Entry {
            seat,
            kind: EntryKind::Cancel(call),
        });
    }
}
