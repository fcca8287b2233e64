//! Runs end.
ghost use Rattle.std.specs.Prelude.{◌≡◌, Some, IfSome};
ghost use Rattle.rpc_journal.specs.Changes.{FinishDid};
ghost use Rattle.rpc_journal.specs.Lawful.{IsLegal};
ghost use Rattle.rpc_journal.specs.Runs.{IsRunning};

use super::Calls;
use crate::run_end::end_run;
use crate::running::{Answered, Running};
use rpc_handlers::Handler;
use rpc_journal::{Entry, EntryKind};

impl<H: Handler> Calls<H> {
    /// Ends a run with the answer of its handler. It is never refused, and takes no memory. It gives the handler that
    /// ran back where the table has no further use for it: the call was cancelled, its handler was replaced meanwhile,
    /// or the call has an end and no event waits.
    pub fn finish(&mut self, running: Running<H>) -> Option<H>
        requires on { IsRunning H.rule self.old.setting self.old.entries running.run }
        requires answered { running.answer ≡ Some running.gives }
        ensures did { (h : H) × (H.now h ≡ running.moves) × FinishDid self.old.setting running.run running.gives h result self.old.entries self.new.entries }
        ensures able { IfSome result H.can_act }
        ensures setting { self.new.setting ≡ self.old.setting }
        ensures legal { IsLegal H.rule self.new.setting self.new.entries }
    {
        let Answered {
            call,
            seat,
            handler,
            answer,
            copies,
        } = running.into_answered();
        let role = self.setting.role;
        let back = end_run(
            &mut self.calls,
            &mut self.items,
            role,
            call,
            copies,
            handler,
        );
        self.journal.push(Entry {
            seat,
            kind: EntryKind::Finish(call, answer),
        });
        back
    }
}
