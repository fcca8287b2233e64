//! What ends the work of a table.
ghost use Rattle.std.specs.Prelude.{◌≡◌};
ghost use Rattle.rpc_journal.specs.Changes.{EndInDid, HaltDid};
ghost use Rattle.rpc_journal.specs.Conditions.{CanHalt, IsInputOpen};
ghost use Rattle.rpc_journal.specs.Lawful.{IsLegal};

use super::Calls;
use link_io::Why;
use rpc_handlers::Handler;
use rpc_journal::{Entry, EntryKind};

impl<H: Handler> Calls<H> {
    /// The input has ended: `Ended(UNAVAILABLE)` waits for each live call, after its other events. It is never refused,
    /// and takes no memory.
    pub fn end_in(&mut self, seat: u32)
        requires { IsInputOpen self.old.setting self.old.entries seat }
        ensures did { EndInDid seat self.old.entries self.new.entries }
        ensures setting { self.new.setting ≡ self.old.setting }
        ensures legal { IsLegal H.rule self.new.setting self.new.entries }
    {
        let at = self.journal.len();
        self.calls.end_in(at);
        self.journal.push(Entry {
            seat,
            kind: EntryKind::EndIn,
        });
    }

    /// Halts the table: no run begins and no item goes out any more. A second halt changes nothing. It is never refused.
    pub fn halt(&mut self, seat: u32, why: Why)
        requires { CanHalt why }
        ensures did { HaltDid self.old.setting seat why self.old.entries self.new.entries }
        ensures setting { self.new.setting ≡ self.old.setting }
        ensures legal { IsLegal H.rule self.new.setting self.new.entries }
    {
        if self.calls.halted().is_none() {
            self.calls.halt(why);
            self.journal.push(Entry {
                seat,
                kind: EntryKind::Halt(why),
            });
        }
    }
}
