//! The items that go out.
ghost use Rattle.std.specs.Prelude.{◌≡◌};
ghost use Rattle.rpc_journal.specs.Changes.{FlushDid};
ghost use Rattle.rpc_journal.specs.Lawful.{IsLegal};

use super::Calls;
use rpc_handlers::Handler;
use rpc_journal::{Entry, EntryKind, Item};

impl<H: Handler> Calls<H> {
    /// Takes the oldest item that waits to go out. None where none waits, or the table is halted. It is never refused.
    pub fn flush_front(&mut self, seat: u32) -> Option<Item>
        requires { seat ≡ 1 }
        ensures did { FlushDid self.old.setting seat result self.old.entries self.new.entries }
        ensures setting { self.new.setting ≡ self.old.setting }
        ensures legal { IsLegal H.rule self.new.setting self.new.entries }
    {
        if self.calls.halted().is_some() {
            return None;
        }
        if self.items.is_empty() {
            return None;
        }
        let item = self.items.pop_front().unwrap();
        self.calls.set_unflushed(self.items.len() as u64);
        self.journal.push(Entry {
            seat,
            kind: EntryKind::Flush,
        });
        Some(item)
    }
}
