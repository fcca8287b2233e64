//! Time goes on.
ghost use Rattle.std.specs.Prelude.{◌≡◌, false, OnOk, OnErr};
ghost use Rattle.rpc_journal.specs.declared.entry.EntryKind.TheVariants.{Tick};
ghost use Rattle.rpc_journal.specs.Changes.{TickDid};
ghost use Rattle.rpc_journal.specs.History.{adding};
ghost use Rattle.rpc_journal.specs.Lawful.{IsLegal};
ghost use Rattle.rpc_journal.specs.Refusals.{is_full};

use super::Calls;
use crate::room::take_room;
use rpc_handlers::Handler;
use rpc_journal::{Entry, EntryKind, MAX_ENTRIES, StartRefused};
use std::alloc::AllocError;

impl<H: Handler> Calls<H> {
    /// The time has come to this moment, in milliseconds: a `Tick` waits for each live call of a ticking method for which
    /// no `Tick` and fewer than 64 events wait.
    pub fn tick(&mut self, seat: u32, now: u64) -> Result<(), StartRefused>
        requires { seat ≡ 1 }
        ensures did { TickDid seat now result self.old.entries self.new.entries }
        ensures setting { self.new.setting ≡ self.old.setting }
        ensures legal { IsLegal H.rule self.new.setting self.new.entries }
    {
        if self.journal.len() >= MAX_ENTRIES {
            return Err(StartRefused::JournalFull);
        }
        match self.tell_calls(seat, now) {
            Ok(()) => Ok(()),
            Err(_) => Err(StartRefused::Memory),
        }
    }

    // The calls that are to be told of the time are told.
    fn tell_calls(&mut self, seat: u32, now: u64) -> Result<(), AllocError>
        requires seat { seat ≡ 1 }
        requires room { is_full self.old.entries ≡ false }
        ensures adds { OnOk result (self.new.entries ≡ adding self.old.entries seat (Tick now)) }
        ensures setting { self.new.setting ≡ self.old.setting }
        ensures legal { IsLegal H.rule self.new.setting self.new.entries }
        ensures err { OnErr result (self.new ≡ self.old) }
    {
        let at = self.journal.len();
        self.calls.widen_all()?;
        take_room(&mut self.journal, &mut self.items, self.calls.owed(), 0, 1)?;
        self.calls.tell_time(at, now);
        self.journal.push(Entry {
            seat,
            kind: EntryKind::Tick(now),
        });
        Ok(())
    }
}
