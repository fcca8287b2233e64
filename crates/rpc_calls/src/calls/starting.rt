//! Runs begin.
ghost use Rattle.std.specs.Prelude.{◌≡◌, true, None, IfOk, IfSome, IfNone, OnErr};
ghost use Rattle.rpc_journal.specs.Changes.{StartDid, StartOfDid};
ghost use Rattle.rpc_journal.specs.Choice.{IsFirstReady, NoneReady};
ghost use Rattle.rpc_journal.specs.Items.{is_ready};
ghost use Rattle.rpc_journal.specs.Lawful.{IsLegal};
ghost use Rattle.rpc_journal.specs.Runs.{Begins};
ghost use Rattle.rpc_journal.specs.CallTable.{past};
ghost use Rattle.rpc_journal.specs.Ran.{run_in};

use super::Calls;
use crate::answer_items::MAX_RUN_ITEMS;
use crate::indexed_states::Begun;
use crate::room::take_room;
use crate::running::Running;
use rpc_handlers::Handler;
use rpc_journal::{Entry, EntryKind, MAX_ENTRIES, StartOfRefused, StartRefused};
use std::alloc::AllocError;

impl<H: Handler> Calls<H> {
    /// Begins a run of this call with the oldest event that waits for it. A number of no call is not ready.
    pub fn start_of(&mut self, seat: u32, call: u32) -> Result<Running<H>, StartOfRefused>
        ensures did { StartOfDid H.rule run_in self.old.setting seat call result self.old.entries self.new.entries }
        ensures unasked { IfOk result (λ r. r.answer ≡ None) }
        ensures setting { self.new.setting ≡ self.old.setting }
        ensures legal { IsLegal H.rule self.new.setting self.new.entries }
    {
        if self.journal.len() >= MAX_ENTRIES {
            return Err(StartOfRefused::JournalFull);
        }
        if !self.calls.is_ready(call) {
            return Err(StartOfRefused::NotReady);
        }
        match self.begin(seat, call) {
            Ok(run) => Ok(run),
            Err(_) => Err(StartOfRefused::Memory),
        }
    }

    /// Begins a run of the ready call whose oldest waiting event was put first, the lower number at a tie. None where no
    /// call is ready, also in a full journal.
    pub fn start(&mut self, seat: u32) -> Result<Option<Running<H>>, StartRefused>
        ensures did { StartDid H.rule run_in self.old.setting seat result self.old.entries self.new.entries }
        ensures unasked { IfOk result (λ o. IfSome o (λ r. r.answer ≡ None)) }
        ensures setting { self.new.setting ≡ self.old.setting }
        ensures legal { IsLegal H.rule self.new.setting self.new.entries }
    {
        let Some(call) = self.first_ready() else {
            return Ok(None);
        };
        if self.journal.len() >= MAX_ENTRIES {
            return Err(StartRefused::JournalFull);
        }
        match self.begin(seat, call) {
            Ok(run) => Ok(Some(run)),
            Err(_) => Err(StartRefused::Memory),
        }
    }

    // The ready call whose oldest waiting event was put first.
    fn first_ready(&self) -> Option<u32>
        ensures first { IfSome result (λ c. IsFirstReady (past self.now) c) }
        ensures none { IfNone result (NoneReady (past self.now)) }
        ensures legal { IsLegal H.rule self.now.setting self.now.entries }
    {
        self.calls.first_ready()
    }

    // A run of a ready call.
    fn begin(&mut self, seat: u32, call: u32) -> Result<Running<H>, AllocError>
        requires { is_ready (past self.old) call ≡ true }
        ensures begins { IfOk result (λ r. Begins H.rule self.old.setting seat r.run self.old.entries self.new.entries) }
        ensures chosen { IfOk result (λ r. r.run.call ≡ call) }
        ensures unasked { IfOk result (λ r. r.answer ≡ None) }
        ensures setting { self.new.setting ≡ self.old.setting }
        ensures legal { IsLegal H.rule self.new.setting self.new.entries }
        ensures err { OnErr result (self.new ≡ self.old) }
    {
        let place = self.journal.len();
        take_room(
            &mut self.journal,
            &mut self.items,
            self.calls.owed(),
            MAX_RUN_ITEMS,
            2,
        )?;
        let Begun { oldest, handler } = self.calls.start(call, seat);
        self.journal.push(Entry {
            seat,
            kind: EntryKind::Start(call),
        });
        Ok(Running::begin(self.alloc, call, seat, place, oldest.event, handler))
    }
}
