//! Handlers are replaced.
ghost use Rattle.std.specs.Prelude.{◌≡◌, Some, Ok, None, IfOk, IfErr, IfSome, OnOk, OnErr, IsTrue};
ghost use Rattle.rpc_journal.specs.Changes.{ReplaceDid};
ghost use Rattle.rpc_journal.specs.Lawful.{IsLegal};
ghost use Rattle.rpc_journal.specs.Refusals.{replace_refusal as refusal_of};
ghost use Rattle.rpc_journal.specs.States.{state_of};
ghost use Rattle.rpc_journal.specs.CallTable.{past};

use super::Calls;
use crate::room::take_room;
use rpc_handlers::Handler;
use rpc_journal::{Entry, EntryKind, MAX_ENTRIES, ReplaceRefused};
use std::alloc::AllocError;

impl<H: Handler> Calls<H> {
    /// Gives a call another handler, which takes its next event. The old one comes back where the call doesn't run; where
    /// it runs, `finish` gives it back. Refused, the new one comes back.
    pub fn replace(
        &mut self,
        seat: u32,
        call: u32,
        handler: H,
    ) -> Result<Option<H>, (H, ReplaceRefused)>
        requires { H.can_act handler }
        ensures did { ReplaceDid self.old.setting seat call (H.now handler) result self.old.entries self.new.entries }
        ensures back { IfErr result (λ e. e.0 ≡ handler) }
        ensures able { IfOk result (λ old. IfSome old H.can_act) }
        ensures state { IfOk result (λ old. IfSome old (λ h. IsTrue H.rule.ruled → state_of H.rule self.old.setting (past self.old) call ≡ Some (H.now h))) }
        ensures setting { self.new.setting ≡ self.old.setting }
        ensures legal { IsLegal H.rule self.new.setting self.new.entries }
    {
        if let Some(refusal) = self.replace_refusal(call) {
            return Err((handler, refusal));
        }
        match self.put_handler(seat, call, handler) {
            Ok(old) => Ok(old),
            Err((handler, _)) => Err((handler, ReplaceRefused::Memory)),
        }
    }

    // What speaks against another handler of this call.
    fn replace_refusal(&self, call: u32) -> Option<ReplaceRefused>
        ensures is { result ≡ refusal_of self.now.setting self.now.entries call }
        ensures legal { IsLegal H.rule self.now.setting self.now.entries }
    {
        if self.journal.len() >= MAX_ENTRIES {
            return Some(ReplaceRefused::JournalFull);
        }
        if call >= self.count() {
            return Some(ReplaceRefused::Unknown);
        }
        match self.status(call) {
            Some(status) => Some(ReplaceRefused::Closed(status)),
            None => None,
        }
    }

    // Replaces the handler of a call that hasn't ended.
    fn put_handler(
        &mut self,
        seat: u32,
        call: u32,
        handler: H,
    ) -> Result<Option<H>, (H, AllocError)>
        requires unrefused { refusal_of self.old.setting self.old.entries call ≡ None }
        requires able { H.can_act handler }
        ensures did { IfOk result (λ old. ReplaceDid self.old.setting seat call (H.now handler) (Ok old) self.old.entries self.new.entries) }
        ensures back { IfErr result (λ e. e.0 ≡ handler) }
        ensures able { IfOk result (λ old. IfSome old H.can_act) }
        ensures state { IfOk result (λ old. IfSome old (λ h. IsTrue H.rule.ruled → state_of H.rule self.old.setting (past self.old) call ≡ Some (H.now h))) }
        ensures legal { OnOk result (IsLegal H.rule self.new.setting self.new.entries) }
        ensures setting { self.new.setting ≡ self.old.setting }
        ensures err { OnErr result (self.new ≡ self.old) }
    {
        if let Err(e) = take_room(&mut self.journal, &mut self.items, self.calls.owed(), 0, 1) {
            return Err((handler, e));
        }
        match handler.memo() {
            Ok(memo) => {
                let old = self.calls.swap_handler(call, handler);
                self.journal.push(Entry {
                    seat,
                    kind: EntryKind::Replace(call, memo),
                });
                Ok(old)
            }
            Err(e) => Err((handler, e)),
        }
    }
}
