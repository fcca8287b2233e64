//! Packets that open calls.
ghost use Rattle.std.specs.Prelude.{◌≡◌, IfOk, OnErr};
ghost use Rattle.rpc_ids.specs.declared.status.Status.TheVariants.{Cancelled};
ghost use Rattle.rpc_journal.specs.Calls.{call_count};
ghost use Rattle.rpc_journal.specs.Rows.{both_effects, ends_and_clears, opened_row, opens_served};
ghost use Rattle.rpc_journal.specs.CallTable.{past};
ghost use Rattle.rpc_calls.specs.Arrivals.{CanTake, IsLiveCall, Took};

use super::Calls;
use crate::room::take_room;
use crate::served::serve;
use rpc_handlers::Handler;
use rpc_ids::MethodRef;
use rpc_journal::{Arrived, Entry, EntryKind};
use rpc_packet::Packet;
use std::alloc::AllocError;

/// How many calls a table can have, so that a `u32` numbers them.
pub(super) const MAX_CALLS: usize = u32::MAX as usize;

impl<H: Handler> Calls<H> {
    // A packet that opens a call.
    pub(super) fn arrive_opened(
        &mut self,
        seat: u32,
        p: &Packet,
        method: MethodRef,
        handler: H,
    ) -> Result<Arrived, AllocError>
        requires take { let n = call_count (past self.old) in CanTake self.old.setting self.old.entries seat p.now (opened_row n (opens_served p.now method n)) }
        requires able { H.can_act handler }
        requires first { H.now handler ≡ H.rule.first self.old.setting.seed method }
        ensures took { IfOk result (λ a. Took H.rule self.old.setting seat p.now a self.old.entries self.new.entries) }
        ensures setting { self.new.setting ≡ self.old.setting }
        ensures err { OnErr result (self.new ≡ self.old) }
    {
        let at = self.journal.len();
        let call = self.calls.count();
        if call >= MAX_CALLS {
            return Err(AllocError);
        }
        take_room(&mut self.journal, &mut self.items, self.calls.owed(), 2, 2)?;
        let (packet, state) = serve(self.alloc, p, method, at)?;
        if let Err((_, e)) = self.calls.open(state, handler) {
            return Err(e);
        }
        self.journal.push(Entry {
            seat,
            kind: EntryKind::Arrive(packet),
        });
        Ok(Arrived::Opened(call as u32))
    }

    // A packet that opens a call, and ends the one of this name before it.
    pub(super) fn arrive_anew(
        &mut self,
        seat: u32,
        p: &Packet,
        method: MethodRef,
        old: u32,
        handler: H,
    ) -> Result<Arrived, AllocError>
        requires take { let n = call_count (past self.old) in CanTake self.old.setting self.old.entries seat p.now (opened_row n (both_effects (ends_and_clears old Cancelled) (opens_served p.now method n))) }
        requires live { IsLiveCall (past self.old) old }
        requires able { H.can_act handler }
        requires first { H.now handler ≡ H.rule.first self.old.setting.seed method }
        ensures took { IfOk result (λ a. Took H.rule self.old.setting seat p.now a self.old.entries self.new.entries) }
        ensures setting { self.new.setting ≡ self.old.setting }
        ensures err { OnErr result (self.new ≡ self.old) }
    {
        let at = self.journal.len();
        let call = self.calls.count();
        if call >= MAX_CALLS {
            return Err(AllocError);
        }
        take_room(&mut self.journal, &mut self.items, self.calls.owed(), 2, 2)?;
        let (packet, state) = serve(self.alloc, p, method, at)?;
        self.calls.open_anew(old, at, state, handler)?;
        self.journal.push(Entry {
            seat,
            kind: EntryKind::Arrive(packet),
        });
        Ok(Arrived::Opened(call as u32))
    }
}
