//! A client opens calls.
ghost use Rattle.std.specs.Prelude.{◌≡◌, Some, None, Ok, IfOk, IfErr, IfSome, OnOk, OnErr};
ghost use Rattle.rpc_journal.specs.Calls.{live_call as call_live};
ghost use Rattle.rpc_journal.specs.Changes.{InvokeDid};
ghost use Rattle.rpc_journal.specs.Conditions.{CanInvoke};
ghost use Rattle.rpc_journal.specs.Lawful.{IsLegal};
ghost use Rattle.rpc_journal.specs.Refusals.{invoke_refusal as refusal_of};
ghost use Rattle.rpc_journal.specs.Rows.{method_named};
ghost use Rattle.rpc_journal.specs.CallTable.{past};

use super::Calls;
use super::opening::MAX_CALLS;
use crate::packets::send_item;
use crate::replies::ask;
use crate::room::take_room;
use bytes::Bytes;
use rpc_handlers::Handler;
use rpc_ids::MethodRef;
use rpc_journal::table::CallState;
use rpc_journal::{Entry, EntryKind, InvokeRefused, MAX_ENTRIES};
use rpc_packet::CallName;
use std::alloc::AllocError;

impl<H: Handler> Calls<H> {
    /// A client opens a call of this name, which this handler answers, and its REQUEST with this payload goes out.
    /// Refused, the handler comes back.
    pub fn invoke(
        &mut self,
        seat: u32,
        name: CallName,
        payload: Bytes,
        handler: H,
    ) -> Result<u32, (H, InvokeRefused)>
        requires can { CanInvoke self.old.setting name payload }
        requires able { H.can_act handler }
        ensures did { InvokeDid self.old.setting seat name payload (H.now handler) result self.old.entries self.new.entries }
        ensures back { IfErr result (λ e. e.0 ≡ handler) }
        ensures setting { self.new.setting ≡ self.old.setting }
        ensures legal { IsLegal H.rule self.new.setting self.new.entries }
    {
        let method = match self.method_to_invoke(name) {
            Ok(method) => method,
            Err(refusal) => return Err((handler, refusal)),
        };
        match self.open_call(seat, name, payload, method, handler) {
            Ok(call) => Ok(call),
            Err((handler, _)) => Err((handler, InvokeRefused::Memory)),
        }
    }

    // The method of a call that can be opened, or what speaks against it.
    fn method_to_invoke(&self, name: CallName) -> Result<MethodRef, InvokeRefused>
        ensures unrefused { OnOk result (refusal_of self.now.setting self.now.entries name ≡ None) }
        ensures method { IfOk result (λ m. method_named self.now.setting name ≡ Some m) }
        ensures cause { IfErr result (λ e. refusal_of self.now.setting self.now.entries name ≡ Some e) }
        ensures legal { IsLegal H.rule self.now.setting self.now.entries }
    {
        if self.journal.len() >= MAX_ENTRIES {
            return Err(InvokeRefused::JournalFull);
        }
        if !self.calls.is_in(&self.setting.channels, name.channel) {
            return Err(InvokeRefused::NoChannel);
        }
        let Some(method) = self.setting.registry.find(name.service, name.method) else {
            return Err(InvokeRefused::NoMethod);
        };
        match self.live_call(name) {
            Some(call) => Err(InvokeRefused::Live(call)),
            None => Ok(method),
        }
    }

    // The last call of this name, where it has no end.
    fn live_call(&self, name: CallName) -> Option<u32>
        ensures { result ≡ call_live (past self.now) name }
    {
        self.calls.live(name).map(|call| call as u32)
    }

    // Opens a call whose name no live call has.
    fn open_call(
        &mut self,
        seat: u32,
        name: CallName,
        payload: Bytes,
        method: MethodRef,
        handler: H,
    ) -> Result<u32, (H, AllocError)>
        requires can { CanInvoke self.old.setting name payload }
        requires unrefused { refusal_of self.old.setting self.old.entries name ≡ None }
        requires method { method_named self.old.setting name ≡ Some method }
        requires able { H.can_act handler }
        ensures did { IfOk result (λ call. InvokeDid {H = H} self.old.setting seat name payload (H.now handler) (Ok call) self.old.entries self.new.entries) }
        ensures back { IfErr result (λ e. e.0 ≡ handler) }
        ensures legal { OnOk result (IsLegal H.rule self.new.setting self.new.entries) }
        ensures setting { self.new.setting ≡ self.old.setting }
        ensures err { OnErr result (self.new ≡ self.old) }
    {
        let call = self.calls.count();
        if call >= MAX_CALLS {
            return Err((handler, AllocError));
        }
        if let Err(e) = take_room(&mut self.journal, &mut self.items, self.calls.owed(), 3, 2) {
            return Err((handler, e));
        }
        let memo = match handler.memo() {
            Ok(memo) => memo,
            Err(e) => return Err((handler, e)),
        };
        let (packet, copy) = match ask(name, payload) {
            Ok(packets) => packets,
            Err(e) => return Err((handler, e)),
        };
        let state = match CallState::invoked(self.alloc, name, method) {
            Ok(state) => state,
            Err(e) => return Err((handler, e)),
        };
        self.calls.open(state, handler)?;
        self.items.push_back_reserved(send_item(call as u32, copy));
        self.calls.set_unflushed(self.items.len() as u64);
        self.journal.push(Entry {
            seat,
            kind: EntryKind::Invoke(packet, memo),
        });
        Ok(call as u32)
    }
}
