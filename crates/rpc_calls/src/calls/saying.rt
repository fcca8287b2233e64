//! Messages and store actions go out, and a client's stream ends.
ghost use Rattle.std.specs.Prelude.{◌≡◌, ◌⊎◌, None, IfOk, OnOk, OnErr, Ok};
ghost use Rattle.rpc_journal.specs.Changes.{DoneDid, SayDid};
ghost use Rattle.rpc_journal.specs.Conditions.{CanComplete, CanSay, IsCall};
ghost use Rattle.rpc_journal.specs.Lawful.{IsLegal};
ghost use Rattle.rpc_journal.specs.Refusals.{done_refusal as done_speaks, message_refusal as message_speaks, out_refusal as out_speaks, say_refusal};
ghost use Rattle.rpc_journal.specs.CallTable.{past};

use super::Calls;
use crate::answer_items::out_item;
use crate::copies::copy_out;
use crate::packets::{send_item, status_packet};
use crate::room::take_room;
use rpc_handlers::{Handler, Out};
use rpc_ids::Status;
use rpc_journal::{Entry, EntryKind, MAX_ENTRIES, SayRefused, is_server};
use rpc_packet::PacketType;
use std::alloc::AllocError;

impl<H: Handler> Calls<H> {
    /// A message of a call goes out, or a store action of it is made. A message has at most 8,000 bytes.
    pub fn say(&mut self, seat: u32, call: u32, out: Out) -> Result<(), SayRefused>
        requires { CanSay self.old.setting self.old.entries call out }
        ensures did { SayDid self.old.setting seat call out result self.old.entries self.new.entries }
        ensures setting { self.new.setting ≡ self.old.setting }
        ensures legal { IsLegal H.rule self.new.setting self.new.entries }
    {
        if self.journal.len() >= MAX_ENTRIES {
            return Err(SayRefused::JournalFull);
        }
        if let Some(refusal) = self.out_refusal(call, &out) {
            return Err(refusal);
        }
        match self.say_out(seat, call, out) {
            Ok(()) => Ok(()),
            Err(_) => Err(SayRefused::Memory),
        }
    }

    /// A client ends its stream of a call: the server is told that no message of it comes any more.
    pub fn done(&mut self, seat: u32, call: u32) -> Result<(), SayRefused>
        requires { CanComplete self.old.setting self.old.entries call }
        ensures did { DoneDid self.old.setting seat call result self.old.entries self.new.entries }
        ensures setting { self.new.setting ≡ self.old.setting }
        ensures legal { IsLegal H.rule self.new.setting self.new.entries }
    {
        if let Some(refusal) = self.done_refusal(call) {
            return Err(refusal);
        }
        match self.complete(seat, call) {
            Ok(()) => Ok(()),
            Err(_) => Err(SayRefused::Memory),
        }
    }

    // What speaks against this message or store action, beside a full journal.
    fn out_refusal(&self, call: u32, out: &Out) -> Option<SayRefused>
        requires { IsCall self.now.setting self.now.entries call }
        ensures { result ≡ out_speaks self.now.setting (past self.now) call out.now }
    {
        if let Out::Say(_) = out {
            return self.message_refusal(call);
        }
        if self.calls.is_cancelled(call) {
            let status = self.status(call).unwrap_or(Status::Cancelled);
            return Some(SayRefused::Closed(status));
        }
        None
    }

    // What speaks against a message.
    fn message_refusal(&self, call: u32) -> Option<SayRefused>
        requires { IsCall self.now.setting self.now.entries call }
        ensures { result ≡ message_speaks self.now.setting (past self.now) call }
    {
        if let Some(status) = self.status(call) {
            return Some(SayRefused::Closed(status));
        }
        let role = self.setting.role;
        if !self.calls.has_stream(role, call) {
            return Some(SayRefused::NoStream);
        }
        if !is_server(role) && self.calls.is_done(call) {
            return Some(SayRefused::Completed);
        }
        None
    }

    // What speaks against the end of the stream.
    fn done_refusal(&self, call: u32) -> Option<SayRefused>
        requires { IsCall self.now.setting self.now.entries call }
        ensures is { result ≡ done_speaks self.now.setting self.now.entries call }
        ensures legal { IsLegal H.rule self.now.setting self.now.entries }
    {
        if self.journal.len() >= MAX_ENTRIES {
            return Some(SayRefused::JournalFull);
        }
        if let Some(status) = self.status(call) {
            return Some(SayRefused::Closed(status));
        }
        if self.calls.is_unary(call) {
            return Some(SayRefused::NoStream);
        }
        if self.calls.is_done(call) {
            return Some(SayRefused::Completed);
        }
        None
    }

    // Says this of a call that may say it.
    fn say_out(&mut self, seat: u32, call: u32, out: Out) -> Result<(), AllocError>
        requires can { CanSay self.old.setting self.old.entries call out }
        requires unrefused { say_refusal self.old.setting self.old.entries call out ≡ None }
        ensures did { OnOk result (SayDid self.old.setting seat call out (Ok (record {})) self.old.entries self.new.entries) }
        ensures legal { OnOk result (IsLegal H.rule self.new.setting self.new.entries) }
        ensures setting { self.new.setting ≡ self.old.setting }
        ensures err { OnErr result (self.new ≡ self.old) }
    {
        take_room(&mut self.journal, &mut self.items, self.calls.owed(), 1, 1)?;
        let copy = copy_out(&out)?;
        let name = self.calls.facts(call).unwrap().name;
        self.items
            .push_back_reserved(out_item(self.setting.role, call, name, copy));
        self.calls.set_unflushed(self.items.len() as u64);
        self.journal.push(Entry {
            seat,
            kind: EntryKind::Say(call, out),
        });
        Ok(())
    }

    // Completes the stream of a call that has one.
    fn complete(&mut self, seat: u32, call: u32) -> Result<(), AllocError>
        requires can { CanComplete self.old.setting self.old.entries call }
        requires unrefused { done_speaks self.old.setting self.old.entries call ≡ None }
        ensures did { OnOk result (DoneDid self.old.setting seat call (Ok (record {})) self.old.entries self.new.entries) }
        ensures legal { OnOk result (IsLegal H.rule self.new.setting self.new.entries) }
        ensures setting { self.new.setting ≡ self.old.setting }
        ensures err { OnErr result (self.new ≡ self.old) }
    {
        take_room(&mut self.journal, &mut self.items, self.calls.owed(), 1, 1)?;
        let name = self.calls.facts(call).unwrap().name;
        let packet = status_packet(PacketType::Completion, name, Status::Okay);
        self.items.push_back_reserved(send_item(call, packet));
        self.calls.complete(call);
        self.calls.set_unflushed(self.items.len() as u64);
        self.journal.push(Entry {
            seat,
            kind: EntryKind::Done(call),
        });
        Ok(())
    }
}
