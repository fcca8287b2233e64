//! Channels are closed.
ghost use Rattle.std.specs.Prelude.{◌≡◌, None, Ok, IfOk, OnOk, OnErr};
ghost use Rattle.rpc_journal.specs.Changes.{CloseDid};
ghost use Rattle.rpc_journal.specs.Lawful.{IsLegal};
ghost use Rattle.rpc_journal.specs.Refusals.{close_refusal as refusal_of};

use super::Calls;
use crate::closing_items::{count_live, say_closing};
use crate::room::take_room;
use rpc_handlers::Handler;
use rpc_journal::{CloseRefused, Entry, EntryKind, MAX_ENTRIES};
use std::alloc::AllocError;

impl<H: Handler> Calls<H> {
    /// Closes a channel: its live calls end with `ABORTED`, the peer is told of each, and `Ended` waits for it. Answers how
    /// many calls this ended. The channel is not in again.
    pub fn close_channel(&mut self, seat: u32, channel: u32) -> Result<u32, CloseRefused>
        ensures did { CloseDid self.old.setting seat channel result self.old.entries self.new.entries }
        ensures setting { self.new.setting ≡ self.old.setting }
        ensures legal { IsLegal H.rule self.new.setting self.new.entries }
    {
        if let Some(refusal) = self.close_refusal(channel) {
            return Err(refusal);
        }
        match self.close_calls(seat, channel) {
            Ok(ended) => Ok(ended),
            Err(_) => Err(CloseRefused::Memory),
        }
    }

    // What speaks against it.
    fn close_refusal(&self, channel: u32) -> Option<CloseRefused>
        ensures is { result ≡ refusal_of self.now.setting self.now.entries channel }
        ensures legal { IsLegal H.rule self.now.setting self.now.entries }
    {
        if self.journal.len() >= MAX_ENTRIES {
            return Some(CloseRefused::JournalFull);
        }
        if !self.calls.is_in(&self.setting.channels, channel) {
            return Some(CloseRefused::NotIn);
        }
        None
    }

    // Closes a channel that is in the list, and ends its live calls.
    fn close_calls(&mut self, seat: u32, channel: u32) -> Result<u32, AllocError>
        requires { refusal_of self.old.setting self.old.entries channel ≡ None }
        ensures did { IfOk result (λ n. CloseDid self.old.setting seat channel (Ok n) self.old.entries self.new.entries) }
        ensures legal { OnOk result (IsLegal H.rule self.new.setting self.new.entries) }
        ensures setting { self.new.setting ≡ self.old.setting }
        ensures err { OnErr result (self.new ≡ self.old) }
    {
        let at = self.journal.len();
        let role = self.setting.role;
        let ended = count_live(&self.calls, channel);
        take_room(
            &mut self.journal,
            &mut self.items,
            self.calls.owed(),
            ended,
            1,
        )?;
        self.calls.make_channel_place()?;
        say_closing(&mut self.items, &self.calls, role, channel);
        self.calls.close_channel(at, channel);
        self.calls.set_unflushed(self.items.len() as u64);
        self.journal.push(Entry {
            seat,
            kind: EntryKind::Close(channel),
        });
        Ok(ended)
    }
}
