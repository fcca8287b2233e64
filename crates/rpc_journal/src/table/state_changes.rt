//! How a plain table follows the history over each kind of entry but arrivals. Each change ensures that a table that
//! agrees with a history agrees with that history with the entry.
ghost use Rattle.std.specs.Prelude.{◌≡◌, ℕ, ◌+◌, ◌<◌, ◌^◌, List, ◌∷◌, length, slice_get, Some, OnOk, OnErr};
ghost use Rattle.rpc_ids.specs.declared.method.MethodRef.{MethodRef};
ghost use Rattle.rpc_packet.specs.declared.owned.Packet.{Packet};
ghost use Rattle.rpc_packet.specs.declared.packet_type.PacketType.TheVariants.{Request};
ghost use Rattle.rpc_handlers.specs.declared.event.Memo.{Memo};
ghost use Rattle.rpc_journal.specs.declared.setting.Setting.{Setting};
ghost use Rattle.rpc_journal.specs.Effect.{Deed};
ghost use Rattle.rpc_journal.specs.Entries.{close_effect};
ghost use Rattle.rpc_journal.specs.History.{deeds_with, entry_by};
ghost use Rattle.rpc_journal.specs.Queues.{waiting_of};
ghost use Rattle.rpc_journal.specs.Rows.{method_named};
ghost use Rattle.rpc_journal.specs.table.Agrees.{CanCancel, CanClose, CanFinish, CanStart, HasRoomAt, HasRoomFor, IsSameTable, IsToldAll, Agrees};
ghost use Rattle.rpc_journal.specs.table.Touch.{IsInvoked};

use crate::entry::EntryKind;
use crate::table::call_state::CallState;
use crate::table::call_states::CallStates;
use crate::table::notice::Notice;
use crate::waiting::Waiting;
use link_io::Why;
use rpc_handlers::Answer;
use rpc_ids::Role;
use std::alloc::AllocError;

impl CallStates {
    /// A client opens this call, and its request goes out. There must be room to count it.
    pub fn invoke(&mut self, state: CallState) -> Result<(), AllocError>
        requires { self.old.unflushed + 1 < 2 ^ 64 }
        ensures agrees { OnOk result ((set : Setting) (ds : List Deed) (seat : ℕ) (p : Packet) (memo : Memo) (m : MethodRef) → p.ptype ≡ Request → method_named set p.name ≡ Some m → IsInvoked p.name m state → Agrees ds self.old → Agrees (deeds_with set ds (entry_by seat (EntryKind.Invoke p memo))) self.new) }
        ensures err { OnErr result (IsSameTable self.old self.new) }
    {
        self.calls.reserve(1)?;
        self.newest.set(state.name, self.calls.len())?;
        self.calls.push_reserved(state);
        self.unflushed += 1;
        Ok(())
    }

    /// A run of this seat begins, with the oldest event that waits for the call.
    pub fn start(&mut self, seat: u32, call: u32) -> Waiting
        requires { CanStart self.old.calls.items call }
        ensures agrees { (set : Setting) (ds : List Deed) → Agrees ds self.old → Agrees (deeds_with set ds (entry_by seat (EntryKind.Start call))) self.new }
        ensures took { (ds : List Deed) → Agrees ds self.old → slice_get (waiting_of ds call) 0 ≡ Some result }
    {
        let state = &mut self.calls[call as usize];
        state.start(seat)
    }

    /// The run of the call ends with this answer.
    pub fn finish(&mut self, role: Role, call: u32, a: &Answer)
        requires { CanFinish role self.old call a.now }
        ensures agrees { (set : Setting) (ds : List Deed) (seat : ℕ) → set.role ≡ role → Agrees ds self.old → Agrees (deeds_with set ds (entry_by seat (EntryKind.Finish call a.now))) self.new }
    {
        let state = &mut self.calls[call as usize];
        let end = state.end_given(role, a);
        let completes = state.completes_given(role, a);
        let items = state.items_given(role, a);
        state.finish(end, completes);
        self.unflushed += items;
    }

    /// The call is cancelled.
    pub fn cancel(&mut self, call: u32)
        requires { CanCancel self.old call }
        ensures agrees { (set : Setting) (ds : List Deed) (seat : ℕ) → Agrees ds self.old → Agrees (deeds_with set ds (entry_by seat (EntryKind.Cancel call))) self.new }
    {
        let state = &mut self.calls[call as usize];
        let items = state.items_of_cancel();
        state.cancel();
        self.unflushed += items;
    }

    /// The call's owner sends a message or acts on the store.
    pub fn say(&mut self, call: u32)
        requires known { call < length self.old.calls.items }
        requires room { self.old.unflushed + 1 < 2 ^ 64 }
        ensures agrees { (set : Setting) (ds : List Deed) (seat : ℕ) (out : _) → Agrees ds self.old → Agrees (deeds_with set ds (entry_by seat (EntryKind.Say call out))) self.new }
    {
        self.unflushed += 1;
    }

    /// A client ends the stream of its messages.
    pub fn done(&mut self, call: u32)
        requires known { call < length self.old.calls.items }
        requires room { self.old.unflushed + 1 < 2 ^ 64 }
        ensures agrees { (set : Setting) (ds : List Deed) (seat : ℕ) → Agrees ds self.old → Agrees (deeds_with set ds (entry_by seat (EntryKind.Done call))) self.new }
    {
        let state = &mut self.calls[call as usize];
        state.complete();
        self.unflushed += 1;
    }

    /// Whether so many further items can be counted.
    pub fn room_for(&self, items: u64) -> Result<(), AllocError>
        ensures { OnOk result (self.now.unflushed + items < 2 ^ 64) }
    {
        match self.unflushed.checked_add(items) {
            Some(_) => Ok(()),
            None => Err(AllocError),
        }
    }

    /// Makes room for one more event that waits for each call. The table agrees with what it agreed with before.
    pub fn make_room_for_all(&mut self) -> Result<(), AllocError>
        ensures same { IsSameTable self.old self.new }
        ensures room { OnOk result ((call : ℕ) → call < length self.new.calls.items → HasRoomAt self.new.calls.items call) }
    {
        let count = self.calls.len();
        for call in 0..count {
            self.make_room(call)?;
        }
        Ok(())
    }

    // All calls are told of this.
    fn tell_all(&mut self, at: u64, notice: Notice)
        requires { HasRoomFor notice self.old.calls.items }
        ensures calls { IsToldAll at notice self.old.calls.items self.new.calls.items }
        ensures newest { self.new.newest ≡ self.old.newest }
        ensures closed { self.new.closed ≡ self.old.closed }
        ensures unflushed { self.new.unflushed ≡ self.old.unflushed }
        ensures input { self.new.input_ended ≡ self.old.input_ended }
        ensures halt { self.new.halted ≡ self.old.halted }
    {
        let count = self.calls.len();
        for call in 0..count {
            let state = &mut self.calls[call];
            state.tell(at, notice);
        }
    }

    /// The time has come to this moment, in milliseconds.
    pub fn tick(&mut self, at: u64, now: u64)
        requires { HasRoomFor (Notice.Time now) self.old.calls.items }
        ensures agrees { (set : Setting) (ds : List Deed) (seat : ℕ) → at ≡ length ds → Agrees ds self.old → Agrees (deeds_with set ds (entry_by seat (EntryKind.Tick now))) self.new }
    {
        self.tell_all(at, Notice::Time(now));
    }

    /// The input ends, for the first time.
    pub fn end_in(&mut self, at: u64)
        requires { HasRoomFor Notice.InputEnded self.old.calls.items }
        ensures agrees { (set : Setting) (ds : List Deed) (seat : ℕ) → at ≡ length ds → Agrees ds self.old → Agrees (deeds_with set ds (entry_by seat EntryKind.EndIn)) self.new }
    {
        self.tell_all(at, Notice::InputEnded);
        self.input_ended = true;
    }

    /// The oldest item that waits is flushed.
    pub fn flush(&mut self)
        requires { 0 < self.old.unflushed }
        ensures agrees { (set : Setting) (ds : List Deed) (seat : ℕ) → Agrees ds self.old → Agrees (deeds_with set ds (entry_by seat EntryKind.Flush)) self.new }
    {
        self.unflushed -= 1;
    }

    /// The table is halted, for the first time.
    pub fn halt(&mut self, why: Why)
        ensures agrees { (set : Setting) (ds : List Deed) (seat : ℕ) → Agrees ds self.old → Agrees (deeds_with set ds (entry_by seat (EntryKind.Halt why))) self.new }
    {
        self.halted = Some(why);
    }

    /// Makes room to close this channel: for the ends of its calls, to count their packets, and to keep the channel.
    /// The table agrees with what it agreed with before.
    pub fn make_room_to_close(&mut self, channel: u32) -> Result<(), AllocError>
        ensures same { IsSameTable self.old self.new }
        ensures room { OnOk result (CanClose channel self.new) }
    {
        self.make_room_for_all()?;
        self.room_for(self.live_on(channel) as u64)?;
        self.closed.reserve(1)
    }

    /// The channel is closed, for the first time: its live calls end with `ABORTED`. Answers how many.
    pub fn close_channel(&mut self, at: u64, channel: u32) -> u64
        requires { CanClose channel self.old }
        ensures agrees { (set : Setting) (ds : List Deed) (seat : ℕ) → at ≡ length ds → Agrees ds self.old → Agrees (deeds_with set ds (entry_by seat (EntryKind.Close channel))) self.new }
        ensures ended { (set : Setting) (ds : List Deed) → Agrees ds self.old → result ≡ length (close_effect set.role ds channel).ends }
    {
        let ended = self.live_on(channel) as u64;
        self.tell_all(at, Notice::ChannelClosed(channel));
        self.unflushed += ended;
        self.closed.push_reserved(channel);
        ended
    }
}
