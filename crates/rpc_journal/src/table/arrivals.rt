//! How a plain table follows the history over arrivals. Each change ensures that a table that agrees with a history
//! agrees with that history with the arrival.
ghost use Rattle.std.specs.Prelude.{◌≡◌, ℕ, ◌+◌, ◌<◌, ◌^◌, List, ◌∷◌, length, OnOk, OnErr};
ghost use Rattle.rpc_ids.specs.declared.method.MethodRef.{MethodRef};
ghost use Rattle.rpc_ids.specs.declared.status.Status.{Status};
ghost use Rattle.rpc_packet.specs.declared.owned.Packet.{Packet};
ghost use Rattle.rpc_packet.specs.declared.packet_type.PacketType.{PacketType};
ghost use Rattle.rpc_journal.specs.declared.setting.Setting.{Setting};
ghost use Rattle.rpc_journal.specs.Calls.{call_count};
ghost use Rattle.rpc_journal.specs.ClientTable.{refuses_stream};
ghost use Rattle.rpc_journal.specs.Effect.{Deed};
ghost use Rattle.rpc_journal.specs.Entries.{arrive_row};
ghost use Rattle.rpc_journal.specs.History.{deeds_with, entry_by, deed_by};
ghost use Rattle.rpc_journal.specs.table.Moves.{IsOpenMove, row_of};
ghost use Rattle.rpc_journal.specs.Rows.{both_effects, ends_and_clears, ends_call, opens_served, puts_event, replied_row};
ghost use Rattle.rpc_journal.specs.table.Agrees.{HasRoomAt, HasRoomsAt, IsOpenAt, IsSameTable, Agrees};
ghost use Rattle.rpc_journal.specs.table.Touch.{IsServed};

use crate::entry::EntryKind;
use crate::table::arrival_move::Move;
use crate::table::call_state::CallState;
use crate::table::call_states::CallStates;
use bytes::Bytes;
use rpc_handlers::Event;
use rpc_ids::{MethodRef, Status};
use rpc_packet::Packet;
use std::alloc::{AllocError, Global};

impl CallStates {
    /// Makes room for one more event that waits for the call. The table agrees with what it agreed with before.
    pub fn make_room(&mut self, call: usize) -> Result<(), AllocError>
        requires { call < length self.old.calls.items }
        ensures same { IsSameTable self.old self.new }
        ensures room { OnOk result (HasRoomAt self.new.calls.items call) }
        ensures others { (k : ℕ) → HasRoomAt self.old.calls.items k → HasRoomAt self.new.calls.items k }
    {
        self.calls[call].make_room()
    }

    /// Makes room for two more events that wait for the call. The table agrees with what it agreed with before.
    pub fn make_rooms(&mut self, call: usize) -> Result<(), AllocError>
        requires { call < length self.old.calls.items }
        ensures same { IsSameTable self.old self.new }
        ensures room { OnOk result (HasRoomsAt self.new.calls.items call) }
    {
        self.calls[call].make_rooms()
    }

    /// An arrival puts this event to the call.
    pub fn put(&mut self, at: u64, call: usize, event: Event)
        requires { HasRoomAt self.old.calls.items call }
        ensures agrees { (ds : List Deed) (seat : ℕ) (p : _) → at ≡ length ds → Agrees ds self.old → Agrees (deed_by seat (EntryKind.Arrive p) (puts_event call event) ∷ ds) self.new }
    {
        let state = &mut self.calls[call];
        state.put(at, event);
    }

    /// An arrival ends the call with this status.
    pub fn close(&mut self, at: u64, call: usize, status: Status)
        requires room { HasRoomAt self.old.calls.items call }
        requires live { IsOpenAt self.old.calls.items call }
        ensures agrees { (ds : List Deed) (seat : ℕ) (p : _) → at ≡ length ds → Agrees ds self.old → Agrees (deed_by seat (EntryKind.Arrive p) (ends_and_clears call status) ∷ ds) self.new }
    {
        let state = &mut self.calls[call];
        state.close(at, status);
    }

    /// An arrival ends the call with this status, after what waits for it.
    pub fn end(&mut self, at: u64, call: usize, status: Status)
        requires room { HasRoomAt self.old.calls.items call }
        requires live { IsOpenAt self.old.calls.items call }
        ensures agrees { (ds : List Deed) (seat : ℕ) (p : _) → at ≡ length ds → Agrees ds self.old → Agrees (deed_by seat (EntryKind.Arrive p) (ends_call call status) ∷ ds) self.new }
    {
        let state = &mut self.calls[call];
        state.end(at, status);
    }

    /// An arrival ends the call, which has no such stream, and the server is told.
    pub fn refuse(&mut self, at: u64, call: usize)
        requires room { HasRoomAt self.old.calls.items call }
        requires live { IsOpenAt self.old.calls.items call }
        requires count { self.old.unflushed + 1 < 2 ^ 64 }
        ensures agrees { (ds : List Deed) (seat : ℕ) (p : Packet) → at ≡ length ds → Agrees ds self.old → Agrees (deed_by seat (EntryKind.Arrive p) (refuses_stream p call) ∷ ds) self.new }
    {
        let state = &mut self.calls[call];
        state.end(at, Status::InvalidArgument);
        self.unflushed += 1;
    }

    /// An arrival puts a last message to the call, and ends it with this status.
    pub fn answer(&mut self, at: u64, call: usize, payload: Bytes, status: Status)
        requires room { HasRoomsAt self.old.calls.items call }
        requires live { IsOpenAt self.old.calls.items call }
        ensures agrees { (ds : List Deed) (seat : ℕ) (p : _) → at ≡ length ds → Agrees ds self.old → Agrees (deed_by seat (EntryKind.Arrive p) (both_effects (puts_event call (Event.Message payload)) (ends_call call status)) ∷ ds) self.new }
    {
        let state = &mut self.calls[call];
        state.answer(at, payload, status);
    }

    /// An arrival opens this call.
    pub fn open(&mut self, state: CallState) -> Result<(), AllocError>
        ensures agrees { OnOk result ((ds : List Deed) (seat : ℕ) (p : Packet) (m : MethodRef) → Agrees ds self.old → IsServed (length ds) p m state → Agrees (deed_by seat (EntryKind.Arrive p) (opens_served p m (call_count ds)) ∷ ds) self.new) }
        ensures err { OnErr result (IsSameTable self.old self.new) }
    {
        self.calls.reserve(1)?;
        self.newest.set(state.name, self.calls.len())?;
        self.calls.push_reserved(state);
        Ok(())
    }

    /// An arrival ends a call with `CANCELLED`, and opens this one of the same name.
    pub fn open_anew(&mut self, at: u64, call: usize, state: CallState) -> Result<(), AllocError>
        requires room { HasRoomAt self.old.calls.items call }
        requires live { IsOpenAt self.old.calls.items call }
        ensures agrees { OnOk result ((ds : List Deed) (seat : ℕ) (p : Packet) (m : MethodRef) → at ≡ length ds → Agrees ds self.old → IsServed at p m state → Agrees (deed_by seat (EntryKind.Arrive p) (both_effects (ends_and_clears call Status.Cancelled) (opens_served p m (call_count ds))) ∷ ds) self.new) }
        ensures err { OnErr result (IsSameTable self.old self.new) }
    {
        self.calls.reserve(1)?;
        self.newest.set(state.name, self.calls.len())?;
        let old = &mut self.calls[call];
        old.close(at, Status::Cancelled);
        self.calls.push_reserved(state);
        Ok(())
    }

    /// An arrival is answered with a reply of no call.
    pub fn reply(&mut self) -> Result<(), AllocError>
        ensures agrees { OnOk result ((ds : List Deed) (seat : ℕ) (p : Packet) (ptype : PacketType) (status : Status) → Agrees ds self.old → Agrees (deed_by seat (EntryKind.Arrive p) (replied_row ptype p status).does ∷ ds) self.new) }
        ensures err { OnErr result (self.new ≡ self.old) }
    {
        match self.unflushed.checked_add(1) {
            Some(unflushed) => {
                self.unflushed = unflushed;
                Ok(())
            }
            None => Err(AllocError),
        }
    }

    /// A packet arrives, of which this is made. Where memory runs out, the table agrees with what it agreed with
    /// before.
    pub fn arrive(
        &mut self,
        alloc: Global,
        at: u64,
        p: &Packet,
        arrival: Move,
    ) -> Result<(), AllocError>
        requires { IsOpenMove self.old.calls.items arrival }
        ensures agrees { OnOk result ((set : Setting) (ds : List Deed) (seat : ℕ) → at ≡ length ds → arrive_row set ds p.now ≡ row_of arrival p.now (call_count ds) → Agrees ds self.old → Agrees (deeds_with set ds (entry_by seat (EntryKind.Arrive p.now))) self.new) }
        ensures err { OnErr result (IsSameTable self.old self.new) }
    {
        match arrival {
            Move::Drop => Ok(()),
            Move::Reply(_) => self.reply(),
            Move::Stray => self.reply(),
            Move::Close(call, status) => {
                self.make_room(call)?;
                self.close(at, call, status);
                Ok(())
            }
            Move::Open(method) => {
                let state = CallState::served(alloc, p, method, at)?;
                self.open(state)
            }
            Move::OpenAnew(method, call) => {
                let state = CallState::served(alloc, p, method, at)?;
                self.make_room(call)?;
                self.open_anew(at, call, state)
            }
            Move::Queue(call) => {
                let payload = p.payload.clone()?;
                self.make_room(call)?;
                self.put(at, call, Event::Message(payload));
                Ok(())
            }
            Move::Complete(call) => {
                self.make_room(call)?;
                self.put(at, call, Event::Completion);
                Ok(())
            }
            Move::End(call, status) => {
                self.make_room(call)?;
                self.end(at, call, status);
                Ok(())
            }
            Move::Refuse(call) => {
                self.room_for(1)?;
                self.make_room(call)?;
                self.refuse(at, call);
                Ok(())
            }
            Move::Answer(call, status) => {
                let payload = p.payload.clone()?;
                self.make_rooms(call)?;
                self.answer(at, call, payload, status);
                Ok(())
            }
        }
    }
}
