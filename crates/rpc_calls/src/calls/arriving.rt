//! Packets arrive.
ghost use Rattle.std.specs.Prelude.{◌≡◌, IfOk, OnErr};
ghost use Rattle.rpc_handlers.specs.declared.event.Event.TheVariants.{Message};
ghost use Rattle.rpc_journal.specs.ClientTable.{refuses_stream};
ghost use Rattle.rpc_journal.specs.Rows.{both_effects, closed_row, dropped_row, ends_and_clears, ends_call, puts_event, queued_row, replied_row};
ghost use Rattle.rpc_journal.specs.CallTable.{past};
ghost use Rattle.rpc_calls.specs.Arrivals.{CanTake, IsLiveCall, IsLiveMove, Took, event_put};
ghost use Rattle.rpc_journal.specs.Calls.{call_count};
ghost use Rattle.rpc_journal.specs.Changes.{ArriveDid};
ghost use Rattle.rpc_journal.specs.Conditions.{IsHeard, IsInputOpen};
ghost use Rattle.rpc_journal.specs.Entries.{arrive_row};
ghost use Rattle.rpc_journal.specs.Lawful.{IsLegal, full_queue as queue_full};
ghost use Rattle.rpc_journal.specs.table.Moves.{row_of};

use super::Calls;
use crate::replies::{copy_packet, copy_with_event, copy_with_payload, refuse_stream, reply};
use crate::room::take_room;
use rpc_handlers::{Handler, Maker};
use rpc_ids::Status;
use rpc_journal::table::{Move, move_of};
use rpc_journal::{ArriveRefused, Arrived, Entry, EntryKind, MAX_ENTRIES};
use rpc_packet::{Packet, PacketType};
use std::alloc::AllocError;

impl<H: Handler> Calls<H> {
    /// A packet arrives. It is one that this role hears, none of its ids is 0, and the input hasn't ended. The maker's seed
    /// is the one of the table; it makes the handler of a call that opens.
    pub fn arrive<M: Maker<H = H>>(
        &mut self,
        seat: u32,
        p: &Packet,
        maker: &M,
    ) -> Result<Arrived, ArriveRefused>
        requires input { IsInputOpen self.old.setting self.old.entries seat }
        requires heard { IsHeard self.old.setting p.now }
        requires seed { M.seed_memo maker.now ≡ self.old.setting.seed }
        ensures did { ArriveDid self.old.setting seat p.now result self.old.entries self.new.entries }
        ensures setting { self.new.setting ≡ self.old.setting }
        ensures legal { IsLegal H.rule self.new.setting self.new.entries }
    {
        if self.journal.len() >= MAX_ENTRIES {
            return Err(ArriveRefused::JournalFull);
        }
        let arrival = self.move_of(p);
        if let Some(call) = self.full_queue(p, arrival) {
            return Err(ArriveRefused::QueueFull(call));
        }
        match self.take(seat, p, arrival, maker) {
            Ok(answer) => Ok(answer),
            Err(_) => Err(ArriveRefused::Memory),
        }
    }

    // What the packet does.
    fn move_of(&self, p: &Packet) -> Move
        ensures row { arrive_row self.now.setting (past self.now) p.now ≡ row_of result p.now (call_count (past self.now)) }
        ensures live { IsLiveMove (past self.now) result }
    {
        let is_in = self.calls.is_in(&self.setting.channels, p.name.channel);
        let live = self.calls.live(p.name);
        let completed = self.calls.is_completed(live);
        let role = self.setting.role;
        move_of(role, is_in, live, completed, p, &self.setting.registry)
    }

    // The call for which the packet would wait, and which has no place for it.
    fn full_queue(&self, p: &Packet, arrival: Move) -> Option<u32>
        requires { arrive_row self.now.setting (past self.now) p.now ≡ row_of arrival p.now (call_count (past self.now)) }
        ensures { result ≡ queue_full self.now.setting (past self.now) p.now }
    {
        let _ = p;
        self.calls.full_queue(arrival).map(|c| c as u32)
    }

    // The packet does this.
    fn take<M: Maker<H = H>>(
        &mut self,
        seat: u32,
        p: &Packet,
        arrival: Move,
        maker: &M,
    ) -> Result<Arrived, AllocError>
        requires take { CanTake self.old.setting self.old.entries seat p.now (row_of arrival p.now (call_count (past self.old))) }
        requires live { IsLiveMove (past self.old) arrival }
        requires seed { M.seed_memo maker.now ≡ self.old.setting.seed }
        ensures took { IfOk result (λ a. Took H.rule self.old.setting seat p.now a self.old.entries self.new.entries) }
        ensures setting { self.new.setting ≡ self.old.setting }
        ensures err { OnErr result (self.new ≡ self.old) }
    {
        match arrival {
            Move::Drop => self.arrive_dropped(seat, p),
            Move::Reply(status) => self.arrive_replied(seat, p, PacketType::ServerError, status),
            Move::Stray => {
                self.arrive_replied(seat, p, PacketType::ClientError, Status::FailedPrecondition)
            }
            Move::Close(call, status) => self.arrive_closed(seat, p, call as u32, status),
            Move::Open(method) => {
                let handler = maker.make(method)?;
                self.arrive_opened(seat, p, method, handler)
            }
            Move::OpenAnew(method, call) => {
                let handler = maker.make(method)?;
                self.arrive_anew(seat, p, method, call as u32, handler)
            }
            Move::Queue(call) => self.arrive_put(seat, p, call as u32, false),
            Move::Complete(call) => self.arrive_put(seat, p, call as u32, true),
            Move::End(call, status) => self.arrive_ended(seat, p, call as u32, status),
            Move::Refuse(call) => self.arrive_refused(seat, p, call as u32),
            Move::Answer(call, status) => self.arrive_answered(seat, p, call as u32, status),
        }
    }

    // A packet that does nothing.
    fn arrive_dropped(&mut self, seat: u32, p: &Packet) -> Result<Arrived, AllocError>
        requires { CanTake self.old.setting self.old.entries seat p.now dropped_row }
        ensures took { IfOk result (λ a. Took H.rule self.old.setting seat p.now a self.old.entries self.new.entries) }
        ensures setting { self.new.setting ≡ self.old.setting }
        ensures err { OnErr result (self.new ≡ self.old) }
    {
        take_room(&mut self.journal, &mut self.items, self.calls.owed(), 0, 1)?;
        let packet = copy_packet(p)?;
        self.journal.push(Entry {
            seat,
            kind: EntryKind::Arrive(packet),
        });
        Ok(Arrived::Dropped)
    }

    // A packet that is answered with a reply of no call.
    fn arrive_replied(
        &mut self,
        seat: u32,
        p: &Packet,
        ptype: PacketType,
        status: Status,
    ) -> Result<Arrived, AllocError>
        requires { CanTake self.old.setting self.old.entries seat p.now (replied_row ptype p.now status) }
        ensures took { IfOk result (λ a. Took H.rule self.old.setting seat p.now a self.old.entries self.new.entries) }
        ensures setting { self.new.setting ≡ self.old.setting }
        ensures err { OnErr result (self.new ≡ self.old) }
    {
        take_room(&mut self.journal, &mut self.items, self.calls.owed(), 1, 1)?;
        let packet = copy_packet(p)?;
        reply(&mut self.items, ptype, p.name, status);
        self.calls.set_unflushed(self.items.len() as u64);
        self.journal.push(Entry {
            seat,
            kind: EntryKind::Arrive(packet),
        });
        Ok(Arrived::Answered)
    }

    // A packet that ends a call.
    fn arrive_closed(
        &mut self,
        seat: u32,
        p: &Packet,
        call: u32,
        status: Status,
    ) -> Result<Arrived, AllocError>
        requires take { CanTake self.old.setting self.old.entries seat p.now (closed_row call (ends_and_clears call status)) }
        requires live { IsLiveCall (past self.old) call }
        ensures took { IfOk result (λ a. Took H.rule self.old.setting seat p.now a self.old.entries self.new.entries) }
        ensures setting { self.new.setting ≡ self.old.setting }
        ensures err { OnErr result (self.new ≡ self.old) }
    {
        let at = self.journal.len();
        take_room(&mut self.journal, &mut self.items, self.calls.owed(), 0, 1)?;
        let packet = copy_packet(p)?;
        self.calls.close(call, at, status);
        self.journal.push(Entry {
            seat,
            kind: EntryKind::Arrive(packet),
        });
        Ok(Arrived::Closed(call))
    }

    // A packet that puts an event to a call.
    fn arrive_put(
        &mut self,
        seat: u32,
        p: &Packet,
        call: u32,
        completes: bool,
    ) -> Result<Arrived, AllocError>
        requires take { CanTake self.old.setting self.old.entries seat p.now (queued_row call (event_put completes p.now)) }
        requires live { IsLiveCall (past self.old) call }
        ensures took { IfOk result (λ a. Took H.rule self.old.setting seat p.now a self.old.entries self.new.entries) }
        ensures setting { self.new.setting ≡ self.old.setting }
        ensures err { OnErr result (self.new ≡ self.old) }
    {
        let at = self.journal.len();
        self.calls.widen(call)?;
        take_room(&mut self.journal, &mut self.items, self.calls.owed(), 0, 1)?;
        let (packet, event) = copy_with_event(p, completes)?;
        self.calls.put(call, at, event);
        self.journal.push(Entry {
            seat,
            kind: EntryKind::Arrive(packet),
        });
        Ok(Arrived::Queued(call))
    }

    // A packet that ends a client's call, behind what waits for it.
    fn arrive_ended(
        &mut self,
        seat: u32,
        p: &Packet,
        call: u32,
        status: Status,
    ) -> Result<Arrived, AllocError>
        requires take { CanTake self.old.setting self.old.entries seat p.now (closed_row call (ends_call call status)) }
        requires live { IsLiveCall (past self.old) call }
        ensures took { IfOk result (λ a. Took H.rule self.old.setting seat p.now a self.old.entries self.new.entries) }
        ensures setting { self.new.setting ≡ self.old.setting }
        ensures err { OnErr result (self.new ≡ self.old) }
    {
        let at = self.journal.len();
        take_room(&mut self.journal, &mut self.items, self.calls.owed(), 0, 1)?;
        let packet = copy_packet(p)?;
        self.calls.end(call, at, status);
        self.journal.push(Entry {
            seat,
            kind: EntryKind::Arrive(packet),
        });
        Ok(Arrived::Closed(call))
    }

    // A message of a stream that a client's call doesn't have: the call ends, and the server is told.
    fn arrive_refused(&mut self, seat: u32, p: &Packet, call: u32) -> Result<Arrived, AllocError>
        requires take { CanTake self.old.setting self.old.entries seat p.now (closed_row call (refuses_stream p.now call)) }
        requires live { IsLiveCall (past self.old) call }
        ensures took { IfOk result (λ a. Took H.rule self.old.setting seat p.now a self.old.entries self.new.entries) }
        ensures setting { self.new.setting ≡ self.old.setting }
        ensures err { OnErr result (self.new ≡ self.old) }
    {
        let at = self.journal.len();
        take_room(&mut self.journal, &mut self.items, self.calls.owed(), 1, 1)?;
        let packet = copy_packet(p)?;
        refuse_stream(&mut self.items, call, p.name);
        self.calls.end(call, at, Status::InvalidArgument);
        self.calls.set_unflushed(self.items.len() as u64);
        self.journal.push(Entry {
            seat,
            kind: EntryKind::Arrive(packet),
        });
        Ok(Arrived::Closed(call))
    }

    // A packet that ends a client's call with a last message.
    fn arrive_answered(
        &mut self,
        seat: u32,
        p: &Packet,
        call: u32,
        status: Status,
    ) -> Result<Arrived, AllocError>
        requires take { CanTake self.old.setting self.old.entries seat p.now (closed_row call (both_effects (puts_event call (Message p.now.payload)) (ends_call call status))) }
        requires live { IsLiveCall (past self.old) call }
        ensures took { IfOk result (λ a. Took H.rule self.old.setting seat p.now a self.old.entries self.new.entries) }
        ensures setting { self.new.setting ≡ self.old.setting }
        ensures err { OnErr result (self.new ≡ self.old) }
    {
        let at = self.journal.len();
        self.calls.widen(call)?;
        take_room(&mut self.journal, &mut self.items, self.calls.owed(), 0, 1)?;
        let (packet, payload) = copy_with_payload(p)?;
        self.calls.answer(call, at, payload, status);
        self.journal.push(Entry {
            seat,
            kind: EntryKind::Arrive(packet),
        });
        Ok(Arrived::Closed(call))
    }
}
