//! How the state of one call changes.
ghost use Rattle.std.specs.Prelude.{◌≡◌, ◌+◌, ◌<◌, ◌≤◌, Some, None, false, true, is_some, ◌∷◌, OnOk};
ghost use Rattle.std.specs.VecDeque.{deque_len, deque_capacity};
ghost use Rattle.rpc_handlers.specs.declared.event.Event.{Event};
ghost use Rattle.rpc_journal.specs.Kinds.{is_empty};
ghost use Rattle.rpc_journal.specs.table.Touch.{starting, finishing_so, cancelling, closing, putting, ending, answering, completing, events_kept, IsSame, is_told, telling};
ghost use Rattle.rpc_journal.specs.table.Turns.{Turns};

use crate::table::call_state::{CallState, is_ended};
use crate::table::notice::Notice;
use crate::waiting::Waiting;
use bytes::Bytes;
use rpc_handlers::Event;
use rpc_ids::Status;
use std::alloc::AllocError;

impl CallState {
    /// A run of this seat begins, with the oldest event that waits.
    pub fn start(&mut self, seat: u32) -> Waiting
        requires { is_empty self.old.waiting.items ≡ false }
        ensures state { (at : _) → Turns at (starting seat) self.old self.new }
        ensures oldest { self.old.waiting.items ≡ result ∷ self.new.waiting.items }
    {
        let oldest = self.waiting.pop_front().unwrap();
        self.took_end = is_ended(&oldest.event);
        self.run = Some(seat);
        oldest
    }

    /// The run ends, and with it the call where its answer gives an end; or it completes the stream that a client
    /// sends.
    pub fn finish(&mut self, end: Option<Status>, completes: bool)
        requires { is_some end ≡ true → self.old.status ≡ None }
        ensures state { (at : _) → Turns at (finishing_so end completes) self.old self.new }
    {
        self.run = None;
        self.done = self.done || completes;
        if end.is_some() {
            self.status = end;
            self.waiting.clear();
        }
    }

    /// The call is cancelled.
    pub fn cancel(&mut self)
        ensures state { (at : _) → Turns at (cancelling self.old.status) self.old self.new }
    {
        self.cancelled = true;
        self.waiting.clear();
        if self.status.is_none() {
            self.status = Some(Status::Cancelled);
        }
    }

    /// The peer ends the call: what waits goes, and the end waits. There must be room for it.
    pub fn close(&mut self, at: u64, status: Status)
        requires open_call { self.old.status ≡ None }
        requires room { 0 < deque_capacity self.old.waiting }
        ensures state { Turns at (closing status) self.old self.new }
    {
        self.status = Some(status);
        self.waiting.clear();
        self.waiting.push_back_reserved(Waiting {
            at,
            event: Event::Ended(status),
        });
    }

    /// An event waits. There must be room for it.
    pub fn put(&mut self, at: u64, event: Event)
        requires { deque_len self.old.waiting < deque_capacity self.old.waiting }
        ensures state { Turns at (putting event) self.old self.new }
    {
        if let Event::Completion = event {
            self.completed = true;
        }
        self.waiting.push_back_reserved(Waiting { at, event });
    }

    /// The peer ends the call: its end waits after what waits. There must be room for it.
    pub fn end(&mut self, at: u64, status: Status)
        requires open_call { self.old.status ≡ None }
        requires room { deque_len self.old.waiting < deque_capacity self.old.waiting }
        ensures state { Turns at (ending status) self.old self.new }
    {
        self.status = Some(status);
        self.waiting.push_back_reserved(Waiting {
            at,
            event: Event::Ended(status),
        });
    }

    /// The peer ends the call with a last message: it waits after what waits, and then the end. There must be room
    /// for both.
    pub fn answer(&mut self, at: u64, payload: Bytes, status: Status)
        requires open_call { self.old.status ≡ None }
        requires room { deque_len self.old.waiting + 1 < deque_capacity self.old.waiting }
        ensures state { Turns at (answering (Event.Message payload) status) self.old self.new }
    {
        self.status = Some(status);
        self.waiting.push_back_reserved(Waiting {
            at,
            event: Event::Message(payload),
        });
        self.waiting.push_back_reserved(Waiting {
            at,
            event: Event::Ended(status),
        });
    }

    /// A client ends the stream of its messages.
    pub fn complete(&mut self)
        ensures state { (at : _) → Turns at completing self.old self.new }
    {
        self.done = true;
    }

    /// The call is told of this, where it is to be. There must be room for the event.
    pub fn tell(&mut self, at: u64, notice: Notice)
        requires { is_told notice self.old ≡ true → events_kept notice self.old < deque_capacity self.old.waiting }
        ensures state { Turns at (telling notice self.old) self.old self.new }
    {
        if self.is_told(notice) {
            match notice {
                Notice::Time(now) => self.put(at, Event::Tick(now)),
                Notice::InputEnded => self.put(at, Event::Ended(Status::Unavailable)),
                Notice::ChannelClosed(_) => self.close(at, Status::Aborted),
            }
        }
    }

    /// Makes room for one more event that waits.
    pub fn make_room(&mut self) -> Result<(), AllocError>
        ensures same { IsSame self.old self.new }
        ensures kept { deque_len self.old.waiting < deque_capacity self.old.waiting → deque_len self.new.waiting < deque_capacity self.new.waiting }
        ensures room { OnOk result (deque_len self.new.waiting < deque_capacity self.new.waiting) }
    {
        self.waiting.reserve(1)
    }

    /// Makes room for two more events that wait.
    pub fn make_rooms(&mut self) -> Result<(), AllocError>
        ensures same { IsSame self.old self.new }
        ensures kept { deque_capacity self.old.waiting ≤ deque_capacity self.new.waiting }
        ensures room { OnOk result (deque_len self.new.waiting + 1 < deque_capacity self.new.waiting) }
    {
        self.waiting.reserve(2)
    }
}
