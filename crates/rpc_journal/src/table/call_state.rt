//! What a history says of one call.
ghost use Rattle.std.specs.Prelude.{◌≡◌, ◌+◌, ◌^◌, ◌||◌, ◌<◌, count_by, not, IfOk, None, false};
ghost use Rattle.std.specs.List.{list_any};
ghost use Rattle.std.specs.VecDeque.{deque_len, deque_capacity};
ghost use Rattle.rpc_journal.specs.Choice.{first_place};
ghost use Rattle.rpc_journal.specs.Queues.{is_ended, is_tick};
ghost use Rattle.rpc_journal.specs.table.Touch.{is_startable, wants_time, hears_answer, says_messages, end_given, completes_given, items_given, items_of_cancel, is_message, IsInvoked, IsServed, is_told};

use crate::kinds::{is_server, streams_out};
use crate::table::answer_ends::{completes_by, end_by, tells_end};
use crate::table::notice::Notice;
use crate::waiting::Waiting;
use rpc_handlers::{Answer, Event, Out};
use rpc_ids::{MethodRef, Role, Status};
use rpc_packet::{CallName, Packet};
use std::alloc::{AllocError, Global};
use std::collections::VecDeque;

/// How many messages can wait for a call.
pub const MAX_WAITING: usize = 64;

/// How many items can wait to be flushed before no run begins.
pub const MAX_UNFLUSHED: u64 = 65_536;

/// What a history says of one call.
#[derive(Debug, Drop)]
pub struct CallState {
    pub name: CallName,
    pub method: MethodRef,
    /// How the call ended.
    pub status: Option<Status>,
    /// A `Cancel` of the call is there.
    pub cancelled: bool,
    /// The client's stream was completed, at a server.
    pub completed: bool,
    /// The client's stream was completed, at a client.
    pub done: bool,
    /// The seat that runs the call.
    pub run: Option<u32>,
    /// The last run took an `Ended`, so that its answer isn't heard.
    pub took_end: bool,
    /// The events that wait, the oldest first.
    pub waiting: VecDeque<Waiting>,
}

impl CallState {
    /// A call that a packet opens at a server: its request waits, with room for one more event.
    pub fn served(
        alloc: Global,
        p: &Packet,
        method: MethodRef,
        at: u64,
    ) -> Result<CallState, AllocError>
        ensures state { IfOk result (λ r. IsServed at p.now method r) }
        ensures room { IfOk result (λ r. deque_len r.waiting < deque_capacity r.waiting) }
    {
        let mut waiting = VecDeque::with_capacity(alloc, 2)?;
        let payload = p.payload.clone()?;
        waiting.push_back_reserved(Waiting {
            at,
            event: Event::Request(payload),
        });
        Ok(new_call(p.name, method, waiting))
    }

    /// A call that a client opens: no event waits, and there is room for two.
    pub fn invoked(
        alloc: Global,
        name: CallName,
        method: MethodRef,
    ) -> Result<CallState, AllocError>
        ensures state { IfOk result (λ r. IsInvoked name method r) }
        ensures room { IfOk result (λ r. deque_len r.waiting + 1 < deque_capacity r.waiting) }
    {
        let waiting = VecDeque::with_capacity(alloc, 2)?;
        Ok(new_call(name, method, waiting))
    }

    /// Whether the call is told of this.
    pub fn is_told(&self, notice: Notice) -> bool
        ensures { result ≡ is_told notice self.now }
    {
        match notice {
            Notice::Time(_) => self.wants_tick(),
            Notice::InputEnded => self.status.is_none(),
            Notice::ChannelClosed(channel) => {
                self.status.is_none() && self.name.channel == channel
            }
        }
    }

    /// Whether a run can begin, where so many items wait to be flushed.
    pub fn is_ready(&self, unflushed: u64, halted: bool) -> bool
        ensures { result ≡ is_startable self.now unflushed halted }
    {
        !self.waiting.is_empty()
            && self.run.is_none()
            && !self.cancelled
            && unflushed < MAX_UNFLUSHED
            && !halted
    }

    /// The place of the entry that put the oldest event that waits; 0 where none waits.
    pub fn oldest_place(&self) -> u64
        ensures { result ≡ first_place self.now.waiting.items }
    {
        match self.waiting.front() {
            Some(oldest) => oldest.at,
            None => 0,
        }
    }

    /// How many events other than `Ended` wait.
    pub fn messages(&self) -> usize
        ensures { result ≡ count_by (λ w. not (is_ended w.event)) self.now.waiting.items }
    {
        self.waiting.iter().filter(|w| !is_ended(&w.event)).count()
    }

    /// Whether the call is to be told of the time.
    pub fn wants_tick(&self) -> bool
        ensures { result ≡ wants_time self.now }
    {
        self.method.ticks
            && self.status.is_none()
            && !self.awaits_tick()
            && self.waiting.len() < MAX_WAITING
    }

    // Whether a Tick waits.
    fn awaits_tick(&self) -> bool
        ensures { result ≡ list_any (λ w. is_tick w.event) self.now.waiting.items }
    {
        self.waiting.iter().any(|w| is_tick(&w.event))
    }

    /// Whether the answer of the call's run is heard: the call has no end, and the run didn't take an `Ended`.
    pub fn hears_answer(&self) -> bool
        ensures { result ≡ hears_answer self.now }
    {
        self.status.is_none() && !self.took_end
    }

    /// Whether the messages of the answer of the call's run go out.
    pub fn says_messages(&self, role: Role) -> bool
        ensures { result ≡ says_messages role self.now }
    {
        self.hears_answer()
            && streams_out(role, self.method.kind)
            && (is_server(role) || !self.done)
    }

    /// The end that this answer of the call's run gives it.
    pub fn end_given(&self, role: Role, a: &Answer) -> Option<Status>
        ensures { result ≡ end_given role self.now a.now.end }
    {
        if self.cancelled || !self.hears_answer() {
            return None;
        }
        end_by(role, &a.end)
    }

    /// Whether this answer of the call's run completes the stream that a client sends.
    pub fn completes_given(&self, role: Role, a: &Answer) -> bool
        ensures { result ≡ completes_given role self.now a.now.end }
    {
        !self.cancelled
            && self.hears_answer()
            && completes_by(role, self.method.kind, self.done, &a.end)
    }

    /// How many items this answer of the call's run adds.
    pub fn items_given(&self, role: Role, a: &Answer) -> u64
        ensures { result ≡ items_given role self.now a.now }
    {
        if self.cancelled {
            return 1;
        }
        let items = items_of(a, self.says_messages(role));
        if self.hears_answer() && tells_end(role, self.method.kind, self.done, &a.end) {
            items + 1
        } else {
            items
        }
    }

    /// How many items a cancel of the call adds.
    pub fn items_of_cancel(&self) -> u64
        ensures { result ≡ items_of_cancel self.now }
    {
        let told = if self.status.is_some() { 0u64 } else { 1 };
        let left = if self.run.is_some() { 0u64 } else { 1 };
        told + left
    }
}

fn new_call(name: CallName, method: MethodRef, waiting: VecDeque<Waiting>) -> CallState
    ensures { result ≡ record { name = name; method = method; status = None; cancelled = false; completed = false; done = false; run = None; took_end = false; waiting = waiting } }
{
    CallState {
        name,
        method,
        status: None,
        cancelled: false,
        completed: false,
        done: false,
        run: None,
        took_end: false,
        waiting,
    }
}

// How many items of an answer go out, where its messages do or don't.
fn items_of(a: &Answer, says: bool) -> u64
    ensures items { result ≡ count_by (λ out. not (is_message out) || says) a.now.items }
    ensures bound { result < 2 ^ 63 }
{
    a.items
        .as_slice()
        .iter()
        .filter(|out| !is_message(out) || says)
        .count() as u64
}

fn is_message(out: &Out) -> bool
    ensures { result ≡ is_message out.now }
{
    match out {
        Out::Say(_) => true,
        _ => false,
    }
}

/// Whether the event tells of the call's end.
pub fn is_ended(event: &Event) -> bool
    ensures { result ≡ is_ended event.now }
{
    match event {
        Event::Ended(_) => true,
        _ => false,
    }
}

fn is_tick(event: &Event) -> bool
    ensures { result ≡ is_tick event.now }
{
    match event {
        Event::Tick(_) => true,
        _ => false,
    }
}
