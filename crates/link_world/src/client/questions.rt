//! What is asked of the client's calls, and of what came to them.
ghost use Rattle.std.specs.Prelude.{◌≡◌, ◌==◌, [], IfOk, flat_map, if◌then◌else◌, length, option_copied, option_map, option_to_list, slice_get, unwrap_or};
ghost use Rattle.rpc_journal.specs.Calls.{call_at, end_of, of_call};
ghost use Rattle.rpc_schedule.specs.Serving.{deeds};
ghost use Rattle.link_laws.specs.world.Committed.{committed};
ghost use Rattle.link_laws.specs.world.Lines.{message_in};

use crate::client::client_end::ClientEnd;
use crate::server::committed;
use bytes::Bytes;
use rpc_handlers::Event;
use rpc_ids::Status;
use rpc_packet::CallName;
use std::alloc::AllocError;

impl ClientEnd {
    /// The status with which a call has ended.
    pub fn end_of(&self, call: u32) -> Option<Status>
        ensures { result ≡ end_of (deeds self.now.end.serving) call }
    {
        let calls = self.desk.client.calls();
        if call < calls.count() {
            calls.status(call)
        } else {
            None
        }
    }

    /// The name of a call, if it is there.
    pub fn name(&self, call: u32) -> Option<CallName>
        ensures { result ≡ option_map (λ o. o.name) (call_at (deeds self.now.end.serving) call) }
    {
        let calls = self.desk.client.calls();
        if call < calls.count() {
            Some(calls.name(call))
        } else {
            None
        }
    }

    /// How many messages came to a call.
    pub fn messages(&self, call: u32) -> u64
        ensures { result ≡ length (flat_map message_in (of_call call self.now.events)) }
    {
        count_messages(self.desk.events.as_slice(), call)
    }

    /// The bytes of the first message that came to a call; none where none came.
    pub fn first_message(&self, call: u32) -> Result<Bytes, AllocError>
        ensures { IfOk result (λ bytes. bytes ≡ unwrap_or (slice_get (flat_map message_in (of_call call self.now.events)) 0) []) }
    {
        first_message(self.desk.events.as_slice(), call)
    }

    /// The length that a session of a call has committed, or 0.
    pub fn length_read(&self, session: u32, call: u32) -> u64
        ensures { result ≡ unwrap_or (committed self.now.items session call) 0 }
    {
        committed(self.desk.items.as_slice(), session, call).unwrap_or(0)
    }
}

// How many messages of a call are among these events.
fn count_messages(events: &[(u32, Event)], call: u32) -> u64
    ensures { result ≡ length (flat_map message_in (of_call call events.now)) }
{
    let mut count = 0;
    'events: for (of, event) in events {
        if message_to(call, *of, event).is_some() {
            count += 1;
        }
    }
    count
}

// The bytes of the first message of a call among these events; none where there is none.
fn first_message(events: &[(u32, Event)], call: u32) -> Result<Bytes, AllocError>
    ensures { IfOk result (λ bytes. bytes ≡ unwrap_or (slice_get (flat_map message_in (of_call call events.now)) 0) []) }
{
    'events: for (of, event) in events {
        match message_to(call, *of, event) {
            Some(payload) => return payload.clone(),
            None => {}
        }
    }
    Ok(Bytes::new())
}

// The bytes of an event, where it is a message and came to this call.
fn message_to(call: u32, of: u32, event: &Event) -> Option<&Bytes>
    ensures { option_to_list (option_copied result) ≡ (if of == call then message_in event.now else []) }
{
    if of != call {
        return None;
    }
    match event {
        Event::Message(payload) => Some(payload),
        Event::Request(_) | Event::Completion | Event::Ended(_) | Event::Tick(_) => None,
    }
}
