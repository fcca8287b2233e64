//! What the records tell of calls.
ghost use Rattle.std.specs.Prelude.{◌≡◌, ◌<◌, true, length, slice_get, Some, IfSome, IfNone, option_map};

use super::CallRecords;
use super::changing::key_of;
use crate::call_place::{CallFacts, CallPlace, place_of};
use crate::call_record::{has_handler_under, state_under};
use crate::marks::Marks;
use link_io::Why;
use rpc_journal::table::CallState;
use rpc_packet::CallName;

impl<H> CallRecords<H> {
    ghost use Rattle.std.specs.Prelude.{ℕ, false, is_some, Option, None};
    ghost use Rattle.rpc_journal.specs.declared.table.call_state.CallState.{CallState};
    ghost use Rattle.rpc_journal.specs.table.Newest.{newest_of};
    ghost use Rattle.rpc_calls.specs.Facts.{IsDoneWith, facts_of, is_done_with};
    ghost use Rattle.rpc_calls.specs.Marks.{marks_of};
    ghost use Rattle.rpc_calls.specs.Numbers.{live_at};
    ghost use Rattle.rpc_calls.specs.Kept.{is_kept_at};

    /// How many calls were opened. Each is kept, or has left and is done with.
    pub fn len(&self) -> usize
        ensures many { result ≡ length self.now.states.calls.items }
        ensures handled { length self.now.handlers ≡ length self.now.states.calls.items }
        ensures placed { length self.now.places ≡ length self.now.states.calls.items }
        ensures left { (c : ℕ) (r : CallState) → slice_get self.now.states.calls.items c ≡ Some r → is_kept_at (slice_get self.now.places c) ≡ false → IsDoneWith r }
    {
        self.places.len()
    }

    /// What is told of this call, where there is such a call.
    pub fn facts(&self, call: u32) -> Option<CallFacts>
        ensures { result ≡ option_map facts_of (slice_get self.now.states.calls.items call) }
    {
        match place_of(&self.places, call as usize) {
            Some(CallPlace::Kept(key)) => Some(CallFacts::of(state_under(&self.records, key))),
            Some(CallPlace::Left(facts)) => Some(facts),
            None => None,
        }
    }

    /// The state of this call, where it is kept.
    pub fn state(&self, call: usize) -> Option<&CallState>
        ensures kept { is_some result ≡ is_kept_at (slice_get self.now.places call) }
        ensures state { IfSome result (λ r. slice_get self.now.states.calls.items call ≡ Some r.now) }
        ensures left { IfNone result ((r : CallState) → slice_get self.now.states.calls.items call ≡ Some r → IsDoneWith r) }
        ensures empty { IfNone result ((slot : Option H) → slice_get self.now.handlers call ≡ Some slot → slot ≡ None) }
    {
        match place_of(&self.places, call) {
            Some(CallPlace::Kept(key)) => Some(state_under(&self.records, key)),
            Some(CallPlace::Left(_)) => None,
            None => None,
        }
    }

    /// Whether a call that is kept has a handler.
    pub fn has_handler(&self, call: u32) -> bool
        requires { is_kept_at (slice_get self.now.places call) ≡ true }
        ensures { (slot : Option H) → slice_get self.now.handlers call ≡ Some slot → result ≡ is_some slot }
    {
        has_handler_under(&self.records, key_of(&self.places, call))
    }

    /// What the index knows of this call.
    pub fn marks(&self, call: u32) -> Marks
        requires { call < length self.now.states.calls.items }
        ensures marks { (r : CallState) → slice_get self.now.states.calls.items call ≡ Some r → result ≡ marks_of r }
        ensures left { (r : CallState) → slice_get self.now.states.calls.items call ≡ Some r → is_done_with r ≡ false → is_kept_at (slice_get self.now.places call) ≡ true }
    {
        match self.state(call as usize) {
            Some(state) => Marks::of(state),
            None => match self.facts(call) {
                Some(facts) => Marks::left(facts.cancelled),
                None => Marks::none(),
            },
        }
    }

    /// The live call of this name.
    pub fn live(&self, name: CallName) -> Option<u32>
        ensures { result ≡ live_at self.now.states.calls.items (newest_of self.now.states.newest name) }
    {
        self.names.get(name)
    }

    /// How many items wait to be flushed.
    pub fn unflushed(&self) -> u64
        ensures { result ≡ self.now.states.unflushed }
    {
        self.unflushed
    }

    /// Whether the input has ended.
    pub fn input_ended(&self) -> bool
        ensures { result ≡ self.now.states.input_ended }
    {
        self.input_ended
    }

    /// Why the table was halted, where it was.
    pub fn halted(&self) -> Option<Why>
        ensures { result ≡ self.now.states.halted }
    {
        self.halted
    }
}
