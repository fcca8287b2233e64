//! The calls that don't run and for which an event waits, in the order in which they run.
ghost use Rattle.std.specs.Prelude.{◌≡◌, ◌==◌, ◌≤◌, ◌<◌, ◌||◌, ◌&&◌, false, true, not, [], length, OnOk, nat_le, nat_lt, Some, None};
ghost use Rattle.std.specs.List.{Contains};
ghost use Rattle.std.specs.VecDeque.{deque_capacity};
ghost use Rattle.rpc_calls.specs.Listed.{CanRelist, InOrder, IsPlaceOf, PlaceInOrder, Relists, goes_first as goes_before};

use std::alloc::{AllocError, Global};
use std::collections::VecDeque;

/// A call that doesn't run and for which an event waits.
#[derive(Clone, Copy, Debug)]
pub struct WaitingCall {
    /// The place of the entry that put the oldest event that waits.
    pub since: u64,
    pub call: u32,
}

/// The calls that don't run and for which an event waits, by the place since which one does and then by their numbers.
#[derive(Drop)]
pub struct WaitingCalls {
    pub calls: VecDeque<WaitingCall>,
}

impl WaitingCalls {
    /// No event waits.
    pub fn new(alloc: Global) -> WaitingCalls
        ensures { result.calls.items ≡ [] }
    {
        WaitingCalls {
            calls: VecDeque::new(alloc),
        }
    }

    /// Makes places for so many calls. Where it has to grow, it grows to at least twice as many places.
    pub fn make_places(&mut self, count: usize) -> Result<(), AllocError>
        ensures calls { self.new.calls.items ≡ self.old.calls.items }
        ensures kept { deque_capacity self.old.calls ≤ deque_capacity self.new.calls }
        ensures places { OnOk result (count ≤ deque_capacity self.new.calls) }
    {
        let capacity = self.calls.capacity();
        if count <= capacity {
            return Ok(());
        }
        let places = count.max(capacity.saturating_add(capacity));
        self.calls.reserve(places.saturating_sub(self.calls.len()))
    }

    /// The place since which an event waits for this call has changed.
    pub fn change(&mut self, call: u32, was: Option<u64>, is: Option<u64>)
        requires { CanRelist call was self.old.calls.items (deque_capacity self.old.calls) }
        ensures list { Relists call was is self.old.calls.items self.new.calls.items }
        ensures capacity { deque_capacity self.old.calls ≤ deque_capacity self.new.calls }
    {
        match (was, is) {
            (None, None) => {}
            (Some(before), None) => self.take_out(WaitingCall {
                since: before,
                call,
            }),
            (None, Some(since)) => self.put_in(WaitingCall { since, call }),
            (Some(before), Some(since)) => self.put_back(call, before, since),
        }
    }

    // The place since which an event waits for this call was the first, and is the second.
    fn put_back(&mut self, call: u32, before: u64, since: u64)
        requires { CanRelist call (Some before) self.old.calls.items (deque_capacity self.old.calls) }
        ensures list { Relists call (Some before) (Some since) self.old.calls.items self.new.calls.items }
        ensures capacity { deque_capacity self.old.calls ≤ deque_capacity self.new.calls }
    {
        if before == since {
            return;
        }
        self.take_out(WaitingCall {
            since: before,
            call,
        });
        self.put_in(WaitingCall { since, call });
    }

    // No event waits for this call any more.
    fn take_out(&mut self, waiting: WaitingCall)
        requires order { InOrder self.old.calls.items }
        requires there { Contains self.old.calls.items waiting }
        ensures list { Relists waiting.call (Some waiting.since) None self.old.calls.items self.new.calls.items }
        ensures capacity { deque_capacity self.new.calls ≡ deque_capacity self.old.calls }
    {
        let place = place_of(&self.calls, waiting);
        let _ = self.calls.remove(place);
    }

    // An event waits for this call now. There is a place for it.
    fn put_in(&mut self, waiting: WaitingCall)
        requires order { InOrder self.old.calls.items }
        requires place { length self.old.calls.items < deque_capacity self.old.calls }
        ensures list { Relists waiting.call None (Some waiting.since) self.old.calls.items self.new.calls.items }
        ensures capacity { deque_capacity self.old.calls ≤ deque_capacity self.new.calls }
    {
        let place = place_for(&self.calls, waiting.since, waiting.call);
        let _ = self.calls.insert(place, waiting);
    }
}

// The place of this call in the list, in which it is.
fn place_of(calls: &VecDeque<WaitingCall>, waiting: WaitingCall) -> usize
    requires order { InOrder calls.now.items }
    requires there { Contains calls.now.items waiting }
    ensures { IsPlaceOf waiting calls.now.items result }
{
    calls.partition_point(
        |other: &WaitingCall| -> bool
            ensures { result ≡ not (goes_before waiting.call waiting.since other.now.call other.now.since) }
        { !goes_first(waiting.call, waiting.since, other.call, other.since) },
    )
}

// The place of a call for which an event waits since this one, behind those that go first.
fn place_for(calls: &VecDeque<WaitingCall>, since: u64, call: u32) -> usize
    requires { InOrder calls.now.items }
    ensures { PlaceInOrder since call calls.now.items result }
{
    calls.partition_point(
        |waiting: &WaitingCall| -> bool
            ensures { result ≡ goes_before waiting.now.call waiting.now.since call since }
        { goes_first(waiting.call, waiting.since, call, since) },
    )
}

// Of two calls, each with the place since which an event waits for it, the first one goes first.
fn goes_first(call: u32, place: u64, other: u32, since: u64) -> bool
    ensures { result ≡ goes_before call place other since }
{
    place < since || (place == since && call <= other)
}
