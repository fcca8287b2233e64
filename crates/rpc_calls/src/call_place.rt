//! Where a call of a table is found.
ghost use Rattle.std.specs.Prelude.{◌≡◌, ◌<◌, true, false, length, slice_get, is_some, IfSome, Some};
ghost use Rattle.rpc_calls.specs.declared.call_place.CallPlace.TheVariants.{Left};
ghost use Rattle.rpc_calls.specs.Kept.{is_kept_at};

use rpc_ids::{MethodRef, Status};
use rpc_journal::table::CallState;
use rpc_packet::CallName;

/// What is told of a call beside its run and its events.
#[derive(Clone, Copy, Debug)]
pub struct CallFacts {
    pub name: CallName,
    pub method: MethodRef,
    /// How the call ended.
    pub status: Option<Status>,
    /// The call was cancelled.
    pub cancelled: bool,
    /// A client has completed its stream.
    pub done: bool,
}

/// Where a call is found: under a key, or nowhere any more, and then this is left of it.
#[derive(Clone, Copy, Debug)]
pub enum CallPlace {
    Kept(usize),
    Left(CallFacts),
}

impl CallFacts {
    ghost use Rattle.rpc_calls.specs.Facts.{facts_of};

    /// Those of a call in this state.
    pub fn of(state: &CallState) -> CallFacts
        ensures { result ≡ facts_of state.now }
    {
        CallFacts {
            name: state.name,
            method: state.method,
            status: state.status,
            cancelled: state.cancelled,
            done: state.done,
        }
    }
}

/// Where this call is found, where there is such a call.
pub fn place_of(places: &Vec<CallPlace>, call: usize) -> Option<CallPlace>
    ensures { result ≡ slice_get places.now.items call }
{
    places.get(call).copied()
}

/// What is left of this call, where it has left.
pub fn facts_left(places: &Vec<CallPlace>, call: u32) -> Option<CallFacts>
    ensures left { IfSome result (λ facts. slice_get places.now.items call ≡ Some (Left facts)) }
    ensures gone { call < length places.now.items → is_kept_at (slice_get places.now.items call) ≡ false → is_some result ≡ true }
{
    match place_of(places, call as usize) {
        Some(CallPlace::Left(facts)) => Some(facts),
        Some(CallPlace::Kept(_)) => None,
        None => None,
    }
}
