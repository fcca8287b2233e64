//! A copy of an event, made while memory may still be refused.
ghost use Rattle.std.specs.Prelude.{◌≡◌, IfOk};

use rpc_handlers::Event;
use std::alloc::AllocError;

/// A copy of an event.
pub fn copy_event(event: &Event) -> Result<Event, AllocError>
    ensures { IfOk result (λ copy. copy ≡ event.now) }
{
    event.clone()
}
