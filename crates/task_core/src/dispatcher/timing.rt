//! What the time brings.
ghost use Rattle.std.specs.Prelude.{◌≡◌, ℕ};
ghost use Rattle.task_core.specs.Tasks.{HasTimers};
ghost use Rattle.task_core.specs.Places.{HaveCome};

use crate::place::Place;
use crate::timers::Timers;
use slab::Slab;

/// Marks each task that has slept until this moment or an earlier one, and takes its timer out.
pub fn come_all<T>(places: &mut Slab<Place<T>>, timers: &mut Timers, now: u64)
    requires { HasTimers places.old timers.old }
    ensures timers { HasTimers places.new timers.new }
    ensures come { HaveCome now places.old places.new }
{
    'timers: while let Some(key) = timers.take_come(now) {
        if let Some(place) = places.get_mut(key) {
            place.come_to(now);
        }
    }
}
