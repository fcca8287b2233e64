//! Tasks that are polled on one thread, as those of Pigweed's pw_async2: a [`Dispatcher`] polls exactly the tasks that
//! are due, the lowest key first, one poll a turn. A task says so when it waits for mail or sleeps until a moment.
//! It holds no clock and waits for nothing: moments are handed in. `docs/THREADS.md` has the life of a task as a picture.
#![tactic(auto)]

pub mod bells;
pub mod cx;
pub mod dispatcher;
mod laws;
pub mod mail;
mod place;
pub mod stop;
pub mod task;
mod timers;

pub use crate::bells::{Bell, Bells, Ear};
pub use cx::Cx;
pub use dispatcher::{Dispatcher, MAX_TASKS};
pub use laws::numbers_of_tasks;
pub use mail::Mail;
pub use stop::{Stop, TaskRefused};
pub use task::{Poll, Task};
