//! How a run of the dispatcher ends, and why a task isn't taken in.

/// Why a run stopped.
#[derive(Clone, Copy, Debug, PartialEq, Eq)]
pub enum Stop {
    /// No task lives.
    AllDone,
    /// A task lives, and none is due.
    Stalled,
    /// The budget of polls is used up, and a task is still due.
    Budget,
}

/// Why a task isn't taken in.
#[derive(Clone, Copy, Debug, PartialEq, Eq)]
pub enum TaskRefused {
    /// The dispatcher was given all the tasks that it takes.
    Full,
    Memory,
}
