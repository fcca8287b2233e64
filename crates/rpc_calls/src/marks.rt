//! What a table's counts and its list of waiting calls know of one call.
ghost use Rattle.std.specs.Prelude.{◌≡◌, not};
ghost use Rattle.rpc_calls.specs.Marks.{marks_of, no_marks, oldest_since};

use rpc_journal::table::CallState;

/// What a table's counts and its list of waiting calls know of one call.
#[derive(Clone, Copy, Debug)]
pub struct Marks {
    /// It can still be cancelled.
    pub uncancelled: bool,
    /// It runs.
    pub runs: bool,
    /// An event waits for it.
    pub queued: bool,
    /// The place of the entry that put the oldest event that waits for it, where one does and it doesn't run.
    pub since: Option<u64>,
}

impl Marks {
    /// Those of a call that isn't there.
    pub fn none() -> Marks
        ensures { result ≡ no_marks }
    {
        Marks {
            uncancelled: false,
            runs: false,
            queued: false,
            since: None,
        }
    }

    /// Those of a call that is done with.
    pub fn left(cancelled: bool) -> Marks
        ensures { result ≡ record no_marks { uncancelled = not cancelled } }
    {
        Marks {
            uncancelled: !cancelled,
            runs: false,
            queued: false,
            since: None,
        }
    }

    /// Those of a call in this state.
    pub fn of(state: &CallState) -> Marks
        ensures { result ≡ marks_of state.now }
    {
        Marks {
            uncancelled: !state.cancelled,
            runs: state.run.is_some(),
            queued: !state.waiting.is_empty(),
            since: waiting_since(state),
        }
    }
}

// The place since which an event waits for a call in this state.
fn waiting_since(state: &CallState) -> Option<u64>
    ensures { result ≡ oldest_since state.now }
{
    if state.run.is_some() || state.waiting.is_empty() {
        None
    } else {
        Some(state.oldest_place())
    }
}
