//! What an entry does to the state of one call.
ghost use Rattle.std.specs.Prelude.{◌≡◌, ◌∷◌, IfSome, is_some};

use bytes::Bytes;
use rpc_handlers::Event;
use rpc_ids::Status;
use rpc_journal::Waiting;
use rpc_journal::table::{CallState, Notice};

/// What an entry does to the state of one call.
#[derive(Drop)]
pub enum StateChange {
    /// A run of this seat begins, with the oldest event that waits.
    Start(u32),
    /// The run ends, and with it the call where its answer gives an end; or it completes the stream that a client sends.
    Finish(Option<Status>, bool),
    /// The call is cancelled: no event waits for it any more, and it has an end.
    Cancel,
    /// The peer ends the call: what waits goes, and its end waits.
    Close(Status),
    /// An event waits for the call.
    Put(Event),
    /// The server ends the call: its end waits after its other events.
    End(Status),
    /// The server answers the call: a message waits, and then its end.
    Answer(Bytes, Status),
    /// The client has completed its stream of the call.
    Complete,
    /// The call is told of this, where it is to be.
    Tell(Notice),
}

impl StateChange {
    ghost use Rattle.rpc_journal.specs.table.Turns.{Turns};
    ghost use Rattle.rpc_calls.specs.StateChanges.{CanTurn, is_start, touch_of};

    /// Does it, by the entry at this place. Answers the event with which a run begins.
    pub fn apply(self, state: &mut CallState, at: u64) -> Option<Waiting>
        requires { CanTurn self state.old }
        ensures turns { Turns at (touch_of self state.old) state.old state.new }
        ensures oldest { IfSome result (λ w. state.old.waiting.items ≡ w ∷ state.new.waiting.items) }
        ensures starts { is_some result ≡ is_start self }
    {
        match self {
            StateChange::Start(seat) => Some(state.start(seat)),
            StateChange::Finish(end, completes) => {
                state.finish(end, completes);
                None
            }
            StateChange::Cancel => {
                state.cancel();
                None
            }
            StateChange::Close(status) => {
                state.close(at, status);
                None
            }
            StateChange::Put(event) => {
                state.put(at, event);
                None
            }
            StateChange::End(status) => {
                state.end(at, status);
                None
            }
            StateChange::Answer(payload, status) => {
                state.answer(at, payload, status);
                None
            }
            StateChange::Complete => {
                state.complete();
                None
            }
            StateChange::Tell(notice) => {
                state.tell(at, notice);
                None
            }
        }
    }
}
