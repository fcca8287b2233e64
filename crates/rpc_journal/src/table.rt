//! The plain table of calls: what a history says of each call, kept by its number, and how that changes with one more
//! entry. Contracts say of a table that it agrees with a history.

mod answer_ends;
mod arrival_move;
mod arrivals;
mod call_changes;
mod call_state;
mod call_states;
mod client_arrivals;
mod newest_calls;
mod notice;
mod server_arrivals;
mod state_changes;

pub use answer_ends::{completes_by, end_by};
pub use arrival_move::{Move, move_at, move_of};
pub use call_state::{CallState, MAX_WAITING};
pub use call_states::CallStates;
pub use notice::Notice;
