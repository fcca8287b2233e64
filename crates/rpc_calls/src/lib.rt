//! The table of the calls of one end of a link: what arrives, what runs, and what goes out.
//!
//! Enter at `Calls`. A `Running` is one run of a call's handler, between `Calls::start` and `Calls::finish`.
#![tactic(auto)]

mod answer_items;
mod call_place;
mod call_record;
mod call_records;
mod calls;
mod cancelling;
mod closing_items;
mod copies;
mod index;
mod indexed_states;
mod kept_calls;
mod last_state;
mod live_names;
mod marks;
mod owed;
mod packets;
mod replies;
mod room;
mod run_end;
mod running;
mod served;
mod shown_state;
mod state_change;
mod waiting_calls;

pub use calls::Calls;
pub use rpc_journal::{
    ArriveRefused, Arrived, Cancelled, CloseRefused, InvokeRefused, ReplaceRefused, SayRefused,
    StartOfRefused, StartRefused,
};
pub use running::Running;
