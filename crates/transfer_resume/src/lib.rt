//! The transfers of one call at the service: up to 256 sessions, each with its own core, and what each chunk, the time and
//! the end of the call make of them. It holds what the store had, and acts on no store: it says what is to be done.
//! Enter at [`Sessions`].
#![tactic(auto)]

mod hears;
mod laws;
mod opening;
mod plain;
mod receiving;
mod row;
mod rows;
mod sending;
mod service;
mod sessions;
mod side;
mod stage;
mod ticks;

pub use laws::{
    answers_keep_limits, each_moves_alone, ended_stays_ended, ends_end_all, numbers_of_a_call,
    plain_data_tells_all, reads_store_nothing, rows_rise, uploads_join,
};
pub use sessions::{MAX_SESSIONS, Sessions};
pub use side::Side;
pub use stage::{Opening, Stage};
