//! The history of a call table: its entries, what each does, which histories are lawful, and the laws of all of them.
//!
//! A `Journal` holds the entries in order. The definitions stand in `specs/`, and `docs/HISTORY.md` reads them aloud.
//! `laws` has functions whose contracts are what follows from them for every history, and `table` a plain table of calls.
#![tactic(auto)]

mod answers;
mod entry;
mod fault;
mod item;
mod journal;
mod judge;
mod kinds;
pub mod laws;
mod setting;
pub mod table;
mod verdict;
mod waiting;

pub use answers::{
    ArriveRefused, Arrived, Cancelled, CloseRefused, InvokeRefused, ReplaceRefused, SayRefused,
    StartOfRefused, StartRefused,
};
pub use entry::{Entry, EntryKind, MAX_ENTRIES};
pub use fault::{Broken, Fault};
pub use item::{Act, Item};
pub use journal::Journal;
pub use kinds::{is_okay, is_server, is_unary, streams_out};
pub use setting::Setting;
pub use verdict::check;
pub use waiting::Waiting;
