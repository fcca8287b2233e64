//! The program: the words of its command line, what it reads, what it writes, and its exit status.
//! It touches no device of its own: [`run`] works over any source, sink, store, linker and clock, and says of each command and
//! each exit status what was read, written and stored. Enter there. [`run_recorded`] has the commands that wait for nobody.
#![tactic(auto)]

mod bridge;
mod call;
mod call_words;
mod check;
mod client;
mod client_command;
mod client_text;
mod command;
mod crew;
mod demo;
mod detoken;
mod dump;
mod hosted;
pub mod laws;
mod link;
mod link_served;
mod live_command;
mod load;
mod method_id;
mod no_store;
mod nowhere;
mod outcome;
mod payload;
mod recorded;
mod replay;
mod route;
mod running;
mod serve;
mod served_text;
mod session_clock;
mod telling;
mod text_command;
mod told;
mod trailing;
mod under_way;
mod way;
mod writing;

pub use call_words::{MAX_SAID, MAX_WITHIN};
pub use client_command::{ClientCommand, MAX_WATCH};
pub use command::{Command, Form, MAX_LOAD};
pub use demo::LAST_CHANNEL;
pub use live_command::{LiveCommand, MAX_CONNECTIONS, MAX_HOSTED, MAX_WORKERS};
pub use outcome::Outcome;
pub use recorded::run_recorded;
pub use running::run;
pub use text_command::{TEXT_LIMIT, TextCommand};
pub use told::Found;
