//! The text of a server's journal: a first line `journal`, and then a line for each entry, in order.
//!
//! [`print`] writes it and [`read`] reads it. [`judge_text`] reads a text and says whether the journal is lawful. They
//! touch no device: a text is a list of bytes.
#![tactic(auto)]

mod bad_line;
mod judge;
pub mod laws;
mod print_answer;
mod print_digits;
mod print_journal;
mod read_answer;
mod read_field;
mod read_item;
mod read_journal;
mod read_line;
mod verdict;

pub use bad_line::BadLine;
pub use judge::judge_text;
pub use print_journal::print;
pub use read_journal::read;
pub use verdict::Verdict;
