//! Log texts as tokens: a device sends the hash of a format and its arguments, and the reader, who has the formats in a
//! book, prints the text.
//! Enter at `TokenBook::add`, and then at `TokenBook::text` to read a message and at `TokenBook::message` to make one.
#![tactic(auto)]

mod argument;
mod book;
mod format;
mod laws;
pub mod lines;
mod number;
mod part;
mod print;
mod read_argument;
mod write_argument;

pub use argument::{Arg, Args};
pub use book::{FormRefused, MessageRefused, TextRefused, TokenBook};
pub use laws::message_has_one_text;
