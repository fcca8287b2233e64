//! What the program's texts are made of: decimal numbers, hexadecimal digits, fields between separators, and lines.
//! A text is a list of bytes, since an input may be no UTF-8. Each reader answers exactly the one spelling that the
//! program writes; all else is no field.
#![tactic(auto)]

mod hexadecimal;
mod lines;
mod numbers;
mod splits;

pub use hexadecimal::hex_bytes;
pub use lines::{NEWLINE, first_line};
pub use numbers::{number, small_number};
pub use splits::{BLANK, split_at, split_at_blank, strip_word};
