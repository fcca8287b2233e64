//! The texts of messages that stand in lines: first the formats, then the messages, each in hexadecimal digits.
//! Enter at `print_lines`.
mod answer;
mod lines;

pub use lines::{LinesRefused, print_lines};
