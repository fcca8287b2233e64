//! The text of a script for a world with two ends and a lossy link, and the text of the report of its run.
//!
//! [`read_script`] reads a script, or finds its first bad line, and [`print_report`] writes a report. They touch no
//! device: a text is a list of bytes.
mod fields;
mod line;
mod print_line;
mod printing;
mod read_command;
mod read_line;
mod read_loss;
mod read_setting;
mod reading;
mod stand;

pub use printing::{add_bad_line, print_report};
pub use reading::{BadLine, read_script};
