//! Scripts as they are read, the first bad line of others, and reports as they are printed.
mod bad_lines;
mod good_lines;
mod reports;
