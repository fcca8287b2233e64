//! Where a text is no journal.

/// The first line of a text that makes it no journal.
#[derive(Clone, Copy, Debug, PartialEq, Eq)]
pub struct BadLine {
    /// The line's number. Lines are counted from 1, and the first one is the line `journal`.
    pub line: u64,
}
