//! What a pass sees of the table.

use link_io::Why;

/// What a look at the table told. It adds nothing.
#[derive(Clone, Copy, Debug, PartialEq, Eq)]
pub struct Look {
    /// Nothing is left to do: the input has ended, no call runs, no event waits and no item does.
    pub settled: bool,
    /// The input has ended, no event waits and no call runs; items may wait.
    pub idle: bool,
    /// Why the table was halted, where it was.
    pub halted: Option<Why>,
    /// How many calls were opened. Each number below it is one of a call.
    pub calls: u32,
}
