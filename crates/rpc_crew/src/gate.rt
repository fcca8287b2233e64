//! What stands before and after each run of a handler.

/// Is called before and after each run of a handler, by the thread that runs it, which holds no lock then. A session does the same
/// with any gate; one may wait, to have runs in a chosen order.
pub trait Gate {
    /// A handler of this call is asked next.
    fn before(&self, call: u32);

    /// It has answered, and the run is over.
    fn after(&self, call: u32);
}

/// A gate that returns at once.
#[derive(Clone, Copy, Debug)]
pub struct Free;

impl Gate for Free {
    fn before(&self, _call: u32) {}

    fn after(&self, _call: u32) {}
}
