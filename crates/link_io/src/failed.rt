/// A device refused a call. What it was asked to take or give is as it was, and its count of faults rose.
#[derive(Clone, Copy, Debug, PartialEq, Eq)]
pub struct Failed;
