/// Which way the sessions of a call move resources.
#[derive(Clone, Copy, Debug, PartialEq, Eq)]
pub enum Side {
    /// The service sends, and its clients read.
    Read,
    /// The service receives, and its clients write.
    Write,
}
