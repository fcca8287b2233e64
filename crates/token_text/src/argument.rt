//! The arguments of a message.
use bytes::Bytes;

/// An argument of a message.
#[derive(Debug, Drop)]
pub enum Arg {
    /// For `%d`, `%u` and `%x`.
    Number(i64),
    /// For `%s`: bytes of 20 to 7E. In a message it is cut to its first 127 bytes.
    Text(Bytes),
}

/// The arguments of a message, in the order of the parts that take them.
pub type Args = Vec<Arg>;
