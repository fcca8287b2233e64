//! The command under way.

use crate::client::speaker::Speaker;

/// A method of `demo.Demo`.
#[derive(Clone, Copy, Debug, PartialEq, Eq)]
pub enum Plain {
    Echo,
    Count,
    Sum,
    Chat,
}

/// A command that has begun and hasn't ended.
#[derive(Drop)]
pub enum Under {
    /// A read, or a write of a resource that the client has.
    Transferring(Speaker),
    /// A write of this resource, which the client hasn't.
    Lacking(u32),
    /// A call of a method, by its number at the client.
    Calling(Plain, u32),
    /// A channel, and how many calls ended as it was closed; `None` where it was closed before.
    Closing(u32, Option<u32>),
}
