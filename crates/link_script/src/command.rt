use bytes::Bytes;

/// The most bytes of a message in a command.
pub const MAX_MESSAGE: usize = 8_000;

/// One thing that the client does, or the server.
#[derive(Clone, Debug, Drop)]
pub enum Command {
    /// Reads a resource from the service, from an offset in bytes on.
    Read(u32, u64),
    /// Writes a resource to the service, from an offset in bytes on.
    Write(u32, u64),
    /// A call of Echo with these bytes.
    Echo(Bytes),
    /// A call of Count up to this number.
    Count(u32),
    /// A call of Sum with each byte as a message.
    Sum(Bytes),
    /// A call of Chat with each byte as a message.
    Chat(Bytes),
    /// The server closes a channel.
    Close(u32),
}
