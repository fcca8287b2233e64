use bytes::Bytes;

/// A part of a resource, as one data chunk carries it.
#[derive(Debug, Drop)]
pub struct Piece {
    /// Where the part begins, in bytes from the resource's beginning.
    pub offset: u64,
    pub bytes: Bytes,
    /// Whether it ends where the resource ends, as `remaining_bytes` 0 says.
    pub last: bool,
}
