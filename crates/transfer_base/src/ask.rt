/// What a receiver asks of the sender: the parameters of a transfer, as pw_transfer's PARAMETERS_RETRANSMIT
/// and PARAMETERS_CONTINUE chunks carry them.
#[derive(Clone, Copy, Debug, PartialEq, Eq)]
pub struct Ask {
    /// Whether the sender goes back to `offset`, as RETRANSMIT says and CONTINUE does not.
    pub again: bool,
    /// The first byte that the receiver lacks.
    pub offset: u64,
    /// The end of the bytes that may be sent, in bytes from the resource's beginning.
    pub window_end: u64,
    /// The most bytes in a chunk; 0 leaves it to the sender.
    pub max_chunk: u32,
}
