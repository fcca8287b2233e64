//! What a chunk is for.
ghost use Rattle.std.specs.Prelude.{◌≡◌, Some};
ghost use Rattle.transfer_chunk.specs.ChunkTypes.{type_number, type_at};

/// What a chunk is for, by field 10.
#[derive(Clone, Copy, Debug, PartialEq, Eq, Hash)]
pub enum ChunkType {
    /// Bytes of the resource.
    Data,
    /// The client opens a session.
    Start,
    /// The receiver asks for bytes anew from an offset.
    ParametersRetransmit,
    /// The receiver lets the sender go on.
    ParametersContinue,
    /// The session has ended, with a status.
    Completion,
    /// The end is known.
    CompletionAck,
    /// The service agrees to open a session.
    StartAck,
    /// The client knows of that.
    StartAckConfirmation,
}

impl ChunkType {
    /// The number on the wire, from 0 for `Data` to 7 for `StartAckConfirmation`.
    pub fn number(self) -> u64
        ensures number { result ≡ type_number self }
        ensures again { type_at result ≡ Some self }
    {
        self as u64
    }

    /// The type with this number, or `None` where no type has it.
    pub fn of(number: u64) -> Option<ChunkType>
        ensures { result ≡ type_at number }
    {
        match number {
            0 => Some(ChunkType::Data),
            1 => Some(ChunkType::Start),
            2 => Some(ChunkType::ParametersRetransmit),
            3 => Some(ChunkType::ParametersContinue),
            4 => Some(ChunkType::Completion),
            5 => Some(ChunkType::CompletionAck),
            6 => Some(ChunkType::StartAck),
            7 => Some(ChunkType::StartAckConfirmation),
            _ => None,
        }
    }
}
