/// Why a run ended.
#[derive(Clone, Copy, Debug, PartialEq, Eq)]
pub enum Why {
    /// The input was read to its end, and all that it asked for was done.
    Settled,
    /// A read failed.
    Source,
    /// A write or a flush failed.
    Sink,
    /// The store failed.
    Store,
    /// So many bytes were read as one input may have, and its end wasn't met.
    InputLimit,
    /// The journal has no room for a further entry.
    JournalLimit,
    /// There was no memory.
    Memory,
}
