/// How the reading of a stream ended.
#[derive(Clone, Copy, Debug, PartialEq, Eq)]
pub enum Ending {
    /// The source has no further byte.
    AtEnd,
    /// A read failed.
    SourceFault,
    /// The store failed at an action. No item after it went out.
    StoreFault,
    /// So many bytes were read as one stream may have; the end wasn't looked for.
    InputLimit,
    /// The journal had no room for what was to be done next.
    JournalLimit,
}
