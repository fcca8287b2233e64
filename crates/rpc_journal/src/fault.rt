//! What is wrong with a history that isn't lawful.

/// A rule that an entry breaks.
#[derive(Clone, Copy, Debug, PartialEq, Eq)]
pub enum Broken {
    /// The seat may not make such an entry.
    Seat,
    /// The entry names a call that no entry before it opened.
    UnknownCall,
    /// A run begins of a call that isn't ready.
    NotReady,
    /// A run ends that this seat doesn't run.
    NotRunning,
    /// An arrival or a second end of input after the end of input.
    AfterEnd,
    /// The call table refuses such an entry.
    Refused,
    /// A flush where nothing waits to be flushed.
    Nothing,
}

/// The first entry of a history that isn't allowed after those before it.
#[derive(Clone, Copy, Debug, PartialEq, Eq)]
pub struct Fault {
    /// The entry's place in the history, from 0.
    pub at: u64,
    /// The first rule that it breaks.
    pub rule: Broken,
}
