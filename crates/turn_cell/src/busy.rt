//! Why the lock was not taken.

/// Another pass had the lock, or came between the load and the exchange.
#[derive(Clone, Copy, Debug, PartialEq, Eq)]
pub struct Busy {
    /// The word that the load of this call gave. It is odd while the lock is held.
    pub loaded: u64,
    /// The word that the exchange found; where none was made, the word loaded.
    pub word: u64,
}
