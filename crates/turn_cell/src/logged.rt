//! What the lock asks of the value that it guards.
ghost use Rattle.std.specs.Prelude.{◌≡◌, ℕ, ◌<◌, ◌^◌, List, length};

/// A value that keeps a log. Each entry has the number of its maker, and the base never changes.
pub trait Logged {
    type Entry;
    /// What is fixed with the value. No value of this type is made: `base` says what it is.
    type Base;

    // The entries so far, the oldest first.
    ghost log: { Self → List Self.Entry };
    // The number of the one who made an entry.
    ghost maker: { Self.Entry → ℕ };
    // What is fixed with the value.
    ghost base: { Self → Self.Base };

    /// The length of the log, in entries. It is below 2^62.
    fn log_len(&self) -> u64
        ensures length { result ≡ length (log self.now) }
        ensures small { result < 2 ^ 62 };
}
