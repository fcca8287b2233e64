//! What all calls are told of at once.

/// What all calls are told of at once.
#[derive(Clone, Copy, Debug, PartialEq, Eq)]
pub enum Notice {
    /// The time has come to this moment, in milliseconds: each live call of a ticking method for which no `Tick` and
    /// fewer than 64 events wait is told.
    Time(u64),
    /// The input has ended: each live call is told.
    InputEnded,
    /// This channel is closed: each live call on it ends with `ABORTED`.
    ChannelClosed(u32),
}
