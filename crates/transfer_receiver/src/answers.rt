use rpc_ids::Status;
use transfer_base::Ask;

/// What a receiver does with a piece.
#[derive(Clone, Copy, Debug, PartialEq, Eq)]
pub enum Received {
    /// The piece is dropped.
    Ignored,
    /// The piece is to be appended; more is to be asked for, where an `Ask` is here.
    Kept(Option<Ask>),
    /// The piece is dropped, since one before it is missing: this is to be asked for.
    Again(Ask),
    /// The transfer ends, and the sender is to be told. With `Okay` the piece is to be appended, and
    /// is the last one; with any other status it is dropped.
    Ends(Status),
}

/// What a receiver does as time goes on.
#[derive(Clone, Copy, Debug, PartialEq, Eq)]
pub enum Ticked {
    Quiet,
    /// Nothing came for too long: this is to be asked for again.
    Resend(Ask),
    /// The end was not acknowledged: it is to be told again.
    ResendEnd(Status),
    /// The receiver gives up, and has ended with this status.
    Over(Status),
}
