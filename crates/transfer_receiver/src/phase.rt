ghost use Rattle.std.specs.Prelude.{◌≡◌};
ghost use Rattle.transfer_receiver.specs.Phase as spec;

use rpc_ids::Status;

/// Where a receiver stands.
///
/// ```text
///   Receiving --- a piece past the next byte ---> Recovering
///   Receiving <-- a kept piece ------------------ Recovering
///   Receiving, Recovering --- an end -----------> Completing
///   Receiving, Recovering --- too many resends -> Ended
///   Completing --- acknowledged, or too many resends ---> Ended
/// ```
#[derive(Clone, Copy, Debug, PartialEq, Eq)]
pub enum Phase {
    /// It takes the piece at its next byte.
    Receiving,
    /// The same, and it has asked for that piece again, since one past it came.
    Recovering,
    /// It has told the sender how the transfer ended, and waits until that is acknowledged.
    Completing(Status),
    Ended,
}

impl Phase {
    /// Whether it still takes pieces.
    pub fn is_open(self) -> bool
        ensures { result ≡ spec.is_open self }
    {
        match self {
            Phase::Receiving | Phase::Recovering => true,
            Phase::Completing(_) | Phase::Ended => false,
        }
    }

    /// Whether a lost piece was asked for, and none was kept since.
    pub fn is_recovering(self) -> bool
        ensures { result ≡ spec.is_recovering self }
    {
        match self {
            Phase::Recovering => true,
            Phase::Receiving | Phase::Completing(_) | Phase::Ended => false,
        }
    }

    /// Whether the transfer is over: its end was acknowledged, or the receiver gave up.
    pub fn is_ended(self) -> bool
        ensures { result ≡ spec.is_ended self }
    {
        match self {
            Phase::Ended => true,
            Phase::Receiving | Phase::Recovering | Phase::Completing(_) => false,
        }
    }
}
