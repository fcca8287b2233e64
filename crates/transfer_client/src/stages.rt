//! Where a transfer stands at the client.
ghost use Rattle.std.specs.Prelude.{◌≡◌};
ghost use Rattle.transfer_client.specs.Wait.{again_if, end_by_call, is_late, new_wait, touched};

use rpc_ids::Status;
use transfer_base::TIMEOUT;
use transfer_receiver::{MAX_RESENDS, ReceiverCore};
use transfer_sender::SenderCore;

/// A client that has asked, and waits for an answer.
#[derive(Clone, Copy, Debug, PartialEq, Eq)]
pub struct Wait {
    /// The moment of the last activity, in milliseconds.
    pub active: u64,
    /// How often it has asked again, in a row.
    pub resends: u8,
}

impl Wait {
    /// It asks for the first time.
    pub fn new(now: u64) -> Wait
        ensures { result ≡ new_wait now }
    {
        Wait {
            active: now,
            resends: 0,
        }
    }

    /// Whether nothing came for so long that a timeout comes.
    pub fn is_late(self, now: u64) -> bool
        ensures { result ≡ is_late self now }
    {
        TIMEOUT <= now.saturating_sub(self.active)
    }

    /// A chunk of the session came.
    pub fn touched(self, now: u64) -> Wait
        ensures { result ≡ touched self now }
    {
        Wait {
            active: now,
            ..self
        }
    }

    /// It asks once more, unless it has done so too often.
    pub fn again(self, now: u64) -> Option<Wait>
        ensures { result ≡ again_if self now }
    {
        if self.resends >= MAX_RESENDS {
            return None;
        }
        Some(Wait {
            active: now,
            resends: self.resends + 1,
        })
    }
}

/// How a transfer ends whose call has ended so: it isn't whole, so it can't have ended well.
pub fn end_by_call(status: Status) -> Status
    ensures { result ≡ end_by_call status }
{
    if status == Status::Okay {
        return Status::Aborted;
    }
    status
}

/// Where a read stands.
///
/// ```text
///   Unasked --- the first poll ---> Asking --- START_ACK ---> Receiving
///   Asking --- an end that the service tells, or too many timeouts ---> Over
///   Receiving --- its own end, once it is acknowledged; an end that the service tells; too many timeouts ---> Over
/// ```
#[derive(Clone, Copy, Debug)]
pub enum Reading {
    Unasked,
    Asking(Wait),
    Receiving(ReceiverCore),
    Over(Status),
}

/// Where a write stands.
///
/// ```text
///   Unasked --- the first poll ---> Asking --- START_ACK ---> Confirming --- parameters ---> Sending
///   Asking, Confirming, Sending --- an end that the service tells, or too many timeouts ---> Over
/// ```
#[derive(Clone, Debug, Drop)]
pub enum Writing {
    Unasked,
    Asking(Wait),
    Confirming(Wait),
    Sending(SenderCore),
    Over(Status),
}
