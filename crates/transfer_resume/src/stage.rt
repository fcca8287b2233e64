use rpc_ids::Status;
use transfer_receiver::ReceiverCore;
use transfer_sender::SenderCore;

/// A session that was asked for and agreed to, and isn't confirmed yet.
#[derive(Clone, Copy, Debug, PartialEq, Eq)]
pub struct Opening {
    pub resource: u32,
    /// Where both ends begin, in bytes.
    pub agreed: u64,
    /// The moment of the last activity, in milliseconds.
    pub active: u64,
    /// The timeouts since the last chunk came.
    pub timeouts: u8,
}

/// Where a session stands.
///
/// ```text
///   Opening --- the client confirms ---> Sending (a read), Receiving (a write)
///   Opening, Sending, Receiving --- an end that the client tells, or too many timeouts ---> Ended
///   Receiving --- its own end, once the client acknowledges it ---> Ended
/// ```
#[derive(Debug, Drop)]
pub enum Stage {
    Opening(Opening),
    Sending(SenderCore),
    Receiving(ReceiverCore),
    Ended(Status),
}
