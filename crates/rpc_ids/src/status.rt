//! The status codes of RPC, with their numbers and names.
ghost use Rattle.std.specs.Prelude.{◌≡◌, ◌<◌, ◌≤◌};
ghost use Rattle.rpc_ids.specs.Status.{status_number, status_of, status_name};

/// How a call ended: the canonical status codes that gRPC and pw_status share.
#[derive(Clone, Copy, Debug, PartialEq, Eq, Hash)]
pub enum Status {
    /// The call succeeded. Its usual name is `OK`.
    Okay,
    /// The caller gave the call up.
    Cancelled,
    /// No other status says what went wrong.
    Unknown,
    /// An argument can never be valid, whatever the state of the system.
    InvalidArgument,
    /// The time allowed ran out.
    DeadlineExceeded,
    /// What was asked for isn't there.
    NotFound,
    /// What was to be made is there already.
    AlreadyExists,
    /// The caller may not do this.
    PermissionDenied,
    /// A limit or a quota is used up.
    ResourceExhausted,
    /// The system isn't in a state that the call needs.
    FailedPrecondition,
    /// The call was abandoned, as after a conflict.
    Aborted,
    /// An offset or an index lies past the valid range.
    OutOfRange,
    /// The method isn't implemented.
    Unimplemented,
    /// An invariant of the callee is broken.
    Internal,
    /// The service can't be reached now.
    Unavailable,
    /// Data was lost or damaged for good.
    DataLoss,
    /// The caller didn't say who it is.
    Unauthenticated,
}

impl Status {
    /// The number on the wire, from 0 for `Okay` to 16 for `Unauthenticated`.
    pub fn number(self) -> u32
        ensures number { result ≡ status_number self }
        ensures again { status_of result ≡ self }
    {
        self as u32
    }

    /// The status with this number. A number above 16 is `Unknown`.
    pub fn of(number: u32) -> Status
        ensures status { result ≡ status_of number }
        ensures known { number ≤ 16 → status_number result ≡ number }
        ensures unknown { 16 < number → result ≡ Status.Unknown }
    {
        match number {
            0 => Status::Okay,
            1 => Status::Cancelled,
            3 => Status::InvalidArgument,
            4 => Status::DeadlineExceeded,
            5 => Status::NotFound,
            6 => Status::AlreadyExists,
            7 => Status::PermissionDenied,
            8 => Status::ResourceExhausted,
            9 => Status::FailedPrecondition,
            10 => Status::Aborted,
            11 => Status::OutOfRange,
            12 => Status::Unimplemented,
            13 => Status::Internal,
            14 => Status::Unavailable,
            15 => Status::DataLoss,
            16 => Status::Unauthenticated,
            _ => Status::Unknown,
        }
    }

    /// The usual name in capitals, as `INVALID_ARGUMENT`.
    pub fn name(self) -> &'static str
        ensures { result.now ≡ status_name self }
    {
        match self {
            Status::Okay => "OK",
            Status::Cancelled => "CANCELLED",
            Status::Unknown => "UNKNOWN",
            Status::InvalidArgument => "INVALID_ARGUMENT",
            Status::DeadlineExceeded => "DEADLINE_EXCEEDED",
            Status::NotFound => "NOT_FOUND",
            Status::AlreadyExists => "ALREADY_EXISTS",
            Status::PermissionDenied => "PERMISSION_DENIED",
            Status::ResourceExhausted => "RESOURCE_EXHAUSTED",
            Status::FailedPrecondition => "FAILED_PRECONDITION",
            Status::Aborted => "ABORTED",
            Status::OutOfRange => "OUT_OF_RANGE",
            Status::Unimplemented => "UNIMPLEMENTED",
            Status::Internal => "INTERNAL",
            Status::Unavailable => "UNAVAILABLE",
            Status::DataLoss => "DATA_LOSS",
            Status::Unauthenticated => "UNAUTHENTICATED",
        }
    }
}
