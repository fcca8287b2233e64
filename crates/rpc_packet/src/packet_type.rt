ghost use Rattle.std.specs.Prelude.{◌≡◌, IfSome, Some};
ghost use Rattle.rpc_packet.specs.PacketType.{type_number, type_of, receiver_of};

use rpc_ids::Role;

/// What a packet says, by pw_rpc's enum `PacketType`.
#[derive(Clone, Copy, Debug, PartialEq, Eq)]
pub enum PacketType {
    /// From a client: opens a call.
    Request,
    /// From a server: ends a call with its status.
    Response,
    /// From a client: one more message of its stream.
    ClientStream,
    /// From a client: ends a call with an error.
    ClientError,
    /// From a server: ends a call with an error, or refuses a packet.
    ServerError,
    /// From a server: one more message of its stream.
    ServerStream,
    /// From a client: its stream is complete (`CLIENT_REQUEST_COMPLETION`).
    Completion,
}

impl PacketType {
    /// The number that stands for the type on the wire.
    pub fn number(self) -> u64
        ensures number { result ≡ type_number self }
        ensures again { type_of result ≡ Some self }
    {
        match self {
            PacketType::Request => 0,
            PacketType::Response => 1,
            PacketType::ClientStream => 2,
            PacketType::ClientError => 4,
            PacketType::ServerError => 5,
            PacketType::ServerStream => 7,
            PacketType::Completion => 8,
        }
    }

    /// The type with this number. The numbers 3 and 6, which pw_rpc once used, and all above 8 belong to none.
    pub fn of(number: u64) -> Option<PacketType>
        ensures value { result ≡ type_of number }
        ensures again { IfSome result (λ t. type_number t ≡ number) }
    {
        match number {
            0 => Some(PacketType::Request),
            1 => Some(PacketType::Response),
            2 => Some(PacketType::ClientStream),
            4 => Some(PacketType::ClientError),
            5 => Some(PacketType::ServerError),
            7 => Some(PacketType::ServerStream),
            8 => Some(PacketType::Completion),
            _ => None,
        }
    }

    /// The role of the end that receives packets of this type. The other end sends them.
    pub fn receiver(self) -> Role
        ensures { result ≡ receiver_of self }
    {
        match self {
            PacketType::Request
            | PacketType::ClientStream
            | PacketType::ClientError
            | PacketType::Completion => Role::Server,
            PacketType::Response | PacketType::ServerError | PacketType::ServerStream =>
                Role::Client,
        }
    }
}
