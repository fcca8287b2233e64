//! Tests on roles, kinds of methods and statuses.
ghost use Rattle.std.specs.Prelude.{◌≡◌};
ghost use Rattle.rpc_journal.specs.Kinds.{is_okay, is_server, is_unary, streams_down, streams_out, streams_up};

use rpc_ids::{Kind, Role, Status};

/// Whether this is the end that answers calls.
pub fn is_server(role: Role) -> bool
    ensures { result ≡ is_server role }
{
    match role {
        Role::Server => true,
        Role::Client => false,
    }
}

/// Whether neither side streams.
pub fn is_unary(kind: Kind) -> bool
    ensures { result ≡ is_unary kind }
{
    match kind {
        Kind::Unary => true,
        _ => false,
    }
}

/// Whether the client sends a stream of messages.
pub fn streams_up(kind: Kind) -> bool
    ensures { result ≡ streams_up kind }
{
    match kind {
        Kind::ClientStream | Kind::Bidi => true,
        Kind::Unary | Kind::ServerStream => false,
    }
}

/// Whether the server sends a stream of messages.
pub fn streams_down(kind: Kind) -> bool
    ensures { result ≡ streams_down kind }
{
    match kind {
        Kind::ServerStream | Kind::Bidi => true,
        Kind::Unary | Kind::ClientStream => false,
    }
}

/// Whether an endpoint of this role sends a stream of messages.
pub fn streams_out(role: Role, kind: Kind) -> bool
    ensures { result ≡ streams_out role kind }
{
    match role {
        Role::Server => streams_down(kind),
        Role::Client => streams_up(kind),
    }
}

/// Whether the status is `OK`.
pub fn is_okay(status: Status) -> bool
    ensures { result ≡ is_okay status }
{
    match status {
        Status::Okay => true,
        _ => false,
    }
}
