//! What the end of an answer does to its call, by the role.
ghost use Rattle.std.specs.Prelude.{◌≡◌};
ghost use Rattle.rpc_journal.specs.table.Touch.{completes_by, end_by, tells_end};

use crate::kinds::{is_okay, is_unary};
use rpc_handlers::End;
use rpc_ids::{Kind, Role, Status};

/// The status with which the end of an answer ends its call. At a client one with `OK` ends none.
pub fn end_by(role: Role, end: &Option<End>) -> Option<Status>
    ensures { result ≡ end_by role end.now }
{
    match end {
        None => None,
        Some(end) => match role {
            Role::Server => Some(end.status),
            Role::Client => {
                if is_okay(end.status) {
                    None
                } else {
                    Some(end.status)
                }
            }
        },
    }
}

/// Whether the end of an answer completes the stream of a client's call, which is complete or isn't yet.
pub fn completes_by(role: Role, kind: Kind, done: bool, end: &Option<End>) -> bool
    ensures { result ≡ completes_by role kind done end.now }
{
    match end {
        None => false,
        Some(end) => match role {
            Role::Server => false,
            Role::Client => is_okay(end.status) && !(is_unary(kind) || done),
        },
    }
}

/// Whether the peer is told of the end of an answer.
pub fn tells_end(role: Role, kind: Kind, done: bool, end: &Option<End>) -> bool
    ensures { result ≡ tells_end role kind done end.now }
{
    match end {
        None => false,
        Some(end) => match role {
            Role::Server => true,
            Role::Client => !is_okay(end.status) || !(is_unary(kind) || done),
        },
    }
}
