//! What a server makes of a packet, by its type and the state of the call of its name.
ghost use Rattle.std.specs.Prelude.{◌≡◌, ℕ, List, IfSome};
ghost use Rattle.rpc_ids.specs.declared.method.MethodRef.{MethodRef};
ghost use Rattle.rpc_ids.specs.declared.method.Role.TheVariants.{Server};
ghost use Rattle.rpc_journal.specs.declared.table.call_state.CallState.{CallState};
ghost use Rattle.rpc_journal.specs.declared.setting.Setting.{Setting};
ghost use Rattle.rpc_channel.specs.Rising.{has_id};
ghost use Rattle.rpc_journal.specs.Calls.{call_count, live_call};
ghost use Rattle.rpc_journal.specs.Effect.{Deed};
ghost use Rattle.rpc_journal.specs.Entries.{arrive_row};
ghost use Rattle.rpc_journal.specs.table.Moves.{IsOpenMove, row_of};
ghost use Rattle.rpc_journal.specs.Queues.{is_completed};
ghost use Rattle.rpc_journal.specs.Rows.{channels_in};
ghost use Rattle.rpc_journal.specs.ServerTable.{client_error_row, request_row, client_stream_row, completion_row, known_row, unknown_row};
ghost use Rattle.rpc_journal.specs.table.Agrees.{IsOpenAt};

use crate::kinds::{is_unary, streams_up};
use crate::table::arrival_move::Move;
use rpc_ids::{Kind, MethodRef, Registry, Status};
use rpc_packet::{Packet, PacketType};

/// What a server makes of a packet, by whether its channel is in, which live call has its name, and whether that one's
/// input is complete.
#[tactic(auto, unfolding(crate::specs::Entries::arrive_row))]
pub fn server_move(
    is_in: bool,
    live: Option<usize>,
    completed: bool,
    p: &Packet,
    registry: &Registry,
) -> Move
    ensures row { (set : Setting) (ds : List Deed) → set.role ≡ Server → set.registry ≡ registry.now → has_id (channels_in set ds) p.now.name.channel ≡ is_in → live_call ds p.now.name ≡ live → IfSome live (λ c. is_completed ds c ≡ completed) → arrive_row set ds p.now ≡ row_of result p.now (call_count ds) }
    ensures call { (states : List CallState) → IfSome live (λ c. IsOpenAt states c) → IsOpenMove states result }
{
    if !is_in {
        return unknown_move(p.ptype, Status::Unavailable);
    }
    match registry.find(p.name.service, p.name.method) {
        None => unknown_move(p.ptype, Status::NotFound),
        Some(method) => known_move(p, method, live, completed),
    }
}

// There is no such channel or method.
fn unknown_move(ptype: PacketType, status: Status) -> Move
    ensures row { (p : _) (n : ℕ) → unknown_row ptype p status ≡ row_of result p n }
    ensures call { (states : List CallState) → IsOpenMove states result }
{
    match ptype {
        PacketType::ClientError => Move::Drop,
        _ => Move::Reply(status),
    }
}

// The method is known, and `live` is the live call of the packet's name.
fn known_move(p: &Packet, method: MethodRef, live: Option<usize>, completed: bool) -> Move
    ensures row { (ds : List Deed) → IfSome live (λ c. is_completed ds c ≡ completed) → known_row p.now.ptype p.now method ds live ≡ row_of result p.now (call_count ds) }
    ensures call { (states : List CallState) → IfSome live (λ c. IsOpenAt states c) → IsOpenMove states result }
{
    match p.ptype {
        PacketType::ClientError => client_error_move(p, live),
        PacketType::Request => request_move(method, live),
        PacketType::ClientStream => client_stream_move(method.kind, live, completed),
        PacketType::Completion => completion_move(method.kind, live, completed),
        PacketType::Response | PacketType::ServerError | PacketType::ServerStream => Move::Drop,
    }
}

fn client_error_move(p: &Packet, live: Option<usize>) -> Move
    ensures row { (n : ℕ) → client_error_row p.now live ≡ row_of result p.now n }
    ensures call { (states : List CallState) → IfSome live (λ c. IsOpenAt states c) → IsOpenMove states result }
{
    match live {
        None => Move::Drop,
        Some(c) => Move::Close(c, Status::of(p.status)),
    }
}

fn request_move(method: MethodRef, live: Option<usize>) -> Move
    ensures row { (p : _) (n : ℕ) → request_row p method n live ≡ row_of result p n }
    ensures call { (states : List CallState) → IfSome live (λ c. IsOpenAt states c) → IsOpenMove states result }
{
    match live {
        None => Move::Open(method),
        Some(c) => Move::OpenAnew(method, c),
    }
}

fn client_stream_move(kind: Kind, live: Option<usize>, completed: bool) -> Move
    ensures row { (p : _) (m : MethodRef) (ds : List Deed) → m.kind ≡ kind → IfSome live (λ c. is_completed ds c ≡ completed) → client_stream_row p m ds live ≡ row_of result p (call_count ds) }
    ensures call { (states : List CallState) → IfSome live (λ c. IsOpenAt states c) → IsOpenMove states result }
{
    match live {
        None => Move::Reply(Status::FailedPrecondition),
        Some(c) => {
            if !streams_up(kind) {
                Move::Reply(Status::InvalidArgument)
            } else if completed {
                Move::Reply(Status::FailedPrecondition)
            } else {
                Move::Queue(c)
            }
        }
    }
}

fn completion_move(kind: Kind, live: Option<usize>, completed: bool) -> Move
    ensures row { (p : _) (m : MethodRef) (ds : List Deed) → m.kind ≡ kind → IfSome live (λ c. is_completed ds c ≡ completed) → completion_row p m ds live ≡ row_of result p (call_count ds) }
    ensures call { (states : List CallState) → IfSome live (λ c. IsOpenAt states c) → IsOpenMove states result }
{
    match live {
        None => Move::Reply(Status::FailedPrecondition),
        Some(c) => {
            if is_unary(kind) || completed {
                Move::Drop
            } else {
                Move::Complete(c)
            }
        }
    }
}
