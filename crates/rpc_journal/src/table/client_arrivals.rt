//! What a client makes of a packet, by its type and the state of the call of its name.
ghost use Rattle.std.specs.Prelude.{◌≡◌, ℕ, List, IfSome};
ghost use Rattle.rpc_ids.specs.declared.method.MethodRef.{MethodRef};
ghost use Rattle.rpc_ids.specs.declared.method.Role.TheVariants.{Client};
ghost use Rattle.rpc_ids.specs.Status.{status_of};
ghost use Rattle.rpc_packet.specs.declared.owned.Packet.{Packet};
ghost use Rattle.rpc_journal.specs.declared.table.call_state.CallState.{CallState};
ghost use Rattle.rpc_journal.specs.declared.setting.Setting.{Setting};
ghost use Rattle.rpc_channel.specs.Rising.{has_id};
ghost use Rattle.rpc_journal.specs.Calls.{call_count, live_call};
ghost use Rattle.rpc_journal.specs.ClientTable.{live_row, no_call_row, response_row, server_stream_row};
ghost use Rattle.rpc_journal.specs.Effect.{Deed};
ghost use Rattle.rpc_journal.specs.Entries.{arrive_row};
ghost use Rattle.rpc_journal.specs.Rows.{channels_in};
ghost use Rattle.rpc_journal.specs.table.Moves.{IsOpenMove, row_of};
ghost use Rattle.rpc_journal.specs.table.Agrees.{IsOpenAt};

use crate::kinds::{is_okay, streams_down};
use crate::table::arrival_move::Move;
use rpc_ids::{Kind, Registry, Status};
use rpc_packet::{Packet, PacketType};

/// What a client makes of a packet, by whether its channel is in, and which live call has its name.
#[tactic(auto, unfolding(crate::specs::Entries::arrive_row))]
pub fn client_move(is_in: bool, live: Option<usize>, p: &Packet, registry: &Registry) -> Move
    ensures row { (set : Setting) (ds : List Deed) → set.role ≡ Client → set.registry ≡ registry.now → has_id (channels_in set ds) p.now.name.channel ≡ is_in → live_call ds p.now.name ≡ live → arrive_row set ds p.now ≡ row_of result p.now (call_count ds) }
    ensures call { (states : List CallState) → IfSome live (λ c. IsOpenAt states c) → IsOpenMove states result }
{
    if !is_in {
        return Move::Drop;
    }
    match registry.find(p.name.service, p.name.method) {
        None => no_call_move(p.ptype),
        Some(method) => match live {
            None => no_call_move(p.ptype),
            Some(call) => live_move(p, method.kind, call),
        },
    }
}

// There is no live call of the packet's name.
fn no_call_move(ptype: PacketType) -> Move
    ensures row { (p : _) (n : ℕ) → no_call_row ptype p ≡ row_of result p n }
    ensures call { (states : List CallState) → IsOpenMove states result }
{
    match ptype {
        PacketType::ServerStream => Move::Stray,
        _ => Move::Drop,
    }
}

// This is the live call of the packet's name, of a method of this kind.
fn live_move(p: &Packet, kind: Kind, call: usize) -> Move
    ensures row { (m : MethodRef) (n : ℕ) → m.kind ≡ kind → live_row p.now.ptype p.now m call ≡ row_of result p.now n }
    ensures call { (states : List CallState) → IsOpenAt states call → IsOpenMove states result }
{
    match p.ptype {
        PacketType::ServerStream => server_stream_move(kind, call),
        PacketType::Response => response_move(kind, Status::of(p.status), call),
        PacketType::ServerError => Move::End(call, Status::of(p.status)),
        PacketType::Request
        | PacketType::ClientStream
        | PacketType::ClientError
        | PacketType::Completion => Move::Drop,
    }
}

fn server_stream_move(kind: Kind, call: usize) -> Move
    ensures row { (p : _) (m : MethodRef) (n : ℕ) → m.kind ≡ kind → server_stream_row p m call ≡ row_of result p n }
    ensures call { (states : List CallState) → IsOpenAt states call → IsOpenMove states result }
{
    if streams_down(kind) {
        Move::Queue(call)
    } else {
        Move::Refuse(call)
    }
}

fn response_move(kind: Kind, status: Status, call: usize) -> Move
    ensures row { (p : Packet) (m : MethodRef) (n : ℕ) → m.kind ≡ kind → status_of p.status ≡ status → response_row p m call ≡ row_of result p n }
    ensures call { (states : List CallState) → IsOpenAt states call → IsOpenMove states result }
{
    if is_okay(status) && !streams_down(kind) {
        Move::Answer(call, status)
    } else {
        Move::End(call, status)
    }
}
