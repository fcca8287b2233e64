//! What a table makes of a packet, by the role, the packet's type and the state of the call of its name.
ghost use Rattle.std.specs.Prelude.{◌≡◌, List, IfSome};
ghost use Rattle.rpc_channel.specs.Rising.{has_id};
ghost use Rattle.rpc_journal.specs.declared.table.call_state.CallState.{CallState};
ghost use Rattle.rpc_journal.specs.declared.setting.Setting.{Setting};
ghost use Rattle.rpc_journal.specs.Calls.{call_count, live_call};
ghost use Rattle.rpc_journal.specs.Effect.{Deed};
ghost use Rattle.rpc_journal.specs.Entries.{arrive_row};
ghost use Rattle.rpc_journal.specs.Faults.{IsSettingOf};
ghost use Rattle.rpc_journal.specs.Queues.{is_completed};
ghost use Rattle.rpc_journal.specs.Rows.{channels_in};
ghost use Rattle.rpc_journal.specs.table.Moves.{IsOpenMove, row_of};
ghost use Rattle.rpc_journal.specs.table.Agrees.{Agrees, IsOpenAt};

use crate::table::call_states::CallStates;
use crate::table::client_arrivals::client_move;
use crate::table::server_arrivals::server_move;
use rpc_channel::Channels;
use rpc_ids::{MethodRef, Registry, Role, Status};
use rpc_packet::Packet;

/// What a table makes of a packet. A `usize` is the number of a call.
#[derive(Clone, Copy, Debug, PartialEq, Eq)]
pub enum Move {
    /// Nothing.
    Drop,
    /// At a server a reply of no call goes out, with this status.
    Reply(Status),
    /// At a server the call ends with this status, and what waits for it goes.
    Close(usize, Status),
    /// At a server a call of this method opens.
    Open(MethodRef),
    /// The same, and the call of this name before it ends with `CANCELLED`.
    OpenAnew(MethodRef, usize),
    /// A message waits for the call.
    Queue(usize),
    /// At a server the client's stream is complete.
    Complete(usize),
    /// At a client the packet is of no live call: a reply of no call goes out.
    Stray,
    /// At a client the call ends with this status, after what waits for it.
    End(usize, Status),
    /// At a client the call ends, as its method has no such stream, and the server is told.
    Refuse(usize),
    /// At a client a last message waits for the call, which ends with this status.
    Answer(usize, Status),
}

/// What an endpoint of this role with these channels and methods makes of a packet.
pub fn move_at(
    role: Role,
    states: &CallStates,
    p: &Packet,
    channels: &Channels,
    registry: &Registry,
) -> Move
    ensures row { (set : Setting) (ds : List Deed) → IsSettingOf set role channels.now registry.now → Agrees ds states.now → arrive_row set ds p.now ≡ row_of result p.now (call_count ds) }
    ensures call { IsOpenMove states.now.calls.items result }
{
    let is_in = states.is_in(channels, p.name.channel);
    let live = states.live(p.name);
    let completed = states.is_completed(live);
    move_of(role, is_in, live, completed, p, registry)
}

/// What an endpoint of this role with these methods makes of a packet, by whether its channel is in, which live call has
/// its name, and whether that one's input is complete.
pub fn move_of(
    role: Role,
    is_in: bool,
    live: Option<usize>,
    completed: bool,
    p: &Packet,
    registry: &Registry,
) -> Move
    ensures row { (set : Setting) (ds : List Deed) → set.role ≡ role → set.registry ≡ registry.now → has_id (channels_in set ds) p.now.name.channel ≡ is_in → live_call ds p.now.name ≡ live → IfSome live (λ c. is_completed ds c ≡ completed) → arrive_row set ds p.now ≡ row_of result p.now (call_count ds) }
    ensures call { (states : List CallState) → IfSome live (λ c. IsOpenAt states c) → IsOpenMove states result }
{
    match role {
        Role::Server => server_move(is_in, live, completed, p, registry),
        Role::Client => client_move(is_in, live, p, registry),
    }
}
