//! The driver's pass opens the call.
ghost use Rattle.std.specs.Prelude.{◌≡◌, Bool, [], IfSome};
ghost use Rattle.turn_cell.specs.Passes.{IsNew, IsSame};
ghost use Rattle.rpc_handlers.specs.HandlerRule.{empty_memo};
ghost use Rattle.rpc_journal.specs.declared.entry.EntryKind.TheVariants.{Invoke};
ghost use Rattle.rpc_journal.specs.Changes.{request};
ghost use Rattle.rpc_journal.specs.Conditions.{CanInvoke};
ghost use Rattle.rpc_shared.specs.Steps.{IsOwn};
ghost use Rattle.live_client.specs.Driving.{CanDrive, Drives};
ghost use Rattle.live_client.specs.Opening.{Opens};

use crate::halting::{Seat, Table};
use crate::silent::Silent;
use bytes::Bytes;
use rpc_packet::CallName;
use std::sync::Wait;

/// Opens the call, by a new pass. None where the table refuses.
pub(crate) fn open_call<R: Wait>(
    rt: &R,
    table: &Table,
    pass: &mut Seat,
    name: CallName,
    payload: Bytes,
    handler: Silent,
) -> Option<u32>
    requires new { IsNew table.now 1 pass.old }
    requires can { CanInvoke table.now.base name payload }
    ensures same { IsSame pass.old pass.new }
    ensures own { IsOwn table.now pass.new }
    ensures opens { IfSome result (λ c. Opens table.now name payload c pass.new) }
{
    match table.invoke(rt, pass, name, payload, handler) {
        Ok(call) => Some(call),
        Err(_) => None,
    }
}
