//! A thread runs the handler of a call.
ghost use Rattle.std.specs.Prelude.{◌≡◌, true, OnErr};
ghost use Rattle.rpc_shared.specs.OwnRuns.{Runs};
ghost use Rattle.rpc_shared.specs.Steps.{IsOwn};
ghost use Rattle.rpc_shared.specs.session.Crew.{Adds, is_workers};
ghost use Rattle.rpc_shared.specs.session.Sessions.{is_halted};

use crate::Gate;
use crate::halting::{Halted, halt};
use crate::table::Table;
use link_io::Why;
use rpc_calls::Running;
use rpc_handlers::Handler;
use rpc_shared::Pass;
use std::sync::Wait;

/// Asks the handler of a run outside the lock, and finishes the run.
///
/// # Errors
///
/// Where there was no memory for the answer. The table is halted then, and the call stays running.
pub(crate) fn run<H: Handler, R: Wait, G: Gate>(
    rt: &R,
    shared: &Table<H>,
    pass: &mut Pass<H>,
    gate: &G,
    mut running: Running<H>,
) -> Result<(), Halted>
    requires own { IsOwn shared.now pass.old }
    requires runs { Runs H.rule shared.now.base pass.old running }
    ensures adds { Adds H.rule shared.now is_workers pass.old pass.new }
    ensures halted { OnErr result (is_halted shared.now.base pass.new.view.known.seen ≡ true) }
{
    let call = running.call_number();
    gate.before(call);
    if running.call().is_err() {
        drop(running.spill());
        halt(rt, shared, pass, Why::Memory);
        return Err(Halted);
    }
    drop(shared.finish(rt, pass, running));
    gate.after(call);
    Ok(())
}
