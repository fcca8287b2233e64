//! Two threads over one table: one runs a call's handler, and the other cancels the call.
ghost use Rattle.std.specs.Prelude.{◌≡◌};
ghost use Rattle.std.specs.Thread.{IsSync};
ghost use Rattle.rpc_shared.specs.Steps.{IsOwn};

use super::desk::{open_table, opens, share};
use super::letters::Letters;
use link_io::Why;
use rpc_calls::StartRefused;
use rpc_handlers::Handler;
use rpc_ids::Status;
use rpc_shared::{Pass, Shared};
use std::sync::Wait;
use std::test::Fail;
use std::thread::{Threads, join};

// Runs a call, where one is ready, and gives its handler where the table has no further use for it.
fn run<H: Handler, R: Wait>(
    rt: &R,
    shared: &Shared<H>,
    mut pass: Pass<H>,
) -> Result<Option<H>, StartRefused>
    requires { IsOwn shared.now pass }
{
    let Some(mut running) = shared.start(rt, &mut pass)? else {
        return Ok(None);
    };
    if running.call().is_err() {
        shared.halt(rt, &mut pass, Why::Memory);
        return Ok(Some(running.spill()));
    }
    Ok(shared.finish(rt, &mut pass, running))
}

// Cancels a call, where it is there, and waits until nobody runs it.
fn stop<H: Handler, R: Wait>(
    rt: &R,
    shared: &Shared<H>,
    mut pass: Pass<H>,
    call: u32,
) -> Option<Status>
    requires { IsOwn shared.now pass }
{
    let look = shared.look(rt, &mut pass);
    if look.calls <= call {
        return None;
    }
    Some(shared.cancel_wait(rt, &mut pass, call))
}

// Both at once.
fn run_and_stop<H: Handler + Send, R: Threads + Wait + Sync>(
    rt: &R,
    shared: &Shared<H>,
    worker: Pass<H>,
    other: Pass<H>,
) -> Option<Status>
    requires { IsOwn shared.now worker × IsOwn shared.now other }
{
    let (_handler, status) = join(
        rt,
        move ||
            requires { IsSync R.row × IsOwn shared.now worker }
        { run(rt, shared, worker) },
        move ||
            requires { IsOwn shared.now other }
        { stop(rt, shared, other, 0) },
    );
    status
}

#[test]
fn one_thread_runs_a_call_and_another_cancels_it(rt: HostRuntime) -> Result<(), Fail> {
    let maker = Letters::new(rt.alloc(), b'a', false)?;
    let (calls, methods) = open_table(rt.alloc(), &maker)?;
    let (shared, mut passes) = share(&rt, rt.alloc(), calls);
    opens(&rt, &shared, &mut passes.reader, &maker, methods.chat);
    let (_, _, worker, other) = passes.apart();
    let status = run_and_stop(&rt, &shared, worker, other);
    assert_eq!(rt; status, Some(Status::Cancelled));
    Ok(())
}
