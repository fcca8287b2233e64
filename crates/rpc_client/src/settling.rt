//! The loop that runs a client until it has nothing to run.
ghost use Rattle.std.specs.Prelude.{◌≡◌, ℕ, List};
ghost use Rattle.rpc_ids.specs.declared.method.Role.TheVariants.{Client as client_role};
ghost use Rattle.rpc_schedule.specs.ends.EndState.{WasFed};
ghost use Rattle.rpc_client.specs.Settling.{Lists, WorksUntilIdle};

use crate::Client;
use rpc_handlers::{Event, Handler};
use rpc_journal::StartRefused;

/// Works until no run is kept and no call is ready. The call and the event of each run come after what is in the list, in
/// the order of the runs.
///
/// # Errors
///
/// Where the journal has no room for a run, or memory is wanting. The list then has what was handed on before, and a run
/// that began is kept: the next work goes on with it.
pub fn work_until_idle<H: Handler>(
    client: &mut Client<H>,
    handed: &mut Vec<(u32, Event)>,
) -> Result<(), StartRefused>
    ensures works { WorksUntilIdle H.rule client.old.serving handed.old.items result client.new.serving handed.new.items }
    ensures listener { client.new.listener ≡ client.old.listener }
    ensures fed { (bytes : List ℕ) → WasFed client_role client.old bytes → WasFed client_role client.new bytes }
{
    'runs: loop {
        match work_into(client, handed) {
            Ok(true) => {}
            Ok(false) => return Ok(()),
            Err(refused) => return Err(refused),
        }
    }
}

// Works once, and puts what is handed on last into the list. Answers whether anything was handed on.
fn work_into<H: Handler>(
    client: &mut Client<H>,
    handed: &mut Vec<(u32, Event)>,
) -> Result<bool, StartRefused>
    ensures lists { Lists H.rule client.old.serving handed.old.items result client.new.serving handed.new.items }
    ensures listener { client.new.listener ≡ client.old.listener }
    ensures fed { (bytes : List ℕ) → WasFed client_role client.old bytes → WasFed client_role client.new bytes }
{
    if handed.reserve(1).is_err() {
        return Err(StartRefused::Memory);
    }
    match client.work() {
        Ok(Some(run)) => match handed.push(run) {
            Ok(()) => Ok(true),
            Err(_) => unreachable!(),
        },
        Ok(None) => Ok(false),
        Err(refused) => Err(refused),
    }
}
