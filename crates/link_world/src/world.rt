//! The world of a script.
ghost use Rattle.std.specs.Prelude.{◌≡◌, Err, IfOk};
ghost use Rattle.demo_services.specs.DemoRule.{demo_rule};
ghost use Rattle.rpc_journal.specs.Lawful.{IsLegal};
ghost use Rattle.link_laws.specs.world.Limits.{IsPastFrames, IsPastJournal};
ghost use Rattle.link_laws.specs.world.Setup.{client_setting, quiet_rule, script_chunk, script_window, setup_of};
ghost use Rattle.link_laws.specs.world.Sound.{NoFlips};
ghost use Rattle.link_laws.specs.transfers_fit.Scripts.{IsScript};
ghost use Rattle.link_laws.specs.lossless_scripts.Lossless.{IsLosslessScript};
ghost use Rattle.link_laws.specs.lossless_scripts.Scripts.{IsOpenScript};
ghost use Rattle.link_world.specs.Outcomes.{AllArrive, AllEndWell, BothStayWithin, IsRunOf, IsRunWith, LinesHold, LossesEndWell, RunIsSound, SoundLinesHold};
ghost use Rattle.link_world.specs.Starting.{IsWithinBounds};

use crate::client::ClientEnd;
use crate::course::Course;
use crate::outcome::{Outcome, WorldRefused};
use crate::over::end;
use crate::running::run_turns;
use crate::server::{ServerEnd, Wires, store_of};
use link_script::{DEFAULT_CHUNK, DEFAULT_WINDOW, Script};
use std::alloc::{AllocError, Global};
use std::marker::Model;
use transfer_base::Tuning;

/// Both ends, the link between them and the commands of a script, before anything happens. Contracts see the script.
#[derive(Drop)]
pub struct World {
    alloc: Global,
    script: Script,
    tuning: Tuning,
    server: ServerEnd,
    client: ClientEnd,
    wires: Wires,
}

impl Model for World {
    ghost use Rattle.link_script.specs.declared.script.Script.{Script};

    ghost Value = { Script };

    ghost use Rattle.link_world.specs.Starting.{IsNew};

    ghost view = { λ w. w.script };

    ghost invariant = { λ w. IsNew w.script w.tuning w.server w.client w.wires };
}

impl World {
    /// The world of a script whose numbers fit.
    pub fn new(alloc: Global, script: Script) -> Result<World, AllocError>
        requires bounds { IsWithinBounds script }
        requires fits { IsScript script }
        ensures { IfOk result (λ world. world ≡ script) }
    {
        let tuning = tuning_of(&script);
        let server_store = store_of(
            alloc,
            script.server.as_slice(),
            script.left_server.as_slice(),
        )?;
        let client_store = store_of(
            alloc,
            script.client.as_slice(),
            script.left_client.as_slice(),
        )?;
        let server = ServerEnd::new(alloc, server_store, tuning)?;
        let client = ClientEnd::new(alloc, client_store)?;
        let wires = Wires::new(alloc, script.losses.as_slice())?;
        Ok(World {
            alloc,
            script,
            tuning,
            server,
            client,
            wires,
        })
    }

    /// Runs the script to its end.
    ///
    /// # Errors
    ///
    /// Where more frames than `MAX_DELIVERIES` would be delivered, where the journal of an end has no room, or for want of
    /// memory.
    pub fn run(self) -> Result<Outcome, WorldRefused>
        ensures ok { IfOk result (IsRunOf self) }
        ensures frames { result ≡ Err WorldRefused.Frames → IsPastFrames (setup_of self) self.commands }
        ensures journal { result ≡ Err WorldRefused.Journal → IsPastJournal (setup_of self) self.commands }
        ensures server { IfOk result (λ outcome. IsLegal demo_rule (setup_of self).server outcome.server.entries) }
        ensures client { IfOk result (λ outcome. IsLegal quiet_rule client_setting outcome.client.entries) }
        ensures room { IfOk result BothStayWithin }
        ensures sound { NoFlips self.losses → IfOk result (IsRunWith RunIsSound self) }
        ensures bytes { NoFlips self.losses → IfOk result (IsRunWith LinesHold self) }
        ensures sound_bytes { IfOk result (IsRunWith SoundLinesHold self) }
        ensures lossless { IsLosslessScript self → IfOk result (IsRunWith AllEndWell self) }
        ensures arrives { IsLosslessScript self → IfOk result (IsRunWith AllArrive self) }
        ensures losses { IsOpenScript self → IfOk result (IsRunWith LossesEndWell self) }
    {
        let World {
            alloc,
            script,
            tuning,
            mut server,
            mut client,
            mut wires,
        } = self;
        let mut course = Course::new(alloc);
        run_turns(
            script.commands.as_slice(),
            tuning,
            &mut server,
            &mut client,
            &mut wires,
            &mut course,
        )?;
        end(alloc, server, client, wires, course)
    }
}

// How the receivers of a script ask.
fn tuning_of(script: &Script) -> Tuning
    requires { IsWithinBounds script.now }
    ensures window { result.window ≡ script_window script.now }
    ensures chunk { result.chunk ≡ script_chunk script.now }
{
    Tuning {
        window: script.window.unwrap_or(DEFAULT_WINDOW),
        chunk: script.chunk.unwrap_or(DEFAULT_CHUNK),
    }
}
