//! A run, turn by turn.
ghost use Rattle.std.specs.Prelude.{◌≡◌, ◌<◌, ◌^◌, length, Err, OnOk};
ghost use Rattle.std.specs.List.{AllByRecursion};
ghost use Rattle.link_script.specs.Script.{IsCommand};
ghost use Rattle.link_laws.specs.transfers_fit.Fits.{BeginsSmall};
ghost use Rattle.link_laws.specs.world.Limits.{IsPastFrames, IsPastJournal};
ghost use Rattle.link_laws.specs.world.World.{first_world};
ghost use Rattle.link_world.specs.Running.{EndsWith, setup_by};
ghost use Rattle.link_world.specs.Showing.{IsOpen, Shows, Stands};

use crate::client::ClientEnd;
use crate::course::Course;
use crate::making::make_turn;
use crate::outcome::WorldRefused;
use crate::server::{ServerEnd, Wires};
use crate::turn::next_turn;
use link_laws::world::MAX_DELIVERIES;
use link_script::Command;
use transfer_base::Tuning;

/// Makes all turns but the end.
pub(crate) fn run_turns(
    commands: &[Command],
    tuning: Tuning,
    server: &mut ServerEnd,
    client: &mut ClientEnd,
    wires: &mut Wires,
    course: &mut Course,
) -> Result<(), WorldRefused>
    requires stands { Stands server.old client.old course.old }
    requires open { IsOpen client.old course.old.under }
    requires commands { AllByRecursion IsCommand commands.now }
    requires few { length commands.now < 2 ^ 32 }
    requires small { BeginsSmall (setup_by server.old client.old wires.old tuning) }
    requires begins { Shows (setup_by server.old client.old wires.old tuning) commands.now server.old client.old wires.old course.old (first_world commands.now) }
    ensures stands { OnOk result (Stands server.new client.new course.new) }
    ensures ends { OnOk result (EndsWith (setup_by server.old client.old wires.old tuning) commands.now server.new client.new wires.new course.new) }
    ensures frames { result ≡ Err WorldRefused.Frames → IsPastFrames (setup_by server.old client.old wires.old tuning) commands.now }
    ensures journal { result ≡ Err WorldRefused.Journal → IsPastJournal (setup_by server.old client.old wires.old tuning) commands.now }
{
    'turns: while let Some(turn) = next_turn(commands, course, wires) {
        if course.delivered >= MAX_DELIVERIES {
            return Err(WorldRefused::Frames);
        }
        make_turn(turn, tuning, server, client, wires, course)?;
    }
    Ok(())
}
