//! A whole turn.
ghost use Rattle.std.specs.Prelude.{◌≡◌, ◌<◌, ◌≤◌, List, Err, OnOk, length};
ghost use Rattle.link_script.specs.declared.command.Command.{Command};
ghost use Rattle.link_laws.specs.declared.world.limits.TheConstants.{MAX_DELIVERIES};
ghost use Rattle.link_laws.specs.world.Limits.{StopsIn};
ghost use Rattle.link_laws.specs.world.Turns.{next_kind};
ghost use Rattle.link_laws.specs.world.World.{Setup, World};
ghost use Rattle.link_world.specs.Making.{TakesTurn, WorldTurns};
ghost use Rattle.link_world.specs.Running.{IsTimed, ShowsTurn};
ghost use Rattle.link_world.specs.Showing.{CanTurn, ClientShows, CourseShows, IsOpen, IsTuned, ServerShows, Stands};

use crate::client::ClientEnd;
use crate::course::Course;
use crate::ending::finish;
use crate::server::{ServerEnd, Stopped, Wires};
use crate::starting::start;
use crate::turn::NextTurn;
use crate::turns::{cancel, deliver_to_client, deliver_to_server, pass_time};
use transfer_base::Tuning;

/// Makes a turn, with its end.
pub(crate) fn make_turn(
    turn: NextTurn<'_>,
    tuning: Tuning,
    server: &mut ServerEnd,
    client: &mut ClientEnd,
    wires: &mut Wires,
    course: &mut Course,
) -> Result<(), Stopped>
    requires stands { Stands server.old client.old course.old }
    requires timed { course.old.times ≤ length server.old.end.serving.table.entries }
    requires room { course.old.delivered < MAX_DELIVERIES }
    requires can { CanTurn client.old course.old turn }
    ensures stands { OnOk result (Stands server.new client.new course.new) }
    ensures open { OnOk result (IsOpen client.new course.new.under) }
    ensures turn { OnOk result ((k : Setup) (commands : List Command) (w : World) → ServerShows k server.old w.server w.fed_server
        → ClientShows k client.old w.client w.fed_client → CourseShows commands course.old w → IsTuned k tuning → TakesTurn k w wires.old turn.entry
        → ShowsTurn k commands w server.new client.new wires.new course.new) }
    ensures journal { result ≡ Err Stopped.Journal → (k : Setup) (commands : List Command) (w : World) → ServerShows k server.old w.server w.fed_server
        → ClientShows k client.old w.client w.fed_client → CourseShows commands course.old w → IsTuned k tuning → TakesTurn k w wires.old turn.entry
        → StopsIn k w (next_kind w) }
{
    act(turn, tuning, server, client, wires, course)?;
    finish(server, client, wires, course)?;
    Ok(())
}

// Makes a turn up to its end.
fn act(
    turn: NextTurn<'_>,
    tuning: Tuning,
    server: &mut ServerEnd,
    client: &mut ClientEnd,
    wires: &mut Wires,
    course: &mut Course,
) -> Result<(), Stopped>
    requires stands { Stands server.old client.old course.old }
    requires timed { course.old.times ≤ length server.old.end.serving.table.entries }
    requires room { course.old.delivered < MAX_DELIVERIES }
    requires can { CanTurn client.old course.old turn }
    ensures stands { OnOk result (Stands server.new client.new course.new) }
    ensures turn { OnOk result ((k : Setup) (commands : List Command) (w : World) → ServerShows k server.old w.server w.fed_server
        → ClientShows k client.old w.client w.fed_client → CourseShows commands course.old w → IsTuned k tuning → TakesTurn k w wires.old turn.entry
        → WorldTurns k commands w (next_kind w) server.new client.new wires.new course.new) }
    ensures journal { result ≡ Err Stopped.Journal → (k : Setup) (commands : List Command) (w : World) → ServerShows k server.old w.server w.fed_server
        → ClientShows k client.old w.client w.fed_client → CourseShows commands course.old w → IsTuned k tuning → TakesTurn k w wires.old turn.entry
        → StopsIn k w (next_kind w) }
    ensures room { OnOk result (IsTimed turn.entry server.old) }
{
    match turn {
        NextTurn::ToServer(frame) => deliver_to_server(frame.as_slice(), server, wires, course),
        NextTurn::ToClient(frame) => deliver_to_client(frame.as_slice(), client, wires, course),
        NextTurn::Start(command) => start(command, tuning, server, client, wires, course),
        NextTurn::Cancel(call) => cancel(call, client, wires, course),
        NextTurn::Time => pass_time(server, client, wires, course),
    }
}
