//! How a command starts.
ghost use Rattle.std.specs.Prelude.{◌≡◌, ℕ, ◌+◌, ◌*◌, ◌<◌, ◌≤◌, ◌^◌, List, Err, OnOk};
ghost use Rattle.link_script.specs.declared.command.Command.{Command};
ghost use Rattle.link_script.specs.declared.command.Command.TheVariants.{Close};
ghost use Rattle.link_script.specs.Script.{IsCommand};
ghost use Rattle.rpc_journal.specs.declared.entry.TheConstants.{MAX_ENTRIES};
ghost use Rattle.link_world.specs.client.Asking.{IsAsked};
ghost use Rattle.link_world.specs.client.ClientSide.{Attends, ClientRests, ClientState};
ghost use Rattle.link_world.specs.server.ServerSide.{ServerRests};
ghost use Rattle.link_laws.specs.declared.world.limits.TheConstants.{TURN_OF_TIME};
ghost use Rattle.link_laws.specs.transfers_fit.Fits.{AreSmall};
ghost use Rattle.link_laws.specs.world.Limits.{StopsIn};
ghost use Rattle.link_laws.specs.world.Turns.{next_kind, starting};
ghost use Rattle.link_laws.specs.world.World.{Setup, World, wiring_of};
ghost use Rattle.link_world.specs.Making.{ClientTurns, ServerTurns, WorldTurns, with_coming};
ghost use Rattle.link_world.specs.Showing.{ClientShows, CourseShows, IsTuned, ServerShows, Stands};

use crate::client::{ClientEnd, Under};
use crate::course::Course;
use crate::server::{ServerEnd, Stopped, Wires};
use crate::turns::moment;
use link_script::Command;
use transfer_base::Tuning;

/// The client is asked a command.
pub(crate) fn ask(
    command: &Command,
    tuning: Tuning,
    client: &mut ClientEnd,
    wires: &mut Wires,
    course: &mut Course,
) -> Result<(), Stopped>
    requires rest { ClientRests client.old }
    requires asked { IsAsked command.now }
    requires sessions { course.old.sessions + 1 < 2 ^ 32 }
    requires small { AreSmall client.old.stored.full }
    requires times { course.old.times ≤ MAX_ENTRIES }
    ensures rest { OnOk result (ClientRests client.new) }
    ensures attends { OnOk result (Attends client.new course.new.under (TURN_OF_TIME * course.new.times)) }
    ensures same { course.new ≡ record course.old { under = course.new.under; sessions = course.new.sessions } }
    ensures turn { OnOk result ((k : Setup) (commands : List Command) (w : World) (rest : List Command) → ClientShows k client.old w.client w.fed_client
        → wires.old ≡ wiring_of k w → IsTuned k tuning → CourseShows commands course.old (with_coming rest w)
        → ClientTurns k commands w (starting command.now rest) client.new wires.new course.new) }
    ensures journal { result ≡ Err Stopped.Journal → (k : Setup) (commands : List Command) (w : World) (rest : List Command)
        → ClientShows k client.old w.client w.fed_client → IsTuned k tuning → CourseShows commands course.old (with_coming rest w)
        → StopsIn k w (starting command.now rest) }
{
    let now = moment(course.times);
    let under = client.start(command, &mut course.sessions, tuning, now, wires)?;
    course.under = Some(under);
    Ok(())
}

/// The server closes a channel.
pub(crate) fn close(
    channel: u32,
    server: &mut ServerEnd,
    wires: &mut Wires,
    course: &mut Course,
) -> Result<(), Stopped>
    requires { ServerRests server.old }
    ensures rest { OnOk result (ServerRests server.new) }
    ensures same { course.new ≡ record course.old { under = course.new.under } }
    ensures turn { OnOk result ((k : Setup) (commands : List Command) (w : World) (rest : List Command) → ServerShows k server.old w.server w.fed_server
        → wires.old ≡ wiring_of k w → CourseShows commands course.old (with_coming rest w)
        → ServerTurns k commands w (starting (Close channel) rest) server.new wires.new course.new) }
    ensures attends { OnOk result ((c : ClientState) (now : ℕ) → Attends c course.new.under now) }
    ensures journal { result ≡ Err Stopped.Journal → (k : Setup) (w : World) (rest : List Command) → ServerShows k server.old w.server w.fed_server
        → StopsIn k w (starting (Close channel) rest) }
{
    let ended = server.close_channel(channel, wires)?;
    course.under = Some(Under::Closing(channel, ended));
    Ok(())
}

/// A command starts.
pub(crate) fn start(
    command: &Command,
    tuning: Tuning,
    server: &mut ServerEnd,
    client: &mut ClientEnd,
    wires: &mut Wires,
    course: &mut Course,
) -> Result<(), Stopped>
    requires stands { Stands server.old client.old course.old }
    requires command { IsCommand command.now }
    requires started { course.old.started + 1 < 2 ^ 64 }
    requires sessions { course.old.sessions + 1 < 2 ^ 32 }
    requires small { AreSmall client.old.stored.full }
    ensures stands { OnOk result (Stands server.new client.new course.new) }
    ensures turn { OnOk result ((k : Setup) (commands : List Command) (w : World) (rest : List Command) → ServerShows k server.old w.server w.fed_server
        → ClientShows k client.old w.client w.fed_client → CourseShows commands course.old w → IsTuned k tuning → wires.old ≡ wiring_of k w
        → next_kind w ≡ starting command.now rest → WorldTurns k commands w (starting command.now rest) server.new client.new wires.new course.new) }
    ensures journal { result ≡ Err Stopped.Journal → (k : Setup) (commands : List Command) (w : World) (rest : List Command)
        → ServerShows k server.old w.server w.fed_server → ClientShows k client.old w.client w.fed_client → CourseShows commands course.old w → IsTuned k tuning
        → next_kind w ≡ starting command.now rest → StopsIn k w (starting command.now rest) }
{
    course.started += 1;
    match command {
        Command::Close(channel) => close(*channel, server, wires, course),
        Command::Read(_, _)
        | Command::Write(_, _)
        | Command::Echo(_)
        | Command::Count(_)
        | Command::Sum(_)
        | Command::Chat(_) => ask(command, tuning, client, wires, course),
    }
}
