//! What each turn does, up to its end.
ghost use Rattle.std.specs.Prelude.{◌≡◌, ℕ, false, ◌+◌, ◌*◌, ◌<◌, ◌≤◌, List, None, Err, OnOk};
ghost use Rattle.link_script.specs.declared.command.Command.{Command};
ghost use Rattle.rpc_journal.specs.declared.entry.TheConstants.{MAX_ENTRIES};
ghost use Rattle.rpc_journal.specs.Calls.{call_count, end_of};
ghost use Rattle.rpc_journal.specs.Refusals.{is_full};
ghost use Rattle.rpc_schedule.specs.Serving.{deeds};
ghost use Rattle.link_world.specs.client.ClientSide.{Attends, ClientRests};
ghost use Rattle.link_world.specs.server.ServerSide.{ServerRests};
ghost use Rattle.link_laws.specs.declared.world.limits.TheConstants.{MAX_DELIVERIES, TURN_OF_TIME};
ghost use Rattle.link_laws.specs.world.Turns.{cancelling, timing, to_client, to_server};
ghost use Rattle.link_laws.specs.world.Limits.{StopsIn};
ghost use Rattle.link_laws.specs.world.World.{Setup, World, wiring_of};
ghost use Rattle.link_world.specs.Making.{ClientTurns, ServerTurns, WorldTurns, with_rest_down, with_rest_up};
ghost use Rattle.link_world.specs.Showing.{ClientShows, CourseShows, ServerShows};

use crate::client::ClientEnd;
use crate::course::Course;
use crate::server::{ServerEnd, Stopped, Wires};
use link_laws::world::TURN_OF_TIME;

/// The moment after so many turns of time, in milliseconds.
pub(crate) fn moment(times: u64) -> u64
    requires { times ≤ MAX_ENTRIES + 1 }
    ensures { result ≡ TURN_OF_TIME * times }
{
    TURN_OF_TIME * times
}

/// A frame comes to the server.
pub(crate) fn deliver_to_server(
    frame: &[u8],
    server: &mut ServerEnd,
    wires: &mut Wires,
    course: &mut Course,
) -> Result<(), Stopped>
    requires rest { ServerRests server.old }
    requires room { course.old.delivered < MAX_DELIVERIES }
    ensures rest { OnOk result (ServerRests server.new) }
    ensures counted { course.new ≡ record course.old { delivered = course.old.delivered + 1 } }
    ensures turn { OnOk result ((k : Setup) (commands : List Command) (w : World) (rest : List (List ℕ)) → ServerShows k server.old w.server w.fed_server
        → wires.old ≡ wiring_of k (with_rest_up rest w) → CourseShows commands course.old w
        → ServerTurns k commands w (to_server frame.now rest) server.new wires.new course.new) }
    ensures journal { result ≡ Err Stopped.Journal → (k : Setup) (w : World) (rest : List (List ℕ)) → ServerShows k server.old w.server w.fed_server
        → StopsIn k w (to_server frame.now rest) }
{
    course.delivered += 1;
    server.deliver(frame, wires)
}

/// A frame comes to the client.
pub(crate) fn deliver_to_client(
    frame: &[u8],
    client: &mut ClientEnd,
    wires: &mut Wires,
    course: &mut Course,
) -> Result<(), Stopped>
    requires rest { ClientRests client.old }
    requires attends { Attends client.old course.old.under (TURN_OF_TIME * course.old.times) }
    requires times { course.old.times ≤ MAX_ENTRIES }
    requires room { course.old.delivered < MAX_DELIVERIES }
    ensures rest { OnOk result (ClientRests client.new) }
    ensures attends { OnOk result (Attends client.new course.new.under (TURN_OF_TIME * course.new.times)) }
    ensures counted { course.new ≡ record course.old { under = course.new.under; delivered = course.old.delivered + 1 } }
    ensures turn { OnOk result ((k : Setup) (commands : List Command) (w : World) (rest : List (List ℕ)) → ClientShows k client.old w.client w.fed_client
        → wires.old ≡ wiring_of k (with_rest_down rest w) → CourseShows commands course.old w
        → ClientTurns k commands w (to_client frame.now rest) client.new wires.new course.new) }
    ensures journal { result ≡ Err Stopped.Journal → (k : Setup) (commands : List Command) (w : World) (rest : List (List ℕ))
        → ClientShows k client.old w.client w.fed_client → CourseShows commands course.old w → StopsIn k w (to_client frame.now rest) }
{
    course.delivered += 1;
    let now = moment(course.times);
    client.deliver(frame, now, &mut course.under, wires)
}

/// The call of a command that is no transfer is cancelled.
pub(crate) fn cancel(
    call: u32,
    client: &mut ClientEnd,
    wires: &mut Wires,
    course: &Course,
) -> Result<(), Stopped>
    requires rest { ClientRests client.old }
    requires there { call < call_count (deeds client.old.end.serving) }
    requires open { end_of (deeds client.old.end.serving) call ≡ None }
    requires times { course.now.times ≤ MAX_ENTRIES }
    ensures rest { OnOk result (ClientRests client.new) }
    ensures calls { OnOk result (call_count (deeds client.new.end.serving) ≡ call_count (deeds client.old.end.serving)) }
    ensures turn { OnOk result ((k : Setup) (commands : List Command) (w : World) → ClientShows k client.old w.client w.fed_client
        → wires.old ≡ wiring_of k w → CourseShows commands course.now w
        → ClientTurns k commands w (cancelling call) client.new wires.new course.now) }
    ensures journal { result ≡ Err Stopped.Journal → (k : Setup) (commands : List Command) (w : World) → ClientShows k client.old w.client w.fed_client
        → CourseShows commands course.now w → StopsIn k w (cancelling call) }
{
    let now = moment(course.times);
    client.cancel(call, now, wires)
}

/// The time moves on, for the client first.
pub(crate) fn pass_time(
    server: &mut ServerEnd,
    client: &mut ClientEnd,
    wires: &mut Wires,
    course: &mut Course,
) -> Result<(), Stopped>
    requires server { ServerRests server.old }
    requires client { ClientRests client.old }
    requires attends { Attends client.old course.old.under (TURN_OF_TIME * course.old.times) }
    requires times { course.old.times ≤ MAX_ENTRIES }
    ensures server { OnOk result (ServerRests server.new) }
    ensures client { OnOk result (ClientRests client.new) }
    ensures attends { OnOk result (Attends client.new course.new.under (TURN_OF_TIME * course.new.times)) }
    ensures counted { course.new ≡ record course.old { under = course.new.under; times = course.old.times + 1 } }
    ensures turn { OnOk result ((k : Setup) (commands : List Command) (w : World) → ServerShows k server.old w.server w.fed_server
        → ClientShows k client.old w.client w.fed_client → wires.old ≡ wiring_of k w → CourseShows commands course.old w
        → WorldTurns k commands w timing server.new client.new wires.new course.new) }
    ensures journal { result ≡ Err Stopped.Journal → (k : Setup) (commands : List Command) (w : World) → ServerShows k server.old w.server w.fed_server
        → ClientShows k client.old w.client w.fed_client → CourseShows commands course.old w → StopsIn k w timing }
    ensures room { OnOk result (is_full server.old.end.serving.table.entries ≡ false) }
{
    course.times += 1;
    let now = moment(course.times);
    client.settle(now, &mut course.under, wires)?;
    server.tick(now, wires)
}
