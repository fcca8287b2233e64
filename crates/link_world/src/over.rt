//! The end of a run.
ghost use Rattle.std.specs.Prelude.{◌≡◌, List, Err, IfOk};
ghost use Rattle.demo_services.specs.DemoRule.{demo_rule};
ghost use Rattle.link_script.specs.declared.command.Command.{Command};
ghost use Rattle.rpc_journal.specs.Lawful.{IsLegal};
ghost use Rattle.link_laws.specs.world.Limits.{EndStops};
ghost use Rattle.link_laws.specs.world.Setup.{quiet_rule};
ghost use Rattle.link_laws.specs.world.World.{Setup, World};
ghost use Rattle.link_world.specs.Over.{LeadsToEnd, Tells};
ghost use Rattle.link_world.specs.Outcomes.{BothStayWithin};
ghost use Rattle.link_world.specs.Showing.{Shows, Stands};

use crate::client::ClientEnd;
use crate::course::Course;
use crate::outcome::{Outcome, WorldRefused};
use crate::server::{ServerEnd, Wires, lengths};
use crate::turns::moment;
use link_script::Report;
use link_script::text::print_report;
use std::alloc::{AllocError, Global};

/// Nothing is left to do: both ends are told that the link is given up, and all is told of the run.
pub(crate) fn end(
    alloc: Global,
    mut server: ServerEnd,
    mut client: ClientEnd,
    mut wires: Wires,
    course: Course,
) -> Result<Outcome, WorldRefused>
    requires { Stands server client course }
    ensures ends { IfOk result (λ outcome. (k : Setup) (commands : List Command) (w : World) → Shows k commands server client wires course w → LeadsToEnd k w outcome) }
    ensures frames { result ≡ Err WorldRefused.Frames → ⊥ }
    ensures journal { result ≡ Err WorldRefused.Journal → (k : Setup) (commands : List Command) (w : World) → Shows k commands server client wires course w → EndStops k w }
    ensures server { IfOk result (λ outcome. IsLegal demo_rule server.end.serving.table.setting outcome.server.entries) }
    ensures client { IfOk result (λ outcome. IsLegal quiet_rule client.end.serving.table.setting outcome.client.entries) }
    ensures room { IfOk result BothStayWithin }
{
    let now = moment(course.times);
    server.end_in(&mut wires)?;
    client.end_in(now, &mut wires)?;
    Ok(tell(alloc, server, client, wires, course)?)
}

// What is told of a run.
fn tell(
    alloc: Global,
    server: ServerEnd,
    client: ClientEnd,
    wires: Wires,
    course: Course,
) -> Result<Outcome, AllocError>
    ensures tells { IfOk result (Tells server client wires course) }
    ensures server { IfOk result (λ outcome. IsLegal demo_rule server.end.serving.table.setting outcome.server.entries) }
    ensures client { IfOk result (λ outcome. IsLegal quiet_rule client.end.serving.table.setting outcome.client.entries) }
{
    let Course {
        started: _,
        under: _,
        sessions: _,
        delivered,
        times: _,
        lines,
    } = course;
    let (server, mut server_store) = server.into_parts();
    let (client, mut client_store) = client.into_parts();
    let report = Report {
        lines,
        frames: wires.frames(),
        delivered,
        chunks: wires.chunks(),
        server: lengths(alloc, &mut server_store)?,
        client: lengths(alloc, &mut client_store)?,
    };
    let mut text = String::new(alloc);
    print_report(alloc, &report, &mut text)?;
    Ok(Outcome {
        report,
        text,
        server,
        client,
        server_store: server_store.into_inner(),
        client_store: client_store.into_inner(),
    })
}
