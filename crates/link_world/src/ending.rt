//! How a turn ends.
ghost use Rattle.std.specs.Prelude.{◌≡◌, ℕ, List, OnOk};
ghost use Rattle.link_script.specs.declared.command.Command.{Command};
ghost use Rattle.link_world.specs.client.ClientSide.{Attends, ClientRests};
ghost use Rattle.link_laws.specs.world.Lines.{command_ended, finished, is_still, with_released};
ghost use Rattle.link_laws.specs.world.World.{Setup, World, wiring_of};
ghost use Rattle.link_world.specs.Showing.{IsOpen, Shows};

use crate::client::ClientEnd;
use crate::course::Course;
use crate::line::line_of;
use crate::server::{ServerEnd, Wires};
use std::alloc::AllocError;

/// A turn ends: what is kept back goes on the link where that is empty, and the command under way ends where it has come to
/// its end.
pub(crate) fn finish(
    server: &ServerEnd,
    client: &ClientEnd,
    wires: &mut Wires,
    course: &mut Course,
) -> Result<(), AllocError>
    requires { ClientRests client.now }
    ensures shows { OnOk result ((k : Setup) (commands : List Command) (w : World) → Shows k commands server.now client.now wires.old course.old w
        → Shows k commands server.now client.now wires.new course.new (finished k w)) }
    ensures open { OnOk result (IsOpen client.now course.new.under) }
    ensures attends { OnOk result ((now : ℕ) → Attends client.now course.old.under now → Attends client.now course.new.under now) }
    ensures same { course.new ≡ record course.old { under = course.new.under; lines = course.new.lines } }
{
    release(wires)?;
    end_command(server, client, wires, course)
}

// Where the link is empty, what is kept back goes on it.
fn release(wires: &mut Wires) -> Result<(), AllocError>
    ensures { OnOk result ((k : Setup) (w : World) → wires.old ≡ wiring_of k w → wires.new ≡ wiring_of k (with_released w)) }
{
    if is_still(wires) {
        wires.release()?;
    }
    Ok(())
}

// Whether no frame is on the link.
fn is_still(wires: &Wires) -> bool
    ensures { (k : Setup) (w : World) → wires.now ≡ wiring_of k w → result ≡ is_still w }
{
    wires.to_server().is_empty() && wires.to_client().is_empty()
}

// The command under way ends where it has come to its end.
fn end_command(
    server: &ServerEnd,
    client: &ClientEnd,
    wires: &Wires,
    course: &mut Course,
) -> Result<(), AllocError>
    requires { ClientRests client.now }
    ensures shows { OnOk result ((k : Setup) (commands : List Command) (w : World) → Shows k commands server.now client.now wires.now course.old w
        → Shows k commands server.now client.now wires.now course.new (command_ended k w w.under)) }
    ensures open { OnOk result (IsOpen client.now course.new.under) }
    ensures attends { OnOk result ((now : ℕ) → Attends client.now course.old.under now → Attends client.now course.new.under now) }
    ensures same { course.new ≡ record course.old { under = course.new.under; lines = course.new.lines } }
{
    let Some(under) = &course.under else {
        return Ok(());
    };
    if let Some(line) = line_of(under, server, client, is_still(wires))? {
        course.under = None;
        course.lines.push(line)?;
    }
    Ok(())
}
