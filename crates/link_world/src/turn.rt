//! Which turn comes next.
ghost use Rattle.std.specs.Prelude.{◌≡◌, ◌+◌, ◌<◌, ◌^◌, IfNone, IfSome, slice_get};
ghost use Rattle.std.specs.Option.{option_copied};
ghost use Rattle.link_laws.specs.world.Turns.{ending, next_kind};
ghost use Rattle.link_laws.specs.world.World.{Setup, World, wiring_of};
ghost use Rattle.link_world.specs.Making.{TakesTurn};
ghost use Rattle.link_world.specs.Showing.{CourseShows, IsNext};

use crate::client::Under;
use crate::course::Course;
use crate::server::Wires;
use bytes::Bytes;
use link_script::Command;

/// A turn that isn't the end.
#[derive(Drop)]
pub(crate) enum NextTurn<'a> {
    /// This frame is delivered to the server.
    ToServer(Bytes),
    /// This frame is delivered to the client.
    ToClient(Bytes),
    /// This command starts.
    Start(&'a Command),
    /// This call of the client is cancelled.
    Cancel(u32),
    /// The time moves on.
    Time,
}

/// The turn that comes next; `None` where it is the end. A frame that it delivers is taken off the link.
pub(crate) fn next_turn<'a>(
    commands: &'a [Command],
    course: &Course,
    wires: &mut Wires,
) -> Option<NextTurn<'a>>
    ensures turn { IfSome result (λ turn. (k : Setup) (w : World) → wires.old ≡ wiring_of k w → CourseShows commands.now course.now w
        → TakesTurn k w wires.new turn) }
    ensures next { IfSome result (IsNext commands.now course.now) }
    ensures end { IfNone result ((k : Setup) (w : World) → wires.old ≡ wiring_of k w → CourseShows commands.now course.now w
        → (next_kind w ≡ ending) × (wires.new ≡ wiring_of k w)) }
{
    if let Some(frame) = wires.take_for_server() {
        return Some(NextTurn::ToServer(frame));
    }
    if let Some(frame) = wires.take_for_client() {
        return Some(NextTurn::ToClient(frame));
    }
    match &course.under {
        Some(Under::Calling(_, call)) => Some(NextTurn::Cancel(*call)),
        Some(Under::Transferring(_) | Under::Lacking(_) | Under::Closing(_, _)) => Some(
            NextTurn::Time,
        ),
        None => Some(NextTurn::Start(command_at(commands, course.started)?)),
    }
}

fn command_at(commands: &[Command], place: usize) -> Option<&Command>
    ensures command { option_copied result ≡ slice_get commands.now place }
    ensures few { IfSome result (λ command. place + 1 < 2 ^ 64) }
{
    if place < commands.len() {
        Some(&commands[place])
    } else {
        None
    }
}
