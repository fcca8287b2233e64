//! The command `route`: frames are routed between two sides.
ghost use Rattle.std.specs.Prelude.{IfOk};
ghost use Rattle.pw_run.specs.Route.{TellsRoutes};
ghost use Rattle.pw_run.specs.Texts.{TellsText};

use crate::told::{Found, Told, bad_line};
use frame_router::text::{LinesRefused, route_text};
use std::alloc::{AllocError, Global};

/// What is printed of a router by the routes and steps in a text.
pub(crate) fn route(alloc: Global, text: &[u8]) -> Result<Told, AllocError>
    ensures { IfOk result (λ told. TellsText (TellsRoutes text.now told.text.items) told.found) }
{
    match route_text(alloc, text) {
        Ok(printed) => Ok(Told {
            text: printed.into_bytes(),
            found: Found::Good,
        }),
        Err(LinesRefused::Line(number)) => {
            let line = bad_line(alloc, "route", number)?;
            Ok(Told {
                text: line.into_bytes(),
                found: Found::BadLine,
            })
        }
        Err(LinesRefused::Memory) => Err(AllocError),
    }
}
