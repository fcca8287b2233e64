//! The command `detoken`: log messages are printed by their formats.
ghost use Rattle.std.specs.Prelude.{IfOk};
ghost use Rattle.pw_run.specs.Detoken.{TellsMessages};
ghost use Rattle.pw_run.specs.Texts.{TellsText};

use crate::told::{Found, Told, bad_line};
use std::alloc::{AllocError, Global};
use token_text::lines::{LinesRefused, print_lines};

/// What is printed of the messages in a text by the formats in front of them, each in a line.
pub(crate) fn detoken(alloc: Global, text: &[u8]) -> Result<Told, AllocError>
    ensures { IfOk result (λ told. TellsText (TellsMessages text.now told.text.items) told.found) }
{
    let mut printed = Vec::new(alloc);
    match print_lines(alloc, text, &mut printed) {
        Ok(()) => Ok(Told {
            text: printed,
            found: Found::Good,
        }),
        Err(LinesRefused::Line(number)) => {
            let line = bad_line(alloc, "token", number)?;
            Ok(Told {
                text: line.into_bytes(),
                found: Found::BadLine,
            })
        }
        Err(LinesRefused::Memory) => Err(AllocError),
    }
}
