//! What follows from the contracts of printing and reading, as functions whose contracts say it.

ghost use Rattle.std.specs.Prelude.{◌≡◌, IfOk, IsOkAnd};
ghost use Rattle.journal_text.specs.Printed.{AllHaveText};

use crate::{BadLine, print, read};
use rpc_journal::Journal;
use std::alloc::{AllocError, Global};

/// Prints a journal and reads the text. Where all entries have a text, the journal that is read is the one printed.
pub fn printed_is_read_back(
    alloc: Global,
    journal: &Journal,
) -> Result<Result<Journal, BadLine>, AllocError>
    ensures { IfOk result (λ found. AllHaveText journal.now.entries →
        IsOkAnd found (λ again. again.entries ≡ journal.now.entries)) }
{
    let mut text = String::new(alloc);
    print(alloc, journal, &mut text)?;
    read(alloc, text.as_bytes())
}
