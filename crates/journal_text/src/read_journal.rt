//! A journal, read line by line.

ghost use Rattle.std.specs.Prelude.{◌≡◌, ◌∷◌, ◌↔◌, List, codes, IfOk, IfErr, IfSome, IsNone, IsOkAnd};
ghost use Rattle.rpc_journal.specs.declared.entry.Entry.{Entry};
ghost use Rattle.text_fields.specs.Lines.{lines_of};
ghost use Rattle.journal_text.specs.Reading.{HasNoHead, IsFirstBadLine, IsJournalText};

use crate::BadLine;
use crate::read_line::read_line;
use rpc_journal::Journal;
use std::alloc::{AllocError, Global};
use text_fields::first_line;

/// The journal that a text says, or the first line that makes it none. A last line without a newline is a line. The
/// journal need not be one that a server can have.
pub fn read(alloc: Global, text: &[u8]) -> Result<Result<Journal, BadLine>, AllocError>
    ensures journal { IfOk result (λ found. IfOk found (λ journal. IsJournalText text.now journal.entries)) }
    ensures only { IfOk result (λ found. (entries : List Entry) →
        IsJournalText text.now entries → IsOkAnd found (λ journal. journal.entries ≡ entries)) }
    ensures bad { IfOk result (λ found. IfErr found (λ bad. IsFirstBadLine text.now bad.line)) }
{
    let Some(lines) = behind_head(text) else {
        return Ok(Err(BadLine { line: 1 }));
    };
    let mut journal = Journal::new(alloc);
    let mut rest = lines;
    while let Some((line, more)) = first_line(rest) {
        let Some(entry) = read_line(alloc, line)? else {
            return Ok(Err(BadLine {
                line: journal.len() + 2,
            }));
        };
        journal.reserve(1)?;
        journal.push(entry);
        rest = more;
    }
    Ok(Ok(journal))
}

// What stands behind the first line, where that is `journal`.
fn behind_head(text: &[u8]) -> Option<&[u8]>
    ensures some { IfSome result (λ rest. lines_of text.now ≡ codes "journal" ∷ lines_of rest.now) }
    ensures none { IsNone result ↔ HasNoHead text.now }
{
    let (head, rest) = first_line(text)?;
    if head == b"journal".as_slice() {
        Some(rest)
    } else {
        None
    }
}
