//! The items of an answer, read.

ghost use Rattle.std.specs.Prelude.{◌++◌, codes, IfOk};
ghost use Rattle.journal_text.specs.Finds.{Finds};
ghost use Rattle.journal_text.specs.Reading.{IsItem};

use crate::read_field::{number_before, read_bytes};
use rpc_handlers::Out;
use std::alloc::{AllocError, Global};
use text_fields::{number, small_number, strip_word};

/// The item that a text says.
pub(crate) fn read_item(alloc: Global, text: &[u8]) -> Result<Option<Out>, AllocError>
    ensures { IfOk result (λ found. Finds found (IsItem text.now)) }
{
    if let Some(payload) = strip_word(text, b"say:") {
        return read_message(alloc, payload);
    }
    if let Some(work) = strip_word(text, b"begin:") {
        return Ok(read_begin(work));
    }
    if let Some(piece) = strip_word(text, b"append:") {
        return read_append(alloc, piece);
    }
    if let Some(session) = strip_word(text, b"commit:") {
        return Ok(read_commit(session));
    }
    if let Some(session) = strip_word(text, b"leave:") {
        return Ok(read_leave(session));
    }
    Ok(None)
}

fn read_message(alloc: Global, text: &[u8]) -> Result<Option<Out>, AllocError>
    ensures { IfOk result (λ found. Finds found (IsItem (codes "say:" ++ text.now))) }
{
    let Some(payload) = read_bytes(alloc, text)? else {
        return Ok(None);
    };
    Ok(Some(Out::Say(payload)))
}

fn read_begin(text: &[u8]) -> Option<Out>
    ensures { Finds result (IsItem (codes "begin:" ++ text.now)) }
{
    let (session, rest) = number_before(text, b':')?;
    let (resource, offset) = number_before(rest, b':')?;
    let offset = number(offset)?;
    Some(Out::Begin {
        session,
        resource,
        offset,
    })
}

fn read_append(alloc: Global, text: &[u8]) -> Result<Option<Out>, AllocError>
    ensures { IfOk result (λ found. Finds found (IsItem (codes "append:" ++ text.now))) }
{
    let Some((session, bytes)) = number_before(text, b':') else {
        return Ok(None);
    };
    let Some(bytes) = read_bytes(alloc, bytes)? else {
        return Ok(None);
    };
    Ok(Some(Out::Append { session, bytes }))
}

fn read_commit(text: &[u8]) -> Option<Out>
    ensures { Finds result (IsItem (codes "commit:" ++ text.now)) }
{
    let session = small_number(text)?;
    Some(Out::Commit { session })
}

fn read_leave(text: &[u8]) -> Option<Out>
    ensures { Finds result (IsItem (codes "leave:" ++ text.now)) }
{
    let session = small_number(text)?;
    Some(Out::Leave { session })
}
