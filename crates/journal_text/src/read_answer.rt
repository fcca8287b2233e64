//! An answer, read: its end, and then its items.

ghost use Rattle.std.specs.Prelude.{IfOk};
ghost use Rattle.journal_text.specs.Fields.{behind};
ghost use Rattle.journal_text.specs.Finds.{Finds};
ghost use Rattle.journal_text.specs.Reading.{AreItems, IsAnswer, IsEnd};

use crate::read_field::{first_field, number_before, read_bytes};
use crate::read_item::read_item;
use rpc_handlers::{Answer, End, Outs};
use rpc_ids::Status;
use std::alloc::{AllocError, Global};

/// The answer that a text says.
pub(crate) fn read_answer(alloc: Global, text: &[u8]) -> Result<Option<Answer>, AllocError>
    ensures { IfOk result (λ found. Finds found (IsAnswer text.now)) }
{
    let (end, items) = first_field(text);
    let Some(end) = read_end(alloc, end)? else {
        return Ok(None);
    };
    let Some(items) = read_items(alloc, items)? else {
        return Ok(None);
    };
    Ok(Some(Answer { items, end }))
}

// The end that a text says, where a dash says that there is none.
fn read_end(alloc: Global, text: &[u8]) -> Result<Option<Option<End>>, AllocError>
    ensures { IfOk result (λ found. Finds found (IsEnd text.now)) }
{
    if text == b"-".as_slice() {
        return Ok(Some(None));
    }
    let Some((number, payload)) = number_before(text, b':') else {
        return Ok(None);
    };
    let Some(payload) = read_bytes(alloc, payload)? else {
        return Ok(None);
    };
    let status = Status::of(number);
    Ok(Some(Some(End { status, payload })))
}

// The items that a text says, of which each stands behind a blank. The first blank was taken off.
fn read_items(alloc: Global, text: Option<&[u8]>) -> Result<Option<Outs>, AllocError>
    ensures { IfOk result (λ found. Finds found (AreItems (behind text.entry))) }
{
    let mut items = Outs::new(alloc);
    let mut rest = text;
    while let Some(text) = rest {
        let (field, more) = first_field(text);
        let Some(item) = read_item(alloc, field)? else {
            return Ok(None);
        };
        items.push(item)?;
        rest = more;
    }
    Ok(Some(items))
}
