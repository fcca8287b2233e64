//! The texts of an answer: its end, and its items.

ghost use Rattle.std.specs.Prelude.{◌≡◌, ◌++◌, OnOk, string_bytes};
ghost use Rattle.journal_text.specs.Line.{end_text, item_text, items_text};
ghost use Rattle.journal_text.specs.Reading.{IsAnswer, IsEnd, IsOut};

use crate::print_digits::digits_of;
use rpc_handlers::{Answer, End, Out};
use std::alloc::{AllocError, Global};

/// Appends the end and the items of an answer.
pub(crate) fn add_answer(
    alloc: Global,
    answer: &Answer,
    text: &mut String,
) -> Result<(), AllocError>
    ensures ok { OnOk result (string_bytes text.new ≡ string_bytes text.old ++
        (end_text answer.now.end ++ items_text answer.now.items)) }
    ensures again { OnOk result (IsAnswer (end_text answer.now.end ++ items_text answer.now.items) answer.now) }
{
    add_end(alloc, &answer.end, text)?;
    for item in answer.items.as_slice() {
        text.push_str(" ")?;
        add_item(alloc, item, text)?;
    }
    Ok(())
}

fn add_end(alloc: Global, end: &Option<End>, text: &mut String) -> Result<(), AllocError>
    ensures ok { OnOk result (string_bytes text.new ≡ string_bytes text.old ++ end_text end.now) }
    ensures again { OnOk result (IsEnd (end_text end.now) end.now) }
{
    match end {
        None => text.push_str("-"),
        Some(end) => {
            let number = end.status.number();
            let payload = digits_of(alloc, end.payload.as_slice())?;
            write!(text, "{number}:{payload}")
        }
    }
}

fn add_item(alloc: Global, item: &Out, text: &mut String) -> Result<(), AllocError>
    ensures ok { OnOk result (string_bytes text.new ≡ string_bytes text.old ++ item_text item.now) }
    ensures again { OnOk result (IsOut item.now) }
{
    match item {
        Out::Say(payload) => {
            let payload = digits_of(alloc, payload.as_slice())?;
            write!(text, "say:{payload}")
        }
        &Out::Begin {
            session,
            resource,
            offset,
        } => write!(text, "begin:{session}:{resource}:{offset}"),
        Out::Append { session, bytes } => {
            let session = *session;
            let bytes = digits_of(alloc, bytes.as_slice())?;
            write!(text, "append:{session}:{bytes}")
        }
        &Out::Commit { session } => write!(text, "commit:{session}"),
        &Out::Leave { session } => write!(text, "leave:{session}"),
    }
}
