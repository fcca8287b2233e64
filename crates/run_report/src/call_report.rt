//! The report of a call of any method.

ghost use Rattle.std.specs.Prelude.{◌≡◌, ◌++◌, flat_map, IfOk, OnOk, string_bytes};
ghost use Rattle.run_report.specs.CallReport.{call_report, called_line, end_line, message_line, payload_word};

use crate::lines::add_why_line;
use bytes::Bytes;
use link_io::Why;
use rpc_ids::Status;
use std::alloc::{AllocError, Global};

/// The report of a call: a line for each message, in lower-case hexadecimal digits or as a dash, one that tells how the call ended,
/// where it did, and one that tells why the client ended, but for want of memory.
pub fn call_text(
    alloc: Global,
    messages: &[Bytes],
    ended: Option<Status>,
    why: Why,
) -> Result<String, AllocError>
    ensures { IfOk result (λ text. string_bytes text ≡ call_report messages.now ended why) }
{
    let mut text = String::new(alloc);
    add_messages(alloc, messages, &mut text)?;
    add_end_line(ended, messages.len(), &mut text)?;
    add_why_line(why, &mut text)?;
    Ok(text)
}

fn add_messages(alloc: Global, messages: &[Bytes], text: &mut String) -> Result<(), AllocError>
    ensures { OnOk result (string_bytes text.new ≡ string_bytes text.old ++ flat_map message_line messages.now) }
{
    for message in messages {
        add_message_line(alloc, message, text)?;
    }
    Ok(())
}

#[tactic(auto, unfolding(crate::specs::CallReport::message_line))]
fn add_message_line(alloc: Global, message: &[u8], text: &mut String) -> Result<(), AllocError>
    ensures { OnOk result (string_bytes text.new ≡ string_bytes text.old ++ message_line message.now) }
{
    let word = payload_word(alloc, message)?;
    writeln!(text, "message {word}")
}

// A payload as a word: its digits, or a dash where it is empty.
fn payload_word(alloc: Global, payload: &[u8]) -> Result<String, AllocError>
    ensures { IfOk result (λ word. string_bytes word ≡ payload_word payload.now) }
{
    if payload.is_empty() {
        return String::from_str(alloc, "-");
    }
    hex::encode(alloc, payload)
}

fn add_end_line(ended: Option<Status>, count: usize, text: &mut String) -> Result<(), AllocError>
    ensures { OnOk result (string_bytes text.new ≡ string_bytes text.old ++ end_line ended count) }
{
    match ended {
        None => Ok(()),
        Some(status) => add_called_line(status, count, text),
    }
}

#[tactic(auto, unfolding(crate::specs::CallReport::called_line))]
fn add_called_line(status: Status, count: usize, text: &mut String) -> Result<(), AllocError>
    ensures { OnOk result (string_bytes text.new ≡ string_bytes text.old ++ called_line status count) }
{
    let status = status.name();
    writeln!(text, "call {status} {count}")
}
