//! The lines on what happens.
ghost use Rattle.std.specs.Prelude.{◌≡◌, ◌++◌, ◌≤◌, ℕ, codes, IfOk, IfSome, Some};
ghost use Rattle.std.specs.Fmt.{decimal};
ghost use Rattle.link_script.specs.Script.{IsTransfer};
ghost use Rattle.link_script.specs.text.Lines.{IsCommandLine, transfer_text};

use crate::Command;
use crate::text::fields::{number_field, read_message};
use std::alloc::{AllocError, Global};
use text_fields::{number, small_number, strip_word};
use transfer_base::MAX_RESOURCE;

/// What happens by this line.
pub(crate) fn read_command(alloc: Global, text: &[u8]) -> Result<Option<Command>, AllocError>
    ensures some { IfOk result (λ found. IfSome found (λ command. IsCommandLine text.now command)) }
    ensures only { IfOk result (λ found. (command : Command) → IsCommandLine text.now command → found ≡ Some command) }
{
    if let Some(numbers) = strip_word(text, b"read ") {
        return Ok(read_read(numbers));
    }
    if let Some(numbers) = strip_word(text, b"write ") {
        return Ok(read_write(numbers));
    }
    if let Some(digits) = strip_word(text, b"echo ") {
        return Ok(read_message(alloc, digits)?.map(|bytes| Command::Echo(bytes)));
    }
    if let Some(number) = strip_word(text, b"count ") {
        return Ok(read_count(number));
    }
    if let Some(digits) = strip_word(text, b"sum ") {
        return Ok(read_message(alloc, digits)?.map(|bytes| Command::Sum(bytes)));
    }
    if let Some(digits) = strip_word(text, b"chat ") {
        return Ok(read_message(alloc, digits)?.map(|bytes| Command::Chat(bytes)));
    }
    if let Some(channel) = strip_word(text, b"close ") {
        return Ok(read_close(channel));
    }
    Ok(None)
}

fn read_read(text: &[u8]) -> Option<Command>
    ensures some { IfSome result (λ command. IsCommandLine (codes "read " ++ text.now) command) }
    ensures only { (command : Command) → IsCommandLine (codes "read " ++ text.now) command → result ≡ Some command }
{
    let (resource, offset) = read_transfer(text)?;
    Some(Command::Read(resource, offset))
}

fn read_write(text: &[u8]) -> Option<Command>
    ensures some { IfSome result (λ command. IsCommandLine (codes "write " ++ text.now) command) }
    ensures only { (command : Command) → IsCommandLine (codes "write " ++ text.now) command → result ≡ Some command }
{
    let (resource, offset) = read_transfer(text)?;
    Some(Command::Write(resource, offset))
}

// The numbers of a read or of a write.
fn read_transfer(text: &[u8]) -> Option<(u32, u64)>
    ensures some { IfSome result (λ x. (text.now ≡ transfer_text x.0 x.1) × IsTransfer x.0 x.1) }
    ensures only { (resource offset : ℕ) → text.now ≡ transfer_text resource offset → IsTransfer resource offset → result ≡ Some (resource, offset) }
{
    let (resource, offset) = number_field(text)?;
    let offset = number(offset)?;
    if offset > MAX_RESOURCE {
        return None;
    }
    Some((resource, offset))
}

fn read_count(text: &[u8]) -> Option<Command>
    ensures some { IfSome result (λ command. IsCommandLine (codes "count " ++ text.now) command) }
    ensures only { (command : Command) → IsCommandLine (codes "count " ++ text.now) command → result ≡ Some command }
{
    let last = small_number(text)?;
    if last > 255 {
        return None;
    }
    Some(Command::Count(last))
}

fn read_close(text: &[u8]) -> Option<Command>
    ensures some { IfSome result (λ command. IsCommandLine (codes "close " ++ text.now) command) }
    ensures only { (command : Command) → IsCommandLine (codes "close " ++ text.now) command → result ≡ Some command }
{
    let channel = small_number(text)?;
    if channel < 1 || channel > 8 {
        return None;
    }
    Some(Command::Close(channel))
}
