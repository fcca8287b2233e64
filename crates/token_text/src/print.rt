//! How a message's text is printed.
ghost use Rattle.std.specs.Prelude.{◌≡◌, ◌+◌, ◌-◌, ◌≤◌, ℕ, List, ◌++◌, length, IfOk, IfSome, IfNone, OnOk, MatchResult, Err};
ghost use Rattle.token_text.specs.Arguments.{Argument};
ghost use Rattle.token_text.specs.Printing.{shown_text, text_of};
ghost use Rattle.token_text.specs.Spelling.{Spells};
ghost use Rattle.token_text.specs.Steps.{CannotRead, ReadsOne, IsNoMessageAt};

use crate::book::TextRefused;
use crate::number::push_number;
use crate::part::Part;
use crate::read_argument::{ShortText, read_number, read_text};
use std::alloc::AllocError;

/// What stands behind a text that was cut.
const CUT_MARK: &[u8] = b"[...]";

/// Appends what the parts of a format print with the arguments that stand behind the token of a message. After an `Err`
/// a part of it may stand there.
pub(crate) fn print_parts(
    parts: &[Part],
    bytes: &[u8],
    out: &mut Vec<u8>,
) -> Result<(), TextRefused>
    requires { length parts.now ≤ 256 }
    ensures ok { OnOk result ((args : List Argument) × Spells parts.now bytes.now args ×
        (out.new.items ≡ out.old.items ++ text_of parts.now args)) }
    ensures only { (args : List Argument) → Spells parts.now bytes.now args →
        MatchResult result (λ _. out.new.items ≡ out.old.items ++ text_of parts.now args) (λ e. e ≡ TextRefused.Memory) }
    ensures wrong { (at : ℕ) → result ≡ Err (TextRefused.Wrong at) → IsNoMessageAt parts.now bytes.now at }
    ensures cause { (result ≡ Err TextRefused.Short → ⊥) × ((token : ℕ) → result ≡ Err (TextRefused.Unknown token) → ⊥) }
    ensures begun { (part : List ℕ) × (out.new.items ≡ out.old.items ++ part) }
{
    let mut rest = bytes;
    for part in parts {
        let Some(behind) = print_part(*part, rest, out)? else {
            return Err(TextRefused::Wrong(offset(bytes, rest)));
        };
        rest = behind;
    }
    if !rest.is_empty() {
        return Err(TextRefused::Wrong(offset(bytes, rest)));
    }
    Ok(())
}

// The offset in a message of these last bytes behind its token.
fn offset(bytes: &[u8], rest: &[u8]) -> u32
    requires { length bytes.now ≤ length rest.now + 32768 }
    ensures { result ≡ 4 + (length bytes.now - length rest.now) }
{
    4 + (bytes.len().saturating_sub(rest.len())) as u32
}

// Appends what a part prints, and gives what stands behind its argument, if that can be read. After an `Err` a part of it
// may stand there.
fn print_part<'a>(
    part: Part,
    bytes: &'a [u8],
    out: &mut Vec<u8>,
) -> Result<Option<&'a [u8]>, AllocError>
    ensures some { IfOk result (λ read. IfSome read (λ rest. (printed : List ℕ) ×
        (out.new.items ≡ out.old.items ++ printed) × ReadsOne part bytes.now rest.now printed)) }
    ensures none { IfOk result (λ read. IfNone read (CannotRead part bytes.now)) }
    ensures begun { (part : List ℕ) × (out.new.items ≡ out.old.items ++ part) }
{
    match part {
        Part::Byte(byte) => {
            out.push(byte)?;
            Ok(Some(bytes))
        }
        Part::Number { padding, notation } => {
            let Some((number, rest)) = read_number(bytes) else {
                return Ok(None);
            };
            push_number(out, padding, notation, number)?;
            Ok(Some(rest))
        }
        Part::Text => {
            let Some((text, rest)) = read_text(bytes) else {
                return Ok(None);
            };
            push_text(out, text)?;
            Ok(Some(rest))
        }
    }
}

// Appends a text, with the mark behind it if it was cut. After an `Err` a part of it may stand there.
fn push_text(out: &mut Vec<u8>, text: ShortText<'_>) -> Result<(), AllocError>
    ensures ok { OnOk result (out.new.items ≡ out.old.items ++ shown_text text.entry.bytes.now text.entry.cut) }
    ensures begun { (part : List ℕ) × (out.new.items ≡ out.old.items ++ part) }
{
    out.extend_from_slice(text.bytes)?;
    if text.cut {
        out.extend_from_slice(CUT_MARK)?;
    }
    Ok(())
}
