//! What is printed of one message.
ghost use Rattle.std.specs.Prelude.{◌≡◌, ℕ, List, [], ◌∷◌, ◌++◌, OnOk};
ghost use Rattle.token_text.specs.lines.Lines.{IsAnswer};

use crate::{TextRefused, TokenBook};
use std::alloc::{AllocError, Global};

/// Appends what is printed of a message, and a newline. After an `Err` a part of that may stand there.
pub(crate) fn push_line(
    alloc: Global,
    book: &TokenBook,
    message: &[u8],
    out: &mut Vec<u8>,
) -> Result<(), AllocError>
    ensures ok { OnOk result ((answer : List ℕ) × IsAnswer book.now message.now answer ×
        (out.new.items ≡ out.old.items ++ (answer ++ 10 ∷ []))) }
    ensures begun { (part : List ℕ) × (out.new.items ≡ out.old.items ++ part) }
{
    push_answer(alloc, book, message, out)?;
    out.push(b'\n')?;
    Ok(())
}

// Appends the text of a message, or `? short`, `? unknown` and its token in eight hexadecimal digits, or `? wrong` and an
// offset. After an `Err` a part of that may stand there.
fn push_answer(
    alloc: Global,
    book: &TokenBook,
    message: &[u8],
    out: &mut Vec<u8>,
) -> Result<(), AllocError>
    ensures ok { OnOk result ((answer : List ℕ) × IsAnswer book.now message.now answer × (out.new.items ≡ out.old.items ++ answer)) }
    ensures begun { (part : List ℕ) × (out.new.items ≡ out.old.items ++ part) }
{
    match book.text(message, out) {
        Ok(()) => Ok(()),
        Err(TextRefused::Short) => push_both(out, b"? short", b""),
        Err(TextRefused::Unknown(token)) => {
            let digits = hex::encode(alloc, token.to_be_bytes())?;
            push_both(out, b"? unknown ", digits.as_bytes())
        }
        Err(TextRefused::Wrong(at)) => {
            let digits = at.to_string(alloc)?;
            push_both(out, b"? wrong ", digits.as_bytes())
        }
        Err(TextRefused::Memory) => Err(AllocError),
    }
}

// Appends two texts. After an `Err` a part of them may stand there.
fn push_both(out: &mut Vec<u8>, front: &[u8], behind: &[u8]) -> Result<(), AllocError>
    ensures ok { OnOk result (out.new.items ≡ out.old.items ++ (front.now ++ behind.now)) }
    ensures begun { (part : List ℕ) × (out.new.items ≡ out.old.items ++ part) }
{
    out.extend_from_slice(front)?;
    out.extend_from_slice(behind)
}
