//! How numbers are printed.
ghost use Rattle.std.specs.Prelude.{◌≡◌, ℕ, ◌-◌, List, ◌++◌, IfOk, OnOk, OnErr, string_bytes, replicate};
ghost use Rattle.token_text.specs.Printing.{digits_of as digits_text, filled_up, number_text, sign_of};

use crate::part::{Notation, Padding};
use std::alloc::{AllocError, Global};

/// Appends a number. After an `Err` a part of it may stand there.
pub(crate) fn push_number(
    out: &mut Vec<u8>,
    padding: Padding,
    notation: Notation,
    number: i64,
) -> Result<(), AllocError>
    ensures ok { OnOk result (out.new.items ≡ out.old.items ++ number_text padding notation number) }
    ensures begun { (part : List ℕ) × (out.new.items ≡ out.old.items ++ part) }
{
    let digits = digits_of(*out.allocator(), notation, number)?;
    push_filled(out, padding, sign(notation, number), digits.as_bytes())
}

// The minus of a negative number, where the notation writes one.
fn sign(notation: Notation, number: i64) -> &'static [u8]
    ensures { result.now ≡ sign_of notation number }
{
    match notation {
        Notation::Signed if number < 0 => b"-",
        _ => b"",
    }
}

fn digits_of(alloc: Global, notation: Notation, number: i64) -> Result<String, AllocError>
    ensures { IfOk result (λ digits. string_bytes digits ≡ digits_text notation number) }
{
    match notation {
        Notation::Signed => number.unsigned_abs().to_string(alloc),
        Notation::Unsigned => number.cast_unsigned().to_string(alloc),
        Notation::Hexadecimal => {
            let word = number.cast_unsigned();
            format!(in alloc; "{word:x}")
        }
    }
}

// Appends a sign and digits, filled up on the left. After an `Err` a part of that may stand there.
fn push_filled(
    out: &mut Vec<u8>,
    padding: Padding,
    sign: &[u8],
    digits: &[u8],
) -> Result<(), AllocError>
    ensures ok { OnOk result (out.new.items ≡ out.old.items ++ filled_up padding sign.now digits.now) }
    ensures begun { (part : List ℕ) × (out.new.items ≡ out.old.items ++ part) }
{
    let length = sign.len().saturating_add(digits.len());
    fill(out, b' ', padding.spaces(), length)?;
    out.extend_from_slice(sign)?;
    fill(out, b'0', padding.zeros(), length)?;
    out.extend_from_slice(digits)
}

// Appends as many of this byte as a text of this length lacks to the width.
fn fill(out: &mut Vec<u8>, byte: u8, width: u8, length: usize) -> Result<(), AllocError>
    ensures ok { OnOk result (out.new.items ≡ out.old.items ++ replicate (width - length) byte) }
    ensures err { OnErr result (out.new.items ≡ out.old.items) }
{
    let missing = usize::from(width).saturating_sub(length);
    out.resize(out.len() + missing, byte)
}
