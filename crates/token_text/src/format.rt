//! How formats are read.
ghost use Rattle.std.specs.Prelude.{◌≡◌, ◌<◌, ℕ, List, ◌∷◌, ◌++◌, length, IsNone, IfNone, IfSome, IsSomeAnd, IfOk, position};
ghost use Rattle.token_text.specs.Format.{IsFormat, IsNoFormat, IsPadding, IsPart, IsWidth, is_no_digit, letter as letter_of, padding_text, part_text, percent};
ghost use Rattle.std.specs.Fmt.{decimal};
ghost use Rattle.token_text.specs.declared.part.Notation.{Notation};
ghost use Rattle.token_text.specs.declared.part.Padding.{Padding};
ghost use Rattle.token_text.specs.declared.part.Part.{Part};

use crate::part::{Notation, Padding, Part};
use std::alloc::{AllocError, Global};
use text_fields::number;

/// A format takes so many arguments at most.
const MAX_ARGUMENTS: usize = 16;

/// A format has so many bytes at most.
const MAX_LENGTH: usize = 256;

/// A number is filled up to so many bytes at most.
const MAX_WIDTH: u64 = 20;

/// Where a text fails to be a format: the offset of the first part that isn't allowed, or 256 where the text is only
/// too long.
pub(crate) fn find_fault(text: &[u8]) -> Option<usize>
    ensures format { IfNone result ((parts : List Part) × IsFormat text.now parts) }
    ensures fault { IfSome result (λ at. IsNoFormat text.now at) }
    ensures only { (parts : List Part) → IsFormat text.now parts → IsNone result }
{
    let mut rest = text;
    let mut arguments = 0;
    'parts: while let Some((part, behind)) = read_part(rest) {
        let taken = usize::from(part.is_argument());
        if arguments + taken > MAX_ARGUMENTS {
            return Some(text.len() - rest.len());
        }
        arguments += taken;
        rest = behind;
    }
    if !rest.is_empty() {
        return Some(text.len() - rest.len());
    }
    if text.len() > MAX_LENGTH {
        return Some(MAX_LENGTH);
    }
    None
}

/// The parts of a format.
pub(crate) fn parts_of(alloc: Global, text: &[u8]) -> Result<Vec<Part>, AllocError>
    ensures { (parts : List Part) → IsFormat text.now parts → IfOk result (λ read. read.items ≡ parts) }
{
    let mut parts = Vec::new(alloc);
    let mut rest = text;
    'parts: while let Some((part, behind)) = read_part(rest) {
        parts.push(part)?;
        rest = behind;
    }
    Ok(parts)
}

// The part at the front of a format, and what stands behind it.
fn read_part(text: &[u8]) -> Option<(Part, &[u8])>
    ensures some { IfSome result (λ r. IsPart r.0 × (text.now ≡ part_text r.0 ++ r.1.now)) }
    ensures only { (p : Part) (rest : List ℕ) → IsPart p → text.now ≡ part_text p ++ rest →
        IsSomeAnd result (λ r. (r.0 ≡ p) × (r.1.now ≡ rest)) }
    ensures shorter { IfSome result (λ r. length r.1.now < length text.now) }
{
    let (first, behind) = text.split_first()?;
    match *first {
        b'%' => read_escaped(behind),
        byte @ b' '..=b'~' => Some((Part::Byte(byte), behind)),
        _ => None,
    }
}

// The part whose percent sign stands in front of a text, and what stands behind it.
fn read_escaped(text: &[u8]) -> Option<(Part, &[u8])>
    ensures some { IfSome result (λ r. IsPart r.0 × (percent ∷ text.now ≡ part_text r.0 ++ r.1.now)) }
    ensures only { (p : Part) (rest : List ℕ) → IsPart p → percent ∷ text.now ≡ part_text p ++ rest →
        IsSomeAnd result (λ r. (r.0 ≡ p) × (r.1.now ≡ rest)) }
    ensures shorter { IfSome result (λ r. length r.1.now < length text.now) }
{
    let (letter, behind) = text.split_first()?;
    match *letter {
        b'%' => Some((Part::Byte(b'%'), behind)),
        b's' => Some((Part::Text, behind)),
        _ => {
            let (padding, notation, rest) = read_conversion(text)?;
            Some((Part::Number { padding, notation }, rest))
        }
    }
}

// What stands behind the percent sign of a number, and what stands behind that.
fn read_conversion(text: &[u8]) -> Option<(Padding, Notation, &[u8])>
    ensures some { IfSome result (λ r. IsPadding r.0 × (text.now ≡ padding_text r.0 ++ letter_of r.1 ∷ r.2.now)) }
    ensures only { (filled : Padding) (written : Notation) (rest : List ℕ) → IsPadding filled →
        text.now ≡ padding_text filled ++ letter_of written ∷ rest →
        IsSomeAnd result (λ r. (r.0 ≡ filled) × (r.1 ≡ written) × (r.2.now ≡ rest)) }
    ensures shorter { IfSome result (λ r. length r.2.now < length text.now) }
{
    let (digits, behind) = text.split_at(count_digits(text)?);
    let (letter, rest) = behind.split_first()?;
    let padding = read_padding(digits)?;
    let notation = read_notation(*letter)?;
    Some((padding, notation, rest))
}

// How many digits stand in front of the first byte that is none.
fn count_digits(text: &[u8]) -> Option<usize>
    ensures count { result ≡ position is_no_digit text.now }
    ensures inside { IfSome result (λ n. n < length text.now) }
{
    text.iter().position(|byte| !byte.is_ascii_digit())
}

// The padding that these digits write.
fn read_padding(digits: &[u8]) -> Option<Padding>
    ensures some { IfSome result (λ p. IsPadding p × (digits.now ≡ padding_text p)) }
    ensures only { (p : Padding) → IsPadding p → digits.now ≡ padding_text p → IsSomeAnd result (λ r. r ≡ p) }
{
    let Some((first, width)) = digits.split_first() else {
        return Some(Padding::Bare);
    };
    if *first == b'0' {
        return Some(Padding::Zeros(read_width(width)?));
    }
    Some(Padding::Spaces(read_width(digits)?))
}

// The width that these digits write.
fn read_width(digits: &[u8]) -> Option<u8>
    ensures some { IfSome result (λ w. IsWidth w × (digits.now ≡ decimal w)) }
    ensures only { (w : ℕ) → IsWidth w → digits.now ≡ decimal w → IsSomeAnd result (λ r. r ≡ w) }
{
    let width = number(digits)?;
    if width == 0 || width > MAX_WIDTH {
        return None;
    }
    Some(width as u8)
}

// The notation of this letter.
fn read_notation(letter: u8) -> Option<Notation>
    ensures some { IfSome result (λ n. letter ≡ letter_of n) }
    ensures only { (n : Notation) → letter ≡ letter_of n → IsSomeAnd result (λ r. r ≡ n) }
{
    match letter {
        b'd' => Some(Notation::Signed),
        b'u' => Some(Notation::Unsigned),
        b'x' => Some(Notation::Hexadecimal),
        _ => None,
    }
}
