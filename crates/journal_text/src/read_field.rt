//! The fields of lines, read.

ghost use Rattle.std.specs.Prelude.{◌≡◌, ◌^◌, ◌<◌, ◌⊎◌, ◌∷◌, ◌++◌, ℕ, List, IfOk, IfSome, IsSomeAnd};
ghost use Rattle.std.specs.Fmt.{decimal};
ghost use Rattle.hex.specs.Hex.{IsBytes, encode_lower};
ghost use Rattle.journal_text.specs.Fields.{IsFirstField, behind};
ghost use Rattle.journal_text.specs.Finds.{Finds};

use bytes::Bytes;
use std::alloc::{AllocError, Global};
use text_fields::{hex_bytes, small_number, split_at, split_at_blank};

/// The number in front of the first separator, which is no digit, and what stands behind that separator.
pub(crate) fn number_before(text: &[u8], separator: u8) -> Option<(u32, &[u8])>
    requires { separator < 48 ⊎ 57 < separator }
    ensures some { IfSome result (λ x. text.now ≡ decimal x.0 ++ separator ∷ x.1.now) }
    ensures fits { IfSome result (λ x. x.0 < 2 ^ 32) }
    ensures only { (n : ℕ) (rest : List ℕ) → n < 2 ^ 32 → text.now ≡ decimal n ++ separator ∷ rest →
        IsSomeAnd result (λ x. (x.0 ≡ n) × (x.1.now ≡ rest)) }
{
    let (number, rest) = split_at(text, separator)?;
    let number = small_number(number)?;
    Some((number, rest))
}

/// The field in front of the first blank, or the whole text where it has none, and what stands behind that blank.
pub(crate) fn first_field(text: &[u8]) -> (&[u8], Option<&[u8]>)
    ensures { IsFirstField text.now result.0.now (behind result.1) }
{
    match split_at_blank(text) {
        Some((field, rest)) => (field, Some(rest)),
        None => (text, None),
    }
}

/// The bytes that a text spells in lower-case hexadecimal digits.
pub(crate) fn read_bytes(alloc: Global, text: &[u8]) -> Result<Option<Bytes>, AllocError>
    ensures { IfOk result (λ found. Finds found (λ bytes. (text.now ≡ encode_lower bytes) × IsBytes bytes)) }
{
    let Some(bytes) = hex_bytes(alloc, text)? else {
        return Ok(None);
    };
    Ok(Some(Bytes::from_vec(bytes)?))
}
