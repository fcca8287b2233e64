//! Numbers and bytes in the fields of a line.
ghost use Rattle.std.specs.Prelude.{◌≡◌, ℕ, ◌^◌, ◌<◌, ◌++◌, List, IfOk, IfSome, IsSomeAnd, codes};
ghost use Rattle.std.specs.Fmt.{decimal};
ghost use Rattle.hex.specs.Hex.{encode_lower};
ghost use Rattle.link_script.specs.Script.{IsMessage};

use crate::MAX_MESSAGE;
use bytes::Bytes;
use std::alloc::{AllocError, Global};
use text_fields::{hex_bytes, small_number, split_at_blank};

/// The number in front of the first blank, and what stands behind that blank.
pub(crate) fn number_field(text: &[u8]) -> Option<(u32, &[u8])>
    ensures some { IfSome result (λ x. text.now ≡ decimal x.0 ++ (codes " " ++ x.1.now)) }
    ensures fits { IfSome result (λ x. x.0 < 2 ^ 32) }
    ensures only { (n : ℕ) (rest : List ℕ) → n < 2 ^ 32 → text.now ≡ decimal n ++ (codes " " ++ rest) →
        IsSomeAnd result (λ x. (x.0 ≡ n) × (x.1.now ≡ rest)) }
{
    let (number, rest) = split_at_blank(text)?;
    let number = small_number(number)?;
    Some((number, rest))
}

/// The message that a text spells in lower-case hexadecimal digits.
pub(crate) fn read_message(alloc: Global, text: &[u8]) -> Result<Option<Bytes>, AllocError>
    ensures some { IfOk result (λ found. IfSome found (λ bytes. (text.now ≡ encode_lower bytes) × IsMessage bytes)) }
    ensures only { IfOk result (λ found. (bytes : List ℕ) → text.now ≡ encode_lower bytes → IsMessage bytes →
        IsSomeAnd found (λ message. message ≡ bytes)) }
{
    let Some(bytes) = hex_bytes(alloc, text)? else {
        return Ok(None);
    };
    if bytes.is_empty() || bytes.len() > MAX_MESSAGE {
        return Ok(None);
    }
    Ok(Some(Bytes::from_vec(bytes)?))
}
