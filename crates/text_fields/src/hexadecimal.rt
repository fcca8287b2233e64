ghost use Rattle.std.specs.Prelude.{◌≡◌, ℕ, List, IfOk, IfSome, IsSomeAnd};
ghost use Rattle.std.specs.Char.{is_ascii_uppercase};
ghost use Rattle.std.specs.List.{list_any};
ghost use Rattle.hex.specs.Hex.{IsBytes, encode_lower};

use hex::FromHexError;
use std::alloc::{AllocError, Global};

/// The bytes that a text spells in pairs of lower-case hexadecimal digits. The empty text spells no bytes.
pub fn hex_bytes(alloc: Global, text: &[u8]) -> Result<Option<Vec<u8>>, AllocError>
    ensures some { IfOk result (λ found. IfSome found (λ bytes. text.now ≡ encode_lower bytes.items)) }
    ensures bytes { IfOk result (λ found. IfSome found (λ bytes. IsBytes bytes.items)) }
    ensures only { IfOk result (λ found. (bytes : List ℕ) → IsBytes bytes →
        text.now ≡ encode_lower bytes → IsSomeAnd found (λ read. read.items ≡ bytes)) }
{
    if has_capital(text) {
        return Ok(None);
    }
    match hex::decode(alloc, text) {
        Ok(bytes) => Ok(Some(bytes)),
        Err(error) => match error {
            FromHexError::OutOfMemory => Err(AllocError),
            _ => Ok(None),
        },
    }
}

fn has_capital(text: &[u8]) -> bool
    ensures { result ≡ list_any is_ascii_uppercase text.now }
{
    text.iter().any(|byte| byte.is_ascii_uppercase())
}
