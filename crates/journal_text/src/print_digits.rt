//! Bytes in hexadecimal digits.

ghost use Rattle.std.specs.Prelude.{◌≡◌, IfOk, string_bytes};
ghost use Rattle.hex.specs.Hex.{IsBytes, encode_lower};

use std::alloc::{AllocError, Global};

/// Bytes in lower-case hexadecimal digits, two for each.
pub(crate) fn digits_of(alloc: Global, bytes: &[u8]) -> Result<String, AllocError>
    ensures ok { IfOk result (λ text. string_bytes text ≡ encode_lower bytes.now) }
    ensures bytes { IsBytes bytes.now }
{
    hex::encode(alloc, bytes)
}
